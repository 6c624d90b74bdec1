// The rules on declarations: J2, J3, J4, J13, J15 and J17.
ghost use Rattle.std.specs.Prelude.{◌≡◌, ◌<◌, Some, IfOk, OnOk, map};
ghost use Rattle.std.specs.Option.{option_map};
ghost use Rattle.broken_rules.specs.Answers.{Ends};
ghost use Rattle.broken_rules.specs.Notes.{Notes};
ghost use Rattle.attr_rules.specs.KeptAttributes.{seen_attribute};
ghost use Rattle.attr_heads.specs.DeclaredNames.{KeepsClass, NotesAgain, NotesNamed, TellsMore};
ghost use Rattle.attr_heads.specs.FirstInherited.{NotesOther, TellsFirstMore};
ghost use Rattle.attr_heads.specs.Heads.{attribute_of, attributes_declared, attributes_of, heads_broken, is_other, is_taken, type_broken};
ghost use Rattle.attr_scope.specs.Seen.{seen_head};
ghost use Rattle.aspect_items.specs.Expressions.{seen_name};
ghost use Rattle.aspect_items.specs.Items.{seen_type};

use crate::collections::{check_collection, collecting_declared};
use crate::created::check_created_type;
use crate::declared::Declared;
use crate::inheriting::Inheriting;
use crate::parameters::{check_own_parameters, differ_from, params_written};
use crate::starts::{are_unlike, check_start, is_circular, start_declared};
use aspect_items::{Name, Type};
use ast_grammar::{ClassId, Grammar};
use attr_rules::{Attr, Attributes, NamedAttr, is_spelled};
use attr_scope::{Head, check_class, kind_written, same_kind, type_written};
use broken_rules::{Earliest, ReadFault, Rule};
use rag_io::Memory;
use std::alloc::Global;

/// So many attributes may be declared.
const MOST_ATTRIBUTES: usize = 1024;

// The name is that of an accessor of the class or of a subclass.
fn is_taken(grammar: &Grammar, class: ClassId, name: &[u8]) -> bool
    ensures { result ≡ is_taken grammar.now class.0 name.now }
{
    (0..grammar.classes()).any(|number| {
        let below = ClassId(number as u16);
        grammar.is_sub(below, class) && is_spelled(grammar, below, name)
    })
}

// J3 at the name of a declaration for a class: it is declared a second time, or is an accessor's. It counts as declared then.
fn check_again<'a>(
    alloc: Global,
    grammar: &Grammar,
    declared: &mut Declared<'a>,
    class: ClassId,
    name: &'a Name,
    faults: &mut Earliest,
) -> Result<(), Memory>
    ensures noted { OnOk result (NotesAgain grammar.now declared.old class (seen_name name.now) faults.old faults.new) }
    ensures kept { OnOk result (KeepsClass grammar.now declared.old class (seen_name name.now).text declared.new) }
{
    let is_again = declared.contains(grammar, class, &name.text);
    faults.note_if(
        is_again || is_taken(grammar, class, &name.text),
        Rule::J3,
        name.place,
    );
    declared.insert(alloc, class, &name.text)
}

// J4 at what is no type.
fn check_type(grammar: &Grammar, of: &Type, faults: &mut Earliest)
    ensures { Notes (type_broken grammar.now (seen_type of.now)) faults.old faults.new }
{
    faults.note_if(type_written(grammar, of).is_none(), Rule::J4, of.place);
}

// J2, J3, J4 and J17 of a declaration, before which there are so many.
fn check_named<'a>(
    alloc: Global,
    grammar: &Grammar,
    declared: &mut Declared<'a>,
    count: usize,
    head: &Head<'a>,
    faults: &mut Earliest,
) -> Result<(), Memory>
    ensures noted { OnOk result (NotesNamed grammar.now declared.old count (seen_head head.now) faults.old faults.new) }
    ensures told { OnOk result (TellsMore grammar.now declared.old (seen_head head.now) declared.new) }
{
    let name = head.name;
    check_type(grammar, head.of, faults);
    if let Some(class) = check_class(grammar, head.class, faults) {
        check_again(alloc, grammar, declared, class, name, faults)?;
    }
    faults.note_if(count == MOST_ATTRIBUTES, Rule::J17, name.place);
    Ok(())
}

// An inherited attribute isn't declared as the first one of its name, in its type, in being circular, or in its parameters.
fn is_other(grammar: &Grammar, head: &Head<'_>, first: Option<Head<'_>>) -> bool
    ensures { result ≡ is_other grammar.now (seen_head head.now) (option_map seen_head first.entry) }
{
    let Some(first) = first else { return false };
    let kind = type_written(grammar, head.of);
    !same_kind(type_written(grammar, first.of), kind)
        || are_unlike(is_circular(first.circular), is_circular(head.circular))
        || differ_from(grammar, first.parameters, head.parameters)
}

// J15 of a declaration. That of an inherited attribute is kept, where it is the first of its name.
fn check_other<'a>(
    grammar: &Grammar,
    inheriting: &mut Inheriting<'a>,
    head: &Head<'a>,
    faults: &mut Earliest,
) -> Result<(), Memory>
    ensures noted { OnOk result (NotesOther grammar.now inheriting.old.heads (seen_head head.now) faults.old faults.new) }
    ensures told { OnOk result (TellsFirstMore inheriting.old.heads (seen_head head.now) inheriting.new.heads) }
{
    if !head.sort.is_inherited() {
        return Ok(());
    }
    let name = head.name;
    let first = inheriting.first(&name.text);
    faults.note_if(is_other(grammar, head, first), Rule::J15, name.place);
    inheriting.insert(&name.text, *head)
}

/// What a declaration declares. A class that there isn't counts as the first.
pub(crate) fn attribute_of<'a>(grammar: &Grammar, head: &Head<'a>) -> NamedAttr<'a>
    ensures { seen_attribute result ≡ attribute_of grammar.now (seen_head head.now) }
{
    let class = grammar.find_class(&head.class.text).unwrap_or(ClassId(0));
    let kind = kind_written(grammar, head.of);
    NamedAttr {
        name: &head.name.text,
        declared: Attr {
            class,
            sort: head.sort,
            kind,
            params: params_written(grammar, head.parameters),
            circular: is_circular(head.circular),
            start: start_declared(kind, head.circular),
        },
        collecting: collecting_declared(grammar, head.collection),
    }
}

// What the declarations declare.
fn named_attributes<'a>(
    alloc: Global,
    grammar: &Grammar,
    heads: &[Head<'a>],
) -> Result<Vec<NamedAttr<'a>>, Memory>
    ensures { IfOk result (λ list. map seen_attribute list.items ≡ attributes_of grammar.now (map seen_head heads.now)) }
{
    let mut list = Vec::new(alloc);
    for head in heads {
        list.push(attribute_of(grammar, head)).map_err(|_| Memory)?;
    }
    Ok(list)
}

// What the declarations break.
fn note_heads(
    alloc: Global,
    grammar: &Grammar,
    heads: &[Head<'_>],
    faults: &mut Earliest,
) -> Result<(), Memory>
    ensures { OnOk result (Notes (heads_broken grammar.now (map seen_head heads.now)) faults.old faults.new) }
{
    let mut declared = Declared::new(alloc);
    let mut inheriting = Inheriting::new(alloc);
    for (count, head) in heads.iter().enumerate() {
        check_named(alloc, grammar, &mut declared, count, head, faults)?;
        check_start(grammar, head.sort, head.of, head.circular, faults);
        check_created_type(grammar, head.sort, head.of, head.name, faults);
        check_other(grammar, &mut inheriting, head, faults)?;
        check_collection(grammar, head.of, head.collection, faults);
        check_own_parameters(alloc, grammar, head.parameters, faults)?;
    }
    Ok(())
}

/// The phase of declarations: the attributes that they declare, at most 1,024, where no rule on declarations is broken.
pub fn check_heads(
    alloc: Global,
    grammar: &Grammar,
    heads: &[Head<'_>],
) -> Result<Attributes, ReadFault>
    ensures phase { Ends (heads_broken grammar.now (map seen_head heads.now)) result }
    ensures attributes { IfOk result (λ a. a ≡ attributes_declared grammar.now (map seen_head heads.now)) }
{
    let mut faults = Earliest::new();
    note_heads(alloc, grammar, heads, &mut faults)?;
    faults.answer()?;
    let list = named_attributes(alloc, grammar, heads)?;
    Ok(Attributes::of_list(alloc, grammar, &list)?)
}
