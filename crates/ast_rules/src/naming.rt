// The rules on the names of a grammar: G2, G3, G5, G7 and G8.
ghost use Rattle.std.specs.Prelude.{◌≡◌, [], IfOk, OnOk};
ghost use Rattle.broken_rules.specs.Answers.{Ends};
ghost use Rattle.broken_rules.specs.Notes.{Notes, each_after};
ghost use Rattle.names.specs.Among.{is_among};
ghost use Rattle.names.specs.Known.{Knows, Numbers};
ghost use Rattle.rag_io.specs.Words.{is_one_of};
ghost use Rattle.ast_rules.specs.Naming.{again_broken, component_broken, form_broken, naming_broken, reserved_broken, rule_broken};
ghost use Rattle.ast_rules.specs.Naming.{is_class, kept_words, names_of, superclass_broken, token_broken, token_types, type_broken, type_of};
ghost use Rattle.ast_rules.specs.Written.{seen_component, seen_name, seen_rule, seen_rules};

use crate::written::{Form, Name, WrittenComponent, WrittenRule};
use broken_rules::{Earliest, ReadFault, Rule};
use names::Names;
use rag_io::{Memory, is_reserved};
use std::alloc::Global;

// The words that JastAdd2 keeps for itself.
fn is_kept(text: &[u8]) -> bool
    ensures { result ≡ is_one_of kept_words text.now }
{
    text == b"ASTNode".as_slice()
        || text == b"List".as_slice()
        || text == b"Opt".as_slice()
        || text == b"Child".as_slice()
        || text == b"Parent".as_slice()
}

fn is_token_type(text: &[u8]) -> bool
    ensures { result ≡ is_one_of token_types text.now }
{
    text == b"String".as_slice() || text == b"int".as_slice() || text == b"boolean".as_slice()
}

/// The type of a child, list or optional: the second word where there are two.
pub fn type_of<'a>(component: &WrittenComponent<'a>) -> Name<'a>
    ensures { seen_name result ≡ type_of (seen_component component.now) }
{
    match component.type_name {
        Some(second) => second,
        None => component.name,
    }
}

// G8.
fn check_word(name: &Name<'_>, faults: &mut Earliest)
    ensures { Notes (reserved_broken (seen_name name.now)) faults.old faults.new }
{
    let is_taken = is_reserved(name.text) || is_kept(name.text);
    faults.note_if(is_taken, Rule::G8, name.place);
}

// G3.
fn check_superclass(names: &Names<'_>, rule: &WrittenRule<'_>, faults: &mut Earliest)
    ensures { Notes (superclass_broken (is_among names.now) (seen_rule rule.now).superclass) faults.old faults.new }
{
    if let Some(name) = &rule.superclass {
        faults.note_if(!names.contains(name.text), Rule::G3, name.place);
    }
}

// G5.
fn check_type(names: &Names<'_>, name: &Name<'_>, faults: &mut Earliest)
    ensures { Notes (type_broken (is_among names.now) (seen_name name.now)) faults.old faults.new }
{
    faults.note_if(!names.contains(name.text), Rule::G5, name.place);
}

// G7.
fn check_token(component: &WrittenComponent<'_>, faults: &mut Earliest)
    ensures { Notes (token_broken (seen_component component.now).type_name) faults.old faults.new }
{
    if let Some(name) = &component.type_name {
        faults.note_if(!is_token_type(name.text), Rule::G7, name.place);
    }
}

// G5 or G7.
fn check_form(names: &Names<'_>, component: &WrittenComponent<'_>, faults: &mut Earliest)
    ensures { let c = seen_component component.now in
        Notes (form_broken (is_among names.now) c.form c) faults.old faults.new }
{
    match component.form {
        Form::Child | Form::List | Form::Optional => {
            check_type(names, &type_of(component), faults);
        }
        Form::Token => check_token(component, faults),
    }
}

// G5, G7 and G8 of a component.
fn check_component(names: &Names<'_>, component: &WrittenComponent<'_>, faults: &mut Earliest)
    ensures { Notes (component_broken (is_among names.now) (seen_component component.now)) faults.old faults.new }
{
    check_form(names, component, faults);
    check_word(&component.name, faults);
}

// G3, G5, G7 and G8 of a rule.
fn check_rule(names: &Names<'_>, rule: &WrittenRule<'_>, faults: &mut Earliest)
    ensures { Notes (rule_broken (is_among names.now) (seen_rule rule.now)) faults.old faults.new }
{
    check_superclass(names, rule, faults);
    check_word(&rule.name, faults);
    for component in &rule.components {
        check_component(names, component, faults);
    }
}

// The names of the classes. Notes G2.
fn collect_names<'a>(
    alloc: Global,
    rules: &[WrittenRule<'a>],
    faults: &mut Earliest,
) -> Result<Names<'a>, Memory>
    ensures noted { OnOk result (Notes (each_after again_broken [] (seen_rules rules.now)) faults.old faults.new) }
    ensures names { IfOk result (λ names. Knows names (is_class (seen_rules rules.now))) }
    ensures numbers { IfOk result (λ names. Numbers names (names_of (seen_rules rules.now))) }
{
    let mut names = Names::new(alloc);
    for rule in rules {
        let is_new = names.insert(rule.name.text)?;
        faults.note_if(!is_new, Rule::G2, rule.name.place);
    }
    Ok(names)
}

/// The phase of names: the names of the classes, where no rule on names is broken. A class's number is its place among the rules.
/// The names borrow from the text, and not from the rules.
pub(crate) fn check_naming<'a>(
    alloc: Global,
    rules: &[WrittenRule<'a>],
) -> Result<Names<'a>, ReadFault>
    ensures phase { Ends (naming_broken (seen_rules rules.now)) result }
    ensures names { IfOk result (λ names. names ≡ names_of (seen_rules rules.now)) }
{
    let mut faults = Earliest::new();
    let names = collect_names(alloc, rules, &mut faults)?;
    for rule in rules {
        check_rule(&names, rule, &mut faults);
    }
    faults.answer()?;
    Ok(names)
}
