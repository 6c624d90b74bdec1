// The grammar that some rules write.
ghost use Rattle.std.specs.Prelude.{◌≡◌, ◌<◌, ◌≤◌, length, map, reverse, IfOk};
ghost use Rattle.std.specs.List.{flat_map};
ghost use Rattle.std.specs.Option.{option_map};
ghost use Rattle.superclasses.specs.Superclasses.{AreWithin, superclass_of, upwards};
ghost use Rattle.ast_rules.specs.Naming.{names_of};
ghost use Rattle.ast_rules.specs.Reading.{AreNamed};
ghost use Rattle.ast_rules.specs.Superclasses.{superclass_numbers};
ghost use Rattle.ast_rules.specs.Written.{seen_rules};
ghost use Rattle.ast_grammar.specs.Building.{AreKeptOf, items_of, own_at, own_numbered};
ghost use Rattle.ast_grammar.specs.Grammar.{IsGrammar, most_classes};
ghost use Rattle.ast_grammar.specs.Written.{class_id, grammar_written};

use crate::grammar::{ClassId, Component, Grammar, KeptClass};
use crate::naming::name_table;
use crate::numbering::number_components;
use ast_rules::{ClassNumbers, WrittenRule};
use rag_io::Memory;
use std::alloc::Global;
use superclasses::{Subclasses, line_of};

// The components of a class: those of its superclasses, the farthest first, and then its own.
fn components_of(
    alloc: Global,
    own: &[Vec<Component>],
    superclasses: &[Option<usize>],
    class: usize,
) -> Result<Vec<Component>, Memory>
    ensures { IfOk result (λ v. v.items ≡ flat_map (own_at (map items_of own.now)) (reverse (upwards superclasses.now class))) }
{
    let mut line = line_of(alloc, superclasses, class)?;
    line.reverse();
    line.push(class).map_err(|_| Memory)?;
    let mut components = Vec::new(alloc);
    for number in &line {
        if let Some(own) = own.get(*number) {
            components.extend_from_slice(own).map_err(|_| Memory)?;
        }
    }
    Ok(components)
}

// The superclass of a class.
fn superclass_at(superclasses: &[Option<usize>], class: usize) -> Option<ClassId>
    requires known { class < length superclasses.now }
    requires few { length superclasses.now ≤ most_classes }
    requires within { AreWithin superclasses.now }
    ensures { result ≡ option_map class_id (superclass_of superclasses.now class) }
{
    let above = superclasses[class]?;
    Some(ClassId(above as u16))
}

// What is kept of the classes of some rules.
fn kept_classes(
    alloc: Global,
    rules: &[WrittenRule<'_>],
    superclasses: &[Option<usize>],
    own: &[Vec<Component>],
) -> Result<Vec<KeptClass>, Memory>
    requires few { length rules.now ≤ most_classes }
    requires superclasses { superclasses.now ≡ superclass_numbers (names_of (seen_rules rules.now)) (seen_rules rules.now) }
    requires within { AreWithin superclasses.now }
    requires own { map items_of own.now ≡ map (own_numbered (seen_rules rules.now)) (seen_rules rules.now) }
    ensures { IfOk result (λ v. AreKeptOf (seen_rules rules.now) v.items) }
{
    let mut kept = Vec::new(alloc);
    for (i, rule) in rules.iter().enumerate() {
        let class = KeptClass {
            is_abstract: rule.is_abstract,
            name: i as u32 + 1,
            superclass: superclass_at(superclasses, i),
            components: components_of(alloc, own, superclasses, i)?,
        };
        kept.push(class).map_err(|_| Memory)?;
    }
    Ok(kept)
}

// The grammar of some rules, which break none.
pub(crate) fn build(
    alloc: Global,
    rules: &[WrittenRule<'_>],
    numbers: ClassNumbers<'_>,
) -> Result<Grammar, Memory>
    requires allowed { IsGrammar (grammar_written (seen_rules rules.now)) }
    requires words { AreNamed (seen_rules rules.now) }
    requires names { numbers.names ≡ names_of (seen_rules rules.now) }
    requires superclasses { numbers.superclasses.items ≡ superclass_numbers (names_of (seen_rules rules.now)) (seen_rules rules.now) }
    ensures { IfOk result (λ grammar. grammar ≡ grammar_written (seen_rules rules.now)) }
{
    let names = name_table(alloc, rules)?;
    let own = number_components(alloc, &names, &numbers.names, rules)?;
    let classes = kept_classes(alloc, rules, &numbers.superclasses, &own)?;
    let subclasses = Subclasses::of_superclasses(alloc, numbers.superclasses)?;
    Ok(Grammar::of_parts(names, subclasses, classes))
}
