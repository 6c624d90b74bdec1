// The names of a grammar.
ghost use Rattle.std.specs.Prelude.{◌≡◌, ◌+◌, ◌<◌, ◌≤◌, length, map, IfOk, OnOk};
ghost use Rattle.names.specs.Among.{with_name, with_names};
ghost use Rattle.rag_io.specs.Pool.{most_texts};
ghost use Rattle.ast_rules.specs.Members.{names_of_components};
ghost use Rattle.ast_rules.specs.Naming.{names_of};
ghost use Rattle.ast_rules.specs.Written.{seen_component, seen_rules};
ghost use Rattle.ast_grammar.specs.Building.{AreSmall};
ghost use Rattle.ast_grammar.specs.Written.{name_table};

use ast_rules::{WrittenComponent, WrittenRule};
use rag_io::{Memory, Pool, PoolFault};
use std::alloc::Global;

// Adds a name, where there is room.
fn add_name(names: &mut Pool, name: &[u8]) -> Result<(), Memory>
    requires { length names.old < most_texts }
    ensures { OnOk result (names.new ≡ with_name names.old name.now) }
{
    match names.add(name) {
        Ok(_) => Ok(()),
        Err(PoolFault::Memory) => Err(Memory),
        Err(PoolFault::Full) => unreachable!(),
    }
}

// Adds the names of the classes.
fn add_classes(names: &mut Pool, rules: &[WrittenRule<'_>]) -> Result<(), Memory>
    requires { length names.old + length rules.now ≤ most_texts }
    ensures { OnOk result (names.new ≡ with_names names.old (names_of (seen_rules rules.now))) }
{
    for rule in rules {
        add_name(names, rule.name.text)?;
    }
    Ok(())
}

// Adds the names of some components.
fn add_components(names: &mut Pool, components: &[WrittenComponent<'_>]) -> Result<(), Memory>
    requires { length names.old + length components.now ≤ most_texts }
    ensures { OnOk result (names.new ≡ with_names names.old (names_of_components (map seen_component components.now))) }
{
    for component in components {
        add_name(names, component.name.text)?;
    }
    Ok(())
}

// The names of a grammar: the empty one, those of the classes, and those of the components, each once.
pub(crate) fn name_table(alloc: Global, rules: &[WrittenRule<'_>]) -> Result<Pool, Memory>
    requires { AreSmall (seen_rules rules.now) }
    ensures { IfOk result (λ names. names ≡ name_table (seen_rules rules.now)) }
{
    let mut names = Pool::new(alloc)?;
    add_classes(&mut names, rules)?;
    for rule in rules {
        add_components(&mut names, &rule.components)?;
    }
    Ok(names)
}
