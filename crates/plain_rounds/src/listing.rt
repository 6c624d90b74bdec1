// The instances of a program, listed.
ghost use Rattle.std.specs.Prelude.{◌≡◌, ◌<◌, ◌≤◌, ◌+◌, ◌*◌, ℕ, List, OnOk, Some, length, slice_get};
ghost use Rattle.std.specs.Option.{option_map};
ghost use Rattle.ast_grammar.specs.Grammar.{is_sub};
ghost use Rattle.attr_rules.specs.Rules.{most_attributes};
ghost use Rattle.equation_law.specs.Program.{query_instances, at_source, most_replies};
ghost use Rattle.tree_arena.specs.Nodes.{most_nodes};
ghost use Rattle.equation_law.specs.Systems.{program_of};
ghost use Rattle.plain_rounds.specs.Listing.{AddsInstances, all_plain_instances, instances_of_class, plain_instances};
ghost use Rattle.plain_rounds.specs.Named.{name_in};

use crate::growing::push;
use crate::naming::{Name, NamedArgs, NamedInstance, NodeName};
use ast_grammar::{ClassId, Grammar};
use attr_rules::{Attr, AttrId};
use equation_law::{QueryId, System};
use rag_io::Memory;
use tree_arena::Tree;

/// Whether a node is of a class or of a subclass.
pub(crate) fn is_of(grammar: &Grammar, tree: &Tree, node: u32, class: ClassId) -> bool
    requires { node < length tree.now }
    ensures { option_map (λ n. is_sub grammar.now n.class.0 class.0) (slice_get tree.now node) ≡ Some result }
{
    grammar.is_sub(tree.class_of(node), class)
}

/// The instance of an attribute at a source node, without arguments.
fn at_node(attr: AttrId, node: u32) -> Name
    ensures { (texts : ℕ → List ℕ) → name_in texts result ≡ at_source attr.0 node }
{
    Name::Attribute(NamedInstance {
        attr,
        node: NodeName::Source(node),
        args: NamedArgs::None,
    })
}

/// The instances of an attribute, at the nodes of its class and of subclasses.
fn push_nodes(
    names: &mut Vec<Name>,
    grammar: &Grammar,
    tree: &Tree,
    attr: AttrId,
    class: ClassId,
) -> Result<(), Memory>
    ensures names { OnOk result (AddsInstances names.old.items names.new.items (instances_of_class grammar.now tree.now attr.0 class)) }
    ensures few { length names.new.items ≤ length names.old.items + most_nodes }
{
    for node in 0..tree.len() {
        if is_of(grammar, tree, node, class) {
            push(names, at_node(attr, node))?;
        }
    }
    Ok(())
}

/// The instances of an attribute without parameters; of one with parameters there are none.
fn push_plain(
    names: &mut Vec<Name>,
    system: &System,
    attr: AttrId,
    declared: &Attr,
) -> Result<(), Memory>
    ensures names { OnOk result (AddsInstances names.old.items names.new.items (plain_instances (program_of system.now) attr.0 declared.now)) }
    ensures few { length names.new.items ≤ length names.old.items + most_nodes }
{
    if declared.params.count > 0 {
        return Ok(());
    }
    push_nodes(names, system.grammar(), system.tree(), attr, declared.class)
}

/// The instances of all attributes without parameters.
pub(crate) fn push_attributes(names: &mut Vec<Name>, system: &System) -> Result<(), Memory>
    ensures names { OnOk result (AddsInstances names.old.items names.new.items (all_plain_instances (program_of system.now))) }
    ensures few { length names.new.items ≤ length names.old.items + most_attributes * most_nodes }
{
    let rules = system.rules();
    for number in 0..rules.attrs() {
        let attr = AttrId(number as u16);
        push_plain(names, system, attr, rules.attr(attr))?;
    }
    Ok(())
}

/// The queries.
pub(crate) fn push_queries(names: &mut Vec<Name>, system: &System) -> Result<(), Memory>
    ensures names { OnOk result (AddsInstances names.old.items names.new.items (query_instances (program_of system.now).queries 0)) }
    ensures few { length names.new.items ≤ length names.old.items + most_replies }
{
    for query in 0..system.replies() {
        push(names, Name::Query(QueryId(query)))?;
    }
    Ok(())
}
