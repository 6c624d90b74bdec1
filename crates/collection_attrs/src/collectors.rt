// Which instances are collections, and the root of one.
ghost use Rattle.std.specs.Prelude.{◌≡◌, ◌<◌, ◌≤◌, IfNone, IfSome, None, Some, length};
ghost use Rattle.std.specs.Option.{is_some};
ghost use Rattle.tree_arena.specs.Nodes.{most_nodes};
ghost use Rattle.tree_arena.specs.Terms.{IsTree};
ghost use Rattle.equation_law.specs.Equations.{collection_root};
ghost use Rattle.equation_law.specs.Reading.{IsSound, code_above};
ghost use Rattle.equation_law.specs.Systems.{program_of};
ghost use Rattle.collection_attrs.specs.Roots.{FindsRoot, IsRootAt, LeadsToRoot};
ghost use Rattle.collection_attrs.specs.Surveys.{Collections, IsAtNode, IsCollectionOrNot, IsCollectorOf, IsNoCollection, SaysCollection};

use ast_grammar::ClassId;
use attr_rules::{AttrId, Kind, Method};
use equation_law::{Instance, NodeRef, Reader, System, Up};
use inherited_walk::class_at;

/// A collection at a node: the attribute, the node, how it combines, and the type of its values.
#[derive(Clone, Copy)]
pub struct Collector {
    pub attr: AttrId,
    pub node: NodeRef,
    pub method: Method,
    pub kind: Kind,
}

/// The collection that an instance is, if it is one. It takes no memory.
pub fn collector_of(system: &System, i: &Instance) -> Option<Collector>
    ensures some { IfSome result (SaysCollection (program_of system.now) i.now) }
    ensures node { IfSome result (λ of. IsAtNode i.now of.node) }
    ensures none { IfNone result (IsNoCollection (program_of system.now) i.now) }
{
    let Instance::Attr { attr, node, .. } = *i else {
        return None;
    };
    if node.0 == 0 {
        return None;
    }
    if u32::from(attr.0) >= system.rules().attrs() {
        return None;
    }
    let method = system.rules().method(attr)?;
    let kind = system.rules().attr(attr).kind;
    Some(Collector {
        attr,
        node,
        method,
        kind,
    })
}

/// Whether an instance is a collection.
pub fn is_collection(system: &System, i: &Instance) -> bool
    ensures { IsCollectionOrNot (program_of system.now) i.now result }
{
    collector_of(system, i).is_some()
}

/// The closest node upwards, the node itself included, that is of a class or of a subclass.
fn closest(system: &System, class: ClassId, node: u32) -> Option<u32>
    requires within { node < length (program_of system.now).tree }
    requires tree { IsTree (program_of system.now).tree }
    ensures found { result ≡ collection_root (program_of system.now) (Some class) node }
    ensures within { IfSome result (λ r. r < length (program_of system.now).tree) }
{
    let tree = system.tree();
    let mut at = node;
    'upwards: while !system.grammar().is_sub(tree.class_of(at), class) {
        at = tree.parent(at)?;
    }
    Some(at)
}

/// The node that stands above one that was made.
fn node_above(up: Up) -> NodeRef
    ensures { result.0 ≡ code_above up }
{
    match up {
        Up::Inside { parent, .. } => parent,
        Up::Owner { node, .. } => node,
    }
}

/// The closest node upwards of a class or of a subclass, from a source node on.
fn source_root(system: &System, class: ClassId, node: NodeRef) -> Option<u32>
    requires { node.0 ≤ most_nodes }
    ensures found { IsRootAt (program_of system.now) class node result }
    ensures within { IfSome result (λ r. r < length (program_of system.now).tree) }
{
    let number = node.source()?;
    if number >= system.tree().len() {
        return None;
    }
    closest(system, class, number)
}

/// The closest node upwards of a class or of a subclass, where that is a source node: in a tree that was made nothing contributes. Above the root of
/// such a tree stands the owner.
fn climb<R: Reader>(system: &System, class: ClassId, node: NodeRef, reader: &mut R) -> Option<u32>
    requires sound { IsSound (program_of system.now) (R.tells reader.old) }
    requires known { (R.tells reader.old).knows node.0 }
    ensures { LeadsToRoot (program_of system.now) (R.tells reader.old) (R.tells reader.new) class node result }
{
    // The tree has no more nodes than there are codes of source nodes.
    prove!(system.tree().len() > 0);
    let mut at = node;
    'upwards: while at.is_made() {
        let own = class_at(system, at, reader)?;
        if system.grammar().is_sub(own, class) {
            return None;
        }
        at = node_above(reader.made_up(at));
    }
    source_root(system, class, at)
}

/// The root in whose subtree what is offered to a collection stands. Where there is none, nothing is offered. It takes no memory, and time in
/// proportion to the way upwards.
pub fn root_of<R: Reader>(system: &System, of: Collector, reader: &mut R) -> Option<u32>
    requires collection { (c : Collections) × IsCollectorOf (program_of system.now) of c }
    requires sound { IsSound (program_of system.now) (R.tells reader.old) }
    requires known { (R.tells reader.old).knows of.node.0 }
    ensures { FindsRoot (program_of system.now) (R.tells reader.old) (R.tells reader.new) of result }
{
    // The tree has a root.
    prove!(system.tree().len() > 0);
    let Some(class) = system.rules().root(of.attr) else {
        return Some(0);
    };
    climb(system, class, of.node, reader)
}
