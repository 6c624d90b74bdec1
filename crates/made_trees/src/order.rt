// The order of nodes by their names.
ghost use Rattle.std.specs.Prelude.{◌≡◌, ◌<◌};
ghost use Rattle.attr_rules.specs.Types.{parameter_kinds};
ghost use Rattle.equation_law.specs.Codes.{IsCode};
ghost use Rattle.equation_law.specs.Program.{attribute_parameters};
ghost use Rattle.equation_law.specs.Reading.{reference_cmp};
ghost use Rattle.equation_law.specs.Systems.{program_of};
ghost use Rattle.made_trees.specs.Makers.{AreTrees, naming_of, stands_for};
ghost use Rattle.made_trees.specs.Ordered.{IsOrderOfCodes, IsOrderOfNodes, IsOrderOfRows, AreWhole, IsCreation, LeadsTo};

use crate::keeping::{KeepsMakers, maker_of};
use attr_rules::{AttrId, Kind, Params};
use equation_law::{Args, Code, Instance, NodeRef, System};
use std::cmp::Ordering;

/// What made a node: an attribute at a node with arguments; and the node's position in the tree.
#[derive(Clone, Copy)]
struct Creation {
    attr: AttrId,
    owner: NodeRef,
    args: Args,
    position: u32,
}

/// The order of two nodes: it is decided, or it is that of two others.
enum Comparison {
    Decided(Ordering),
    Between(NodeRef, NodeRef),
}

/// The order of two nodes by their names. Null is the first, and then come the source nodes by their numbers. A node that was made goes by the
/// node at which an attribute made it, by the attribute, by the arguments in turn and by its position. It takes no memory. Each step leads to
/// nodes that stand in what made the two, so there is at most one step more than trees that were made.
pub fn order_of<K: KeepsMakers>(keeper: &mut K, system: &System, a: NodeRef, b: NodeRef) -> Ordering
    requires { (K.trees keeper.old).system ≡ system.now }
    ensures kept { K.keeps keeper.old keeper.new }
    ensures order { result ≡ reference_cmp (stands_for (K.trees keeper.old) a.0) (stands_for (K.trees keeper.old) b.0) }
{
    let (mut left, mut right) = (a, b);
    loop {
        match compare(keeper, system, left, right) {
            Comparison::Decided(order) => return order,
            Comparison::Between(x, y) => {
                left = x;
                right = y;
            }
        }
    }
}

/// The order of two nodes, or that of two that stand in what made them.
fn compare<K: KeepsMakers>(
    keeper: &mut K,
    system: &System,
    left: NodeRef,
    right: NodeRef,
) -> Comparison
    requires { (K.trees keeper.old).system ≡ system.now }
    ensures kept { K.keeps keeper.old keeper.new }
    ensures leads { LeadsTo (naming_of (K.trees keeper.old)) left.0 (reference_cmp (stands_for (K.trees keeper.old) left.0) (stands_for (K.trees keeper.old) right.0)) result }
{
    match (creation_of(keeper, left), creation_of(keeper, right)) {
        (None, None) => Comparison::Decided(left.0.cmp(&right.0)),
        (None, Some(_)) => Comparison::Decided(Ordering::Less),
        (Some(_), None) => Comparison::Decided(Ordering::Greater),
        (Some(x), Some(y)) => by_creation(system, x, y),
    }
}

/// What made a node, if it was made.
fn creation_of<K: KeepsMakers>(keeper: &mut K, node: NodeRef) -> Option<Creation>
    ensures kept { K.keeps keeper.old keeper.new }
    ensures trees { AreTrees (K.trees keeper.old) }
    ensures creation { IsCreation (K.trees keeper.old) node.0 result }
{
    match maker_of(keeper, node)? {
        (Instance::Attr { attr, node, args }, position) => Some(Creation {
            attr,
            owner: node,
            args,
            position,
        }),
        (Instance::Query(_), _) => None,
    }
}

/// The order of two nodes by what made them.
fn by_creation(system: &System, left: Creation, right: Creation) -> Comparison
    requires left { AreWhole (program_of system.now) (attribute_parameters (program_of system.now) left.attr.0) left.args }
    requires right { AreWhole (program_of system.now) (attribute_parameters (program_of system.now) right.attr.0) right.args }
    ensures { IsOrderOfNodes (program_of system.now) left right result }
{
    if left.owner != right.owner {
        return Comparison::Between(left.owner, right.owner);
    }
    if left.attr != right.attr {
        return Comparison::Decided(left.attr.0.cmp(&right.attr.0));
    }
    let behind = left.position.cmp(&right.position);
    by_arguments(
        system,
        system.parameters(left.attr),
        left.args,
        right.args,
        behind,
    )
}

/// The order by the arguments in turn, and where all of them are equal this one behind them.
fn by_arguments(
    system: &System,
    params: Params,
    left: Args,
    right: Args,
    behind: Ordering,
) -> Comparison
    requires left { AreWhole (program_of system.now) (parameter_kinds params) left }
    requires right { AreWhole (program_of system.now) (parameter_kinds params) right }
    ensures { IsOrderOfRows (program_of system.now) (parameter_kinds params) left right behind result }
{
    let (Some(kind), Some(x), Some(y)) = (
        params.first_kind(),
        left.first_code(),
        right.first_code(),
    ) else {
        return Comparison::Decided(behind);
    };
    if x == y {
        by_arguments(system, params.rest(), left.rest(), right.rest(), behind)
    } else {
        by_codes(system, kind, x, y)
    }
}

/// The order of two arguments for a parameter of this type.
fn by_codes(system: &System, kind: Kind, left: Code, right: Code) -> Comparison
    requires left { IsCode (program_of system.now) kind left }
    requires right { IsCode (program_of system.now) kind right }
    ensures { IsOrderOfCodes (program_of system.now) kind left right result }
{
    match kind {
        Kind::Truth => Comparison::Decided(left.cmp(&right)),
        Kind::Int => Comparison::Decided(left.cast_signed().cmp(&right.cast_signed())),
        Kind::Text => {
            let pool = system.pool();
            Comparison::Decided(pool.get(left).cmp(pool.get(right)))
        }
        Kind::Node(_) => Comparison::Between(NodeRef(left), NodeRef(right)),
        Kind::Texts | Kind::Nodes(_) => Comparison::Decided(Ordering::Equal),
    }
}
