// What is told of nodes that were made, by whatever keeps what made their trees.
ghost use Rattle.std.specs.Prelude.{◌≡◌, ◌<◌, ◌+◌, ◌*◌, IfSome, Some, length, suc};
ghost use Rattle.tree_arena.specs.Nodes.{most_nodes};
ghost use Rattle.equation_law.specs.Codes.{most_made};
ghost use Rattle.equation_law.specs.Equations.{world_of};
ghost use Rattle.equation_law.specs.Meaning.{child_at};
ghost use Rattle.equation_law.specs.Reading.{class_behind, code_above};
ghost use Rattle.made_trees.specs.Made.{maker_at};
ghost use Rattle.made_trees.specs.Makers.{AreTrees, IsAbove, IsArgumentAt, IsEquationAt, IsMakerOf, IsOwnerOf, IsSpotOf, IsStandAt, IsTokenAt, child_code, program_for, stands_for};

use crate::news::{Stand, child_place, own_token, stand_in};
use crate::spots::{Spot, code_of, spot_of};
use ast_grammar::ClassId;
use attr_rules::{AttrId, EqId};
use equation_law::{Code, Instance, NodeRef, System, Up};

/// What keeps the instances that made trees, each with a number. It may learn by looking, and keeps what it kept.
pub trait KeepsMakers {
    ghost use Rattle.made_trees.specs.Makers.{Trees};

    /// What made trees.
    ghost trees: { Self → Trees };

    /// The second state came of the first by looking.
    ghost keeps: { Self → Self → Type 0 };

    /// How many trees were made.
    fn count(&mut self) -> u32
        ensures kept { keeps self.old self.new }
        ensures count { result ≡ length (trees self.old).makers }
        ensures trees { AreTrees (trees self.old) };

    /// The equation by which a tree was made, or None where there is none.
    fn equation(&mut self, tree: u32) -> Option<EqId>
        requires { tree < length (trees self.old).makers }
        ensures kept { keeps self.old self.new }
        ensures equation { IsEquationAt (trees self.old) tree result };

    /// The instance that made a tree.
    fn instance(&mut self, tree: u32) -> Instance
        requires { tree < length (trees self.old).makers }
        ensures kept { keeps self.old self.new }
        ensures instance { maker_at (trees self.old).makers tree ≡ Some result };

    ghost same: { (s : Self) → keeps s s };

    ghost further: { (r s t : Self) → keeps r s → keeps s t → keeps r t };

    ghost still: { (r s : Self) → keeps r s → trees s ≡ trees r };
}

/// Where a code stands among the trees of a keeper.
fn spot_among<K: KeepsMakers>(keeper: &mut K, node: NodeRef) -> Option<Spot>
    ensures kept { K.keeps keeper.old keeper.new }
    ensures trees { AreTrees (K.trees keeper.old) }
    ensures spot { IsSpotOf (length (K.trees keeper.old).makers) node.0 result }
{
    let trees = keeper.count();
    spot_of(trees, node)
}

/// The node at a spot, if there is one.
fn stand_at<'a, K: KeepsMakers>(keeper: &mut K, system: &'a System, spot: Spot) -> Option<Stand<'a>>
    requires same { (K.trees keeper.old).system ≡ system.now }
    requires trees { AreTrees (K.trees keeper.old) }
    requires spot { spot.tree < length (K.trees keeper.old).makers }
    ensures kept { K.keeps keeper.old keeper.new }
    ensures stand { IsStandAt (K.trees keeper.old) spot result }
{
    let equation = keeper.equation(spot.tree);
    stand_in(system, equation, spot.position)
}

/// The class of a node that was made, or None where there is none. It takes time in proportion to the `new`.
pub fn class_of<K: KeepsMakers>(keeper: &mut K, system: &System, node: NodeRef) -> Option<ClassId>
    requires { (K.trees keeper.old).system ≡ system.now }
    ensures kept { K.keeps keeper.old keeper.new }
    ensures class { most_nodes < node.0 → class_behind (program_for (K.trees keeper.old)) (stands_for (K.trees keeper.old) node.0) ≡ result }
{
    let spot = spot_among(keeper, node)?;
    let stand = stand_at(keeper, system, spot)?;
    Some(stand.class)
}

/// The child of a node that was made at a component, or null where it has none. It takes time in proportion to the `new`.
pub fn child_of<K: KeepsMakers>(
    keeper: &mut K,
    system: &System,
    node: NodeRef,
    component: u32,
) -> NodeRef
    requires { (K.trees keeper.old).system ≡ system.now }
    ensures kept { K.keeps keeper.old keeper.new }
    ensures child { most_nodes < node.0 → stands_for (K.trees keeper.old) result.0 ≡ child_at (world_of (program_for (K.trees keeper.old))) component (stands_for (K.trees keeper.old) node.0) }
{
    let _nodes = system.tree().len();
    let Some(spot) = spot_among(keeper, node) else {
        return NodeRef(0);
    };
    match child_position(keeper, system, node, spot, component) {
        Some(position) => code_of(Spot { position, ..spot }),
        None => NodeRef(0),
    }
}

/// The position of this child in its tree.
fn child_position<K: KeepsMakers>(
    keeper: &mut K,
    system: &System,
    node: NodeRef,
    spot: Spot,
    component: u32,
) -> Option<u32>
    requires same { (K.trees keeper.old).system ≡ system.now }
    requires trees { AreTrees (K.trees keeper.old) }
    requires spot { IsSpotOf (length (K.trees keeper.old).makers) node.0 (Some spot) }
    ensures kept { K.keeps keeper.old keeper.new }
    ensures child { stands_for (K.trees keeper.old) (child_code spot result) ≡ child_at (world_of (program_for (K.trees keeper.old))) component (stands_for (K.trees keeper.old) node.0) }
    ensures few { IfSome result (λ j. j < most_made) }
    ensures trees { spot.tree < 268431359 }
{
    let _node = node;
    let stand = stand_at(keeper, system, spot)?;
    child_place(stand.parts, spot.position + 1, component)
}

/// What stands above a node that was made: its parent in the tree, or the owner of the tree. It takes time in proportion to the `new`.
pub fn up_of<K: KeepsMakers>(keeper: &mut K, system: &System, node: NodeRef) -> Up
    requires { (K.trees keeper.old).system ≡ system.now }
    ensures kept { K.keeps keeper.old keeper.new }
    ensures above { most_nodes < node.0 → IsAbove (K.trees keeper.old) node.0 result }
    ensures falls { most_nodes < node.0 → code_above result < node.0 }
{
    match spot_among(keeper, node) {
        Some(spot) if spot.position == 0 => owner(keeper, spot),
        Some(spot) => parent(keeper, system, node, spot),
        None => nothing_above(),
    }
}

/// The owner of a tree.
fn owner<K: KeepsMakers>(keeper: &mut K, spot: Spot) -> Up
    requires { spot.tree < length (K.trees keeper.old).makers }
    ensures kept { K.keeps keeper.old keeper.new }
    ensures owner { IsOwnerOf (K.trees keeper.old) spot.tree result }
{
    match keeper.instance(spot.tree) {
        Instance::Attr { attr, node, .. } => Up::Owner { node, attr },
        Instance::Query(_) => nothing_above(),
    }
}

/// The parent of a node, by its code and where it stands.
fn parent<K: KeepsMakers>(keeper: &mut K, system: &System, node: NodeRef, spot: Spot) -> Up
    requires same { (K.trees keeper.old).system ≡ system.now }
    requires trees { AreTrees (K.trees keeper.old) }
    requires spot { IsSpotOf (length (K.trees keeper.old).makers) node.0 (Some spot) }
    requires below { 0 < spot.position }
    ensures kept { K.keeps keeper.old keeper.new }
    ensures above { IsAbove (K.trees keeper.old) node.0 result }
    ensures falls { code_above result < node.0 }
{
    match stand_at(keeper, system, spot) {
        Some(stand) => Up::Inside {
            parent: NodeRef(node.0 - (spot.position - stand.parent)),
            component: stand.component,
        },
        None => nothing_above(),
    }
}

/// Nothing: where no node stands, what stands above isn't asked.
fn nothing_above() -> Up
    ensures { code_above result ≡ 0 }
{
    Up::Owner {
        node: NodeRef(0),
        attr: AttrId(0),
    }
}

/// The code of an argument of what made a node, or 0 where there is none.
pub fn argument_of<K: KeepsMakers>(keeper: &mut K, node: NodeRef, k: u32) -> Code
    ensures kept { K.keeps keeper.old keeper.new }
    ensures argument { IsArgumentAt (K.trees keeper.old) node.0 k result }
{
    match maker_of(keeper, node) {
        Some((Instance::Attr { args, .. }, _)) => match args.code_at(k) {
            Some(code) => code,
            None => 0,
        },
        _ => 0,
    }
}

/// The place of the token of a node at a component among all of the tree. It takes time in proportion to the `new`.
pub fn token_place_of<K: KeepsMakers>(
    keeper: &mut K,
    system: &System,
    node: NodeRef,
    component: u32,
) -> Option<u32>
    requires { (K.trees keeper.old).system ≡ system.now }
    ensures kept { K.keeps keeper.old keeper.new }
    ensures token { IsTokenAt (K.trees keeper.old) node.0 component result }
{
    let spot = spot_among(keeper, node)?;
    let stand = stand_at(keeper, system, spot)?;
    own_token(stand.parts, stand.tokens, component)
}

/// What made a node, and the node's position in the tree.
pub fn maker_of<K: KeepsMakers>(keeper: &mut K, node: NodeRef) -> Option<(Instance, u32)>
    ensures kept { K.keeps keeper.old keeper.new }
    ensures trees { AreTrees (K.trees keeper.old) }
    ensures maker { IsMakerOf (K.trees keeper.old) node.0 result }
{
    let spot = spot_among(keeper, node)?;
    let instance = keeper.instance(spot.tree);
    Some((instance, spot.position))
}
