// Accessors of the components of a node.
ghost use Rattle.std.specs.Prelude.{◌≡◌, ◌≤◌, pos, []};
ghost use Rattle.tree_arena.specs.Nodes.{most_nodes, token_in};
ghost use Rattle.equation_law.specs.Codes.{ByEachNaming, Naming, reference_by, value_by};
ghost use Rattle.equation_law.specs.Reading.{ByEachIn, Grows, IsSound, KnowsValue};
ghost use Rattle.equation_law.specs.Equations.{count_of, element_of, source_of};
ghost use Rattle.equation_law.specs.Equations as spec;
ghost use Rattle.equation_law.specs.Meaning.{child_at as child_on, count_at as count_on, element_at as element_on};
ghost use Rattle.equation_law.specs.Systems.{program_of};
ghost use Rattle.equation_law.specs.Codes.{AreElements};
ghost use Rattle.equation_law.specs.Program.{Program};
ghost use Rattle.equation_law.specs.Values.{Node};
ghost use Rattle.expr_eval.specs.Elements.{IsToken, LeadsTo, node_kind};
ghost use Rattle.expr_eval.specs.Evaluating.{world_in};

use attr_rules::{Kind, Part};
use equation_law::{NodeRef, Reader, Single, System, Value};
use rag_io::Memory;
use set_values::elements;
use std::alloc::Global;
use std::marker::Model;
use tree_arena::Tree;

/// The source node of a number, or null where the tree has none.
pub(crate) fn source(system: &System, number: u32) -> Value
    ensures { ByEachNaming (program_of system.now) (λ n. value_by n result ≡ Node (source_of (program_of system.now) number)) }
{
    if number < system.tree().len() {
        Value::Node(NodeRef::of_source(Some(number)))
    } else {
        Value::Node(NodeRef(0))
    }
}

/// The node that hangs at a place of a component of a node, or null where there is none. Past the tree no node has any.
fn child_at(system: &System, node: u32, k: Part, i: u32) -> NodeRef
    ensures element { let p = program_of system.now in ByEachNaming p (λ n. reference_by n.node result.0 ≡ element_of p (n.node node) k.0 (pos i)) }
    ensures within { result.0 ≤ most_nodes }
{
    let tree = system.tree();
    if node >= tree.len() {
        return NodeRef(0);
    }
    NodeRef::of_source(tree.child(node, k.0, i))
}

/// How many nodes hang at a component of a node. Past the tree no node has any.
fn count_at(system: &System, node: u32, k: Part) -> u32
    ensures { let p = program_of system.now in ByEachNaming p (λ n. result ≡ count_of p (n.node node) k.0) }
{
    let tree = system.tree();
    if node < tree.len() {
        tree.count(node, k.0)
    } else {
        0
    }
}

/// The code of the token of a node at a component, 0 where the component is no token, or None where there is no such node or component.
#[tactic(auto, using(crate::proofs::Hanging::no_code_past, crate::proofs::Hanging::no_code_behind))]
fn code_at(tree: &Tree, node: u32, k: Part) -> Option<u32>
    ensures { result ≡ token_in tree.now node k.0 }
{
    if node >= tree.len() || k.0 >= tree.components(node) {
        return None;
    }
    Some(tree.token(node, k.0))
}

/// The child, or the optional child, of a receiver at a component, or null. The receiver is no node that was made.
pub(crate) fn child(system: &System, k: Part, receiver: NodeRef) -> NodeRef
    requires { receiver.0 ≤ most_nodes }
    ensures child { LeadsTo (program_of system.now) (child_on (world_in system.now) k.0) receiver.0 result.0 }
    ensures within { result.0 ≤ most_nodes }
{
    match receiver.source() {
        Some(node) => child_at(system, node, k, 0),
        None => NodeRef(0),
    }
}

/// The element of a receiver's list at a place, or null where the list doesn't have that place.
pub(crate) fn element(system: &System, k: Part, receiver: NodeRef, place: i32) -> NodeRef
    ensures { LeadsTo (program_of system.now) (λ r. element_on (world_in system.now) k.0 r place) receiver.0 result.0 }
{
    match (receiver.source(), u32::try_from(place)) {
        (Some(node), Ok(place)) => child_at(system, node, k, place),
        _ => NodeRef(0),
    }
}

/// The element of a node's list at a place, or null where there is none.
fn listed_at(system: &System, owner: NodeRef, k: Part, place: usize) -> NodeRef
    ensures { LeadsTo (program_of system.now) (λ r. element_on (world_in system.now) k.0 r (pos place)) owner.0 result.0 }
{
    let Some(node) = owner.source() else {
        return NodeRef(0);
    };
    if place >= system.tree().len() as usize {
        return NodeRef(0);
    }
    child_at(system, node, k, place as u32)
}

/// Single values in a row.
#[derive(Drop)]
pub(crate) struct Singles {
    values: Vec<Single>,
}

impl Model for Singles {
    ghost use Rattle.std.specs.Prelude.{List};
    ghost use Rattle.equation_law.specs.declared.coding.Single.{Single as CodedSingle};

    ghost Value = { List CodedSingle };

    ghost view = { λ singles. singles.values.items };
}

impl Singles {
    ghost use Rattle.std.specs.Prelude.{map};
    ghost use Rattle.equation_law.specs.Codes.{Naming, single_by};
    ghost use Rattle.equation_law.specs.Meaning.{named};

    /// One of them by its place, or null where there is none.
    fn get(&self, place: usize) -> Single
        ensures { (n : Naming) → single_by n result ≡ named (map (single_by n) self.now) place }
    {
        match self.values.get(place) {
            Some(value) => *value,
            None => Single::Node(NodeRef(0)),
        }
    }
}

/// Where elements come from: the list of a node at a component, or a set, of which they are taken.
#[derive(Drop)]
pub(crate) enum Origin {
    List(NodeRef, Part),
    Set(Singles),
}

/// The elements that a form goes over.
#[derive(Drop)]
pub(crate) struct Elements {
    origin: Origin,
    pub(crate) count: usize,
}

impl Elements {
    ghost use Rattle.std.specs.Prelude.{IfOk};
    ghost use Rattle.equation_law.specs.Codes.{single_by};
    ghost use Rattle.equation_law.specs.Values.{elements_of};
    ghost use Rattle.expr_eval.specs.declared.accessors.Origin.TheVariants.{List as list_at};
    ghost use Rattle.expr_eval.specs.Elements.{AreListed, KnowsElements, element_in, elements_in};

    /// The list of a node at a component. Null has no elements.
    pub(crate) fn of(system: &System, component: Part, owner: NodeRef) -> Elements
        ensures list { AreListed system.now component.0 owner.0 result }
        ensures origin { result.origin ≡ list_at owner component }
    {
        let count = match owner.source() {
            Some(node) => count_at(system, node, component),
            None => 0,
        };
        Elements {
            origin: Origin::List(owner, component),
            count: count as usize,
        }
    }

    /// The elements of a set. What is no set has none.
    pub(crate) fn of_set<R: Reader>(
        alloc: Global,
        system: &System,
        set: &Value,
        reader: &mut R,
    ) -> Result<Elements, Memory>
        requires sound { IsSound (program_of system.now) (R.tells reader.old) }
        requires set { AreElements (program_of system.now) set.now }
        requires known { KnowsValue (R.tells reader.old) set.now }
        ensures kept { Grows (program_of system.now) (R.tells reader.old) (R.tells reader.new) }
        ensures all { IfOk result (λ all. ByEachIn (R.tells reader.new) (λ n. elements_in n system.now all ≡ elements_of (value_by n set.now))) }
        ensures known { IfOk result (KnowsElements (R.tells reader.new)) }
    {
        let values = elements(alloc, system, set, reader)?;
        let count = values.len();
        Ok(Elements {
            origin: Origin::Set(Singles { values }),
            count,
        })
    }

    /// An element by its place, or null where there is none.
    pub(crate) fn get(&self, system: &System, place: usize) -> Single
        ensures { ByEachNaming (program_of system.now) (λ n. single_by n result ≡ element_in n system.now self.now place) }
    {
        match &self.origin {
            Origin::List(owner, component) => {
                Single::Node(listed_at(system, *owner, *component, place))
            }
            Origin::Set(values) => values.get(place),
        }
    }
}

/// How many elements a receiver's list has; on null there are none.
pub(crate) fn count(system: &System, k: Part, receiver: NodeRef) -> i32
    ensures { ByEachNaming (program_of system.now) (λ n. result ≡ count_on (world_in system.now) k.0 (reference_by n.node receiver.0)) }
{
    match receiver.source() {
        Some(node) => count_at(system, node, k).cast_signed(),
        None => 0,
    }
}

/// Whether it is the type of the nodes of a class.
fn is_node(kind: Kind) -> bool
    ensures { result ≡ node_kind kind }
{
    match kind {
        Kind::Node(_) => true,
        Kind::Truth | Kind::Int | Kind::Text | Kind::Texts | Kind::Nodes(_) => false,
    }
}

/// The value that a token's code stands for; a missing one is the type's default, and no token is a node.
pub(crate) fn decoded(alloc: Global, kind: Kind, code: Option<u32>) -> Value
    ensures value { (n : Naming) → n.text 0 ≡ [] → value_by n result ≡ spec.decoded n.text kind code }
    ensures coded { (p : Program) → AreElements p result }
{
    match code {
        Some(code) if !is_node(kind) => Value::of_code(alloc, kind, code),
        _ => Value::default_of(alloc, kind),
    }
}

/// The token of a receiver at a component, read at a type; on null it is the type's default. Neither demands anything. The receiver is no node
/// that was made.
pub(crate) fn token(alloc: Global, system: &System, kind: Kind, k: Part, receiver: NodeRef) -> Value
    requires { receiver.0 ≤ most_nodes }
    ensures value { IsToken system.now kind k.0 receiver.0 result }
    ensures coded { (p : Program) → AreElements p result }
{
    match receiver.source() {
        None => Value::default_of(alloc, kind),
        Some(node) => decoded(alloc, kind, code_at(system.tree(), node, k)),
    }
}
