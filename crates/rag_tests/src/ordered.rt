// The order of nodes by their names, in whichever order their trees were made.
ghost use Rattle.std.specs.Prelude.{◌≡◌};
ghost use Rattle.equation_law.specs.Checked.{IsProgram};
ghost use Rattle.equation_law.specs.Systems.{program_of};

use crate::programs::{Texts, system_checked};
use crate::rows::{At, Given, Row, Want, With, names_of, text_id};
use attr_rules::AttrId;
use broken_rules::ReadFault;
use equation_law::{Args, Code, Instance, NodeRef, System};
use made_trees::{Lent, Makers, order_of};
use plain_rounds::plain_rounds;
use rag_io::{Memory, Pool};
use std::alloc::Global;

// The text "b" stands before "ab" and "a", and so has a smaller number. Attributes by number: 0 `N.t`, 1 `N.last`, 2 `T.up`, 3 `N.b`, 4 `N.s`, 5 `N.f`,
// 6 `N.n`, 7 `N.m`.
const TEXTS: Texts<'_> = Texts {
    ast: "N ::= own:T; T ::= <V:int>; B ::= a:T b:T;",
    jrag: "aspect A { syn nta T N.t(int k) = new T(k); syn nta T N.last() = new T(0); syn nta T T.up() = new T(getV() + 1); \
           syn nta B N.b(int k) = new B(new T(k), new T(k)); syn nta T N.s(String s) = new T(s == \"b\" ? 1 : s == \"ab\" ? 2 : s == \"a\" ? 3 : 4); \
           syn nta T N.f(boolean b) = new T(0); syn nta T N.n(T x) = new T(0); syn nta T N.m(int j, int k) = new T(j + k); }",
    tree: "N(T(9))",
    queries: "",
};

const ROOT: At = At::Source(0);

const OWN: At = At::Source(1);

const TREES: [Row; 24] = [
    (0, ROOT, With::One(Given::Int(5)), Want::Other),
    (0, ROOT, With::One(Given::Int(-6)), Want::Other),
    (2, At::Made(0, 0), With::None, Want::Other),
    (2, At::Made(1, 0), With::None, Want::Other),
    (2, OWN, With::None, Want::Other),
    (0, ROOT, With::One(Given::Int(-4)), Want::Other),
    (0, ROOT, With::One(Given::Int(1)), Want::Other),
    (
        7,
        ROOT,
        With::Two(Given::Int(2), Given::Int(1)),
        Want::Other,
    ),
    (
        7,
        ROOT,
        With::Two(Given::Int(1), Given::Int(3)),
        Want::Other,
    ),
    (
        7,
        ROOT,
        With::Two(Given::Int(1), Given::Int(-3)),
        Want::Other,
    ),
    (6, ROOT, With::One(Given::Node(At::Made(0, 0))), Want::Other),
    (6, ROOT, With::One(Given::Node(At::Made(6, 0))), Want::Other),
    (6, ROOT, With::One(Given::Node(OWN)), Want::Other),
    (6, ROOT, With::One(Given::Node(At::Null)), Want::Other),
    (5, ROOT, With::One(Given::Truth(true)), Want::Other),
    (5, ROOT, With::One(Given::Truth(false)), Want::Other),
    (4, ROOT, With::One(Given::Text("b")), Want::Other),
    (4, ROOT, With::One(Given::Text("ab")), Want::Other),
    (4, ROOT, With::One(Given::Text("a")), Want::Other),
    (4, ROOT, With::One(Given::Text("")), Want::Other),
    (3, ROOT, With::One(Given::Int(4)), Want::Other),
    (3, ROOT, With::One(Given::Int(2)), Want::Other),
    (1, ROOT, With::None, Want::Other),
    (2, At::Made(3, 0), With::None, Want::Other),
];

// All nodes, in the order of their names: the source first; then by what made the tree, which is the node, the attribute and the arguments in turn;
// then by the position in the tree.
const IN_ORDER: [At; 31] = [
    At::Null,
    ROOT,
    OWN,
    At::Made(1, 0),
    At::Made(5, 0),
    At::Made(6, 0),
    At::Made(0, 0),
    At::Made(22, 0),
    At::Made(21, 0),
    At::Made(21, 1),
    At::Made(21, 2),
    At::Made(20, 0),
    At::Made(20, 1),
    At::Made(20, 2),
    At::Made(19, 0),
    At::Made(18, 0),
    At::Made(17, 0),
    At::Made(16, 0),
    At::Made(15, 0),
    At::Made(14, 0),
    At::Made(13, 0),
    At::Made(12, 0),
    At::Made(11, 0),
    At::Made(10, 0),
    At::Made(9, 0),
    At::Made(8, 0),
    At::Made(7, 0),
    At::Made(4, 0),
    At::Made(3, 0),
    At::Made(2, 0),
    At::Made(23, 0),
];

// The code of a node whose tree is among these, by their roots.
fn node_code(roots: &[NodeRef], at: At) -> Option<NodeRef> {
    match at {
        At::Null => Some(NodeRef(0)),
        At::Source(number) => Some(NodeRef(number.saturating_add(1))),
        At::Made(k, position) => {
            let root = roots.get(k)?;
            Some(NodeRef(root.0.saturating_add(position)))
        }
    }
}

fn argument_code(pool: &Pool, roots: &[NodeRef], given: Given) -> Option<Code> {
    match given {
        Given::Truth(value) => Some(u32::from(value)),
        Given::Int(value) => Some(value.cast_unsigned()),
        Given::Text(text) => Some(text_id(pool, text).0),
        Given::Node(at) => Some(node_code(roots, at)?.0),
    }
}

fn argument_codes(pool: &Pool, roots: &[NodeRef], with: With) -> Option<Args> {
    match with {
        With::None => Some(Args::none()),
        With::One(x) => Some(Args::none().with(argument_code(pool, roots, x)?)),
        With::Two(x, y) => {
            let first = argument_code(pool, roots, x)?;
            let second = argument_code(pool, roots, y)?;
            Some(Args::none().with(first).with(second))
        }
        With::Three(..) => None,
    }
}

// The root of the tree of a row, behind those of the rows before it.
fn root_of(pool: &Pool, makers: &Makers, roots: &[NodeRef], row: &Row) -> Option<NodeRef> {
    let (attr, at, with, _) = row;
    let node = node_code(roots, *at)?;
    let args = argument_codes(pool, roots, *with)?;
    let attr = AttrId(*attr);
    makers.root(&Instance::Attr { attr, node, args })
}

// The roots of the trees of these rows, up to the first that wasn't made.
fn roots_of(alloc: Global, pool: &Pool, makers: &Makers) -> Result<Vec<NodeRef>, Memory> {
    let mut roots = Vec::with_capacity(alloc, TREES.len()).map_err(|_| Memory)?;
    for row in &TREES {
        match root_of(pool, makers, &roots, row) {
            Some(root) => roots.push(root).map_err(|_| Memory)?,
            None => return Ok(roots),
        }
    }
    Ok(roots)
}

// Whether two nodes of the list are in the order of their places.
fn are_ordered(system: &System, makers: &Makers, roots: &[NodeRef], j: usize, k: usize) -> bool
    requires { makers.now.system ≡ system.now }
{
    if j >= IN_ORDER.len() || k >= IN_ORDER.len() {
        return false;
    }
    match (node_code(roots, IN_ORDER[j]), node_code(roots, IN_ORDER[k])) {
        (Some(one), Some(other)) => order_of(&mut Lent(makers), system, one, other) == j.cmp(&k),
        _ => false,
    }
}

// The first node of the list that has another order with one of them.
fn other_order(system: &System, makers: &Makers, roots: &[NodeRef]) -> Option<usize>
    requires { makers.now.system ≡ system.now }
{
    for j in 0..IN_ORDER.len() {
        for k in 0..IN_ORDER.len() {
            if !are_ordered(system, makers, roots, j, k) {
                return Some(j);
            }
        }
    }
    None
}

// The first node of the list that is out of order, of the trees that the rounds over their instances made.
fn other_of_trees(alloc: Global, system: &System) -> Result<Option<usize>, ReadFault>
    requires { IsProgram (program_of system.now) }
{
    let names = names_of(alloc, system, &TREES)?;
    if !names.are_of(system) {
        return Ok(Some(IN_ORDER.len()));
    }
    let table = plain_rounds(alloc, system, &names)?;
    let makers = table.makers();
    let roots = roots_of(alloc, system.pool(), makers)?;
    Ok(other_order(system, makers, &roots))
}

fn other_of_texts(alloc: Global) -> Result<Option<usize>, ReadFault> {
    let system = system_checked(alloc, &TEXTS)?;
    other_of_trees(alloc, &system)
}

#[test]
fn nodes_are_in_the_order_of_their_names(rt: HostRuntime) {
    assert_eq!(rt; other_of_texts(rt.alloc()), Ok(None));
}
