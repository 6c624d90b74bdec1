// How often what is offered to collections is evaluated, where those of all nodes go along one walk.
ghost use Rattle.std.specs.Prelude.{◌≡◌, ◌<◌};
ghost use Rattle.equation_law.specs.Checked.{HasSourcesAlone, IsProgram};
ghost use Rattle.equation_law.specs.Systems.{program_of};
ghost use Rattle.tree_arena.specs.Nodes.{most_nodes};
ghost use Rattle.memo_cells.specs.Working.{IsForSystem, IsOwn, ReadsOn, told_by};
ghost use Rattle.collection_attrs.specs.Walks.{IsWalk};

use crate::programs::{Texts, system_said};
use crate::sweeps::Counting;
use attr_rules::AttrId;
use caller_pass::{Desk, Steps, ask};
use collection_attrs::{Offers, Survey, collector_of, root_of};
use equation_law::{Args, Instance, NodeRef, QueryId, System};
use expr_eval::{Saved, Turn};
use memo_cells::Cells;
use program_reader::Refusal;
use rag_io::Memory;
use std::alloc::{AllocError, Global};
use std::fmt::Write;
use std::marker::Brand;
use std::sync::ledger::{Blank, Ledger};
use std::test::Fail;

const GRAMMAR: &str = "P ::= N*; N ::= <To:int>;";

// Each node contributes to the one whose place it has.
const ASPECT: &str = "aspect A { inh N N.at(int i); eq P.getN().at(int i) = getN(i); \
     syn boolean N.counts() = getTo() >= 0; syn N N.next() = at(getTo()); syn int N.gives() = getTo(); \
     coll int N.sum() [0] with sum root P; N contributes gives() when counts() to N.sum() for next(); \
     syn boolean P.known() = all(x : getNList() | x.counts() && x.next() != null && x.gives() >= 0); }";

// The number of `sum`.
const SUM: AttrId = AttrId(4);

// What the sum at a node comes to along a walk; None where the walk is another collection's, or something is missing.
fn sum_along(
    alloc: Global,
    system: &System,
    work: &mut Counting<'_>,
    offers: &mut Offers,
    node: u32,
) -> Result<Option<i32>, Memory>
    requires program { IsProgram (program_of system.now) }
    requires same { IsForSystem work.old system.now }
    requires own { IsOwn work.old }
    requires node { node < most_nodes }
    requires walk { IsWalk (program_of system.now) (told_by work.old) offers.old }
    ensures on { ReadsOn work.old work.new }
    ensures walk { IsWalk (program_of system.now) (told_by work.new) offers.new }
{
    let i = Instance::Attr {
        attr: SUM,
        node: NodeRef(node + 1),
        args: Args::none(),
    };
    let Some(of) = collector_of(system, &i) else {
        return Ok(None);
    };
    let Some(root) = root_of(system, of, work) else {
        return Ok(None);
    };
    if of.attr.0 != offers.attr().0 || root != offers.root() {
        return Ok(None);
    }
    let mut survey = Survey::new(alloc, system, of);
    let mut saved = Saved::new(alloc);
    match survey.go_on(alloc, system, of, offers, work, &mut saved)? {
        Turn::Done(value) => Ok(Some(value.int())),
        Turn::Need(_) | Turn::Image(_) => Ok(None),
    }
}

// How often the values of instances are asked for until the sums at all nodes below the root are found along one walk, and what these sums add up to.
type Walked = (u32, i64);

fn all_along(
    alloc: Global,
    system: &System,
    work: &mut Counting<'_>,
    nodes: u16,
) -> Result<Option<Walked>, Memory>
    requires program { IsProgram (program_of system.now) }
    requires same { IsForSystem work.old system.now }
    requires own { IsOwn work.old }
{
    if system.tree().len() == 0 {
        return Ok(None);
    }
    let mut offers = Offers::new(alloc, SUM, 0);
    let mut total: i64 = 0;
    for place in 0..nodes {
        let node = u32::from(place) + 1;
        let Some(sum) = sum_along(alloc, system, work, &mut offers, node)? else {
            return Ok(None);
        };
        total = total.saturating_add(i64::from(sum));
    }
    Ok(Some((work.demands, total)))
}

// Asks the first query, so that conditions, receivers and values are settled, and finds the sums then.
fn known_first<L: Ledger>(
    alloc: Global,
    system: &System,
    nodes: u16,
    blank: Blank,
) -> Result<Option<Walked>, Memory>
    requires name { blank.name ≡ L.name }
    requires parts { blank.parts ≡ L.parts }
    requires some { 0 < L.parts }
    requires program { IsProgram (program_of system.now) }
    requires bare { HasSourcesAlone (program_of system.now) }
{
    if system.replies() == 0 {
        return Ok(None);
    }
    let (cells, mut pass) = Cells::new(alloc, system, 65536)?;
    let mut evals = Steps::<L>::new(blank);
    let known = Instance::Query(QueryId(0));
    if ask(alloc, system, &cells, &mut pass, &known, &mut evals).is_err() {
        return Ok(None);
    }
    let mut work = Counting {
        desk: Desk::new(alloc, system, &cells, &mut pass),
        demands: 0,
    };
    all_along(alloc, system, &mut work, nodes)
}

// So many nodes, of which each contributes to the one at twice its place and one more, round a ring.
fn ring(alloc: Global, nodes: u16) -> Result<String, AllocError> {
    let mut tree = String::from_str(alloc, "P([")?;
    for node in 0..nodes {
        let to = (u32::from(node) * 2 + 1) % u32::from(nodes);
        let between = if node == 0 { "" } else { ", " };
        write!(tree, "{between}N({to})")?;
    }
    tree.push_str("])")?;
    Ok(tree)
}

// The sums of a ring of so many nodes.
fn walked(alloc: Global, nodes: u16) -> Result<Option<Walked>, Refusal> {
    let tree = ring(alloc, nodes).map_err(|_| Memory)?;
    let texts = Texts {
        ast: GRAMMAR,
        jrag: ASPECT,
        tree: &tree,
        queries: "@0.known()",
    };
    let system = system_said(alloc, &texts)?;
    Ok(known_first::<Brand>(alloc, &system, nodes, Blank::new(1))?)
}

// Each node's condition, receiver and value is asked for once. A walk of its own at each node would ask for each condition and receiver once for each
// node: 528 and 2,098,176 times in all.
const WALKED: [(u16, Walked); 2] = [(16, (48, 128)), (1024, (3072, 524_288))];

// The first of these rings of which something else comes.
fn other_walked(alloc: Global) -> Result<Option<u16>, Refusal> {
    for (nodes, want) in &WALKED {
        if walked(alloc, *nodes)? != Some(*want) {
            return Ok(Some(*nodes));
        }
    }
    Ok(None)
}

#[test]
fn conditions_and_receivers_are_evaluated_once(rt: HostRuntime) -> Result<(), Fail> {
    assert_eq!(rt; other_walked(rt.alloc()), Ok(None));
    Ok(())
}
