// How often the members of a local set are evaluated, and which of them are sealed while it waits.
ghost use Rattle.std.specs.Prelude.{◌≡◌, ◌<◌, IfOk, IfSome};
ghost use Rattle.circular_eval.specs.Local.{IsLocalAt, IsStillLocal};
ghost use Rattle.equation_law.specs.Checked.{HasSourcesAlone, IsProgram};
ghost use Rattle.equation_law.specs.Codes.{IsCoded};
ghost use Rattle.equation_law.specs.Systems.{program_of};
ghost use Rattle.memo_cells.specs.Agreeing.{IsKnownInstance};
ghost use Rattle.memo_cells.specs.Working.{GoesOn, IsForSystem, IsOwn, ReadsOn};
ghost use Rattle.caller_pass.specs.Holding.{IsInstanceByEach};
ghost use Rattle.rag_tests.specs.Circular.{IsCircular};

use crate::programs::{Texts, system_said};
use ast_grammar::ClassId;
use attr_rules::AttrId;
use caller_pass::{Desk, Steps, ask};
use circular_eval::{CircTurn, Local, advance};
use collection_attrs::is_collection;
use equation_law::{Args, Code, Instance, NodeRef, QueryId, Reader, System, Up, Value};
use expr_eval::{Saved, Turn, is_declared, resume_instance};
use memo_cells::{Cells, CellsFull, Key, Slot, Words, Work};
use program_reader::Refusal;
use rag_io::Memory;
use std::alloc::{AllocError, Global};
use std::cmp::Ordering;
use std::fmt::Write;
use std::marker::{Brand, Model};
use std::sync::ledger::{Blank, Ledger};
use std::test::Fail;

/// A pass at its cells that counts how often it is asked for the value of an instance.
#[derive(Drop)]
pub(crate) struct Counting<'a> {
    pub(crate) desk: Desk<'a>,
    pub(crate) demands: u32,
}

impl<'a> Model for Counting<'a> {
    ghost use Rattle.std.specs.Coded.{codes};
    ghost use Rattle.attr_rules.specs.contracts.expression.TExpr as expressions;
    ghost use Rattle.memo_cells.specs.Working.{Held};

    ghost Value = { Held };

    ghost coded = { Prim.hlevel (codes, expressions.the_row.coded) };

    ghost view = { λ c. c.desk };
}

impl Reader for Counting<'_> {
    ghost use Rattle.memo_cells.specs.Working.{told_by};

    ghost tells = { told_by };

    fn settled(&mut self, alloc: Global, i: &Instance) -> Result<Option<Value>, Memory> {
        self.demands = self.demands.saturating_add(1);
        self.desk.settled(alloc, i)
    }

    fn made_class(&mut self, node: NodeRef) -> ClassId {
        self.desk.made_class(node)
    }

    fn made_child(&mut self, node: NodeRef, component: u32) -> NodeRef {
        self.desk.made_child(node, component)
    }

    fn made_token(&mut self, node: NodeRef, component: u32) -> Code {
        self.desk.made_token(node, component)
    }

    fn made_up(&mut self, node: NodeRef) -> Up {
        self.desk.made_up(node)
    }

    fn made_arg(&mut self, node: NodeRef, k: u32) -> Code {
        self.desk.made_arg(node, k)
    }

    fn made_order(&mut self, a: NodeRef, b: NodeRef) -> Ordering {
        self.desk.made_order(a, b)
    }
}

impl Words for Counting<'_> {
    ghost held = { λ d. d };

    fn seek(&mut self, key: Key) -> Option<Slot> {
        self.desk.seek(key)
    }

    fn word(&mut self, slot: Slot, word: u32) -> u64 {
        self.desk.word(slot, word)
    }
}

impl Work for Counting<'_> {
    ghost use Rattle.memo_cells.proofs.Holding.{told_pass};

    fn claim(&mut self, key: Key) -> Result<Slot, CellsFull> {
        self.desk.claim(key)
    }

    fn raise(&mut self, slot: Slot, word: u32, bits: u64) -> Result<u64, CellsFull> {
        self.desk.raise(slot, word, bits)
    }

    fn seal(&mut self, set: &[Slot]) {
        self.desk.seal(set)
    }

    ghost tells_pass = { told_pass };
}

/// The first circular instance that one leads to, from each to what it demands first, over no collection.
pub(crate) fn first_circular(
    alloc: Global,
    system: &System,
    work: &mut Counting<'_>,
    i: Instance,
) -> Result<Option<Instance>, Memory>
    requires program { IsProgram (program_of system.now) }
    requires same { IsForSystem work.old system.now }
    requires own { IsOwn work.old }
    requires instance { IsInstanceByEach (program_of system.now) work.old.view i }
    requires coded { IsCoded (program_of system.now) i }
    requires known { IsKnownInstance (program_of system.now) work.old.view.made i }
    ensures on { ReadsOn work.old work.new }
    ensures found { IfOk result (λ found. IfSome found (IsCircular (program_of system.now) work.new.view.made)) }
{
    let mut at = i;
    for _ in 0..3 {
        if is_collection(system, &at) {
            return Ok(None);
        }
        let mut saved = Saved::new(alloc);
        match resume_instance(alloc, system, &at, work, &mut saved)? {
            Turn::Done(_) | Turn::Image(_) => return Ok(None),
            Turn::Need(next) => {
                if is_declared(system, &next) {
                    return Ok(Some(next));
                }
                at = next;
            }
        }
    }
    Ok(None)
}

// How going on with a local set ended.
#[derive(Clone, Copy, Debug, PartialEq, Eq)]
enum Ended {
    Waiting,
    Closed,
    Refused,
}

// Goes on with a local set, and answers how that ended and how often the value of an instance was asked for.
fn go_on<'a>(
    alloc: Global,
    system: &'a System,
    work: &mut Counting<'_>,
    local: &mut Local<'a>,
) -> (Ended, u32)
    requires program { IsProgram (program_of system.now) }
    requires same { IsForSystem work.old system.now }
    requires own { IsOwn work.old }
    requires local { IsLocalAt work.old local.old }
    ensures on { GoesOn work.old work.new }
    ensures local { IsStillLocal work.old work.new local.new }
{
    let before = work.demands;
    let ended = match advance(alloc, system, work, local) {
        Ok(CircTurn::Need(_)) => Ended::Waiting,
        Ok(CircTurn::Closed) => Ended::Closed,
        Err(_) => Ended::Refused,
    };
    (ended, work.demands.saturating_sub(before))
}

// At how many of the nodes below the root `reach` is sealed.
fn count_sealed(alloc: Global, work: &mut Counting<'_>, nodes: u32) -> Result<u32, Memory>
    requires own { IsOwn work.old }
    ensures on { ReadsOn work.old work.new }
{
    let mut count: u32 = 0;
    for node in 0..nodes {
        let i = Instance::Attr {
            attr: REACH,
            node: NodeRef(node.saturating_add(2)),
            args: Args::none(),
        };
        if work.settled(alloc, &i)?.is_some() {
            count = count.saturating_add(1);
        }
    }
    Ok(count)
}

/// What came of going on with a local set twice: how it ended each time, with how many demands, and how many instances are sealed in between.
type Went = ((Ended, u32), u32, (Ended, u32));

// Asks the first query, so that what isn't circular is settled, and goes on twice with the local set that the second one leads to.
fn go_on_twice<L: Ledger>(
    alloc: Global,
    system: &System,
    nodes: u32,
    blank: Blank,
) -> Result<Option<Went>, Memory>
    requires name { blank.name ≡ L.name }
    requires parts { blank.parts ≡ L.parts }
    requires some { 0 < L.parts }
    requires program { IsProgram (program_of system.now) }
    requires bare { HasSourcesAlone (program_of system.now) }
{
    if system.replies() < 2 {
        return Ok(None);
    }
    let (cells, mut pass) = Cells::new(alloc, system, 65536)?;
    let mut evals = Steps::<L>::new(blank);
    let known = Instance::Query(QueryId(0));
    if ask(alloc, system, &cells, &mut pass, &known, &mut evals).is_err() {
        return Ok(None);
    }
    let mut work = Counting {
        desk: Desk::new(alloc, system, &cells, &mut pass),
        demands: 0,
    };
    let asked = Instance::Query(QueryId(1));
    let Some(start) = first_circular(alloc, system, &mut work, asked)? else {
        return Ok(None);
    };
    let mut local = Local::start(alloc, start)?;
    let first = go_on(alloc, system, &mut work, &mut local);
    let sealed = count_sealed(alloc, &mut work, nodes)?;
    let second = go_on(alloc, system, &mut work, &mut local);
    Ok(Some((first, sealed, second)))
}

const GRAMMAR: &str = "P ::= N*; N ::= <A:int> <B:int>;";

// Each node leads to two others, whose numbers it has.
const ASPECT: &str =
    "aspect A { inh N N.a(); eq P.getN(int i).a() = getN(getN(i).getA()); inh N N.b(); eq P.getN(int i).b() = getN(getN(i).getB()); \
     syn Set<N> N.reach() circular [empty] = union(single(this), union(a().reach(), b().reach())); \
     syn boolean P.known() = all(n : getNList() | n.a() != null && n.b() != null); \
     syn int P.size() = size(getN(0).reach()); \
     syn boolean P.behind() circular [false] = contains(getN(0).reach(), getN(getNumN() - 1)) && later(); \
     syn boolean P.later() = true; syn boolean P.waits() = behind(); }";

// The number of `reach`.
const REACH: AttrId = AttrId(2);

// One component: each node leads to the one behind it and to the one of twice its number.
fn ring(alloc: Global, nodes: u32) -> Result<String, AllocError> {
    let mut tree = String::from_str(alloc, "P([")?;
    for node in 0..nodes {
        let a = (node + 1) % nodes;
        let b = (u64::from(node) * 2 + 1) % u64::from(nodes);
        let between = if node == 0 { "" } else { ", " };
        write!(tree, "{between}N({a}, {b})")?;
    }
    tree.push_str("])")?;
    Ok(tree)
}

// What comes of the local set of the second query over a ring of so many nodes.
fn went(alloc: Global, nodes: u32, queries: &str) -> Result<Option<Went>, Refusal> {
    let tree = ring(alloc, nodes).map_err(|_| Memory)?;
    let texts = Texts {
        ast: GRAMMAR,
        jrag: ASPECT,
        tree: &tree,
        queries,
    };
    let system = system_said(alloc, &texts)?;
    Ok(go_on_twice::<Brand>(alloc, &system, nodes, Blank::new(1))?)
}

// The first of these rings of which something else comes.
fn other_ring(alloc: Global, queries: &str, rings: &[(u32, Went)]) -> Result<Option<u32>, Refusal> {
    for (nodes, want) in rings {
        if went(alloc, *nodes, queries)? != Some(*want) {
            return Ok(Some(*nodes));
        }
    }
    Ok(None)
}

// Each node demands two others when it is evaluated: so on 1,024 nodes each is evaluated 7 times until all have all that they reach. Going on with
// the closed set evaluates each once.
const SWEPT: [(u32, Went); 2] = [
    (16, ((Ended::Closed, 188), 16, (Ended::Closed, 32))),
    (1024, ((Ended::Closed, 13711), 1024, (Ended::Closed, 2048))),
];

#[test]
fn members_are_evaluated_in_sweeps(rt: HostRuntime) -> Result<(), Fail> {
    let other = other_ring(rt.alloc(), "@0.known()\n@0.size()", &SWEPT);
    assert_eq!(rt; other, Ok(None));
    Ok(())
}

// What waits behind a ring has gone round it, which is sealed then: going on doesn't evaluate its nodes again.
const BEHIND: [(u32, Went); 2] = [
    (16, ((Ended::Waiting, 229), 16, (Ended::Waiting, 1))),
    (1024, ((Ended::Waiting, 14725), 1024, (Ended::Waiting, 1))),
];

#[test]
fn closed_members_are_sealed_before_a_set_waits(rt: HostRuntime) -> Result<(), Fail> {
    let other = other_ring(rt.alloc(), "@0.known()\n@0.waits()", &BEHIND);
    assert_eq!(rt; other, Ok(None));
    Ok(())
}
