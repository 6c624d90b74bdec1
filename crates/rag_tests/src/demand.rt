// Demand over the systems that texts say: full cells, and what is known.
ghost use Rattle.std.specs.Prelude.{◌≡◌, ◌<◌, IfOk, length};
ghost use Rattle.equation_law.specs.Checked.{HasSourcesAlone, IsProgram};
ghost use Rattle.equation_law.specs.Codes.{IsCoded, instance_by};
ghost use Rattle.equation_law.specs.Systems.{program_of};
ghost use Rattle.memo_cells.specs.Agreeing.{ByEachAgreeing, IsKnownInstance};
ghost use Rattle.memo_cells.specs.Standing.{IsPassOf, Knows};
ghost use Rattle.caller_pass.specs.Holding.{IsInstanceByEach};

use crate::programs::{Long, NOTHING, Texts, long_text, system_said};
use caller_pass::{AskFault, Steps, ask};
use equation_law::{Instance, QueryId, Single, System};
use memo_cells::{Cells, Pass};
use program_reader::Refusal;
use query_replies::{ReplyFault, reply_lines};
use rag_io::{Gate, Memory};
use std::alloc::Global;
use std::marker::Brand;
use std::sync::ledger::{Blank, Ledger};

/// Nobody is told of replies.
#[derive(Drop)]
pub(crate) struct Silent;

impl Gate for Silent {
    fn reached(&self, _caller: u32, _reply: u32) {}
}

/// What a query of the system gives, where it gives a single value, and whether the cells are full.
pub(crate) fn asked<L: Ledger>(
    alloc: Global,
    system: &System,
    cells: &Cells,
    pass: &mut Pass,
    query: u32,
    evals: &mut Steps<L>,
) -> (Option<Single>, bool)
    requires program { IsProgram (program_of system.now) }
    requires same { cells.now.system.value ≡ system.now }
    requires own { IsPassOf cells.now pass.old }
    ensures own { IsPassOf cells.now pass.new }
{
    if query >= system.replies() {
        return (None, false);
    }
    let i = Instance::Query(QueryId(query));
    match ask(alloc, system, cells, pass, &i, evals) {
        Ok(value) => (value.single(), false),
        Err(AskFault::CellsFull) => (None, true),
        Err(_) => (None, false),
    }
}

// The queries that are asked for in turn, and what they give.
const ASKED: [(u32, Option<Single>, bool); 4] = [
    (0, Some(Single::Int(499)), false),
    (1, None, true),
    (0, Some(Single::Int(499)), false),
    (1, None, true),
];

// The first of these queries that gives something else, or after which not 500 attributes are settled.
fn other_among<L: Ledger>(
    alloc: Global,
    system: &System,
    cells: &Cells,
    pass: &mut Pass,
    evals: &mut Steps<L>,
) -> Option<usize>
    requires program { IsProgram (program_of system.now) }
    requires same { cells.now.system.value ≡ system.now }
    requires own { IsPassOf cells.now pass.old }
{
    for (k, (query, value, is_full)) in ASKED.iter().enumerate() {
        let found = asked(alloc, system, cells, pass, *query, evals);
        if (found, cells.settled_count(pass)) != ((*value, *is_full), 500) {
            return Some(k);
        }
    }
    None
}

// The same in 1,024 new cells.
fn other_asked<L: Ledger>(
    alloc: Global,
    system: &System,
    blank: Blank,
) -> Result<Option<usize>, Memory>
    requires name { blank.name ≡ L.name }
    requires parts { blank.parts ≡ L.parts }
    requires some { 0 < L.parts }
    requires program { IsProgram (program_of system.now) }
    requires bare { HasSourcesAlone (program_of system.now) }
{
    let (cells, mut pass) = Cells::new(alloc, system, 1024)?;
    let mut evals = Steps::<L>::new(blank);
    Ok(other_among(alloc, system, &cells, &mut pass, &mut evals))
}

// A grammar, an aspect, a tree and queries.
type Full = (&'static str, &'static str, Long<'static>, &'static str);

// Programs whose first query demands 500 attributes, and whose second one needs more cells than there are: what the first one settled stays, and
// the replies end there. The attribute of a node counts those below it in a chain; and `a` demands 499 attributes of one node, each with another
// argument, and `b` ever more.
const FULL: [Full; 2] = [
    (
        "L ::= [L];",
        "aspect A { syn int L.d() = hasL() ? getL().d() + 1 : 0; }",
        Long {
            head: "",
            part: "L([",
            middle: "L([])",
            end: "])",
            times: 1_099,
        },
        "@600.d()\n@0.d()",
    ),
    (
        "N;",
        "aspect A { syn int N.d(int n) = n == 0 ? 0 : d(n - 1) + 1; syn int N.a() = d(498) + 1; syn int N.f(int n) = f(n + 1); syn int N.b() = f(0); }",
        Long {
            head: "N()",
            ..NOTHING
        },
        "@0.a()\n@0.b()",
    ),
];

// The first query that gives something else, and why there are no replies.
type Filled = (Result<Option<usize>, Memory>, Option<ReplyFault>);

fn filled(alloc: Global, system: &System) -> Filled
    requires program { IsProgram (program_of system.now) }
    requires bare { HasSourcesAlone (program_of system.now) }
{
    let other = other_asked::<Brand>(alloc, system, Blank::new(1));
    (other, reply_lines(alloc, &Silent, system, 1024).err())
}

// The system of such a program, whose tree is this text.
fn full_system(alloc: Global, row: &Full, tree: &str) -> Result<System, Refusal>
    ensures program { IfOk result (λ system. IsProgram (program_of system)) }
    ensures bare { IfOk result (λ system. HasSourcesAlone (program_of system)) }
{
    let (ast, jrag, _, queries) = row;
    let texts = Texts {
        ast,
        jrag,
        tree,
        queries,
    };
    system_said(alloc, &texts)
}

// How such a program ends.
fn filled_by(alloc: Global, row: &Full) -> Result<Filled, Refusal> {
    let Ok(tree) = long_text(alloc, &row.2) else {
        return Err(Refusal::Memory);
    };
    let system = full_system(alloc, row, tree.as_str())?;
    Ok(filled(alloc, &system))
}

// The first of these programs that doesn't end so.
fn other_full(alloc: Global) -> Option<usize> {
    for (k, row) in FULL.iter().enumerate() {
        if filled_by(alloc, row) != Ok((Ok(None), Some(ReplyFault::Cells))) {
            return Some(k);
        }
    }
    None
}

#[test]
fn full_cells_keep_what_is_settled(rt: HostRuntime) {
    assert_eq!(rt; other_full(rt.alloc()), None);
}

// Asks for what is known: it takes no evaluation.
fn ask_again<L: Ledger>(
    alloc: Global,
    system: &System,
    cells: &Cells,
    pass: &mut Pass,
    i: &Instance,
    evals: &mut Steps<L>,
) -> Option<Single>
    requires program { IsProgram (program_of system.now) }
    requires same { cells.now.system.value ≡ system.now }
    requires own { IsPassOf cells.now pass.old }
    requires instance { IsInstanceByEach (program_of system.now) pass.old i.now }
    requires coded { IsCoded (program_of system.now) i.now }
    requires known { IsKnownInstance (program_of system.now) pass.old.made i.now }
    requires settled { ByEachAgreeing (program_of system.now) pass.old.made (λ names. Knows (program_of system.now) pass.old (instance_by (program_of system.now) names i.now)) }
    ensures none { evals.new ≡ evals.old }
{
    match ask(alloc, system, cells, pass, i, evals) {
        Ok(value) => value.single(),
        Err(_) => None,
    }
}

// What the first query gives that is asked for twice.
fn asked_twice<L: Ledger>(
    alloc: Global,
    system: &System,
    blank: Blank,
) -> Result<(Option<Single>, Option<Single>), Memory>
    requires name { blank.name ≡ L.name }
    requires parts { blank.parts ≡ L.parts }
    requires some { 0 < L.parts }
    requires program { IsProgram (program_of system.now) }
    requires bare { HasSourcesAlone (program_of system.now) }
    requires query { 0 < length (program_of system.now).queries }
{
    let (cells, mut pass) = Cells::new(alloc, system, 1024)?;
    let mut evals = Steps::<L>::new(blank);
    let i = Instance::Query(QueryId(0));
    match ask(alloc, system, &cells, &mut pass, &i, &mut evals) {
        Ok(value) => {
            let again = ask_again(alloc, system, &cells, &mut pass, &i, &mut evals);
            Ok((value.single(), again))
        }
        Err(_) => Ok((None, None)),
    }
}

const KNOWN: Texts<'_> = Texts {
    ast: "N;",
    jrag: "aspect A { syn int N.z() = 5; }",
    tree: "N()",
    queries: "@0.z()",
};

// What the query gives that is asked for twice.
fn known_twice(alloc: Global) -> Result<Result<(Option<Single>, Option<Single>), Memory>, Refusal> {
    let system = system_said(alloc, &KNOWN)?;
    if system.replies() == 0 {
        return Err(Refusal::Memory);
    }
    Ok(asked_twice::<Brand>(alloc, &system, Blank::new(1)))
}

#[test]
fn what_is_known_is_given_again(rt: HostRuntime) {
    let five = Some(Single::Int(5));
    assert_eq!(rt; known_twice(rt.alloc()), Ok(Ok((five, five))));
}
