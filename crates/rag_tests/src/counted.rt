// How many evaluations demand takes, as they are counted.
ghost use Rattle.std.specs.Prelude.{◌≡◌, ◌<◌, [], IfOk, IfSome, true};
ghost use Rattle.equation_law.specs.Checked.{HasSourcesAlone, IsProgram};
ghost use Rattle.equation_law.specs.Program.{Program};
ghost use Rattle.equation_law.specs.Systems.{program_of};
ghost use Rattle.memo_cells.specs.Agreeing.{IsKnownInstance};
ghost use Rattle.memo_cells.specs.Standing.{IsPassOf};
ghost use Rattle.rag_tests.specs.Circular.{IsCircular};

use crate::demand::asked;
use crate::programs::{Texts, system_said};
use crate::sweeps::{Counting, first_circular};
use caller_pass::{Desk, Steps, ask};
use equation_law::{Instance, QueryId, Single, System};
use memo_cells::{Cells, Pass};
use program_reader::Refusal;
use rag_io::Memory;
use std::alloc::Global;
use std::marker::Brand;
use std::sync::ledger::{Blank, Ledger};

/// A query, what it gives where that is a single value, and how many evaluations it takes.
type Asked = (u32, Option<Single>, u64);

// What a query gives that is asked for, and how many evaluations that takes.
fn counted<L: Ledger>(
    alloc: Global,
    system: &System,
    cells: &Cells,
    pass: &mut Pass,
    query: u32,
    evals: &mut Steps<L>,
) -> Asked
    requires program { IsProgram (program_of system.now) }
    requires same { cells.now.system.value ≡ system.now }
    requires own { IsPassOf cells.now pass.old }
    ensures own { IsPassOf cells.now pass.new }
{
    let before = evals.count();
    let (value, _) = asked(alloc, system, cells, pass, query, evals);
    (query, value, evals.count().saturating_sub(before))
}

// The first of these queries, asked for in turn, that gives something else or takes another number of evaluations. Each is asked for by a pass that has
// read nothing of the words so far: it finds what was claimed and settled before.
fn other_count<L: Ledger>(
    alloc: Global,
    system: &System,
    cells: &Cells,
    pass: &mut Pass,
    rows: &[Asked],
    evals: &mut Steps<L>,
) -> Option<Asked>
    requires program { IsProgram (program_of system.now) }
    requires same { cells.now.system.value ≡ system.now }
    requires own { IsPassOf cells.now pass.old }
{
    for row in rows {
        cells.forget(pass);
        let found = counted(alloc, system, cells, pass, row.0, evals);
        if found != *row {
            return Some(found);
        }
    }
    None
}

// The same in new cells.
fn other_in_cells<L: Ledger>(
    alloc: Global,
    system: &System,
    rows: &[Asked],
    blank: Blank,
) -> Result<Option<Asked>, Memory>
    requires name { blank.name ≡ L.name }
    requires parts { blank.parts ≡ L.parts }
    requires some { 0 < L.parts }
    requires program { IsProgram (program_of system.now) }
    requires bare { HasSourcesAlone (program_of system.now) }
{
    let (cells, mut pass) = Cells::new(alloc, system, 1024)?;
    let mut evals = Steps::<L>::new(blank);
    Ok(other_count(alloc, system, &cells, &mut pass, rows, &mut evals))
}

// The same of what texts say.
fn other_asked(alloc: Global, texts: &Texts<'_>, rows: &[Asked]) -> Result<Option<Asked>, Refusal> {
    let system = system_said(alloc, texts)?;
    Ok(other_in_cells::<Brand>(alloc, &system, rows, Blank::new(1))?)
}

// The attribute of a node demands that of the one below it.
const CHAIN: Texts<'_> = Texts {
    ast: "L ::= [L];",
    jrag: "aspect A { syn int L.d() = hasL() ? getL().d() + 1 : 0; }",
    tree: "L([L([L([L([])])])])",
    queries: "@3.d()\n@2.d()\n@1.d()\n@0.d()",
};

// A query is an instance too, whose evaluation waits for what it asks, and goes on: that is two evaluations of the three. The third is that of the
// attribute, whose demand is settled already. What was asked for before takes none.
const FROM_BELOW: [Asked; 8] = [
    (0, Some(Single::Int(0)), 3),
    (1, Some(Single::Int(1)), 3),
    (2, Some(Single::Int(2)), 3),
    (3, Some(Single::Int(3)), 3),
    (0, Some(Single::Int(0)), 0),
    (1, Some(Single::Int(1)), 0),
    (2, Some(Single::Int(2)), 0),
    (3, Some(Single::Int(3)), 0),
];

// Each but the last one has to wait for one demand, so it takes two evaluations; the attributes of the other queries are settled then.
const FROM_ABOVE: [Asked; 5] = [
    (3, Some(Single::Int(3)), 9),
    (3, Some(Single::Int(3)), 0),
    (2, Some(Single::Int(2)), 1),
    (1, Some(Single::Int(1)), 1),
    (0, Some(Single::Int(0)), 1),
];

#[test]
fn each_of_a_chain_is_counted_once(rt: HostRuntime) {
    assert_eq!(rt; other_asked(rt.alloc(), &CHAIN, &FROM_BELOW), Ok(None));
    assert_eq!(rt; other_asked(rt.alloc(), &CHAIN, &FROM_ABOVE), Ok(None));
}

// Two attributes that are demanded by two others each, and circular ones that wait for what isn't circular.
const JOINED: Texts<'_> = Texts {
    ast: "N;",
    jrag: "aspect A { syn int N.a() = b() + c(); syn int N.b() = e() + 1; syn int N.c() = e() + b(); syn int N.e() = 1; \
           syn boolean N.s() circular [false] = t() || u(); syn boolean N.t() circular [false] = s(); syn boolean N.u() circular [false] = l(); \
           syn boolean N.l() = true; }",
    tree: "N()",
    queries: "@0.a()\n@0.b()\n@0.t()\n@0.u()\n@0.s()",
};

// `a` is evaluated three times, as it waits for two, and `b` two times, as it waits for one; `c` and `e` once. The local set of `t` goes on once
// `l` is evaluated.
const IN_TURN: [Asked; 7] = [
    (0, Some(Single::Int(5)), 9),
    (0, Some(Single::Int(5)), 0),
    (1, Some(Single::Int(2)), 1),
    (2, Some(Single::Truth(true)), 5),
    (3, Some(Single::Truth(true)), 1),
    (4, Some(Single::Truth(true)), 1),
    (2, Some(Single::Truth(true)), 0),
];

#[test]
fn what_is_demanded_by_many_is_counted_once(rt: HostRuntime) {
    assert_eq!(rt; other_asked(rt.alloc(), &JOINED, &IN_TURN), Ok(None));
}

// Attributes that demand each other and aren't circular, and one that demands them and another one.
const LOOP: Texts<'_> = Texts {
    ast: "N;",
    jrag: "aspect A { syn int N.x() = y(); syn int N.y() = x(); syn int N.w() = k() + x(); syn int N.k() = 1; }",
    tree: "N()",
    queries: "@0.x()\n@0.w()\n@0.k()",
};

// Nothing of the loop is settled, so asking again evaluates it again; what was settled on the way to it stays so.
const AGAIN: [Asked; 5] = [
    (0, None, 3),
    (0, None, 3),
    (1, None, 6),
    (1, None, 4),
    (2, Some(Single::Int(1)), 1),
];

#[test]
fn loops_are_evaluated_again(rt: HostRuntime) {
    assert_eq!(rt; other_asked(rt.alloc(), &LOOP, &AGAIN), Ok(None));
}

// Whether an instance is at null or a source node and has no arguments, so that its codes stand for the same whatever trees are made.
fn is_at_source(i: &Instance) -> bool
    ensures { result ≡ true → (p : Program) → IsKnownInstance p [] i.now }
{
    let Instance::Attr { node, args, .. } = *i else {
        return true;
    };
    if node.is_made() {
        return false;
    }
    args.code_at(0).is_none()
}

// The circular instance that the first query leads to, if it leads to one at a source node without arguments: so it is one in other cells too.
fn circular_asked(alloc: Global, system: &System) -> Result<Option<Instance>, Memory>
    requires program { IsProgram (program_of system.now) }
    requires bare { HasSourcesAlone (program_of system.now) }
    ensures { IfOk result (λ found. IfSome found (IsCircular (program_of system.now) [])) }
{
    if system.replies() == 0 {
        return Ok(None);
    }
    let (cells, mut pass) = Cells::new(alloc, system, 1024)?;
    let mut work = Counting {
        desk: Desk::new(alloc, system, &cells, &mut pass),
        demands: 0,
    };
    let Some(i) = first_circular(alloc, system, &mut work, Instance::Query(QueryId(0)))? else {
        return Ok(None);
    };
    if !is_at_source(&i) {
        return Ok(None);
    }
    Ok(Some(i))
}

// How many evaluations it takes to ask twice for the circular instance that the first query leads to.
fn counted_twice<L: Ledger>(
    alloc: Global,
    system: &System,
    blank: Blank,
) -> Result<Option<(u64, u64)>, Memory>
    requires name { blank.name ≡ L.name }
    requires parts { blank.parts ≡ L.parts }
    requires some { 0 < L.parts }
    requires program { IsProgram (program_of system.now) }
    requires bare { HasSourcesAlone (program_of system.now) }
{
    let Some(i) = circular_asked(alloc, system)? else {
        return Ok(None);
    };
    let (cells, mut pass) = Cells::new(alloc, system, 1024)?;
    let mut evals = Steps::<L>::new(blank);
    let _first = ask(alloc, system, &cells, &mut pass, &i, &mut evals);
    let once = evals.count();
    let _second = ask(alloc, system, &cells, &mut pass, &i, &mut evals);
    Ok(Some((once, evals.count().saturating_sub(once))))
}

// The same of a system in which a set of three waits for what isn't circular.
fn sealed_twice(alloc: Global) -> Result<Option<(u64, u64)>, Refusal> {
    let texts = Texts {
        queries: "@0.t()",
        ..JOINED
    };
    let system = system_said(alloc, &texts)?;
    Ok(counted_twice::<Brand>(alloc, &system, Blank::new(1))?)
}

#[test]
fn what_is_sealed_is_counted_no_more(rt: HostRuntime) {
    assert_eq!(rt; sealed_twice(rt.alloc()), Ok(Some((3, 0))));
}
