// Cells and their keys.
ghost use Rattle.std.specs.Prelude.{◌≡◌};
ghost use Rattle.equation_law.specs.Checked.{HasSourcesAlone};
ghost use Rattle.equation_law.specs.Systems.{program_of};
ghost use Rattle.memo_cells.specs.Standing.{IsPassOf};

use crate::programs::{Texts, system_said};
use attr_rules::AttrId;
use equation_law::{Code, NodeRef, QueryId, System, Value};
use memo_cells::{Cells, Key, Pass, Slot, codes_of};
use program_reader::Refusal;
use rag_io::Memory;
use std::alloc::Global;

const TEXTS: Texts<'_> = Texts {
    ast: "P;",
    jrag: "aspect A { syn boolean P.v() = true; }",
    tree: "P()",
    queries: "@0.v()\n@0.v()\n@0.v()\n@0.v()",
};

// Attributes at nodes that a system has or hasn't, without arguments and with one.
const KEYS: [Key; 4] = [
    Key::Inst {
        attr: AttrId(0),
        node: NodeRef(1),
    },
    Key::Inst {
        attr: AttrId(65535),
        node: NodeRef(4294967295),
    },
    Key::Arg {
        slot: Slot(1023),
        code: 1,
    },
    Key::Arg {
        slot: Slot(1023),
        code: 4294967295,
    },
];

// Makes so many cells, and answers their number, how many are settled, and whether a key is claimed.
fn make(alloc: Global, system: &System, count: u32) -> Result<(u32, u32, bool), Memory>
    requires { HasSourcesAlone (program_of system.now) }
{
    let (cells, mut pass) = Cells::new(alloc, system, count.clamp(1024, 4194304))?;
    let settled = cells.settled_count(&mut pass);
    let [own, last, argument, last_argument] = KEYS;
    let found = (cells.seek(&mut pass, own), cells.seek(&mut pass, last));
    let called = (
        cells.seek(&mut pass, argument),
        cells.seek(&mut pass, last_argument),
    );
    let is_claimed = (found, called) != ((None, None), (None, None));
    Ok((cells.size(), settled, is_claimed))
}

// Claims a query of the system: where it was before, where it stands now, the code that is settled there, and the word that it shows. None
// where it is no query.
fn claim_query(
    cells: &Cells,
    pass: &mut Pass,
    system: &System,
    query: u32,
) -> Option<(Option<Slot>, Slot, Option<Code>, u64)>
    requires own { IsPassOf cells.now pass.old }
    requires system { cells.now.system.value ≡ system.now }
    ensures own { IsPassOf cells.now pass.new }
{
    if query >= system.replies() {
        return None;
    }
    let before = cells.seek(pass, Key::Query(QueryId(query)));
    let slot = cells.claim(pass, Key::Query(QueryId(query))).ok()?;
    let settled = cells.settled(pass, slot);
    Some((before, slot, settled, cells.word(pass, slot, 0)))
}

// The queries that are claimed in turn in 1,569 cells, and the places where they stand before and then. The searches for the queries 1 and
// 2 begin at one place.
const CLAIMS: [(u32, Option<Slot>, Slot); 7] = [
    (2, None, Slot(376)),
    (1, None, Slot(377)),
    (2, Some(Slot(376)), Slot(376)),
    (0, None, Slot(1193)),
    (1, Some(Slot(377)), Slot(377)),
    (3, None, Slot(1129)),
    (3, Some(Slot(1129)), Slot(1129)),
];

// The first claim that comes out otherwise.
fn other_among(cells: &Cells, pass: &mut Pass, system: &System) -> Option<usize>
    requires own { IsPassOf cells.now pass.old }
    requires system { cells.now.system.value ≡ system.now }
    ensures own { IsPassOf cells.now pass.new }
{
    for (k, (query, before, slot)) in CLAIMS.iter().enumerate() {
        let found = claim_query(cells, pass, system, *query);
        if found != Some((*before, *slot, None, 0)) {
            return Some(k);
        }
    }
    None
}

// The first claim in new cells that comes out otherwise, or how many cells are settled in the end.
fn other_claim(alloc: Global, system: &System) -> Result<Result<u32, usize>, Memory>
    requires { HasSourcesAlone (program_of system.now) }
{
    let (cells, mut pass) = Cells::new(alloc, system, 1569)?;
    let other = other_among(&cells, &mut pass, system);
    let settled = cells.settled_count(&mut pass);
    Ok(match other {
        Some(k) => Err(k),
        None => Ok(settled),
    })
}

// The first number of new cells that come out otherwise.
fn other_number(alloc: Global, system: &System) -> Result<Option<u32>, Memory>
    requires { HasSourcesAlone (program_of system.now) }
{
    for count in &[1024, 1025, 65536, 4194304] {
        if make(alloc, system, *count)? != (*count, 0, false) {
            return Ok(Some(*count));
        }
    }
    Ok(None)
}

// The first number of new cells and the first claim that come out otherwise.
type Found = (
    Result<Option<u32>, Memory>,
    Result<Result<u32, usize>, Memory>,
);

fn found_in_cells(alloc: Global) -> Result<Found, Refusal> {
    let system = system_said(alloc, &TEXTS)?;
    Ok((other_number(alloc, &system), other_claim(alloc, &system)))
}

// Whether a truth value has codes in the words of a set.
fn has_codes(alloc: Global) -> Result<bool, Memory> {
    let codes = codes_of(alloc, &Value::Truth(true))?;
    Ok(!codes.is_empty())
}

#[test]
fn each_key_has_one_slot(rt: HostRuntime) {
    assert_eq!(rt;
        (found_in_cells(rt.alloc()), has_codes(rt.alloc())),
        (Ok((Ok(None), Ok(Ok(0)))), Ok(false))
    );
}
