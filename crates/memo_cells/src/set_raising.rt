// Raising the words of a set.
ghost use Rattle.std.specs.Prelude.{◌≡◌, ◌<◌, ◌+◌, ◌*◌, ◌/◌, IfOk, OnErr, OnOk, length};
ghost use Rattle.memo_cells.specs.Working.{GoesOn, IsOwn};
ghost use Rattle.memo_cells.specs.SetRaising.{ClaimsWordsAt, HasBits, LacksWordAt, MayShowAllAt, ShowsAllAt, set_codes};

use crate::calls::CellsFull;
use crate::keys::Slot;
use crate::work::Work;
use code_sets::Code;
use equation_law::Value;
use rag_io::Memory;
use std::alloc::Global;

/// The codes of the elements of a set, in their order. Another value has none.
pub fn codes_of(alloc: Global, value: &Value) -> Result<Vec<Code>, Memory>
    ensures { IfOk result (λ list. list.items ≡ set_codes value.now) }
{
    match value {
        Value::Texts(codes) | Value::Nodes(codes) => codes.list(alloc),
        _ => Ok(Vec::new(alloc)),
    }
}

/// The bits of the first codes, which lie in one word, and how many these are.
pub(crate) fn first_word(codes: &[Code]) -> (u64, usize)
    requires { 0 < length codes.now }
    ensures { HasBits codes.now result.1 result.0 }
{
    let word = codes[0] / 64;
    let mut bits = 0;
    let mut count = 0;
    while count < codes.len() && codes[count] / 64 == word {
        bits |= 1 << (codes[count] % 64);
        count += 1;
    }
    (bits, count)
}

/// Raises the bits of the codes of elements in the words of a cell, word by word. It refuses only where other keys have all the cells than that
/// of a word in which one of them lies.
pub fn raise_codes<W: Work>(work: &mut W, slot: Slot, codes: &[Code]) -> Result<(), CellsFull>
    requires own { IsOwn (W.held work.old) }
    requires may { MayShowAllAt (W.held work.old) slot.0 codes.now }
    ensures on { GoesOn (W.held work.old) (W.held work.new) }
    ensures shown { OnOk result (ShowsAllAt (W.held work.old) (W.held work.new) slot.0 codes.now) }
    ensures full { OnErr result (LacksWordAt (W.held work.old) (W.held work.new) slot.0 codes.now) }
    ensures claims { ClaimsWordsAt (W.held work.old) (W.held work.new) slot.0 codes.now }
{
    let mut rest = codes;
    while let Some(code) = rest.first() {
        let (bits, count) = first_word(rest);
        work.raise(slot, *code / 64, bits)?;
        let (_, behind) = rest.split_at(count);
        rest = behind;
    }
    Ok(())
}
