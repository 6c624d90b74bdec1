// The value that the words of a cell show.
ghost use Rattle.std.specs.Prelude.{◌<◌, ◌^◌, IfOk, OnOk};
ghost use Rattle.memo_cells.specs.Working.{HasCell, IsForSystem, IsOwn, ReadsOn};
ghost use Rattle.memo_cells.specs.SetShown.{AddsWord, AreBelow, AreCodesShownAt, IsShownValueAt};

use crate::keys::Slot;
use crate::work::Words;
use attr_rules::Kind;
use code_sets::{Code, Codes};
use equation_law::{System, Value};
use rag_io::Memory;
use std::alloc::Global;

/// Adds the codes whose bits a word has, from one code on, below another. A refusal leaves none of them added.
pub(crate) fn add_word(
    codes: &mut Codes,
    word: u32,
    bits: u64,
    from: Code,
    to: Code,
) -> Result<(), Memory>
    requires { word < 2 ^ 26 }
    ensures { OnOk result (AddsWord word bits from to codes.old codes.new) }
{
    let below = bits_below(word, to);
    let before = bits_below(word, from);
    codes.add_word(word, bits & below & !before)
}

// The bits of a word that stand for codes below one.
fn bits_below(word: u32, code: Code) -> u64
    requires { word < 2 ^ 26 }
    ensures { AreBelow word code result }
{
    let count = code.saturating_sub(word * 64);
    if count < 64 {
        (1 << count) - 1
    } else {
        u64::MAX
    }
}

/// The codes that the words of a cell show, from one code on, below another. No word is read in which none of these lies.
fn codes_shown<W: Words>(
    alloc: Global,
    work: &mut W,
    slot: Slot,
    from: Code,
    to: Code,
) -> Result<Codes, Memory>
    requires own { IsOwn (W.held work.old) }
    requires cell { HasCell (W.held work.old) slot.0 }
    ensures on { ReadsOn (W.held work.old) (W.held work.new) }
    ensures shown { IfOk result (AreCodesShownAt (W.held work.old) (W.held work.new) slot.0 from to) }
{
    let mut codes = Codes::none(alloc);
    if to <= from {
        return Ok(codes);
    }
    for word in from / 64..to.div_ceil(64) {
        let bits = work.word(slot, word);
        if bits != 0 {
            add_word(&mut codes, word, bits, from, to)?;
        }
    }
    Ok(codes)
}

/// The value of a set or a truth value that the words of a cell show; of another type, its default. Of a set of nodes it reads the words
/// between the first and the last node of the class of the elements and of its subclasses.
pub fn value_shown<W: Words>(
    alloc: Global,
    system: &System,
    work: &mut W,
    slot: Slot,
    kind: Kind,
) -> Result<Value, Memory>
    requires own { IsOwn (W.held work.old) }
    requires same { IsForSystem (W.held work.old) system.now }
    requires cell { HasCell (W.held work.old) slot.0 }
    ensures on { ReadsOn (W.held work.old) (W.held work.new) }
    ensures shown { IfOk result (IsShownValueAt (W.held work.old) (W.held work.new) slot.0 kind) }
{
    match kind {
        Kind::Truth => Ok(Value::Truth(work.word(slot, 0) == 1)),
        Kind::Texts => {
            let texts = system.pool().len();
            Ok(Value::Texts(codes_shown(alloc, work, slot, 0, texts)?))
        }
        Kind::Nodes(class) => {
            let span = system.span(class);
            // A tree has few nodes.
            prove!(system.tree().len() > 0);
            let (from, to) = (span.first + 1, span.end + 1);
            Ok(Value::Nodes(codes_shown(alloc, work, slot, from, to)?))
        }
        Kind::Int | Kind::Text | Kind::Node(_) => Ok(Value::default_of(alloc, kind)),
    }
}
