// Raising the words of a member.
ghost use Rattle.std.specs.Prelude.{◌<◌};
ghost use Rattle.memo_cells.specs.Working.{IsOwn};
ghost use Rattle.memo_cells.specs.SetRaising.{MayShowAllAt};
ghost use Rattle.circular_eval.specs.Left.{code_bound};
ghost use Rattle.circular_eval.specs.Rising.{MayRiseByOne, RaisesSet, RaisesValue};

use crate::advancing::CircFault;
use code_sets::{Code, Codes};
use equation_law::Value;
use memo_cells::{Slot, Work, raise_codes};
use std::alloc::Global;

// A code lies below the bound of codes.
fn bounded(code: Code)
    ensures { code < code_bound }
{
    let _code = code;
}

/// Raises the codes of a set that another one hasn't, which is shown already, in the words of a cell. It answers both joined, or None where
/// there are no such codes.
fn raise_set<W: Work>(
    alloc: Global,
    work: &mut W,
    slot: Slot,
    set: &Codes,
    other: &Codes,
) -> Result<Option<Codes>, CircFault>
    requires own { IsOwn (W.held work.old) }
    requires may { MayShowAllAt (W.held work.old) slot.0 set.now }
    ensures { RaisesSet (W.held work.old) (W.held work.new) slot.0 set.now other.now result }
{
    let codes = set.minus(alloc, other)?.list(alloc)?;
    let Some(first) = codes.first().copied() else {
        return Ok(None);
    };
    bounded(first);
    raise_codes(work, slot, &codes)?;
    Ok(Some(set.union(other)?))
}

/// Raises what a value has more than another one, which is shown already, in the words of a cell. It answers both joined, or None where it has no
/// more.
pub(crate) fn raise_value<W: Work>(
    alloc: Global,
    work: &mut W,
    slot: Slot,
    value: &Value,
    other: &Value,
) -> Result<Option<Value>, CircFault>
    requires own { IsOwn (W.held work.old) }
    requires may { MayRiseByOne (W.held work.old) slot.0 value.now other.now }
    ensures { RaisesValue (W.held work.old) (W.held work.new) slot.0 value.now other.now result }
{
    match (value, other) {
        (Value::Truth(value), Value::Truth(other)) => {
            if *other || !*value {
                return Ok(None);
            }
            work.raise(slot, 0, 1)?;
            Ok(Some(Value::Truth(true)))
        }
        (Value::Texts(set), Value::Texts(other)) => {
            match raise_set(alloc, work, slot, set, other)? {
                None => Ok(None),
                Some(both) => Ok(Some(Value::Texts(both))),
            }
        }
        (Value::Nodes(set), Value::Nodes(other)) => {
            match raise_set(alloc, work, slot, set, other)? {
                None => Ok(None),
                Some(both) => Ok(Some(Value::Nodes(both))),
            }
        }
        _ => Ok(None),
    }
}
