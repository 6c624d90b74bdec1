// What a pass learns.
ghost use Rattle.std.specs.Prelude.{◌≡◌};
ghost use Rattle.memo_cells.specs.Learning.{after};

use crate::view::View;
use std::snapshot::Snapshot;

/// A step on one word of the table, or none.
#[derive(Clone, Copy)]
pub(crate) enum Step {
    /// It found this key word at a place: 0, or the key that has it.
    Key { place: u32, found: u64 },
    /// It claimed a free place for a key.
    Claim { place: u32, key: u64 },
    /// It found a value word at a place, and left another one there, or the same.
    Value { place: u32, found: u64, left: u64 },
    /// It forgot what it had read.
    Forget,
}

/// Lets a pass know what a step found. Nothing is done at run time: no byte stands for what a pass knows.
pub(crate) fn learn(known: &mut Snapshot<View>, _step: &Step)
    ensures { known.new.value ≡ after known.old.value _step.now }
{
    let _ = known;
}
