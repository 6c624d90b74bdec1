// What a reader does that holds a pass.
ghost use Rattle.std.specs.Prelude.{◌≢◌, ◌<◌, IfNone, IfOk, IfSome, OnErr, map};
ghost use Rattle.memo_cells.specs.Keys.{Fits, key_word, set_word};
ghost use Rattle.memo_cells.specs.Working.{AreSealedAt, ClaimsForSetAt, ClaimsOnlyAt, GoesOn, HasCell, HasKnownWordAt, HasWordAt, IsFormedAt, IsFullAt, IsMissingAt, IsOfSetAt, IsOwn, IsSlotAt, MayRaiseAt, MaySealAt, ReadsOn, ShowsWordAt, WhyMissingAt};

use crate::calls::CellsFull;
use crate::keys::{Key, Slot};
use equation_law::Reader;

/// What looks for cells and reads their words through a pass.
pub trait Words {
    ghost use Rattle.memo_cells.specs.Working.{Held};

    ghost held: { Self → Held };

    /// The one slot of a key, or None where it isn't claimed: never for one that was seen claimed. What is held is a pass at its own cells: nothing else is asked.
    fn seek(&mut self, key: Key) -> Option<Slot>
        requires slot { Fits key }
        ensures on { ReadsOn (held self.old) (held self.new) }
        ensures slot { IfSome result (λ s. IsSlotAt (held self.old) (held self.new) s.0 (key_word key)) }
        ensures none { IfNone result (IsMissingAt (held self.old) (held self.new) (key_word key)) }
        ensures cause { IfNone result (WhyMissingAt (held self.old) (held self.new) (key_word key)) };

    /// A word of what is shown of a slot's instance.
    fn word(&mut self, slot: Slot, word: u32) -> u64
        requires own { IsOwn (held self.old) }
        requires cell { HasCell (held self.old) slot.0 }
        ensures on { ReadsOn (held self.old) (held self.new) }
        ensures word { ShowsWordAt (held self.old) (held self.new) slot.0 word result }
        ensures settled { HasKnownWordAt (held self.old) (held self.new) slot.0 word result };
}

/// A reader that holds a pass of some cells. Each call is the call of `Cells` of the same name on that pass. As a reader it has a value for
/// exactly the instances whose cells its pass knows as settled, and the value is that of the solution.
pub trait Work: Reader + Words {
    ghost use Rattle.memo_cells.specs.Working.{TellsPass};

    /// The one slot of a key of the system, claimed where it wasn't.
    fn claim(&mut self, key: Key) -> Result<Slot, CellsFull>
        requires own { IsOwn (Self.held self.old) }
        requires slot { Fits key }
        requires key { IsFormedAt (Self.held self.old) (key_word key) }
        ensures on { GoesOn (Self.held self.old) (Self.held self.new) }
        ensures slot { IfOk result (λ s. IsSlotAt (Self.held self.old) (Self.held self.new) s.0 (key_word key)) }
        ensures full { OnErr result (IsFullAt (Self.held self.old) (Self.held self.new) (key_word key)) }
        ensures claims { ClaimsOnlyAt (Self.held self.old) (Self.held self.new) (key_word key) };

    /// Adds bits to a word of what is shown of a slot's instance, and answers the word with them.
    fn raise(&mut self, slot: Slot, word: u32, bits: u64) -> Result<u64, CellsFull>
        requires own { IsOwn (Self.held self.old) }
        requires slot { slot.0 < (Self.held self.old).frame.cells }
        requires may { MayRaiseAt (Self.held self.old) slot.0 word bits }
        requires some { bits ≢ 0 }
        ensures on { GoesOn (Self.held self.old) (Self.held self.new) }
        ensures raised { IfOk result (λ x. HasWordAt (Self.held self.old) (Self.held self.new) slot.0 word bits x) }
        ensures full { OnErr result (IsFullAt (Self.held self.old) (Self.held self.new) (set_word slot.0 word)) }
        ensures set { OnErr result (IsOfSetAt (Self.held self.old) (Self.held self.new) slot.0) }
        ensures claims { ClaimsOnlyAt (Self.held self.old) (Self.held self.new) (set_word slot.0 word) }
        ensures truth { ClaimsForSetAt (Self.held self.old) (Self.held self.new) slot.0 };

    /// Marks what the words show of each slot's instance as its value.
    fn seal(&mut self, set: &[Slot])
        requires own { IsOwn (Self.held self.old) }
        requires may { MaySealAt (Self.held self.old) (map (λ s. s.0) set.now) }
        ensures on { ReadsOn (Self.held self.old) (Self.held self.new) }
        ensures sealed { AreSealedAt (Self.held self.old) (Self.held self.new) (map (λ s. s.0) set.now) };

    ghost tells_pass: { (d : Self) → TellsPass Self.held d (Self.tells d) };
}
