// The words of sets, and approximations of circular instances.
ghost use Rattle.std.specs.Prelude.{◌≡◌, ◌≢◌, ◌<◌, map, IfOk, OnErr};
ghost use Rattle.equation_law.specs.Names.{Instance};
ghost use Rattle.equation_law.specs.Systems.{program_of};
ghost use Rattle.memo_cells.specs.Causes.{IsLogOn};
ghost use Rattle.memo_cells.specs.Keys.{set_word};
ghost use Rattle.memo_cells.specs.Naming.{IsCellOf};
ghost use Rattle.memo_cells.specs.Standing.{ClaimsForSet, HasKnownWord, HasKnownWordOfSet, HasWord, IsOfSet, IsPassOf, MayRaise, MayRaiseSet, MayRaiseTruth, MaySeal, ShowsWord, ShowsWordOfSet};
ghost use Rattle.memo_cells.specs.Steps.{AreSealed};
ghost use Rattle.memo_cells.specs.Views.{ClaimsOnly, IsAtLeast, IsFull};

use crate::calls::CellsFull;
use crate::cells::{Cells, Pass};
use crate::keys::{Key, Slot};

impl Cells {
    /// Adds bits to a word of the set of a slot's instance.
    fn raise_set(&self, pass: &mut Pass, slot: Slot, word: u32, bits: u64) -> Result<u64, CellsFull>
        requires own { IsPassOf self.now pass.old }
        requires slot { slot.0 < self.now.cells }
        requires may { MayRaiseSet (program_of self.now.system.value) pass.old slot.0 word bits }
        requires some { bits ≢ 0 }
        ensures own { IsPassOf self.now pass.new }
        ensures kept { IsAtLeast pass.old pass.new }
        ensures log { IsLogOn pass.old pass.new }
        ensures raised { IfOk result (λ x. HasWord (program_of self.now.system.value) self.now pass.new slot.0 word bits x) }
        ensures full { OnErr result (IsFull self.now pass.new (set_word slot.0 word)) }
        ensures claims { ClaimsOnly pass.old pass.new (set_word slot.0 word) }
    {
        let place = self.claim(pass, Key::Word { slot, word })?;
        Ok(self.add_bits(pass, place.0, bits))
    }

    /// Makes a slot's circular instance true.
    fn raise_truth(&self, pass: &mut Pass, slot: Slot) -> u64
        requires own { IsPassOf self.now pass.old }
        requires slot { slot.0 < self.now.cells }
        requires may { MayRaiseTruth (program_of self.now.system.value) pass.old slot.0 }
        ensures own { IsPassOf self.now pass.new }
        ensures kept { IsAtLeast pass.old pass.new }
        ensures log { IsLogOn pass.old pass.new }
        ensures raised { HasWord (program_of self.now.system.value) self.now pass.new slot.0 0 1 result }
        ensures claims { pass.new.claims ≡ pass.old.claims }
    {
        self.add_truth(pass, slot.0) % 2
    }

    /// Adds bits to a word of what is shown of a slot's instance, and answers the word with them. Of a set it refuses only where other keys
    /// have all the cells; of a truth value never, and bit 63 is left out of the word.
    pub fn raise(&self, pass: &mut Pass, slot: Slot, word: u32, bits: u64) -> Result<u64, CellsFull>
        requires own { IsPassOf self.now pass.old }
        requires slot { slot.0 < self.now.cells }
        requires may { MayRaise (program_of self.now.system.value) pass.old slot.0 word bits }
        requires some { bits ≢ 0 }
        ensures own { IsPassOf self.now pass.new }
        ensures kept { IsAtLeast pass.old pass.new }
        ensures log { IsLogOn pass.old pass.new }
        ensures raised { IfOk result (λ x. HasWord (program_of self.now.system.value) self.now pass.new slot.0 word bits x) }
        ensures full { OnErr result (IsFull self.now pass.new (set_word slot.0 word)) }
        ensures set { OnErr result (IsOfSet self.now pass.new slot.0) }
        ensures claims { ClaimsOnly pass.old pass.new (set_word slot.0 word) }
        ensures truth { ClaimsForSet self.now pass.old pass.new slot.0 }
    {
        if self.is_of_truth(pass, slot) {
            Ok(self.raise_truth(pass, slot))
        } else {
            self.raise_set(pass, slot, word, bits)
        }
    }

    /// A word of the set of a slot's instance.
    fn word_of_set(&self, pass: &mut Pass, slot: Slot, word: u32) -> u64
        requires own { IsPassOf self.now pass.old }
        requires slot { slot.0 < self.now.cells }
        ensures own { IsPassOf self.now pass.new }
        ensures kept { IsAtLeast pass.old pass.new }
        ensures log { IsLogOn pass.old pass.new }
        ensures word { ShowsWordOfSet self.now pass.new slot.0 word result }
        ensures settled { HasKnownWordOfSet self.now pass.old pass.new slot.0 word result }
        ensures claims { pass.new.claims ≡ pass.old.claims }
    {
        match self.seek(pass, Key::Word { slot, word }) {
            Some(place) => self.look_bits(pass, place.0),
            None => 0,
        }
    }

    /// A word of what is shown of a slot's instance: 0 where the word of a set isn't claimed, and of a truth value without bit 63.
    pub fn word(&self, pass: &mut Pass, slot: Slot, word: u32) -> u64
        requires own { IsPassOf self.now pass.old }
        requires cell { (i : Instance) × IsCellOf (program_of self.now.system.value) self.now pass.old i slot.0 }
        ensures own { IsPassOf self.now pass.new }
        ensures kept { IsAtLeast pass.old pass.new }
        ensures log { IsLogOn pass.old pass.new }
        ensures word { ShowsWord self.now pass.new slot.0 word result }
        ensures settled { HasKnownWord self.now pass.old pass.new slot.0 word result }
        ensures claims { pass.new.claims ≡ pass.old.claims }
    {
        if self.is_of_truth(pass, slot) {
            self.look_bits(pass, slot.0) % 2
        } else {
            self.word_of_set(pass, slot, word)
        }
    }

    /// Marks what the words show of each slot's instance as its value.
    pub fn seal(&self, pass: &mut Pass, set: &[Slot])
        requires own { IsPassOf self.now pass.old }
        requires may { MaySeal (program_of self.now.system.value) self.now pass.old (map (λ s. s.0) set.now) }
        ensures own { IsPassOf self.now pass.new }
        ensures kept { IsAtLeast pass.old pass.new }
        ensures log { IsLogOn pass.old pass.new }
        ensures sealed { AreSealed pass.old pass.new (map (λ s. s.0) set.now) }
        ensures claims { pass.new.claims ≡ pass.old.claims }
    {
        self.mark(pass, set);
    }
}
