// The single steps on the words: each reads or writes one.
ghost use Rattle.std.specs.Prelude.{◌≡◌, ◌≢◌, ◌+◌, ◌<◌, length, map};
ghost use Rattle.equation_law.specs.Systems.{program_of};
ghost use Rattle.memo_cells.specs.Causes.{IsLogOn, LogsBits, LogsTruth, LogsValue};
ghost use Rattle.memo_cells.specs.Naming.{IsFormed};
ghost use Rattle.memo_cells.specs.Sealing.{AreSealedTo, LogsNext, SealsAll, SealsTo, TellsNext, TellsSealed};
ghost use Rattle.memo_cells.specs.Standing.{IsPassOf, IsTold, MayAdd, MayRaiseTruth, MaySeal, MaySettle};
ghost use Rattle.memo_cells.specs.Steps.{AreSealed, BitsAdded, BitsSeen, KeySeen, KeyTried, ValueSeen, ValueTried};
ghost use Rattle.memo_cells.specs.Views.{IsAtLeast, IsPassed, IsPlain, with_mark};

use crate::cells::{Cells, Pass};
use crate::keys::Slot;
use crate::learning::{Step, learn};
use crate::view::View;
use std::snapshot::Snapshot;

impl Cells {
    /// The key word of a place.
    pub(crate) fn look_key(&self, pass: &mut Pass, place: u32) -> u64
        requires own { IsPassOf self.now pass.old }
        requires place { place < self.now.cells }
        ensures own { IsPassOf self.now pass.new }
        ensures kept { IsAtLeast pass.old pass.new }
        ensures seen { KeySeen self.now pass.old pass.new place result }
    {
        let found = pass.keys[place as usize];
        learn(&mut pass.known, &Step::Key { place, found });
        found
    }

    /// Puts a key at a place where none stands, and answers what stood there: 0, or the key that keeps the place.
    pub(crate) fn try_key(&self, pass: &mut Pass, place: u32, key: u64) -> u64
        requires own { IsPassOf self.now pass.old }
        requires place { place < self.now.cells }
        requires key { (key ≢ 0) × IsFormed (program_of self.now.system.value) pass.old key }
        requires passed { IsPassed self.now pass.old key place }
        ensures own { IsPassOf self.now pass.new }
        ensures kept { IsAtLeast pass.old pass.new }
        ensures tried { KeyTried pass.old pass.new place key result }
    {
        let found = pass.keys[place as usize];
        if found != 0 {
            learn(&mut pass.known, &Step::Key { place, found });
            return found;
        }
        pass.keys[place as usize] = key;
        learn(&mut pass.known, &Step::Claim { place, key });
        0
    }

    /// The value word of a place that has no word of a set: a settled one has bit 63.
    pub(crate) fn look_value(&self, pass: &mut Pass, place: u32) -> u64
        requires own { IsPassOf self.now pass.old }
        requires place { place < self.now.cells }
        requires plain { IsPlain pass.old place }
        ensures own { IsPassOf self.now pass.new }
        ensures kept { IsAtLeast pass.old pass.new }
        ensures seen { ValueSeen self.now pass.old pass.new place result }
    {
        let found = pass.values[place as usize];
        let left = found;
        learn(&mut pass.known, &Step::Value { place, found, left });
        found
    }

    /// Settles the value word of a place where it isn't settled, and answers what stood there: 0, or the word that stays.
    pub(crate) fn try_value(&self, pass: &mut Pass, place: u32, code: u32) -> u64
        requires own { IsPassOf self.now pass.old }
        requires place { place < self.now.cells }
        requires code { MaySettle (program_of self.now.system.value) pass.old place code }
        ensures own { IsPassOf self.now pass.new }
        ensures kept { IsAtLeast pass.old pass.new }
        ensures log { IsLogOn pass.old pass.new }
        ensures found { LogsValue self.now pass.old pass.new place result }
        ensures tried { ValueTried pass.old pass.new place code result }
    {
        let found = pass.values[place as usize];
        if found != 0 {
            let left = found;
            learn(&mut pass.known, &Step::Value { place, found, left });
            return found;
        }
        let left = u64::from(code) + (1 << 63);
        pass.values[place as usize] = left;
        learn(&mut pass.known, &Step::Value { place, found, left });
        0
    }

    /// The value word of a place, for its bits.
    pub(crate) fn look_bits(&self, pass: &mut Pass, place: u32) -> u64
        requires own { IsPassOf self.now pass.old }
        requires place { place < self.now.cells }
        ensures own { IsPassOf self.now pass.new }
        ensures kept { IsAtLeast pass.old pass.new }
        ensures log { IsLogOn pass.old pass.new }
        ensures found { LogsValue self.now pass.old pass.new place result }
        ensures seen { BitsSeen (program_of self.now.system.value) pass.old pass.new place result }
    {
        let found = pass.values[place as usize];
        let left = found;
        learn(&mut pass.known, &Step::Value { place, found, left });
        found
    }

    /// Sets bits in a word of a set, and answers the word with them.
    pub(crate) fn add_bits(&self, pass: &mut Pass, place: u32, bits: u64) -> u64
        requires own { IsPassOf self.now pass.old }
        requires place { place < self.now.cells }
        requires may { MayAdd (program_of self.now.system.value) pass.old place bits }
        ensures own { IsPassOf self.now pass.new }
        ensures kept { IsAtLeast pass.old pass.new }
        ensures log { IsLogOn pass.old pass.new }
        ensures found { LogsBits self.now pass.old pass.new place bits result }
        ensures added { BitsAdded (program_of self.now.system.value) pass.old pass.new place bits result }
    {
        let found = pass.values[place as usize];
        let left = found | bits;
        pass.values[place as usize] = left;
        learn(&mut pass.known, &Step::Value { place, found, left });
        left
    }

    /// Sets bit 0 of the value word of a circular instance, and answers the word with it.
    pub(crate) fn add_truth(&self, pass: &mut Pass, place: u32) -> u64
        requires own { IsPassOf self.now pass.old }
        requires place { place < self.now.cells }
        requires may { MayRaiseTruth (program_of self.now.system.value) pass.old place }
        ensures own { IsPassOf self.now pass.new }
        ensures kept { IsAtLeast pass.old pass.new }
        ensures log { IsLogOn pass.old pass.new }
        ensures found { LogsTruth self.now pass.old pass.new place result }
        ensures added { BitsAdded (program_of self.now.system.value) pass.old pass.new place 1 result }
    {
        let found = pass.values[place as usize];
        if found != 0 {
            let left = found;
            learn(&mut pass.known, &Step::Value { place, found, left });
            return found;
        }
        let left = 1;
        pass.values[place as usize] = left;
        learn(&mut pass.known, &Step::Value { place, found, left });
        left
    }

    /// Sets bit 63 of the value word of each slot: what is raised there is final. All of them are noted, and sealed one after the other.
    pub(crate) fn mark(&self, pass: &mut Pass, set: &[Slot])
        requires own { IsPassOf self.now pass.old }
        requires may { MaySeal (program_of self.now.system.value) self.now pass.old (map (λ s. s.0) set.now) }
        ensures own { IsPassOf self.now pass.new }
        ensures kept { IsAtLeast pass.old pass.new }
        ensures log { IsLogOn pass.old pass.new }
        ensures sealed { AreSealed pass.old pass.new (map (λ s. s.0) set.now) }
        ensures claims { pass.new.claims ≡ pass.old.claims }
    {
        self.mark_all(&pass.keys, &mut pass.values, &mut pass.known, set);
    }

    // Sets bit 63 of the value words of these slots, one after the other.
    fn mark_all(
        &self,
        keys: &Vec<u64>,
        words: &mut Vec<u64>,
        known: &mut Snapshot<View>,
        set: &[Slot],
    )
        requires noted { AreSealedTo self.now known.old.value.made set.now 0 keys.now.items words.old.items }
        requires told { IsTold self.now known.old.value.made keys.now.items words.old.items known.old.value }
        ensures sealed { SealsAll self.now known.old.value.made set.now keys.now.items words.old.items words.new.items }
        ensures told { TellsSealed self.now known.old.value.made set.now (length set.now) keys.now.items words.new.items known.old.value known.new.value }
    {
        for number in 0..set.len() {
            self.mark_one(keys, words, known, set, number);
        }
    }

    // Sets bit 63 of the value word of one of them. Those before it are sealed, and those behind it are left to seal.
    fn mark_one(
        &self,
        _keys: &Vec<u64>,
        words: &mut Vec<u64>,
        known: &mut Snapshot<View>,
        set: &[Slot],
        number: usize,
    )
        requires number { number < length set.now }
        requires noted { AreSealedTo self.now known.old.value.made set.now number _keys.now.items words.old.items }
        requires told { IsTold self.now known.old.value.made _keys.now.items words.old.items known.old.value }
        ensures sealed { SealsTo self.now known.old.value.made set.now number (number + 1) _keys.now.items words.old.items words.new.items }
        ensures found { LogsNext self.now set.now number words.old.items known.old.value known.new.value }
        ensures told { TellsNext self.now known.old.value.made set.now number _keys.now.items words.new.items known.old.value known.new.value }
    {
        let place = set[number].0;
        let found = words[place as usize];
        let left = with_mark(found);
        words[place as usize] = left;
        learn(known, &Step::Value { place, found, left });
    }
}

/// A value word with bit 63.
fn with_mark(word: u64) -> u64
    ensures { result ≡ with_mark word }
{
    if word < 1 << 63 {
        word + (1 << 63)
    } else {
        word
    }
}
