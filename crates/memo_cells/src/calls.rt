// What callers do with the cells.
ghost use Rattle.std.specs.Prelude.{◌≡◌, ◌<◌, ◌≤◌, ℕ, IfOk, IfSome, IfNone, OnErr, replicate};
ghost use Rattle.equation_law.specs.Checked.{HasSourcesAlone};
ghost use Rattle.equation_law.specs.Systems.{program_of};
ghost use Rattle.memo_cells.specs.Causes.{IsLogOn, WhyMissing, WhyUnsettled};
ghost use Rattle.memo_cells.specs.Keys.{Fits, key_word};
ghost use Rattle.memo_cells.specs.Learning.{forgotten};
ghost use Rattle.memo_cells.specs.Naming.{IsFormed};
ghost use Rattle.memo_cells.specs.Standing.{AreNew, IsMissing, IsPassOf, MaySettle};
ghost use Rattle.memo_cells.specs.Views.{ClaimsOnly, Has, IsAtLeast, IsFull, IsPlain, IsSlot, IsUnsettled, settled_below};

use crate::cells::{Cells, Pass};
use crate::keys::{Key, Slot, start_of};
use crate::learning::{Step, learn};
use crate::probe::Search;
use crate::truths::{truths_of_attributes, truths_of_queries};
use crate::view::nothing_known;
use equation_law::{Code, System};
use rag_io::Memory;
use std::alloc::Global;
use std::snapshot::Snapshot;

/// Each cell has another key.
#[derive(Clone, Copy, Debug, PartialEq, Eq)]
pub struct CellsFull;

// The places of so many words, none of which is set.
fn no_words(alloc: Global, cells: u32) -> Result<Vec<u64>, Memory>
    ensures { IfOk result (λ words. words.items ≡ replicate cells 0) }
{
    vec![in alloc; 0; cells as usize].map_err(|_| Memory)
}

impl Cells {
    /// Cells for a system, from 1,024 to 4,194,304, and their first pass. No key is claimed. The system's program makes no nodes.
    pub fn new(alloc: Global, system: &System, cells: u32) -> Result<(Cells, Pass), Memory>
        requires size { (1024 ≤ cells) × (cells ≤ 4194304) }
        requires bare { HasSourcesAlone (program_of system.now) }
        ensures { IfOk result (λ r. AreNew system.now cells r.0 r.1) }
    {
        let keys = no_words(alloc, cells)?;
        let values = no_words(alloc, cells)?;
        let kept = Cells {
            size: cells,
            system: Snapshot::of(system),
            attributes: truths_of_attributes(alloc, system.rules())?,
            queries: truths_of_queries(alloc, system)?,
        };
        let pass = Pass {
            keys,
            values,
            size: cells,
            system: Snapshot::of(system),
            known: nothing_known(alloc, Snapshot::of(system), cells),
        };
        Ok((kept, pass))
    }

    /// The number of cells.
    pub fn size(&self) -> u32
        ensures { result ≡ self.now.cells }
    {
        self.size
    }

    /// The one slot of a key of the system, claimed where it wasn't. It refuses only where other keys have all the cells.
    pub fn claim(&self, pass: &mut Pass, key: Key) -> Result<Slot, CellsFull>
        requires own { IsPassOf self.now pass.old }
        requires slot { Fits key }
        requires key { IsFormed (program_of self.now.system.value) pass.old (key_word key) }
        ensures own { IsPassOf self.now pass.new }
        ensures kept { IsAtLeast pass.old pass.new }
        ensures log { IsLogOn pass.old pass.new }
        ensures slot { IfOk result (λ s. IsSlot self.now pass.new s.0 (key_word key)) }
        ensures full { OnErr result (IsFull self.now pass.new (key_word key)) }
        ensures claims { ClaimsOnly pass.old pass.new (key_word key) }
    {
        let word = key.word();
        let first = start_of(self.size, word);
        if let Some(place) = self.probe_claim(pass, word, first, self.size) {
            return Ok(Slot(place));
        }
        if let Some(place) = self.probe_claim(pass, word, 0, first) {
            return Ok(Slot(place));
        }
        Err(CellsFull)
    }

    /// The one slot of a key, or None where it isn't claimed: never for a key that the pass has seen claimed. It claims nothing.
    pub fn seek(&self, pass: &mut Pass, key: Key) -> Option<Slot>
        requires own { IsPassOf self.now pass.old }
        requires slot { Fits key }
        ensures own { IsPassOf self.now pass.new }
        ensures kept { IsAtLeast pass.old pass.new }
        ensures slot { IfSome result (λ s. IsSlot self.now pass.new s.0 (key_word key)) }
        ensures none { IfNone result (IsMissing (program_of self.now.system.value) pass.new (key_word key)) }
        ensures cause { IfNone result (WhyMissing self.now pass.old pass.new (key_word key)) }
        ensures claims { pass.new.claims ≡ pass.old.claims }
        ensures log { IsLogOn pass.old pass.new }
    {
        let word = key.word();
        let first = start_of(self.size, word);
        match self.probe_seek(pass, word, first, self.size) {
            Search::At(place) => return Some(Slot(place)),
            Search::Nowhere => return None,
            Search::Passed => {}
        }
        match self.probe_seek(pass, word, 0, first) {
            Search::At(place) => Some(Slot(place)),
            Search::Nowhere | Search::Passed => None,
        }
    }

    /// The code that stands in a slot for good, or None where none is settled there: never where the pass has seen it settled. It needs a slot
    /// whose key the pass knows, and not a word of a set.
    pub fn settled(&self, pass: &mut Pass, slot: Slot) -> Option<Code>
        requires own { IsPassOf self.now pass.old }
        requires slot { slot.0 < self.now.cells }
        requires plain { IsPlain pass.old slot.0 }
        ensures own { IsPassOf self.now pass.new }
        ensures kept { IsAtLeast pass.old pass.new }
        ensures known { IfSome result (λ c. (k : ℕ) → Has pass.old.keys (slot.0, k) → Has pass.new.values (slot.0, k, c)) }
        ensures none { IfNone result (IsUnsettled pass.old pass.new slot.0) }
        ensures cause { IfNone result (WhyUnsettled self.now pass.old pass.new slot.0) }
        ensures claims { pass.new.claims ≡ pass.old.claims }
        ensures log { IsLogOn pass.old pass.new }
    {
        let word = self.look_value(pass, slot.0);
        if word < 1 << 63 {
            return None;
        }
        Some((word - (1 << 63)) as u32)
    }

    /// Publishes the code of the value of a slot's undeclared instance once, and answers the code that stands there for good. The words of
    /// a set must show its value, and the pass must know as settled all that the instance demands.
    pub fn settle(&self, pass: &mut Pass, slot: Slot, code: Code) -> Code
        requires own { IsPassOf self.now pass.old }
        requires slot { slot.0 < self.now.cells }
        requires code { MaySettle (program_of self.now.system.value) pass.old slot.0 code }
        ensures own { IsPassOf self.now pass.new }
        ensures kept { IsAtLeast pass.old pass.new }
        ensures log { IsLogOn pass.old pass.new }
        ensures known { (k : ℕ) → Has pass.old.keys (slot.0, k) → Has pass.new.values (slot.0, k, result) }
        ensures stays { (k c : ℕ) → Has pass.old.values (slot.0, k, c) → result ≡ c }
        ensures claims { pass.new.claims ≡ pass.old.claims }
    {
        let found = self.try_value(pass, slot.0, code);
        if found == 0 {
            return code;
        }
        (found - (1 << 63)) as u32
    }

    /// Forgets what the pass has read of the words, as one that comes to them anew. They stay as they are, and it stays the owner of what it claimed.
    pub fn forget(&self, pass: &mut Pass)
        requires own { IsPassOf self.now pass.old }
        ensures own { IsPassOf self.now pass.new }
        ensures forgot { pass.new ≡ forgotten pass.old }
    {
        learn(&mut pass.known, &Step::Forget);
    }

    /// How many cells of attributes are settled, those of queries aside. It reads each cell once.
    pub fn settled_count(&self, pass: &mut Pass) -> u32
        requires own { IsPassOf self.now pass.old }
        ensures own { IsPassOf self.now pass.new }
        ensures kept { IsAtLeast pass.old pass.new }
        ensures log { IsLogOn pass.old pass.new }
        ensures count { result ≡ settled_below pass.new self.now.cells }
        ensures claims { pass.new.claims ≡ pass.old.claims }
    {
        let mut count = 0;
        for place in 0..self.size {
            if self.is_settled(pass, place) {
                count += 1;
            }
        }
        count
    }
}
