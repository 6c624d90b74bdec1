// The search for a key: place by place from where its hash leads, round the table.
ghost use Rattle.std.specs.Prelude.{◌≡◌, ◌≢◌, ◌<◌, ◌≤◌, ◌⊎◌, ℕ, MatchOption};
ghost use Rattle.equation_law.specs.Systems.{program_of};
ghost use Rattle.memo_cells.specs.Causes.{IsLogOn};
ghost use Rattle.memo_cells.specs.Naming.{IsFormed};
ghost use Rattle.memo_cells.specs.Standing.{IsPassOf};
ghost use Rattle.memo_cells.specs.Steps.{IsSearched};
ghost use Rattle.memo_cells.specs.Views.{ClaimsOnly, Has, IsAtLeast, IsLedTo, IsOtherIn, IsPassed, IsSlot, is_settled_at};

use crate::cells::{Cells, Pass};
use crate::keys::is_attribute;

/// What a search for a key finds among some places.
#[derive(Clone, Copy)]
pub(crate) enum Search {
    /// The place of the key.
    At(u32),
    /// A free place on the way of the key, so that it stands nowhere.
    Nowhere,
    /// Other keys have all of them.
    Passed,
}

impl Cells {
    /// The key word that stands at a place for good: the key itself where none stood there.
    fn hold(&self, pass: &mut Pass, place: u32, key: u64) -> u64
        requires own { IsPassOf self.now pass.old }
        requires key { (key ≢ 0) × IsFormed (program_of self.now.system.value) pass.old key }
        requires place { place < self.now.cells }
        requires passed { IsPassed self.now pass.old key place }
        ensures own { IsPassOf self.now pass.new }
        ensures kept { IsAtLeast pass.old pass.new }
        ensures log { IsLogOn pass.old pass.new }
        ensures held { (result ≢ 0) × Has pass.new.keys (place, result) }
        ensures claims { ClaimsOnly pass.old pass.new key }
    {
        let seen = self.look_key(pass, place);
        if seen != 0 {
            return seen;
        }
        let found = self.try_key(pass, place, key);
        if found != 0 {
            return found;
        }
        key
    }

    /// Looks from one place on, up to another, and claims the first free place; None where other keys have all of them.
    pub(crate) fn probe_claim(&self, pass: &mut Pass, key: u64, from: u32, to: u32) -> Option<u32>
        requires own { IsPassOf self.now pass.old }
        requires key { (key ≢ 0) × IsFormed (program_of self.now.system.value) pass.old key }
        requires range { (from ≤ to) × (to ≤ self.now.cells) }
        requires led { IsLedTo self.now pass.old key from to }
        ensures own { IsPassOf self.now pass.new }
        ensures kept { IsAtLeast pass.old pass.new }
        ensures log { IsLogOn pass.old pass.new }
        ensures probed { MatchOption result (IsOtherIn pass.new key from to) (λ p. IsSlot self.now pass.new p key) }
        ensures claims { ClaimsOnly pass.old pass.new key }
    {
        for place in from..to {
            if self.hold(pass, place, key) == key {
                return Some(place);
            }
        }
        None
    }

    /// Looks for a key from one place on, up to another, and claims nothing.
    pub(crate) fn probe_seek(&self, pass: &mut Pass, key: u64, from: u32, to: u32) -> Search
        requires own { IsPassOf self.now pass.old }
        requires key { key ≢ 0 }
        requires range { (from ≤ to) × (to ≤ self.now.cells) }
        requires led { IsLedTo self.now pass.old key from to }
        ensures own { IsPassOf self.now pass.new }
        ensures kept { IsAtLeast pass.old pass.new }
        ensures searched { IsSearched self.now pass.old pass.new key from to result }
        ensures claims { pass.new.claims ≡ pass.old.claims }
        ensures log { IsLogOn pass.old pass.new }
    {
        for place in from..to {
            let seen = self.look_key(pass, place);
            if seen == key {
                return Search::At(place);
            }
            if seen == 0 {
                return Search::Nowhere;
            }
        }
        Search::Passed
    }
    /// Whether the cell at a place is of an attribute, and settled.
    pub(crate) fn is_settled(&self, pass: &mut Pass, place: u32) -> bool
        requires own { IsPassOf self.now pass.old }
        requires place { place < self.now.cells }
        ensures own { IsPassOf self.now pass.new }
        ensures kept { IsAtLeast pass.old pass.new }
        ensures log { IsLogOn pass.old pass.new }
        ensures settled { result ≡ is_settled_at pass.new place }
        ensures others { (q k c : ℕ) → Has pass.new.values (q, k, c) → Has pass.old.values (q, k, c) ⊎ (q ≡ place) }
        ensures claims { pass.new.claims ≡ pass.old.claims }
    {
        let key = self.look_key(pass, place);
        is_attribute(key) && self.look_value(pass, place) >= 1 << 63
    }
}
