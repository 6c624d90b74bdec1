// In which order the members of a local set are evaluated: in sweeps from the last one that was admitted down to the first.
ghost use Rattle.std.specs.Prelude.{◌≡◌, ◌≢◌, ◌<◌, ◌⊎◌, ℕ, Contains, IfNone, IfSome, OnOk, length};
ghost use Rattle.std.specs.Ordering.{nat_cmp};
ghost use Rattle.std.specs.BTreeSet.{IsUpperBound};
ghost use Rattle.worklists.specs.Waiting.{IsDue, IsWithin, StillDue, due_count};

use rag_io::Memory;
use std::alloc::Global;
use std::collections::BTreeSet;
use std::mem;

/// The members that are due, by their numbers. A sweep goes over them from the greatest number down. What becomes due before it, and a new member,
/// is evaluated in the same sweep, and what becomes due behind it in the next one. So members are met before any is evaluated again.
#[derive(Drop)]
pub(crate) struct Due {
    // Those that are due in this sweep.
    sweep: BTreeSet<usize, Global>,
    // Those that are due in the next one.
    later: BTreeSet<usize, Global>,
}

// Puts a number in.
fn insert(numbers: &mut BTreeSet<usize, Global>, number: usize) -> Result<(), Memory>
    ensures has { OnOk result (Contains numbers.new.keys number) }
    ensures kept { IsWithin numbers.old.keys numbers.new.keys }
{
    let Ok(_) = numbers.insert(number) else {
        return Err(Memory);
    };
    Ok(())
}

impl Due {
    /// None is due.
    pub(crate) fn new(alloc: Global) -> Due
        ensures { due_count result ≡ 0 }
    {
        Due {
            sweep: BTreeSet::new(alloc),
            later: BTreeSet::new(alloc),
        }
    }

    /// The member that is evaluated next, if one is due. Where a sweep is over, the next one begins.
    pub(crate) fn next(&mut self) -> Option<usize>
        ensures greatest { IfSome result (IsUpperBound nat_cmp self.new.sweep) }
        ensures some { IfSome result (λ number. 0 < length self.new.sweep.keys) }
        ensures none { IfNone result (due_count self.old ≡ 0) }
        ensures goes_on { 0 < length self.old.sweep.keys → self.new ≡ self.old }
        ensures begins { length self.old.sweep.keys ≡ 0 → self.new.sweep ≡ self.old.later }
        ensures kept { StillDue self.old self.new }
        ensures count { due_count self.new ≡ due_count self.old }
    {
        if self.sweep.is_empty() {
            mem::swap(&mut self.sweep, &mut self.later);
        }
        self.sweep.last().copied()
    }

    /// Takes away the member that is evaluated next.
    pub(crate) fn pop(&mut self)
        ensures fewer { 0 < length self.old.sweep.keys → due_count self.new < due_count self.old }
        ensures others { (k : ℕ) → IsDue self.old k → IsDue self.new k ⊎ IsUpperBound nat_cmp self.old.sweep k }
    {
        let _member = self.sweep.pop_last();
    }

    /// Takes away the member that is evaluated.
    pub(crate) fn remove(&mut self, number: usize)
        ensures others { (k : ℕ) → k ≢ number → IsDue self.old k → IsDue self.new k }
        ensures gone { ¬ Contains self.new.sweep.keys number }
    {
        self.sweep.remove(&number);
    }

    /// A new member is due.
    pub(crate) fn add(&mut self, number: usize) -> Result<(), Memory>
        ensures has { OnOk result (IsDue self.new number) }
        ensures kept { StillDue self.old self.new }
    {
        insert(&mut self.sweep, number)
    }

    /// A member is due since the value of another one rose, before which it comes or not.
    pub(crate) fn wake(&mut self, number: usize, risen: usize) -> Result<(), Memory>
        ensures has { OnOk result (IsDue self.new number) }
        ensures kept { StillDue self.old self.new }
    {
        if number < risen {
            insert(&mut self.sweep, number)
        } else {
            insert(&mut self.later, number)
        }
    }
}
