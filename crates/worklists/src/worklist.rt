// Which member of a local set is evaluated next. Nothing but time hangs on it: a set is sealed only after a pass over all its members.
ghost use Rattle.std.specs.Prelude.{◌≡◌, ◌≢◌, ◌<◌, ◌≤◌, ◌⊎◌, ℕ, [], true, Contains, IfNone, IfOk, IfSome, OnOk, length};
ghost use Rattle.std.specs.BTreeSet.{IsUpperBound};
ghost use Rattle.std.specs.Ordering.{nat_cmp};
ghost use Rattle.worklists.specs.Searching.{FindsOpen, IsSearch};
ghost use Rattle.worklists.specs.Waiting.{AreClosed, IsDue, IsFresh, IsReader, IsSameBesideDue, IsWithin, StillDue, due_count};

use crate::due::Due;
use crate::search::Search;
use indexmap::IndexSet;
use rag_io::Memory;
use std::alloc::Global;

/// What is noted of a member.
#[derive(Drop)]
pub(crate) struct Noted {
    // The members that read its value.
    readers: IndexSet<usize>,
    // Whether what it reads is noted: it was evaluated, or needn't be.
    evaluated: bool,
}

/// The members that are to be evaluated, by their numbers.
#[derive(Drop)]
pub struct Worklist {
    due: Due,
    noted: Vec<Noted>,
    // How much was read since closed members were looked for, and how much was looked at then.
    effort: usize,
    cost: usize,
}

/// Puts a number last, unless it is there.
fn insert(numbers: &mut IndexSet<usize>, number: usize) -> Result<(), Memory>
    ensures has { OnOk result (Contains numbers.new.keys number) }
    ensures kept { IsWithin numbers.old.keys numbers.new.keys }
{
    let Ok(_) = numbers.insert(number) else {
        return Err(Memory);
    };
    Ok(())
}

/// Each of the members that read a value is due, since it rose.
fn wake_all(due: &mut Due, readers: &IndexSet<usize>, risen: usize) -> Result<(), Memory>
    ensures all { OnOk result ((k : ℕ) → Contains readers.now.keys k → IsDue due.new k) }
    ensures kept { StillDue due.old due.new }
{
    for number in readers.as_slice() {
        due.wake(*number, risen)?;
    }
    Ok(())
}

impl Worklist {
    /// No members.
    pub fn new(alloc: Global) -> Worklist
        ensures due { due_count result.due ≡ 0 }
        ensures noted { result.noted.items ≡ [] }
    {
        Worklist {
            due: Due::new(alloc),
            noted: Vec::new(alloc),
            effort: 0,
            cost: 0,
        }
    }

    /// The member that is evaluated next, if one is due.
    pub fn next(&mut self) -> Option<usize>
        ensures greatest { IfSome result (IsUpperBound nat_cmp self.new.due.sweep) }
        ensures some { IfSome result (λ number. 0 < length self.new.due.sweep.keys) }
        ensures none { IfNone result (due_count self.old.due ≡ 0) }
        ensures goes_on { 0 < length self.old.due.sweep.keys → self.new.due ≡ self.old.due }
        ensures begins { length self.old.due.sweep.keys ≡ 0 → self.new.due.sweep ≡ self.old.due.later }
        ensures same { IsSameBesideDue self.old self.new }
        ensures kept { StillDue self.old.due self.new.due }
        ensures count { due_count self.new.due ≡ due_count self.old.due }
    {
        self.due.next()
    }

    /// Takes away the member that is evaluated next.
    pub fn pop(&mut self)
        ensures fewer { 0 < length self.old.due.sweep.keys → due_count self.new.due < due_count self.old.due }
        ensures others { (k : ℕ) → IsDue self.old.due k → IsDue self.new.due k ⊎ IsUpperBound nat_cmp self.old.due.sweep k }
        ensures same { IsSameBesideDue self.old self.new }
    {
        self.due.pop();
    }

    /// A member isn't due until a value rises that it read.
    pub fn rest(&mut self, number: usize)
        ensures others { (k : ℕ) → k ≢ number → IsDue self.old.due k → IsDue self.new.due k }
        ensures gone { ¬ Contains self.new.due.sweep.keys number }
        ensures same { IsSameBesideDue self.old self.new }
    {
        self.due.remove(number);
    }

    /// A new member, which is due where it is unsettled.
    pub fn add(&mut self, alloc: Global, number: usize, unsettled: bool) -> Result<(), Memory>
        ensures due { OnOk result (unsettled ≡ true → IsDue self.new.due number) }
        ensures kept { StillDue self.old.due self.new.due }
        ensures fresh { OnOk result (length self.old.noted.items ≡ number → unsettled ≡ true → IsFresh self.new number) }
        ensures effort { self.new.effort ≡ self.old.effort }
        ensures cost { self.new.cost ≡ self.old.cost }
    {
        if self.noted.len() <= number {
            let noted = Noted {
                readers: IndexSet::new(alloc),
                evaluated: !unsettled,
            };
            self.noted.push(noted).map_err(|_| Memory)?;
        }
        if unsettled {
            self.due.add(number)?;
        }
        Ok(())
    }

    // Notes that a member was evaluated.
    fn note_evaluated(&mut self, number: usize)
        ensures due { self.new.due ≡ self.old.due }
        ensures len { length self.new.noted.items ≡ length self.old.noted.items }
        ensures evaluated { ¬ IsFresh self.new number }
        ensures fresh { (k : ℕ) → IsFresh self.new k → IsFresh self.old k }
        ensures readers { (k other : ℕ) → IsReader self.old k other → IsReader self.new k other }
    {
        if let Some(noted) = self.noted.get_mut(number) {
            noted.evaluated = true;
        }
    }

    /// Notes that a member was evaluated, and the members whose values it read.
    pub fn note_reads(&mut self, reader: usize, read: &[usize]) -> Result<(), Memory>
        ensures due { self.new.due ≡ self.old.due }
        ensures evaluated { ¬ IsFresh self.new reader }
        ensures noted { OnOk result ((k : ℕ) → Contains read.now k → k < length self.old.noted.items → IsReader self.new k reader) }
        ensures kept { (k other : ℕ) → IsReader self.old k other → IsReader self.new k other }
    {
        self.effort = self.effort.saturating_add(read.len()).saturating_add(1);
        self.note_evaluated(reader);
        for number in read {
            if let Some(noted) = self.noted.get_mut(*number) {
                insert(&mut noted.readers, reader)?;
            }
        }
        Ok(())
    }

    /// The value of a member rose to that of its equation: the members that read it are due, and the member itself only if it did.
    pub fn wake_readers(&mut self, number: usize) -> Result<(), Memory>
        ensures woken { OnOk result ((k : ℕ) → IsReader self.old number k → IsDue self.new.due k) }
        ensures kept { (k : ℕ) → k ≢ number → IsDue self.old.due k → IsDue self.new.due k }
        ensures same { IsSameBesideDue self.old self.new }
    {
        self.due.remove(number);
        if let Some(noted) = self.noted.get(number) {
            wake_all(&mut self.due, &noted.readers, number)?;
        }
        Ok(())
    }

    // A search that begins at the member that stopped and at those that weren't evaluated yet.
    fn begun(&self, alloc: Global, stopped: usize) -> Result<Search, Memory>
        ensures { IfOk result (λ search. IsSearch self.now stopped search) }
    {
        let mut search = Search::new(alloc, self.noted.len())?;
        search.find(stopped)?;
        for (number, noted) in self.noted.iter().enumerate() {
            if !noted.evaluated {
                search.find(number)?;
            }
        }
        Ok(search)
    }

    // All members from which a way of reads leads to the one that stopped or to one that wasn't evaluated yet.
    fn search(&self, alloc: Global, stopped: usize) -> Result<Search, Memory>
        ensures { IfOk result (λ search. FindsOpen self.now stopped search) }
    {
        let mut search = self.begun(alloc, stopped)?;
        while let Some(number) = search.next() {
            if let Some(noted) = self.noted.get(number) {
                search.find_all(&noted.readers)?;
            }
        }
        Ok(search)
    }

    /// The members from which no way of reads leads to the one that stopped or to one that wasn't evaluated yet. None are answered where less was
    /// read since they were looked for last than was looked at then: so all searches together take no longer than the evaluations.
    pub fn closed(&mut self, alloc: Global, stopped: usize) -> Result<Vec<usize>, Memory>
        ensures due { self.new.due ≡ self.old.due }
        ensures noted { self.new.noted ≡ self.old.noted }
        ensures soon { self.old.effort < self.old.cost → IfOk result (λ closed. closed.items ≡ []) }
        ensures all { self.old.cost ≤ self.old.effort → IfOk result (λ closed. AreClosed self.old stopped closed.items) }
        ensures waits { self.old.effort < self.old.cost → (self.new.effort ≡ self.old.effort) × (self.new.cost ≡ self.old.cost) }
        ensures anew { self.old.cost ≤ self.old.effort → OnOk result ((self.new.effort ≡ 0) × (length self.new.noted.items ≤ self.new.cost)) }
    {
        if self.effort < self.cost {
            return Ok(Vec::new(alloc));
        }
        let search = self.search(alloc, stopped)?;
        self.effort = 0;
        self.cost = search.looked().saturating_add(self.noted.len());
        search.others(alloc)
    }
}
