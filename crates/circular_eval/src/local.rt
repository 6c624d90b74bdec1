// Local sets.
ghost use Rattle.std.specs.Prelude.{◌≡◌, ◌≢◌, ◌⊎◌, ◌++◌, ◌∷◌, [], ℕ, ◌<◌, ◌≤◌, Contains, IfNone, IfOk, IfSome, None, OnErr, OnOk, Some, length, option_to_list, slice_get};
ghost use Rattle.std.specs.BTreeSet.{IsUpperBound};
ghost use Rattle.std.specs.Option.{option_and_then, option_map};
ghost use Rattle.std.specs.Ordering.{nat_cmp};
ghost use Rattle.equation_law.specs.Codes.{AreElements, Naming, instance_by};
ghost use Rattle.equation_law.specs.Program.{Program};
ghost use Rattle.expr_eval.specs.Saved.{SavesNothing};
ghost use Rattle.circular_eval.specs.Advancing.{IsPathIn};
ghost use Rattle.circular_eval.specs.Local.{AreKept, AreSlots, IsAbsent, IsLocalOf, IsLocalValue, IsMemberOf, WhereKept, with_value};
ghost use Rattle.circular_eval.specs.Parts.{AreClosedMembers, unsealed_at, without_slot};
ghost use Rattle.circular_eval.specs.Sealed.{IsMemberAt};
ghost use Rattle.circular_eval.specs.Left.{member_bound};
ghost use Rattle.worklists.specs.Waiting.{IsDue, IsReader, StillDue, due_count};

use crate::members::Member;
use equation_law::{Chain, Instance, Value};
use expr_eval::Saved;
use indexmap::IndexMap;
use memo_cells::Slot;
use rag_io::Memory;
use std::alloc::Global;
use worklists::Worklist;

/// Circular instances that are solved together: a start, and what its equations lead to. They are numbered in the order in which they were
/// met.
#[derive(Drop)]
pub struct Local<'a> {
    start: Instance,
    members: IndexMap<Instance, Member>,
    worklist: Worklist,
    // The undeclared instance that was missing last, and the member whose equation demands it.
    need: Option<(usize, Instance)>,
    // What the evaluation of that equation left behind, as long as it may go on.
    saved: Option<Saved<'a>>,
}

/// Adds an instance last.
fn push(list: &mut Vec<Instance>, i: Instance) -> Result<(), Memory>
    ensures { OnOk result (list.new.items ≡ list.old.items ++ i ∷ []) }
{
    list.push(i).map_err(|_| Memory)
}

/// Adds a slot last, if there is one.
fn push_slot(slots: &mut Vec<Slot>, slot: Option<Slot>) -> Result<(), Memory>
    ensures { OnOk result (slots.new.items ≡ slots.old.items ++ option_to_list slot) }
{
    if let Some(slot) = slot {
        slots.push(slot).map_err(|_| Memory)?;
    }
    Ok(())
}

impl<'a> Local<'a> {
    /// The local set of a circular instance, which nobody looked at yet.
    pub fn start(alloc: Global, i: Instance) -> Result<Local<'a>, Memory>
        ensures start { IfOk result (λ l. l.start ≡ i) }
        ensures local { IfOk result (IsLocalOf i) }
    {
        Ok(Local {
            start: i,
            members: IndexMap::new(alloc),
            worklist: Worklist::new(alloc),
            need: None,
            saved: None,
        })
    }

    /// A list of instances that begins with the start and ends with the instance that was needed last, each led to by the one before.
    pub fn path(&self, alloc: Global) -> Result<Chain, Memory>
        ensures { IfOk result (IsPathIn self.now) }
    {
        let mut list = Vec::new(alloc);
        let Some((number, need)) = self.need else {
            return Ok(Chain::new(list));
        };
        push(&mut list, need)?;
        let mut at = Some(number);
        while let Some(number) = at {
            let Some((instance, member)) = self.members.get_index(number) else {
                break;
            };
            push(&mut list, *instance)?;
            at = before(number, member.by);
        }
        list.reverse();
        Ok(Chain::new(list))
    }

    /// The instance with which it begins.
    pub fn first(&self) -> Instance
        ensures { result ≡ self.now.start }
    {
        self.start
    }

    /// How many members there are.
    pub fn len(&self) -> usize
        ensures len { result ≡ length self.now.members.entries }
        ensures few { result < member_bound }
    {
        self.members.len()
    }

    /// A member by its number.
    pub(crate) fn member(&self, number: usize) -> Option<(&Instance, &Member)>
        ensures { option_map (λ e. (e.0.now, e.1.now)) result ≡ slice_get self.now.members.entries number }
    {
        self.members.get_index(number)
    }

    /// The number of a member and its value.
    pub(crate) fn find(&self, i: &Instance) -> Option<(usize, &Value)>
        ensures none { WhereKept self.now.members.entries i.now (λ p n. IfNone result (¬ IsMemberOf p n self.now.members.entries (instance_by p n i.now))) }
        ensures member { (p : Program) (n : Naming) → IfSome result (λ x. IsMemberOf p n self.now.members.entries (instance_by p n i.now)) }
        ensures value { WhereKept self.now.members.entries i.now (λ p n. IfSome result (λ x. IsLocalValue p n self.now.members.entries i.now x.1.now)) }
        ensures elements { (p : Program) (n : Naming) → AreKept p n self.now.members.entries → IfSome result (λ x. AreElements p x.1.now) }
        ensures at { IfSome result (λ x. IsMemberAt self.now.members.entries x.0 i.now x.1.now) }
        ensures absent { IfNone result (IsAbsent self.now.members.entries i.now) }
    {
        let (number, _, member) = self.members.get_full(i)?;
        Some((number, &member.value))
    }

    /// The member that is evaluated next, if one is due.
    pub(crate) fn next(&mut self) -> Option<usize>
        ensures start { self.new.start ≡ self.old.start }
        ensures members { self.new.members ≡ self.old.members }
        ensures need { self.new.need ≡ self.old.need }
        ensures saved { self.new.saved ≡ self.old.saved }
        ensures greatest { IfSome result (IsUpperBound nat_cmp self.new.worklist.due.sweep) }
        ensures some { IfSome result (λ number. 0 < length self.new.worklist.due.sweep.keys) }
        ensures none { IfNone result (due_count self.old.worklist.due ≡ 0) }
        ensures goes_on { 0 < length self.old.worklist.due.sweep.keys → self.new.worklist.due ≡ self.old.worklist.due }
        ensures begins { length self.old.worklist.due.sweep.keys ≡ 0 → self.new.worklist.due.sweep ≡ self.old.worklist.due.later }
        ensures kept { StillDue self.old.worklist.due self.new.worklist.due }
        ensures count { due_count self.new.worklist.due ≡ due_count self.old.worklist.due }
    {
        self.worklist.next()
    }

    /// Takes away the member that is evaluated next.
    pub(crate) fn pop(&mut self)
        ensures start { self.new.start ≡ self.old.start }
        ensures members { self.new.members ≡ self.old.members }
        ensures need { self.new.need ≡ self.old.need }
        ensures saved { self.new.saved ≡ self.old.saved }
        ensures fewer { 0 < length self.old.worklist.due.sweep.keys → due_count self.new.worklist.due < due_count self.old.worklist.due }
        ensures others { (k : ℕ) → IsDue self.old.worklist.due k → IsDue self.new.worklist.due k ⊎ IsUpperBound nat_cmp self.old.worklist.due.sweep k }
    {
        self.worklist.pop();
    }

    /// Lets a member rest until a value rises that it read.
    pub(crate) fn rest(&mut self, number: usize)
        ensures start { self.new.start ≡ self.old.start }
        ensures members { self.new.members ≡ self.old.members }
        ensures need { self.new.need ≡ self.old.need }
        ensures saved { self.new.saved ≡ self.old.saved }
        ensures others { (k : ℕ) → k ≢ number → IsDue self.old.worklist.due k → IsDue self.new.worklist.due k }
        ensures gone { ¬ Contains self.new.worklist.due.sweep.keys number }
    {
        self.worklist.rest(number);
    }

    /// The member whose evaluation stopped last, if that may go on.
    pub(crate) fn stopped(&self) -> Option<usize>
        ensures { result ≡ option_and_then (λ s. option_map (λ n. n.0) self.now.need) self.now.saved }
    {
        self.saved.as_ref()?;
        let (number, _) = self.need?;
        Some(number)
    }

    /// Takes away what the evaluation left behind that stopped last. It is answered where it is that of this member.
    pub(crate) fn take_saved(&mut self, alloc: Global, number: usize) -> Saved<'a>
        ensures start { self.new.start ≡ self.old.start }
        ensures members { self.new.members ≡ self.old.members }
        ensures need { self.new.need ≡ self.old.need }
        ensures due { self.new.worklist.due ≡ self.old.worklist.due }
        ensures none { self.new.saved ≡ None }
        ensures saved { SavesNothing result ⊎ (self.old.saved ≡ Some result) }
        ensures own { option_map (λ n. n.0) self.old.need ≡ Some number → IfSome self.old.saved (λ s. result ≡ s) }
        ensures other { option_map (λ n. n.0) self.old.need ≢ Some number → SavesNothing result }
    {
        let last = self.stopped();
        match self.saved.take() {
            Some(saved) if last == Some(number) => saved,
            _ => Saved::new(alloc),
        }
    }

    /// Keeps what the evaluation left behind that stopped last.
    pub(crate) fn keep(&mut self, saved: Saved<'a>)
        ensures start { self.new.start ≡ self.old.start }
        ensures members { self.new.members ≡ self.old.members }
        ensures need { self.new.need ≡ self.old.need }
        ensures saved { self.new.saved ≡ Some saved.entry }
    {
        self.saved = Some(saved);
    }

    /// Notes what is missing, and the member that demands it.
    pub(crate) fn note_need(&mut self, number: usize, need: Instance)
        ensures start { self.new.start ≡ self.old.start }
        ensures members { self.new.members ≡ self.old.members }
        ensures need { self.new.need ≡ Some (number, need) }
        ensures saved { self.new.saved ≡ self.old.saved }
    {
        self.need = Some((number, need));
    }

    /// Notes the members whose values a member read.
    pub(crate) fn note_reads(&mut self, number: usize, read: &[usize]) -> Result<(), Memory>
        ensures start { self.new.start ≡ self.old.start }
        ensures members { self.new.members ≡ self.old.members }
        ensures need { self.new.need ≡ self.old.need }
        ensures saved { self.new.saved ≡ self.old.saved }
        ensures due { self.new.worklist.due ≡ self.old.worklist.due }
        ensures noted { OnOk result ((k : ℕ) → Contains read.now k → k < length self.old.worklist.noted.items → IsReader self.new.worklist k number) }
    {
        self.worklist.note_reads(number, read)
    }

    /// A new member.
    pub(crate) fn add(&mut self, alloc: Global, i: Instance, member: Member) -> Result<(), Memory>
        requires { IsAbsent self.old.members.entries i }
        ensures start { self.new.start ≡ self.old.start }
        ensures need { self.new.need ≡ self.old.need }
        ensures saved { self.new.saved ≡ self.old.saved }
        ensures added { OnOk result (self.new.members.entries ≡ self.old.members.entries ++ (i, member) ∷ []) }
        ensures refused { OnErr result (self.new.members.entries ≡ self.old.members.entries) }
        ensures few { length self.old.members.entries < member_bound }
    {
        let number = self.members.len();
        self.worklist.add(alloc, number, member.slot.is_some())?;
        let Ok(_) = self.members.insert(i, member) else {
            return Err(Memory);
        };
        Ok(())
    }

    // Gives a member a value.
    fn set_value(&mut self, number: usize, value: Value)
        ensures start { self.new.start ≡ self.old.start }
        ensures worklist { self.new.worklist ≡ self.old.worklist }
        ensures need { self.new.need ≡ self.old.need }
        ensures saved { self.new.saved ≡ self.old.saved }
        ensures members { self.new.members.entries ≡ with_value self.old.members.entries number value }
    {
        if let Some(member) = self.members.get_index_mut(number) {
            member.value = value;
        }
    }

    /// Gives a member a value to which it rose. An evaluation that stopped may have read the value that was there: it doesn't go on.
    pub(crate) fn rise(&mut self, number: usize, value: Value) -> Result<(), Memory>
        ensures start { self.new.start ≡ self.old.start }
        ensures need { self.new.need ≡ self.old.need }
        ensures saved { self.new.saved ≡ None }
        ensures members { self.new.members.entries ≡ with_value self.old.members.entries number value }
        ensures woken { OnOk result ((k : ℕ) → IsReader self.old.worklist number k → IsDue self.new.worklist.due k) }
        ensures kept { (k : ℕ) → k ≢ number → IsDue self.old.worklist.due k → IsDue self.new.worklist.due k }
    {
        self.saved = None;
        self.set_value(number, value);
        self.worklist.wake_readers(number)
    }

    /// A member whose cell isn't sealed yet, by its number.
    pub(crate) fn unsealed(&self, number: usize) -> Option<Instance>
        ensures { result ≡ unsealed_at self.now.members.entries number }
    {
        let (instance, member) = self.members.get_index(number)?;
        member.slot?;
        Some(*instance)
    }

    // Takes away the cell of a member.
    fn take_slot(&mut self, number: usize)
        ensures start { self.new.start ≡ self.old.start }
        ensures need { self.new.need ≡ self.old.need }
        ensures saved { self.new.saved ≡ self.old.saved }
        ensures members { self.new.members.entries ≡ without_slot self.old.members.entries number }
    {
        if let Some(member) = self.members.get_index_mut(number) {
            member.slot = None;
        }
    }

    /// The cell of a member is sealed, with the value that the member has.
    pub(crate) fn seal(&mut self, number: usize)
        ensures start { self.new.start ≡ self.old.start }
        ensures need { self.new.need ≡ self.old.need }
        ensures saved { self.new.saved ≡ self.old.saved }
        ensures members { self.new.members.entries ≡ without_slot self.old.members.entries number }
        ensures gone { ¬ Contains self.new.worklist.due.sweep.keys number }
    {
        self.take_slot(number);
        self.worklist.rest(number);
    }

    /// The numbers of the members that aren't sealed and lead to nothing that is missing, as far as was noted: neither to the member whose equation
    /// stopped last nor to one that wasn't evaluated yet. None are answered where less was read since they were looked for last than was looked at then.
    pub(crate) fn closed(&mut self, alloc: Global) -> Result<Vec<usize>, Memory>
        ensures start { self.new.start ≡ self.old.start }
        ensures members { self.new.members ≡ self.old.members }
        ensures need { self.new.need ≡ self.old.need }
        ensures saved { self.new.saved ≡ self.old.saved }
        ensures soon { self.old.worklist.effort < self.old.worklist.cost → IfOk result (λ closed. closed.items ≡ []) }
        ensures all { self.old.worklist.cost ≤ self.old.worklist.effort → IfOk result (λ closed. AreClosedMembers self.old closed.items) }
    {
        let mut closed = Vec::new(alloc);
        let Some((stopped, _)) = self.need else {
            return Ok(closed);
        };
        let found = self.worklist.closed(alloc, stopped)?;
        for number in found.as_slice() {
            if self.unsealed(*number).is_some() {
                let Ok(()) = closed.push(*number) else {
                    return Err(Memory);
                };
            }
        }
        Ok(closed)
    }

    /// The cells of the members that weren't sealed when they were met.
    pub(crate) fn slots(&self, alloc: Global) -> Result<Vec<Slot>, Memory>
        ensures { IfOk result (λ slots. AreSlots self.now.members.entries slots.items) }
    {
        let mut slots = Vec::new(alloc);
        for number in 0..self.members.len() {
            push_slot(&mut slots, self.slot_at(number))?;
        }
        Ok(slots)
    }

    // The cell of a member that wasn't sealed when it was met.
    fn slot_at(&self, number: usize) -> Option<Slot>
        ensures { result ≡ option_and_then (λ e. e.1.slot) (slice_get self.now.members.entries number) }
    {
        let (_, member) = self.members.get_index(number)?;
        member.slot
    }
}

// The number of the member that demanded another one first, which is smaller.
fn before(number: usize, by: Option<usize>) -> Option<usize>
    ensures same { (n : ℕ) → by ≡ Some n → n < number → result ≡ Some n }
    ensures none { by ≡ None → result ≡ None }
    ensures smaller { IfSome result (λ n. n < number) }
{
    match by {
        Some(by) if by < number => Some(by),
        _ => None,
    }
}
