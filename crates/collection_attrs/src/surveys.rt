// How far one collection has gone over its offers, and how it goes on.
ghost use Rattle.std.specs.Prelude.{◌≡◌, ◌⊎◌, ◌<◌, ◌≤◌, ◌+◌, ◌^◌, IfNone, IfOk, IfSome, OnErr, OnOk, length};
ghost use Rattle.equation_law.specs.Codes.{AreElements};
ghost use Rattle.equation_law.specs.Reading.{Grows, IsSound};
ghost use Rattle.equation_law.specs.Systems.{program_of};
ghost use Rattle.expr_eval.specs.Saved.{AreSaved};
ghost use Rattle.collection_attrs.specs.Evaluations.{EvaluatesCollection, IsStuckAt};
ghost use Rattle.collection_attrs.specs.Surveys.{CountsValue, GoesAlong, HasCounted, IsNew, IsSurveyFor};
ghost use Rattle.collection_attrs.specs.Walks.{IsWalk};

use crate::collectors::Collector;
use crate::combining::{combine, fresh};
use crate::offers::Offers;
use crate::passing::{Passage, pass_next};
use crate::weighing::evaluate_part;
use equation_law::{Instance, Reader, System, Value};
use expr_eval::{Saved, Turn};
use rag_io::Memory;
use std::alloc::Global;
use std::mem::replace;

/// How far one collection has gone over what is offered to it: behind the last of the offers kept by a walk that is for its node and was counted, told
/// by one more than its place among these, and the value that comes of those.
#[derive(Drop)]
pub struct Survey {
    taken: u32,
    so_far: Value,
}

impl Survey {
    /// A collection that has gone over nothing yet. It takes no memory.
    pub fn new(alloc: Global, system: &System, of: Collector) -> Survey
        ensures { IsNew (program_of system.now) of result }
    {
        Survey {
            taken: 0,
            so_far: fresh(alloc, system, of.method, of.kind),
        }
    }

    /// The value of what was counted so far; of a new one, that of a collection to which nothing is offered. It takes no memory.
    pub fn into_value(self) -> Value
        ensures { result ≡ self.so_far }
    {
        self.so_far
    }

    // Begins anew along a walk that keeps fewer offers than were gone over. It takes no memory.
    fn fit(&mut self, alloc: Global, system: &System, of: Collector, offers: &Offers)
        ensures { ((self.new ≡ self.old) × (self.old.taken ≤ length offers.now.notes)) ⊎ IsNew (program_of system.now) of self.new }
    {
        if self.taken as usize <= offers.len() {
            return;
        }
        *self = Survey::new(alloc, system, of);
    }

    // Counts a value that is contributed at this place. A set takes it in where it stands, without a copy; without memory for that the collection
    // begins anew.
    fn count(
        &mut self,
        alloc: Global,
        system: &System,
        of: Collector,
        place: u32,
        value: Value,
    ) -> Result<(), Memory>
        requires few { place + 1 < 2 ^ 32 }
        requires so_far { AreElements (program_of system.now) self.old.so_far }
        requires value { AreElements (program_of system.now) value }
        ensures counted { OnOk result (CountsValue (program_of system.now) of self.old place value self.new) }
        ensures anew { OnErr result (IsNew (program_of system.now) of self.new) }
    {
        let gone = replace(self, Survey::new(alloc, system, of));
        let so_far = combine(alloc, system, of.method, of.kind, gone.so_far, value)?;
        let taken = place + 1;
        *self = Survey { taken, so_far };
        Ok(())
    }

    // Counts the offers for the node that the walk has kept, in their order, up to the first whose value demands an instance for which the reader
    // has no value. The instance is told.
    fn count_kept<'a, R: Reader>(
        &mut self,
        alloc: Global,
        system: &'a System,
        of: Collector,
        offers: &Offers,
        reader: &mut R,
        saved: &mut Saved<'a>,
    ) -> Result<Option<Instance>, Memory>
        requires sound { IsSound (program_of system.now) (R.tells reader.old) }
        requires walk { IsWalk (program_of system.now) (R.tells reader.old) offers.now }
        requires collection { GoesAlong (program_of system.now) (R.tells reader.old) of offers.now self.old }
        requires within { self.old.taken ≤ length offers.now.notes }
        requires saved { AreSaved system.now (R.tells reader.old) saved.old }
        ensures kept { Grows (program_of system.now) (R.tells reader.old) (R.tells reader.new) }
        ensures survey { IsSurveyFor (program_of system.now) (R.tells reader.new) of self.new }
        ensures within { self.new.taken ≤ length offers.now.notes }
        ensures counted { IfOk result (λ found. IfNone found (HasCounted (program_of system.now) (R.tells reader.new) of offers.now self.new)) }
        ensures stuck { IfOk result (λ found. IfSome found (IsStuckAt (program_of system.now) (R.tells reader.new) of)) }
        ensures saved { AreSaved system.now (R.tells reader.new) saved.new }
    {
        // The tree has no more nodes than there are codes of source nodes.
        prove!(system.tree().len() > 0);
        let rules = system.rules();
        'kept: while let Some(place) = offers.next_for(of.node, self.taken) {
            let entry = offers.entry(place);
            let value = rules.contribution(entry.contribution).value;
            match evaluate_part(alloc, system, value, entry.node, reader, saved)? {
                Turn::Done(value) => self.count(alloc, system, of, place, value)?,
                Turn::Need(instance) => return Ok(Some(instance)),
                Turn::Image(_) => unreachable!(),
            }
        }
        Ok(None)
    }

    /// Goes on: counts the offers for its node that the walk has kept, extends the walk where they end, and evaluates each value at its place in the
    /// order. `Done` is the value of the collection under what the reader has at the end of the call, and `Need` the first demand, in the order of
    /// the offers, for which it has no value. The walk and the survey stand by what the reader has then, after a fault too. The walk needn't be the one
    /// that was gone along before: along one that keeps fewer offers than were gone over the survey begins anew.
    pub fn go_on<'a, R: Reader>(
        &mut self,
        alloc: Global,
        system: &'a System,
        of: Collector,
        offers: &mut Offers,
        reader: &mut R,
        saved: &mut Saved<'a>,
    ) -> Result<Turn, Memory>
        requires sound { IsSound (program_of system.now) (R.tells reader.old) }
        requires walk { IsWalk (program_of system.now) (R.tells reader.old) offers.old }
        requires collection { GoesAlong (program_of system.now) (R.tells reader.old) of offers.old self.old }
        requires saved { AreSaved system.now (R.tells reader.old) saved.old }
        ensures evaluates { EvaluatesCollection (program_of system.now) (R.tells reader.old) (R.tells reader.new) of result }
        ensures same { (offers.new.attribute ≡ offers.old.attribute) × (offers.new.root ≡ offers.old.root) }
        ensures walk { IsWalk (program_of system.now) (R.tells reader.new) offers.new }
        ensures survey { IsSurveyFor (program_of system.now) (R.tells reader.new) of self.new }
        ensures saved { AreSaved system.now (R.tells reader.new) saved.new }
    {
        self.fit(alloc, system, of, offers);
        'offers: loop {
            if let Some(instance) = self.count_kept(alloc, system, of, offers, reader, saved)? {
                return Ok(Turn::Need(instance));
            }
            match pass_next(alloc, system, offers, reader, saved)? {
                Passage::Passed => {}
                Passage::Stuck(instance) => return Ok(Turn::Need(instance)),
                Passage::Ended => return Ok(Turn::Done(self.so_far.copy()?)),
            }
        }
    }
}
