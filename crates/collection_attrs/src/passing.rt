// A walk passes the next offer.
ghost use Rattle.std.specs.Prelude.{◌≡◌, ◌≤◌, IfOk, length};
ghost use Rattle.equation_law.specs.Reading.{Grows, IsSound};
ghost use Rattle.equation_law.specs.Systems.{program_of};
ghost use Rattle.expr_eval.specs.Saved.{AreSaved};
ghost use Rattle.collection_attrs.specs.Surveys.{IsPassage};
ghost use Rattle.collection_attrs.specs.Walks.{IsWalk};

use crate::offers::Offers;
use crate::weighing::{Weighed, weigh};
use equation_law::{Instance, Reader, System};
use expr_eval::Saved;
use rag_io::Memory;
use std::alloc::Global;

/// What comes of a step of a walk.
#[derive(Drop)]
pub(crate) enum Passage {
    /// One offer more was passed.
    Passed,
    /// The next offer demands this instance, for which the reader has no value.
    Stuck(Instance),
    /// Nothing more is offered.
    Ended,
}

/// Passes the next offer of a walk: where its condition is true it is kept with its receiver. The walk stands by what the reader has at the end of
/// the call, after a fault too.
pub(crate) fn pass_next<'a, R: Reader>(
    alloc: Global,
    system: &'a System,
    offers: &mut Offers,
    reader: &mut R,
    saved: &mut Saved<'a>,
) -> Result<Passage, Memory>
    requires sound { IsSound (program_of system.now) (R.tells reader.old) }
    requires walk { IsWalk (program_of system.now) (R.tells reader.old) offers.old }
    requires saved { AreSaved system.now (R.tells reader.old) saved.old }
    ensures kept { Grows (program_of system.now) (R.tells reader.old) (R.tells reader.new) }
    ensures walk { IsWalk (program_of system.now) (R.tells reader.new) offers.new }
    ensures same { (offers.new.attribute ≡ offers.old.attribute) × (offers.new.root ≡ offers.old.root) × (length offers.old.notes ≤ length offers.new.notes) }
    ensures passage { IfOk result (λ passage. IsPassage (program_of system.now) (R.tells reader.new) offers.old offers.new passage) }
    ensures saved { AreSaved system.now (R.tells reader.new) saved.new }
{
    // The tree has no more nodes than there are codes of source nodes.
    prove!(system.tree().len() > 0);
    let Some((node, number)) = offers.seek(system) else {
        return Ok(Passage::Ended);
    };
    match weigh(alloc, system, number, node, reader, saved)? {
        Weighed::Unmet => offers.pass(),
        Weighed::Met(receiver) => offers.keep(receiver)?,
        Weighed::Stuck(instance) => return Ok(Passage::Stuck(instance)),
    }
    Ok(Passage::Passed)
}
