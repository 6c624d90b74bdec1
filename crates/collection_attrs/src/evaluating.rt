// What collections come to, and the equation of any instance.
ghost use Rattle.std.specs.Prelude.{IsSome};
ghost use Rattle.equation_law.specs.Codes.{IsCoded, instance_by};
ghost use Rattle.equation_law.specs.Equations.{collection_of};
ghost use Rattle.equation_law.specs.Reading.{ByEachIn, IsSound, KnowsInstance};
ghost use Rattle.equation_law.specs.Systems.{program_of};
ghost use Rattle.collection_attrs.specs.Evaluations.{EvaluatesCollection};
ghost use Rattle.expr_eval.specs.Sites.{EvaluatesInstance};
ghost use Rattle.collection_attrs.specs.Surveys.{Collections, IsCollectorOf};

use crate::collectors::{Collector, collector_of, is_collection, root_of};
use crate::offers::Offers;
use crate::surveys::Survey;
use equation_law::{Instance, Reader, System};
use expr_eval::{Saved, Turn, evaluate_instance};
use rag_io::Memory;
use std::alloc::Global;

/// What a collection comes to.
fn collect<R: Reader>(
    alloc: Global,
    system: &System,
    of: Collector,
    reader: &mut R,
) -> Result<Turn, Memory>
    requires collection { (c : Collections) × IsCollectorOf (program_of system.now) of c }
    requires sound { IsSound (program_of system.now) (R.tells reader.old) }
    requires known { (R.tells reader.old).knows of.node.0 }
    ensures { EvaluatesCollection (program_of system.now) (R.tells reader.old) (R.tells reader.new) of result }
{
    let mut survey = Survey::new(alloc, system, of);
    let Some(root) = root_of(system, of, reader) else {
        return Ok(Turn::Done(survey.into_value()));
    };
    let mut offers = Offers::new(alloc, of.attr, root);
    let mut saved = Saved::new(alloc);
    survey.go_on(alloc, system, of, &mut offers, reader, &mut saved)
}

/// What a collection comes to: the combination of what is offered to it, in the order of the offers.
pub fn survey<R: Reader>(
    alloc: Global,
    system: &System,
    i: &Instance,
    reader: &mut R,
) -> Result<Turn, Memory>
    requires collection { ByEachIn (R.tells reader.old) (λ n. IsSome (collection_of (program_of system.now) (instance_by (program_of system.now) n i.now))) }
    requires sound { IsSound (program_of system.now) (R.tells reader.old) }
    requires known { KnowsInstance (program_of system.now) (R.tells reader.old) i.now }
    ensures { EvaluatesInstance (program_of system.now) (R.tells reader.old) (R.tells reader.new) i.now result }
{
    match collector_of(system, i) {
        Some(of) => collect(alloc, system, of, reader),
        None => unreachable!(),
    }
}

/// What the equation of any instance comes to: an expression where it is read, or a collection. What is no instance of the system counts as null.
pub fn evaluate_any<R: Reader>(
    alloc: Global,
    system: &System,
    i: &Instance,
    reader: &mut R,
) -> Result<Turn, Memory>
    requires sound { IsSound (program_of system.now) (R.tells reader.old) }
    requires coded { IsCoded (program_of system.now) i.now }
    requires known { KnowsInstance (program_of system.now) (R.tells reader.old) i.now }
    ensures { EvaluatesInstance (program_of system.now) (R.tells reader.old) (R.tells reader.new) i.now result }
{
    if is_collection(system, i) {
        return survey(alloc, system, i, reader);
    }
    evaluate_instance(alloc, system, i, reader)
}
