// Going on with the equation of an instance: an expression, or a collection.
ghost use Rattle.std.specs.Prelude.{◌≡◌, IfNone, IfSome, None};
ghost use Rattle.collection_attrs.specs.Surveys.{IsNew, SaysCollection};
ghost use Rattle.equation_law.specs.Codes.{IsCoded, instance_of};
ghost use Rattle.equation_law.specs.Equations.{collection_of};
ghost use Rattle.equation_law.specs.Reading.{IsSound, KnowsInstance};
ghost use Rattle.equation_law.specs.Systems.{program_of};
ghost use Rattle.expr_eval.specs.Saved.{AreSaved};
ghost use Rattle.expr_eval.specs.Sites.{EvaluatesInstance};
ghost use Rattle.memo_cells.specs.Working.{IsForSystem, told_by};
ghost use Rattle.caller_pass.specs.Leaving.{AreLeft};

use crate::desk::Desk;
use crate::left::Left;
use collection_attrs::{Collector, Survey, collector_of};
use equation_law::{Instance, System};
use expr_eval::{Saved, Turn, resume_at, resume_instance};
use rag_io::Memory;
use std::alloc::Global;

/// Goes on with the evaluation of an instance that is no collection. The way upwards to the equation is noted.
fn resume_single<'a>(
    alloc: Global,
    system: &'a System,
    i: Instance,
    desk: &mut Desk<'a>,
    saved: &mut Saved<'a>,
) -> Result<Turn, Memory>
    requires same { IsForSystem desk.old system.now }
    requires sound { IsSound (program_of system.now) (told_by desk.old) }
    requires saved { AreSaved system.now (told_by desk.old) saved.old }
    requires coded { IsCoded (program_of system.now) i }
    requires known { KnowsInstance (program_of system.now) (told_by desk.old) i }
    requires single { collection_of (program_of system.now) (instance_of (program_of system.now) i) ≡ None }
    ensures evaluates { EvaluatesInstance (program_of system.now) (told_by desk.old) (told_by desk.new) i result }
    ensures saved { AreSaved system.now (told_by desk.new) saved.new }
{
    match i {
        Instance::Attr { attr, node, args } => {
            let site = desk.site(attr, node, args);
            resume_at(alloc, system, attr, node, args, site, desk, saved)
        }
        Instance::Query(_) => resume_instance(alloc, system, &i, desk, saved),
    }
}

/// Takes how far a collection has gone over its offers, or begins with none of them.
fn take_survey(alloc: Global, system: &System, of: Collector, survey: &mut Option<Survey>) -> Survey
    ensures own { IfSome survey.old (λ s. result ≡ s) }
    ensures new { IfNone survey.old (IsNew (program_of system.now) of result) }
{
    match survey.take() {
        Some(survey) => survey,
        None => Survey::new(alloc, system, of),
    }
}

/// Goes on with a collection over the walk of its attribute in the subtree of its root; the notes keep both. Where it has no root, nothing is
/// offered to it.
fn resume_collection<'a>(
    alloc: Global,
    system: &'a System,
    i: Instance,
    of: Collector,
    desk: &mut Desk<'a>,
    left: &mut Left<'a>,
) -> Result<Turn, Memory>
    requires same { IsForSystem desk.old system.now }
    requires sound { IsSound (program_of system.now) (told_by desk.old) }
    requires left { AreLeft system.now (told_by desk.old) i left.old }
    requires collection { SaysCollection (program_of system.now) i of }
    ensures evaluates { EvaluatesInstance (program_of system.now) (told_by desk.old) (told_by desk.new) i result }
    ensures left { AreLeft system.now (told_by desk.new) i left.new }
{
    let Some(root) = desk.root_for(of) else {
        let none = Survey::new(alloc, system, of);
        return Ok(Turn::Done(none.into_value()));
    };
    let mut offers = desk.take_walk(alloc, of.attr, root);
    let mut gone = take_survey(alloc, system, of, &mut left.survey);
    let turn = gone.go_on(alloc, system, of, &mut offers, desk, &mut left.saved);
    desk.put_walk(offers);
    left.survey = Some(gone);
    turn
}

/// Goes on with the evaluation of what the equation of an instance comes to.
pub(crate) fn resume<'a>(
    alloc: Global,
    system: &'a System,
    i: Instance,
    desk: &mut Desk<'a>,
    left: &mut Left<'a>,
) -> Result<Turn, Memory>
    requires same { IsForSystem desk.old system.now }
    requires sound { IsSound (program_of system.now) (told_by desk.old) }
    requires left { AreLeft system.now (told_by desk.old) i left.old }
    requires coded { IsCoded (program_of system.now) i }
    requires known { KnowsInstance (program_of system.now) (told_by desk.old) i }
    ensures evaluates { EvaluatesInstance (program_of system.now) (told_by desk.old) (told_by desk.new) i result }
    ensures left { AreLeft system.now (told_by desk.new) i left.new }
{
    match collector_of(system, &i) {
        Some(of) => resume_collection(alloc, system, i, of, desk, left),
        None => resume_single(alloc, system, i, desk, &mut left.saved),
    }
}
