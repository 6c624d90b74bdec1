// What comes of an offer: its condition is evaluated, and where that is true, its receiver.
ghost use Rattle.std.specs.Prelude.{◌+◌, ◌^◌, ◌<◌, IfOk, IfSome, length, suc};
ghost use Rattle.attr_rules.specs.Rules.{bodies};
ghost use Rattle.equation_law.specs.Reading.{Grows, IsSound};
ghost use Rattle.equation_law.specs.Systems.{program_of};
ghost use Rattle.expr_eval.specs.Saved.{AreSaved};
ghost use Rattle.expr_eval.specs.Sites.{IsNoImage};
ghost use Rattle.collection_attrs.specs.Evaluations.{EvaluatesCondition, EvaluatesPart};
ghost use Rattle.collection_attrs.specs.Surveys.{IsWeighedAt};

use attr_rules::EqId;
use equation_law::{Instance, NodeRef, Reader, System, Value};
use expr_eval::{Saved, Turn, resume_body};
use rag_io::Memory;
use std::alloc::Global;

/// What comes of an offer.
#[derive(Drop)]
pub(crate) enum Weighed {
    /// Its condition is false.
    Unmet,
    /// Its condition is true, and this is its receiver.
    Met(NodeRef),
    /// It demands this instance, for which the reader has no value.
    Stuck(Instance),
}

/// What an expression of a contribution comes to at a node. Once it has a value, nothing stays saved of it.
pub(crate) fn evaluate_part<'a, R: Reader>(
    alloc: Global,
    system: &'a System,
    expression: EqId,
    node: u32,
    reader: &mut R,
    saved: &mut Saved<'a>,
) -> Result<Turn, Memory>
    requires known { expression.0 < length (bodies (program_of system.now).rules) }
    requires few { node + 1 < 2 ^ 32 }
    requires node { (R.tells reader.old).knows (suc node) }
    requires sound { IsSound (program_of system.now) (R.tells reader.old) }
    requires saved { AreSaved system.now (R.tells reader.old) saved.old }
    ensures evaluates { EvaluatesPart (program_of system.now) (R.tells reader.old) (R.tells reader.new) expression node result }
    ensures plain { IsNoImage result }
    ensures saved { AreSaved system.now (R.tells reader.new) saved.new }
{
    let at = NodeRef::of_source(Some(node));
    let turn = resume_body(alloc, system, expression, at, reader, saved)?;
    if let Turn::Done(_) = turn {
        *saved = Saved::new(alloc);
    }
    Ok(turn)
}

/// What a condition comes to at a node: one that isn't written is true.
fn condition<'a, R: Reader>(
    alloc: Global,
    system: &'a System,
    guard: Option<EqId>,
    node: u32,
    reader: &mut R,
    saved: &mut Saved<'a>,
) -> Result<Turn, Memory>
    requires known { IfSome guard (λ e. e.0 < length (bodies (program_of system.now).rules)) }
    requires few { node + 1 < 2 ^ 32 }
    requires node { (R.tells reader.old).knows (suc node) }
    requires sound { IsSound (program_of system.now) (R.tells reader.old) }
    requires saved { AreSaved system.now (R.tells reader.old) saved.old }
    ensures evaluates { EvaluatesCondition (program_of system.now) (R.tells reader.old) (R.tells reader.new) guard node result }
    ensures plain { IsNoImage result }
    ensures saved { AreSaved system.now (R.tells reader.new) saved.new }
{
    match guard {
        Some(expression) => evaluate_part(alloc, system, expression, node, reader, saved),
        None => Ok(Turn::Done(Value::Truth(true))),
    }
}

/// What comes of the offer of a contribution, by its number, at a node.
pub(crate) fn weigh<'a, R: Reader>(
    alloc: Global,
    system: &'a System,
    number: u32,
    node: u32,
    reader: &mut R,
    saved: &mut Saved<'a>,
) -> Result<Weighed, Memory>
    requires known { number < length (program_of system.now).rules.contributions }
    requires few { node + 1 < 2 ^ 32 }
    requires node { (R.tells reader.old).knows (suc node) }
    requires sound { IsSound (program_of system.now) (R.tells reader.old) }
    requires saved { AreSaved system.now (R.tells reader.old) saved.old }
    ensures kept { Grows (program_of system.now) (R.tells reader.old) (R.tells reader.new) }
    ensures weighed { IfOk result (IsWeighedAt (program_of system.now) (R.tells reader.new) number node) }
    ensures saved { AreSaved system.now (R.tells reader.new) saved.new }
{
    let contribution = system.rules().contribution(number);
    match condition(alloc, system, contribution.guard, node, reader, saved)? {
        Turn::Need(instance) => Ok(Weighed::Stuck(instance)),
        Turn::Done(value) => {
            if !value.truth() {
                return Ok(Weighed::Unmet);
            }
            match evaluate_part(alloc, system, contribution.receiver, node, reader, saved)? {
                Turn::Need(instance) => Ok(Weighed::Stuck(instance)),
                Turn::Done(value) => Ok(Weighed::Met(value.node())),
                Turn::Image(_) => unreachable!(),
            }
        }
        Turn::Image(_) => unreachable!(),
    }
}
