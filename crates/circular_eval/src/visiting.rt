// Visiting one member of a local set.
ghost use Rattle.std.specs.Prelude.{IfOk};
ghost use Rattle.memo_cells.specs.Working.{HasCell, IsForSystem, IsOwn, ReadsOn};
ghost use Rattle.expr_eval.specs.declared.sites.Turn.TheVariants as turns;
ghost use Rattle.equation_law.specs.declared.system.System.{System as KeptSystem};
ghost use Rattle.circular_eval.specs.Looking.{AreSavedHere};
ghost use Rattle.circular_eval.specs.Visiting.{Admits, BeginsAt, ComesAt, IsNewAt, IsReady, KeepsSaved, Steps, Visits};

use crate::advancing::CircFault;
use crate::claiming::{Opened, open_cell};
use crate::local::Local;
use crate::members::Member;
use crate::raising::raise_value;
use crate::reading::evaluate;
use attr_rules::Kind;
use equation_law::{Instance, System, Value};
use expr_eval::{Saved, Turn, is_declared, kind_of};
use memo_cells::{Work, value_shown};
use rag_io::Memory;
use std::alloc::Global;

/// What a visit came to.
#[derive(Clone, Copy, Debug, PartialEq, Eq)]
pub enum Visited {
    /// An instance that isn't circular, and whose value is missing.
    Need(Instance),
    /// A member was added, or the value of one rose.
    Changed,
    /// The equation comes to at most the value that is there.
    Same,
}

/// The value that a member begins with: bottom where its cell is new, and else what its words show.
fn first_value<W: Work>(
    alloc: Global,
    system: &System,
    work: &mut W,
    opened: Opened,
    kind: Kind,
) -> Result<Value, Memory>
    requires own { IsOwn (W.held work.old) }
    requires same { IsForSystem (W.held work.old) system.now }
    requires cell { HasCell (W.held work.old) opened.slot.0 }
    ensures on { ReadsOn (W.held work.old) (W.held work.new) }
    ensures begins { IfOk result (BeginsAt (W.held work.old) (W.held work.new) opened.slot.0 kind) }
{
    if opened.is_new {
        return Ok(Value::default_of(alloc, kind));
    }
    value_shown(alloc, system, work, opened.slot, kind)
}

/// Makes a circular instance a member, which begins with what its words show. One that is sealed already keeps its value.
pub(crate) fn admit<W: Work>(
    alloc: Global,
    system: &System,
    work: &mut W,
    local: &mut Local<'_>,
    i: Instance,
    by: Option<usize>,
) -> Result<(), CircFault>
    requires ready { IsReady system.now (W.held work.old) local.old }
    requires new { IsNewAt (W.held work.old) local.old i by }
    ensures { Admits (W.held work.old) (W.held work.new) local.old local.new result }
{
    if let Some(value) = work.settled(alloc, &i)? {
        let member = Member {
            slot: None,
            value,
            by,
        };
        return Ok(local.add(alloc, i, member)?);
    }
    let opened = open_cell(work, i)?;
    let value = first_value(alloc, system, work, opened, kind_of(system, &i))?;
    let member = Member {
        slot: Some(opened.slot),
        value,
        by,
    };
    Ok(local.add(alloc, i, member)?)
}

/// Joins the value to which the equation of a member came to its own, in its words and in the local set.
fn absorb<W: Work>(
    alloc: Global,
    work: &mut W,
    local: &mut Local<'_>,
    number: usize,
    value: &Value,
) -> Result<Option<Visited>, CircFault>
    requires ready { (s : KeptSystem) × IsReady s (W.held work.old) local.old }
    requires came { ComesAt (W.held work.old) local.old number (turns.Done value.now) }
    ensures { Steps (W.held work.old) (W.held work.new) local.old local.new number result }
{
    let Some((_, member)) = local.member(number) else {
        return Ok(Some(Visited::Same));
    };
    let Some(slot) = member.slot else {
        return Ok(Some(Visited::Same));
    };
    let Some(value) = raise_value(alloc, work, slot, value, &member.value)? else {
        return Ok(Some(Visited::Same));
    };
    local.rise(number, value)?;
    Ok(Some(Visited::Changed))
}

/// Goes on by what the equation of a member came to. It answers None where a circular instance was missing, which is a member now.
fn follow<W: Work>(
    alloc: Global,
    system: &System,
    work: &mut W,
    local: &mut Local<'_>,
    number: usize,
    turn: Turn,
) -> Result<Option<Visited>, CircFault>
    requires ready { IsReady system.now (W.held work.old) local.old }
    requires came { ComesAt (W.held work.old) local.old number turn }
    ensures { Steps (W.held work.old) (W.held work.new) local.old local.new number result }
{
    match turn {
        Turn::Done(value) => absorb(alloc, work, local, number, &value),
        Turn::Need(need) => {
            if is_declared(system, &need) {
                admit(alloc, system, work, local, need, Some(number))?;
                return Ok(None);
            }
            local.note_need(number, need);
            Ok(Some(Visited::Need(need)))
        }
        // Its program makes no trees.
        Turn::Image(_) => unreachable!(),
    }
}

/// Goes on with the evaluation of the equation of a member, unless it was sealed when it was met. It answers None where a circular instance was
/// missing, which is a member now: the evaluation may go on.
fn step<'a, W: Work>(
    alloc: Global,
    system: &'a System,
    work: &mut W,
    local: &mut Local<'_>,
    number: usize,
    saved: &mut Saved<'a>,
) -> Result<Option<Visited>, CircFault>
    requires ready { IsReady system.now (W.held work.old) local.old }
    requires saved { AreSavedHere system.now (W.held work.old) local.old saved.old }
    ensures steps { Steps (W.held work.old) (W.held work.new) local.old local.new number result }
    ensures saved { KeepsSaved system.now (W.held work.new) local.new saved.new result }
{
    let Some((instance, member)) = local.member(number) else {
        return Ok(Some(Visited::Same));
    };
    if member.slot.is_none() {
        return Ok(Some(Visited::Same));
    }
    let came = evaluate(alloc, system, work, local, instance, saved)?;
    local.note_reads(number, &came.read)?;
    follow(alloc, system, work, local, number, came.turn)
}

/// Evaluates the equation of a member, unless it was sealed when it was met. What it demands and is circular becomes a member at once, and the
/// evaluation goes on. Where an undeclared instance is missing, what it leaves behind is kept: the next visit goes on there.
pub(crate) fn visit<'a, W: Work>(
    alloc: Global,
    system: &'a System,
    work: &mut W,
    local: &mut Local<'a>,
    number: usize,
) -> Result<Visited, CircFault>
    requires ready { IsReady system.now (W.held work.old) local.old }
    ensures { Visits (W.held work.old) (W.held work.new) local.old local.new number result }
{
    let mut saved = local.take_saved(alloc, number);
    let mut grown = false;
    'steps: loop {
        match step(alloc, system, work, local, number, &mut saved)? {
            None => grown = true,
            Some(visited) => match visited {
                Visited::Need(need) => {
                    local.keep(saved);
                    return Ok(Visited::Need(need));
                }
                Visited::Changed => return Ok(Visited::Changed),
                Visited::Same => {
                    if !grown {
                        return Ok(Visited::Same);
                    }
                    local.rest(number);
                    return Ok(Visited::Changed);
                }
            },
        }
    }
}
