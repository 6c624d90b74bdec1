// Going on with a local set.
ghost use Rattle.std.specs.Prelude.{◌≡◌};
ghost use Rattle.equation_law.specs.Checked.{IsProgram};
ghost use Rattle.equation_law.specs.Systems.{program_of};
ghost use Rattle.memo_cells.specs.Working.{ClaimsKeysFor, GoesOn, IsForSystem, IsOwn};
ghost use Rattle.circular_eval.specs.Advancing.{AnswersTurnAt};
ghost use Rattle.circular_eval.specs.Local.{IsLocalAt, IsStillLocal};
ghost use Rattle.circular_eval.specs.Visiting.{Advances, Begins, Closes, GoesAgain, IsReady, Passes};

use crate::local::Local;
use crate::parts::seal_closed;
use crate::visiting::{Visited, admit, visit};
use equation_law::{Instance, System};
use memo_cells::{CellsFull, Work};
use rag_io::Memory;
use std::alloc::Global;

/// How a local set went on.
#[derive(Clone, Copy, Debug, PartialEq, Eq)]
pub enum CircTurn {
    /// An instance that isn't circular, and whose value is missing.
    Need(Instance),
    /// Each instance of the set is sealed with its least value.
    Closed,
}

/// Why a local set didn't go on.
#[derive(Clone, Copy, Debug, PartialEq, Eq)]
pub enum CircFault {
    /// All cells have keys, and none of them is that of an instance to which the start leads, or of a word of its set.
    CellsFull,
    /// Want of memory.
    Memory,
}

impl From<Memory> for CircFault {
    ghost use Rattle.std.specs.Prelude.{◌≡◌};
    ghost use Rattle.circular_eval.specs.declared.advancing.CircFault.TheVariants.{Memory as NoMemory};

    ghost from_gives = { λ _ fault. fault ≡ NoMemory };

    fn from(_: Memory) -> CircFault {
        CircFault::Memory
    }
}

impl From<CellsFull> for CircFault {
    ghost use Rattle.std.specs.Prelude.{◌≡◌};
    ghost use Rattle.circular_eval.specs.declared.advancing.CircFault.TheVariants.{CellsFull as Full};

    ghost from_gives = { λ _ fault. fault ≡ Full };

    fn from(_: CellsFull) -> CircFault {
        CircFault::CellsFull
    }
}

/// Visits those members that are due, and then each member in turn, until one changes or needs an undeclared instance. It answers
/// `Same` where the equations of all members hold under the values that are there.
fn confirm<'a, W: Work>(
    alloc: Global,
    system: &'a System,
    work: &mut W,
    local: &mut Local<'a>,
) -> Result<Visited, CircFault>
    requires ready { IsReady system.now (W.held work.old) local.old }
    ensures { Passes (W.held work.old) (W.held work.new) local.old local.new result }
{
    let mut confirmed = 0;
    'pass: while confirmed < local.len() {
        let due = local.next();
        let number = due.unwrap_or(confirmed);
        match visit(alloc, system, work, local, number)? {
            Visited::Need(need) => return Ok(Visited::Need(need)),
            Visited::Changed => return Ok(Visited::Changed),
            Visited::Same => {}
        }
        if due.is_some() {
            local.pop();
        } else {
            confirmed += 1;
        }
    }
    Ok(Visited::Same)
}

/// Goes on with the member whose equation stopped last, if that may go on. It answers the undeclared instance that is missing, if one is.
fn again<'a, W: Work>(
    alloc: Global,
    system: &'a System,
    work: &mut W,
    local: &mut Local<'a>,
) -> Result<Option<Instance>, CircFault>
    requires ready { IsReady system.now (W.held work.old) local.old }
    ensures { GoesAgain (W.held work.old) (W.held work.new) local.old local.new result }
{
    let Some(number) = local.stopped() else {
        return Ok(None);
    };
    match visit(alloc, system, work, local, number)? {
        Visited::Need(need) => Ok(Some(need)),
        Visited::Changed => Ok(None),
        Visited::Same => {
            local.rest(number);
            Ok(None)
        }
    }
}

/// Makes passes until no value rises any more. It answers the undeclared instance that is missing, if one is.
fn repeat<'a, W: Work>(
    alloc: Global,
    system: &'a System,
    work: &mut W,
    local: &mut Local<'a>,
) -> Result<Option<Instance>, CircFault>
    requires ready { IsReady system.now (W.held work.old) local.old }
    ensures { Closes (W.held work.old) (W.held work.new) local.old local.new result }
{
    'passes: loop {
        match confirm(alloc, system, work, local)? {
            Visited::Need(need) => return Ok(Some(need)),
            Visited::Changed => {}
            Visited::Same => return Ok(None),
        }
    }
}

/// Closes a local set: it goes on until no value rises any more, and answers the undeclared instance that is missing, if one is.
fn close<'a, W: Work>(
    alloc: Global,
    system: &'a System,
    work: &mut W,
    local: &mut Local<'a>,
) -> Result<Option<Instance>, CircFault>
    requires ready { IsReady system.now (W.held work.old) local.old }
    ensures { Closes (W.held work.old) (W.held work.new) local.old local.new result }
{
    if let Some(need) = again(alloc, system, work, local)? {
        return Ok(Some(need));
    }
    repeat(alloc, system, work, local)
}

/// Makes the start a member, unless it is one already.
fn begin<W: Work>(
    alloc: Global,
    system: &System,
    work: &mut W,
    local: &mut Local<'_>,
) -> Result<(), CircFault>
    requires ready { IsReady system.now (W.held work.old) local.old }
    ensures { Begins (W.held work.old) (W.held work.new) local.old local.new result }
{
    if local.len() > 0 {
        return Ok(());
    }
    let start = local.first();
    admit(alloc, system, work, local, start, None)
}

/// Closes a local set and seals its members, unless an undeclared instance is missing.
pub(crate) fn finish<'a, W: Work>(
    alloc: Global,
    system: &'a System,
    work: &mut W,
    local: &mut Local<'a>,
) -> Result<CircTurn, CircFault>
    requires ready { IsReady system.now (W.held work.old) local.old }
    ensures { Advances (W.held work.old) (W.held work.new) local.old local.new result }
{
    begin(alloc, system, work, local)?;
    if let Some(need) = close(alloc, system, work, local)? {
        return Ok(CircTurn::Need(need));
    }
    let slots = local.slots(alloc)?;
    work.seal(&slots);
    Ok(CircTurn::Closed)
}

/// Closes a local set and seals its members. Where an undeclared instance is missing, it seals the members that are closed, as far as was noted, and
/// goes on again: what it answers then is missing from the others. Closed members aren't looked for each time, so that looking for them takes no longer
/// than the evaluations.
fn go_on<'a, W: Work>(
    alloc: Global,
    system: &'a System,
    work: &mut W,
    local: &mut Local<'a>,
) -> Result<CircTurn, CircFault>
    requires ready { IsReady system.now (W.held work.old) local.old }
    ensures { Advances (W.held work.old) (W.held work.new) local.old local.new result }
{
    let turn = finish(alloc, system, work, local)?;
    if turn == CircTurn::Closed {
        return Ok(turn);
    }
    let closed = local.closed(alloc)?;
    if closed.is_empty() {
        return Ok(turn);
    }
    seal_closed(alloc, system, work, local, closed.as_slice())?;
    finish(alloc, system, work, local)
}

/// Goes on with a local set: its members are evaluated until an undeclared instance is missing or no value rises any more. Then the set is
/// closed, and its members are sealed.
///
/// Where an instance is missing, closed members are sealed first: those from which no way of recorded reads leads to the member that stopped, nor to
/// one that wasn't evaluated yet. They are looked for where at least as much was read since as was looked at the last time, so that looking for
/// them takes no longer than the evaluations. Where that isn't so yet, a later call seals them. Sealed members are final: no set evaluates them again.
///
/// After a fault the local set stays, and may be gone on with.
pub fn advance<'a, W: Work>(
    alloc: Global,
    system: &'a System,
    work: &mut W,
    local: &mut Local<'a>,
) -> Result<CircTurn, CircFault>
    requires program { IsProgram (program_of system.now) }
    requires same { IsForSystem (W.held work.old) system.now }
    requires own { IsOwn (W.held work.old) }
    requires local { IsLocalAt (W.held work.old) local.old }
    ensures on { GoesOn (W.held work.old) (W.held work.new) }
    ensures local { IsStillLocal (W.held work.old) (W.held work.new) local.new }
    ensures start { local.new.start ≡ local.old.start }
    ensures claims { ClaimsKeysFor (W.held work.old) (W.held work.new) local.old.start }
    ensures answer { AnswersTurnAt (W.held work.old) (W.held work.new) local.new result }
{
    go_on(alloc, system, work, local)
}
