// One turn: the equation of an instance is evaluated, or a local set goes on.
ghost use Rattle.std.specs.Prelude.{◌≡◌, ◌+◌, not};
ghost use Rattle.attr_rules.specs.Rules.{is_single};
ghost use Rattle.circular_eval.specs.Advancing.{AnswersTurnAt};
ghost use Rattle.circular_eval.specs.Local.{IsLocalAt, IsStillLocal};
ghost use Rattle.memo_cells.specs.Working.{ClaimsKeysFor, GoesOn, IsCellNow, IsCodedAt, IsInstanceAt, IsKnownAt, IsOwn, ReadsOn};
ghost use Rattle.caller_pass.specs.Holding.{AnswersFinishAt, AnswersShowAt, AreLeftAt, AreLeftNow, HasEndedAt, IsProgramAt, IsUndeclaredAt, TurnsToAt};

use crate::desk::Desk;
use crate::evals::Steps;
use crate::faults::AskFault;
use crate::left::Left;
use crate::resuming::resume;
use crate::sealed::note_sealed;
use attr_rules::Kind;
use circular_eval::{CircFault, CircTurn, Local, advance};
use equation_law::{Instance, Value};
use expr_eval::{Turn, kind_of};
use memo_cells::{Slot, codes_of, raise_codes};
use rag_io::Memory;
use std::alloc::Global;
use std::sync::ledger::Ledger;

/// Whether a type is that of sets.
pub(crate) fn is_set(kind: Kind) -> bool
    ensures { result ≡ not (is_single kind) }
{
    matches!(kind, Kind::Texts | Kind::Nodes(_))
}

/// Goes on with the evaluation of the equation of an instance under what the pass knows, where it stopped.
pub(crate) fn turn<'a, L: Ledger>(
    alloc: Global,
    desk: &mut Desk<'a>,
    i: Instance,
    left: &mut Left<'a>,
    evals: &mut Steps<L>,
) -> Result<Turn, Memory>
    requires coded { IsCodedAt desk.old i }
    requires known { IsKnownAt desk.old i }
    requires left { AreLeftAt desk.old i left.old }
    ensures on { ReadsOn desk.old desk.new }
    ensures turned { TurnsToAt desk.old desk.new i result }
    ensures left { AreLeftNow desk.old desk.new i left.new }
    ensures evals { evals.new ≡ evals.old + 1 }
{
    evals.tick();
    let system = desk.system;
    resume(alloc, system, i, desk, left)
}

/// Goes on with a local set under what the pass knows. Once it is sealed, the sets among its values are noted.
pub(crate) fn go_on<'a, L: Ledger>(
    alloc: Global,
    desk: &mut Desk<'a>,
    local: &mut Local<'a>,
    evals: &mut Steps<L>,
) -> Result<CircTurn, CircFault>
    requires program { IsProgramAt desk.old }
    requires local { IsLocalAt desk.old local.old }
    ensures on { GoesOn desk.old desk.new }
    ensures local { IsStillLocal desk.old desk.new local.new × (local.new.start ≡ local.old.start) }
    ensures claims { ClaimsKeysFor desk.old desk.new local.old.start }
    ensures answer { AnswersTurnAt desk.old desk.new local.new result }
    ensures evals { evals.new ≡ evals.old + 1 }
{
    evals.tick();
    let system = desk.system;
    let turn = advance(alloc, system, desk, local);
    note_sealed(desk, local, &turn);
    turn
}

/// Raises the words of an instance whose equation ended, if it is of a set.
fn show(
    alloc: Global,
    desk: &mut Desk<'_>,
    i: Instance,
    slot: Slot,
    value: &Value,
) -> Result<(), AskFault>
    requires program { IsProgramAt desk.old }
    requires own { IsOwn desk.old }
    requires instance { IsInstanceAt desk.old i }
    requires known { IsKnownAt desk.old i }
    requires undeclared { IsUndeclaredAt desk.old i }
    requires slot { IsCellNow desk.old i slot.0 }
    requires ended { HasEndedAt desk.old i value.now }
    ensures on { GoesOn desk.old desk.new }
    ensures claims { ClaimsKeysFor desk.old desk.new i }
    ensures answer { AnswersShowAt desk.old desk.new i value.now result }
{
    if !is_set(kind_of(desk.system, &i)) {
        return Ok(());
    }
    let codes = codes_of(alloc, value)?;
    raise_codes(desk, slot, &codes)?;
    Ok(())
}

/// Settles the cell of an instance whose equation ended. That of a set has its words raised first, and the set is noted.
pub(crate) fn finish(
    alloc: Global,
    desk: &mut Desk<'_>,
    i: Instance,
    slot: Slot,
    value: &Value,
) -> Result<(), AskFault>
    requires program { IsProgramAt desk.old }
    requires own { IsOwn desk.old }
    requires instance { IsInstanceAt desk.old i }
    requires known { IsKnownAt desk.old i }
    requires undeclared { IsUndeclaredAt desk.old i }
    requires slot { IsCellNow desk.old i slot.0 }
    requires ended { HasEndedAt desk.old i value.now }
    ensures on { GoesOn desk.old desk.new }
    ensures claims { ClaimsKeysFor desk.old desk.new i }
    ensures answer { AnswersFinishAt desk.old desk.new i result }
{
    show(alloc, desk, i, slot, value)?;
    let kind = kind_of(desk.system, &i);
    desk.settle(slot, value.code(kind));
    desk.note_set(i, kind, value);
    Ok(())
}
