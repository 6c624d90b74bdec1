// Settling an instance on demand, with an explicit stack of what waits.
ghost use Rattle.std.specs.Prelude.{◌≡◌, ◌⊎◌, ◌++◌, ◌∷◌, [], false, true, IfOk, IsOk};
ghost use Rattle.circular_eval.specs.Local.{IsLocalAt, IsStillLocal};
ghost use Rattle.memo_cells.specs.Working.{ClaimsKeysAt, GoesOn, IsCodedAt, IsInstanceAt, IsKnownAt, IsOwn, ReadsOn};
ghost use Rattle.caller_pass.specs.Answering.{ClosesLocal, SolvesNeed};
ghost use Rattle.caller_pass.specs.Waiting.{IsBehind, IsLocalFrom, waits};
ghost use Rattle.caller_pass.specs.Holding.{AnswersWaitAt, GoesThroughAt, HasLoopAt, HasTurnAt, IsCircularAt, IsFrameAt, IsMissingAt, IsProgramAt, IsUndeclaredAt, IsUnknownAt, LeavesOneAt, LooksAgainAt, SolvesAt, TakesTurnAt};

use crate::desk::Desk;
use crate::evals::Steps;
use crate::faults::AskFault;
use crate::left::{take_left, unless_empty};
use crate::turns::{finish, go_on, turn};
use crate::waiting::{Waiter, Waiting, alone, push_all, push_path};
use circular_eval::{CircTurn, Local};
use equation_law::{Chain, Instance};
use expr_eval::{Turn, is_declared};
use memo_cells::claim_instance;
use rag_io::Memory;
use std::alloc::Global;
use std::sync::ledger::Ledger;

/// What a turn comes to.
#[derive(Clone, Copy, Debug, PartialEq, Eq)]
pub(crate) enum Went {
    /// The cell of the instance is settled.
    Settled,
    /// The instance waits for a local set now, or doesn't any more.
    Further,
    /// An instance that isn't circular has to be settled first.
    Need(Instance),
}

/// The local set that begins with a circular instance, in a box: few of those that wait have one.
fn start<'a>(alloc: Global, i: Instance) -> Result<Box<Local<'a>>, Memory>
    ensures start { IfOk result (λ local. local.value.start ≡ i) }
    ensures local { IfOk result (λ local. IsLocalFrom i local.value) }
{
    let local = Local::start(alloc, i)?;
    match Box::new(alloc, local) {
        Ok(local) => Ok(local),
        Err(_) => Err(Memory),
    }
}

/// An evaluation of an instance that isn't circular: its local set goes on, if it waits for one, or else its equation is evaluated. Its value word was
/// loaded before, and wasn't settled.
fn evaluate<'a, L: Ledger>(
    alloc: Global,
    desk: &mut Desk<'a>,
    i: Instance,
    waiter: &mut Waiter<'a>,
    evals: &mut Steps<L>,
) -> Result<Went, AskFault>
    requires program { IsProgramAt desk.old }
    requires own { IsOwn desk.old }
    requires turn { HasTurnAt desk.old (i, waiter.old) }
    requires unsettled { IsUnknownAt desk.old i }
    ensures went { GoesThroughAt desk.old desk.new i waiter.old waiter.new evals.old evals.new result }
{
    if let Some(local) = &mut waiter.way {
        return match go_on(alloc, desk, local, evals)? {
            CircTurn::Need(next) => Ok(Went::Need(next)),
            CircTurn::Closed => {
                waiter.way = None;
                Ok(Went::Further)
            }
        };
    }
    let mut left = take_left(alloc, &mut waiter.left);
    match turn(alloc, desk, i, &mut left, evals)? {
        Turn::Done(value) => {
            finish(alloc, desk, i, waiter.slot, &value)?;
            Ok(Went::Settled)
        }
        Turn::Need(next) => {
            waiter.left = unless_empty(left);
            if !is_declared(desk.system, &next) {
                return Ok(Went::Need(next));
            }
            waiter.way = Some(start(alloc, next)?);
            Ok(Went::Further)
        }
        // Its program makes no trees.
        Turn::Image(_) => unreachable!(),
    }
}

/// One turn of an instance that isn't circular. It begins with a load of the value word, since others may have settled it meanwhile: where that is
/// settled, nothing is evaluated.
fn step<'a, L: Ledger>(
    alloc: Global,
    desk: &mut Desk<'a>,
    i: Instance,
    waiter: &mut Waiter<'a>,
    evals: &mut Steps<L>,
) -> Result<Went, AskFault>
    requires program { IsProgramAt desk.old }
    requires own { IsOwn desk.old }
    requires frame { IsFrameAt desk.old (i, waiter.old) }
    ensures went { TakesTurnAt desk.old desk.new i waiter.old waiter.new evals.old evals.new result }
{
    if desk.is_settled(waiter.slot) {
        return Ok(Went::Settled);
    }
    evaluate(alloc, desk, i, waiter, evals)
}

/// Whether an instance waits already, or is noted to have a loop.
fn closes_loop(desk: &Desk<'_>, waiting: &Waiting<'_>, next: Instance) -> bool
    ensures closes { result ≡ true → (waits waiting.now next ≡ true) ⊎ HasLoopAt desk.now next }
    ensures other { result ≡ false → waits waiting.now next ≡ false }
{
    waiting.contains(next) || desk.has_loop(&next)
}

/// Lets an instance wait for the value of another one, to which it leads, and answers how that one stands. It doesn't wait where the other one
/// waits already, or is noted to have a loop.
fn wait_for<'a>(
    alloc: Global,
    desk: &mut Desk<'_>,
    waiting: &mut Waiting<'a>,
    last: (Instance, Waiter<'a>),
    next: Instance,
) -> Result<Waiter<'a>, AskFault>
    requires next { IsInstanceAt desk.old next }
    requires coded { IsCodedAt desk.old next }
    requires known { IsKnownAt desk.old next }
    requires own { IsOwn desk.old }
    requires other { waits waiting.old last.0 ≡ false }
    ensures on { GoesOn desk.old desk.new }
    ensures claims { ClaimsKeysAt desk.old desk.new next }
    ensures answer { AnswersWaitAt desk.old desk.new (waiting.old ++ last.entry ∷ []) next waiting.new result }
{
    let (top, waiter) = last;
    waiting.push(alloc, top, waiter)?;
    if closes_loop(desk, waiting, next) {
        let chain = waiting.chain(alloc, next)?;
        return Err(AskFault::Circular { on: next, chain });
    }
    let slot = claim_instance(desk, next)?;
    Ok(Waiter {
        slot,
        way: None,
        left: None,
    })
}

/// Where the local set through which an instance waits begins with one that was sealed meanwhile, it doesn't wait for that any more.
fn look_again(desk: &mut Desk<'_>, waiter: &mut Waiter<'_>)
    requires own { IsOwn desk.old }
    ensures on { ReadsOn desk.old desk.new }
    ensures looked { LooksAgainAt desk.old desk.new waiter.old waiter.new }
{
    let known = match &waiter.way {
        None => false,
        Some(local) => desk.settled_code(local.first()).is_some(),
    };
    if known {
        waiter.way = None;
    }
}

/// Settles the cell of an instance that isn't circular. What is demanded for it waits in an explicit stack, each instance with its slot, and
/// with the local set through which it waits where it demands a circular one. Each turn loads the value word of a cell that is claimed.
fn solve<L: Ledger>(
    alloc: Global,
    desk: &mut Desk<'_>,
    i: Instance,
    evals: &mut Steps<L>,
) -> Result<(), AskFault>
    requires program { IsProgramAt desk.old }
    requires own { IsOwn desk.old }
    requires instance { IsInstanceAt desk.old i }
    requires coded { IsCodedAt desk.old i }
    requires known { IsKnownAt desk.old i }
    requires undeclared { IsUndeclaredAt desk.old i }
    ensures on { GoesOn desk.old desk.new }
    ensures solved { SolvesAt desk.old desk.new i evals.old evals.new result }
    ensures outer { IsOk result → LeavesOneAt desk.old desk.new i evals.old evals.new }
{
    let mut waiting = Waiting::new(alloc);
    let mut top = i;
    let mut waiter = Waiter {
        slot: claim_instance(desk, i)?,
        way: None,
        left: None,
    };
    'turns: loop {
        match step(alloc, desk, top, &mut waiter, evals)? {
            Went::Further => {}
            Went::Need(next) => {
                waiter = wait_for(alloc, desk, &mut waiting, (top, waiter), next)?;
                top = next;
            }
            Went::Settled => match waiting.pop() {
                None => return Ok(()),
                Some(last) => {
                    (top, waiter) = last;
                    look_again(desk, &mut waiter);
                }
            },
        }
    }
}

/// Settles the cell of an instance that isn't circular, unless it is noted that it has a loop.
pub(crate) fn solve_unless_noted<L: Ledger>(
    alloc: Global,
    desk: &mut Desk<'_>,
    i: Instance,
    evals: &mut Steps<L>,
) -> Result<(), AskFault>
    requires program { IsProgramAt desk.old }
    requires own { IsOwn desk.old }
    requires instance { IsInstanceAt desk.old i }
    requires coded { IsCodedAt desk.old i }
    requires known { IsKnownAt desk.old i }
    requires undeclared { IsUndeclaredAt desk.old i }
    ensures on { GoesOn desk.old desk.new }
    ensures solved { SolvesAt desk.old desk.new i evals.old evals.new result }
    ensures outer { IsOk result → LeavesOneAt desk.old desk.new i evals.old evals.new }
{
    if desk.has_loop(&i) {
        let chain = alone(alloc, i)?;
        return Err(AskFault::Circular { on: i, chain });
    }
    solve(alloc, desk, i, evals)
}

/// The chain of a fault, led to by what a local set leads to the first of it by.
fn behind(alloc: Global, local: &Local<'_>, chain: &Chain) -> Result<Chain, Memory>
    ensures { IfOk result (λ whole. IsBehind local.now chain.now whole) }
{
    let mut list = Vec::new(alloc);
    push_path(alloc, &mut list, local)?;
    push_all(&mut list, chain.list())?;
    Ok(Chain::new(list))
}

/// Settles what a local set needs.
fn solve_for<L: Ledger>(
    alloc: Global,
    desk: &mut Desk<'_>,
    local: &Local<'_>,
    next: Instance,
    evals: &mut Steps<L>,
) -> Result<(), AskFault>
    requires program { IsProgramAt desk.old }
    requires own { IsOwn desk.old }
    requires local { IsLocalAt desk.old local.now }
    requires missing { IsMissingAt desk.old local.now next }
    ensures on { GoesOn desk.old desk.new }
    ensures solved { SolvesNeed desk.old desk.new local.now next evals.old evals.new result }
{
    match solve_unless_noted(alloc, desk, next, evals) {
        Ok(()) => Ok(()),
        Err(AskFault::Circular { on, chain }) => {
            let chain = behind(alloc, local, &chain)?;
            Err(AskFault::Circular { on, chain })
        }
        Err(AskFault::CellsFull) => Err(AskFault::CellsFull),
        Err(AskFault::Memory) => Err(AskFault::Memory),
    }
}

/// Goes on with a local set, and settles what it needs.
fn close_more<'a, L: Ledger>(
    alloc: Global,
    desk: &mut Desk<'a>,
    local: &mut Local<'a>,
    evals: &mut Steps<L>,
) -> Result<(), AskFault>
    requires program { IsProgramAt desk.old }
    requires own { IsOwn desk.old }
    requires local { IsLocalAt desk.old local.old }
    requires unknown { IsUnknownAt desk.old local.old.start }
    ensures on { GoesOn desk.old desk.new }
    ensures local { IsStillLocal desk.old desk.new local.new × (local.new.start ≡ local.old.start) }
    ensures more { ClosesLocal desk.old desk.new local.old evals.old evals.new result }
{
    match go_on(alloc, desk, local, evals)? {
        CircTurn::Closed => Ok(()),
        CircTurn::Need(next) => solve_for(alloc, desk, local, next, evals),
    }
}

/// Seals a circular instance. Its local set goes on only where its value word isn't settled, as it was loaded once the cell was claimed.
pub(crate) fn close<L: Ledger>(
    alloc: Global,
    desk: &mut Desk<'_>,
    i: Instance,
    evals: &mut Steps<L>,
) -> Result<(), AskFault>
    requires program { IsProgramAt desk.old }
    requires own { IsOwn desk.old }
    requires instance { IsInstanceAt desk.old i }
    requires coded { IsCodedAt desk.old i }
    requires known { IsKnownAt desk.old i }
    requires is_circular { IsCircularAt desk.old i }
    ensures on { GoesOn desk.old desk.new }
    ensures solved { SolvesAt desk.old desk.new i evals.old evals.new result }
{
    let slot = claim_instance(desk, i)?;
    let mut local = Local::start(alloc, i)?;
    'closing: while !desk.is_settled(slot) {
        close_more(alloc, desk, &mut local, evals)?;
    }
    Ok(())
}
