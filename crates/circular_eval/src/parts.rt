// Sealing the closed parts of a local set while it waits.
ghost use Rattle.std.specs.Prelude.{◌≡◌, ◌≢◌, ℕ, true, false, IfOk, OnOk};
ghost use Rattle.circular_eval.specs.Parts.{AnswersPart, IsSealedAt, SealsClosed, SealsMember, SealsPart, Settles, Takes};
ghost use Rattle.circular_eval.specs.Visiting.{IsReady};

use crate::advancing::{CircFault, CircTurn, finish};
use crate::local::Local;
use equation_law::{System, Value};
use memo_cells::Work;
use rag_io::Memory;
use std::alloc::Global;

/// Whether two values are one.
fn is_same(value: &Value, other: &Value) -> bool
    ensures same { result ≡ true → value.now ≡ other.now }
    ensures other { result ≡ false → value.now ≢ other.now }
{
    match (value, other) {
        (Value::Truth(value), Value::Truth(other)) => *value == *other,
        (Value::Int(value), Value::Int(other)) => *value == *other,
        (Value::Text(value), Value::Text(other)) => *value == *other,
        (Value::Node(value), Value::Node(other)) => *value == *other,
        (Value::Texts(value), Value::Texts(other)) => value.same(other),
        (Value::Nodes(value), Value::Nodes(other)) => value.same(other),
        _ => false,
    }
}

/// A member has the value with which its instance was sealed. An evaluation that stopped goes on only where the member had that value already.
fn settle(local: &mut Local<'_>, number: usize, value: &Value) -> Result<(), Memory>
    ensures settles { Settles local.old local.new number value.now }
    ensures sealed { OnOk result (IsSealedAt local.new.members.entries number) }
{
    let Some((_, member)) = local.member(number) else {
        return Ok(());
    };
    let Some(_) = member.slot else {
        return Ok(());
    };
    if is_same(value, &member.value) {
        local.seal(number);
        return Ok(());
    }
    let found = value.copy()?;
    local.rise(number, found)?;
    local.seal(number);
    Ok(())
}

/// A member of a part is sealed, and so it is in the local set, if it is a member there.
fn take_member(local: &mut Local<'_>, part: &Local<'_>, number: usize) -> Result<(), Memory>
    ensures takes { Takes part.now local.old local.new }
    ensures sealed { OnOk result (SealsMember part.now local.old local.new number) }
{
    let Some((i, value)) = part.value_at(number) else {
        return Ok(());
    };
    let Some((there, _)) = local.find(&i) else {
        return Ok(());
    };
    settle(local, there, value)
}

/// The members of a part are sealed, and so they are in the local set.
fn take_over(local: &mut Local<'_>, part: &Local<'_>) -> Result<(), Memory>
    ensures takes { Takes part.now local.old local.new }
    ensures sealed { OnOk result ((k : ℕ) → SealsMember part.now local.old local.new k) }
{
    for number in 0..part.len() {
        take_member(local, part, number)?;
    }
    Ok(())
}

/// Seals what a member leads to, by a local set of its own. It answers whether the member is sealed then: it isn't where an undeclared instance is
/// missing.
fn seal_part<'a, W: Work>(
    alloc: Global,
    system: &'a System,
    work: &mut W,
    local: &mut Local<'_>,
    number: usize,
) -> Result<bool, CircFault>
    requires ready { IsReady system.now (W.held work.old) local.old }
    ensures part { SealsPart (W.held work.old) (W.held work.new) local.old local.new result }
    ensures answer { IfOk result (AnswersPart (W.held work.old) (W.held work.new) local.old.members.entries local.new.members.entries number) }
{
    let Some(i) = local.unsealed(number) else {
        return Ok(true);
    };
    let mut part = Local::start(alloc, i)?;
    match finish(alloc, system, work, &mut part)? {
        CircTurn::Need(_) => Ok(false),
        CircTurn::Closed => {
            take_over(local, &part)?;
            Ok(true)
        }
    }
}

/// Seals the members of these numbers in turn, up to one that leads to something that is missing. They are final: neither this set nor another one
/// evaluates them again.
pub(crate) fn seal_closed<'a, W: Work>(
    alloc: Global,
    system: &'a System,
    work: &mut W,
    local: &mut Local<'a>,
    closed: &[usize],
) -> Result<(), CircFault>
    requires ready { IsReady system.now (W.held work.old) local.old }
    ensures parts { SealsPart (W.held work.old) (W.held work.new) local.old local.new result }
    ensures sealed { OnOk result (SealsClosed (W.held work.old) (W.held work.new) local.old.members.entries local.new.members.entries closed.now) }
{
    for number in closed {
        if !seal_part(alloc, system, work, local, *number)? {
            return Ok(());
        }
    }
    Ok(())
}
