// The inner rounds: the values of circular instances, over what is settled.
ghost use Rattle.std.specs.Prelude.{◌<◌, IfOk, length};
ghost use Rattle.plain_rounds.specs.Places.{IsHeld};
ghost use Rattle.plain_rounds.specs.Settings.{AreHeld, AreReady, IsSetting, naming_at, program_at};
ghost use Rattle.plain_rounds.specs.Steps.{AreFirst, IsInnerAt, AreInnerSteps, AreLeft, IsAfter, IsFirstAt, IsInnerStepAt};

use crate::circular::{is_circular, start_of};
use crate::growing::push;
use crate::rooms::rooms;
use crate::setting::Setting;
use crate::standing::equation_value;
use crate::values::NamedValue;
use rag_io::Memory;
use std::alloc::Global;

/// The value before the first round: the one that is settled, or where a circular instance starts.
fn first_value(
    alloc: Global,
    setting: &Setting<'_>,
    settled: &[Option<NamedValue>],
    k: usize,
) -> Result<Option<NamedValue>, Memory>
    requires set { IsSetting setting.now }
    requires settled { AreHeld setting.now settled.now }
    requires within { k < length setting.now.names.now }
    ensures first { let s = setting.now in IfOk result (λ value. IsFirstAt (program_at s) (naming_at s) s.names.now settled.now k value) }
    ensures held { IfOk result (IsHeld (program_at setting.now)) }
{
    match &settled[k] {
        Some(held) => Ok(Some(held.copy()?)),
        None => Ok(start_of(alloc, setting, &setting.names[k])),
    }
}

/// The values before the first round.
fn first_values(
    alloc: Global,
    setting: &Setting<'_>,
    settled: &[Option<NamedValue>],
) -> Result<Vec<Option<NamedValue>>, Memory>
    requires set { IsSetting setting.now }
    requires settled { AreHeld setting.now settled.now }
    ensures first { let s = setting.now in IfOk result (λ values. AreFirst (program_at s) (naming_at s) s.names.now settled.now values.items) }
    ensures held { IfOk result (λ values. AreHeld setting.now values.items) }
{
    let mut values = Vec::with_capacity(alloc, setting.names.len()).map_err(|_| Memory)?;
    for k in 0..setting.names.len() {
        let value = first_value(alloc, setting, settled, k)?;
        push(&mut values, value)?;
    }
    Ok(values)
}

/// What one more round leaves an instance that isn't settled: what its equation comes to, if it is circular and still has a value.
fn inner_value(
    alloc: Global,
    setting: &Setting<'_>,
    values: &[Option<NamedValue>],
    k: usize,
) -> Result<Option<NamedValue>, Memory>
    requires ready { AreReady setting.now values.now }
    requires within { k < length setting.now.names.now }
    ensures value { IfOk result (λ value. IsInnerAt (program_at setting.now) (naming_at setting.now) setting.now.names.now values.now k value) }
    ensures held { IfOk result (IsHeld (program_at setting.now)) }
{
    if !is_circular(alloc, setting, &setting.names[k]) {
        return Ok(None);
    }
    match &values[k] {
        Some(_) => equation_value(alloc, setting, values, k),
        None => Ok(None),
    }
}

/// The value after one more round: the one that is settled, or what the round leaves.
fn inner_step(
    alloc: Global,
    setting: &Setting<'_>,
    settled: &[Option<NamedValue>],
    values: &[Option<NamedValue>],
    k: usize,
) -> Result<Option<NamedValue>, Memory>
    requires settled { AreHeld setting.now settled.now }
    requires ready { AreReady setting.now values.now }
    requires within { k < length setting.now.names.now }
    ensures step { let s = setting.now in IfOk result (λ value. IsInnerStepAt (program_at s) (naming_at s) s.names.now settled.now values.now k value) }
    ensures held { IfOk result (IsHeld (program_at setting.now)) }
{
    match &settled[k] {
        Some(held) => Ok(Some(held.copy()?)),
        None => inner_value(alloc, setting, values, k),
    }
}

/// One round over all names.
fn inner_round(
    alloc: Global,
    setting: &Setting<'_>,
    settled: &[Option<NamedValue>],
    values: &[Option<NamedValue>],
) -> Result<Vec<Option<NamedValue>>, Memory>
    requires settled { AreHeld setting.now settled.now }
    requires ready { AreReady setting.now values.now }
    ensures round { let s = setting.now in IfOk result (λ next. AreInnerSteps (program_at s) (naming_at s) s.names.now settled.now values.now next.items) }
    ensures held { IfOk result (λ next. AreHeld setting.now next.items) }
{
    let mut next = Vec::with_capacity(alloc, setting.names.len()).map_err(|_| Memory)?;
    for k in 0..setting.names.len() {
        let value = inner_step(alloc, setting, settled, values, k)?;
        push(&mut next, value)?;
    }
    Ok(next)
}

/// What the inner rounds over what is settled leave: they run until nothing changes. A round leaves an instance a value that is at least the last
/// one, or none, so nothing changed exactly where the values may go as far as before. Beside each value that is left stands what is settled.
pub(crate) fn inner_rounds(
    alloc: Global,
    setting: &Setting<'_>,
    settled: &[Option<NamedValue>],
) -> Result<Vec<Option<NamedValue>>, Memory>
    requires set { IsSetting setting.now }
    requires settled { AreHeld setting.now settled.now }
    requires after { IsAfter (program_at setting.now) (naming_at setting.now) setting.now.names.now settled.now }
    ensures left { let s = setting.now in IfOk result (λ values. AreLeft (program_at s) (naming_at s) s.names.now settled.now values.items) }
    ensures held { IfOk result (λ values. AreHeld setting.now values.items) }
{
    let mut values = first_values(alloc, setting, settled)?;
    let mut left = rooms(&values);
    loop {
        let next = inner_round(alloc, setting, settled, &values)?;
        let now = rooms(&next);
        if now >= left {
            return Ok(values);
        }
        values = next;
        left = now;
    }
}
