// The rounds of the model over a list of instances.
ghost use Rattle.std.specs.Prelude.{◌≡◌, ◌<◌, All, IfOk, MatchOption, Some, None, count_by, is_none, length, replicate};
ghost use Rattle.equation_law.specs.Checked.{IsInstance, IsProgram};
ghost use Rattle.equation_law.specs.Codes.{Naming};
ghost use Rattle.equation_law.specs.Program.{Program};
ghost use Rattle.equation_law.specs.Systems.{program_of};
ghost use Rattle.plain_rounds.specs.Named.{HasAt, HasNoneAt, Solves, instances_in};
ghost use Rattle.plain_rounds.specs.Places.{IsHeld};
ghost use Rattle.plain_rounds.specs.Settings.{AreHeld, AreLast, AreReady, IsSetting, naming_at, program_at};
ghost use Rattle.plain_rounds.specs.Steps.{IsAfter, IsNext, IsStepAt, known};

use crate::circular::is_circular;
use crate::coding::codes_of;
use crate::growing::push;
use crate::inner::inner_rounds;
use crate::instances::NameList;
use crate::places::Places;
use crate::setting::Setting;
use crate::standing::equation_value;
use crate::values::NamedValue;
use equation_law::System;
use made_trees::Makers;
use rag_io::Memory;
use std::alloc::Global;

/// What the rounds over a list of instances give each of them.
#[derive(Drop)]
pub struct Table {
    values: Vec<Option<NamedValue>>,
    makers: Makers,
}

impl Table {
    /// The value of the k-th name, or None exactly where the rounds give that name no value or the list has no
    /// such name.
    pub fn value(&self, k: u32) -> Option<&NamedValue>
        ensures { (p : Program) → MatchOption result (HasNoneAt p self.now k) (λ v. HasAt p self.now k v.now) }
    {
        match self.values.get(k as usize) {
            Some(Some(value)) => Some(value),
            _ => None,
        }
    }

    /// What made the trees to which created nodes in the values belong.
    pub fn makers(&self) -> &Makers
        ensures { result.now ≡ self.now.makers }
    {
        &self.makers
    }
}

/// A value that may stand once more.
fn copied(held: &Option<NamedValue>) -> Result<Option<NamedValue>, Memory>
    ensures same { IfOk result (λ copied. (p : Program) (n : Naming) → known p n copied ≡ known p n held.now) }
    ensures held { IfOk result (λ copied. (p : Program) → IsHeld p held.now → IsHeld p copied) }
{
    match held {
        Some(held) => Ok(Some(held.copy()?)),
        None => Ok(None),
    }
}

/// The value that one more round leaves an instance: what the inner rounds leave it, if it is circular, or the one that is settled, or that of its
/// equation.
fn stepped(
    alloc: Global,
    setting: &Setting<'_>,
    settled: &[Option<NamedValue>],
    inner: &[Option<NamedValue>],
    k: usize,
) -> Result<Option<NamedValue>, Memory>
    requires ready { AreReady setting.now settled.now }
    requires inner { AreHeld setting.now inner.now }
    requires within { k < length setting.now.names.now }
    ensures step { let s = setting.now in IfOk result (λ next. IsStepAt (program_at s) (naming_at s) s.names.now settled.now inner.now k next) }
    ensures held { IfOk result (IsHeld (program_at setting.now)) }
{
    if is_circular(alloc, setting, &setting.names[k]) {
        return copied(&inner[k]);
    }
    match &settled[k] {
        Some(held) => Ok(Some(held.copy()?)),
        None => equation_value(alloc, setting, settled, k),
    }
}

/// One round over all names.
fn round(
    alloc: Global,
    setting: &Setting<'_>,
    settled: &[Option<NamedValue>],
) -> Result<Vec<Option<NamedValue>>, Memory>
    requires set { IsSetting setting.now }
    requires settled { AreHeld setting.now settled.now }
    requires after { IsAfter (program_at setting.now) (naming_at setting.now) setting.now.names.now settled.now }
    ensures after { let s = setting.now in IfOk result (λ next. IsNext (program_at s) (naming_at s) s.names.now settled.now next.items) }
    ensures held { IfOk result (λ next. AreHeld setting.now next.items) }
{
    let inner = inner_rounds(alloc, setting, settled)?;
    let mut next = Vec::with_capacity(alloc, setting.names.len()).map_err(|_| Memory)?;
    for k in 0..setting.names.len() {
        let value = stepped(alloc, setting, settled, &inner, k)?;
        push(&mut next, value)?;
    }
    Ok(next)
}

/// How many names have no value.
fn missing(values: &[Option<NamedValue>]) -> usize
    ensures { result ≡ count_by is_none values.now }
{
    let mut missing = 0;
    for value in values {
        if value.is_none() {
            missing += 1;
        }
    }
    missing
}

/// No value for any name.
fn nothing(alloc: Global, count: usize) -> Result<Vec<Option<NamedValue>>, Memory>
    ensures { IfOk result (λ v. v.items ≡ replicate count None) }
{
    let mut values = Vec::with_capacity(alloc, count).map_err(|_| Memory)?;
    for _ in 0..count {
        push(&mut values, None)?;
    }
    Ok(values)
}

/// The values that the rounds leave, which run until nothing is added.
fn last_values(alloc: Global, setting: &Setting<'_>) -> Result<Vec<Option<NamedValue>>, Memory>
    requires { IsSetting setting.now }
    ensures { IfOk result (λ values. AreLast setting.now values.items) }
{
    let mut values = nothing(alloc, setting.names.len())?;
    let mut left = missing(&values);
    loop {
        let next = round(alloc, setting, &values)?;
        let now = missing(&next);
        if now >= left {
            return Ok(values);
        }
        values = next;
        left = now;
    }
}

/// Runs the rounds over instances of a system until nothing is added: each round gives each undeclared instance that
/// has no value yet the value of its equation, where that isn't stuck under the values of the round before, and each
/// circular one the value that the inner rounds leave it. It is the slow definition in executable form: a round, inner
/// or outer, takes time linear in the list and the expressions. There are at most as many outer rounds as there are
/// instances, and one more, and at most as many inner rounds in one of these as the values of the circular instances
/// can rise, and these instances can be dropped, and one more.
pub fn plain_rounds(alloc: Global, system: &System, names: &NameList) -> Result<Table, Memory>
    requires program { IsProgram (program_of system.now) }
    requires instances { All (IsInstance (program_of system.now)) (instances_in (program_of system.now) names.now) }
    ensures solves { IfOk result (λ table. Solves (program_of system.now) (instances_in (program_of system.now) names.now) table) }
    ensures made { IfOk result (λ table. table.makers.system ≡ system.now) }
{
    let mut makers = Makers::new(alloc, system);
    let codes = codes_of(alloc, system, names.list(), &mut makers)?;
    let places = Places::of_names(alloc, &codes)?;
    let setting = Setting {
        system,
        makers: &makers,
        names: &codes,
        places: &places,
    };
    let values = last_values(alloc, &setting)?;
    Ok(Table { values, makers })
}
