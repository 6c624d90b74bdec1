// What comes of a collection's values.
ghost use Rattle.std.specs.Prelude.{◌≡◌, ◌+ℤ◌, IfOk};
ghost use Rattle.std.specs.Int.{int_wrap};
ghost use mir.Syntax.{w32};
ghost use Rattle.equation_law.specs.Codes.{AreElements, ByEachNaming, value_by};
ghost use Rattle.equation_law.specs.Collections.{fresh};
ghost use Rattle.equation_law.specs.Systems.{program_of};
ghost use Rattle.collection_attrs.specs.Surveys.{IsCombined};

use attr_rules::{Kind, Method, SetOperator};
use equation_law::{System, Value};
use rag_io::Memory;
use set_values::{set_operate, single_set};
use std::alloc::Global;

/// The value of a collection for which nothing counts. It takes no memory.
pub(crate) fn fresh(alloc: Global, system: &System, method: Method, kind: Kind) -> Value
    ensures value { ByEachNaming (program_of system.now) (λ names. value_by names result ≡ fresh method kind) }
    ensures elements { AreElements (program_of system.now) result }
{
    match method {
        Method::Add | Method::AddAll => Value::default_of(alloc, kind),
        Method::Sum => Value::Int(0),
        Method::Or => Value::Truth(false),
        Method::And => Value::Truth(true),
    }
}

/// A sum that wraps.
fn added(first: i32, second: i32) -> i32
    ensures { result ≡ int_wrap w32 (first +ℤ second) }
{
    first.wrapping_add(second)
}

/// With one value more.
pub(crate) fn combine(
    alloc: Global,
    system: &System,
    method: Method,
    kind: Kind,
    so_far: Value,
    value: Value,
) -> Result<Value, Memory>
    requires so_far { AreElements (program_of system.now) so_far }
    requires value { AreElements (program_of system.now) value }
    ensures value { IfOk result (IsCombined (program_of system.now) method kind so_far value) }
    ensures elements { IfOk result (AreElements (program_of system.now)) }
{
    match method {
        Method::Add => {
            let one = single_set(alloc, system, &value)?;
            set_operate(alloc, SetOperator::Union, kind, so_far, one)
        }
        Method::AddAll => set_operate(alloc, SetOperator::Union, kind, so_far, value),
        Method::Sum => Ok(Value::Int(added(so_far.int(), value.int()))),
        Method::Or => Ok(Value::Truth(so_far.truth() || value.truth())),
        Method::And => Ok(Value::Truth(so_far.truth() && value.truth())),
    }
}
