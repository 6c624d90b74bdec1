// What is made of two sets.
ghost use Rattle.std.specs.Prelude.{◌≡◌, ◌||◌, IfOk};
ghost use Rattle.code_sets.specs.Members.{AreMade};
ghost use Rattle.equation_law.specs.Codes.{AreElements, ByEachNaming, value_by};
ghost use Rattle.set_values.specs.CodedSets.{HasNodesOfBoth, WhereBothCoded, made_by, with_operator};

use attr_rules::{Kind, SetOperator};
use code_sets::Codes;
use equation_law::Value;
use rag_io::Memory;
use std::alloc::Global;

/// The codes of either. Nobody counts them: a set that has the other is taken as it is.
fn united(mut left: Codes, right: Codes) -> Result<Codes, Memory>
    ensures { IfOk result (AreMade (λ a b. a || b) left right) }
{
    left.add(&right)?;
    Ok(left)
}

/// The codes that an operator makes of those of two sets.
fn combined(
    alloc: Global,
    operator: SetOperator,
    left: Codes,
    right: Codes,
) -> Result<Codes, Memory>
    ensures { IfOk result (AreMade (with_operator operator) left right) }
{
    match operator {
        SetOperator::Union => united(left, right),
        SetOperator::Inter => left.inter(alloc, &right),
        SetOperator::Minus => left.minus(alloc, &right),
    }
}

/// What is made of two sets, both read at a type. Of a type that has no sets it is the default.
pub fn set_operate(
    alloc: Global,
    operator: SetOperator,
    kind: Kind,
    left: Value,
    right: Value,
) -> Result<Value, Memory>
    ensures value { IfOk result (λ set. WhereBothCoded left right (λ p. ByEachNaming p (λ n. value_by n set ≡ made_by n operator kind left right))) }
    ensures elements { IfOk result (λ set. WhereBothCoded left right (λ p. AreElements p set)) }
    ensures nodes { IfOk result (λ set. WhereBothCoded left right (λ p. HasNodesOfBoth left right set)) }
{
    match kind {
        Kind::Texts => {
            let codes = combined(
                alloc,
                operator,
                left.into_texts(alloc),
                right.into_texts(alloc),
            )?;
            Ok(Value::Texts(codes))
        }
        Kind::Nodes(_) => {
            let codes = combined(
                alloc,
                operator,
                left.into_nodes(alloc),
                right.into_nodes(alloc),
            )?;
            Ok(Value::Nodes(codes))
        }
        Kind::Truth | Kind::Int | Kind::Text | Kind::Node(_) => Ok(Value::default_of(alloc, kind)),
    }
}
