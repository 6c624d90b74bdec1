// The parts of a form, and what is made of their values where all of them are evaluated.
ghost use Rattle.std.specs.Prelude.{◌≡◌, IfOk, OnOk};
ghost use Rattle.attr_rules.specs.Expression.{expression_of};
ghost use Rattle.equation_law.specs.Codes.{AreElements, Naming, value_by};
ghost use Rattle.equation_law.specs.Meaning.{named};
ghost use Rattle.equation_law.specs.Systems.{program_of};
ghost use Rattle.expr_eval.specs.Evaluating.{place_in, world_in};
ghost use Rattle.expr_eval.specs.Parts.{AreParts, IsMade, IsMadeOfOne, IsMadeOfTwo, OneMakes, TwoMake, leaf_in, made_of_one, made_of_two};

use crate::accessors::{count, element, source};
use crate::evaluation::{Context, Halt};
use crate::operators::operate;
use attr_rules::{Kind, Part, TExpr};
use code_sets::Codes;
use equation_law::{NodeRef, Value};
use rag_io::Memory;
use set_values::{contains, set_operate, single_set, size};
use std::mem;

/// The parts of a form that are evaluated whatever they come to, where its value is made of theirs alone.
pub(crate) enum Parts<'a> {
    /// It has no parts, or evaluates none of them: a `new` in itself gives null.
    Leaf,
    /// One part.
    One(&'a TExpr),
    /// One part that gives a node, of which it makes its value: the trees that were made are asked for it.
    Node(&'a TExpr),
    /// The token of a node that one part gives: the type at which it is read, and its component. It may demand something itself.
    Token(&'a Kind, &'a Part, &'a TExpr),
    /// Two parts, of which the first is evaluated first.
    Two(&'a TExpr, &'a TExpr),
    /// What its elements come from, and what it says at each of them.
    Over(&'a TExpr, &'a TExpr),
    /// What it evaluates further depends on values.
    Further,
}

/// The parts of a form.
#[inline(always)]
pub(crate) fn parts_of(form: &TExpr) -> Parts<'_>
    ensures { AreParts form.now result }
{
    match form {
        TExpr::Truth(_) | TExpr::Int(_) | TExpr::Text(_) | TExpr::Null => Parts::Leaf,
        TExpr::Empty | TExpr::This | TExpr::Variable(_) | TExpr::Source(_) => Parts::Leaf,
        TExpr::New(_, _) => Parts::Leaf,
        TExpr::Child(_, part) | TExpr::Has(_, part) => Parts::Node(part),
        TExpr::Count(_, part) => Parts::One(part),
        TExpr::Token(kind, component, part) => Parts::Token(kind, component, part),
        TExpr::Cast(_, part) | TExpr::InstanceOf(_, part) => Parts::Node(part),
        TExpr::Single(part) | TExpr::Size(part) => Parts::One(part),
        TExpr::Not(part) | TExpr::Negate(part) => Parts::One(part),
        TExpr::Element(_, first, second) => Parts::Two(first, second),
        TExpr::Sets(_, _, first, second) => Parts::Two(first, second),
        TExpr::Binary(_, first, second) => Parts::Two(first, second),
        TExpr::Contains(first, second) => Parts::Two(first, second),
        TExpr::OrBoth(first, second) => Parts::Two(first, second),
        TExpr::Call(_, _, _, _) => Parts::Further,
        TExpr::And(_, _) | TExpr::Or(_, _) | TExpr::If(_, _, _, _) => Parts::Further,
        TExpr::Quantified(_, _, range, body) => Parts::Over(range, body),
        TExpr::QuantifiedSet(_, range, body) => Parts::Over(range, body),
        TExpr::Each(_, _, range, body) => Parts::Over(range, body),
        TExpr::EachOfSet(_, range, body) => Parts::Over(range, body),
    }
}

/// The value of a name by its number.
fn variable(context: &Context<'_>, number: usize) -> Value
    ensures { (n : Naming) → value_by n result ≡ named (place_in context.now n).names number }
{
    match context.names.get(number) {
        Some(value) => Value::from(*value),
        None => Value::Node(NodeRef(0)),
    }
}

/// Puts the value of a form without parts that are evaluated in place.
pub(crate) fn put_leaf(context: &Context<'_>, form: &TExpr, came: &mut Result<Value, Halt>)
    ensures { IsMade (program_of context.now.system.now) (leaf_in context.now (expression_of form.now)) came.new }
{
    match form {
        TExpr::Truth(b) => *came = Ok(Value::Truth(*b)),
        TExpr::Int(z) => *came = Ok(Value::Int(*z)),
        TExpr::Text(number) => *came = Ok(Value::Text(*number)),
        TExpr::Empty => *came = Ok(Value::Nodes(Codes::none(context.alloc))),
        TExpr::This => *came = Ok(Value::Node(context.this)),
        TExpr::Variable(number) => *came = Ok(variable(context, *number)),
        TExpr::Source(number) => *came = Ok(source(context.system, *number)),
        _ => *came = Ok(Value::Node(NodeRef(0))),
    }
}

/// What a form makes of the value of its one part, in the place of that.
fn make_of_one(context: &Context<'_>, form: &TExpr, part: &mut Value) -> Result<(), Memory>
    requires { AreElements (program_of context.now.system.now) part.old }
    ensures value { OnOk result (IsMadeOfOne context.now.system.now (expression_of form.now) part.old part.new) }
    ensures coded { OnOk result (AreElements (program_of context.now.system.now) part.new) }
{
    let system = context.system;
    match form {
        TExpr::Count(k, _) => *part = Value::Int(count(system, *k, part.node())),
        TExpr::Single(_) => *part = single_set(context.alloc, system, part)?,
        TExpr::Size(_) => *part = Value::Int(size(part)),
        TExpr::Not(_) => *part = Value::Truth(!part.truth()),
        TExpr::Negate(_) => *part = Value::Int(part.int().wrapping_neg()),
        _ => {}
    }
    Ok(())
}

/// Makes the value of a form of that of its one part, if that has one.
pub(crate) fn make_whole(context: &Context<'_>, form: &TExpr, came: &mut Result<Value, Halt>)
    requires { IfOk came.old (AreElements (program_of context.now.system.now)) }
    ensures { let s = context.now.system.now in OneMakes (program_of s) (made_of_one (world_in s) (expression_of form.now)) came.old came.new }
{
    match came {
        Ok(part) => {
            if make_of_one(context, form, part).is_err() {
                *came = Err(Halt::Memory);
            }
        }
        Err(_) => {}
    }
}

/// What a form makes of the values of its two parts, in the place of the first.
fn make_of_two(
    context: &Context<'_>,
    form: &TExpr,
    first: &mut Value,
    second: &mut Value,
) -> Result<(), Memory>
    requires first { AreElements (program_of context.now.system.now) first.old }
    requires second { AreElements (program_of context.now.system.now) second.old }
    ensures value { OnOk result (IsMadeOfTwo context.now.system.now (expression_of form.now) first.old second.old first.new) }
    ensures coded { OnOk result (AreElements (program_of context.now.system.now) first.new) }
{
    let system = context.system;
    match form {
        TExpr::Element(k, _, _) => {
            *first = Value::Node(element(system, *k, first.node(), second.int()));
            Ok(())
        }
        TExpr::Sets(operator, kind, _, _) => {
            let left = mem::replace(first, Value::Truth(false));
            let right = mem::replace(second, Value::Truth(false));
            *first = set_operate(context.alloc, *operator, *kind, left, right)?;
            Ok(())
        }
        TExpr::Contains(_, _) => {
            *first = Value::Truth(contains(system, first, second));
            Ok(())
        }
        TExpr::Binary(operator, _, _) => {
            *first = operate(system, *operator, first, second);
            Ok(())
        }
        TExpr::OrBoth(_, _) => {
            *first = Value::Truth(first.truth() || second.truth());
            Ok(())
        }
        _ => Ok(()),
    }
}

/// Makes the value of a form of those of its two parts, if both have one.
pub(crate) fn make_both(
    context: &Context<'_>,
    form: &TExpr,
    came: &mut Result<Value, Halt>,
    second: &mut Result<Value, Halt>,
)
    requires first { IfOk came.old (AreElements (program_of context.now.system.now)) }
    requires second { IfOk second.old (AreElements (program_of context.now.system.now)) }
    ensures { let s = context.now.system.now in TwoMake (program_of s) (made_of_two (world_in s) (expression_of form.now)) came.old second.old came.new }
{
    match second {
        Ok(second) => match came {
            Ok(first) => {
                if make_of_two(context, form, first, second).is_err() {
                    *came = Err(Halt::Memory);
                }
            }
            Err(_) => {}
        },
        Err(halt) => *came = Err(*halt),
    }
}
