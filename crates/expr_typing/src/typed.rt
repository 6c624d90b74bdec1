// What written expressions say, made of what their parts say.
ghost use Rattle.std.specs.Prelude.{◌≡◌, IfOk, map};
ghost use Rattle.attr_rules.specs.Expression as said;
ghost use Rattle.attr_rules.specs.Expression.{arguments_of, expression_of};
ghost use Rattle.std.specs.Option.{option_map};
ghost use Rattle.attr_rules.specs.Types.{of_class};
ghost use Rattle.expr_typing.specs.SetForms.{common_of};
ghost use Rattle.expr_typing.specs.Typed.{SaysAlone, arguments_in, call_said, first_in, joined, prefixed, read_by, result_of};

use crate::standing::Prefix;
use aspect_items::Operator as Sign;
use ast_grammar::{ClassId, Grammar};
use attr_rules::{Access, Accessor, Kind, Operator, Part, TArgs, TExpr, ValueType, common};
use attr_scope::Member;
use rag_io::{Memory, Place};
use std::alloc::Global;

/// What a written expression says: its type, where that is known, the list that it gives, if it gives one, and its typed form. That of a list
/// is what has it, and what breaks a rule may say `null`.
#[derive(Drop)]
pub struct Typed {
    pub value_type: Option<ValueType>,
    pub list: Option<Accessor>,
    pub body: TExpr,
}

/// The type of what an operator gives, which is known whatever stands on its sides.
pub fn result_of(sign: Sign) -> Option<ValueType>
    ensures { result ≡ result_of sign }
{
    match sign {
        Sign::Multiply | Sign::Add | Sign::Subtract => Some(ValueType::Of(Kind::Int)),
        Sign::Less
        | Sign::AtMost
        | Sign::Greater
        | Sign::AtLeast
        | Sign::Equal
        | Sign::Differ
        | Sign::And
        | Sign::Or => Some(ValueType::Of(Kind::Truth)),
    }
}

/// The common type of two parts, where both types are known.
pub fn common_of(
    grammar: &Grammar,
    left: Option<ValueType>,
    right: Option<ValueType>,
) -> Option<ValueType>
    ensures { result ≡ common_of grammar.now left right }
{
    common(grammar, left?, right?)
}

/// An expression on the heap.
pub(crate) fn boxed(alloc: Global, expression: TExpr) -> Result<Box<TExpr>, Memory>
    ensures { IfOk result (λ b. expression_of b.value ≡ expression_of expression) }
{
    Box::new(alloc, expression).map_err(|_| Memory)
}

/// Two expressions on the heap.
pub(crate) fn both_boxed(
    alloc: Global,
    left: TExpr,
    right: TExpr,
) -> Result<(Box<TExpr>, Box<TExpr>), Memory>
    ensures left { IfOk result (λ both. expression_of both.0.value ≡ expression_of left) }
    ensures right { IfOk result (λ both. expression_of both.1.value ≡ expression_of right) }
{
    let left = boxed(alloc, left)?;
    let right = boxed(alloc, right)?;
    Ok((left, right))
}

// `!`
fn denied(alloc: Global, part: TExpr) -> Result<TExpr, Memory>
    ensures { IfOk result (λ e. expression_of e ≡ said.Not (expression_of part)) }
{
    Ok(TExpr::Not(boxed(alloc, part)?))
}

/// A part with what stands before it.
pub fn prefixed(alloc: Global, prefix: Prefix, part: TExpr) -> Result<TExpr, Memory>
    ensures { IfOk result (λ e. expression_of e ≡ prefixed prefix (expression_of part)) }
{
    match prefix {
        Prefix::Not => denied(alloc, part),
        Prefix::Minus => Ok(TExpr::Negate(boxed(alloc, part)?)),
    }
}

fn operated(alloc: Global, operator: Operator, left: TExpr, right: TExpr) -> Result<TExpr, Memory>
    ensures { IfOk result (λ e. expression_of e ≡ said.Binary operator (expression_of left) (expression_of right)) }
{
    let (left, right) = both_boxed(alloc, left, right)?;
    Ok(TExpr::Binary(operator, left, right))
}

fn both(alloc: Global, left: TExpr, right: TExpr) -> Result<TExpr, Memory>
    ensures { IfOk result (λ e. expression_of e ≡ said.And (expression_of left) (expression_of right)) }
{
    let (left, right) = both_boxed(alloc, left, right)?;
    Ok(TExpr::And(left, right))
}

fn either(alloc: Global, left: TExpr, right: TExpr) -> Result<TExpr, Memory>
    ensures { IfOk result (λ e. expression_of e ≡ said.Or (expression_of left) (expression_of right)) }
{
    let (left, right) = both_boxed(alloc, left, right)?;
    Ok(TExpr::Or(left, right))
}

/// Two parts and what stands between them.
pub fn joined(alloc: Global, sign: Sign, left: TExpr, right: TExpr) -> Result<TExpr, Memory>
    ensures { IfOk result (λ e. expression_of e ≡ joined sign (expression_of left) (expression_of right)) }
{
    match sign {
        Sign::Multiply => operated(alloc, Operator::Multiply, left, right),
        Sign::Add => operated(alloc, Operator::Add, left, right),
        Sign::Subtract => operated(alloc, Operator::Subtract, left, right),
        Sign::Less => operated(alloc, Operator::Less, left, right),
        Sign::AtMost => operated(alloc, Operator::AtMost, left, right),
        Sign::Greater => operated(alloc, Operator::Greater, left, right),
        Sign::AtLeast => operated(alloc, Operator::AtLeast, left, right),
        Sign::Equal => operated(alloc, Operator::Equal, left, right),
        Sign::Differ => denied(alloc, operated(alloc, Operator::Equal, left, right)?),
        Sign::And => both(alloc, left, right),
        Sign::Or => either(alloc, left, right),
    }
}

/// A choice between two parts, of which the last begins at a place, unless that isn't kept.
pub fn chosen(
    alloc: Global,
    condition: TExpr,
    then: TExpr,
    place: Option<Place>,
    otherwise: TExpr,
) -> Result<TExpr, Memory>
    ensures { IfOk result (λ e. expression_of e ≡ said.If (expression_of condition) (expression_of then) place (expression_of otherwise)) }
{
    let parts = both_boxed(alloc, then, otherwise)?;
    let condition = boxed(alloc, condition)?;
    let (then, otherwise) = parts;
    Ok(TExpr::If(condition, then, place, otherwise))
}

/// A cast of a part.
pub fn cast(alloc: Global, class: ClassId, part: TExpr) -> Result<TExpr, Memory>
    ensures { IfOk result (λ e. expression_of e ≡ said.Cast class (expression_of part)) }
{
    Ok(TExpr::Cast(class, boxed(alloc, part)?))
}

/// A test of a part's class.
pub fn tested(alloc: Global, class: ClassId, part: TExpr) -> Result<TExpr, Memory>
    ensures { IfOk result (λ e. expression_of e ≡ said.InstanceOf class (expression_of part)) }
{
    Ok(TExpr::InstanceOf(class, boxed(alloc, part)?))
}

/// The type of a class, where there is one.
pub fn type_of_class(class: Option<ClassId>) -> Option<ValueType>
    ensures { result ≡ option_map of_class class }
{
    Some(ValueType::of_class(class?))
}

// The element of a receiver's list at a place.
fn element(alloc: Global, k: Part, receiver: TExpr, place: TExpr) -> Result<TExpr, Memory>
    ensures { IfOk result (λ e. expression_of e ≡ said.Element k.0 (expression_of receiver) (expression_of place)) }
{
    let (receiver, place) = both_boxed(alloc, receiver, place)?;
    Ok(TExpr::Element(k, receiver, place))
}

// What an accessor without an argument says behind a receiver. A whole list says what has it.
fn read_alone(alloc: Global, accessor: Accessor, receiver: TExpr) -> Result<TExpr, Memory>
    ensures { IfOk result (λ e. SaysAlone accessor (expression_of receiver) (expression_of e)) }
{
    let k = accessor.component;
    let receiver = boxed(alloc, receiver)?;
    Ok(match accessor.access {
        Access::Child => TExpr::Child(k, receiver),
        Access::Token(kind) => TExpr::Token(kind, k, receiver),
        Access::Has => TExpr::Has(k, receiver),
        Access::Count => TExpr::Count(k, receiver),
        Access::Elements | Access::Element => Box::into_inner(receiver),
    })
}

// What an accessor says behind a receiver, with the argument that it may have.
fn read(
    alloc: Global,
    accessor: Accessor,
    receiver: TExpr,
    argument: TExpr,
) -> Result<TExpr, Memory>
    ensures { IfOk result (λ e. expression_of e ≡ read_by accessor (expression_of receiver) (expression_of argument)) }
{
    if accessor.access == Access::Element {
        return element(alloc, accessor.component, receiver, argument);
    }
    read_alone(alloc, accessor, receiver)
}

// The first of some arguments, and `null` where there is none.
fn first_in(arguments: TArgs) -> TExpr
    ensures { expression_of result ≡ first_in (arguments_of arguments) }
{
    match arguments {
        TArgs::End => TExpr::Null,
        TArgs::More(first, _) => Box::into_inner(first),
    }
}

/// What a call says behind a receiver, with the arguments and the place of its name.
pub fn called(
    alloc: Global,
    member: Option<Member>,
    receiver: TExpr,
    arguments: TArgs,
    place: Place,
) -> Result<TExpr, Memory>
    ensures { IfOk result (λ e. expression_of e ≡ call_said member place (expression_of receiver) (arguments_of arguments)) }
{
    match member {
        None => Ok(TExpr::Null),
        Some(Member::Reads(accessor)) => read(alloc, accessor, receiver, first_in(arguments)),
        Some(Member::Calls(attribute)) => Ok(TExpr::Call(
            attribute,
            place,
            boxed(alloc, receiver)?,
            arguments,
        )),
    }
}

// One argument more, before others.
fn argument_before(alloc: Global, first: TExpr, rest: TArgs) -> Result<TArgs, Memory>
    ensures { IfOk result (λ es. arguments_of es ≡ said.argument (expression_of first) (arguments_of rest)) }
{
    let first = boxed(alloc, first)?;
    let rest = Box::new(alloc, rest).map_err(|_| Memory)?;
    Ok(TArgs::More(first, rest))
}

/// The arguments of a call, which are these.
pub fn all_arguments(alloc: Global, list: Vec<TExpr>) -> Result<TArgs, Memory>
    ensures { IfOk result (λ es. arguments_of es ≡ arguments_in (map expression_of list.items)) }
{
    let mut front = list;
    let mut arguments = TArgs::End;
    while let Some(last) = front.pop() {
        arguments = argument_before(alloc, last, arguments)?;
    }
    Ok(arguments)
}
