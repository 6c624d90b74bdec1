// What `||` says in the equations of circular attributes.
ghost use Rattle.std.specs.Prelude.{◌≡◌, ◌||◌};
ghost use Rattle.attr_rules.specs.Expression.{Expression, Or, arguments_of, expression_of, new_arguments_of};
ghost use Rattle.attr_rules.specs.Rising.{have_call, tokens_call};
ghost use Rattle.attr_rules.specs.Rules.{circular_at};
ghost use Rattle.attr_types.specs.BothSides.{all_with_both, either, has_circular, new_with_both, right_side, with_both};

use attr_rules::{AttrId, Attributes, NewArgs, TArgs, TExpr};
use std::mem;

// `||` of which both sides are always evaluated, where the left one calls a circular attribute.
fn either(calls: bool, whole: TExpr) -> TExpr
    ensures { (a b : Expression) → expression_of whole ≡ Or a b → expression_of result ≡ either calls a b }
{
    match whole {
        TExpr::Or(left, right) if calls => TExpr::OrBoth(left, right),
        other => other,
    }
}

// The same in place.
fn set_either(calls: bool, whole: &mut TExpr)
    ensures { (a b : Expression) → expression_of whole.old ≡ Or a b → expression_of whole.new ≡ either calls a b }
{
    let old = mem::replace(whole, TExpr::Null);
    *whole = either(calls, old);
}

// What each `||` in an expression says. It tells whether the expression calls a circular attribute. It goes down the expression once, which has
// at most 400 tokens.
#[cycle(sides)]
fn set_sides(attributes: &Attributes, expr: &mut TExpr) -> bool
    ensures calls { result ≡ has_circular attributes.now expr.old }
    ensures says { expression_of expr.new ≡ with_both (circular_at attributes.now.attributes) (expression_of expr.old) }
{
    match expr {
        TExpr::Child(_, part) => set_sides(attributes, part),
        TExpr::Count(_, part) => set_sides(attributes, part),
        TExpr::Has(_, part) => set_sides(attributes, part),
        TExpr::Token(_, _, part) => set_sides(attributes, part),
        TExpr::Cast(_, part) => set_sides(attributes, part),
        TExpr::InstanceOf(_, part) => set_sides(attributes, part),
        TExpr::Single(part) => set_sides(attributes, part),
        TExpr::Size(part) => set_sides(attributes, part),
        TExpr::Not(part) => set_sides(attributes, part),
        TExpr::Negate(part) => set_sides(attributes, part),
        TExpr::Element(_, first, second) => set_pair(attributes, first, second),
        TExpr::Quantified(_, _, first, second) => set_pair(attributes, first, second),
        TExpr::QuantifiedSet(_, first, second) => set_pair(attributes, first, second),
        TExpr::Each(_, _, first, second) => set_pair(attributes, first, second),
        TExpr::EachOfSet(_, first, second) => set_pair(attributes, first, second),
        TExpr::Sets(_, _, first, second) => set_pair(attributes, first, second),
        TExpr::Contains(first, second) => set_pair(attributes, first, second),
        TExpr::Binary(_, first, second) => set_pair(attributes, first, second),
        TExpr::And(first, second) => set_pair(attributes, first, second),
        TExpr::OrBoth(first, second) => set_pair(attributes, first, second),
        TExpr::If(condition, then, _, otherwise) => {
            let calls = set_sides(attributes, condition);
            let also = set_pair(attributes, then, otherwise);
            calls || also
        }
        TExpr::Call(attribute, _, receiver, arguments) => {
            let calls = set_sides(attributes, receiver);
            let also = set_arguments(attributes, arguments);
            attributes.is_circular(*attribute) || (calls || also)
        }
        TExpr::Or(left, right) => {
            let calls = set_sides(attributes, left);
            let also = set_sides(attributes, right);
            set_either(calls, expr);
            calls || also
        }
        TExpr::New(_, arguments) => set_new(attributes, arguments),
        _ => false,
    }
}

// The same of two parts: whether one of them calls a circular attribute.
#[cycle(sides)]
fn set_pair(attributes: &Attributes, first: &mut TExpr, second: &mut TExpr) -> bool
    ensures calls { result ≡ (has_circular attributes.now first.old || has_circular attributes.now second.old) }
    ensures first { expression_of first.new ≡ with_both (circular_at attributes.now.attributes) (expression_of first.old) }
    ensures second { expression_of second.new ≡ with_both (circular_at attributes.now.attributes) (expression_of second.old) }
{
    let calls = set_sides(attributes, first);
    let also = set_sides(attributes, second);
    calls || also
}

// The same of arguments.
#[cycle(sides)]
fn set_arguments(attributes: &Attributes, arguments: &mut TArgs) -> bool
    ensures calls { result ≡ have_call (circular_at attributes.now.attributes) (arguments_of arguments.old) }
    ensures says { arguments_of arguments.new ≡ all_with_both (circular_at attributes.now.attributes) (arguments_of arguments.old) }
{
    match arguments {
        TArgs::End => false,
        TArgs::More(first, rest) => {
            let calls = set_sides(attributes, first);
            let also = set_arguments(attributes, rest);
            calls || also
        }
    }
}

// The same of the tokens of a `new`.
#[cycle(sides)]
fn set_new(attributes: &Attributes, arguments: &mut NewArgs) -> bool
    ensures calls { result ≡ tokens_call (circular_at attributes.now.attributes) (new_arguments_of arguments.old) }
    ensures says { new_arguments_of arguments.new ≡ new_with_both (circular_at attributes.now.attributes) (new_arguments_of arguments.old) }
{
    match arguments {
        NewArgs::End => false,
        NewArgs::Token(_, value, rest) => {
            let calls = set_sides(attributes, value);
            let also = set_new(attributes, rest);
            calls || also
        }
        NewArgs::Child(_, inner, rest) => {
            let calls = set_new(attributes, inner);
            let also = set_new(attributes, rest);
            calls || also
        }
    }
}

/// The right side of an equation of an attribute: where that is circular, each `||` evaluates both sides whose left one calls a circular attribute.
pub(crate) fn said_for(attributes: &Attributes, attribute: AttrId, body: TExpr) -> TExpr
    ensures { expression_of result ≡ right_side attributes.now.attributes attribute.0 (expression_of body) }
{
    let mut said = body;
    if attributes.is_circular(attribute) {
        set_sides(attributes, &mut said);
    }
    said
}
