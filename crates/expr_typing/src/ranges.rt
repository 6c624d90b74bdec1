// The elements over which forms go, and what these forms say.
ghost use Rattle.std.specs.Prelude.{◌≡◌, IfOk};
ghost use Rattle.std.specs.Option.{option_map};
ghost use Rattle.attr_rules.specs.Expression.{expression_of};
ghost use Rattle.broken_rules.specs.Notes.{Notes};
ghost use Rattle.expr_typing.specs.Fitting.{body_misfit, has_no_elements, no_range};
ghost use Rattle.expr_typing.specs.Typed.{condition_over, element_kind, element_type, elements_over, over_said, quantified_type, said_over, set_over, union_over};
ghost use Rattle.aspect_items.specs.Expressions.{seen_expr};

use crate::set_forms::{check_set, set_known};
use crate::sides::{Part, check_fit, place_of};
use crate::typed::both_boxed;
use aspect_items::{Expr, Quantifier as Form};
use ast_grammar::Grammar;
use attr_rules::{Accessor, Kind, Quantifier, TExpr, ValueType};
use broken_rules::{Earliest, Rule};
use rag_io::Memory;
use std::alloc::Global;

/// The elements over which a form goes.
#[derive(Clone, Copy, Debug, PartialEq, Eq)]
pub enum Elements {
    /// Those of a list.
    OfList(Accessor),
    /// Those of a set, which are of this type.
    OfSet(Kind),
}

fn element_kind(elements: Elements) -> Kind
    ensures { result ≡ element_kind elements }
{
    match elements {
        Elements::OfList(list) => Kind::Node(list.class),
        Elements::OfSet(kind) => kind,
    }
}

/// The type of the elements.
pub fn element_type(elements: Option<Elements>) -> Option<ValueType>
    ensures { result ≡ option_map element_type elements }
{
    Some(ValueType::Of(element_kind(elements?)))
}

fn set_over(form: Form, of: ValueType) -> Option<Elements>
    ensures { result ≡ set_over form of }
{
    match form {
        Form::Each | Form::Any | Form::All => Some(Elements::OfSet(of.elements()?)),
        Form::First => None,
    }
}

/// The elements of a range that gives a list, or is of a type.
pub fn elements_over(form: Form, list: Option<Accessor>, of: Option<ValueType>) -> Option<Elements>
    ensures { result ≡ elements_over form list of }
{
    match of {
        None => Some(Elements::OfList(list?)),
        Some(of) => set_over(form, of),
    }
}

/// The type of a form, whose body is of a type, where that is known.
pub fn quantified_type(
    form: Form,
    elements: Option<Elements>,
    body: Option<ValueType>,
) -> Option<ValueType>
    ensures { result ≡ quantified_type form elements body }
{
    match form {
        Form::Each => set_known(body),
        Form::Any | Form::All => Some(ValueType::Of(Kind::Truth)),
        Form::First => element_type(elements),
    }
}

fn has_no_elements(form: Form, of: Option<ValueType>) -> bool
    ensures { result ≡ has_no_elements form of }
{
    match of {
        None => false,
        Some(of) => set_over(form, of).is_none(),
    }
}

/// J10 at a range that has a type, and no elements for a form.
pub fn check_range(form: Form, range: &Expr, of: Option<ValueType>, faults: &mut Earliest)
    ensures { Notes (no_range form of (seen_expr range.now)) faults.old faults.new }
{
    if has_no_elements(form, of) {
        faults.note(Rule::J10, place_of(range));
    }
}

/// J10 at the body of `each` that is no set, and at a condition that is no truth value.
pub fn check_over(grammar: &Grammar, form: Form, body: Part<'_>, faults: &mut Earliest)
    ensures { Notes (body_misfit grammar.now form body.entry.value_type (seen_expr body.entry.written.now)) faults.old faults.new }
{
    match form {
        Form::Each => check_set(body, faults),
        Form::Any | Form::All | Form::First => check_fit(grammar, body, Kind::Truth, faults),
    }
}

// A condition over some elements.
fn condition_over(
    alloc: Global,
    quantifier: Quantifier,
    elements: Elements,
    range: TExpr,
    condition: TExpr,
) -> Result<TExpr, Memory>
    ensures { IfOk result (λ e. expression_of e ≡ condition_over quantifier elements (expression_of range) (expression_of condition)) }
{
    let (range, condition) = both_boxed(alloc, range, condition)?;
    Ok(match elements {
        Elements::OfList(list) => {
            TExpr::Quantified(quantifier, list.component, range, condition)
        }
        Elements::OfSet(_) => TExpr::QuantifiedSet(quantifier, range, condition),
    })
}

// `each`, whose body is a set of a type, where that is known.
fn union_over(
    alloc: Global,
    of: Option<ValueType>,
    elements: Elements,
    range: TExpr,
    set: TExpr,
) -> Result<TExpr, Memory>
    ensures { IfOk result (λ e. expression_of e ≡ union_over of elements (expression_of range) (expression_of set)) }
{
    let Some(of) = of else { return Ok(TExpr::Null) };
    let (range, set) = both_boxed(alloc, range, set)?;
    Ok(match elements {
        Elements::OfList(list) => TExpr::Each(of.kept_kind(), list.component, range, set),
        Elements::OfSet(_) => TExpr::EachOfSet(of.kept_kind(), range, set),
    })
}

fn said_over(
    alloc: Global,
    form: Form,
    of: Option<ValueType>,
    elements: Elements,
    range: TExpr,
    body: TExpr,
) -> Result<TExpr, Memory>
    ensures { IfOk result (λ e. expression_of e ≡ said_over form of elements (expression_of range) (expression_of body)) }
{
    match form {
        Form::Each => union_over(alloc, set_known(of), elements, range, body),
        Form::Any => condition_over(alloc, Quantifier::Any, elements, range, body),
        Form::All => condition_over(alloc, Quantifier::All, elements, range, body),
        Form::First => condition_over(alloc, Quantifier::First, elements, range, body),
    }
}

/// What a form over some elements says, where there are any, with what has the list, or the set, and with a body of a type, where that is
/// known.
pub fn over_said(
    alloc: Global,
    form: Form,
    of: Option<ValueType>,
    elements: Option<Elements>,
    range: TExpr,
    body: TExpr,
) -> Result<TExpr, Memory>
    ensures { IfOk result (λ e. expression_of e ≡ over_said form of elements (expression_of range) (expression_of body)) }
{
    match elements {
        None => Ok(TExpr::Null),
        Some(elements) => said_over(alloc, form, of, elements, range, body),
    }
}
