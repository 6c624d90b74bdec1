// The forms of sets that are written as calls without receiver: `union`, `inter`, `minus`, `single`, `contains` and `size`.
ghost use Rattle.std.specs.Prelude.{◌≡◌, IfOk};
ghost use Rattle.attr_rules.specs.Expression as said;
ghost use Rattle.attr_rules.specs.Expression.{expression_of};
ghost use Rattle.broken_rules.specs.Notes.{Notes};
ghost use Rattle.expr_typing.specs.Parts as parts;
ghost use Rattle.expr_typing.specs.SetForms.{count_broken, form_named, has_no_sets, is_foreign, is_no_set, made_said, one_said, one_type, operator_named, other_named, pair_said, pair_type, set_known, settled};
ghost use Rattle.aspect_items.specs.Expressions.{seen_name};

use crate::sides::{Part, have_no_common, place_of};
use crate::typed::{both_boxed, boxed, common_of};
use aspect_items::Name;
use ast_grammar::Grammar;
use attr_rules::{Kind, SetOperator, TExpr, ValueType, may_be_element};
use broken_rules::{Earliest, Rule};
use rag_io::Memory;
use std::alloc::Global;

/// One of the forms.
#[derive(Clone, Copy, Debug, PartialEq, Eq)]
pub enum SetForm {
    /// A set is made of two.
    Makes(SetOperator),
    Single,
    Contains,
    Size,
}

const TRUTH: Option<ValueType> = Some(ValueType::Of(Kind::Truth));

const INT: Option<ValueType> = Some(ValueType::Of(Kind::Int));

fn operator_named(text: &[u8]) -> Option<SetOperator>
    ensures { result ≡ operator_named text.now }
{
    if text == b"union".as_slice() {
        Some(SetOperator::Union)
    } else if text == b"inter".as_slice() {
        Some(SetOperator::Inter)
    } else if text == b"minus".as_slice() {
        Some(SetOperator::Minus)
    } else {
        None
    }
}

fn other_named(text: &[u8]) -> Option<SetForm>
    ensures { result ≡ other_named text.now }
{
    if text == b"single".as_slice() {
        Some(SetForm::Single)
    } else if text == b"contains".as_slice() {
        Some(SetForm::Contains)
    } else if text == b"size".as_slice() {
        Some(SetForm::Size)
    } else {
        None
    }
}

/// The form that a name without receiver means, if it means one.
pub fn form_named(text: &[u8]) -> Option<SetForm>
    ensures { result ≡ form_named text.now }
{
    match operator_named(text) {
        Some(operator) => Some(SetForm::Makes(operator)),
        None => other_named(text),
    }
}

/// A type that is known to be a set.
pub(crate) fn set_known(of: Option<ValueType>) -> Option<ValueType>
    ensures { result ≡ set_known of }
{
    let of = of?;
    if of.is_set() { Some(of) } else { None }
}

/// The type of a form that has another number of arguments.
pub fn settled(form: SetForm) -> Option<ValueType>
    ensures { result ≡ settled form }
{
    match form {
        SetForm::Makes(_) | SetForm::Single => None,
        SetForm::Contains => TRUTH,
        SetForm::Size => INT,
    }
}

/// The type of a form with one argument of a type, where that is known.
pub fn one_type(form: SetForm, of: Option<ValueType>) -> Option<ValueType>
    ensures { result ≡ one_type form of }
{
    match form {
        SetForm::Makes(_) => None,
        SetForm::Single => of?.set_of(),
        SetForm::Contains => TRUTH,
        SetForm::Size => INT,
    }
}

/// The type of a form with two arguments of types, where these are known: what is made of two sets has their common type.
pub fn pair_type(
    grammar: &Grammar,
    form: SetForm,
    first: Option<ValueType>,
    second: Option<ValueType>,
) -> Option<ValueType>
    ensures { result ≡ pair_type grammar.now form first second }
{
    match form {
        SetForm::Makes(_) => common_of(grammar, set_known(first), set_known(second)),
        SetForm::Single => None,
        SetForm::Contains => TRUTH,
        SetForm::Size => INT,
    }
}

/// What a form with one argument says.
pub fn one_said(alloc: Global, form: SetForm, part: TExpr) -> Result<TExpr, Memory>
    ensures { IfOk result (λ e. expression_of e ≡ one_said form (expression_of part)) }
{
    match form {
        SetForm::Makes(_) | SetForm::Contains => Ok(TExpr::Null),
        SetForm::Single => Ok(TExpr::Single(boxed(alloc, part)?)),
        SetForm::Size => Ok(TExpr::Size(boxed(alloc, part)?)),
    }
}

// What is made of two sets, where its type is known.
fn made_said(
    alloc: Global,
    operator: SetOperator,
    of: Option<ValueType>,
    first: TExpr,
    second: TExpr,
) -> Result<TExpr, Memory>
    ensures { IfOk result (λ e. expression_of e ≡ made_said operator of (expression_of first) (expression_of second)) }
{
    let Some(of) = of else { return Ok(TExpr::Null) };
    let (first, second) = both_boxed(alloc, first, second)?;
    Ok(TExpr::Sets(operator, of.kept_kind(), first, second))
}

fn contains_said(alloc: Global, set: TExpr, element: TExpr) -> Result<TExpr, Memory>
    ensures { IfOk result (λ e. expression_of e ≡ said.Contains (expression_of set) (expression_of element)) }
{
    let (set, element) = both_boxed(alloc, set, element)?;
    Ok(TExpr::Contains(set, element))
}

/// What a form with two arguments says, which is of a type, where that is known.
pub fn pair_said(
    alloc: Global,
    form: SetForm,
    of: Option<ValueType>,
    first: TExpr,
    second: TExpr,
) -> Result<TExpr, Memory>
    ensures { IfOk result (λ e. expression_of e ≡ pair_said form of (expression_of first) (expression_of second)) }
{
    match form {
        SetForm::Makes(operator) => made_said(alloc, operator, of, first, second),
        SetForm::Contains => contains_said(alloc, first, second),
        SetForm::Single | SetForm::Size => Ok(TExpr::Null),
    }
}

fn is_no_set(of: Option<ValueType>) -> bool
    ensures { result ≡ is_no_set of }
{
    match of {
        None => false,
        Some(of) => !of.is_set(),
    }
}

fn has_no_sets(of: Option<ValueType>) -> bool
    ensures { result ≡ has_no_sets of }
{
    match of {
        None => false,
        Some(of) => of.set_of().is_none(),
    }
}

fn is_foreign(grammar: &Grammar, set: Option<ValueType>, of: Option<ValueType>) -> bool
    ensures { result ≡ is_foreign grammar.now set of }
{
    match (set, of) {
        (Some(set), Some(of)) => !may_be_element(grammar, set, of),
        _ => false,
    }
}

/// J10 at a part that is known to be no set.
pub(crate) fn check_set(part: Part<'_>, faults: &mut Earliest)
    ensures { Notes (parts.no_set part.entry) faults.old faults.new }
{
    if is_no_set(part.value_type) {
        faults.note(Rule::J10, place_of(part.written));
    }
}

// J10 at a part that no set has.
fn check_element(part: Part<'_>, faults: &mut Earliest)
    ensures { Notes (parts.no_element part.entry) faults.old faults.new }
{
    if has_no_sets(part.value_type) {
        faults.note(Rule::J10, place_of(part.written));
    }
}

/// J11 at the name of a form that has another number of arguments.
pub fn check_count(name: &Name, faults: &mut Earliest)
    ensures { Notes (count_broken (seen_name name.now)) faults.old faults.new }
{
    faults.note(Rule::J11, name.place);
}

/// J10 and J11 of a form with one argument.
pub fn check_one(form: SetForm, name: &Name, part: Part<'_>, faults: &mut Earliest)
    ensures { Notes (parts.one_broken form (seen_name name.now) part.entry) faults.old faults.new }
{
    match form {
        SetForm::Makes(_) | SetForm::Contains => check_count(name, faults),
        SetForm::Single => check_element(part, faults),
        SetForm::Size => check_set(part, faults),
    }
}

// J10 at the second one of two sets that have no common type.
fn check_common_sets(grammar: &Grammar, first: Part<'_>, second: Part<'_>, faults: &mut Earliest)
    ensures { Notes (parts.no_common_set grammar.now first.entry second.entry) faults.old faults.new }
{
    let first = set_known(first.value_type);
    if have_no_common(grammar, first, set_known(second.value_type)) {
        faults.note(Rule::J10, place_of(second.written));
    }
}

// J10 at parts that are no sets, and at the second one of two sets that have no common type.
fn check_sets(grammar: &Grammar, first: Part<'_>, second: Part<'_>, faults: &mut Earliest)
    ensures { Notes (parts.sets_broken grammar.now first.entry second.entry) faults.old faults.new }
{
    check_set(first, faults);
    check_set(second, faults);
    check_common_sets(grammar, first, second, faults);
}

// J10 at a part that is known to be no element of a set.
fn check_fits_set(grammar: &Grammar, set: Part<'_>, element: Part<'_>, faults: &mut Earliest)
    ensures { Notes (parts.foreign grammar.now set.entry element.entry) faults.old faults.new }
{
    if is_foreign(grammar, set_known(set.value_type), element.value_type) {
        faults.note(Rule::J10, place_of(element.written));
    }
}

// J10 at what is no set, and at what is none of its elements.
fn check_contains(grammar: &Grammar, set: Part<'_>, element: Part<'_>, faults: &mut Earliest)
    ensures { Notes (parts.contains_broken grammar.now set.entry element.entry) faults.old faults.new }
{
    check_set(set, faults);
    check_fits_set(grammar, set, element, faults);
}

/// J10 and J11 of a form with two arguments.
pub fn check_pair(
    grammar: &Grammar,
    form: SetForm,
    name: &Name,
    first: Part<'_>,
    second: Part<'_>,
    faults: &mut Earliest,
)
    ensures { Notes (parts.pair_broken grammar.now form (seen_name name.now) first.entry second.entry) faults.old faults.new }
{
    match form {
        SetForm::Makes(_) => check_sets(grammar, first, second, faults),
        SetForm::Contains => check_contains(grammar, first, second, faults),
        SetForm::Single | SetForm::Size => check_count(name, faults),
    }
}
