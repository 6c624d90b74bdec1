// The rule that types fit, J10, at the parts of an expression.
ghost use Rattle.std.specs.Prelude.{◌≡◌};
ghost use Rattle.broken_rules.specs.Notes.{Notes};
ghost use Rattle.expr_typing.specs.Fitting.{are_apart, is_no_node, is_unfit};
ghost use Rattle.expr_typing.specs.Parts as parts;
ghost use Rattle.expr_typing.specs.Places.{else_place, place_of};
ghost use Rattle.expr_typing.specs.SetForms.{have_no_common};
ghost use Rattle.aspect_items.specs.Expressions.{seen_expr};

use aspect_items::{Expr, Operator};
use ast_grammar::Grammar;
use attr_rules::{Kind, ValueType, common, comparable, fits};
use broken_rules::{Earliest, Rule};
use rag_io::Place;

/// The place of the first token of an expression.
pub fn place_of(expr: &Expr) -> Place
    ensures { result ≡ place_of (seen_expr expr.now) }
{
    match expr {
        Expr::Truth(place, _)
        | Expr::Null(place)
        | Expr::Empty(place)
        | Expr::This(place)
        | Expr::Int(place, _)
        | Expr::Text(place, _)
        | Expr::Source(place, _)
        | Expr::New(place, ..)
        | Expr::Quantified(_, place, ..)
        | Expr::Group(place, _)
        | Expr::Cast(place, ..)
        | Expr::Not(place, _)
        | Expr::Negate(place, _) => *place,
        Expr::Variable(name) | Expr::Call(name, _) => name.place,
        Expr::Member(first, ..)
        | Expr::Binary(_, first, _)
        | Expr::InstanceOf(first, _)
        | Expr::If(first, ..) => place_of(first),
    }
}

/// The place of the part of a choice behind `:`, unless that is the literal `false` or `empty`.
pub fn else_place(expr: &Expr) -> Option<Place>
    ensures { result ≡ else_place (seen_expr expr.now) }
{
    match expr {
        Expr::Truth(_, false) | Expr::Empty(_) => None,
        _ => Some(place_of(expr)),
    }
}

fn is_unfit(grammar: &Grammar, of: Option<ValueType>, wanted: Kind) -> bool
    ensures { result ≡ is_unfit grammar.now of wanted }
{
    match of {
        None => false,
        Some(of) => !fits(grammar, of, wanted),
    }
}

fn is_no_node(of: Option<ValueType>) -> bool
    ensures { result ≡ is_no_node of }
{
    match of {
        None => false,
        Some(of) => !of.is_node(),
    }
}

fn are_apart(left: Option<ValueType>, right: Option<ValueType>) -> bool
    ensures { result ≡ are_apart left right }
{
    match (left, right) {
        (Some(left), Some(right)) => !comparable(left, right),
        _ => false,
    }
}

/// Whether both types are known, and have nothing in common.
pub(crate) fn have_no_common(
    grammar: &Grammar,
    left: Option<ValueType>,
    right: Option<ValueType>,
) -> bool
    ensures { result ≡ have_no_common grammar.now left right }
{
    match (left, right) {
        (Some(left), Some(right)) => common(grammar, left, right).is_none(),
        _ => false,
    }
}

/// A part of an expression: how it is written, and its type, where that is known.
#[derive(Clone, Copy)]
pub struct Part<'a> {
    pub written: &'a Expr,
    pub value_type: Option<ValueType>,
}

/// J10 at a part of which another type is wanted.
pub fn check_fit(grammar: &Grammar, part: Part<'_>, wanted: Kind, faults: &mut Earliest)
    ensures { Notes (parts.misfit grammar.now wanted part.entry) faults.old faults.new }
{
    if is_unfit(grammar, part.value_type, wanted) {
        faults.note(Rule::J10, place_of(part.written));
    }
}

/// J10 at a part that is known to be no node.
pub fn check_node(part: Part<'_>, faults: &mut Earliest)
    ensures { Notes (parts.no_node part.entry) faults.old faults.new }
{
    if is_no_node(part.value_type) {
        faults.note(Rule::J10, place_of(part.written));
    }
}

// J10 at the right one of two sides that can't be compared.
fn check_equal(left: Part<'_>, right: Part<'_>, faults: &mut Earliest)
    ensures { Notes (parts.equal_broken left.entry right.entry) faults.old faults.new }
{
    if are_apart(left.value_type, right.value_type) {
        faults.note(Rule::J10, place_of(right.written));
    }
}

fn check_both(
    grammar: &Grammar,
    left: Part<'_>,
    right: Part<'_>,
    wanted: Kind,
    faults: &mut Earliest,
)
    ensures { Notes (parts.both_misfit grammar.now wanted left.entry right.entry) faults.old faults.new }
{
    check_fit(grammar, left, wanted, faults);
    check_fit(grammar, right, wanted, faults);
}

/// J10 at the sides of an operator.
pub fn check_sides(
    grammar: &Grammar,
    operator: Operator,
    left: Part<'_>,
    right: Part<'_>,
    faults: &mut Earliest,
)
    ensures { Notes (parts.sides_broken grammar.now operator left.entry right.entry) faults.old faults.new }
{
    match operator {
        Operator::Multiply
        | Operator::Add
        | Operator::Subtract
        | Operator::Less
        | Operator::AtMost
        | Operator::Greater
        | Operator::AtLeast => check_both(grammar, left, right, Kind::Int, faults),
        Operator::Equal | Operator::Differ => check_equal(left, right, faults),
        Operator::And | Operator::Or => check_both(grammar, left, right, Kind::Truth, faults),
    }
}

// J10 at the last one of two parts that have no common type.
fn check_common(grammar: &Grammar, then: Part<'_>, otherwise: Part<'_>, faults: &mut Earliest)
    ensures { Notes (parts.no_common grammar.now then.entry otherwise.entry) faults.old faults.new }
{
    if have_no_common(grammar, then.value_type, otherwise.value_type) {
        faults.note(Rule::J10, place_of(otherwise.written));
    }
}

/// J10 at the parts of a choice: at a condition that is no truth value, and at the last part where the two have no common type.
pub fn check_choice(
    grammar: &Grammar,
    condition: Part<'_>,
    then: Part<'_>,
    otherwise: Part<'_>,
    faults: &mut Earliest,
)
    ensures { Notes (parts.choice_broken grammar.now condition.entry then.entry otherwise.entry) faults.old faults.new }
{
    check_fit(grammar, condition, Kind::Truth, faults);
    check_common(grammar, then, otherwise, faults);
}
