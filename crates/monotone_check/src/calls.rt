// The positions of calls in an expression.
ghost use Rattle.std.specs.Prelude.{◌≡◌, ◌++◌, ◌||◌};
ghost use Rattle.attr_rules.specs.Expression.{arguments_of, new_arguments_of};
ghost use Rattle.attr_equations.specs.Kept.{rules_in};
ghost use Rattle.attr_rules.specs.Rising.{have_call, tokens_call};
ghost use Rattle.broken_rules.specs.Notes.{Notes};
ghost use Rattle.monotone_check.specs.Equations.{is_circular};
ghost use Rattle.monotone_check.specs.Kept.{broken_at, has_circular};
ghost use Rattle.monotone_check.specs.Positions.{broken_arguments, broken_tokens, call_broken, choice_broken, in_body, in_range, in_second};

use attr_equations::Rules;
use attr_rules::{AttrId, NewArgs, Quantifier, SetOperator, TArgs, TExpr};
use broken_rules::{Earliest, Rule};
use rag_io::Place;

// The rule of the innermost position around a part that isn't permitted is None where all of them are.

// Where the receiver or an argument of an attribute or an accessor stands.
const OF_CALL: Option<Rule> = Some(Rule::M2);

// Where the parts of most other forms stand.
const OTHER: Option<Rule> = Some(Rule::M1);

// Where the body of a form stands.
fn in_body(quantifier: Quantifier, refused: Option<Rule>) -> Option<Rule>
    ensures { result ≡ in_body quantifier refused }
{
    match quantifier {
        Quantifier::Any | Quantifier::All => refused,
        Quantifier::First => Some(Rule::M4),
    }
}

// Where the set stands that it goes over.
fn in_range(quantifier: Quantifier, refused: Option<Rule>) -> Option<Rule>
    ensures { result ≡ in_range quantifier refused }
{
    match quantifier {
        Quantifier::Any => refused,
        Quantifier::All | Quantifier::First => Some(Rule::M4),
    }
}

// Where the second of two sets stands.
fn in_second(operator: SetOperator, refused: Option<Rule>) -> Option<Rule>
    ensures { result ≡ in_second operator refused }
{
    match operator {
        SetOperator::Union | SetOperator::Inter => refused,
        SetOperator::Minus => Some(Rule::M5),
    }
}

// The call of an attribute at this place. It answers whether the attribute is circular.
fn note_call(
    rules: &Rules,
    attribute: AttrId,
    place: Place,
    refused: Option<Rule>,
    faults: &mut Earliest,
) -> bool
    ensures noted { Notes (call_broken (is_circular (rules_in rules.now) attribute.0) refused place) faults.old faults.new }
    ensures calls { result ≡ is_circular (rules_in rules.now) attribute.0 }
{
    let circular = rules.attributes().is_circular(attribute);
    if let Some(rule) = refused {
        faults.note_if(circular, rule, place);
    }
    circular
}

// A choice, by whether its condition has the call of a circular attribute, with the place of its else part unless that is `false` or `empty`.
fn note_choice(circular: bool, otherwise: Option<Place>, faults: &mut Earliest)
    ensures { Notes (choice_broken circular otherwise) faults.old faults.new }
{
    if let Some(place) = otherwise {
        faults.note_if(circular, Rule::M3, place);
    }
}

// Notes what the calls in two expressions break that stand in these positions. It answers whether one of them has the call of a circular
// attribute.
#[cycle(calls)]
fn check_two(
    rules: &Rules,
    first: &TExpr,
    first_refused: Option<Rule>,
    second: &TExpr,
    second_refused: Option<Rule>,
    faults: &mut Earliest,
) -> bool
    ensures noted { Notes (broken_at rules.now first_refused first.now ++ broken_at rules.now second_refused second.now) faults.old faults.new }
    ensures calls { result ≡ (has_circular rules.now first.now || has_circular rules.now second.now) }
{
    let in_first = check_calls(rules, first, first_refused, faults);
    let in_second = check_calls(rules, second, second_refused, faults);
    in_first || in_second
}

// The same of a form over a set.
#[cycle(calls)]
fn check_over(
    rules: &Rules,
    form: Quantifier,
    set: &TExpr,
    body: &TExpr,
    refused: Option<Rule>,
    faults: &mut Earliest,
) -> bool
    ensures noted { Notes (broken_at rules.now (in_range form refused) set.now ++ broken_at rules.now (in_body form refused) body.now) faults.old faults.new }
    ensures calls { result ≡ (has_circular rules.now set.now || has_circular rules.now body.now) }
{
    let range_refused = in_range(form, refused);
    let body_refused = in_body(form, refused);
    check_two(rules, set, range_refused, body, body_refused, faults)
}

// The same of the arguments of a call.
#[cycle(calls)]
fn check_arguments(rules: &Rules, arguments: &TArgs, faults: &mut Earliest) -> bool
    ensures noted { Notes (broken_arguments (is_circular (rules_in rules.now)) (arguments_of arguments.now)) faults.old faults.new }
    ensures calls { result ≡ have_call (is_circular (rules_in rules.now)) (arguments_of arguments.now) }
{
    match arguments {
        TArgs::End => false,
        TArgs::More(first, rest) => {
            let in_first = check_calls(rules, first, OF_CALL, faults);
            let in_rest = check_arguments(rules, rest, faults);
            in_first || in_rest
        }
    }
}

// The same of the tokens of a `new`.
#[cycle(calls)]
fn check_tokens(rules: &Rules, arguments: &NewArgs, faults: &mut Earliest) -> bool
    ensures noted { Notes (broken_tokens (is_circular (rules_in rules.now)) (new_arguments_of arguments.now)) faults.old faults.new }
    ensures calls { result ≡ tokens_call (is_circular (rules_in rules.now)) (new_arguments_of arguments.now) }
{
    match arguments {
        NewArgs::End => false,
        NewArgs::Token(_, token, rest) => {
            let in_token = check_calls(rules, token, OTHER, faults);
            let in_rest = check_tokens(rules, rest, faults);
            in_token || in_rest
        }
        NewArgs::Child(_, child, rest) => {
            let in_child = check_tokens(rules, child, faults);
            let in_rest = check_tokens(rules, rest, faults);
            in_child || in_rest
        }
    }
}

/// Notes what the calls in an expression break that stands in such a position, in one walk down the expression, which has at most 400 tokens.
/// It answers whether there is the call of a circular attribute in it, at any depth.
#[cycle(calls)]
pub(crate) fn check_calls(
    rules: &Rules,
    expression: &TExpr,
    refused: Option<Rule>,
    faults: &mut Earliest,
) -> bool
    ensures noted { Notes (broken_at rules.now refused expression.now) faults.old faults.new }
    ensures calls { result ≡ has_circular rules.now expression.now }
{
    match expression {
        TExpr::Truth(_) | TExpr::Int(_) | TExpr::Text(_) | TExpr::Variable(_) => false,
        TExpr::Null | TExpr::Empty | TExpr::This | TExpr::Source(_) => false,
        TExpr::Child(_, of) | TExpr::Count(_, of) | TExpr::Has(_, of) | TExpr::Token(_, _, of) =>
            check_calls(rules, of, OF_CALL, faults),
        TExpr::Cast(_, of) | TExpr::InstanceOf(_, of) => check_calls(rules, of, OTHER, faults),
        TExpr::Single(of) | TExpr::Size(of) => check_calls(rules, of, OTHER, faults),
        TExpr::Not(of) | TExpr::Negate(of) => check_calls(rules, of, OTHER, faults),
        TExpr::Element(_, of, at) => check_two(rules, of, OF_CALL, at, OF_CALL, faults),
        TExpr::Quantified(form, _, of, body) => {
            check_two(rules, of, OF_CALL, body, in_body(*form, refused), faults)
        }
        TExpr::QuantifiedSet(form, set, body) => {
            check_over(rules, *form, set, body, refused, faults)
        }
        TExpr::Each(_, _, of, body) => check_two(rules, of, OF_CALL, body, refused, faults),
        TExpr::Sets(form, _, a, b) => {
            check_two(rules, a, refused, b, in_second(*form, refused), faults)
        }
        TExpr::Contains(set, of) => check_two(rules, set, refused, of, OTHER, faults),
        TExpr::Binary(_, a, b) => check_two(rules, a, OTHER, b, OTHER, faults),
        TExpr::EachOfSet(_, a, b) => check_two(rules, a, refused, b, refused, faults),
        TExpr::And(a, b) | TExpr::Or(a, b) | TExpr::OrBoth(a, b) => {
            check_two(rules, a, refused, b, refused, faults)
        }
        TExpr::Call(attribute, place, receiver, arguments) => {
            let circular = note_call(rules, *attribute, *place, refused, faults);
            let in_receiver = check_calls(rules, receiver, OF_CALL, faults);
            let in_arguments = check_arguments(rules, arguments, faults);
            circular || in_receiver || in_arguments
        }
        TExpr::If(condition, then, place, otherwise) => {
            let in_condition = check_calls(rules, condition, refused, faults);
            note_choice(in_condition, *place, faults);
            let in_parts = check_two(rules, then, refused, otherwise, refused, faults);
            in_condition || in_parts
        }
        TExpr::New(_, arguments) => check_tokens(rules, arguments, faults),
    }
}
