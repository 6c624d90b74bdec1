// Which expressions are rising, by the positions of the calls of circular attributes.
ghost use Rattle.std.specs.Prelude.{◌≡◌, ◌&&◌, ◌||◌, not};
ghost use Rattle.attr_rules.specs.Expression.{arguments_of, expression_of, new_arguments_of};
ghost use Rattle.attr_equations.specs.Kept.{rules_in};
ghost use Rattle.attr_rules.specs.Rising as spec;
ghost use Rattle.attr_rules.specs.Rules.{circular_at};
ghost use Rattle.plain_rounds.specs.Rising.{body_permits, calls_circular, range_permits, rises_by, second_permits};

use attr_equations::Rules;
use attr_rules::{NewArgs, Quantifier, SetOperator, TArgs, TExpr};

/// Whether one of two expressions calls a circular attribute.
#[cycle(calls)]
fn one_calls(rules: &Rules, first: &TExpr, second: &TExpr) -> bool
    ensures { result ≡ (calls_circular rules.now first.now || calls_circular rules.now second.now) }
{
    let in_first = calls(rules, first);
    let in_second = calls(rules, second);
    in_first || in_second
}

/// Whether one of some arguments does.
#[cycle(calls)]
fn calls_in(rules: &Rules, arguments: &TArgs) -> bool
    ensures { result ≡ spec.have_call (circular_at (rules_in rules.now).attributes) (arguments_of arguments.now) }
{
    match arguments {
        TArgs::End => false,
        TArgs::More(first, rest) => {
            let in_first = calls(rules, first);
            let in_rest = calls_in(rules, rest);
            in_first || in_rest
        }
    }
}

/// Whether one of the tokens of a `new` does.
#[cycle(calls)]
fn calls_in_tokens(rules: &Rules, arguments: &NewArgs) -> bool
    ensures { result ≡ spec.tokens_call (circular_at (rules_in rules.now).attributes) (new_arguments_of arguments.now) }
{
    match arguments {
        NewArgs::End => false,
        NewArgs::Token(_, first, rest) => {
            let in_first = calls(rules, first);
            let in_rest = calls_in_tokens(rules, rest);
            in_first || in_rest
        }
        NewArgs::Child(_, first, rest) => {
            let in_first = calls_in_tokens(rules, first);
            let in_rest = calls_in_tokens(rules, rest);
            in_first || in_rest
        }
    }
}

/// Whether an expression calls a circular attribute, at any depth.
#[cycle(calls)]
fn calls(rules: &Rules, expression: &TExpr) -> bool
    ensures { result ≡ calls_circular rules.now expression.now }
{
    match expression {
        TExpr::Truth(_) | TExpr::Int(_) | TExpr::Text(_) | TExpr::Variable(_) => false,
        TExpr::Null | TExpr::Empty | TExpr::This | TExpr::Source(_) => false,
        TExpr::Child(_, of) | TExpr::Count(_, of) | TExpr::Has(_, of) | TExpr::Token(_, _, of) => {
            calls(rules, of)
        }
        TExpr::Cast(_, of) | TExpr::InstanceOf(_, of) => calls(rules, of),
        TExpr::Single(of) | TExpr::Size(of) => calls(rules, of),
        TExpr::Not(of) | TExpr::Negate(of) => calls(rules, of),
        TExpr::Element(_, a, b) => one_calls(rules, a, b),
        TExpr::Quantified(_, _, a, b) => one_calls(rules, a, b),
        TExpr::Each(_, _, a, b) => one_calls(rules, a, b),
        TExpr::QuantifiedSet(_, a, b) => one_calls(rules, a, b),
        TExpr::EachOfSet(_, a, b) => one_calls(rules, a, b),
        TExpr::Sets(_, _, a, b) => one_calls(rules, a, b),
        TExpr::Binary(_, a, b) => one_calls(rules, a, b),
        TExpr::Contains(a, b) => one_calls(rules, a, b),
        TExpr::And(a, b) | TExpr::Or(a, b) => one_calls(rules, a, b),
        TExpr::OrBoth(a, b) => one_calls(rules, a, b),
        TExpr::Call(attribute, _, receiver, arguments) => {
            let circular = rules.attributes().is_circular(*attribute);
            let in_receiver = calls(rules, receiver);
            let in_arguments = calls_in(rules, arguments);
            circular || in_receiver || in_arguments
        }
        TExpr::If(condition, then, _, otherwise) => {
            let in_condition = calls(rules, condition);
            let in_parts = one_calls(rules, then, otherwise);
            in_condition || in_parts
        }
        TExpr::New(_, arguments) => calls_in_tokens(rules, arguments),
    }
}

/// Whether it is the literal `false` or `empty`.
fn is_bottom(expression: &TExpr) -> bool
    ensures { result ≡ spec.is_bottom (expression_of expression.now) }
{
    match expression {
        TExpr::Truth(b) => !*b,
        TExpr::Empty => true,
        _ => false,
    }
}

/// Whether the body of a form permits it.
fn body_rises(form: Quantifier, calls: bool, rises: bool) -> bool
    ensures { result ≡ spec.body_rises form calls rises }
{
    match form {
        Quantifier::Any | Quantifier::All => rises,
        Quantifier::First => !calls,
    }
}

/// Whether the range of a form over a set permits it.
fn range_rises(form: Quantifier, calls: bool, rises: bool) -> bool
    ensures { result ≡ spec.range_rises form calls rises }
{
    match form {
        Quantifier::Any => rises,
        Quantifier::All | Quantifier::First => !calls,
    }
}

/// Whether the second argument of a form that makes a set of two permits it.
fn second_rises(form: SetOperator, calls: bool, rises: bool) -> bool
    ensures { result ≡ spec.second_rises form calls rises }
{
    match form {
        SetOperator::Union | SetOperator::Inter => rises,
        SetOperator::Minus => !calls,
    }
}

/// Whether both of two expressions are rising.
#[cycle(rising)]
fn both_rise(rules: &Rules, first: &TExpr, second: &TExpr) -> bool
    ensures { result ≡ (rises_by rules.now first.now && rises_by rules.now second.now) }
{
    let first_rises = rises(rules, first);
    let second_rises = rises(rules, second);
    first_rises && second_rises
}

/// Whether the second is rising, and no call is in the first.
#[cycle(rising)]
fn second_alone_rises(rules: &Rules, first: &TExpr, second: &TExpr) -> bool
    ensures { result ≡ (not (calls_circular rules.now first.now) && rises_by rules.now second.now) }
{
    let in_first = calls(rules, first);
    let second_rises = rises(rules, second);
    !in_first && second_rises
}

/// Whether the body of a form permits what is in it.
#[cycle(rising)]
fn in_body(rules: &Rules, form: Quantifier, body: &TExpr) -> bool
    ensures { result ≡ body_permits rules.now form body.now }
{
    let in_it = calls(rules, body);
    let it_rises = rises(rules, body);
    body_rises(form, in_it, it_rises)
}

/// Whether a form over a list is rising.
#[cycle(rising)]
fn over_list_rises(rules: &Rules, form: Quantifier, range: &TExpr, body: &TExpr) -> bool
    ensures { result ≡ (not (calls_circular rules.now range.now) && body_permits rules.now form body.now) }
{
    let in_range = calls(rules, range);
    let body_rises = in_body(rules, form, body);
    !in_range && body_rises
}

/// Whether a form over a set is rising.
#[cycle(rising)]
fn over_set_rises(rules: &Rules, form: Quantifier, range: &TExpr, body: &TExpr) -> bool
    ensures { result ≡ (range_permits rules.now form range.now && body_permits rules.now form body.now) }
{
    let in_range = calls(rules, range);
    let it_rises = rises(rules, range);
    let body_rises = in_body(rules, form, body);
    let range_rises = range_rises(form, in_range, it_rises);
    range_rises && body_rises
}

/// Whether a form that makes a set of two is rising.
#[cycle(rising)]
fn sets_rise(rules: &Rules, form: SetOperator, first: &TExpr, second: &TExpr) -> bool
    ensures { result ≡ (rises_by rules.now first.now && second_permits rules.now form second.now) }
{
    let first_rises = rises(rules, first);
    let in_second = calls(rules, second);
    let it_rises = rises(rules, second);
    let second_rises = second_rises(form, in_second, it_rises);
    first_rises && second_rises
}

/// Whether each call of a circular attribute in an expression stands in permitted positions alone.
#[cycle(rising)]
pub(crate) fn rises(rules: &Rules, expression: &TExpr) -> bool
    ensures { result ≡ rises_by rules.now expression.now }
{
    match expression {
        TExpr::Truth(_) | TExpr::Int(_) | TExpr::Text(_) | TExpr::Variable(_) => true,
        TExpr::Null | TExpr::Empty | TExpr::This | TExpr::Source(_) => true,
        TExpr::Child(_, of) | TExpr::Count(_, of) | TExpr::Has(_, of) | TExpr::Token(_, _, of) => {
            !calls(rules, of)
        }
        TExpr::Cast(_, of) | TExpr::InstanceOf(_, of) => !calls(rules, of),
        TExpr::Single(of) | TExpr::Size(of) => !calls(rules, of),
        TExpr::Not(of) | TExpr::Negate(of) => !calls(rules, of),
        TExpr::Element(_, a, b) => !one_calls(rules, a, b),
        TExpr::Binary(_, a, b) => !one_calls(rules, a, b),
        TExpr::Call(_, _, receiver, arguments) => {
            let in_receiver = calls(rules, receiver);
            let in_arguments = calls_in(rules, arguments);
            !in_receiver && !in_arguments
        }
        TExpr::And(a, b) | TExpr::OrBoth(a, b) => both_rise(rules, a, b),
        TExpr::EachOfSet(_, a, b) => both_rise(rules, a, b),
        TExpr::Or(a, b) => second_alone_rises(rules, a, b),
        TExpr::Each(_, _, a, b) => second_alone_rises(rules, a, b),
        TExpr::Quantified(form, _, a, b) => over_list_rises(rules, *form, a, b),
        TExpr::QuantifiedSet(form, a, b) => over_set_rises(rules, *form, a, b),
        TExpr::Sets(form, _, a, b) => sets_rise(rules, *form, a, b),
        TExpr::Contains(set, of) => {
            let set_rises = rises(rules, set);
            let in_element = calls(rules, of);
            set_rises && !in_element
        }
        TExpr::If(condition, then, _, otherwise) => {
            let condition_rises = rises(rules, condition);
            let parts_rise = both_rise(rules, then, otherwise);
            let starts = !calls(rules, condition) || is_bottom(otherwise);
            condition_rises && parts_rise && starts
        }
        TExpr::New(_, arguments) => !calls_in_tokens(rules, arguments),
    }
}
