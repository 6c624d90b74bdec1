// Whether two expressions are equal.
ghost use Rattle.std.specs.Prelude.{◌≡◌, true};
ghost use Rattle.attr_rules.specs.Expression.{arguments_of, expression_of, new_arguments_of};

use attr_rules::{NewArgs, TArgs, TExpr};

/// Whether two expressions are equal, with the places that they keep.
#[cycle(same)]
pub fn same(left: &TExpr, right: &TExpr) -> bool
    ensures { result ≡ true → expression_of left.now ≡ expression_of right.now }
{
    match (left, right) {
        (TExpr::Truth(a), TExpr::Truth(b)) => a == b,
        (TExpr::Int(a), TExpr::Int(b)) => a == b,
        (TExpr::Text(a), TExpr::Text(b)) => a == b,
        (TExpr::Null, TExpr::Null) => true,
        (TExpr::Empty, TExpr::Empty) => true,
        (TExpr::This, TExpr::This) => true,
        (TExpr::Variable(a), TExpr::Variable(b)) => a == b,
        (TExpr::Source(a), TExpr::Source(b)) => a == b,
        (TExpr::Call(a, at, e, xs), TExpr::Call(b, by, f, ys)) => {
            a == b && at == by && same(e, f) && all_same(xs, ys)
        }
        (TExpr::New(c, xs), TExpr::New(d, ys)) => c == d && same_components(xs, ys),
        _ => same_accessor(left, right),
    }
}

/// Whether two expressions that are an accessor or a test of a class are equal.
#[cycle(same)]
fn same_accessor(left: &TExpr, right: &TExpr) -> bool
    ensures { result ≡ true → expression_of left.now ≡ expression_of right.now }
{
    match (left, right) {
        (TExpr::Child(j, a), TExpr::Child(k, b)) => j == k && same(a, b),
        (TExpr::Element(j, a, x), TExpr::Element(k, b, y)) => j == k && same(a, b) && same(x, y),
        (TExpr::Count(j, a), TExpr::Count(k, b)) => j == k && same(a, b),
        (TExpr::Has(j, a), TExpr::Has(k, b)) => j == k && same(a, b),
        (TExpr::Token(s, j, a), TExpr::Token(t, k, b)) => s == t && j == k && same(a, b),
        (TExpr::Cast(c, a), TExpr::Cast(d, b)) => c == d && same(a, b),
        (TExpr::InstanceOf(c, a), TExpr::InstanceOf(d, b)) => c == d && same(a, b),
        _ => same_operation(left, right),
    }
}

/// Whether two expressions that are an operator with its operands are equal.
#[cycle(same)]
fn same_operation(left: &TExpr, right: &TExpr) -> bool
    ensures { result ≡ true → expression_of left.now ≡ expression_of right.now }
{
    match (left, right) {
        (TExpr::Not(a), TExpr::Not(b)) => same(a, b),
        (TExpr::Negate(a), TExpr::Negate(b)) => same(a, b),
        (TExpr::Binary(o, a, x), TExpr::Binary(p, b, y)) => o == p && same(a, b) && same(x, y),
        (TExpr::And(a, x), TExpr::And(b, y)) => same(a, b) && same(x, y),
        (TExpr::Or(a, x), TExpr::Or(b, y)) => same(a, b) && same(x, y),
        (TExpr::OrBoth(a, x), TExpr::OrBoth(b, y)) => same(a, b) && same(x, y),
        (TExpr::If(c, a, at, x), TExpr::If(d, b, by, y)) => {
            at == by && same(c, d) && same(a, b) && same(x, y)
        }
        _ => same_set_form(left, right),
    }
}

/// Whether two expressions that are a form of sets, or one over elements, are equal.
#[cycle(same)]
fn same_set_form(left: &TExpr, right: &TExpr) -> bool
    ensures { result ≡ true → expression_of left.now ≡ expression_of right.now }
{
    match (left, right) {
        (TExpr::Sets(o, s, a, x), TExpr::Sets(p, t, b, y)) => {
            o == p && s == t && same(a, b) && same(x, y)
        }
        (TExpr::Single(a), TExpr::Single(b)) => same(a, b),
        (TExpr::Contains(a, x), TExpr::Contains(b, y)) => same(a, b) && same(x, y),
        (TExpr::Size(a), TExpr::Size(b)) => same(a, b),
        (TExpr::Quantified(q, j, a, x), TExpr::Quantified(r, k, b, y)) => {
            q == r && j == k && same(a, b) && same(x, y)
        }
        (TExpr::QuantifiedSet(q, a, x), TExpr::QuantifiedSet(r, b, y)) => {
            q == r && same(a, b) && same(x, y)
        }
        (TExpr::Each(s, j, a, x), TExpr::Each(t, k, b, y)) => {
            s == t && j == k && same(a, b) && same(x, y)
        }
        (TExpr::EachOfSet(s, a, x), TExpr::EachOfSet(t, b, y)) => {
            s == t && same(a, b) && same(x, y)
        }
        _ => false,
    }
}

/// Whether the arguments of two calls are equal.
#[cycle(same)]
fn all_same(left: &TArgs, right: &TArgs) -> bool
    ensures { result ≡ true → arguments_of left.now ≡ arguments_of right.now }
{
    match (left, right) {
        (TArgs::End, TArgs::End) => true,
        (TArgs::More(a, xs), TArgs::More(b, ys)) => same(a, b) && all_same(xs, ys),
        _ => false,
    }
}

/// Whether the arguments of two `new`s are equal.
#[cycle(same)]
fn same_components(left: &NewArgs, right: &NewArgs) -> bool
    ensures { result ≡ true → new_arguments_of left.now ≡ new_arguments_of right.now }
{
    match (left, right) {
        (NewArgs::End, NewArgs::End) => true,
        (NewArgs::Token(j, a, xs), NewArgs::Token(k, b, ys)) => {
            j == k && same(a, b) && same_components(xs, ys)
        }
        (NewArgs::Child(c, x, xs), NewArgs::Child(d, y, ys)) => {
            c == d && same_components(x, y) && same_components(xs, ys)
        }
        _ => false,
    }
}
