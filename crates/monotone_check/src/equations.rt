// The equations of circular attributes.
ghost use Rattle.std.specs.Prelude.{◌<◌, IfSome, length, slice_get};
ghost use Rattle.attr_equations.specs.Kept.{rules_in};
ghost use Rattle.broken_rules.specs.Notes.{Notes};
ghost use Rattle.monotone_check.specs.Equations.{Verdict, equation_broken, equations_broken};

use crate::calls::check_calls;
use attr_equations::Rules;
use attr_rules::EqId;
use broken_rules::{Broken, Earliest};

// Notes what an equation breaks.
fn check_equation(rules: &Rules, equation: EqId, faults: &mut Earliest)
    requires { equation.0 < length (rules_in rules.now).equations }
    ensures { IfSome (slice_get (rules_in rules.now).equations equation.0) (λ e. Notes (equation_broken (rules_in rules.now) e) faults.old faults.new) }
{
    let target = rules.target(equation);
    if rules.attributes().is_circular(target.attribute) {
        check_calls(rules, rules.body(equation), None, faults);
    }
}

/// The first of M1 to M5 that the equations of circular attributes break, by place. In such an equation each call of a circular attribute is to
/// stand in permitted positions alone, from the call outwards to the whole equation: both sides of `&&` and `||`, the three parts of `? :`, the
/// bodies of `any`, `all` and `each`, the ranges of `any` and `each`, both arguments of `union` and `inter`, and the first arguments of `contains`
/// and `minus`. The innermost position that isn't permitted decides the rule: M2 for a receiver or an argument of an attribute or an accessor,
/// M4 for the range of `all` or `first` and for the body of `first`, M5 for the second argument of `minus`, and M1 for any other. M3 is broken
/// where the condition of `? :` has such a call and the else part isn't the literal `false` or `empty`. It takes no memory.
pub fn check_monotone(rules: &Rules) -> Result<(), Broken>
    ensures { Verdict (equations_broken (rules_in rules.now)) result }
{
    let mut faults = Earliest::new();
    for number in 0..rules.equations() {
        check_equation(rules, EqId(number), &mut faults);
    }
    match faults.found() {
        None => Ok(()),
        Some(broken) => Err(broken),
    }
}
