// The right sides of equations of higher-order attributes: J2, J10, J12 and J17 at the `new` that each is.
ghost use Rattle.std.specs.Prelude.{◌≡◌, ◌<◌, IfOk, OnOk, length};
ghost use Rattle.std.specs.Option.{ForSome};
ghost use Rattle.attr_rules.specs.Expression.{expression_of, new_arguments_of};
ghost use Rattle.attr_bodies.specs.Created.{created_broken, created_said, given_broken, given_said, new_broken, new_made, other_broken, rest_broken, rest_said};
ghost use Rattle.attr_scope.specs.ScopeKept.{IsScope};
ghost use Rattle.attr_scope.specs.Seen.{seen_scope};
ghost use Rattle.aspect_items.specs.Expressions.{seen_expr};
ghost use Rattle.broken_rules.specs.Notes.{Notes};
ghost use Rattle.expr_typing.specs.declared.created.Takes.TheVariants.{Child};
ghost use Rattle.expr_typing.specs.Typed.{body_of};

use crate::bodies::type_operand;
use aspect_items::Expr;
use ast_grammar::ClassId;
use attr_rules::{Kind, NewArgs, TExpr};
use attr_scope::{Scope, check_class};
use broken_rules::{Earliest, Rule};
use expr_typing::{
    Part, Stands, Takes, argument_before, check_child, check_fit, check_made, check_size, new_said,
    place_of, taken, type_of_class,
};
use rag_io::{Memory, Place};
use std::alloc::Global;

// The argument for a child of a class, or below, of the `new` at a place.
#[cycle(created)]
fn type_child(
    alloc: Global,
    scope: &Scope<'_>,
    place: Place,
    wanted: ClassId,
    argument: &Expr,
    faults: &mut Earliest,
) -> Result<TExpr, Memory>
    requires { IsScope (seen_scope scope.now) }
    ensures noted { OnOk result (Notes (given_broken (seen_scope scope.now) place (Child wanted) (seen_expr argument.now)) faults.old faults.new) }
    ensures says { IfOk result (λ e. expression_of e ≡ given_said (seen_scope scope.now) (Child wanted) (seen_expr argument.now)) }
{
    let Expr::New(inner, name, arguments) = argument else {
        faults.note(Rule::J12, place);
        return Ok(TExpr::Null);
    };
    let class = check_class(scope.grammar, name, faults);
    check_child(scope.grammar, place, wanted, class, faults);
    let arguments = type_new(alloc, scope, *inner, class, arguments, faults)?;
    Ok(TExpr::New(class.unwrap_or(ClassId(0)), arguments))
}

// An argument of the `new` at a place, which takes this there.
#[cycle(created)]
fn type_given(
    alloc: Global,
    scope: &Scope<'_>,
    place: Place,
    takes: Takes,
    argument: &Expr,
    faults: &mut Earliest,
) -> Result<TExpr, Memory>
    requires { IsScope (seen_scope scope.now) }
    ensures noted { OnOk result (Notes (given_broken (seen_scope scope.now) place takes (seen_expr argument.now)) faults.old faults.new) }
    ensures says { IfOk result (λ e. expression_of e ≡ given_said (seen_scope scope.now) takes (seen_expr argument.now)) }
{
    match takes {
        Takes::Token(kind) => type_operand(alloc, scope, argument, Stands::Anywhere, kind, faults),
        Takes::Child(wanted) => type_child(alloc, scope, place, wanted, argument, faults),
        Takes::Nothing => {
            faults.note(Rule::J12, place);
            Ok(TExpr::Null)
        }
    }
}

// The arguments of the `new` of a class at a place, for the components from this one on.
#[cycle(created)]
fn type_each(
    alloc: Global,
    scope: &Scope<'_>,
    place: Place,
    class: ClassId,
    k: u32,
    arguments: &[Expr],
    faults: &mut Earliest,
) -> Result<NewArgs, Memory>
    requires scope { IsScope (seen_scope scope.now) }
    requires class { class.0 < length (seen_scope scope.now).grammar }
    ensures noted { OnOk result (Notes (rest_broken (seen_scope scope.now) place class k arguments.now) faults.old faults.new) }
    ensures says { IfOk result (λ parts. new_arguments_of parts ≡ rest_said (seen_scope scope.now) class k arguments.now) }
{
    let [first, rest @ ..] = arguments else {
        return Ok(NewArgs::End);
    };
    let Some(takes) = taken(scope.grammar, class, k) else {
        return Ok(NewArgs::End);
    };
    let said = type_given(alloc, scope, place, takes, first, faults)?;
    let behind = type_each(alloc, scope, place, class, k + 1, rest, faults)?;
    argument_before(alloc, takes, said, behind)
}

// The arguments of the `new` at a place, of a class, where that is known.
#[cycle(created)]
fn type_new(
    alloc: Global,
    scope: &Scope<'_>,
    place: Place,
    class: Option<ClassId>,
    arguments: &[Expr],
    faults: &mut Earliest,
) -> Result<NewArgs, Memory>
    requires scope { IsScope (seen_scope scope.now) }
    requires class { ForSome class (λ c. c.0 < length (seen_scope scope.now).grammar) }
    ensures noted { OnOk result (Notes (new_broken (seen_scope scope.now) place class arguments.now) faults.old faults.new) }
    ensures says { IfOk result (λ parts. new_arguments_of parts ≡ new_made (seen_scope scope.now) class arguments.now) }
{
    let Some(class) = class else {
        return Ok(NewArgs::End);
    };
    check_made(scope.grammar, place, class, arguments.len(), faults);
    type_each(alloc, scope, place, class, 0, arguments, faults)
}

// The right side of an equation of a higher-order attribute that is no `new`.
fn type_other(
    alloc: Global,
    scope: &Scope<'_>,
    expr: &Expr,
    wanted: Kind,
    faults: &mut Earliest,
) -> Result<TExpr, Memory>
    requires { IsScope (seen_scope scope.now) }
    ensures noted { OnOk result (Notes (other_broken (seen_scope scope.now) wanted (seen_expr expr.now)) faults.old faults.new) }
    ensures says { IfOk result (λ e. expression_of e ≡ body_of (seen_scope scope.now) (seen_expr expr.now)) }
{
    let said = type_operand(alloc, scope, expr, Stands::Anywhere, wanted, faults)?;
    faults.note(Rule::J12, place_of(expr));
    Ok(said)
}

/// The right side of an equation of a higher-order attribute, of which a type is wanted. It goes down the `new`s, which have at most 400 tokens.
pub fn type_created(
    alloc: Global,
    scope: &Scope<'_>,
    expr: &Expr,
    wanted: Kind,
    faults: &mut Earliest,
) -> Result<TExpr, Memory>
    requires { IsScope (seen_scope scope.now) }
    ensures noted { OnOk result (Notes (created_broken (seen_scope scope.now) wanted (seen_expr expr.now)) faults.old faults.new) }
    ensures says { IfOk result (λ e. expression_of e ≡ created_said (seen_scope scope.now) (seen_expr expr.now)) }
{
    match expr {
        Expr::New(place, name, arguments) => {
            let class = check_class(scope.grammar, name, faults);
            let arguments = type_new(alloc, scope, *place, class, arguments, faults)?;
            let part = Part {
                written: expr,
                value_type: type_of_class(class),
            };
            check_fit(scope.grammar, part, wanted, faults);
            let said = new_said(class, arguments);
            check_size(*place, &said, faults);
            Ok(said)
        }
        Expr::Truth(..)
        | Expr::Null(_)
        | Expr::Empty(_)
        | Expr::This(_)
        | Expr::Int(..)
        | Expr::Text(..)
        | Expr::Source(..)
        | Expr::Variable(_)
        | Expr::Call(..)
        | Expr::Member(..)
        | Expr::Quantified(..)
        | Expr::Group(..)
        | Expr::Cast(..)
        | Expr::Not(..)
        | Expr::Negate(..)
        | Expr::Binary(..)
        | Expr::InstanceOf(..)
        | Expr::If(..) => type_other(alloc, scope, expr, wanted, faults),
    }
}
