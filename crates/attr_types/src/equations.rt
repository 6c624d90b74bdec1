// The right sides of equations, and the expressions of contributions: what they break, and what they say.
ghost use Rattle.std.specs.Prelude.{◌≡◌, ◌++◌, ◌∷◌, [], IfOk, OnOk, length, map};
ghost use Rattle.ast_grammar.specs.Grammar.{superclasses_of};
ghost use Rattle.broken_rules.specs.Answers.{Ends};
ghost use Rattle.broken_rules.specs.Notes.{Notes};
ghost use Rattle.attr_equations.specs.KeptContributions.{AreNumbered, contribution_in};
ghost use Rattle.attr_equations.specs.KeptEquations.{equation_in};
ghost use Rattle.attr_types.specs.Phases.{creates, equated_broken, equated_said, equation_broken, equation_of, wanted_by};
ghost use Rattle.attr_types.specs.Written as written;
ghost use Rattle.aspect_items.specs.Expressions.{seen_expr};
ghost use Rattle.attr_rules.specs.Expression.{expression_of};
ghost use Rattle.attr_scope.specs.ScopeKept.{IsScope};
ghost use Rattle.attr_scope.specs.Seen.{seen_given, seen_scope};
ghost use Rattle.attr_heads.specs.Targets.{target_given, targets_of};

use crate::both_sides::said_for;
use crate::contributions::type_contributions;
use aspect_items::{Contribution, Expr};
use ast_grammar::Grammar;
use attr_bodies::{type_created, type_operand};
use attr_equations::{KeptContribution, KeptEquation};
use attr_heads::equation_names;
use attr_rules::{Attributes, Kind, TExpr, Target};
use attr_scope::{Given, Scope};
use broken_rules::{Earliest, ReadFault};
use expr_typing::Stands;
use rag_io::Memory;
use std::alloc::Global;

// The type that an equation has to fit.
fn wanted_by(attributes: &Attributes, target: Target) -> Kind
    ensures { result ≡ wanted_by attributes.now.attributes target }
{
    if u32::from(target.attribute.0) < attributes.len() {
        attributes.attr(target.attribute).kind
    } else {
        Kind::Truth
    }
}

// The attribute of the target is higher-order.
fn creates(attributes: &Attributes, target: Target) -> bool
    ensures { result ≡ creates attributes.now.attributes target }
{
    u32::from(target.attribute.0) < attributes.len()
        && attributes.attr(target.attribute).sort.is_higher_order()
}

// The right side of an equation, which has to fit a type. That of a higher-order attribute makes a tree.
fn type_body(
    alloc: Global,
    scope: &Scope<'_>,
    body: &Expr,
    higher_order: bool,
    wanted: Kind,
    faults: &mut Earliest,
) -> Result<TExpr, Memory>
    requires { IsScope (seen_scope scope.now) }
    ensures noted { OnOk result (Notes (equated_broken higher_order (seen_scope scope.now) wanted (seen_expr body.now)) faults.old faults.new) }
    ensures says { IfOk result (λ e. expression_of e ≡ equated_said higher_order (seen_scope scope.now) (seen_expr body.now)) }
{
    if higher_order {
        return type_created(alloc, scope, body, wanted, faults);
    }
    type_operand(alloc, scope, body, Stands::Anywhere, wanted, faults)
}

// What an equation breaks, which is for this, and what it says.
fn check_body(
    alloc: Global,
    grammar: &Grammar,
    attributes: &Attributes,
    equation: &Given<'_>,
    target: Target,
    faults: &mut Earliest,
) -> Result<KeptEquation, Memory>
    requires attributes { attributes.now.superclasses ≡ superclasses_of grammar.now }
    requires target { target ≡ target_given grammar.now attributes.now.attributes (seen_given equation.now) }
    ensures noted { OnOk result (Notes (equation_broken grammar.now attributes.now.attributes (seen_given equation.now)) faults.old faults.new) }
    ensures says { IfOk result (λ e. equation_in e ≡ equation_of grammar.now attributes.now.attributes (seen_given equation.now)) }
{
    let variables = equation_names(
        alloc,
        grammar,
        attributes,
        equation.attribute,
        equation.path,
        target.reach,
    )?;
    let scope = Scope {
        grammar,
        attributes,
        class: target.class,
        variables: &variables,
    };
    let wanted = wanted_by(attributes, target);
    let creates = creates(attributes, target);
    let body = type_body(alloc, &scope, equation.body, creates, wanted, faults)?;
    let body = said_for(attributes, target.attribute, body);
    Ok(KeptEquation { target, body })
}

fn push(list: &mut Vec<KeptEquation>, equation: KeptEquation) -> Result<(), Memory>
    ensures { OnOk result (list.new.items ≡ list.old.items ++ equation ∷ []) }
{
    list.push(equation).map_err(|_| Memory)
}

// The equations for these. Notes what their right sides break.
fn type_equations(
    alloc: Global,
    grammar: &Grammar,
    attributes: &Attributes,
    equations: &[Given<'_>],
    targets: &[Target],
    faults: &mut Earliest,
) -> Result<Vec<KeptEquation>, Memory>
    requires attributes { attributes.now.superclasses ≡ superclasses_of grammar.now }
    requires targets { targets.now ≡ targets_of grammar.now attributes.now.attributes (map seen_given equations.now) }
    ensures noted { OnOk result (Notes (written.equations_broken grammar.now attributes.now equations.now) faults.old faults.new) }
    ensures says { IfOk result (λ list. map equation_in list.items ≡ written.equations grammar.now attributes.now equations.now) }
{
    let mut list = Vec::new(alloc);
    for (equation, target) in equations.iter().zip(targets) {
        let body = check_body(alloc, grammar, attributes, equation, *target, faults)?;
        push(&mut list, body)?;
    }
    Ok(list)
}

// How many they are. Equations go by numbers of 32 bits.
fn count_of(equations: &[KeptEquation]) -> Result<u32, Memory>
    ensures { IfOk result (λ count. count ≡ length equations.now) }
{
    match u32::try_from(equations.len()) {
        Ok(count) => Ok(count),
        Err(_) => Err(Memory),
    }
}

/// Equations and contributions with their expressions.
#[derive(Drop)]
pub(crate) struct Bodies {
    pub equations: Vec<KeptEquation>,
    pub contributions: Vec<KeptContribution>,
}

/// The phase of expressions: the equations for these and the contributions, where no rule on expressions is broken.
pub(crate) fn check_bodies(
    alloc: Global,
    grammar: &Grammar,
    attributes: &Attributes,
    equations: &[Given<'_>],
    targets: &[Target],
    contributions: &[&Contribution],
) -> Result<Bodies, ReadFault>
    requires attributes { attributes.now.superclasses ≡ superclasses_of grammar.now }
    requires targets { targets.now ≡ targets_of grammar.now attributes.now.attributes (map seen_given equations.now) }
    ensures phase { Ends (written.bodies_broken grammar.now attributes.now equations.now contributions.now) result }
    ensures says { IfOk result (λ bodies. map equation_in bodies.equations.items ≡ written.equations grammar.now attributes.now equations.now) }
    ensures numbered { IfOk result (λ bodies. AreNumbered (length bodies.equations.items) bodies.contributions.items) }
    ensures offered { IfOk result (λ bodies. map contribution_in bodies.contributions.items ≡ written.offers grammar.now attributes.now contributions.now) }
{
    let mut faults = Earliest::new();
    let list = type_equations(alloc, grammar, attributes, equations, targets, &mut faults)?;
    let count = count_of(&list)?;
    let offered = type_contributions(
        alloc,
        grammar,
        attributes,
        count,
        contributions,
        &mut faults,
    )?;
    faults.answer()?;
    Ok(Bodies {
        equations: list,
        contributions: offered,
    })
}
