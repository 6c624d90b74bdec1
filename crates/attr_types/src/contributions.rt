// The expressions of contributions: what they break, and what they say.
ghost use Rattle.std.specs.Prelude.{◌≡◌, ◌++◌, ◌∷◌, [], IfOk, OnOk, map};
ghost use Rattle.std.specs.Option.{option_map};
ghost use Rattle.ast_grammar.specs.Grammar.{superclasses_of};
ghost use Rattle.broken_rules.specs.Notes.{Notes};
ghost use Rattle.attr_equations.specs.KeptContributions.{AreNumbered, condition_typed, contribution_in, contribution_typed};
ghost use Rattle.attr_types.specs.Phases.{condition_broken, condition_said, contribution_of, expressions_broken, wanted_from};
ghost use Rattle.attr_types.specs.Written as written;
ghost use Rattle.attr_scope.specs.ScopeKept.{IsScope};
ghost use Rattle.attr_scope.specs.Seen.{seen_scope};
ghost use Rattle.aspect_items.specs.Expressions.{seen_expr};
ghost use Rattle.aspect_items.specs.Items.{seen_contribution};

use aspect_items::{Contribution, Expr};
use ast_grammar::Grammar;
use attr_bodies::type_operand;
use attr_equations::{KeptContribution, TypedContribution, add_contribution};
use attr_heads::aim_of;
use attr_rules::{AttrId, Attributes, Kind, TExpr};
use attr_scope::Scope;
use broken_rules::Earliest;
use expr_typing::Stands;
use rag_io::Memory;
use std::alloc::Global;

// The type that a value has to fit which is contributed to an attribute.
fn wanted_from(attributes: &Attributes, collection: AttrId) -> Kind
    ensures { result ≡ wanted_from attributes.now.attributes collection.0 }
{
    if u32::from(collection.0) >= attributes.len() {
        return Kind::Truth;
    }
    let kind = attributes.attr(collection).kind;
    match attributes.collecting(collection) {
        Some(collecting) => collecting.method.contributed(kind),
        None => kind,
    }
}

// A condition, where one is written.
fn type_condition(
    alloc: Global,
    scope: &Scope<'_>,
    condition: &Option<Expr>,
    faults: &mut Earliest,
) -> Result<Option<TExpr>, Memory>
    requires { IsScope (seen_scope scope.now) }
    ensures noted { OnOk result (Notes (condition_broken (seen_scope scope.now) (option_map seen_expr condition.now)) faults.old faults.new) }
    ensures says { IfOk result (λ e. condition_typed e ≡ condition_said (seen_scope scope.now) (option_map seen_expr condition.now)) }
{
    let Some(condition) = condition else {
        return Ok(None);
    };
    let wanted = Kind::Truth;
    let typed = type_operand(alloc, scope, condition, Stands::Anywhere, wanted, faults)?;
    Ok(Some(typed))
}

// The expressions of a contribution.
fn type_contribution(
    alloc: Global,
    grammar: &Grammar,
    attributes: &Attributes,
    contribution: &Contribution,
    faults: &mut Earliest,
) -> Result<TypedContribution, Memory>
    requires { attributes.now.superclasses ≡ superclasses_of grammar.now }
    ensures noted { OnOk result (Notes (expressions_broken grammar.now attributes.now.attributes (seen_contribution contribution.now)) faults.old faults.new) }
    ensures says { IfOk result (λ c. contribution_typed c ≡ contribution_of grammar.now attributes.now.attributes (seen_contribution contribution.now)) }
{
    let aim = aim_of(grammar, attributes, contribution);
    let scope = Scope {
        grammar,
        attributes,
        class: aim.contributor,
        variables: &[],
    };
    let condition = type_condition(alloc, &scope, &contribution.condition, faults)?;
    let wanted = Kind::Node(aim.receiver);
    let receiver = &contribution.receiver;
    let receiver = type_operand(alloc, &scope, receiver, Stands::Anywhere, wanted, faults)?;
    let wanted = wanted_from(attributes, aim.collection);
    let value = &contribution.value;
    let value = type_operand(alloc, &scope, value, Stands::Anywhere, wanted, faults)?;
    Ok(TypedContribution {
        class: aim.contributor,
        target: aim.collection,
        condition,
        receiver,
        value,
    })
}

/// The contributions, with what their expressions say, behind so many equations. Notes what these break.
pub(crate) fn type_contributions(
    alloc: Global,
    grammar: &Grammar,
    attributes: &Attributes,
    equations: u32,
    contributions: &[&Contribution],
    faults: &mut Earliest,
) -> Result<Vec<KeptContribution>, Memory>
    requires { attributes.now.superclasses ≡ superclasses_of grammar.now }
    ensures noted { OnOk result (Notes (written.offers_broken grammar.now attributes.now contributions.now) faults.old faults.new) }
    ensures numbered { IfOk result (λ list. AreNumbered equations list.items) }
    ensures says { IfOk result (λ list. map contribution_in list.items ≡ written.offers grammar.now attributes.now contributions.now) }
{
    let mut list = Vec::new(alloc);
    for contribution in contributions {
        let typed = type_contribution(alloc, grammar, attributes, contribution, faults)?;
        add_contribution(&mut list, equations, typed)?;
    }
    Ok(list)
}
