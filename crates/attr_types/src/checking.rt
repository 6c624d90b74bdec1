// Aspects over a grammar, checked.
ghost use Rattle.std.specs.Prelude.{◌≡◌, IfOk};
ghost use Rattle.broken_rules.specs.Answers.{Says};
ghost use Rattle.attr_equations.specs.Kept.{rules_in};
ghost use Rattle.attr_types.specs.Phases.{phases_of, rules_of};
ghost use Rattle.attr_types.specs.Written as written;
ghost use Rattle.aspect_items.specs.Items.{seen_aspects};

use crate::equations::check_bodies;
use aspect_items::{Aspects, Contribution};
use ast_grammar::Grammar;
use attr_coverage::check_completeness;
use attr_equations::Rules;
use attr_heads::{check_heads, check_targets};
use attr_rules::Dispatch;
use attr_scope::{Given, Head, contributions, declarations, givens};
use broken_rules::ReadFault;
use std::alloc::Global;

// The rules that these declarations, equations and contributions make.
fn check_written(
    alloc: Global,
    grammar: &Grammar,
    heads: &[Head<'_>],
    equations: &[Given<'_>],
    offered: &[&Contribution],
) -> Result<Rules, ReadFault>
    ensures phases { Says (written.phases grammar.now heads.now equations.now offered.now) result }
    ensures rules { IfOk result (λ rules. rules_in rules ≡ written.rule_set grammar.now heads.now equations.now offered.now) }
{
    let attributes = check_heads(alloc, grammar, heads)?;
    let targets = check_targets(alloc, grammar, &attributes, equations, offered)?;
    let dispatch = Dispatch::of_targets(alloc, grammar, attributes.len(), &targets)?;
    check_completeness(alloc, grammar, heads, equations, &attributes, &dispatch)?;
    let bodies = check_bodies(alloc, grammar, &attributes, equations, &targets, offered)?;
    match Rules::of_parts(
        alloc,
        attributes,
        dispatch,
        bodies.equations,
        bodies.contributions,
    ) {
        Ok(rules) => Ok(rules),
        Err(_) => Err(ReadFault::Memory),
    }
}

/// Checks aspects over a grammar, and makes their rules. Attributes, equations and contributions are
/// numbered in the order of the file; the equation in a declaration is one of them.
///
/// There are four phases, and the first that finds a broken rule decides. Declarations: the class is one of the grammar, and so is the root
/// class of a collection (J2); no attribute is declared a second time for a class, a superclass or a subclass, or has the spelling of an
/// accessor there (J3); its type is one (J4); a circular one is of `boolean` and has the bottom `false`, or of a set and has the bottom
/// `empty`, and isn't higher-order, whose type is a class, and of a collection the type, the fresh value and the method go together (J13); inherited attributes of one name have
/// one type and the same parameters, and are circular or not alike (J15); there are at most 1,024 (J17). What equations are for: the
/// class is one of the grammar (J2); the path leads somewhere (J9); the class has the attribute, or with a path some class inherits it (J5);
/// no equation before is for the same (J6); the parameters are those of the attribute (J15); of a contribution both classes are of the grammar
/// (J2), and the second has the collection (J14). In both the parameters of a head have names of
/// their own (J3) and types that are no sets (J4), and a parenthesis has at most three (J17). Completeness: each concrete class has an
/// equation for each of its attributes, of its own or of a superclass (J7), and no inherited attribute can be met uncovered (J8).
/// Expressions: classes are of the grammar (J2), names mean something (J9), types fit (J10), calls have as many arguments as are wanted (J11),
/// a `new` is the right side of an equation of a higher-order attribute, or stands for a child of one, and has what the components want (J12),
/// no more than 16 nodes and 16 token values, and integer literals have 32 bits (J17).
pub fn check(alloc: Global, grammar: &Grammar, aspects: &Aspects) -> Result<Rules, ReadFault>
    ensures phases { Says (phases_of grammar.now (seen_aspects aspects.now)) result }
    ensures rules { IfOk result (λ rules. rules_in rules ≡ rules_of grammar.now (seen_aspects aspects.now)) }
{
    let heads = declarations(alloc, &aspects.items)?;
    let equations = givens(alloc, &aspects.items)?;
    let offered = contributions(alloc, &aspects.items)?;
    check_written(alloc, grammar, &heads, &equations, &offered)
}
