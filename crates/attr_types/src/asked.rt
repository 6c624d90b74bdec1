// Queries of one call.
ghost use Rattle.std.specs.Prelude.{◌≡◌, IfOk};
ghost use Rattle.std.specs.Option.{option_map};
ghost use Rattle.ast_grammar.specs.Grammar.{superclasses_of};
ghost use Rattle.attr_equations.specs.Kept.{rules_in};
ghost use Rattle.attr_rules.specs.Queries.{query_of};
ghost use Rattle.attr_types.specs.Asked.{query_named};

use ast_grammar::{ClassId, Grammar};
use attr_equations::Rules;
use attr_rules::{QueryEq, TArgs, TExpr};
use attr_scope::Scope;
use expr_typing::called;
use rag_io::{Memory, Place};
use std::alloc::Global;

/// The query `@node.name()` at a source node of a class: the attribute of this name, or the accessor. None where the class has neither, or
/// the name takes an argument or stands for a whole list. `place` is that of the name.
pub fn query_of_call(
    alloc: Global,
    grammar: &Grammar,
    rules: &Rules,
    node: u32,
    class: ClassId,
    name: &[u8],
    place: Place,
) -> Result<Option<QueryEq>, Memory>
    requires { (rules_in rules.now).superclasses ≡ superclasses_of grammar.now }
    ensures { IfOk result (λ q. option_map query_of q ≡ query_named grammar.now (rules_in rules.now) node class name.now place) }
{
    let scope = Scope {
        grammar,
        attributes: rules.attributes(),
        class,
        variables: &[],
    };
    let Some(member) = scope.member_of(name, 0, class) else {
        return Ok(None);
    };
    if !scope.takes(member, 0) {
        return Ok(None);
    }
    let Some(value_type) = scope.type_called(member) else {
        return Ok(None);
    };
    let receiver = TExpr::Source(node);
    let body = called(alloc, Some(member), receiver, TArgs::End, place)?;
    Ok(Some(QueryEq::of(body, value_type.kept_kind())))
}
