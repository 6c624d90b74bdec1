// The reader of `.ast` files.
ghost use Rattle.rag_io.specs.Tokens.{AreTokens, seen_tokens};
ghost use Rattle.ast_grammar.specs.Reading.{ReadsAst};

use crate::building::build;
use crate::grammar::Grammar;
use ast_rules::{check_rules, read_rules};
use broken_rules::ReadFault;
use rag_io::Token;
use std::alloc::Global;

/// The grammar that the tokens of an `.ast` file say, or the first broken rule. The notation is that of the JastAdd2 manual: a rule is
/// `abstract NAME : SUPERCLASS ::= COMPONENT .. ;`, of which all but the name may be left out, and a component is a child `A`, a list
/// `A*`, an optional `[A]` or a token `<T:String>`, `<T:int>`, `<T:boolean>` or `<T>`, with a name of its own as in `name:A`.
///
/// The first phase that finds a broken rule decides, and of its broken rules the first by place:
/// - the tokens are such rules, one at least (G1), and none writes `/A/` (G9);
/// - no two classes have one name (G2), each superclass is a class (G3), so is the type of a child, list or optional (G5), a token has
///   one of the three types (G7), and no class or component is called by a reserved word, or by `ASTNode`, `List`, `Opt`, `Child` or
///   `Parent` (G8);
/// - no class is its own superclass, directly or through others (G4);
/// - no two components of a class, inherited ones included, have one name (G6), a grammar has at most 256 classes, and a class at most
///   16 components with the inherited ones (G10).
///
/// This takes time in proportion to the bytes of the tokens, and to `n log n` for `n` rules.
pub fn read_ast(alloc: Global, tokens: &[Token<'_>]) -> Result<Grammar, ReadFault>
    requires { AreTokens (seen_tokens tokens.now) }
    ensures { ReadsAst (seen_tokens tokens.now) result }
{
    let rules = read_rules(alloc, tokens)?;
    let numbers = check_rules(alloc, &rules)?;
    Ok(build(alloc, &rules, numbers)?)
}
