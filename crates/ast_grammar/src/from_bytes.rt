// The reader of the bytes of `.ast` files.
ghost use Rattle.std.specs.Prelude.{◌≤◌, length};
ghost use Rattle.rag_io.specs.Outside.{longest_file};
ghost use Rattle.ast_grammar.specs.FromBytes.{AnswersGrammar};

use crate::grammar::Grammar;
use crate::reading::read_ast;
use broken_rules::{ReadFault, Rule};
use sentences::tokens_of;
use std::alloc::Global;

/// The grammar that the bytes of an `.ast` file say, or the first broken rule: G1 at the first place at which no token begins, and else as
/// [`read_ast`] says.
pub fn read_ast_bytes(alloc: Global, bytes: &[u8]) -> Result<Grammar, ReadFault>
    requires { length bytes.now ≤ longest_file }
    ensures { AnswersGrammar bytes.now result }
{
    let tokens = tokens_of(alloc, bytes, Rule::G1)?;
    read_ast(alloc, &tokens)
}
