// The reader of the bytes of tree files.
ghost use Rattle.std.specs.Prelude.{◌≤◌, length};
ghost use Rattle.rag_io.specs.Outside.{longest_file};
ghost use Rattle.token_texts.specs.Texts.{Extends};
ghost use Rattle.tree_reader.specs.FromBytes.{AnswersTree};

use crate::reading::read_tree;
use ast_grammar::Grammar;
use broken_rules::{ReadFault, Rule};
use rag_io::Pool;
use sentences::tokens_of;
use std::alloc::Global;
use tree_arena::Tree;

/// The tree that the bytes of a tree file say over a grammar, whose texts go into the pool, or the first broken rule: N1 at the first place at
/// which no token begins, and else as [`read_tree`] says. After a refusal the pool holds what it held, and perhaps further texts last.
pub fn read_tree_bytes(
    alloc: Global,
    grammar: &Grammar,
    bytes: &[u8],
    pool: &mut Pool,
) -> Result<Tree, ReadFault>
    requires { length bytes.now ≤ longest_file }
    ensures says { AnswersTree grammar.now pool.old bytes.now pool.new result }
    ensures extends { Extends pool.old pool.new }
{
    let tokens = tokens_of(alloc, bytes, Rule::N1)?;
    read_tree(alloc, grammar, &tokens, pool)
}
