// The reader of the text of a tree.
ghost use Rattle.std.specs.Prelude.{◌≡◌, IfOk};
ghost use Rattle.broken_rules.specs.Notes.{Notes};
ghost use Rattle.rag_io.specs.Tokens.{AreTokens, seen_tokens};
ghost use Rattle.token_texts.specs.Texts.{Extends, pooled_texts};
ghost use Rattle.tree_syntax.specs.Written.{Written, Writes};
ghost use Rattle.tree_reader.specs.Breaking.{root_broken};
ghost use Rattle.tree_reader.specs.Reading.{ReadsTree};

use crate::misplaced::is_apart;
use crate::steps::lay_tree;
use ast_grammar::Grammar;
use broken_rules::{Earliest, ReadFault, Rule};
use rag_io::{Pool, Token};
use std::alloc::Global;
use token_texts::{place_of, pool_texts};
use tree_arena::Tree;
use tree_syntax::check_syntax;

// Notes where the root is neither of the first class nor of a subclass. It begins with the first token.
fn note_root(grammar: &Grammar, tokens: &[Token<'_>], broken: &mut Earliest)
    ensures { (w : Written) → Writes (seen_tokens tokens.now) w → Notes (root_broken grammar.now w) broken.old broken.new }
{
    if let Some(name) = tokens.first() {
        let class = grammar.find_class(name.text);
        broken.note_if(
            is_apart(grammar, class, grammar.first_class()),
            Rule::N6,
            place_of(name),
        );
    }
}

/// The tree that the tokens of a tree's text say over a grammar, or the first broken rule. Its texts go into the pool, which holds what it
/// held and perhaps further texts last, in a refusal too.
///
/// The first phase is the syntax (N1). What is a sentence is checked in one phase, of which the earliest place counts, and at one place the
/// lowest number:
/// - a node's class is known and not abstract (N2), and it has one argument for each component, inherited ones first (N3);
/// - a child is one node, a list stands in brackets, an optional stands in brackets and is one node or none, and each of these nodes is of
///   the component's class or a subclass (N4);
/// - a token is a text, an integer from -2,147,483,648 to 2,147,483,647 or a truth value, as its type says (N5);
/// - the root is of the first class or a subclass (N6);
/// - there are at most 65,536 nodes, and at most 65,536 texts in the pool (N7).
///
/// This takes time and memory in proportion to the bytes of the tokens, and recurses on nothing.
pub fn read_tree(
    alloc: Global,
    grammar: &Grammar,
    tokens: &[Token<'_>],
    pool: &mut Pool,
) -> Result<Tree, ReadFault>
    requires { AreTokens (seen_tokens tokens.now) }
    ensures says { ReadsTree grammar.now pool.old (seen_tokens tokens.now) result }
    ensures pooled { IfOk result (λ _. pool.new ≡ pooled_texts pool.old (seen_tokens tokens.now)) }
    ensures extends { Extends pool.old pool.new }
{
    check_syntax(alloc, tokens)?;
    let mut broken = Earliest::new();
    let texts = pool_texts(alloc, tokens, pool, Rule::N7, &mut broken)?;
    note_root(grammar, tokens, &mut broken);
    let laying = lay_tree(alloc, grammar, tokens, &texts, broken)?;
    laying.broken.answer()?;
    // A grammar has few components for a class.
    let _classes = grammar.classes();
    Ok(Tree::of_nodes(alloc, laying.nodes)?)
}
