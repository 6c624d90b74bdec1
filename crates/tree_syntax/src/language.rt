// The language of the texts of trees.
ghost use Rattle.std.specs.Prelude.{◌≡◌};
ghost use Rattle.tree_syntax.specs.Tokens.{sign_class, word_class};

use crate::tree_table::{TREE_BODIES, TREE_CHOICE, TREE_OF, TREE_STARTS};
use ll_parser::Table;
use rag_io::{Token, TokenKind};
use sentences::Language;

// The class of a word, in the numbers of the grammar.
fn word_class(text: &[u8]) -> u8
    ensures { result ≡ word_class text.now }
{
    if text == b"true".as_slice() {
        2
    } else if text == b"false".as_slice() {
        3
    } else {
        1
    }
}

// The class of a sign. The last is that of the signs that stand in no tree.
fn sign_class(text: &[u8]) -> u8
    ensures { result ≡ sign_class text.now }
{
    if text == b"(".as_slice() {
        6
    } else if text == b")".as_slice() {
        7
    } else if text == b"[".as_slice() {
        8
    } else if text == b"]".as_slice() {
        9
    } else if text == b",".as_slice() {
        10
    } else if text == b"-".as_slice() {
        11
    } else {
        12
    }
}

// The language of the text of a tree.
pub(crate) struct TreeLanguage;

impl Language for TreeLanguage {
    ghost use Rattle.std.proofs.Common.{ap, refl};
    ghost use Rattle.ll_parser.specs.Stack.{choice_of};
    ghost use Rattle.tree_syntax.specs.Tokens.{class_of_parts, token_class};
    ghost use Rattle.tree_syntax.specs.TreeClaims.{tree_claims};
    ghost use Rattle.tree_syntax.specs.TreeGrammar.{tree_grammar};
    ghost use Rattle.tree_syntax.specs.declared.tree_table.TheConstants.{TREE_CHOICE};

    ghost class = { λ _. token_class };

    ghost start = { λ _. 0 };

    ghost grammar = { tree_grammar };

    ghost choice = { choice_of TREE_CHOICE };

    ghost claims = { tree_claims (choice_of TREE_CHOICE) };

    fn class_of(&self, token: &Token<'_>) -> u8 {
        match token.kind {
            TokenKind::Name => word_class(token.text),
            TokenKind::Symbol => sign_class(token.text),
            TokenKind::End => 0,
            TokenKind::Int => 5,
            TokenKind::Text => 4,
        }
    }

    fn start(&self) -> u8 {
        0
    }

    fn table() -> Table<'static> {
        Table {
            of: &TREE_OF,
            starts: &TREE_STARTS,
            bodies: &TREE_BODIES,
            choice: &TREE_CHOICE,
        }
    }

    ghost ends = { λ _ t is. ap (λ k. class_of_parts k t.text) is };

    ghost works = { λ _. record { fits = refl; same = λ n t. refl } };
}
