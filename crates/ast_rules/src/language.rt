// The language of `.ast` files.
ghost use Rattle.std.specs.Prelude.{◌≡◌};
ghost use Rattle.ast_rules.specs.Tokens.{sign_class, word_class};

use crate::ast_table::{AST_BODIES, AST_CHOICE, AST_OF, AST_STARTS};
use ll_parser::Table;
use rag_io::{Token, TokenKind};
use sentences::Language;

// The class of a token that stands in no rule, of the sign that begins an optional, and of the end.
const OTHER: u8 = 11;

pub(crate) const OPTIONAL: u8 = 7;

pub(crate) const END: u8 = 0;

// The class of a word, in the numbers of the grammar.
fn word_class(text: &[u8]) -> u8
    ensures { result ≡ word_class text.now }
{
    if text == b"abstract".as_slice() { 2 } else { 1 }
}

// The class of a sign.
fn sign_class(text: &[u8]) -> u8
    ensures { result ≡ sign_class text.now }
{
    if text == b":".as_slice() {
        3
    } else if text == b"::=".as_slice() {
        4
    } else if text == b";".as_slice() {
        5
    } else if text == b"*".as_slice() {
        6
    } else if text == b"[".as_slice() {
        OPTIONAL
    } else if text == b"]".as_slice() {
        8
    } else if text == b"<".as_slice() {
        9
    } else if text == b">".as_slice() {
        10
    } else {
        OTHER
    }
}

// The language of the rules of an `.ast` file.
pub(crate) struct AstLanguage;

impl Language for AstLanguage {
    ghost use Rattle.std.proofs.Common.{ap, refl};
    ghost use Rattle.ll_parser.specs.Stack.{choice_of};
    ghost use Rattle.ast_rules.specs.AstClaims.{ast_claims};
    ghost use Rattle.ast_rules.specs.AstGrammar.{ast_grammar};
    ghost use Rattle.ast_rules.specs.Tokens.{class_of_parts, token_class};
    ghost use Rattle.ast_rules.specs.declared.ast_table.TheConstants.{AST_CHOICE};

    ghost class = { λ _. token_class };

    ghost start = { λ _. 0 };

    ghost grammar = { ast_grammar };

    ghost choice = { choice_of AST_CHOICE };

    ghost claims = { ast_claims (choice_of AST_CHOICE) };

    fn class_of(&self, token: &Token<'_>) -> u8 {
        match token.kind {
            TokenKind::Name => word_class(token.text),
            TokenKind::Symbol => sign_class(token.text),
            TokenKind::End => END,
            TokenKind::Int => OTHER,
            TokenKind::Text => OTHER,
        }
    }

    fn start(&self) -> u8 {
        0
    }

    fn table() -> Table<'static> {
        Table {
            of: &AST_OF,
            starts: &AST_STARTS,
            bodies: &AST_BODIES,
            choice: &AST_CHOICE,
        }
    }

    ghost ends = { λ _ t is. ap (λ k. class_of_parts k t.text) is };

    ghost works = { λ _. record { fits = refl; same = λ n t. refl } };
}
