// The language of queries.
ghost use Rattle.std.specs.Prelude.{◌≡◌};
ghost use Rattle.program_reader.specs.Names.{is_name};
ghost use Rattle.program_reader.specs.Queries.{symbol_class};

use crate::query_table::{QUERY_BODIES, QUERY_CHOICE, QUERY_OF, QUERY_STARTS};
use ll_parser::Table;
use rag_io::{Token, TokenKind, is_left_out, is_reserved};
use sentences::Language;

// A word that aspects neither reserve nor leave out.
fn is_name(text: &[u8]) -> bool
    ensures { result ≡ is_name text.now }
{
    !(is_reserved(text) || is_left_out(text))
}

fn symbol_class(text: &[u8]) -> u8
    ensures { result ≡ symbol_class text.now }
{
    if text == b"@".as_slice() {
        3
    } else if text == b".".as_slice() {
        4
    } else if text == b"(".as_slice() {
        5
    } else if text == b")".as_slice() {
        6
    } else {
        7
    }
}

// The language of a query's line.
pub(crate) struct QueryLanguage;

impl Language for QueryLanguage {
    ghost use Rattle.std.proofs.Common.{ap, refl};
    ghost use Rattle.ll_parser.specs.Stack.{choice_of};
    ghost use Rattle.program_reader.specs.Queries.{class_of_parts, query_class};
    ghost use Rattle.program_reader.specs.QueryClaims.{query_claims};
    ghost use Rattle.program_reader.specs.QueryGrammar.{query_grammar};
    ghost use Rattle.program_reader.specs.declared.query_table.TheConstants.{QUERY_CHOICE};

    ghost class = { λ _. query_class };

    ghost start = { λ _. 0 };

    ghost grammar = { query_grammar };

    ghost choice = { choice_of QUERY_CHOICE };

    ghost claims = { query_claims (choice_of QUERY_CHOICE) };

    fn class_of(&self, token: &Token<'_>) -> u8 {
        match token.kind {
            TokenKind::Name => { if is_name(token.text) { 1 } else { 7 } }
            TokenKind::Int => 2,
            TokenKind::Text => 7,
            TokenKind::Symbol => symbol_class(token.text),
            TokenKind::End => 0,
        }
    }

    fn start(&self) -> u8 {
        0
    }

    fn table() -> Table<'static> {
        Table {
            of: &QUERY_OF,
            starts: &QUERY_STARTS,
            bodies: &QUERY_BODIES,
            choice: &QUERY_CHOICE,
        }
    }

    ghost ends = { λ _ t is. ap (λ k. class_of_parts k t.text) is };

    ghost works = { λ _. record { fits = refl; same = λ n t. refl } };
}
