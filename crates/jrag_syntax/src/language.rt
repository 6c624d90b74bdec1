// The language of aspects and of single expressions.

use crate::classes::{Start, class_of};
use crate::jrag_table::{JRAG_BODIES, JRAG_CHOICE, JRAG_OF, JRAG_STARTS};
use ll_parser::Table;
use rag_io::Token;
use sentences::Language;

impl Language for Start {
    ghost use Rattle.std.proofs.Common.{ap};
    ghost use Rattle.ll_parser.specs.Stack.{choice_of};
    ghost use Rattle.jrag_syntax.specs.JragClaims.{jrag_claims};
    ghost use Rattle.jrag_syntax.specs.JragFits.{jrag_works};
    ghost use Rattle.jrag_syntax.specs.JragGrammar.{jrag_grammar};
    ghost use Rattle.jrag_syntax.specs.Reading.{nonterminal_of};
    ghost use Rattle.jrag_syntax.specs.Tokens.{class_of_parts, token_class};
    ghost use Rattle.jrag_syntax.specs.declared.jrag_table.TheConstants.{JRAG_CHOICE};

    ghost class = { token_class };

    ghost start = { nonterminal_of };

    ghost grammar = { jrag_grammar };

    ghost choice = { choice_of JRAG_CHOICE };

    ghost claims = { jrag_claims (choice_of JRAG_CHOICE) };

    fn class_of(&self, token: &Token<'_>) -> u8 {
        class_of(*self, token)
    }

    fn start(&self) -> u8 {
        match self {
            Start::File => 0,
            Start::Expression => 1,
        }
    }

    fn table() -> Table<'static> {
        Table {
            of: &JRAG_OF,
            starts: &JRAG_STARTS,
            bodies: &JRAG_BODIES,
            choice: &JRAG_CHOICE,
        }
    }

    ghost ends = { λ start t is. ap (λ k. class_of_parts start k t.text) is };

    ghost works = { jrag_works };
}
