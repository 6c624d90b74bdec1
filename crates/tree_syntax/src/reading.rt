// The check of the syntax of tree texts.
ghost use Rattle.std.specs.Prelude.{map};
ghost use Rattle.rag_io.specs.Tokens.{AreTokens, seen_tokens};
ghost use Rattle.ll_parser.specs.Sentences.{FirstFault};
ghost use Rattle.tree_syntax.specs.Reading.{ChecksSyntax, IsSyntaxFault};
ghost use Rattle.tree_syntax.specs.Tokens.{token_class};
ghost use Rattle.tree_syntax.specs.TreePrintedGrammar.{tree_printed_grammar};

use crate::language::TreeLanguage;
use broken_rules::{Broken, ReadFault, Rule};
use ll_parser::ParseFault;
use rag_io::{Place, Token};
use sentences::parse_tokens;
use std::alloc::Global;

// The rule that is broken at the token of this number, with which the tokens begin no sentence.
fn syntax_fault(tokens: &[Token<'_>], number: usize) -> Broken
    requires { FirstFault tree_printed_grammar 0 (map token_class (seen_tokens tokens.now)) number }
    ensures { IsSyntaxFault (seen_tokens tokens.now) result }
{
    let token = &tokens[number];
    Broken {
        place: Place {
            line: token.line,
            column: token.column,
        },
        rule: Rule::N1,
    }
}

/// Checks that the tokens write one node, as `Name(arguments)`. An argument is a node, nodes in brackets, a text, an integer with or without
/// `-` before it, `true` or `false`; where `(` stands behind such a word, it names a node. Where the tokens write none, N1 is broken at the
/// first token such that the tokens up to it begin no text of a tree: at the end of the file where the text breaks off.
///
/// The time is linear in the number of tokens, and so is the memory. Nodes may be nested to any depth.
pub fn check_syntax(alloc: Global, tokens: &[Token<'_>]) -> Result<(), ReadFault>
    requires { AreTokens (seen_tokens tokens.now) }
    ensures { ChecksSyntax (seen_tokens tokens.now) result }
{
    let mut events = Vec::new(alloc);
    match parse_tokens(alloc, &TreeLanguage, tokens, &mut events) {
        Ok(()) => Ok(()),
        Err(ParseFault::At(number)) => Err(ReadFault::Broken(syntax_fault(tokens, number))),
        Err(ParseFault::OutOfMemory) => Err(ReadFault::Memory),
    }
}
