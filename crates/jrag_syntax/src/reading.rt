// The reader of the syntax of aspects.
ghost use Rattle.std.specs.Prelude.{◌≡◌, []};
ghost use Rattle.rag_io.specs.Tokens.{AreTokens, seen_token, seen_tokens};
ghost use Rattle.jrag_syntax.specs.Reading.{LeavesEvents, is_left_out_part, syntax_rule};

use crate::classes::Start;
use broken_rules::{Broken, ReadFault, Rule};
use ll_parser::ParseFault;
use rag_io::{Place, Token, TokenKind, is_left_out};
use sentences::parse_tokens;
use std::alloc::Global;

// Whether the token is a left-out word, or the `{` of a body in Java.
fn is_left_out_part(token: &Token<'_>) -> bool
    ensures { result ≡ is_left_out_part (seen_token token.now).kind (seen_token token.now).text }
{
    match token.kind {
        TokenKind::Name => is_left_out(token.text),
        TokenKind::Symbol => token.text == b"{".as_slice(),
        TokenKind::End | TokenKind::Int | TokenKind::Text => false,
    }
}

// The rule that a syntax fault at this token breaks.
fn broken_at(token: &Token<'_>) -> Broken
    ensures place { result.place ≡ (seen_token token.now).place }
    ensures rule { result.rule ≡ syntax_rule (seen_token token.now) }
{
    let rule = if is_left_out_part(token) {
        Rule::J16
    } else {
        Rule::J1
    };
    Broken {
        place: Place {
            line: token.line,
            column: token.column,
        },
        rule,
    }
}

/// Pushes to `events`, which is empty, the events of the tokens' only reading; the actions of the grammar have the numbers of
/// tools/jrag.grammar, and each token is a 255. Where the tokens are no sentence, a rule is broken at the first token such that the
/// tokens up to it begin none: J16 where it is `{` or a left-out word, and else J1. Then the events are those of the tokens before it.
///
/// The time is linear in the number of tokens, and so is the memory. Expressions may be nested to any depth.
pub fn push_events(
    alloc: Global,
    tokens: &[Token<'_>],
    start: Start,
    events: &mut Vec<u8>,
) -> Result<(), ReadFault>
    requires tokens { AreTokens (seen_tokens tokens.now) }
    requires fresh { events.old.items ≡ [] }
    ensures { LeavesEvents start (seen_tokens tokens.now) result events.new.items }
{
    match parse_tokens(alloc, &start, tokens, events) {
        Ok(()) => Ok(()),
        Err(ParseFault::At(number)) => Err(ReadFault::Broken(broken_at(&tokens[number]))),
        Err(ParseFault::OutOfMemory) => Err(ReadFault::Memory),
    }
}
