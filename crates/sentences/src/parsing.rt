// Tokens as sentences of a language.
ghost use Rattle.std.specs.Prelude.{◌≡◌, ◌<◌, ◌-◌, [], IfOk, length, map, slice_index_or};
ghost use Rattle.ll_parser.specs.Stack.{Parses};
ghost use Rattle.rag_io.specs.Tokens.{AreTokens, seen_tokens};
ghost use Rattle.sentences.specs.Sentences.{Recognizes};

use crate::language::Language;
use ll_parser::{ParseFault, parse};
use rag_io::{Memory, Token};
use std::alloc::Global;

/// The classes of tokens, in the numbers of the grammar.
pub fn classes_of<L: Language>(
    alloc: Global,
    language: &L,
    tokens: &[Token<'_>],
) -> Result<Vec<u8>, Memory>
    ensures { IfOk result (λ v. v.items ≡ map (L.class language.now) (seen_tokens tokens.now)) }
{
    let mut classes = Vec::with_capacity(alloc, tokens.len()).map_err(|_| Memory)?;
    for token in tokens {
        classes.push(language.class_of(token)).map_err(|_| Memory)?;
    }
    Ok(classes)
}

/// Reads tokens by their classes, the last of which is the end of the file. Ok leaves in `events` the events with which they are a sentence;
/// `At(i)` names the first token such that the tokens up to it begin none, and leaves the events before it.
pub fn parse_classes<L: Language>(
    alloc: Global,
    language: &L,
    classes: &[u8],
    events: &mut Vec<u8>,
) -> Result<(), ParseFault>
    requires some { 0 < length classes.now }
    requires ends { slice_index_or classes.now (length classes.now - 1) 1 ≡ 0 }
    requires fresh { events.old.items ≡ [] }
    ensures { Parses L.grammar (L.start language.now) classes.now result events.new.items }
{
    let table = L::table();
    parse(alloc, &table, language.start(), classes, events)
}

/// Reads the tokens of a file, as [`parse_classes`] does. The time and the memory are linear in the number of tokens, and sentences may be
/// nested to any depth.
pub fn parse_tokens<L: Language>(
    alloc: Global,
    language: &L,
    tokens: &[Token<'_>],
    events: &mut Vec<u8>,
) -> Result<(), ParseFault>
    requires tokens { AreTokens (seen_tokens tokens.now) }
    requires fresh { events.old.items ≡ [] }
    ensures { Parses L.grammar (L.start language.now) (map (L.class language.now) (seen_tokens tokens.now)) result events.new.items }
{
    match classes_of(alloc, language, tokens) {
        Ok(classes) => parse_classes(alloc, language, &classes, events),
        Err(_) => Err(ParseFault::OutOfMemory),
    }
}

/// The events of the sentence that the tokens are, or None where they are none.
pub fn sentence<L: Language>(
    alloc: Global,
    language: &L,
    tokens: &[Token<'_>],
) -> Result<Option<Vec<u8>>, Memory>
    requires { AreTokens (seen_tokens tokens.now) }
    ensures { Recognizes L.grammar (L.start language.now) (map (L.class language.now) (seen_tokens tokens.now)) result }
{
    let mut events = Vec::new(alloc);
    match parse_tokens(alloc, language, tokens, &mut events) {
        Ok(()) => Ok(Some(events)),
        Err(ParseFault::At(_)) => Ok(None),
        Err(ParseFault::OutOfMemory) => Err(Memory),
    }
}
