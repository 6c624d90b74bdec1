// From the events of a sentence to the parts that it is made of.
ghost use Rattle.std.specs.Prelude.{◌≡◌, ◌<◌, ℕ, List, IfOk, map};
ghost use Rattle.rag_io.specs.Tokens.{seen_tokens};
ghost use Rattle.jrag_reader.specs.Building.{EndsWith, Runs, seen_builder};
ghost use Rattle.jrag_reader.specs.Running.{nothing, shifted, step};
ghost use Rattle.jrag_reader.specs.Stack.{Makes, tops};
ghost use Rattle.token_texts.specs.Texts.{text_code};

use crate::events;
use crate::item_forms::make;
use crate::parts::{Part, Unbuilt, push};
use jrag_syntax::Start;
use rag_io::{Memory, Token};
use std::alloc::Global;

/// How many tokens were read, and the parts that they say.
#[derive(Drop)]
pub(crate) struct Builder<'a> {
    pub at: usize,
    pub parts: Vec<Part<'a>>,
}

// Puts the next token onto the parts.
fn shift<'a>(tokens: &[Token<'a>], codes: &[u32], b: &mut Builder<'a>) -> Result<(), Unbuilt>
    ghost texts: { List (List ℕ) }
    requires { codes.now ≡ map (text_code texts) (seen_tokens tokens.now) }
    ensures { Makes (shifted texts (seen_tokens tokens.now) (seen_builder b.old)) result (seen_builder b.new) }
{
    let Some(token) = tokens.get(b.at) else {
        return Err(Unbuilt::Misfit);
    };
    let Some(code) = codes.get(b.at) else {
        return Err(Unbuilt::Misfit);
    };
    push(&mut b.parts, Part::Token(*token, *code))?;
    b.at += 1;
    Ok(())
}

// Reads an event.
fn step<'a>(
    alloc: Global,
    start: Start,
    tokens: &[Token<'a>],
    codes: &[u32],
    event: u8,
    b: &mut Builder<'a>,
) -> Result<(), Unbuilt>
    ghost texts: { List (List ℕ) }
    requires { codes.now ≡ map (text_code texts) (seen_tokens tokens.now) }
    ensures { Makes (step start texts (seen_tokens tokens.now) (seen_builder b.old) event) result (seen_builder b.new) }
{
    if event == events::TOKEN {
        return shift(tokens, codes, b);
    }
    make(alloc, start, event, &mut b.parts)
}

/// The parts that some events make of the tokens, of which each has the number of its text in the pool.
pub(crate) fn build<'a>(
    alloc: Global,
    start: Start,
    tokens: &[Token<'a>],
    codes: &[u32],
    sentence: &[u8],
) -> Result<Vec<Part<'a>>, Memory>
    ghost texts: { List (List ℕ) }
    requires codes { codes.now ≡ map (text_code texts) (seen_tokens tokens.now) }
    requires runs { Runs start texts (seen_tokens tokens.now) nothing sentence.now }
    ensures { IfOk result (λ parts. EndsWith start texts (seen_tokens tokens.now) sentence.now (tops parts.items)) }
{
    let mut b = Builder {
        at: 0,
        parts: Vec::new(alloc),
    };
    'events: for event in sentence {
        match step(alloc, start, tokens, codes, *event, &mut b) {
            Ok(()) => {}
            Err(Unbuilt::Memory) => return Err(Memory),
            Err(Unbuilt::Misfit) => unreachable!(),
        }
    }
    Ok(b.parts)
}
