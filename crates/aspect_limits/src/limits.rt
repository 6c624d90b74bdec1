// J17 of an expression that is too long.
ghost use Rattle.std.specs.Prelude.{◌≡◌, ◌+◌, ◌<◌, ◌^◌, ℕ, None, Some, drop};
ghost use Rattle.broken_rules.specs.Notes.{Notes};
ghost use Rattle.rag_io.specs.Tokens.{seen_tokens};
ghost use Rattle.aspect_limits.specs.Limits.{counted, long_at, long_broken};

use broken_rules::{Earliest, Rule};
use rag_io::Token;
use token_texts::place_of;

// The events of a sentence that count here: a token was read, and an outermost expression begins and ends.
const TOKEN: u8 = 255;

const BEGIN: u8 = 1;

const END: u8 = 2;

// An expression that stands in no larger one has at most so many tokens.
const MOST_TOKENS: usize = 400;

// Notes J17 at a token, if it stands behind as many of its expression as there may be.
fn note_token(tokens: &[Token<'_>], at: usize, inside: Option<usize>, broken: &mut Earliest)
    ensures { Notes (long_at inside (drop at (seen_tokens tokens.now))) broken.old broken.new }
{
    if let (Some(count), Some(token)) = (inside, tokens.get(at)) {
        broken.note_if(count == MOST_TOKENS, Rule::J17, place_of(token));
    }
}

// How many tokens of an expression were read, behind an event.
fn counted(event: u8, inside: Option<usize>) -> Option<usize>
    requires { (n : ℕ) → inside ≡ Some n → n + 1 < 2 ^ 64 }
    ensures { result ≡ counted event inside }
{
    match event {
        TOKEN => {
            match inside {
                Some(count) => Some(count + 1),
                None => None,
            }
        }
        BEGIN => Some(0),
        END => None,
        _ => inside,
    }
}

/// Notes J17 at each token that stands behind as many of its expression as there may be.
pub fn note_long(tokens: &[Token<'_>], sentence: &[u8], broken: &mut Earliest)
    ensures { Notes (long_broken None (seen_tokens tokens.now) sentence.now) broken.old broken.new }
{
    let mut at: usize = 0;
    let mut inside: Option<usize> = None;
    for event in sentence {
        if *event == TOKEN {
            note_token(tokens, at, inside, broken);
            at += 1;
        }
        inside = counted(*event, inside);
    }
}
