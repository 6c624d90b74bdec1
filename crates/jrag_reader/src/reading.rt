// The reader of aspects and of single expressions.
ghost use Rattle.std.specs.Prelude.{◌≡◌, ◌==◌, ℕ, List, IfOk, count_by};
ghost use Rattle.rag_io.specs.Tokens.{AreTokens, seen_tokens};
ghost use Rattle.jrag_syntax.specs.Reading.{SaysEvents, StopsWith};
ghost use Rattle.token_texts.specs.Texts.{Extends, pooled_texts};
ghost use Rattle.jrag_reader.specs.Answers.{AnswersItems, AnswersExpr, ReadsParts, IsRefusal};

use crate::building::build;
use crate::events;
use crate::parts::{Part, pop_expr, pop_items, pop_token};
use aspect_items::{Aspects, Expr};
use aspect_limits::note_long;
use broken_rules::{Broken, Earliest, ReadFault, Rule};
use jrag_syntax::{Start, push_events};
use rag_io::{Memory, Pool, Token};
use std::alloc::Global;
use token_texts::pool_texts;

// How many tokens some events are of.
fn token_count(sentence: &[u8]) -> usize
    ensures { result ≡ count_by (λ e. e == 255) sentence.now }
{
    sentence
        .iter()
        .filter(|event| **event == events::TOKEN)
        .count()
}

// The first broken rule of tokens with a fault of the syntax, and with these events before it: that of the fault, or J17 before it.
fn first_broken(
    alloc: Global,
    tokens: &[Token<'_>],
    start: Start,
    sentence: &[u8],
    fault: Broken,
    pool: &mut Pool,
) -> Result<ReadFault, Memory>
    requires tokens { AreTokens (seen_tokens tokens.now) }
    requires stops { StopsWith start (seen_tokens tokens.now) fault sentence.now }
    ensures first { IfOk result (λ why. IsRefusal start pool.old (seen_tokens tokens.now) why) }
    ensures extends { Extends pool.old pool.new }
{
    let before = &tokens[..token_count(sentence)];
    let mut broken = Earliest::new();
    broken.note(fault.rule, fault.place);
    pool_texts(alloc, before, pool, Rule::J17, &mut broken)?;
    note_long(before, sentence, &mut broken);
    match broken.answer() {
        Ok(()) => unreachable!(),
        Err(why) => Ok(why),
    }
}

// The part that the tokens of a sentence with these events say, below the end of the file, or J17.
fn parts_of<'a>(
    alloc: Global,
    tokens: &[Token<'a>],
    start: Start,
    sentence: &[u8],
    pool: &mut Pool,
) -> Result<Vec<Part<'a>>, ReadFault>
    ghost texts: { List (List ℕ) }
    requires texts { texts ≡ pooled_texts pool.old (seen_tokens tokens.now) }
    requires tokens { AreTokens (seen_tokens tokens.now) }
    requires says { SaysEvents start (seen_tokens tokens.now) sentence.now }
    ensures reads { ReadsParts start pool.old (seen_tokens tokens.now) result }
    ensures pooled { IfOk result (λ _. pool.new ≡ pooled_texts pool.old (seen_tokens tokens.now)) }
    ensures extends { Extends pool.old pool.new }
{
    let mut broken = Earliest::new();
    let codes = pool_texts(alloc, tokens, pool, Rule::J17, &mut broken)?;
    note_long(tokens, sentence, &mut broken);
    broken.answer()?;
    Ok(build(alloc, start, tokens, &codes, sentence)?)
}

// The part that some tokens say, below the end of the file, or the first broken rule.
fn read_parts<'a>(
    alloc: Global,
    tokens: &[Token<'a>],
    start: Start,
    pool: &mut Pool,
) -> Result<Vec<Part<'a>>, ReadFault>
    requires { AreTokens (seen_tokens tokens.now) }
    ensures reads { ReadsParts start pool.old (seen_tokens tokens.now) result }
    ensures pooled { IfOk result (λ _. pool.new ≡ pooled_texts pool.old (seen_tokens tokens.now)) }
    ensures extends { Extends pool.old pool.new }
{
    let mut sentence = Vec::new(alloc);
    match push_events(alloc, tokens, start, &mut sentence) {
        Ok(()) => parts_of(alloc, tokens, start, &sentence, pool),
        Err(ReadFault::Memory) => Err(ReadFault::Memory),
        Err(ReadFault::Broken(fault)) => {
            Err(first_broken(alloc, tokens, start, &sentence, fault, pool)?)
        }
    }
}

/// The items that the tokens of a `.jrag` file say, in order, or the first broken rule. They have no types yet.
///
/// A rule is broken where the tokens are no sentence, at the first one such that the tokens up to it begin none: J16 where it is `{` or a
/// left-out word, and else J1. J17 is broken at the 401st token of an expression that stands in no larger one, and at a text that would be
/// the 65,537th of the pool. The earliest place counts, and at one place J1 or J16.
///
/// Literal texts go into the pool. After a refusal it holds what it held, and perhaps further texts last. The time and the memory are linear
/// in the number of tokens, and nothing recurses on how deep expressions are nested.
pub fn read_jrag(alloc: Global, tokens: &[Token<'_>], pool: &mut Pool) -> Result<Aspects, ReadFault>
    requires { AreTokens (seen_tokens tokens.now) }
    ensures says { AnswersItems pool.old (seen_tokens tokens.now) result }
    ensures pooled { IfOk result (λ _. pool.new ≡ pooled_texts pool.old (seen_tokens tokens.now)) }
    ensures extends { Extends pool.old pool.new }
{
    let mut parts = read_parts(alloc, tokens, Start::File, pool)?;
    let _end = pop_token(&mut parts);
    match pop_items(&mut parts) {
        Ok(items) => Ok(Aspects { items }),
        Err(_) => unreachable!(),
    }
}

/// The expression that some tokens say, or the first broken rule, as [`read_jrag`] says. Here `@` and an integer are a node, and no other
/// expression may be cast right before it.
pub fn read_expr(alloc: Global, tokens: &[Token<'_>], pool: &mut Pool) -> Result<Expr, ReadFault>
    requires { AreTokens (seen_tokens tokens.now) }
    ensures says { AnswersExpr pool.old (seen_tokens tokens.now) result }
    ensures pooled { IfOk result (λ _. pool.new ≡ pooled_texts pool.old (seen_tokens tokens.now)) }
    ensures extends { Extends pool.old pool.new }
{
    let mut parts = read_parts(alloc, tokens, Start::Expression, pool)?;
    let _end = pop_token(&mut parts);
    match pop_expr(&mut parts) {
        Ok(expr) => Ok(expr),
        Err(_) => unreachable!(),
    }
}
