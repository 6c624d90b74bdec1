// The texts of tokens go into a pool.
ghost use Rattle.std.specs.Prelude.{◌≡◌, IfOk, map};
ghost use Rattle.broken_rules.specs.Notes.{Notes};
ghost use Rattle.rag_io.specs.declared.token.TokenKind.TheVariants.{Text as WrittenText};
ghost use Rattle.rag_io.specs.Pool.{number_of};
ghost use Rattle.rag_io.specs.Tokens.{seen_token, seen_tokens};
ghost use Rattle.rag_io.specs.Unquoted.{IsQuoted, StandsFor, meant};
ghost use Rattle.token_texts.specs.Texts.{AllQuoted, Extends, or_zero, past_broken, pooled, pooled_by_kind, pooled_texts, text_broken, text_code, texts_broken};

use broken_rules::{Earliest, Rule};
use rag_io::{Memory, Place, Pool, PoolFault, Token, TokenKind, unescaped_text, unquote};
use std::alloc::Global;

/// Where a token begins.
pub fn place_of(token: &Token<'_>) -> Place
    ensures { result ≡ (seen_token token.now).place }
{
    Place {
        line: token.line,
        column: token.column,
    }
}

// Adds the text that a text token writes, and answers its number; where the pool is full and has no such text, it is 0, and the rule is
// noted.
fn pool_meant(
    token: &Token<'_>,
    text: &[u8],
    pool: &mut Pool,
    rule: Rule,
    broken: &mut Earliest,
) -> Result<u32, Memory>
    requires { StandsFor token.now.text.now text.now }
    ensures code { IfOk result (λ code. code ≡ or_zero (number_of pool.new (meant token.now.text.now))) }
    ensures pooled { IfOk result (λ _. pool.new ≡ pooled pool.old (meant token.now.text.now)) }
    ensures noted { IfOk result (λ _. Notes (past_broken rule pool.old (seen_token token.now)) broken.old broken.new) }
    ensures extends { Extends pool.old pool.new }
{
    match pool.add(text) {
        Ok(number) => Ok(number),
        Err(PoolFault::Full) => {
            broken.note(rule, place_of(token));
            Ok(0)
        }
        Err(PoolFault::Memory) => Err(Memory),
    }
}

// The same, told the token alone. A text without escapes is taken as it stands in the file.
fn pool_text(
    alloc: Global,
    token: &Token<'_>,
    pool: &mut Pool,
    rule: Rule,
    broken: &mut Earliest,
) -> Result<u32, Memory>
    requires { IsQuoted token.now.text.now }
    ensures code { IfOk result (λ code. code ≡ or_zero (number_of pool.new (meant token.now.text.now))) }
    ensures pooled { IfOk result (λ _. pool.new ≡ pooled pool.old (meant token.now.text.now)) }
    ensures noted { IfOk result (λ _. Notes (past_broken rule pool.old (seen_token token.now)) broken.old broken.new) }
    ensures extends { Extends pool.old pool.new }
{
    if let Some(text) = unescaped_text(token.text) {
        return pool_meant(token, text, pool, rule, broken);
    }
    let text = unquote(alloc, token.text)?;
    pool_meant(token, &text, pool, rule, broken)
}

// Adds the text of a token, if it is one, and answers its number, and 0 for another token.
fn pool_token(
    alloc: Global,
    token: &Token<'_>,
    pool: &mut Pool,
    rule: Rule,
    broken: &mut Earliest,
) -> Result<u32, Memory>
    requires { token.now.kind ≡ WrittenText → IsQuoted token.now.text.now }
    ensures code { IfOk result (λ code. code ≡ text_code pool.new (seen_token token.now)) }
    ensures pooled { IfOk result (λ _. pool.new ≡ pooled_by_kind pool.old token.now.kind token.now.text.now) }
    ensures noted { IfOk result (λ _. Notes (text_broken rule pool.old token.now.kind token.now.text.now (seen_token token.now).place) broken.old broken.new) }
    ensures extends { Extends pool.old pool.new }
{
    match token.kind {
        TokenKind::Text => pool_text(alloc, token, pool, rule, broken),
        TokenKind::Name | TokenKind::Int | TokenKind::Symbol | TokenKind::End => Ok(0),
    }
}

/// Adds the texts of all tokens to the pool, and answers for each token the number of its text, 0 for the other tokens. Where the pool is
/// full, a text that it doesn't have is left out and has 0 too, and the rule is noted at its place.
///
/// The pool holds what it held, and perhaps further texts last, where there is no memory too. The tokens may be the first of a file alone.
pub fn pool_texts(
    alloc: Global,
    tokens: &[Token<'_>],
    pool: &mut Pool,
    rule: Rule,
    broken: &mut Earliest,
) -> Result<Vec<u32>, Memory>
    requires { AllQuoted (seen_tokens tokens.now) }
    ensures codes { IfOk result (λ v. v.items ≡ map (text_code pool.new) (seen_tokens tokens.now)) }
    ensures pooled { IfOk result (λ _. pool.new ≡ pooled_texts pool.old (seen_tokens tokens.now)) }
    ensures noted { IfOk result (λ _. Notes (texts_broken rule pool.old (seen_tokens tokens.now)) broken.old broken.new) }
    ensures extends { Extends pool.old pool.new }
{
    let mut codes = Vec::with_capacity(alloc, tokens.len()).map_err(|_| Memory)?;
    for token in tokens {
        let code = pool_token(alloc, token, pool, rule, broken)?;
        codes.push(code).map_err(|_| Memory)?;
    }
    Ok(codes)
}
