// What the tokens of a tree do, in their order.
ghost use Rattle.std.specs.Prelude.{◌≡◌, ℕ, List, IfOk, codes, drop, map};
ghost use Rattle.rag_io.specs.Tokens.{seen_token, seen_tokens};
ghost use Rattle.token_texts.specs.Texts.{text_code};
ghost use Rattle.tree_reader.specs.Laying.{LaysWhatIsWritten};
ghost use Rattle.tree_reader.specs.Steps.{is_sign_by, opens, run, seen_state, sign_taken, taken, word_taken};

use crate::laying::Laying;
use crate::values::Value;
use ast_grammar::Grammar;
use broken_rules::Earliest;
use rag_io::{Memory, Place, Token, TokenKind};
use std::alloc::Global;
use token_texts::place_of;

// Whether the token is this sign.
fn is_sign(token: &Token<'_>, sign: &[u8]) -> bool
    ensures { result ≡ is_sign_by token.now.kind token.now.text.now sign.now }
{
    match token.kind {
        TokenKind::Symbol => token.text == sign,
        TokenKind::Name | TokenKind::Int | TokenKind::Text | TokenKind::End => false,
    }
}

// Whether the token of this number is `(`.
fn opens_at(tokens: &[Token<'_>], i: usize) -> bool
    ensures { result ≡ opens (seen_tokens (drop i tokens.now)) }
{
    match tokens.get(i) {
        Some(token) => is_sign(token, b"(".as_slice()),
        None => false,
    }
}

// A word names a node where `(` follows, and is a truth value elsewhere.
fn take_word(
    alloc: Global,
    grammar: &Grammar,
    word: &[u8],
    place: Place,
    is_opening: bool,
    laying: &mut Laying,
) -> Result<(), Memory>
    ensures { IfOk result (λ _. seen_state grammar.now laying.new ≡ word_taken grammar.now is_opening word.now place (seen_state grammar.now laying.old)) }
{
    if is_opening {
        return laying.open_node(alloc, grammar, word, place);
    }
    let truth = Value::Truth(word == b"true".as_slice());
    laying.add_value(grammar, &truth, place)
}

// A sign. A comma does nothing, nor does the `(` behind a name.
fn take_sign(
    grammar: &Grammar,
    text: &[u8],
    place: Place,
    laying: &mut Laying,
) -> Result<(), Memory>
    ensures { IfOk result (λ _. seen_state grammar.now laying.new ≡ sign_taken text.now place (seen_state grammar.now laying.old)) }
{
    if text == b"-".as_slice() {
        laying.note_minus(place);
        return Ok(());
    }
    if text == b"[".as_slice() {
        return laying.open_brackets(grammar, place);
    }
    if text == b")".as_slice() || text == b"]".as_slice() {
        laying.close(grammar);
    }
    Ok(())
}

// Takes a token. It is told whether `(` follows, and the code of a text.
fn take(
    alloc: Global,
    grammar: &Grammar,
    token: &Token<'_>,
    is_opening: bool,
    code: u32,
    laying: &mut Laying,
) -> Result<(), Memory>
    ensures { let t = seen_token token.now in IfOk result (λ _.
        seen_state grammar.now laying.new ≡ taken grammar.now t.kind t.text t.place is_opening code (seen_state grammar.now laying.old)) }
{
    let place = place_of(token);
    match token.kind {
        TokenKind::Name => take_word(alloc, grammar, token.text, place, is_opening, laying),
        TokenKind::Symbol => take_sign(grammar, token.text, place, laying),
        TokenKind::Text => laying.add_value(grammar, &Value::Text(code), place),
        TokenKind::Int => laying.add_int(grammar, token.text, place),
        TokenKind::End => Ok(()),
    }
}

// Lays the nodes from the first token to the last.
fn lay_all(
    alloc: Global,
    grammar: &Grammar,
    tokens: &[Token<'_>],
    texts: &[u32],
    laying: &mut Laying,
) -> Result<(), Memory>
    ensures { IfOk result (λ _. (pool : List (List ℕ)) → texts.now ≡ map (text_code pool) (seen_tokens tokens.now)
        → seen_state grammar.now laying.new ≡ run grammar.now pool (seen_tokens tokens.now) (seen_state grammar.now laying.old)) }
{
    for (i, token) in tokens.iter().enumerate() {
        let is_opening = opens_at(tokens, i + 1);
        let code = texts.get(i).copied().unwrap_or(0);
        take(alloc, grammar, token, is_opening, code, laying)?;
    }
    Ok(())
}

/// The nodes that the tokens write, and the broken rule that counts of those that they break and of the one that was noted before. Each
/// text token has its number in the pool in `texts`.
pub(crate) fn lay_tree(
    alloc: Global,
    grammar: &Grammar,
    tokens: &[Token<'_>],
    texts: &[u32],
    broken: Earliest,
) -> Result<Laying, Memory>
    ensures { IfOk result (LaysWhatIsWritten grammar.now (seen_tokens tokens.now) texts.now broken) }
{
    let mut laying = Laying::new(alloc, broken);
    lay_all(alloc, grammar, tokens, texts, &mut laying)?;
    Ok(laying)
}
