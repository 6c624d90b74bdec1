// The bytes that a text in quotes stands for.
ghost use Rattle.std.specs.Prelude.{◌≡◌, ℕ, List, [], ◌∷◌, ◌<◌, length, IfOk, IfSome, IfNone};
ghost use Rattle.rag_io.specs.Lexemes.{TextBody};
ghost use Rattle.rag_io.specs.Unquoted.{unescaped, IsQuoted, BodyStandsFor, StandsFor};

use crate::Memory;
use std::alloc::Global;

// The byte that an escape stands for, by the byte behind its backslash.
fn unescaped(b: u8) -> u8
    ensures { result ≡ unescaped b }
{
    match b {
        b'n' => b'\n',
        b't' => b'\t',
        b'r' => b'\r',
        _ => b,
    }
}

// The first byte that a body stands for, with what is left behind it, or none at the closing quote.
fn first_byte(body: &[u8]) -> Option<(u8, &[u8])>
    requires { TextBody body.now }
    ensures first { IfSome result (λ first. (bytes : List ℕ) → BodyStandsFor first.1.now bytes → BodyStandsFor body.now (first.0 ∷ bytes)) }
    ensures left { IfSome result (λ first. TextBody first.1.now) }
    ensures shorter { IfSome result (λ first. length first.1.now < length body.now) }
    ensures closed { IfNone result (BodyStandsFor body.now []) }
{
    match body[0] {
        b'"' => None,
        b'\\' => Some((unescaped(body[1]), &body[2..])),
        b => Some((b, &body[1..])),
    }
}

/// The bytes that the text of a [`TokenKind::Text`](crate::TokenKind::Text) stands for: those between its quotes, each escape replaced by
/// its byte. They are any bytes, as a file has them, and needn't be UTF-8.
pub fn unquote(alloc: Global, text: &[u8]) -> Result<Vec<u8>, Memory>
    requires { IsQuoted text.now }
    ensures { IfOk result (λ bytes. StandsFor text.now bytes.items) }
{
    let mut bytes = Vec::new(alloc);
    let mut body = &text[1..];
    while let Some((b, left)) = first_byte(body) {
        bytes.push(b).map_err(|_| Memory)?;
        body = left;
    }
    Ok(bytes)
}

/// The bytes that the text of a [`TokenKind::Text`](crate::TokenKind::Text) stands for, where no backslash stands in it: then they are the very
/// bytes between its quotes, and nothing is copied.
pub fn unescaped_text(text: &[u8]) -> Option<&[u8]>
    requires { IsQuoted text.now }
    ensures { IfSome result (λ bytes. StandsFor text.now bytes.now) }
{
    if text.contains(&b'\\') {
        return None;
    }
    Some(&text[1..text.len() - 1])
}
