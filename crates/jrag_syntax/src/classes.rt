// The classes of tokens, in the numbers of the grammar.
ghost use Rattle.std.specs.Prelude.{◌≡◌};
ghost use Rattle.rag_io.specs.Tokens.{seen_token};
ghost use Rattle.jrag_syntax.specs.Tokens.{known_or, item_class, contribution_class, value_class, type_class, named_class, name_class, word_class};
ghost use Rattle.jrag_syntax.specs.Tokens.{bracket_class, separator_class, truth_class, operator_class, source_class, last_class, sign_class, token_class};

use rag_io::{Token, TokenKind, is_left_out};

/// What some tokens are to be.
#[derive(Clone, Copy, Debug, PartialEq, Eq)]
pub enum Start {
    /// A whole file of aspects.
    File,
    /// One expression. Here, and only here, `@` and an integer are a node.
    Expression,
}

// The class of what stands in no sentence.
const OUTSIDE: u8 = 58;

// No class of a group.
const UNKNOWN: u8 = 255;

// A class, or another where it is unknown.
fn known_or(class: u8, other: u8) -> u8
    ensures { result ≡ known_or class other }
{
    if class == UNKNOWN { other } else { class }
}

// Words that begin aspects and items, and what may stand behind `syn`.
fn item_class(text: &[u8]) -> u8
    ensures { result ≡ item_class text.now }
{
    if text == b"aspect".as_slice() {
        4
    } else if text == b"syn".as_slice() {
        5
    } else if text == b"inh".as_slice() {
        6
    } else if text == b"eq".as_slice() {
        7
    } else if text == b"coll".as_slice() {
        8
    } else if text == b"nta".as_slice() {
        9
    } else if text == b"lazy".as_slice() {
        10
    } else {
        UNKNOWN
    }
}

// Words between the parts of a contribution.
fn contribution_class(text: &[u8]) -> u8
    ensures { result ≡ contribution_class text.now }
{
    if text == b"when".as_slice() {
        11
    } else if text == b"to".as_slice() {
        12
    } else if text == b"for".as_slice() {
        13
    } else {
        UNKNOWN
    }
}

// Words of expressions that are no names.
fn value_class(text: &[u8]) -> u8
    ensures { result ≡ value_class text.now }
{
    if text == b"new".as_slice() {
        14
    } else if text == b"this".as_slice() {
        15
    } else if text == b"true".as_slice() {
        16
    } else if text == b"false".as_slice() {
        17
    } else if text == b"null".as_slice() {
        18
    } else if text == b"empty".as_slice() {
        19
    } else if text == b"instanceof".as_slice() {
        20
    } else {
        UNKNOWN
    }
}

// Words of types.
fn type_class(text: &[u8]) -> u8
    ensures { result ≡ type_class text.now }
{
    if text == b"Set".as_slice() {
        21
    } else if text == b"boolean".as_slice() {
        22
    } else if text == b"int".as_slice() {
        23
    } else if text == b"String".as_slice() {
        24
    } else {
        UNKNOWN
    }
}

// Words of their own that may be names too.
fn named_class(text: &[u8]) -> u8
    ensures { result ≡ named_class text.now }
{
    if text == b"contributes".as_slice() {
        25
    } else if text == b"with".as_slice() {
        26
    } else if text == b"root".as_slice() {
        27
    } else if text == b"circular".as_slice() {
        28
    } else if text == b"each".as_slice() {
        29
    } else if text == b"any".as_slice() {
        30
    } else if text == b"all".as_slice() {
        31
    } else if text == b"first".as_slice() {
        32
    } else {
        UNKNOWN
    }
}

// A word that is none of these: a name, where aspects have names by it.
fn name_class(text: &[u8]) -> u8
    ensures { result ≡ name_class text.now }
{
    if is_left_out(text) { OUTSIDE } else { 1 }
}

fn word_class(text: &[u8]) -> u8
    ensures { result ≡ word_class text.now }
{
    let named = known_or(named_class(text), name_class(text));
    let typed = known_or(type_class(text), named);
    let valued = known_or(value_class(text), typed);
    let contributed = known_or(contribution_class(text), valued);
    known_or(item_class(text), contributed)
}

// Brackets.
fn bracket_class(text: &[u8]) -> u8
    ensures { result ≡ bracket_class text.now }
{
    if text == b"{".as_slice() {
        33
    } else if text == b"}".as_slice() {
        34
    } else if text == b"(".as_slice() {
        36
    } else if text == b")".as_slice() {
        37
    } else if text == b"[".as_slice() {
        38
    } else if text == b"]".as_slice() {
        39
    } else {
        UNKNOWN
    }
}

// Signs between parts.
fn separator_class(text: &[u8]) -> u8
    ensures { result ≡ separator_class text.now }
{
    if text == b".".as_slice() {
        35
    } else if text == b";".as_slice() {
        40
    } else if text == b",".as_slice() {
        41
    } else if text == b"=".as_slice() {
        42
    } else if text == b"?".as_slice() {
        43
    } else if text == b":".as_slice() {
        44
    } else if text == b"|".as_slice() {
        57
    } else {
        UNKNOWN
    }
}

// Operators that give truth values.
fn truth_class(text: &[u8]) -> u8
    ensures { result ≡ truth_class text.now }
{
    if text == b"||".as_slice() {
        45
    } else if text == b"&&".as_slice() {
        46
    } else if text == b"==".as_slice() {
        47
    } else if text == b"!=".as_slice() {
        48
    } else if text == b"<".as_slice() {
        49
    } else if text == b"<=".as_slice() {
        50
    } else if text == b">".as_slice() {
        51
    } else if text == b">=".as_slice() {
        52
    } else {
        UNKNOWN
    }
}

// The other operators.
fn operator_class(text: &[u8]) -> u8
    ensures { result ≡ operator_class text.now }
{
    if text == b"+".as_slice() {
        53
    } else if text == b"-".as_slice() {
        54
    } else if text == b"*".as_slice() {
        55
    } else if text == b"!".as_slice() {
        56
    } else {
        UNKNOWN
    }
}

// `@` stands in single expressions only.
fn source_class(start: Start) -> u8
    ensures { result ≡ source_class start }
{
    match start {
        Start::File => OUTSIDE,
        Start::Expression => 59,
    }
}

// A sign that is none of these.
fn last_class(start: Start, text: &[u8]) -> u8
    ensures { result ≡ last_class start text.now }
{
    if text == b"@".as_slice() {
        source_class(start)
    } else {
        OUTSIDE
    }
}

fn sign_class(start: Start, text: &[u8]) -> u8
    ensures { result ≡ sign_class start text.now }
{
    let operator = known_or(operator_class(text), last_class(start, text));
    let truth = known_or(truth_class(text), operator);
    let separator = known_or(separator_class(text), truth);
    known_or(bracket_class(text), separator)
}

// The class of a token.
pub fn class_of(start: Start, token: &Token<'_>) -> u8
    ensures { result ≡ token_class start (seen_token token.now) }
{
    match token.kind {
        TokenKind::Name => word_class(token.text),
        TokenKind::Symbol => sign_class(start, token.text),
        TokenKind::End => 0,
        TokenKind::Int => 2,
        TokenKind::Text => 3,
    }
}
