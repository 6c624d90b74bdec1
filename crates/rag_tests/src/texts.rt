// Texts in a pool: their numbers, what is read with one pool in turn, and full pools; and the words in single expressions.
ghost use Rattle.std.specs.Prelude.{◌≤◌, length};
ghost use Rattle.rag_io.specs.Outside.{longest_file};

use crate::programs::grammar_of;
use aspect_items::Expr;
use broken_rules::{Broken, Earliest, ReadFault, Rule};
use jrag_reader::{read_expr, read_jrag_bytes};
use rag_io::{Bytes, LONGEST_FILE, MOST_TEXTS, Place, Pool, PoolFault};
use sentences::tokens_of;
use std::alloc::{AllocError, Global};
use token_texts::pool_texts;
use tree_arena::Tree;
use tree_reader::read_tree_bytes;

// A text that is added in turn, its number before, the answer, and how many texts there are then.
type Added = (&'static [u8], Option<u32>, Result<u32, PoolFault>, u32);

const ADDED: [Added; 8] = [
    (b"", Some(0), Ok(0), 1),
    (b"Class", None, Ok(1), 2),
    (b"\x00\xff", None, Ok(2), 3),
    (b"Class", Some(1), Ok(1), 3),
    (b"class", None, Ok(3), 4),
    (b"Clas", None, Ok(4), 5),
    (b"\x00\xff", Some(2), Ok(2), 5),
    (b"", Some(0), Ok(0), 5),
];

// A full pool takes the texts that it has, and no other one.
const ADDED_TO_FULL: [Added; 3] = [
    (b"65536", None, Err(PoolFault::Full), MOST_TEXTS),
    (b"65535", Some(65_535), Ok(65_535), MOST_TEXTS),
    (b"", Some(0), Ok(0), MOST_TEXTS),
];

// A pool of so many texts: the empty one, and the numbers from 1 on.
fn numbered_pool(alloc: Global, count: u32) -> Result<Pool, ReadFault> {
    let mut pool = Pool::new(alloc)?;
    for number in 1..count {
        let text = number.to_string(alloc)?;
        if pool.add(text.as_bytes()) != Ok(number) {
            return Err(ReadFault::Memory);
        }
    }
    Ok(pool)
}

// The first text that is numbered otherwise.
fn other_added(pool: &mut Pool, rows: &'static [Added]) -> Option<usize> {
    for (k, row) in rows.iter().enumerate() {
        let (text, before, answer, count) = *row;
        let found = (pool.find(text), pool.add(text));
        let then = (pool.find(text), pool.len());
        if (found, then) != ((before, answer), (answer.ok(), count)) {
            return Some(k);
        }
        if let Ok(number) = answer {
            if number >= pool.len() || pool.get(number) != text {
                return Some(k);
            }
        }
    }
    None
}

// The first text that a pool of so many texts numbers otherwise.
fn other_in_pool(
    alloc: Global,
    count: u32,
    rows: &'static [Added],
) -> Result<Option<usize>, ReadFault> {
    let mut pool = numbered_pool(alloc, count)?;
    Ok(other_added(&mut pool, rows))
}

// Whether bytes keep the list that they are made of.
fn keeps_bytes(alloc: Global, bytes: &[u8]) -> Result<bool, AllocError> {
    let kept = Bytes::of(Vec::from_slice(alloc, bytes)?);
    Ok(kept.list() == bytes)
}

#[test]
fn a_pool_numbers_texts(rt: HostRuntime) {
    let other = other_in_pool(rt.alloc(), 1, &ADDED);
    let other_of_full = other_in_pool(rt.alloc(), MOST_TEXTS, &ADDED_TO_FULL);
    let kept = keeps_bytes(rt.alloc(), b"ab");
    assert_eq!(rt;
        (other, other_of_full, kept),
        (Ok(None), Ok(None), Ok(true))
    );
}

// What a text is read as.
enum Reading {
    // Tokens, where this is the rule of a text too many. As many as there are numbers give their texts. The end is a token.
    Tokens(Rule),
    Aspects,
    Expression,
    // A tree of this grammar.
    Tree(&'static str),
}

// The place and the rule that a text breaks, if it breaks one.
type Fault = Option<(u32, u32, Rule)>;

// A text, what it breaks, and numbers: those of the texts of the tokens, those in an expression, or the codes of the root.
type Read = (Reading, &'static str, Fault, &'static [u32]);

// What is read in turn with a pool of so many texts, a text and its number behind each, and how many texts there are in the end, where that counts.
type Pooled = (
    u32,
    &'static [Read],
    &'static [u8],
    Option<u32>,
    Option<u32>,
);

const TEXTS: Reading = Reading::Tree("T ::= <A> <B> <C>; U ::= <V:int> <W>;");

const POOLED: [Pooled; 16] = [
    // Tokens.
    (
        1,
        &[
            (
                Reading::Tokens(Rule::N7),
                "f(\"a\", \"\", -1, \"b\", \"a\") \"\\n\"",
                None,
                &[0, 0, 1, 0, 0, 0, 0, 0, 0, 2, 0, 1, 0, 3, 0],
            ),
            // Those of another text follow behind.
            (Reading::Tokens(Rule::J17), "\"c\" \"b\"", None, &[4, 2, 0]),
        ],
        b"\n",
        Some(3),
        Some(5),
    ),
    (
        1,
        &[(
            Reading::Tokens(Rule::J17),
            "\"a\" + \"b\" + \"c\"",
            None,
            &[1, 0, 2],
        )],
        b"c",
        None,
        Some(3),
    ),
    // With room for one text. The first that there is no room for counts.
    (
        MOST_TEXTS - 1,
        &[
            (
                Reading::Tokens(Rule::J17),
                "\"65534\" \"a\" \"\" \"a\"",
                None,
                &[65_534, 65_535, 0, 65_535, 0],
            ),
            (
                Reading::Tokens(Rule::J17),
                "\"1\"\n \"b\" \"a\" \"c\"",
                Some((2, 2, Rule::J17)),
                &[1, 0, 65_535, 0, 0],
            ),
            (
                Reading::Tokens(Rule::N7),
                "\"1\"\n \"b\" \"a\" \"c\"",
                Some((2, 2, Rule::N7)),
                &[1, 0, 65_535, 0, 0],
            ),
        ],
        b"1",
        Some(1),
        Some(MOST_TEXTS),
    ),
    // With room for no text, and for one. A text too many may stand before the 401st token of an expression, at it or behind it.
    (
        MOST_TEXTS,
        &[
            (
                Reading::Aspects,
                "aspect A { eq N.v() = f(\"1\", \"\", \"65535\"); }",
                None,
                &[],
            ),
            (
                Reading::Aspects,
                "aspect A { eq N.v() = \"a\"; }",
                Some((1, 23, Rule::J17)),
                &[],
            ),
            (
                Reading::Aspects,
                "aspect A { eq N.v() = f(\"1\", \"\", \"a\", \"b\"); }",
                Some((1, 34, Rule::J17)),
                &[],
            ),
            (
                Reading::Aspects,
                "aspect A { eq N.v() = \"a\" + ; }",
                Some((1, 23, Rule::J17)),
                &[],
            ),
            (
                Reading::Aspects,
                "aspect A { eq N.v() = \"a\"; class",
                Some((1, 23, Rule::J17)),
                &[],
            ),
            (
                Reading::Aspects,
                "aspect A { eq N.v() = 1 \"a\"; }",
                Some((1, 25, Rule::J1)),
                &[],
            ),
            (
                Reading::Aspects,
                "aspect A { eq N.v() = ; eq N.w() = \"a\"; }",
                Some((1, 23, Rule::J1)),
                &[],
            ),
            (
                Reading::Aspects,
                "aspect A { coll String N.v() [\"1\"] root \"a\"; }",
                Some((1, 41, Rule::J1)),
                &[],
            ),
            (
                Reading::Aspects,
                "aspect A { eq N.v() = \"\\\\1\"; }",
                Some((1, 23, Rule::J17)),
                &[],
            ),
            (
                Reading::Aspects,
                "aspect a { eq n.v() = 1+\"a\"+1+1+1+1+1+1+1+1+1+1+1+1+1+1+1+1+1+1+1+1+1+1+1+1+1+1+1+1+1+1+1+1+1+1+1+1+1+1+1+1+1+1+1+1+1+1+1+1+1+1+1+1+1+1+1+1+1+1+1+1+1+1+1+1+1+1+1+1+1+1+1+1+1+1+1+1+1+1+1+1+1+1+1+1+1+1+1+1+1+1+1+1+1+1+1+1+1+1+1+1+1+1+1+1+1+1+1+1+1+1+1+1+1+1+1+1+1+1+1+1+1+1+1+1+1+1+1+1+1+1+1+1+1+1+1+1+1+1+1+1+1+1+1+1+1+1+1+1+1+1+1+1+1+1+1+1+1+1+1+1+1+1+1+1+1+1+1+1+1+1+1+1+1+1+1+1+1+1+1+1+1+1+1+1+1+1+1+1+1+1+1+1+1+1+1+1+1+1+1+1+1; }",
                Some((1, 25, Rule::J17)),
                &[],
            ),
            (
                Reading::Aspects,
                "aspect a { eq n.v() = 1+1+1+1+1+1+1+1+1+1+1+1+1+1+1+1+1+1+1+1+1+1+1+1+1+1+1+1+1+1+1+1+1+1+1+1+1+1+1+1+1+1+1+1+1+1+1+1+1+1+1+1+1+1+1+1+1+1+1+1+1+1+1+1+1+1+1+1+1+1+1+1+1+1+1+1+1+1+1+1+1+1+1+1+1+1+1+1+1+1+1+1+1+1+1+1+1+1+1+1+1+1+1+1+1+1+1+1+1+1+1+1+1+1+1+1+1+1+1+1+1+1+1+1+1+1+1+1+1+1+1+1+1+1+1+1+1+1+1+1+1+1+1+1+1+1+1+1+1+1+1+1+1+1+1+1+1+1+1+1+1+1+1+1+1+1+1+1+1+1+1+1+1+1+1+1+1+1+1+1+1+1+1+1+1+1+1+1+1+1+1+1+1+1+1+1+1+1+1+1+\"a\"; }",
                Some((1, 423, Rule::J17)),
                &[],
            ),
            (
                Reading::Aspects,
                "aspect a { eq n.v() = 1+1+1+1+1+1+1+1+1+1+1+1+1+1+1+1+1+1+1+1+1+1+1+1+1+1+1+1+1+1+1+1+1+1+1+1+1+1+1+1+1+1+1+1+1+1+1+1+1+1+1+1+1+1+1+1+1+1+1+1+1+1+1+1+1+1+1+1+1+1+1+1+1+1+1+1+1+1+1+1+1+1+1+1+1+1+1+1+1+1+1+1+1+1+1+1+1+1+1+1+1+1+1+1+1+1+1+1+1+1+1+1+1+1+1+1+1+1+1+1+1+1+1+1+1+1+1+1+1+1+1+1+1+1+1+1+1+1+1+1+1+1+1+1+1+1+1+1+1+1+1+1+1+1+1+1+1+1+1+1+1+1+1+1+1+1+1+1+1+1+1+1+1+1+1+1+1+1+1+1+1+1+1+1+1+1+1+1+1+1+1+1+1+1+1+1+1+1+1+1+1+\"a\"; }",
                Some((1, 423, Rule::J17)),
                &[],
            ),
        ],
        b"1",
        Some(1),
        Some(MOST_TEXTS),
    ),
    (
        MOST_TEXTS - 1,
        &[(
            Reading::Aspects,
            "aspect A { eq N.v() = f(\"a\", \"1\", \"a\"); }",
            None,
            &[],
        )],
        b"1",
        Some(1),
        Some(MOST_TEXTS),
    ),
    (
        MOST_TEXTS - 1,
        &[(
            Reading::Aspects,
            "aspect A { eq N.v() = \"a\" == \"b\"; }",
            Some((1, 30, Rule::J17)),
            &[],
        )],
        b"1",
        Some(1),
        Some(MOST_TEXTS),
    ),
    (
        MOST_TEXTS - 1,
        &[(
            Reading::Aspects,
            "aspect A { eq N.v() = \"b\";\n eq N.w() = \"b\" == \"a\"; }",
            Some((2, 20, Rule::J17)),
            &[],
        )],
        b"1",
        Some(1),
        Some(MOST_TEXTS),
    ),
    // One after the other with one pool, of which the second one is refused; a call at a node; and with a full pool.
    (
        1,
        &[
            (Reading::Expression, "f(\"a\", \"b\")", None, &[1, 2]),
            (
                Reading::Expression,
                "f(\"c\" 1",
                Some((1, 7, Rule::J1)),
                &[],
            ),
            (Reading::Expression, "f(\"b\", \"a\")", None, &[2, 1]),
        ],
        b"a",
        Some(1),
        None,
    ),
    (
        1,
        &[(Reading::Expression, "@3.v(1, \"x\")", None, &[3, 2])],
        b"x",
        Some(1),
        Some(2),
    ),
    (
        MOST_TEXTS,
        &[
            (
                Reading::Expression,
                "\"1\" == \"a\"",
                Some((1, 8, Rule::J17)),
                &[],
            ),
            (Reading::Expression, "\"1\" == \"2\"", None, &[]),
        ],
        b"1",
        Some(1),
        Some(MOST_TEXTS),
    ),
    // One after the other with one pool, which keeps its texts, also where a tree is refused; with room for no text; and with room for one.
    (
        1,
        &[
            (TEXTS, "T(\"a\", \"b\", \"a\")", None, &[1, 2, 1]),
            (TEXTS, "T(\"c\", 1, \"b\")", Some((1, 8, Rule::N5)), &[]),
            (TEXTS, "T(\"b\", \"a\", \"\")", None, &[2, 1, 0]),
        ],
        b"a",
        Some(1),
        None,
    ),
    (
        MOST_TEXTS,
        &[
            (TEXTS, "T(\"1\", \"\", \"65535\")", None, &[1, 0, 65_535]),
            (TEXTS, "T(\"a\", \"1\", \"2\")", Some((1, 3, Rule::N7)), &[]),
            (TEXTS, "T(\"1\", \"a\", \"b\")", Some((1, 8, Rule::N7)), &[]),
            (TEXTS, "T(\"a\")", Some((1, 1, Rule::N3)), &[]),
            (TEXTS, "U(\"a\", 1)", Some((1, 1, Rule::N6)), &[]),
            (
                TEXTS,
                "T(U(\"a\", 1), \"a\", 1)",
                Some((1, 3, Rule::N5)),
                &[],
            ),
            (
                TEXTS,
                "T(T(\"a\", \"a\", \"a\"), \"b\", [])",
                Some((1, 3, Rule::N5)),
                &[],
            ),
            // A text too many that stands in a wrong place.
            (
                Reading::Tree("N ::= <V:int>;"),
                "N(\"a\")",
                Some((1, 3, Rule::N5)),
                &[],
            ),
            (
                Reading::Tree("R ::= r:R*;"),
                "R(\"a\")",
                Some((1, 3, Rule::N4)),
                &[],
            ),
        ],
        b"1",
        Some(1),
        Some(MOST_TEXTS),
    ),
    (
        MOST_TEXTS - 1,
        &[(TEXTS, "T(\"1\", \"2\", \"3\")", None, &[1, 2, 3])],
        b"1",
        Some(1),
        Some(MOST_TEXTS - 1),
    ),
    (
        MOST_TEXTS - 1,
        &[(TEXTS, "T(\"a\", \"a\", \"1\")", None, &[65_535, 65_535, 1])],
        b"1",
        Some(1),
        Some(MOST_TEXTS),
    ),
    (
        MOST_TEXTS - 1,
        &[(
            TEXTS,
            "T(\"a\", \"a\", \"b\")",
            Some((1, 13, Rule::N7)),
            &[],
        )],
        b"1",
        Some(1),
        Some(MOST_TEXTS),
    ),
    (
        MOST_TEXTS - 1,
        &[(
            TEXTS,
            "T(\"b\",\n \"a\", \"b\")",
            Some((2, 2, Rule::N7)),
            &[],
        )],
        b"1",
        Some(1),
        Some(MOST_TEXTS),
    ),
];

// Two numbers in an expression: those of the texts that are the arguments of a call, or the node and how many arguments a call of `v` there has.
fn numbers_in(expr: &Expr) -> Option<[u32; 2]> {
    match expr {
        Expr::Call(_, list) => match (list.first(), list.get(1)) {
            (Some(Expr::Text(_, first)), Some(Expr::Text(_, second))) => Some([*first, *second]),
            _ => None,
        },
        Expr::Member(receiver, name, list) => match &**receiver {
            Expr::Source(_, node) if name.text.as_slice() == b"v".as_slice() => {
                Some([*node, u32::try_from(list.len()).ok()?])
            }
            _ => None,
        },
        _ => None,
    }
}

// Puts down the codes of the components of the root.
fn push_codes(tree: &Tree, codes: &mut Vec<u32>) -> Result<(), ReadFault> {
    if tree.len() == 0 {
        return Ok(());
    }
    for k in 0..tree.components(0) {
        codes.push(tree.token(0, k))?;
    }
    Ok(())
}

// Puts down the numbers of the texts of so many tokens.
fn read_tokens(
    alloc: Global,
    rule: Rule,
    bytes: &[u8],
    count: usize,
    pool: &mut Pool,
    numbers: &mut Vec<u32>,
) -> Result<(), ReadFault>
    requires { length bytes.now ≤ longest_file }
{
    let tokens = tokens_of(alloc, bytes, rule)?;
    let front = &tokens[..count.min(tokens.len())];
    let mut broken = Earliest::new();
    *numbers = pool_texts(alloc, front, pool, rule, &mut broken)?;
    broken.answer()
}

// Puts down the numbers in an expression.
fn read_numbers(
    alloc: Global,
    bytes: &[u8],
    pool: &mut Pool,
    numbers: &mut Vec<u32>,
) -> Result<(), ReadFault>
    requires { length bytes.now ≤ longest_file }
{
    let tokens = tokens_of(alloc, bytes, Rule::J1)?;
    let found = numbers_in(&read_expr(alloc, &tokens, pool)?);
    if let Some(two) = found {
        numbers.extend_from_slice(&two)?;
    }
    Ok(())
}

// Puts down the codes of the components of the root of a tree.
fn read_codes(
    alloc: Global,
    ast: &str,
    bytes: &[u8],
    pool: &mut Pool,
    numbers: &mut Vec<u32>,
) -> Result<(), ReadFault>
    requires { length bytes.now ≤ longest_file }
{
    let grammar = grammar_of(alloc, ast)?;
    let tree = read_tree_bytes(alloc, &grammar, bytes, pool)?;
    push_codes(&tree, numbers)
}

// Reads a text, and puts down its numbers, those of so many tokens.
fn read(
    alloc: Global,
    reading: &Reading,
    text: &str,
    count: usize,
    pool: &mut Pool,
    numbers: &mut Vec<u32>,
) -> Result<(), ReadFault> {
    let bytes = text.as_bytes();
    if bytes.len() > LONGEST_FILE {
        return Err(ReadFault::Memory);
    }
    match reading {
        Reading::Tokens(rule) => read_tokens(alloc, *rule, bytes, count, pool, numbers),
        Reading::Aspects => match read_jrag_bytes(alloc, bytes, pool) {
            Ok(_) => Ok(()),
            Err(fault) => Err(fault),
        },
        Reading::Expression => read_numbers(alloc, bytes, pool, numbers),
        Reading::Tree(ast) => read_codes(alloc, ast, bytes, pool, numbers),
    }
}

// The first text that breaks another rule or has other numbers, or else how many texts there are in the end where another number is wanted.
fn other_read(alloc: Global, group: &Pooled) -> Result<Option<usize>, ReadFault> {
    let (texts, rows, last, number, count) = *group;
    let mut pool = numbered_pool(alloc, texts)?;
    for (k, (reading, text, fault, want)) in rows.iter().enumerate() {
        let mut numbers = Vec::new(alloc);
        let found = read(alloc, reading, text, want.len(), &mut pool, &mut numbers);
        if found != answer_of(*fault) || numbers.as_slice() != *want {
            return Ok(Some(k));
        }
        if pool.find(last) != number {
            return Ok(Some(k));
        }
    }
    match count {
        Some(count) if count != pool.len() => Ok(Some(pool.len() as usize)),
        _ => Ok(None),
    }
}

fn answer_of(fault: Fault) -> Result<(), ReadFault> {
    match fault {
        Some((line, column, rule)) => {
            let place = Place { line, column };
            Err(ReadFault::Broken(Broken { place, rule }))
        }
        None => Ok(()),
    }
}

// The first group and in it the first text that is read otherwise.
fn other_group(alloc: Global) -> Result<Option<(usize, usize)>, ReadFault> {
    for (k, group) in POOLED.iter().enumerate() {
        if let Some(other) = other_read(alloc, group)? {
            return Ok(Some((k, other)));
        }
    }
    Ok(None)
}

#[test]
fn texts_are_read_with_one_pool(rt: HostRuntime) {
    assert_eq!(rt; other_group(rt.alloc()), Ok(None));
}

// What stands before a word and behind it, words, and the rule that each of them breaks there.
type Words = (&'static str, &'static str, &'static str, Rule);

// Words that neither are names nor begin an expression: of types, and others that are reserved.
const NEITHER: &str = "boolean int String Set instanceof nta lazy aspect when to for";

// Words of values, which are no names.
const VALUES: &str = "true false null empty this new";

// Words that items begin with, which begin no expression.
const ITEMS: &str = "syn inh eq coll";

// What isn't read at all, and the sign of a body in Java.
const LEFT_OUT: &str =
    "import refine rewrite interface class public private protected static void {";

const WORDS: [Words; 24] = [
    // At names.
    ("x.", "()", NEITHER, Rule::J1),
    ("x.", "()", VALUES, Rule::J1),
    ("x.", "()", LEFT_OUT, Rule::J16),
    ("new ", "()", NEITHER, Rule::J1),
    ("new ", "()", VALUES, Rule::J1),
    ("new ", "()", LEFT_OUT, Rule::J16),
    ("@1 instanceof ", "", NEITHER, Rule::J1),
    ("@1 instanceof ", "", VALUES, Rule::J1),
    ("@1 instanceof ", "", LEFT_OUT, Rule::J16),
    // At expressions.
    ("", "", NEITHER, Rule::J1),
    ("", "", ITEMS, Rule::J1),
    ("", "", LEFT_OUT, Rule::J16),
    ("", "(1)", NEITHER, Rule::J1),
    ("", "(1)", ITEMS, Rule::J1),
    ("", "(1)", LEFT_OUT, Rule::J16),
    ("(", ") x", NEITHER, Rule::J1),
    ("(", ") x", ITEMS, Rule::J1),
    ("(", ") x", LEFT_OUT, Rule::J16),
    ("each(", " : r | e)", NEITHER, Rule::J1),
    ("each(", " : r | e)", ITEMS, Rule::J1),
    ("each(", " : r | e)", LEFT_OUT, Rule::J16),
    ("f(@2, ", ")", NEITHER, Rule::J1),
    ("f(@2, ", ")", ITEMS, Rule::J1),
    ("f(@2, ", ")", LEFT_OUT, Rule::J16),
];

// The first of the words that doesn't break its rule where it stands.
fn other_word(alloc: Global, row: &Words) -> Result<Option<&'static str>, ReadFault> {
    let (before, behind, words, rule) = *row;
    let column = u32::try_from(before.len().saturating_add(1)).unwrap_or(0);
    let want = answer_of(Some((1, column, rule)));
    for word in words.split_ascii_whitespace() {
        let text = format!(in alloc; "{before}{word}{behind}")?;
        let mut pool = Pool::new(alloc)?;
        let mut numbers = Vec::new(alloc);
        let reading = &Reading::Expression;
        if read(alloc, reading, text.as_str(), 0, &mut pool, &mut numbers) != want {
            return Ok(Some(word));
        }
    }
    Ok(None)
}

// The first row with such a word, and the word.
fn other_words(alloc: Global) -> Result<Option<(usize, &'static str)>, ReadFault> {
    for (k, row) in WORDS.iter().enumerate() {
        if let Some(word) = other_word(alloc, row)? {
            return Ok(Some((k, word)));
        }
    }
    Ok(None)
}

#[test]
fn words_in_single_expressions_are_those_in_files(rt: HostRuntime) {
    assert_eq!(rt; other_words(rt.alloc()), Ok(None));
}
