// The reader of queries in the first form.
ghost use Rattle.std.specs.Prelude.{◌≡◌, ◌<◌, ◌≤◌, ◌++◌, ◌∷◌, [], length, map, IfOk};
ghost use Rattle.std.specs.List.{take_while};
ghost use Rattle.rag_io.specs.Lexemes.{is_white};
ghost use Rattle.rag_io.specs.Outside.{longest_file};
ghost use Rattle.rag_io.specs.Tokens.{AreTokens, seen_tokens};
ghost use Rattle.ast_grammar.specs.Grammar.{superclasses_of};
ghost use Rattle.attr_equations.specs.Kept.{rules_in};
ghost use Rattle.attr_rules.specs.Queries.{query_of};
ghost use Rattle.program_reader.specs.Queries.{is_inside, is_silent, AnswersQueries};
ghost use Rattle.program_reader.specs.QuerySteps.{FindsNode, AnswersCallOf, AnswersQuery, AnswersLine, IsFirstLine, ReadsLine};
ghost use Rattle.program_reader.specs.Tokens.{place_at as lexed_place, text_at as lexed_text};

use crate::query_language::QueryLanguage;
use ast_grammar::Grammar;
use attr_equations::Rules;
use attr_rules::QueryEq;
use attr_types::query_of_call;
use rag_io::{Memory, Place, ScanFault, Token, capped, scan};
use sentences::sentence;
use std::alloc::Global;
use token_texts::place_of;
use tree_arena::Tree;

/// A query file has at most so many lines.
const MOST_LINES: usize = 65_536;

// The node of the number that the digits write.
fn find_node(tree: &Tree, digits: &[u8]) -> Option<u32>
    ensures { FindsNode tree.now digits.now result }
{
    let node = capped(digits, u64::from(u32::MAX)) as u32;
    if node < tree.len() { Some(node) } else { None }
}

// The text of the token of this number.
fn text_at<'a>(tokens: &[Token<'a>], k: usize) -> &'a [u8]
    ensures { result.now ≡ lexed_text (seen_tokens tokens.now) k }
{
    match tokens.get(k) {
        Some(token) => token.text,
        None => b"".as_slice(),
    }
}

// The place of the token of this number.
fn place_at(tokens: &[Token<'_>], k: usize) -> Place
    ensures { result ≡ lexed_place (seen_tokens tokens.now) k }
{
    match tokens.get(k) {
        Some(token) => place_of(token),
        None => Place { line: 1, column: 1 },
    }
}

// The accessor or the attribute of this name at the node of the number that the digits write.
fn call(
    alloc: Global,
    grammar: &Grammar,
    rules: &Rules,
    tree: &Tree,
    tokens: &[Token<'_>],
) -> Result<Option<QueryEq>, Memory>
    requires { (rules_in rules.now).superclasses ≡ superclasses_of grammar.now }
    ensures { AnswersCallOf grammar.now (rules_in rules.now) tree.now (seen_tokens tokens.now) result }
{
    let Some(node) = find_node(tree, text_at(tokens, 1)) else {
        return Ok(None);
    };
    let class = tree.class_of(node);
    let place = place_at(tokens, 3);
    query_of_call(
        alloc,
        grammar,
        rules,
        node,
        class,
        text_at(tokens, 3),
        place,
    )
}

fn query_of_tokens(
    alloc: Global,
    grammar: &Grammar,
    rules: &Rules,
    tree: &Tree,
    tokens: &[Token<'_>],
) -> Result<Option<QueryEq>, Memory>
    requires tokens { AreTokens (seen_tokens tokens.now) }
    requires classes { (rules_in rules.now).superclasses ≡ superclasses_of grammar.now }
    ensures { AnswersQuery grammar.now (rules_in rules.now) tree.now (seen_tokens tokens.now) result }
{
    match sentence(alloc, &QueryLanguage, tokens)? {
        Some(_) => call(alloc, grammar, rules, tree, tokens),
        None => Ok(None),
    }
}

// The query that the bytes of a line say.
fn query_of_line(
    alloc: Global,
    grammar: &Grammar,
    rules: &Rules,
    tree: &Tree,
    line: &[u8],
) -> Result<Option<QueryEq>, Memory>
    requires short { length line.now ≤ longest_file }
    requires classes { (rules_in rules.now).superclasses ≡ superclasses_of grammar.now }
    ensures { AnswersLine grammar.now (rules_in rules.now) tree.now line.now result }
{
    match scan(alloc, line) {
        Ok(tokens) => query_of_tokens(alloc, grammar, rules, tree, &tokens),
        Err(ScanFault::Bad(_)) => Ok(None),
        Err(ScanFault::Memory) => Err(Memory),
    }
}

fn is_white(b: u8) -> bool
    ensures { result ≡ is_white b }
{
    b == b' ' || b == b'\t' || b == b'\n' || b == b'\r' || b == 12
}

// A line that holds white space only, or a `#` as its first byte that isn't white space.
fn is_silent(line: &[u8]) -> bool
    ensures { result ≡ is_silent line.now }
{
    for b in line {
        if !is_white(*b) {
            return *b == b'#';
        }
    }
    true
}

fn line_length(bytes: &[u8]) -> usize
    ensures value { result ≡ length (take_while is_inside bytes.now) }
    ensures within { result ≤ length bytes.now }
{
    bytes.iter().take_while(|b| **b != b'\n').count()
}

// The first line of some bytes, and the bytes behind it.
fn first_line(bytes: &[u8]) -> (&[u8], &[u8])
    ensures line { IsFirstLine bytes.now result.0.now result.1.now }
    ensures within { length result.0.now ≤ length bytes.now }
    ensures rest { length result.1.now ≤ length bytes.now }
    ensures shorter { 0 < length bytes.now → length result.1.now < length bytes.now }
{
    let (line, behind) = bytes.split_at(line_length(bytes));
    match behind {
        [_, rest @ ..] => (line, rest),
        [] => (line, behind),
    }
}

fn add(list: &mut Vec<QueryEq>, query: QueryEq) -> Result<(), Memory>
    ensures { IfOk result (λ u. map query_of list.new.items ≡ map query_of list.old.items ++ query_of query ∷ []) }
{
    list.push(query).map_err(|_| Memory)
}

// Adds what a line says, or answers false where it says no query and isn't silent.
fn read_line(
    alloc: Global,
    grammar: &Grammar,
    rules: &Rules,
    tree: &Tree,
    line: &[u8],
    list: &mut Vec<QueryEq>,
) -> Result<bool, Memory>
    requires short { length line.now ≤ longest_file }
    requires classes { (rules_in rules.now).superclasses ≡ superclasses_of grammar.now }
    ensures { ReadsLine grammar.now (rules_in rules.now) tree.now line.now result (map query_of list.old.items) (map query_of list.new.items) }
{
    if is_silent(line) {
        return Ok(true);
    }
    match query_of_line(alloc, grammar, rules, tree, line)? {
        Some(query) => {
            add(list, query)?;
            Ok(true)
        }
        None => Ok(false),
    }
}

/// The queries that the bytes of a query file say, or None exactly where they say none in the form that is
/// read so far: at most 65,536 lines, each of them white space, a `#` line, or `@NUMBER.NAME()` with
/// the name of an attribute without parameters or of an accessor without arguments of the node's class.
pub(crate) fn read_queries(
    alloc: Global,
    grammar: &Grammar,
    rules: &Rules,
    tree: &Tree,
    bytes: &[u8],
) -> Result<Option<Vec<QueryEq>>, Memory>
    requires short { length bytes.now ≤ longest_file }
    requires classes { (rules_in rules.now).superclasses ≡ superclasses_of grammar.now }
    ensures { AnswersQueries grammar.now (rules_in rules.now) tree.now bytes.now result }
{
    let mut list = Vec::new(alloc);
    let mut rest = bytes;
    let mut lines: usize = 0;
    'lines: while !rest.is_empty() {
        if lines == MOST_LINES {
            return Ok(None);
        }
        let (line, behind) = first_line(rest);
        if !read_line(alloc, grammar, rules, tree, line, &mut list)? {
            return Ok(None);
        }
        rest = behind;
        lines += 1;
    }
    Ok(Some(list))
}
