// A reader with a stack of symbols.
ghost use Rattle.std.specs.Prelude.{◌≡◌, ℕ, ◌+◌, ◌-◌, ◌*◌, ◌<◌, ◌≤◌, List, [], ◌∷◌, reverse, length, slice_index_or, MatchOption};
ghost use Rattle.ll_parser.specs.Grammar.{nth};
ghost use Rattle.ll_parser.specs.Table.{Claims};
ghost use Rattle.ll_parser.specs.Stack.{rows_of, body_at, choice_of, Chosen, MovesBy, Ready, Works, Advances, Parses, Seen};

use crate::symbols::{Memory, ParseFault, Step, Symbol, Table};
use std::alloc::{AllocError, Global};

// The first index of a body.
fn start_of(starts: &[u16], p: usize) -> usize
    ensures { result ≡ slice_index_or starts.now p 0 }
{
    match starts.get(p) {
        Some(at) => *at as usize,
        None => 0,
    }
}

// A part of the bodies.
fn body_of(bodies: &[Symbol], from: usize, to: usize) -> &[Symbol]
    ensures { result.now ≡ body_at bodies.now from to }
{
    let end = to.min(bodies.len());
    let begin = from.min(end);
    &bodies[begin..end]
}

// The body of the row of this number, where it is one for n.
fn row_of<'a>(table: &Table<'a>, p: u8, n: u8) -> Option<&'a [Symbol]>
    ensures { Chosen (rows_of table.now) p n (Seen result) }
{
    let p = p as usize;
    match table.of.get(p) {
        Some(of) => {
            if *of == n {
                Some(body_of(
                    table.bodies,
                    start_of(table.starts, p),
                    start_of(table.starts, p + 1),
                ))
            } else {
                None
            }
        }
        None => None,
    }
}

// The number of the row for n at t.
fn choice(choices: &[u8], n: u8, t: u8) -> u8
    ensures { result ≡ choice_of choices.now n t }
{
    match choices.get(n as usize * 64 + t as usize) {
        Some(p) => *p,
        None => 255,
    }
}

// A step at a symbol that was taken off the stack.
#[tactic(auto, using(crate::proofs::Coding::moves))]
fn step(
    table: &Table<'_>,
    stack: &mut Vec<Symbol>,
    events: &mut Vec<u8>,
    top: Symbol,
    t: u8,
) -> Result<Step, Memory>
    ensures { MovesBy table.now t (top ∷ reverse stack.old.items) events.old.items result (reverse stack.new.items) events.new.items }
{
    match top {
        Symbol::Terminal(c) => {
            if c == t {
                match events.push(255) {
                    Ok(_) => Ok(Step::Shifts),
                    Err(_) => Err(Memory),
                }
            } else {
                Ok(Step::Stops)
            }
        }
        Symbol::Action(a) => {
            match events.push(a) {
                Ok(_) => Ok(Step::Goes),
                Err(_) => Err(Memory),
            }
        }
        Symbol::Nonterminal(n) => {
            match row_of(table, choice(table.choice, n, t), n) {
                Some(body) => {
                    match stack.extend_from_slice(body) {
                        Ok(_) => Ok(Step::Goes),
                        Err(_) => Err(Memory),
                    }
                }
                None => Ok(Step::Stops),
            }
        }
    }
}

// All steps before a token, and the token.
fn advance(
    table: &Table<'_>,
    n: u8,
    stack: &mut Vec<Symbol>,
    events: &mut Vec<u8>,
    t: u8,
) -> Result<bool, Memory>
    ghost facts: { Claims }
    requires works { Works (rows_of table.now) n (choice_of table.now.choice.now) facts }
    requires ready { Ready (rows_of table.now) facts (reverse stack.old.items) }
    ensures { Advances (rows_of table.now) facts t (reverse stack.old.items) events.old.items result (reverse stack.new.items) events.new.items }
{
    'steps: while let Some(top) = stack.pop() {
        match step(table, stack, events, top, t) {
            Ok(Step::Goes) => {}
            Ok(Step::Shifts) => return Ok(true),
            Ok(Step::Stops) => return Ok(false),
            Err(e) => return Err(e),
        }
    }
    Ok(false)
}

/// Reads the classes of some tokens, the last of which is the end of the file. Ok leaves in `events` the events with
/// which they are a sentence of the nonterminal n: 255 for each token, and the number of each action where it stands.
/// `At(i)` names the first token such that the tokens up to it begin no sentence, and leaves the events before it.
///
/// The caller names, as a ghost, claims about the grammar with which the table fits it. It takes time and memory
/// linear in the tokens, and doesn't recurse: nesting costs a place on a stack in memory.
pub fn parse(
    alloc: Global,
    table: &Table<'_>,
    n: u8,
    codes: &[u8],
    events: &mut Vec<u8>,
) -> Result<(), ParseFault>
    ghost facts: { Claims }
    requires works { Works (rows_of table.now) n (choice_of table.now.choice.now) facts }
    requires some { 0 < length codes.now }
    requires ends { slice_index_or codes.now (length codes.now - 1) 1 ≡ 0 }
    requires fresh { events.old.items ≡ [] }
    ensures { Parses (rows_of table.now) n codes.now result events.new.items }
{
    let mut stack = Vec::new(alloc);
    stack.push(Symbol::Terminal(0))?;
    stack.push(Symbol::Nonterminal(n))?;
    'tokens: for (i, code) in codes.iter().enumerate() {
        let before = events.len();
        match advance(table, n, &mut stack, events, *code) {
            Ok(true) => {}
            Ok(false) => {
                events.truncate(before);
                return Err(ParseFault::At(i));
            }
            Err(_) => return Err(ParseFault::OutOfMemory),
        }
    }
    Ok(())
}
