// The nodes of each class and of its subclasses, from the first to the last.
ghost use Rattle.std.specs.Prelude.{◌≡◌, ◌≤◌, ◌<◌, ◌⊎◌, List, IfOk, length, replicate};
ghost use Rattle.tree_arena.specs.Nodes.{Node};
ghost use Rattle.equation_law.specs.Spans.{AreOfClasses, AreSpans, IsSpan, Joins};

use ast_grammar::{ClassId, Grammar};
use rag_io::Memory;
use std::alloc::Global;
use tree_arena::Tree;

/// Nodes side by side: from the first on, below the end. With the end 0 there is none.
#[derive(Clone, Copy, Debug, PartialEq, Eq)]
pub struct Span {
    pub first: u32,
    pub end: u32,
}

// The span of each class, by the number of the class.
#[derive(Drop)]
pub struct Spans {
    pub(crate) firsts: Vec<u32>,
    pub(crate) ends: Vec<u32>,
}

// As many zeros as there are classes.
fn zeros(alloc: Global, classes: u32) -> Result<Vec<u32>, Memory>
    ensures { IfOk result (λ list. list.items ≡ replicate classes 0) }
{
    vec![in alloc; 0; classes as usize].map_err(|_| Memory)
}

fn least(one: u32, other: u32) -> u32
    ensures first { result ≤ one }
    ensures second { result ≤ other }
    ensures either { (result ≡ one) ⊎ (result ≡ other) }
{
    if one < other { one } else { other }
}

fn most(one: u32, other: u32) -> u32
    ensures first { one ≤ result }
    ensures second { other ≤ result }
    ensures either { (result ≡ one) ⊎ (result ≡ other) }
{
    if one < other { other } else { one }
}

// The nodes of two spans, with those between them.
fn joined(one: Span, other: Span) -> Span
    ensures { Joins one other result }
{
    if one.end == 0 {
        return other;
    }
    if other.end == 0 {
        return one;
    }
    let first = least(one.first, other.first);
    let end = most(one.end, other.end);
    Span { first, end }
}

// The first node of a class, where its nodes so far are given and one more is met.
fn first_with(first: u32, end: u32, node: u32) -> u32
    ensures none { end ≡ 0 → result ≡ node }
    ensures some { 0 < end → result ≡ first }
{
    if end == 0 { node } else { first }
}

// The nodes of each class, subclasses aside.
fn of_classes(alloc: Global, classes: u32, tree: &Tree) -> Result<Spans, Memory>
    ensures { IfOk result (λ s. AreOfClasses tree.now classes s.firsts.items s.ends.items) }
{
    let mut firsts = zeros(alloc, classes)?;
    let mut ends = zeros(alloc, classes)?;
    for node in 0..tree.len() {
        let class = tree.class_of(node).0 as usize;
        if class < classes as usize {
            firsts[class] = first_with(firsts[class], ends[class], node);
            ends[class] = node + 1;
        }
    }
    Ok(Spans { firsts, ends })
}

// The nodes of a class and of its subclasses, by those of each class alone.
fn span_below(grammar: &Grammar, own: &Spans, class: u32) -> Span
    requires firsts { length own.now.firsts.items ≡ length grammar.now }
    requires ends { length own.now.ends.items ≡ length grammar.now }
    requires class { class < length grammar.now }
    ensures { (tree : List Node) → AreOfClasses tree (length grammar.now) own.now.firsts.items own.now.ends.items → IsSpan grammar.now tree class result }
{
    let mut span = Span { first: 0, end: 0 };
    for number in 0..grammar.classes() {
        if grammar.is_sub(ClassId(number as u16), ClassId(class as u16)) {
            let first = own.firsts[number as usize];
            let end = own.ends[number as usize];
            span = joined(span, Span { first, end });
        }
    }
    span
}

/// The nodes of each class and of its subclasses. This takes linear time in the nodes.
pub(crate) fn spans_of(alloc: Global, grammar: &Grammar, tree: &Tree) -> Result<Spans, Memory>
    ensures { IfOk result (λ s. AreSpans grammar.now tree.now s.firsts.items s.ends.items) }
{
    let classes = grammar.classes();
    let own = of_classes(alloc, classes, tree)?;
    let mut firsts = zeros(alloc, classes)?;
    let mut ends = zeros(alloc, classes)?;
    for class in 0..classes {
        let span = span_below(grammar, &own, class);
        firsts[class as usize] = span.first;
        ends[class as usize] = span.end;
    }
    Ok(Spans { firsts, ends })
}
