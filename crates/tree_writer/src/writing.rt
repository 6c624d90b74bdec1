// The canonical text of a tree.
ghost use Rattle.std.specs.Prelude.{◌≡◌, ◌<◌, ◌++◌, ◌∷◌, IfOk, OnOk, length, reverse};
ghost use Rattle.std.specs.Fmt.{signed_decimal};
ghost use Rattle.tree_arena.specs.Terms.{IsTreeOf};
ghost use Rattle.tree_writer.specs.Canonical.{IsCanonicalOf, int_text, truth_text};
ghost use Rattle.tree_writer.specs.Parts.{AddsSubtree, GoesOn, HasSubtree, IsPart};

use crate::parts::{Part, push, push_arguments, push_nodes};
use crate::showing::{ShowsNodes, SourceNodes};
use ast_grammar::{Grammar, Shape};
use rag_io::{Memory, Pool, push_quoted};
use std::alloc::Global;
use tree_arena::Tree;

// How many bytes are set aside for the text of a node. Longer texts take more as they go.
const USUAL_LENGTH: usize = 16;

// What nodes are written by: their grammar, and the texts of their tokens.
#[derive(Clone, Copy)]
struct Source<'a> {
    grammar: &'a Grammar,
    pool: &'a Pool,
}

fn add(text: &mut Vec<u8>, bytes: &[u8]) -> Result<(), Memory>
    ensures { OnOk result (text.new.items ≡ text.old.items ++ bytes.now) }
{
    text.extend_from_slice(bytes).map_err(|_| Memory)
}

fn add_signed(alloc: Global, text: &mut Vec<u8>, int: i32) -> Result<(), Memory>
    ensures { OnOk result (text.new.items ≡ text.old.items ++ signed_decimal int) }
{
    let digits = int.to_string(alloc).map_err(|_| Memory)?;
    add(text, digits.as_bytes())
}

// The integer of a code, in two's complement.
fn add_int(alloc: Global, text: &mut Vec<u8>, code: u32) -> Result<(), Memory>
    ensures { OnOk result (text.new.items ≡ text.old.items ++ int_text code) }
{
    add_signed(alloc, text, code.cast_signed())
}

fn add_truth(text: &mut Vec<u8>, code: u32) -> Result<(), Memory>
    ensures { OnOk result (text.new.items ≡ text.old.items ++ truth_text code) }
{
    if code == 0 {
        add(text, b"false".as_slice())
    } else {
        add(text, b"true".as_slice())
    }
}

// Writes the front of a node, and puts its arguments on the stack.
fn write_node<N: ShowsNodes>(
    source: &Source<'_>,
    nodes: &mut N,
    text: &mut Vec<u8>,
    stack: &mut Vec<Part>,
    n: u32,
) -> Result<(), Memory>
    requires part { IsPart source.now.grammar.now source.now.pool.now (N.shows nodes.old) (Part.Node n) }
    ensures kept { N.keeps nodes.old nodes.new }
    ensures on { OnOk result (GoesOn source.now.grammar.now source.now.pool.now (N.shows nodes.old) (N.shows nodes.new) (Part.Node n) text.old.items (reverse stack.old.items) text.new.items (reverse stack.new.items)) }
    ensures more { OnOk result (length text.old.items < length text.new.items) }
{
    let class = nodes.class_of(n);
    add(text, source.grammar.class_name(class))?;
    add(text, b"(".as_slice())?;
    push(stack, Part::Close)?;
    push_arguments(stack, n, source.grammar.arity(class))
}

// Writes the front of an argument, and puts what follows on the stack: of a child the front of its node, of a list or an optional the bracket.
// A token is written whole.
fn write_argument<N: ShowsNodes>(
    alloc: Global,
    source: &Source<'_>,
    nodes: &mut N,
    text: &mut Vec<u8>,
    stack: &mut Vec<Part>,
    n: u32,
    k: u32,
) -> Result<(), Memory>
    requires part { IsPart source.now.grammar.now source.now.pool.now (N.shows nodes.old) (Part.Argument n k) }
    ensures kept { N.keeps nodes.old nodes.new }
    ensures on { OnOk result (GoesOn source.now.grammar.now source.now.pool.now (N.shows nodes.old) (N.shows nodes.new) (Part.Argument n k) text.old.items (reverse stack.old.items) text.new.items (reverse stack.new.items)) }
    ensures more { OnOk result (length text.old.items < length text.new.items) }
{
    let class = nodes.class_of(n);
    match source.grammar.component(class, k).shape {
        Shape::Child => {
            let child = nodes.child(n, k, 0);
            write_node(source, nodes, text, stack, child)
        }
        Shape::List | Shape::Optional => {
            add(text, b"[".as_slice())?;
            push(stack, Part::CloseList)?;
            push_nodes(nodes, stack, n, k)
        }
        Shape::Text => {
            let code = nodes.token(n, k);
            push_quoted(text, source.pool.get(code))
        }
        Shape::Int => {
            let code = nodes.token(n, k);
            add_int(alloc, text, code)
        }
        Shape::Truth => {
            let code = nodes.token(n, k);
            add_truth(text, code)
        }
    }
}

// Writes what is written of a part at once, and puts what follows on the stack.
fn write_part<N: ShowsNodes>(
    alloc: Global,
    source: &Source<'_>,
    nodes: &mut N,
    text: &mut Vec<u8>,
    stack: &mut Vec<Part>,
    part: Part,
) -> Result<(), Memory>
    requires part { IsPart source.now.grammar.now source.now.pool.now (N.shows nodes.old) part }
    ensures kept { N.keeps nodes.old nodes.new }
    ensures on { OnOk result (GoesOn source.now.grammar.now source.now.pool.now (N.shows nodes.old) (N.shows nodes.new) part text.old.items (reverse stack.old.items) text.new.items (reverse stack.new.items)) }
    ensures more { OnOk result (length text.old.items < length text.new.items) }
{
    match part {
        Part::Node(n) => write_node(source, nodes, text, stack, n),
        Part::Argument(n, k) => write_argument(alloc, source, nodes, text, stack, n, k),
        Part::Comma => add(text, b", ".as_slice()),
        Part::Close => add(text, b")".as_slice()),
        Part::CloseList => add(text, b"]".as_slice()),
    }
}

/// Adds the canonical text of the subtree of a node, without a line feed. It needs a subtree of this grammar whose texts are in the pool. It
/// takes time and memory in proportion to the text, and each node of the subtree is looked at once for itself and once for each component.
pub fn add_subtree<N: ShowsNodes>(
    alloc: Global,
    grammar: &Grammar,
    pool: &Pool,
    nodes: &mut N,
    n: u32,
    text: &mut Vec<u8>,
) -> Result<(), Memory>
    requires { HasSubtree grammar.now (length pool.now) (N.shows nodes.old) n }
    ensures kept { N.keeps nodes.old nodes.new }
    ensures text { OnOk result (AddsSubtree grammar.now pool.now (N.shows nodes.old) n text.old.items text.new.items) }
{
    let source = Source { grammar, pool };
    let mut stack = Vec::new(alloc);
    push(&mut stack, Part::Node(n))?;
    'parts: while let Some(part) = stack.pop() {
        write_part(alloc, &source, nodes, text, &mut stack, part)?;
    }
    Ok(())
}

/// The canonical text of a tree: no white space but one space behind each comma, integers in decimal digits without leading zeros, and one
/// line feed at its end. It needs a tree of this grammar whose texts are in the pool, and takes time and memory in proportion to the text.
pub fn write_tree(
    alloc: Global,
    grammar: &Grammar,
    tree: &Tree,
    pool: &Pool,
) -> Result<Vec<u8>, Memory>
    requires { IsTreeOf grammar.now (length pool.now) tree.now }
    ensures { IfOk result (λ text. IsCanonicalOf grammar.now pool.now tree.now text.items) }
{
    let room = tree.len() as usize * USUAL_LENGTH;
    let mut text = Vec::with_capacity(alloc, room).map_err(|_| Memory)?;
    let mut nodes = SourceNodes(tree);
    add_subtree(alloc, grammar, pool, &mut nodes, 0, &mut text)?;
    add(&mut text, b"\n".as_slice())?;
    Ok(text)
}
