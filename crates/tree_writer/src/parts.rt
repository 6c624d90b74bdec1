// The stack of what is still to be written.
ghost use Rattle.std.specs.Prelude.{◌≡◌, ◌++◌, ◌∷◌, OnOk, reverse};
ghost use Rattle.tree_writer.specs.Parts.{PutsNodes, arguments_from, comma_unless, listed};
ghost use Rattle.tree_writer.specs.Showing.{IsShown};

use crate::showing::ShowsNodes;
use rag_io::Memory;

/// A part of what is still to be written.
#[derive(Clone, Copy)]
pub(crate) enum Part {
    /// The subtree of a node.
    Node(u32),
    /// What stands at a component of a node.
    Argument(u32, u32),
    /// The comma and the space between two arguments or two elements.
    Comma,
    /// The parenthesis behind the arguments of a node.
    Close,
    /// The bracket behind a list or an optional.
    CloseList,
}

pub(crate) fn push(stack: &mut Vec<Part>, part: Part) -> Result<(), Memory>
    ensures { OnOk result (reverse stack.new.items ≡ part ∷ reverse stack.old.items) }
{
    stack.push(part).map_err(|_| Memory)
}

// Puts a part on the stack, and a comma behind it unless it is the last.
fn push_listed(stack: &mut Vec<Part>, part: Part, is_last: bool) -> Result<(), Memory>
    ensures { OnOk result (reverse stack.new.items ≡ part ∷ comma_unless is_last (reverse stack.old.items)) }
{
    if !is_last {
        push(stack, Part::Comma)?;
    }
    push(stack, part)
}

/// The nodes that hang at a component of a node, with commas between them.
pub(crate) fn push_nodes<N: ShowsNodes>(
    nodes: &mut N,
    stack: &mut Vec<Part>,
    n: u32,
    k: u32,
) -> Result<(), Memory>
    requires { IsShown (N.shows nodes.old) n }
    ensures kept { N.keeps nodes.old nodes.new }
    ensures put { OnOk result (PutsNodes (N.shows nodes.old) (N.shows nodes.new) n k (reverse stack.old.items) (reverse stack.new.items)) }
{
    let count = nodes.count(n, k);
    'places: for i in (0..count).rev() {
        let child = nodes.child(n, k, i);
        push_listed(stack, Part::Node(child), i + 1 == count)?;
    }
    Ok(())
}

/// So many arguments of a node, with commas between them.
pub(crate) fn push_arguments(stack: &mut Vec<Part>, n: u32, count: u32) -> Result<(), Memory>
    ensures { OnOk result (reverse stack.new.items ≡ listed (arguments_from n 0 count) ++ reverse stack.old.items) }
{
    'arguments: for k in (0..count).rev() {
        push_listed(stack, Part::Argument(n, k), k + 1 == count)?;
    }
    Ok(())
}
