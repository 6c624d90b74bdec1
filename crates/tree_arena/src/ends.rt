// Where the subtrees of nodes in preorder end.
ghost use Rattle.std.specs.Prelude.{◌≡◌, ℕ, ◌<◌, ◌≤◌, IfOk, length, map, slice_index};
ghost use Rattle.tree_arena.specs.Kept.{node_of};
ghost use Rattle.tree_arena.specs.Nodes.{end_in, most_nodes};
ghost use Rattle.tree_arena.specs.Parts.{ends_of};

use crate::tree::FirstNode;
use rag_io::Memory;
use std::alloc::Global;

// One past the subtree of a node, where `ends` has this of each node behind it: the nodes behind it belong to it as long as they hang
// at it or behind it, and with one of them its whole subtree does.
fn end_of(nodes: &[FirstNode], ends: &[u32], n: usize) -> usize
    requires known { n < length nodes.now }
    requires len { length ends.now ≡ length nodes.now }
    requires behind { (m : ℕ) → n < m → m < length nodes.now → slice_index ends.now m ≡ end_in (map node_of nodes.now) m }
    ensures end { result ≡ end_in (map node_of nodes.now) n }
    ensures within { result ≤ length nodes.now }
{
    let mut end = n + 1;
    while end < nodes.len() && n <= nodes[end].parent as usize {
        end = ends[end] as usize;
    }
    end
}

// One past the subtree of each node, from the last to the first. For each the nodes that hang at it are passed over, so this takes linear
// time.
pub(crate) fn ends_of(alloc: Global, nodes: &[FirstNode]) -> Result<Vec<u32>, Memory>
    requires { length nodes.now ≤ most_nodes }
    ensures { IfOk result (λ v. v.items ≡ ends_of (map node_of nodes.now)) }
{
    let mut ends = vec![in alloc; 0; nodes.len()].map_err(|_| Memory)?;
    for n in (0..nodes.len()).rev() {
        ends[n] = end_of(nodes, &ends, n) as u32;
    }
    Ok(ends)
}
