// The parts of a tree, numbered node by node and in each node by component.
ghost use Rattle.std.specs.Prelude.{◌≡◌, ◌<◌, ◌^◌, IfOk, length, map};
ghost use Rattle.tree_arena.specs.Kept.{node_of};
ghost use Rattle.tree_arena.specs.Parts.{codes_of, firsts_of, keys_of};
ghost use Rattle.tree_arena.specs.Terms.{IsTree};

use crate::tree::FirstNode;
use rag_io::Memory;
use std::alloc::Global;

// The codes at the parts of all nodes.
pub(crate) fn codes_of(alloc: Global, nodes: &[FirstNode]) -> Result<Vec<u32>, Memory>
    ensures { IfOk result (λ v. v.items ≡ codes_of (map node_of nodes.now)) }
{
    let mut codes = Vec::with_capacity(alloc, nodes.len()).map_err(|_| Memory)?;
    for node in nodes {
        codes
            .extend_from_slice(node.tokens.list())
            .map_err(|_| Memory)?;
    }
    Ok(codes)
}

// The first part of each node.
pub(crate) fn firsts_of(alloc: Global, nodes: &[FirstNode]) -> Result<Vec<u32>, Memory>
    requires { length (codes_of (map node_of nodes.now)) < 2 ^ 32 }
    ensures { IfOk result (λ v. v.items ≡ firsts_of (map node_of nodes.now)) }
{
    let mut firsts = Vec::with_capacity(alloc, nodes.len()).map_err(|_| Memory)?;
    let mut first = 0;
    for node in nodes {
        firsts.push(first).map_err(|_| Memory)?;
        first += node.tokens.list().len() as u32;
    }
    Ok(firsts)
}

// The part at which each node hangs; the root hangs nowhere.
pub(crate) fn keys_of(
    alloc: Global,
    nodes: &[FirstNode],
    firsts: &[u32],
) -> Result<Vec<Option<u32>>, Memory>
    requires tree { IsTree (map node_of nodes.now) }
    requires few { length (codes_of (map node_of nodes.now)) < 2 ^ 32 }
    requires firsts { firsts.now ≡ firsts_of (map node_of nodes.now) }
    ensures { IfOk result (λ v. v.items ≡ keys_of (map node_of nodes.now)) }
{
    let mut keys = vec![in alloc; None].map_err(|_| Memory)?;
    keys.reserve(nodes.len()).map_err(|_| Memory)?;
    for n in 1..nodes.len() {
        let node = &nodes[n];
        let part = firsts[node.parent as usize] + node.component;
        keys.push(Some(part)).map_err(|_| Memory)?;
    }
    Ok(keys)
}
