// What a tree keeps of its nodes.
ghost use Rattle.std.specs.Prelude.{◌≡◌, ◌<◌, ◌^◌, IfOk, length, map};
ghost use Rattle.groups.specs.Groups.{places_of};
ghost use Rattle.tree_arena.specs.Arena.{kept_of};
ghost use Rattle.tree_arena.specs.Kept.{node_of};
ghost use Rattle.tree_arena.specs.Parts.{codes_of, ends_of, firsts_of, keys_of};
ghost use Rattle.tree_arena.specs.Terms.{IsTree};

use crate::tree::{FirstNode, KeptNode};
use rag_io::Memory;
use std::alloc::Global;

// What is kept of these nodes, by the first part, the place and the end of each.
pub(crate) fn kept_nodes(
    alloc: Global,
    nodes: &[FirstNode],
    firsts: &[u32],
    places: &[u32],
    ends: &[u32],
) -> Result<Vec<KeptNode>, Memory>
    requires tree { IsTree (map node_of nodes.now) }
    requires few { length (codes_of (map node_of nodes.now)) < 2 ^ 32 }
    requires firsts { firsts.now ≡ firsts_of (map node_of nodes.now) }
    requires places { places.now ≡ places_of (keys_of (map node_of nodes.now)) }
    requires ends { ends.now ≡ ends_of (map node_of nodes.now) }
    ensures { IfOk result (λ v. v.items ≡ kept_of (map node_of nodes.now)) }
{
    let mut kept = Vec::with_capacity(alloc, nodes.len()).map_err(|_| Memory)?;
    for (n, node) in nodes.iter().enumerate() {
        let one = KeptNode {
            class: node.class,
            parent: node.parent,
            component: node.component,
            index: places[n],
            end: ends[n],
            first: firsts[n],
            parts: node.tokens.list().len() as u32,
        };
        kept.push(one).map_err(|_| Memory)?;
    }
    Ok(kept)
}
