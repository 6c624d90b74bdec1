// Where codes stand among trees that were made.
ghost use Rattle.std.specs.Prelude.{◌≡◌, ◌+◌, ◌*◌, ◌<◌, suc};
ghost use Rattle.tree_arena.specs.Nodes.{most_nodes};
ghost use Rattle.equation_law.specs.Codes.{most_made};
ghost use Rattle.made_trees.specs.Makers.{IsSpotOf};

use equation_law::NodeRef;

// A source tree has at most so many nodes, and a tree that is made so many.
const MOST_NODES: u32 = 65_536;

const MOST_MADE: u32 = 16;

/// Where a code stands: a tree, by its number, and a position of it.
#[derive(Clone, Copy)]
pub(crate) struct Spot {
    pub(crate) tree: u32,
    pub(crate) position: u32,
}

/// Where a code stands among so many trees.
pub(crate) fn spot_of(trees: u32, node: NodeRef) -> Option<Spot>
    ensures { IsSpotOf trees node.0 result }
{
    if node.0 <= MOST_NODES {
        return None;
    }
    let place = node.0 - 1 - MOST_NODES;
    let tree = place / MOST_MADE;
    let position = place % MOST_MADE;
    if tree < trees {
        Some(Spot { tree, position })
    } else {
        None
    }
}

/// The code of a spot.
pub(crate) fn code_of(spot: Spot) -> NodeRef
    requires tree { spot.tree < 268431359 }
    requires position { spot.position < most_made }
    ensures { result.0 ≡ suc (most_nodes + (most_made * spot.tree + spot.position)) }
{
    NodeRef(MOST_NODES + 1 + MOST_MADE * spot.tree + spot.position)
}

/// The code of the root of a tree.
pub(crate) fn root_of(tree: u32) -> NodeRef
    requires { tree < 268431359 }
    ensures { result.0 ≡ suc (most_nodes + (most_made * tree + 0)) }
{
    NodeRef(MOST_NODES + 1 + MOST_MADE * tree)
}
