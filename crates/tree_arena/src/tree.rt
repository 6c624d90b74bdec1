// Source trees.
ghost use Rattle.std.specs.Prelude.{◌≡◌, ℕ, ◌<◌, ◌≤◌, [], ◌∷◌, ◌++◌, Some, IfOk, OnOk, length, map};
ghost use Rattle.tree_arena.specs.Kept.{node_of};
ghost use Rattle.tree_arena.specs.Nodes.{most_nodes, class_in, parent_in, component_in, token_in, child_in, count_in, index_in, end_in, hanging, tokens_at};
ghost use Rattle.tree_arena.specs.Terms.{IsTree};

use crate::ends::ends_of;
use crate::keeping::kept_nodes;
use crate::parts::{codes_of, firsts_of, keys_of};
use ast_grammar::ClassId;
use groups::{Groups, places};
use rag_io::Memory;
use smallvec::SmallVec;
use std::alloc::Global;
use std::marker::Model;

/// The codes of a node's tokens, one for each component of its class in order: 0 or 1 for a truth value, the
/// two's complement for an integer, the number in the pool for a text, and 0 where the component is no token.
#[derive(Debug, Drop)]
pub struct Tokens {
    codes: SmallVec<u32, 2>,
}

impl Model for Tokens {
    ghost use Rattle.std.specs.Prelude.{ℕ, List};

    ghost Value = { List ℕ };

    ghost view = { λ t. t.codes.items };
}

impl Tokens {
    /// No codes. Up to two take no memory of their own.
    pub fn new(alloc: Global) -> Tokens
        ensures { result ≡ [] }
    {
        Tokens {
            codes: SmallVec::new(alloc),
        }
    }

    /// The tokens of these codes.
    pub fn of(list: Vec<u32>) -> Tokens
        ensures { result ≡ list.items }
    {
        Tokens {
            codes: SmallVec::from_vec(list),
        }
    }

    /// One more code, behind the others.
    pub fn push(&mut self, code: u32) -> Result<(), Memory>
        ensures { OnOk result (self.new ≡ self.old ++ code ∷ []) }
    {
        self.codes.push(code).map_err(|_| Memory)
    }

    /// The codes.
    pub fn list(&self) -> &[u32]
        ensures { result.now ≡ self.now }
    {
        self.codes.as_slice()
    }
}

/// A node of a source tree as a reader makes it: its class, its parent and the component of the parent's class at which it hangs
/// (both 0 at the root), and its tokens.
#[derive(Debug, Drop)]
pub struct FirstNode {
    pub class: ClassId,
    pub parent: u32,
    pub component: u32,
    pub tokens: Tokens,
}

// What is kept of a node: its class, its parent and the component at which it hangs there; how many nodes before it hang there too; one
// past the last node of its subtree; and the first of its parts and how many it has, one for each component of its class.
#[derive(Clone, Copy)]
pub(crate) struct KeptNode {
    pub class: ClassId,
    pub parent: u32,
    pub component: u32,
    pub index: u32,
    pub end: u32,
    pub first: u32,
    pub parts: u32,
}

/// A source tree: its nodes in preorder, the root being 0, at most 65,536. What it is asked takes no memory and constant time.
#[derive(Drop)]
pub struct Tree {
    nodes: Vec<KeptNode>,
    codes: Vec<u32>,
    children: Groups,
}

impl Model for Tree {
    ghost use Rattle.std.specs.Prelude.{List};
    ghost use Rattle.tree_arena.specs.Nodes.{Node};
    ghost use Rattle.tree_arena.specs.Arena.{IsKept, nodes_among};

    ghost Value = { List Node };

    ghost view = { λ t. nodes_among t.nodes.items t.codes.items };

    ghost invariant = { λ t. IsKept (nodes_among t.nodes.items t.codes.items) t.nodes.items t.codes.items t.children };
}

impl Tree {
    /// The tree of these nodes. It needs the nodes of one tree in preorder. This takes linear time.
    #[tactic(auto, using(crate::proofs::Counted::codes_numbered))]
    pub fn of_nodes(alloc: Global, nodes: Vec<FirstNode>) -> Result<Tree, Memory>
        requires { IsTree (map node_of nodes.items) }
        ensures { IfOk result (λ t. t ≡ map node_of nodes.items) }
    {
        let codes = codes_of(alloc, &nodes)?;
        let parts = codes.len() as u32;
        let firsts = firsts_of(alloc, &nodes)?;
        let keys = keys_of(alloc, &nodes, &firsts)?;
        let ends = ends_of(alloc, &nodes)?;
        let places = places(alloc, &keys, parts)?;
        let kept = kept_nodes(alloc, &nodes, &firsts, &places, &ends)?;
        let children = Groups::of(alloc, &keys, parts)?;
        Ok(Tree {
            nodes: kept,
            codes,
            children,
        })
    }

    /// The number of nodes.
    pub fn len(&self) -> u32
        ensures number { result ≡ length self.now }
        ensures some { 0 < result }
        ensures few { result ≤ most_nodes }
        ensures tree { IsTree self.now }
    {
        self.nodes.len() as u32
    }

    /// The class of a node.
    pub fn class_of(&self, n: u32) -> ClassId
        requires { n < length self.now }
        ensures { class_in self.now n ≡ Some result }
    {
        self.nodes[n as usize].class
    }

    /// The parent of a node; the root has none.
    pub fn parent(&self, n: u32) -> Option<u32>
        requires { n < length self.now }
        ensures { parent_in self.now n ≡ result }
    {
        if n == 0 {
            None
        } else {
            Some(self.nodes[n as usize].parent)
        }
    }

    /// The component of its parent at which a node hangs, 0 at the root.
    pub fn hangs_by(&self, n: u32) -> u32
        requires { n < length self.now }
        ensures { component_in self.now n ≡ Some result }
    {
        self.nodes[n as usize].component
    }

    /// The place of a node in its list, from 0; 0 for a child, an optional child and the root.
    pub fn index(&self, n: u32) -> u32
        requires { n < length self.now }
        ensures { index_in self.now n ≡ Some result }
    {
        self.nodes[n as usize].index
    }

    /// One past the last node of a node's subtree.
    pub fn end(&self, n: u32) -> u32
        requires { n < length self.now }
        ensures { result ≡ end_in self.now n }
    {
        self.nodes[n as usize].end
    }

    /// How many components the class of a node has.
    pub fn components(&self, n: u32) -> u32
        requires { n < length self.now }
        ensures { result ≡ length (tokens_at self.now n) }
    {
        self.nodes[n as usize].parts
    }

    // The nodes that hang at a component of a node.
    fn hanging(&self, n: u32, k: u32) -> &[u32]
        requires { n < length self.now }
        ensures are { result.now ≡ hanging self.now n k }
        ensures few { length result.now ≤ most_nodes }
    {
        let node = self.nodes[n as usize];
        if k < node.parts {
            self.children.group(node.first + k)
        } else {
            &[]
        }
    }

    /// How many nodes hang at a component of a node: the length of a list, 1 or 0 for an optional child, 1 for a child, and 0 where the
    /// component is a token or there is none of this number.
    pub fn count(&self, n: u32, k: u32) -> u32
        requires { n < length self.now }
        ensures { result ≡ count_in self.now n k }
    {
        self.hanging(n, k).len() as u32
    }

    /// The i-th of the nodes that hang at a component of a node, or None where there aren't so many.
    pub fn child(&self, n: u32, k: u32, i: u32) -> Option<u32>
        requires { n < length self.now }
        ensures { result ≡ child_in self.now n k i }
    {
        self.hanging(n, k).get(i as usize).copied()
    }

    /// The code of the token of a node at a component, 0 where the component is no token.
    pub fn token(&self, n: u32, k: u32) -> u32
        requires node { n < length self.now }
        requires component { k < length (tokens_at self.now n) }
        ensures { token_in self.now n k ≡ Some result }
    {
        let node = self.nodes[n as usize];
        self.codes[(node.first + k) as usize]
    }
}
