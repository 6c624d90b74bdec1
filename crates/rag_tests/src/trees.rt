// Nodes of trees by their numbers.
use crate::programs::{grammar_of, tree_of};
use ast_grammar::{ClassId, Grammar};
use broken_rules::ReadFault;
use std::alloc::{AllocError, Global};
use tree_arena::{Tokens, Tree};

// Two X in each list, of which the first has a Y, and no C.
const GRAMMAR: &str = "P ::= A:X* B:X* [C:Y] <T:int>; X ::= <N:int> [D:Y]; Y;";

const TREE: &str = "P([X(10, [Y()]), X(11, [])], [X(12, [Y()]), X(13, [])], [], 7)";

// Nodes by their numbers: the class of each, its parent and the component at which it hangs; and its place there, where its subtree ends, and how many
// components it has.
type Node = ((ClassId, Option<u32>, u32), (u32, u32, u32));

const NODES: [(u32, Node); 7] = [
    (0, ((ClassId(0), None, 0), (0, 7, 4))),
    (1, ((ClassId(1), Some(0), 0), (0, 3, 2))),
    (2, ((ClassId(2), Some(1), 1), (0, 3, 0))),
    (3, ((ClassId(1), Some(0), 0), (1, 4, 2))),
    (4, ((ClassId(1), Some(0), 1), (0, 6, 2))),
    (5, ((ClassId(2), Some(4), 1), (0, 6, 0))),
    (6, ((ClassId(1), Some(0), 1), (1, 7, 2))),
];

// What a node is and hangs at.
fn above(tree: &Tree, n: u32) -> Option<(ClassId, Option<u32>, u32)> {
    if n >= tree.len() {
        return None;
    }
    Some((tree.class_of(n), tree.parent(n), tree.hangs_by(n)))
}

// Its place there, and what it has.
fn below(tree: &Tree, n: u32) -> Option<(u32, u32, u32)> {
    if n >= tree.len() {
        return None;
    }
    Some((tree.index(n), tree.end(n), tree.components(n)))
}

// The first node that is otherwise.
fn other_node(tree: &Tree) -> Option<u32> {
    for (n, (is, has)) in &NODES {
        if (above(tree, *n), below(tree, *n)) != (Some(*is), Some(*has)) {
            return Some(*n);
        }
    }
    None
}

// Nodes and components, which nodes hang there, how many, and the code that a component has which there is.
const HANGING: [(u32, u32, [Option<u32>; 3], u32, Option<u32>); 14] = [
    // Lists.
    (0, 0, [Some(1), Some(3), None], 2, Some(0)),
    (0, 1, [Some(4), Some(6), None], 2, Some(0)),
    // Optional children.
    (0, 2, [None; 3], 0, Some(0)),
    (1, 1, [Some(2), None, None], 1, Some(0)),
    (3, 1, [None; 3], 0, Some(0)),
    (4, 1, [Some(5), None, None], 1, Some(0)),
    (6, 1, [None; 3], 0, Some(0)),
    // Tokens.
    (0, 3, [None; 3], 0, Some(7)),
    (1, 0, [None; 3], 0, Some(10)),
    (3, 0, [None; 3], 0, Some(11)),
    (4, 0, [None; 3], 0, Some(12)),
    (6, 0, [None; 3], 0, Some(13)),
    // Components that a node hasn't: the node behind it has them.
    (0, 5, [None; 3], 0, None),
    (2, 1, [None; 3], 0, None),
];

// The code of a component that a node has.
fn code_of(tree: &Tree, n: u32, k: u32) -> Option<u32> {
    if n < tree.len() && k < tree.components(n) {
        return Some(tree.token(n, k));
    }
    None
}

// The nodes that hang at a component, and how many.
fn hanging(tree: &Tree, n: u32, k: u32) -> Option<([Option<u32>; 3], u32)> {
    if n >= tree.len() {
        return None;
    }
    let children = [
        tree.child(n, k, 0),
        tree.child(n, k, 1),
        tree.child(n, k, 2),
    ];
    Some((children, tree.count(n, k)))
}

// The first component at which something else hangs.
fn other_component(tree: &Tree) -> Option<(u32, u32)> {
    for (n, k, children, count, code) in &HANGING {
        let found = (hanging(tree, *n, *k), code_of(tree, *n, *k));
        if found != (Some((*children, *count)), *code) {
            return Some((*n, *k));
        }
    }
    None
}

// The name of the first component of X.
fn has_name(grammar: &Grammar) -> bool {
    let class = ClassId(1);
    grammar.classes() > 1
        && grammar.arity(class) > 0
        && grammar.component_name(class, 0) == b"N".as_slice()
}

// How many nodes there are, the first one and the first component that are otherwise, and whether the component has its name.
type Found = (u32, Option<u32>, Option<(u32, u32)>, bool);

fn found_in_tree(alloc: Global) -> Result<Found, ReadFault> {
    let grammar = grammar_of(alloc, GRAMMAR)?;
    let (tree, _) = tree_of(alloc, &grammar, TREE)?;
    let other = (other_node(&tree), other_component(&tree));
    Ok((tree.len(), other.0, other.1, has_name(&grammar)))
}

// Whether tokens keep the codes that they are made of.
fn keeps_codes(alloc: Global, codes: &[u32]) -> Result<bool, AllocError> {
    let tokens = Tokens::of(Vec::from_slice(alloc, codes)?);
    Ok(tokens.list() == codes)
}

#[test]
fn nodes_are_where_they_hang(rt: HostRuntime) {
    let kept = keeps_codes(rt.alloc(), &[0, 0, 0, 7]);
    assert_eq!(rt;
        (found_in_tree(rt.alloc()), kept),
        (Ok((7, None, None, true)), Ok(true))
    );
}
