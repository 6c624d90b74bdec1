// The texts of subtrees, where nodes have other codes than their numbers, and what shows them counts how often it is asked.
ghost use Rattle.std.specs.Prelude.{◌<◌, length};
ghost use Rattle.tree_arena.specs.Terms.{IsTreeOf};

use crate::programs::{grammar_of, tree_said};
use ast_grammar::{ClassId, Grammar};
use broken_rules::ReadFault;
use rag_io::{Memory, Pool};
use std::alloc::Global;
use tree_arena::Tree;
use tree_writer::{ShowsNodes, SourceNodes, add_subtree};

const GRAMMAR: &str =
    "P ::= A:X* [C:Y] [D:Y] <T:String> <B:boolean>; X ::= <N:int> l:Y r:Y; abstract Y; Z : Y; W : Y ::= [E:Z];";

const TREE: &str = "P( [ X(-10, Z(), W([Z()])), X(0, W([]), Z()) ], [Z()], [], \"a\\\"b\", true )";

// The text of each node's subtree, by the numbers of the nodes.
const TEXTS: [&[u8]; 9] = [
    b"P([X(-10, Z(), W([Z()])), X(0, W([]), Z())], [Z()], [], \"a\\\"b\", true)",
    b"X(-10, Z(), W([Z()]))",
    b"Z()",
    b"W([Z()])",
    b"Z()",
    b"X(0, W([]), Z())",
    b"W([])",
    b"Z()",
    b"Z()",
];

// Nodes have the codes that differ from their numbers in these bits.
const OTHER: u32 = 65_535;

// The nodes of a source tree, and how often one was asked for.
#[derive(Drop)]
struct Counted<'a> {
    nodes: SourceNodes<'a>,
    asked: u32,
}

impl ShowsNodes for Counted<'_> {
    ghost use Rattle.std.specs.Prelude.{◌≡◌, List, bit_xor, refl};
    ghost use Rattle.std.proofs.Common.{◌∙◌, subst};
    ghost use Rattle.tree_arena.specs.Nodes.{Node};
    ghost use Rattle.tree_writer.specs.Showing.{IsSubtreeAt};

    ghost shows = { λ s code tree. IsSubtreeAt s.nodes.0.now (bit_xor code 65535) tree };

    ghost keeps = { λ r s. r.nodes.0.now ≡ s.nodes.0.now };

    fn class_of(&mut self, n: u32) -> ClassId {
        self.asked = self.asked.wrapping_add(1);
        self.nodes.class_of(n ^ OTHER)
    }

    fn count(&mut self, n: u32, k: u32) -> u32 {
        self.asked = self.asked.wrapping_add(1);
        self.nodes.count(n ^ OTHER, k)
    }

    fn child(&mut self, n: u32, k: u32, i: u32) -> u32 {
        self.asked = self.asked.wrapping_add(1);
        self.nodes.child(n ^ OTHER, k, i) ^ OTHER
    }

    fn token(&mut self, n: u32, k: u32) -> u32 {
        self.asked = self.asked.wrapping_add(1);
        self.nodes.token(n ^ OTHER, k)
    }

    ghost same = { λ s. refl };

    ghost further = { λ r s t e f. e ∙ f };

    ghost still = { λ r s n tree e h. subst (λ (nodes : List Node). IsSubtreeAt nodes (bit_xor n 65535) tree) e h };
}

// The text of a node's subtree, and how often a node was asked for.
fn text_of(
    alloc: Global,
    grammar: &Grammar,
    pool: &Pool,
    tree: &Tree,
    n: u32,
) -> Result<(Vec<u8>, u32), Memory>
    requires tree { IsTreeOf grammar.now (length pool.now) tree.now }
    requires node { n < length tree.now }
{
    let mut text = Vec::new(alloc);
    let mut nodes = Counted {
        nodes: SourceNodes(tree),
        asked: 0,
    };
    add_subtree(alloc, grammar, pool, &mut nodes, n ^ OTHER, &mut text)?;
    Ok((text, nodes.asked))
}

// The first node whose subtree has another text.
fn other_text(
    alloc: Global,
    grammar: &Grammar,
    pool: &Pool,
    tree: &Tree,
) -> Result<Option<u32>, Memory>
    requires { IsTreeOf grammar.now (length pool.now) tree.now }
{
    for n in 0..tree.len() {
        let (text, _) = text_of(alloc, grammar, pool, tree, n)?;
        if TEXTS.get(n as usize) != Some(&text.as_slice()) {
            return Ok(Some(n));
        }
    }
    Ok(None)
}

// The number of nodes, the first whose text is another one, and how often a node is asked for where the whole tree is written.
fn found_in_texts(alloc: Global) -> Result<(u32, Option<u32>, u32), ReadFault> {
    let grammar = grammar_of(alloc, GRAMMAR)?;
    let mut pool = Pool::new(alloc)?;
    let tree = tree_said(alloc, &grammar, TREE, &mut pool)?;
    let other = other_text(alloc, &grammar, &pool, &tree)?;
    let (_, asked) = text_of(alloc, &grammar, &pool, &tree, 0)?;
    Ok((tree.len(), other, asked))
}

#[test]
fn subtrees_are_written_by_any_codes(rt: HostRuntime) {
    assert_eq!(rt; found_in_texts(rt.alloc()), Ok((9, None, 39)));
}
