// What is open while the tokens of a tree are read.
ghost use Rattle.std.specs.Prelude.{◌≡◌, List};
ghost use Rattle.ast_grammar.specs.Grammar.{Class};
ghost use Rattle.tree_reader.specs.Steps.{outermost, seen_frame};

use crate::wants::Wants;
use ast_grammar::ClassId;
use rag_io::Place;

/// What was opened.
#[derive(Clone, Copy, Debug, PartialEq, Eq)]
pub(crate) enum Opened {
    /// The arguments of a node, whose class may be unknown, and whose name stands at this place.
    Arguments(Option<ClassId>, Place),
    /// Brackets, at this component of a node.
    Brackets(usize),
}

/// Arguments that are being read: those of a node, or those in brackets among them.
#[derive(Clone, Copy, Debug, PartialEq, Eq)]
pub(crate) struct Frame {
    /// The number of the node.
    pub(crate) node: usize,
    pub(crate) opened: Opened,
    /// What is wanted of the arguments that are left.
    pub(crate) wants: Wants,
}

impl Frame {
    /// What is open around the root: it stands in no node, and nothing is wanted of it but what N6 says.
    pub(crate) fn outermost() -> Frame
        ensures { (g : List Class) → seen_frame g result ≡ outermost }
    {
        Frame {
            node: 0,
            opened: Opened::Brackets(0),
            wants: Wants::Unknown,
        }
    }
}
