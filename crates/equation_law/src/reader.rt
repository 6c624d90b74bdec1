// What an evaluation reads the values of instances from, and the trees that were made.
ghost use Rattle.equation_law.specs.Reading.{ArgumentBy, ChildBy, ClassBy, OrderBy, SettledBy, TokenBy, Told, UpBy};

use crate::coding::{Instance, NodeRef, Up, Value};
use ast_grammar::ClassId;
use code_sets::Code;
use rag_io::Memory;
use std::alloc::Global;
use std::cmp::Ordering;

/// Values of instances, and the trees that higher-order attributes made. A reader never has two values for one instance, and what it has it
/// keeps. What it tells is a relation of instances and values, and by which namings its codes may be read.
///
/// The calls for nodes that were made answer for every code past those of source nodes: where nothing stands there, there is no class, no child
/// and nothing above.
pub trait Reader {
    ghost tells: { Self → Told Self };

    /// The value that the reader has for an instance at the end of the call, or None where it has none then.
    fn settled(&mut self, alloc: Global, i: &Instance) -> Result<Option<Value>, Memory>
        ensures { SettledBy (tells self.old) (tells self.new) i.now result };

    /// The class of a node that was made. Where there is none, the number is that of no class of the grammar.
    fn made_class(&mut self, node: NodeRef) -> ClassId
        ensures { ClassBy (tells self.old) (tells self.new) node result };

    /// The child of a node that was made at a component of its class, or null where it has none.
    fn made_child(&mut self, node: NodeRef, component: u32) -> NodeRef
        ensures { ChildBy (tells self.old) (tells self.new) node component result };

    /// The code of a token of a node that was made, at a component of its class, where the reader has the value of what made it.
    fn made_token(&mut self, node: NodeRef, component: u32) -> Code
        ensures { TokenBy (tells self.old) (tells self.new) node component result };

    /// What stands above a node that was made: its parent in the tree, or the owner of the tree.
    fn made_up(&mut self, node: NodeRef) -> Up
        ensures { UpBy (tells self.old) (tells self.new) node result };

    /// The code of an argument of what made a node.
    fn made_arg(&mut self, node: NodeRef, k: u32) -> Code
        ensures { ArgumentBy (tells self.old) (tells self.new) node k result };

    /// The order of the names of two nodes, of which null is the first.
    fn made_order(&mut self, a: NodeRef, b: NodeRef) -> Ordering
        ensures { OrderBy (tells self.old) (tells self.new) a b result };
}
