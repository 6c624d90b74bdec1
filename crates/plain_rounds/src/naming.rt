// Instances and nodes by structural names.
ghost use Rattle.std.specs.Prelude.{◌≡◌, ◌≤◌, length};
ghost use Rattle.plain_rounds.specs.Named.{arguments_in};

use attr_rules::{AttrId, TextId};
use equation_law::QueryId;

/// The name of a node: null, the source node of this number, or the node at this position of the tree that an instance of an attribute makes.
#[cycle(names)]
#[derive(Debug, Drop, PartialEq, Eq)]
pub enum NodeName {
    Null,
    Source(u32),
    Made(Box<NamedInstance>, u32),
}

/// An argument of a call: a truth value, an integer, a text by its number in the pool, or a node by its name.
#[cycle(names)]
#[derive(Debug, Drop, PartialEq, Eq)]
pub enum NamedArg {
    Truth(bool),
    Int(i32),
    Text(TextId),
    Node(NodeName),
}

/// The arguments of an instance, from the left, at most three.
#[cycle(names)]
#[derive(Debug, Drop, PartialEq, Eq)]
pub enum NamedArgs {
    None,
    One(NamedArg),
    Two(NamedArg, NamedArg),
    Three(NamedArg, NamedArg, NamedArg),
}

impl NamedArgs {
    /// The arguments of a list, at most three. It takes no memory.
    pub fn of(list: Vec<NamedArg>) -> NamedArgs
        requires { length list.items ≤ 3 }
        ensures { arguments_in result ≡ list.items }
    {
        let mut list = list;
        let third = list.pop();
        let second = list.pop();
        let first = list.pop();
        match (first, second, third) {
            (Some(x), Some(y), Some(z)) => NamedArgs::Three(x, y, z),
            (_, Some(x), Some(y)) => NamedArgs::Two(x, y),
            (_, _, Some(x)) => NamedArgs::One(x),
            _ => NamedArgs::None,
        }
    }
}

/// An instance of an attribute at a node, with arguments.
#[cycle(names)]
#[derive(Debug, Drop, PartialEq, Eq)]
pub struct NamedInstance {
    pub attr: AttrId,
    pub node: NodeName,
    pub args: NamedArgs,
}

/// What a list of instances has: an instance of an attribute, or a query by its number.
#[derive(Drop)]
pub(crate) enum Name {
    Attribute(NamedInstance),
    Query(QueryId),
}
