// Values, nodes and instances by their codes.
ghost use Rattle.std.specs.Prelude.{◌≡◌, ◌≢◌, ◌<◌, ◌+◌, ◌^◌, [], nat_lt, true, IfNone, IfOk, IfSome};
ghost use Rattle.tree_arena.specs.Nodes.{most_nodes};
ghost use Rattle.attr_rules.specs.Rules.{is_single};
ghost use Rattle.equation_law.specs.declared.coding.Single.{Single as CodedSingle};
ghost use Rattle.equation_law.specs.Codes.{IsSmall, Naming, reference_by, reference_of, single_by, value_by, value_coded};
ghost use Rattle.equation_law.specs.Equations.{source_or_null};
ghost use Rattle.equation_law.specs.Values.{as_kind, default_of, int, node, text, truth};

use attr_rules::{AttrId, EqId, Kind, TextId};
use code_sets::{Code, Codes};
use rag_io::Memory;
use std::alloc::Global;
use std::marker::Model;

// A source tree has at most so many nodes.
const MOST_NODES: u32 = 65_536;

/// A node: 0 is null, and one more than its number is a source node. Position p of the tree t of those that were made is 65,537 + 16 * t + p.
#[derive(Clone, Copy, Debug, PartialEq, Eq, Hash)]
pub struct NodeRef(pub u32);

/// The number of a query: queries are numbered from 0 in their order.
#[derive(Clone, Copy, Debug, PartialEq, Eq, Hash)]
pub struct QueryId(pub u32);

/// The arguments of an instance, at most three: how many there are, and their codes. The codes past the count are 0.
#[derive(Clone, Copy, Debug, PartialEq, Eq, Hash)]
pub struct Args {
    pub count: u32,
    pub first: Code,
    pub second: Code,
    pub third: Code,
}

/// An attribute at a node with arguments, or a query by its number.
#[derive(Clone, Copy, Debug, PartialEq, Eq, Hash)]
pub enum Instance {
    Attr {
        attr: AttrId,
        node: NodeRef,
        args: Args,
    },
    Query(QueryId),
}

/// A value that is no set. A text is its number in the pool; the empty text has the number 0. The code of such a value is 0 or 1 for a boolean,
/// the two's complement of an integer, the number of a text, and for a node its `NodeRef`.
#[derive(Clone, Copy, Debug, PartialEq, Eq)]
pub enum Single {
    Truth(bool),
    Int(i32),
    Text(TextId),
    Node(NodeRef),
}

/// A value: a single one, the set of the texts of some numbers, or the set of some nodes.
#[derive(Drop)]
pub enum Value {
    Truth(bool),
    Int(i32),
    Text(TextId),
    Node(NodeRef),
    Texts(Codes),
    Nodes(Codes),
}

/// The codes of the values of the tokens of a tree that is made, in the order in which its `new` has them.
#[derive(Drop)]
pub struct Tokens {
    codes: Vec<Code>,
}

impl Model for Tokens {
    ghost use Rattle.std.specs.Prelude.{ℕ, List};

    ghost Value = { List ℕ };

    ghost view = { λ tokens. tokens.codes.items };
}

impl Tokens {
    ghost use Rattle.std.specs.Prelude.{◌++◌, ◌∷◌, IfOk, OnOk, slice_get};

    /// None.
    pub fn new(alloc: Global) -> Tokens
        ensures { result ≡ [] }
    {
        Tokens {
            codes: Vec::new(alloc),
        }
    }

    /// One more, which comes last.
    pub fn push(&mut self, code: Code) -> Result<(), Memory>
        ensures { OnOk result (self.new ≡ self.old ++ code ∷ []) }
    {
        self.codes.push(code).map_err(|_| Memory)
    }

    /// One by its place, or None where there are no more.
    pub fn get(&self, place: u32) -> Option<Code>
        ensures { result ≡ slice_get self.now place }
    {
        self.codes.get(place as usize).copied()
    }

    /// The same codes once more.
    pub fn copy(&self) -> Result<Tokens, Memory>
        ensures { IfOk result (λ tokens. tokens ≡ self.now) }
    {
        let codes = self.codes.clone().map_err(|_| Memory)?;
        Ok(Tokens { codes })
    }
}

/// A tree that an equation makes: the number of the equation, whose right side is a `new`, and the codes of the values of the tokens.
#[derive(Drop)]
pub struct TreeImage {
    pub equation: EqId,
    pub tokens: Tokens,
}

/// What stands above a node of a tree that was made: its parent in the tree, with the component at which it hangs there, or, above the root, the node
/// at which the attribute made the tree.
#[derive(Clone, Copy, Debug, PartialEq, Eq)]
pub enum Up {
    Inside { parent: NodeRef, component: u32 },
    Owner { node: NodeRef, attr: AttrId },
}

/// An equation with the node at which it is read, what its path binds (the place of a node in a list, or the arguments with which a tree was made),
/// and the arguments of the attribute.
#[derive(Clone, Copy, Debug, PartialEq, Eq)]
pub struct EqSite {
    pub equation: EqId,
    pub node: NodeRef,
    pub outer: Args,
    pub inner: Args,
}

impl Args {
    ghost use Rattle.std.specs.Prelude.{◌++◌, ◌∷◌, drop, slice_get};
    ghost use Rattle.equation_law.specs.Codes.{IsRow, codes_in};

    /// No arguments.
    pub fn none() -> Args
        ensures row { IsRow result }
        ensures codes { codes_in result ≡ [] }
    {
        Args {
            count: 0,
            first: 0,
            second: 0,
            third: 0,
        }
    }

    /// These and one more, which comes last.
    pub fn with(self, code: Code) -> Args
        requires row { IsRow self }
        requires few { self.count < 3 }
        ensures row { IsRow result }
        ensures codes { codes_in result ≡ codes_in self ++ code ∷ [] }
    {
        let count = self.count + 1;
        match self.count {
            0 => Args {
                count,
                first: code,
                ..self
            },
            1 => Args {
                count,
                second: code,
                ..self
            },
            _ => Args {
                count,
                third: code,
                ..self
            },
        }
    }

    /// These behind one more, which comes first.
    pub fn behind(self, code: Code) -> Args
        requires row { IsRow self }
        requires few { self.count < 3 }
        ensures row { IsRow result }
        ensures codes { codes_in result ≡ code ∷ codes_in self }
    {
        Args {
            count: self.count + 1,
            first: code,
            second: self.first,
            third: self.second,
        }
    }

    /// The code of the first argument, or None where there is none.
    pub fn first_code(self) -> Option<Code>
        requires { IsRow self }
        ensures { result ≡ slice_get (codes_in self) 0 }
    {
        if self.count == 0 {
            None
        } else {
            Some(self.first)
        }
    }

    /// The code of an argument by its place, from 0 on, or None where there are no more.
    pub fn code_at(self, place: u32) -> Option<Code>
        ensures { result ≡ slice_get (codes_in self) place }
    {
        if place >= self.count {
            return None;
        }
        match place {
            0 => Some(self.first),
            1 => Some(self.second),
            2 => Some(self.third),
            _ => None,
        }
    }

    /// The arguments behind the first.
    pub fn rest(self) -> Args
        requires { IsRow self }
        ensures row { IsRow result }
        ensures codes { codes_in result ≡ drop 1 (codes_in self) }
    {
        Args {
            count: self.count.saturating_sub(1),
            first: self.second,
            second: self.third,
            third: 0,
        }
    }
}

impl NodeRef {
    /// A source node by its number, or null.
    pub fn of_source(node: Option<u32>) -> NodeRef
        requires { IfSome node (λ n. n + 1 < 2 ^ 32) }
        ensures { reference_of result.0 ≡ source_or_null node }
    {
        match node {
            None => NodeRef(0),
            Some(n) => NodeRef(n + 1),
        }
    }

    /// Whether it is past the codes of all source nodes, and so may be a node of a tree that was made.
    pub fn is_made(self) -> bool
        ensures { result ≡ nat_lt most_nodes self.0 }
    {
        self.0 > MOST_NODES
    }

    /// The number of the source node, or None for null.
    pub fn source(self) -> Option<u32>
        ensures { source_or_null result ≡ reference_of self.0 }
    {
        self.0.checked_sub(1)
    }
}

impl From<Single> for Value {
    ghost from_gives = { λ single value. (n : Naming) → value_by n value ≡ single_by n single };

    fn from(single: Single) -> Value {
        match single {
            Single::Truth(b) => Value::Truth(b),
            Single::Int(z) => Value::Int(z),
            Single::Text(number) => Value::Text(number),
            Single::Node(node) => Value::Node(node),
        }
    }
}

impl Value {
    ghost use Rattle.std.specs.Prelude.{All, map, length};
    ghost use Rattle.equation_law.specs.Codes.{AreElements, nodes_by};
    ghost use Rattle.equation_law.specs.Program.{Program};
    ghost use Rattle.equation_law.specs.Sets.{set_of};
    ghost use Rattle.equation_law.specs.Values.{nodes, texts};

    /// The truth value; of a value of another type, false.
    pub fn truth(&self) -> bool
        ensures { (n : Naming) → result ≡ truth (value_by n self.now) }
    {
        match self {
            Value::Truth(b) => *b,
            _ => false,
        }
    }

    /// The integer; of a value of another type, 0.
    pub fn int(&self) -> i32
        ensures { (n : Naming) → result ≡ int (value_by n self.now) }
    {
        match self {
            Value::Int(z) => *z,
            _ => 0,
        }
    }

    /// The number of the text; of a value of another type, that of the empty one.
    pub fn text(&self) -> TextId
        ensures { (n : Naming) → n.text 0 ≡ [] → n.text result.0 ≡ text (value_by n self.now) }
    {
        match self {
            Value::Text(number) => *number,
            _ => TextId(0),
        }
    }

    /// The node; of a value of another type, null.
    pub fn node(&self) -> NodeRef
        ensures { (n : Naming) → reference_by n.node result.0 ≡ node (value_by n self.now) }
    {
        match self {
            Value::Node(n) => *n,
            _ => NodeRef(0),
        }
    }

    /// The value, where it is no set.
    pub fn single(&self) -> Option<Single>
        ensures some { IfSome result (λ single. (n : Naming) → single_by n single ≡ value_by n self.now) }
        ensures none { IfNone result ((n : Naming) (single : CodedSingle) → single_by n single ≢ value_by n self.now) }
    {
        match self {
            Value::Truth(b) => Some(Single::Truth(*b)),
            Value::Int(z) => Some(Single::Int(*z)),
            Value::Text(number) => Some(Single::Text(*number)),
            Value::Node(node) => Some(Single::Node(*node)),
            Value::Texts(_) | Value::Nodes(_) => None,
        }
    }

    /// The numbers of the texts of a set; of a value of another type, none.
    pub fn into_texts(self, alloc: Global) -> Codes
        ensures texts { (n : Naming) → set_of (map n.text result) ≡ texts (value_by n self) }
        ensures elements { (p : Program) → AreElements p self → All (λ c. c < length p.texts) result }
    {
        match self {
            Value::Texts(codes) => codes,
            _ => Codes::none(alloc),
        }
    }

    /// The nodes of a set; of a value of another type, none.
    pub fn into_nodes(self, alloc: Global) -> Codes
        ensures nodes { (n : Naming) → set_of (nodes_by n.node result) ≡ nodes (value_by n self) }
        ensures elements { (p : Program) → AreElements p self → All (λ c. 0 < c) result }
    {
        match self {
            Value::Nodes(codes) => codes,
            _ => Codes::none(alloc),
        }
    }

    /// The same value once more.
    pub fn copy(&self) -> Result<Value, Memory>
        ensures same { IfOk result (λ value. (n : Naming) → value_by n value ≡ value_by n self.now) }
        ensures elements { IfOk result (λ value. (p : Program) → AreElements p self.now → AreElements p value) }
    {
        match self {
            Value::Truth(b) => Ok(Value::Truth(*b)),
            Value::Int(z) => Ok(Value::Int(*z)),
            Value::Text(number) => Ok(Value::Text(*number)),
            Value::Node(node) => Ok(Value::Node(*node)),
            Value::Texts(codes) => Ok(Value::Texts(codes.copy()?)),
            Value::Nodes(codes) => Ok(Value::Nodes(codes.copy()?)),
        }
    }

    /// The value read at a type: a value of another type reads as the type's default.
    pub fn read_as(self, alloc: Global, kind: Kind) -> Value
        ensures value { (n : Naming) → n.text 0 ≡ [] → value_by n result ≡ as_kind kind (value_by n self) }
        ensures elements { (p : Program) → AreElements p self → AreElements p result }
    {
        match kind {
            Kind::Truth => Value::Truth(self.truth()),
            Kind::Int => Value::Int(self.int()),
            Kind::Text => Value::Text(self.text()),
            Kind::Node(_) => Value::Node(self.node()),
            Kind::Texts => Value::Texts(self.into_texts(alloc)),
            Kind::Nodes(_) => Value::Nodes(self.into_nodes(alloc)),
        }
    }

    /// The default of a type.
    pub fn default_of(alloc: Global, kind: Kind) -> Value
        ensures value { (n : Naming) → n.text 0 ≡ [] → value_by n result ≡ default_of kind }
        ensures elements { (p : Program) → AreElements p result }
    {
        match kind {
            Kind::Truth => Value::Truth(false),
            Kind::Int => Value::Int(0),
            Kind::Text => Value::Text(TextId(0)),
            Kind::Node(_) => Value::Node(NodeRef(0)),
            Kind::Texts => Value::Texts(Codes::none(alloc)),
            Kind::Nodes(_) => Value::Nodes(Codes::none(alloc)),
        }
    }

    /// The code of the value, read at a type. A set has the code 0, which says nothing of its elements.
    pub fn code(&self, kind: Kind) -> Code
        ensures small { IsSmall kind result }
        ensures value { (n : Naming) → n.text 0 ≡ [] → is_single kind ≡ true → value_coded n kind result ≡ as_kind kind (value_by n self.now) }
    {
        match kind {
            Kind::Truth => u32::from(self.truth()),
            Kind::Int => self.int().cast_unsigned(),
            Kind::Text => self.text().0,
            Kind::Node(_) => self.node().0,
            Kind::Texts | Kind::Nodes(_) => 0,
        }
    }

    /// The value of a type that a code stands for. Of a set type it is the empty set.
    pub fn of_code(alloc: Global, kind: Kind, code: Code) -> Value
        ensures value { (n : Naming) → value_by n result ≡ value_coded n kind code }
        ensures elements { (p : Program) → AreElements p result }
    {
        match kind {
            Kind::Truth => Value::Truth(code != 0),
            Kind::Int => Value::Int(code.cast_signed()),
            Kind::Text => Value::Text(TextId(code)),
            Kind::Node(_) => Value::Node(NodeRef(code)),
            Kind::Texts => Value::Texts(Codes::none(alloc)),
            Kind::Nodes(_) => Value::Nodes(Codes::none(alloc)),
        }
    }
}
