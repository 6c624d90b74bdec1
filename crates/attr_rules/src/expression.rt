// Typed expressions.
use crate::kinds::{AttrId, Kind, Part, TextId};
use ast_grammar::ClassId;
use rag_io::Place;
use std::alloc::Global;

/// A binary operator whose two sides are always evaluated, the left one first. The first three wrap at 32
/// bits; `Equal` compares two truth values, integers, texts or nodes.
#[derive(Clone, Copy, Debug, PartialEq, Eq)]
pub enum Operator {
    Add,
    Subtract,
    Multiply,
    Less,
    AtMost,
    Greater,
    AtLeast,
    Equal,
}

/// A form over the elements of a list or of a set, with a condition. `any` and `all` evaluate it at every element, `first` up to the first one
/// at which it is true.
#[derive(Clone, Copy, Debug, PartialEq, Eq)]
pub enum Quantifier {
    Any,
    All,
    First,
}

/// What is made of two sets, of which both are evaluated, the left one first: their elements, those that both have, or those of the left one
/// that the right one hasn't.
#[derive(Clone, Copy, Debug, PartialEq, Eq)]
pub enum SetOperator {
    Union,
    Inter,
    Minus,
}

/// A typed expression. Its calls name attributes by number and its accessors name components by number, and
/// `a != b` is the denial of `a == b`. The forms and their meaning are this project's own, after Java's
/// expressions on `boolean` and `int`. It keeps the places that the rules on rising equations name.
#[cycle(expressions)]
#[derive(Drop)]
pub enum TExpr {
    /// `true` or `false`.
    Truth(bool),
    /// An integer literal.
    Int(i32),
    /// A text, by its number in the pool.
    Text(TextId),
    /// `null`, no node.
    Null,
    /// `empty`, the set without elements.
    Empty,
    /// `this`, the node at which the equation is read.
    This,
    /// A name that stands for a value, by its number: those that the expression binds come first, the innermost as 0.
    Variable(usize),
    /// `@k`, the source node of this number. It stands in queries alone.
    Source(u32),
    /// The child of a receiver at the component of this number, or the optional child: null where there is none.
    Child(Part, Box<TExpr>),
    /// The element of a receiver's list at the component of this number, and its place in the list, from 0: null where
    /// the list has none there.
    Element(Part, Box<TExpr>, Box<TExpr>),
    /// How many elements a receiver's list has at the component of this number.
    Count(Part, Box<TExpr>),
    /// Whether a receiver has the optional child at the component of this number.
    Has(Part, Box<TExpr>),
    /// The token of a receiver, read at this type, at the component of this number.
    Token(Kind, Part, Box<TExpr>),
    /// The call of an attribute, with the place of its name, on a receiver, with arguments.
    Call(AttrId, Place, Box<TExpr>, TArgs),
    /// `(C) e`: the node where it is of the class or below, and null else.
    Cast(ClassId, Box<TExpr>),
    /// `e instanceof C`: whether there is a node, and it is of the class or below.
    InstanceOf(ClassId, Box<TExpr>),
    /// `any`, `all` or `first` over a receiver's list at the component of this number, with the condition, in which variable 0 is the element.
    Quantified(Quantifier, Part, Box<TExpr>, Box<TExpr>),
    /// `any` or `all` over the elements of a set, nodes in the order of their names and texts in that of their bytes, with the condition, in
    /// which variable 0 is the element.
    QuantifiedSet(Quantifier, Box<TExpr>, Box<TExpr>),
    /// `each` over a receiver's list at the component of this number: the union of the sets that the body, in which variable 0 is the element,
    /// says at the elements; the union is of this type.
    Each(Kind, Part, Box<TExpr>, Box<TExpr>),
    /// `each` over the elements of a set, in their order.
    EachOfSet(Kind, Box<TExpr>, Box<TExpr>),
    /// `union`, `inter` or `minus` of two sets, which gives a set of this type.
    Sets(SetOperator, Kind, Box<TExpr>, Box<TExpr>),
    /// `single`: the set of a text or a node. No set holds null, so that of null is empty.
    Single(Box<TExpr>),
    /// `contains`: whether a set has an element. The set is evaluated first.
    Contains(Box<TExpr>, Box<TExpr>),
    /// `size`: how many elements a set has.
    Size(Box<TExpr>),
    /// `!`
    Not(Box<TExpr>),
    /// Unary `-`, which wraps.
    Negate(Box<TExpr>),
    Binary(Operator, Box<TExpr>, Box<TExpr>),
    /// `&&`: the right side is evaluated only where the left one is true.
    And(Box<TExpr>, Box<TExpr>),
    /// `||`: the right side is evaluated only where the left one is false.
    Or(Box<TExpr>, Box<TExpr>),
    /// `||` whose two sides are always evaluated, the left one first. It stands in the equation of a circular attribute where the left side calls
    /// a circular attribute: a value on the left that becomes true then leaves all that is demanded as it was.
    OrBoth(Box<TExpr>, Box<TExpr>),
    /// `condition ? then : otherwise`, of which only the part that the condition chooses is evaluated. It keeps the place at which the last part
    /// begins, unless that is the literal `false` or `empty`.
    If(Box<TExpr>, Box<TExpr>, Option<Place>, Box<TExpr>),
    /// `new C(..)`: the root, of this class, of a tree that the attribute makes. It is the whole right side of an equation of a higher-order
    /// attribute, and stands nowhere else.
    New(ClassId, NewArgs),
}

/// The arguments of a `new`, in the order of the components of its class: tokens, each an expression that is read at this type, and children,
/// each of a class with arguments of its own.
#[cycle(expressions)]
#[derive(Drop)]
pub enum NewArgs {
    End,
    Token(Kind, Box<TExpr>, Box<NewArgs>),
    Child(ClassId, Box<NewArgs>, Box<NewArgs>),
}

/// The arguments of a call, from the left.
#[cycle(expressions)]
#[derive(Drop)]
pub enum TArgs {
    End,
    More(Box<TExpr>, Box<TArgs>),
}
