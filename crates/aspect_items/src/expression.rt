// Expressions as they are written.
use rag_io::Place;

/// A name as it is written, with its place.
#[derive(Debug, Drop)]
pub struct Name {
    pub text: Vec<u8>,
    pub place: Place,
}

/// An operator between two operands.
#[derive(Clone, Copy, Debug, PartialEq, Eq)]
pub enum Operator {
    /// `*`
    Multiply,
    /// `+`
    Add,
    /// `-`
    Subtract,
    /// `<`
    Less,
    /// `<=`
    AtMost,
    /// `>`
    Greater,
    /// `>=`
    AtLeast,
    /// `==`
    Equal,
    /// `!=`
    Differ,
    /// `&&`
    And,
    /// `||`
    Or,
}

/// What is done with the elements of a range.
#[derive(Clone, Copy, Debug, PartialEq, Eq)]
pub enum Quantifier {
    /// The union of a set for each element.
    Each,
    /// Whether a condition holds of an element.
    Any,
    /// Whether a condition holds of all elements.
    All,
    /// The first element of which a condition holds, or `null`.
    First,
}

/// An expression as it is written, with a variant for each form. A form that doesn't begin with a part of its own has the place of its
/// first token; names have places of their own. The place of an operator isn't kept: what doesn't fit is always an operand.
#[derive(Debug, Drop)]
pub enum Expr {
    /// `true` or `false`.
    Truth(Place, bool),
    /// `null`, no node.
    Null(Place),
    /// `empty`, the set without elements.
    Empty(Place),
    /// `this`, the node at which the equation is read.
    This(Place),
    /// An integer literal. One above 4,294,967,295 has this value: no such literal is allowed.
    Int(Place, u32),
    /// A text, by its number in the pool.
    Text(Place, u32),
    /// `@k`, a source node by its number, in a query. A number above 4,294,967,295 is this one: no tree has so many nodes.
    Source(Place, u32),
    /// A parameter, or what a quantifier binds.
    Variable(Name),
    /// A call without receiver: of an attribute or accessor of `this`, or of a set form.
    Call(Name, Vec<Expr>),
    /// A call of an attribute or accessor behind a receiver.
    Member(Box<Expr>, Name, Vec<Expr>),
    /// `new C(..)`, a tree of its own.
    New(Place, Name, Vec<Expr>),
    /// `each`, `any`, `all` or `first`: the name that is bound, the range, and what is read for each element.
    Quantified(Quantifier, Place, Name, Box<Expr>, Box<Expr>),
    /// `(e)`
    Group(Place, Box<Expr>),
    /// `(C) e`
    Cast(Place, Name, Box<Expr>),
    /// `!e`
    Not(Place, Box<Expr>),
    /// `-e`
    Negate(Place, Box<Expr>),
    /// Two operands and what stands between them.
    Binary(Operator, Box<Expr>, Box<Expr>),
    /// `e instanceof C`
    InstanceOf(Box<Expr>, Name),
    /// `condition ? then : otherwise`
    If(Box<Expr>, Box<Expr>, Box<Expr>),
}
