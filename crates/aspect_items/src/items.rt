// Items of aspects as they are written.
use crate::expression::{Expr, Name};
use rag_io::Place;

/// The name of a type, or of the elements of a set.
#[derive(Debug, Drop)]
pub enum TypeName {
    /// `boolean`
    Boolean,
    /// `int`
    Int,
    /// `String`
    String,
    /// A class, by its name.
    Class(Vec<u8>),
}

/// A type as it is written, with the place of its first token.
#[derive(Debug, Drop)]
pub struct Type {
    pub place: Place,
    /// Whether it is `Set<..>`, and the name that of its elements.
    pub set: bool,
    pub name: TypeName,
}

/// A parameter and its type.
#[derive(Debug, Drop)]
pub struct Parameter {
    pub of: Type,
    pub name: Name,
}

/// The name of an attribute, or of a component, and its parameters.
#[derive(Debug, Drop)]
pub struct Signature {
    pub name: Name,
    pub parameters: Vec<Parameter>,
}

/// `circular [bottom]`, with the place of the word.
#[derive(Debug, Drop)]
pub struct Circular {
    pub place: Place,
    pub bottom: Expr,
}

/// The declaration of a synthesized attribute: `syn`.
#[derive(Debug, Drop)]
pub struct Synthesized {
    /// `lazy` changes no value.
    pub lazy: bool,
    /// `nta`: its value is a tree of its own.
    pub higher_order: bool,
    pub of: Type,
    pub class: Name,
    pub signature: Signature,
    pub circular: Option<Circular>,
    /// The equation of the class, if the declaration has one.
    pub body: Option<Expr>,
}

/// The declaration of an inherited attribute: `inh`.
#[derive(Debug, Drop)]
pub struct Inherited {
    pub lazy: bool,
    pub of: Type,
    pub class: Name,
    pub signature: Signature,
    pub circular: Option<Circular>,
}

/// An equation of a class: `eq`.
#[derive(Debug, Drop)]
pub struct Equation {
    pub class: Name,
    /// The attribute, or the path where there is an inherited one behind it.
    pub signature: Signature,
    /// The inherited attribute that the path gives a value to.
    pub inherited: Option<Signature>,
    pub body: Expr,
}

/// The declaration of a collection: `coll`.
#[derive(Debug, Drop)]
pub struct Collection {
    pub of: Type,
    pub class: Name,
    pub name: Name,
    /// What it begins with.
    pub fresh: Expr,
    /// How contributions are added: the name behind `with`.
    pub method: Option<Name>,
    /// The class in whose trees contributions are looked for: the name behind `root`.
    pub root: Option<Name>,
}

/// A contribution to a collection.
#[derive(Debug, Drop)]
pub struct Contribution {
    /// The class whose nodes contribute.
    pub contributor: Name,
    pub value: Expr,
    /// The expression behind `when`.
    pub condition: Option<Expr>,
    /// The class of the collection.
    pub class: Name,
    pub name: Name,
    /// The node to whose collection it is added: the expression behind `for`.
    pub receiver: Expr,
}

/// An item of an aspect.
#[derive(Debug, Drop)]
pub enum Item {
    Synthesized(Synthesized),
    Inherited(Inherited),
    Equation(Equation),
    Collection(Collection),
    Contribution(Contribution),
}
