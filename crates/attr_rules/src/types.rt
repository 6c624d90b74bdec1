// Types of what expressions say.
ghost use Rattle.std.specs.Prelude.{◌≡◌};
ghost use Rattle.attr_rules.specs.Types as spec;

use crate::kinds::Kind;
use ast_grammar::{ClassId, Grammar};

/// The type of what an expression says: one that an attribute may have, that of `null`, which fits every class, or that of `empty`, which fits
/// every set.
#[derive(Clone, Copy, Debug, PartialEq, Eq)]
pub enum ValueType {
    Of(Kind),
    Null,
    Empty,
}

impl ValueType {
    /// The type of the nodes of a class.
    pub fn of_class(class: ClassId) -> ValueType
        ensures { result ≡ spec.of_class class }
    {
        ValueType::Of(Kind::Node(class))
    }

    /// The class, where the type is one. Those of `null` and `empty` are none.
    pub fn class(self) -> Option<ClassId>
        ensures { result ≡ spec.class_in self }
    {
        match self {
            ValueType::Of(Kind::Node(class)) => Some(class),
            _ => None,
        }
    }

    fn is_truth(self) -> bool
        ensures { result ≡ spec.is_truth self }
    {
        matches!(self, ValueType::Of(Kind::Truth))
    }

    fn is_int(self) -> bool
        ensures { result ≡ spec.is_int self }
    {
        matches!(self, ValueType::Of(Kind::Int))
    }

    fn is_text(self) -> bool
        ensures { result ≡ spec.is_text self }
    {
        matches!(self, ValueType::Of(Kind::Text))
    }

    /// Whether it is a class, or the type of `null`.
    pub fn is_node(self) -> bool
        ensures { result ≡ spec.is_node self }
    {
        matches!(self, ValueType::Of(Kind::Node(_)) | ValueType::Null)
    }

    // Whether it is the set of texts, or that of `empty`.
    fn is_texts(self) -> bool
        ensures { result ≡ spec.is_texts self }
    {
        matches!(self, ValueType::Of(Kind::Texts) | ValueType::Empty)
    }

    /// Whether it is a set. That of `empty` is one.
    pub fn is_set(self) -> bool
        ensures { result ≡ spec.is_set self }
    {
        matches!(
            self,
            ValueType::Of(Kind::Texts | Kind::Nodes(_)) | ValueType::Empty
        )
    }

    /// The type of the elements, where the type is a set other than that of `empty`.
    pub fn elements(self) -> Option<Kind>
        ensures { result ≡ spec.elements_of self }
    {
        match self {
            ValueType::Of(Kind::Texts) => Some(Kind::Text),
            ValueType::Of(Kind::Nodes(class)) => Some(Kind::Node(class)),
            _ => None,
        }
    }

    /// The type of the set of one value of this type: there are sets of texts and of nodes, and that of `null` is empty.
    pub fn set_of(self) -> Option<ValueType>
        ensures { result ≡ spec.set_of self }
    {
        match self {
            ValueType::Of(Kind::Text) => Some(ValueType::Of(Kind::Texts)),
            ValueType::Of(Kind::Node(class)) => Some(ValueType::Of(Kind::Nodes(class))),
            ValueType::Null => Some(ValueType::Empty),
            _ => None,
        }
    }

    /// The type at which a value is kept: `null` counts as a node of the first class, and `empty` as a set of texts.
    pub fn kept_kind(self) -> Kind
        ensures { result ≡ spec.kept_kind self }
    {
        match self {
            ValueType::Of(kind) => kind,
            ValueType::Null => Kind::Node(ClassId(0)),
            ValueType::Empty => Kind::Texts,
        }
    }
}

// Whether a node of the type is of the class.
fn fits_class(grammar: &Grammar, of: ValueType, class: ClassId) -> bool
    ensures { result ≡ spec.fits_class grammar.now of class }
{
    match of {
        ValueType::Null => true,
        ValueType::Of(Kind::Node(below)) => grammar.is_sub(below, class),
        ValueType::Of(_) | ValueType::Empty => false,
    }
}

// Whether a set of the type has nodes of the class alone.
fn fits_nodes(grammar: &Grammar, of: ValueType, class: ClassId) -> bool
    ensures { result ≡ spec.fits_nodes grammar.now of class }
{
    match of {
        ValueType::Empty => true,
        ValueType::Of(Kind::Nodes(lower)) => grammar.is_sub(lower, class),
        ValueType::Of(_) | ValueType::Null => false,
    }
}

/// Whether what is of the type may stand where one of the second is wanted: where they are equal, where a class is the other or below it,
/// where both are sets whose elements fit, where `null` stands for a node, and `empty` for a set.
pub fn fits(grammar: &Grammar, of: ValueType, wanted: Kind) -> bool
    ensures { result ≡ spec.fits grammar.now of wanted }
{
    match wanted {
        Kind::Truth => of.is_truth(),
        Kind::Int => of.is_int(),
        Kind::Text => of.is_text(),
        Kind::Node(class) => fits_class(grammar, of, class),
        Kind::Texts => of.is_texts(),
        Kind::Nodes(class) => fits_nodes(grammar, of, class),
    }
}

/// Whether what is of the second type may be asked for as an element of a set of the first: where it fits the elements, and of `empty` where it
/// is a text or a node.
pub fn may_be_element(grammar: &Grammar, set: ValueType, of: ValueType) -> bool
    ensures { result ≡ spec.may_be_element grammar.now set of }
{
    match set {
        ValueType::Empty => of.is_text() || of.is_node(),
        ValueType::Of(Kind::Texts) => of.is_text(),
        ValueType::Of(Kind::Nodes(class)) => fits_class(grammar, of, class),
        ValueType::Of(_) | ValueType::Null => false,
    }
}

/// Whether `==` compares the two: two truth values, integers, texts or nodes, of whatever classes.
pub fn comparable(left: ValueType, right: ValueType) -> bool
    ensures { result ≡ spec.comparable left right }
{
    (left.is_truth() && right.is_truth())
        || (left.is_int() && right.is_int())
        || (left.is_text() && right.is_text())
        || (left.is_node() && right.is_node())
}

fn type_where(holds: bool, of: ValueType) -> Option<ValueType>
    ensures { result ≡ spec.type_where holds of }
{
    if holds { Some(of) } else { None }
}

// The common type of the nodes of a class and of a second type.
fn common_node(grammar: &Grammar, class: ClassId, right: ValueType) -> Option<ValueType>
    ensures { result ≡ spec.common_node grammar.now class right }
{
    match right {
        ValueType::Null => Some(ValueType::of_class(class)),
        ValueType::Of(Kind::Node(other)) => {
            let common = grammar.nearest_common(class, other)?;
            Some(ValueType::of_class(common))
        }
        ValueType::Of(_) | ValueType::Empty => None,
    }
}

// The common type of the sets of nodes of a class and of a second type.
fn common_nodes(grammar: &Grammar, class: ClassId, right: ValueType) -> Option<ValueType>
    ensures { result ≡ spec.common_nodes grammar.now class right }
{
    match right {
        ValueType::Empty => Some(ValueType::Of(Kind::Nodes(class))),
        ValueType::Of(Kind::Nodes(other)) => {
            let nearest = grammar.nearest_common(class, other)?;
            Some(ValueType::Of(Kind::Nodes(nearest)))
        }
        ValueType::Of(_) | ValueType::Null => None,
    }
}

/// The common type of two parts: that of both, where they are of one type; their nearest common superclass, where both are classes; the class of
/// the other, where one is that of `null`; that of their elements, where both are sets; the other set, where one is `empty`.
pub fn common(grammar: &Grammar, left: ValueType, right: ValueType) -> Option<ValueType>
    ensures { result ≡ spec.common grammar.now left right }
{
    match left {
        ValueType::Null => type_where(right.is_node(), right),
        ValueType::Of(Kind::Truth) => type_where(right.is_truth(), right),
        ValueType::Of(Kind::Int) => type_where(right.is_int(), right),
        ValueType::Of(Kind::Text) => type_where(right.is_text(), right),
        ValueType::Of(Kind::Node(class)) => common_node(grammar, class, right),
        ValueType::Of(Kind::Texts) => type_where(right.is_texts(), left),
        ValueType::Of(Kind::Nodes(class)) => common_nodes(grammar, class, right),
        ValueType::Empty => type_where(right.is_set(), right),
    }
}
