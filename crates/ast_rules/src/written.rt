// What a rule of an `.ast` file writes.
use rag_io::Place;

/// A name as it is written, and where it stands.
#[derive(Clone, Copy, Debug)]
pub struct Name<'a> {
    pub text: &'a [u8],
    pub place: Place,
}

/// What a component is written as: a child `A`, a list of children `A*`, an optional child `[A]`, or a token `<A>`.
#[derive(Clone, Copy, Debug, PartialEq, Eq)]
pub enum Form {
    Child,
    List,
    Optional,
    Token,
}

/// A component as it is written: `NAME:TYPE`, where one of the two may be left out. A child, a list or an optional that is written with
/// one word is called by its type; a token that is written with one word is a `String`.
#[derive(Clone, Copy, Debug)]
pub struct WrittenComponent<'a> {
    /// The only word, or the one before `:`.
    pub name: Name<'a>,
    pub form: Form,
    /// The word behind `:`, where there are two.
    pub type_name: Option<Name<'a>>,
}

/// A rule `abstract NAME : SUPERCLASS ::= COMPONENT .. ;`, of which all but the name may be left out.
#[derive(Debug, Drop)]
pub struct WrittenRule<'a> {
    pub is_abstract: bool,
    pub name: Name<'a>,
    pub superclass: Option<Name<'a>>,
    pub components: Vec<WrittenComponent<'a>>,
}
