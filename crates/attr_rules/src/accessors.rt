// Accessors, by which the components of a node are read.
ghost use Rattle.std.specs.Prelude.{◌≡◌};
ghost use Rattle.std.specs.Option.{option_map};
ghost use Rattle.attr_rules.specs.Accessors as spec;
ghost use Rattle.attr_rules.specs.Accessors.{is_spelled};
ghost use Rattle.attr_rules.specs.AccessorSteps.{Finds};

use crate::kinds::{Kind, Part};
use crate::types::ValueType;
use ast_grammar::{ClassId, Component, Grammar, Shape};

/// What an accessor reads of a component X.
#[derive(Clone, Copy, Debug, PartialEq, Eq)]
pub enum Access {
    /// `getX()`: the child, or the optional child.
    Child,
    /// `getX()`: the token, of this type.
    Token(Kind),
    /// `hasX()`: whether there is the optional child.
    Has,
    /// `getNumX()`: how many elements the list has.
    Count,
    /// `getXList()`: the elements of the list, which stand in ranges alone.
    Elements,
    /// `getX(int)`: an element of the list.
    Element,
}

impl Access {
    /// The types of the arguments.
    pub fn arguments(self) -> &'static [Kind]
        ensures { result.now ≡ spec.arguments_of self }
    {
        match self {
            Access::Element => &[Kind::Int],
            _ => &[],
        }
    }
}

/// An accessor of a class: the number of the component, the class of a child there or of the elements, and what is read.
#[derive(Clone, Copy, Debug, PartialEq, Eq)]
pub struct Accessor {
    pub component: Part,
    pub class: ClassId,
    pub access: Access,
}

impl Accessor {
    /// The type of what is read. The elements of a list have none.
    pub fn value_type(&self) -> Option<ValueType>
        ensures { result ≡ spec.type_read self.now.access self.now.class }
    {
        match self.access {
            Access::Child | Access::Element => Some(ValueType::of_class(self.class)),
            Access::Token(kind) => Some(ValueType::Of(kind)),
            Access::Has => Some(ValueType::Of(Kind::Truth)),
            Access::Count => Some(ValueType::Of(Kind::Int)),
            Access::Elements => None,
        }
    }
}

// What `getX()` reads of a component X of a shape.
fn got(shape: Shape) -> Option<Access>
    ensures { result ≡ spec.got shape }
{
    match shape {
        Shape::Child | Shape::Optional => Some(Access::Child),
        Shape::Text => Some(Access::Token(Kind::Text)),
        Shape::Int => Some(Access::Token(Kind::Int)),
        Shape::Truth => Some(Access::Token(Kind::Truth)),
        Shape::List => None,
    }
}

// The component of a class by its name, with its number.
#[derive(Clone, Copy, Debug)]
struct Found {
    number: Part,
    component: Component,
}

fn component_named(grammar: &Grammar, class: ClassId, name: &[u8]) -> Option<Found>
    ensures { Finds grammar.now class.0 name.now result }
{
    if u32::from(class.0) >= grammar.classes() {
        return None;
    }
    let number = grammar.find_component(class, name)?;
    Some(Found {
        number: Part(number),
        component: *grammar.component(class, number),
    })
}

fn reading(found: Found, access: Option<Access>) -> Option<Accessor>
    ensures { result ≡ option_map (spec.reading found.number.0 found.component.class) access }
{
    Some(Accessor {
        component: found.number,
        class: found.component.class,
        access: access?,
    })
}

// An accessor of optional children, and one of lists.
fn of_optional(access: Access, shape: Shape) -> Option<Access>
    ensures { result ≡ spec.of_optional access shape }
{
    match shape {
        Shape::Optional => Some(access),
        _ => None,
    }
}

fn of_list(access: Access, shape: Shape) -> Option<Access>
    ensures { result ≡ spec.of_list access shape }
{
    match shape {
        Shape::List => Some(access),
        _ => None,
    }
}

// `getX()` of a child, an optional child or a token.
fn getting(grammar: &Grammar, class: ClassId, name: &[u8]) -> Option<Accessor>
    ensures { result ≡ spec.getting grammar.now class.0 name.now }
{
    let component = name.strip_prefix(b"get".as_slice())?;
    let found = component_named(grammar, class, component)?;
    reading(found, got(found.component.shape))
}

// `hasX()` of an optional child.
fn having(grammar: &Grammar, class: ClassId, name: &[u8]) -> Option<Accessor>
    ensures { result ≡ spec.having grammar.now class.0 name.now }
{
    let component = name.strip_prefix(b"has".as_slice())?;
    let found = component_named(grammar, class, component)?;
    reading(found, of_optional(Access::Has, found.component.shape))
}

// `getNumX()` of a list.
fn counting(grammar: &Grammar, class: ClassId, name: &[u8]) -> Option<Accessor>
    ensures { result ≡ spec.counting grammar.now class.0 name.now }
{
    let component = name.strip_prefix(b"getNum".as_slice())?;
    let found = component_named(grammar, class, component)?;
    reading(found, of_list(Access::Count, found.component.shape))
}

// `getXList()` of a list.
fn listing(grammar: &Grammar, class: ClassId, name: &[u8]) -> Option<Accessor>
    ensures { result ≡ spec.listing grammar.now class.0 name.now }
{
    let component = name
        .strip_prefix(b"get".as_slice())?
        .strip_suffix(b"List".as_slice())?;
    let found = component_named(grammar, class, component)?;
    reading(found, of_list(Access::Elements, found.component.shape))
}

// `getX(int)` of a list.
fn indexing(grammar: &Grammar, class: ClassId, name: &[u8]) -> Option<Accessor>
    ensures { result ≡ spec.indexing grammar.now class.0 name.now }
{
    let component = name.strip_prefix(b"get".as_slice())?;
    let found = component_named(grammar, class, component)?;
    reading(found, of_list(Access::Element, found.component.shape))
}

// The accessor, where it takes so many arguments.
fn taking(count: usize, accessor: Option<Accessor>) -> Option<Accessor>
    ensures { result ≡ spec.takes count accessor }
{
    let accessor = accessor?;
    if accessor.access.arguments().len() == count {
        Some(accessor)
    } else {
        None
    }
}

/// The accessor of a class that a name spells, called with so many arguments. Of several, those that take so many come first, and then a
/// child, token or optional child of that exact name comes before the number of a list, and that before a list. A component's name is used
/// as it is written. This is the project's own rule.
pub fn accessor_of(grammar: &Grammar, class: ClassId, name: &[u8], count: usize) -> Option<Accessor>
    ensures { result ≡ spec.accessor_of grammar.now class.0 name.now count }
{
    let getting = getting(grammar, class, name);
    let having = having(grammar, class, name);
    let counting = counting(grammar, class, name);
    let listing = listing(grammar, class, name);
    let indexing = indexing(grammar, class, name);
    let fitting = taking(count, getting)
        .or(taking(count, having))
        .or(taking(count, counting))
        .or(taking(count, listing))
        .or(taking(count, indexing));
    let any = getting.or(having).or(counting).or(listing).or(indexing);
    fitting.or(any)
}

/// Whether the name is that of an accessor of the class.
pub fn is_spelled(grammar: &Grammar, class: ClassId, name: &[u8]) -> bool
    ensures { result ≡ is_spelled grammar.now class.0 name.now }
{
    accessor_of(grammar, class, name, 0).is_some()
}
