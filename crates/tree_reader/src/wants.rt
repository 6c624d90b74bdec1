// What may stand where an argument stands.
ghost use Rattle.std.specs.Prelude.{◌≡◌, ◌<◌, ◌≤◌, List, drop, length};
ghost use Rattle.std.specs.Option.{option_map};
ghost use Rattle.ast_grammar.specs.Grammar.{Class, components_of, most_components, number_of};
ghost use Rattle.tree_reader.specs.Wants.{Components as WantsComponents, arguments_of, inside, next_of, wanted_by};
ghost use Rattle.tree_reader.specs.Steps.{is_done, is_uneven, seen_wanted, seen_wants};

use ast_grammar::{ClassId, Grammar, Shape};

/// What is wanted of the next arguments.
#[derive(Clone, Copy, Debug, PartialEq, Eq)]
pub(crate) enum Wants {
    /// One for each component of a class from the one of this number on.
    Components(ClassId, u32),
    /// Any number of nodes of a class, as in a list.
    Elements(ClassId),
    /// One node of a class at most, as in an optional.
    Perhaps(ClassId),
    /// No node, behind the one of an optional.
    NoMore,
    /// Nothing is known of them.
    Unknown,
}

/// What may stand where the next argument does.
#[derive(Clone, Copy, Debug, PartialEq, Eq)]
pub(crate) enum Wanted {
    /// What belongs to a component of this shape and class.
    At(Shape, ClassId),
    /// A node of a class.
    Element(ClassId),
    /// No node.
    NoNode,
    /// Nothing is known.
    Anything,
}

// How many components a class has, 0 where the grammar has no class of this number.
fn arity_of(grammar: &Grammar, class: ClassId) -> u32
    ensures number { result ≡ length (components_of grammar.now class.0) }
    ensures short { result ≤ most_components }
    ensures known { 0 < result → class.0 < length grammar.now }
{
    if u32::from(class.0) < grammar.classes() {
        grammar.arity(class)
    } else {
        0
    }
}

// What stands at a component of a class, where it has one of this number.
fn wanted_at(grammar: &Grammar, class: ClassId, k: u32) -> Wanted
    ensures { seen_wanted result ≡ wanted_by (WantsComponents (drop k (components_of grammar.now class.0))) }
{
    if k < arity_of(grammar, class) {
        let component = grammar.component(class, k);
        Wanted::At(component.shape, component.class)
    } else {
        Wanted::Anything
    }
}

// What is wanted behind a component of a class.
fn next_at(grammar: &Grammar, class: ClassId, k: u32) -> Wants
    ensures { seen_wants grammar.now result ≡ next_of (WantsComponents (drop k (components_of grammar.now class.0))) }
{
    if k < arity_of(grammar, class) {
        Wants::Components(class, k + 1)
    } else {
        Wants::Unknown
    }
}

impl Wants {
    /// What is wanted of the arguments of a node, whose class may be unknown.
    pub(crate) fn arguments_of(class: Option<ClassId>) -> Wants
        ensures { (g : List Class) → seen_wants g result ≡ arguments_of g (option_map number_of class) }
    {
        match class {
            Some(class) => Wants::Components(class, 0),
            None => Wants::Unknown,
        }
    }

    /// What may stand where the next argument does.
    pub(crate) fn wanted(self, grammar: &Grammar) -> Wanted
        ensures { seen_wanted result ≡ wanted_by (seen_wants grammar.now self) }
    {
        match self {
            Wants::Components(class, k) => wanted_at(grammar, class, k),
            Wants::Elements(class) | Wants::Perhaps(class) => Wanted::Element(class),
            Wants::NoMore => Wanted::NoNode,
            Wants::Unknown => Wanted::Anything,
        }
    }

    /// What is wanted behind the next argument.
    pub(crate) fn next(self, grammar: &Grammar) -> Wants
        ensures { seen_wants grammar.now result ≡ next_of (seen_wants grammar.now self) }
    {
        match self {
            Wants::Components(class, k) => next_at(grammar, class, k),
            Wants::Elements(class) => Wants::Elements(class),
            Wants::Perhaps(_) | Wants::NoMore => Wants::NoMore,
            Wants::Unknown => Wants::Unknown,
        }
    }

    // Whether there was an argument for each component, and none too many.
    fn is_done(self, grammar: &Grammar) -> bool
        ensures { result ≡ is_done (seen_wants grammar.now self) }
    {
        match self {
            Wants::Components(class, k) => k >= arity_of(grammar, class),
            _ => false,
        }
    }

    /// Whether this is wanted behind all arguments of a node of a class only where another number of them stood there than the class has
    /// components.
    pub(crate) fn miscounts(self, grammar: &Grammar, class: Option<ClassId>) -> bool
        ensures { result ≡ is_uneven (option_map number_of class) (seen_wants grammar.now self) }
    {
        class.is_some() && !self.is_done(grammar)
    }
}

impl Wanted {
    /// What is wanted inside brackets that stand here.
    pub(crate) fn inside(self) -> Wants
        ensures { (g : List Class) → seen_wants g result ≡ inside (seen_wanted self) }
    {
        match self {
            Wanted::At(Shape::List, class) => Wants::Elements(class),
            Wanted::At(Shape::Optional, class) => Wants::Perhaps(class),
            _ => Wants::Unknown,
        }
    }
}
