// Types, and what is declared of an attribute.
ghost use Rattle.std.specs.Prelude.{◌≡◌};

use ast_grammar::ClassId;

/// The number of an attribute: attributes are numbered from 0 in the order of their declarations.
#[derive(Clone, Copy, Debug, PartialEq, Eq, Hash)]
pub struct AttrId(pub u16);

/// The number of an equation: equations are numbered from 0 in the order of the file.
#[derive(Clone, Copy, Debug, PartialEq, Eq)]
pub struct EqId(pub u32);

/// The place of a component among those of its class, from 0: those of the superclass come first.
#[derive(Clone, Copy, Debug, PartialEq, Eq, Hash)]
pub struct Part(pub u32);

/// The number of a text in the pool.
#[derive(Clone, Copy, Debug, PartialEq, Eq, Hash)]
pub struct TextId(pub u32);

/// A type: `boolean`, `int`, `String`, a class, a set of texts, or a set of nodes of a class.
#[derive(Clone, Copy, Debug, PartialEq, Eq)]
pub enum Kind {
    Truth,
    Int,
    Text,
    Node(ClassId),
    Texts,
    Nodes(ClassId),
}

/// The sort of an attribute: synthesized, inherited, higher-order (`nta`), or a collection.
#[derive(Clone, Copy, Debug, PartialEq, Eq)]
pub enum Sort {
    Syn,
    Inh,
    Nta,
    Coll,
}

/// How what is contributed to a collection is combined: the elements of a set one by one (`add`) or sets of them (`addAll`), integers by
/// their sum, which wraps, and truth values by `or` and `and`.
#[derive(Clone, Copy, Debug, PartialEq, Eq)]
pub enum Method {
    Add,
    AddAll,
    Sum,
    Or,
    And,
}

/// How a collection collects: by which method, and its root class. Contributors are looked for below the closest node of that class, from the
/// collection's own node upwards, and without one in the whole tree.
#[derive(Clone, Copy, Debug, PartialEq, Eq)]
pub struct Collecting {
    pub method: Method,
    pub root: Option<ClassId>,
}

/// Where the rounds of a circular attribute start; `Plain` for an attribute that isn't circular.
#[derive(Clone, Copy, Debug, PartialEq, Eq)]
pub enum Start {
    Plain,
    False,
    True,
    Empty,
}

/// The parameters of an attribute: how many there are, at most three, and their types. The types past the
/// count are `Kind::Truth`.
#[derive(Clone, Copy, Debug, PartialEq, Eq)]
pub struct Params {
    pub count: u32,
    pub first: Kind,
    pub second: Kind,
    pub third: Kind,
}

/// What is declared of an attribute: the class that has it, its sort, its type, its parameters, and whether
/// it may lie on a cycle, with the value at which its rounds start.
#[derive(Clone, Copy, Debug, PartialEq, Eq)]
pub struct Attr {
    pub class: ClassId,
    pub sort: Sort,
    pub kind: Kind,
    pub params: Params,
    pub circular: bool,
    pub start: Start,
}

impl Params {
    ghost use Rattle.std.specs.Prelude.{drop, slice_get};
    ghost use Rattle.attr_rules.specs.Types.{parameter_kinds};

    /// The type of the first parameter, or None where there is none.
    pub fn first_kind(&self) -> Option<Kind>
        ensures { result ≡ slice_get (parameter_kinds self.now) 0 }
    {
        if self.count == 0 {
            None
        } else {
            Some(self.first)
        }
    }

    /// The parameters behind the first.
    pub fn rest(&self) -> Params
        ensures { parameter_kinds result ≡ drop 1 (parameter_kinds self.now) }
    {
        Params {
            count: self.count.min(3).saturating_sub(1),
            first: self.second,
            second: self.third,
            third: Kind::Truth,
        }
    }
}

impl Sort {
    ghost use Rattle.attr_rules.specs.Rules.{has_own_equations, is_higher_order, is_inherited};

    /// Whether it is inherited.
    pub fn is_inherited(self) -> bool
        ensures { result ≡ is_inherited self }
    {
        match self {
            Sort::Inh => true,
            Sort::Syn | Sort::Nta | Sort::Coll => false,
        }
    }

    /// Whether it is higher-order: its value is the root of a tree that its equation makes.
    pub fn is_higher_order(self) -> bool
        ensures { result ≡ is_higher_order self }
    {
        match self {
            Sort::Nta => true,
            Sort::Syn | Sort::Inh | Sort::Coll => false,
        }
    }

    /// Whether equations without a path give it its values, as those of synthesized and higher-order attributes do.
    pub fn has_own_equations(self) -> bool
        ensures { result ≡ has_own_equations self }
    {
        match self {
            Sort::Syn | Sort::Nta => true,
            Sort::Inh | Sort::Coll => false,
        }
    }
}

impl Kind {
    ghost use Rattle.attr_rules.specs.Rules.{element_or_same};

    // The type of the elements of a set. What is no set counts as its own element.
    fn element_or_same(self) -> Kind
        ensures { result ≡ element_or_same self }
    {
        match self {
            Kind::Texts => Kind::Text,
            Kind::Nodes(class) => Kind::Node(class),
            Kind::Truth | Kind::Int | Kind::Text | Kind::Node(_) => self,
        }
    }
}

impl Method {
    ghost use Rattle.attr_rules.specs.Rules.{contributed};

    /// The type that a value has to fit which is contributed to a collection of this type.
    pub fn contributed(self, kind: Kind) -> Kind
        ensures { result ≡ contributed self kind }
    {
        match self {
            Method::Add => kind.element_or_same(),
            Method::AddAll | Method::Sum | Method::Or | Method::And => kind,
        }
    }
}
