// Attributes and equations by names and numbers that there aren't, and kept names.
ghost use Rattle.std.specs.Prelude.{◌≡◌, ◌<◌, ◌↔◌, All, IfOk, IsTrue, length, map};
ghost use Rattle.ast_grammar.specs.Grammar.{superclasses_of};
ghost use Rattle.attr_rules.specs.Dispatching.{IsTarget};
ghost use Rattle.attr_equations.specs.KeptEquations.{kept_target};
ghost use Rattle.attr_equations.specs.Kept.{rules_in};

use crate::programs::grammar_of;
use ast_grammar::{ClassId, Grammar};
use attr_equations::{KeptEquation, Rules};
use attr_rules::{
    Attr, AttrId, Attributes, Dispatch, EqId, Kind, NamedAttr, Params, Part, Reach, Sort, Start,
    TExpr, Target, ValueType, Via, accessor_of, is_spelled,
};
use broken_rules::ReadFault;
use std::alloc::{AllocError, Global};

// Two components of P and its subclass Q, and a third one of the subclass R of Q.
const PARTS: &str = "P ::= A:X B:X; Q : P; R : Q ::= C:X; X; Y : X;";

const NO_PARAMETERS: Params = Params {
    count: 0,
    first: Kind::Truth,
    second: Kind::Truth,
    third: Kind::Truth,
};

const INT: Attr = Attr {
    class: ClassId(0),
    sort: Sort::Syn,
    kind: Kind::Int,
    params: NO_PARAMETERS,
    circular: false,
    start: Start::Plain,
};

const AT_X: Attr = Attr {
    class: ClassId(3),
    sort: Sort::Inh,
    ..INT
};

const AT_Y: Attr = Attr {
    class: ClassId(4),
    ..AT_X
};

// The attribute v is synthesized at P and inherited at X and Y, w is inherited at X and synthesized at P, and u is synthesized.
const DECLARED: [NamedAttr<'static>; 6] = [
    NamedAttr {
        name: b"v",
        declared: INT,
        collecting: None,
    },
    NamedAttr {
        name: b"v",
        declared: AT_X,
        collecting: None,
    },
    NamedAttr {
        name: b"v",
        declared: AT_Y,
        collecting: None,
    },
    NamedAttr {
        name: b"w",
        declared: AT_X,
        collecting: None,
    },
    NamedAttr {
        name: b"w",
        declared: INT,
        collecting: None,
    },
    NamedAttr {
        name: b"u",
        declared: INT,
        collecting: None,
    },
];

// Equations of v for every child of P and of Q, for A of P and for B of R, and one of w for A of P. The last three are for the same as ones
// before, and for w at nodes of R.
const TARGETS: [Target; 8] = [
    Target {
        class: ClassId(0),
        reach: Reach::Children,
        attribute: AttrId(1),
    },
    Target {
        class: ClassId(0),
        reach: Reach::Component(Part(0)),
        attribute: AttrId(1),
    },
    Target {
        class: ClassId(1),
        reach: Reach::Children,
        attribute: AttrId(1),
    },
    Target {
        class: ClassId(2),
        reach: Reach::Component(Part(1)),
        attribute: AttrId(1),
    },
    Target {
        class: ClassId(0),
        reach: Reach::Component(Part(0)),
        attribute: AttrId(3),
    },
    Target {
        class: ClassId(0),
        reach: Reach::Component(Part(0)),
        attribute: AttrId(1),
    },
    Target {
        class: ClassId(1),
        reach: Reach::Children,
        attribute: AttrId(1),
    },
    Target {
        class: ClassId(2),
        reach: Reach::Own,
        attribute: AttrId(3),
    },
];

// Whether there is a class of this number.
fn has_class(grammar: &Grammar, class: ClassId) -> bool
    ensures { IsTrue result ↔ class.0 < length (superclasses_of grammar.now) }
{
    u32::from(class.0) < grammar.classes()
}

// Whether they are targets among the classes of a grammar and so many attributes.
fn are_targets(grammar: &Grammar, attributes: u32, targets: &[Target]) -> bool
    ensures { IsTrue result → All (IsTarget (length (superclasses_of grammar.now)) attributes) targets.now }
{
    targets.iter().all(|target| {
        has_class(grammar, target.class) && u32::from(target.attribute.0) < attributes
    })
}

// An equation for each of these.
fn equations_for(alloc: Global, targets: &[Target]) -> Result<Vec<KeptEquation>, AllocError>
    ensures { IfOk result (λ equations. map kept_target equations.items ≡ targets.now) }
{
    let mut equations = Vec::new(alloc);
    for target in targets {
        equations.push(KeptEquation {
            target: *target,
            body: TExpr::This,
        })?;
    }
    Ok(equations)
}

// The rules of these targets, or want of memory where they are none.
fn rules_of(alloc: Global, grammar: &Grammar, targets: &[Target]) -> Result<Rules, ReadFault>
    ensures { IfOk result (λ rules. (rules_in rules).superclasses ≡ superclasses_of grammar.now) }
{
    let attributes = Attributes::of_list(alloc, grammar, &DECLARED)?;
    if !are_targets(grammar, attributes.len(), targets) {
        return Err(ReadFault::Memory);
    }
    let dispatch = Dispatch::of_targets(alloc, grammar, attributes.len(), targets)?;
    let equations = equations_for(alloc, targets)?;
    let rules = Rules::of_parts(alloc, attributes, dispatch, equations, Vec::new(alloc))?;
    Ok(rules)
}

// What there is for a class and a name: the class of that name, the superclass of the class, its component of that name, whether there is an accessor
// that is so spelled, and its attribute.
type Named = (
    (Option<ClassId>, Option<ClassId>),
    Option<u32>,
    bool,
    Option<AttrId>,
);

const NAMED: [(u16, &str, Named); 22] = [
    // Classes by their names.
    (0, "P", ((Some(ClassId(0)), None), None, false, None)),
    (
        1,
        "Q",
        ((Some(ClassId(1)), Some(ClassId(0))), None, false, None),
    ),
    (
        2,
        "R",
        ((Some(ClassId(2)), Some(ClassId(1))), None, false, None),
    ),
    (3, "X", ((Some(ClassId(3)), None), None, false, None)),
    (
        4,
        "Y",
        ((Some(ClassId(4)), Some(ClassId(3))), None, false, None),
    ),
    (0, "Z", ((None, None), None, false, None)),
    (0, "A", ((None, None), Some(0), false, None)),
    // What has no name.
    (0, "", ((None, None), None, false, None)),
    (1, "", ((None, Some(ClassId(0))), None, false, None)),
    (2, "", ((None, Some(ClassId(1))), None, false, None)),
    (3, "", ((None, None), None, false, None)),
    (4, "", ((None, Some(ClassId(3))), None, false, None)),
    // Accessors.
    (0, "getA", ((None, None), None, true, None)),
    (2, "getC", ((None, Some(ClassId(1))), None, true, None)),
    (0, "getC", ((None, None), None, false, None)),
    (0, "get", ((None, None), None, false, None)),
    (2, "C", ((None, Some(ClassId(1))), Some(2), false, None)),
    // Attributes.
    (0, "v", ((None, None), None, false, Some(AttrId(0)))),
    (
        2,
        "v",
        ((None, Some(ClassId(1))), None, false, Some(AttrId(0))),
    ),
    (3, "v", ((None, None), None, false, Some(AttrId(1)))),
    (0, "u", ((None, None), None, false, Some(AttrId(5)))),
    (3, "u", ((None, None), None, false, None)),
];

// The first class and name for which there is something else.
fn other_name(grammar: &Grammar, rules: &Rules) -> Option<(u16, &'static str)>
    requires { (rules_in rules.now).superclasses ≡ superclasses_of grammar.now }
{
    for (k, name, want) in &NAMED {
        let (class, text) = (ClassId(*k), name.as_bytes());
        if !has_class(grammar, class) {
            return Some((*k, *name));
        }
        let attribute = rules.attributes().find(class, text);
        let named = (grammar.find_class(text), grammar.superclass(class));
        let component = grammar.find_component(class, text);
        let is_accessor = accessor_of(grammar, class, text, 0).is_some();
        let found = (named, component, is_accessor, attribute);
        if found != *want || is_spelled(grammar, class, text) != is_accessor {
            return Some((*k, *name));
        }
    }
    None
}

// What there is for an attribute at a component of a class and at the class: the equation that covers what hangs there, that of the attribute at
// the class itself, and the first inherited attribute of the same name.
type Numbered = (Option<EqId>, Option<EqId>, Option<AttrId>);

const NUMBERED: [(u16, u32, u16, Numbered); 23] = [
    // The component before every child.
    (0, 0, 1, (Some(EqId(1)), None, Some(AttrId(1)))),
    // A component that is covered as every child alone.
    (0, 1, 1, (Some(EqId(0)), None, Some(AttrId(1)))),
    // Every child of the nearest class before a component of one further up.
    (1, 0, 1, (Some(EqId(2)), None, Some(AttrId(1)))),
    (1, 1, 1, (Some(EqId(2)), None, Some(AttrId(1)))),
    (2, 0, 1, (Some(EqId(2)), None, Some(AttrId(1)))),
    (2, 1, 1, (Some(EqId(3)), None, Some(AttrId(1)))),
    (2, 2, 1, (Some(EqId(2)), None, Some(AttrId(1)))),
    // Another attribute of the same name.
    (0, 0, 2, (Some(EqId(1)), None, Some(AttrId(1)))),
    (2, 1, 2, (Some(EqId(3)), None, Some(AttrId(1)))),
    (0, 0, 0, (Some(EqId(1)), None, Some(AttrId(1)))),
    (0, 0, 4, (Some(EqId(4)), None, Some(AttrId(3)))),
    // A class further up.
    (0, 0, 3, (Some(EqId(4)), None, Some(AttrId(3)))),
    (1, 0, 3, (Some(EqId(4)), None, Some(AttrId(3)))),
    (2, 0, 3, (Some(EqId(4)), Some(EqId(7)), Some(AttrId(3)))),
    // None for the component, none for the class, and no inherited attribute of the name.
    (0, 1, 3, (None, None, Some(AttrId(3)))),
    (2, 1, 3, (None, Some(EqId(7)), Some(AttrId(3)))),
    (3, 0, 1, (None, None, Some(AttrId(1)))),
    (9, 0, 1, (None, None, Some(AttrId(1)))),
    (9, 0, 0, (None, None, Some(AttrId(1)))),
    (0, 0, 5, (None, None, None)),
    (0, 0, 6, (None, None, None)),
    (0, 0, 9, (None, None, None)),
    (1, 0, 9, (None, None, None)),
];

// The first class, component and attribute for which there is something else.
fn other_number(rules: &Rules) -> Option<(u16, u32, u16)> {
    for (class, component, attribute, want) in &NUMBERED {
        let (at, of) = (ClassId(*class), AttrId(*attribute));
        let covering = rules.inh_equation(at, Via::Component(Part(*component)), of);
        let own = rules.syn_equation(at, of);
        let first = rules.attributes().first_of_name(of);
        if (covering, own, first) != *want {
            return Some((*class, *component, *attribute));
        }
    }
    None
}

const L: ValueType = ValueType::Of(Kind::Node(ClassId(1)));

// A class that there isn't has no accessors.
fn has_accessors(grammar: &Grammar) -> bool {
    let class = ClassId(9);
    accessor_of(grammar, class, b"getA", 0).is_some() || is_spelled(grammar, class, b"getA")
}

// The first name and the first number for which there is something else, and whether a class that there isn't has accessors.
type Found = (Option<(u16, &'static str)>, Option<(u16, u32, u16)>, bool);

fn found_in_rules(alloc: Global) -> Result<Found, ReadFault> {
    let grammar = grammar_of(alloc, PARTS)?;
    let rules = rules_of(alloc, &grammar, &TARGETS)?;
    let other = (other_name(&grammar, &rules), other_number(&rules));
    Ok((other.0, other.1, has_accessors(&grammar)))
}

#[test]
fn what_has_a_name_or_a_number_is_found(rt: HostRuntime) {
    assert_eq!(rt; found_in_rules(rt.alloc()), Ok((None, None, false)));
}

#[test]
fn types_have_classes_and_are_kept(rt: HostRuntime) {
    let (null, int) = (ValueType::Null, ValueType::Of(Kind::Int));
    let classes = (L.class(), null.class(), int.class());
    let kinds = (L.kept_kind(), null.kept_kind(), int.kept_kind());
    let want = (Kind::Node(ClassId(1)), Kind::Node(ClassId(0)), Kind::Int);
    assert_eq!(rt; (classes, kinds), ((Some(ClassId(1)), None, None), want));
}
