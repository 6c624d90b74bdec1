// The rounds over instances that callers name, and the equation of one.
ghost use Rattle.equation_law.specs.Checked.{IsProgram};
ghost use Rattle.equation_law.specs.Systems.{program_of};

use crate::forms::Nothing;
use crate::programs::{Texts, system_checked};
use crate::rows::{At, Given, Row, Want, With, other_row};
use attr_rules::{AttrId, EqId};
use broken_rules::ReadFault;
use collection_attrs::is_collection;
use equation_law::{Args, EqSite, Instance, NodeRef, System, Value};
use expr_eval::{Turn, evaluate};
use inherited_walk::equation_of;
use plain_rounds::{NameList, NamedArg, NamedArgs, NamedInstance, NodeName};
use rag_io::Memory;
use std::alloc::{AllocError, Global};

const Y: AttrId = AttrId(5);

const TEXTS: Texts<'_> = Texts {
    ast: "P ::= l:L*; L ::= <V:int>;",
    jrag: "aspect A { syn int P.d(int n) = n == 0 ? 0 : d(n - 1) + 1; syn String P.t(String s) = s == \"x\" ? \"y\" : s; \
           syn L P.n(L x) = x; syn boolean P.b(boolean c, int n) = c && n > 1; syn int P.z() = 7; \
           inh int L.y(); eq P.getl(int i).y() = i; syn int P.v(L x) = n(x).getV(); }",
    tree: "P([L(1), L(2)])",
    queries: "",
};

const ROOT: At = At::Source(0);

const SECOND: At = At::Source(2);

// A text that the system doesn't have counts as the empty one.
const INSTANCES: [Row; 23] = [
    (0, ROOT, With::One(Given::Int(1)), Want::Int(1)),
    (0, ROOT, With::One(Given::Int(0)), Want::Int(0)),
    // this demands `d(2)`, which isn't among the rows
    (0, ROOT, With::One(Given::Int(3)), Want::Nothing),
    (1, ROOT, With::One(Given::Text("x")), Want::Text("y")),
    (1, ROOT, With::One(Given::Text("")), Want::Text("")),
    (1, ROOT, With::One(Given::Text("other")), Want::Text("")),
    (2, ROOT, With::One(Given::Node(SECOND)), Want::Other),
    (2, ROOT, With::One(Given::Node(At::Null)), Want::Other),
    (6, ROOT, With::One(Given::Node(SECOND)), Want::Int(2)),
    (6, ROOT, With::One(Given::Node(At::Null)), Want::Int(0)),
    (
        3,
        ROOT,
        With::Two(Given::Truth(true), Given::Int(2)),
        Want::Truth(true),
    ),
    (
        3,
        ROOT,
        With::Two(Given::Truth(true), Given::Int(1)),
        Want::Truth(false),
    ),
    // too few arguments or too many, one of another type or class, no node of the tree, a node of another class, null, and an attribute that isn't
    // declared
    (0, ROOT, With::None, Want::Stranger),
    (
        0,
        ROOT,
        With::Two(Given::Int(0), Given::Int(0)),
        Want::Stranger,
    ),
    (
        0,
        ROOT,
        With::Three(Given::Int(0), Given::Int(0), Given::Int(0)),
        Want::Stranger,
    ),
    (4, ROOT, With::One(Given::Int(0)), Want::Stranger),
    (0, ROOT, With::One(Given::Truth(true)), Want::Stranger),
    (2, ROOT, With::One(Given::Node(ROOT)), Want::Stranger),
    (
        2,
        ROOT,
        With::One(Given::Node(At::Source(3))),
        Want::Stranger,
    ),
    (4, SECOND, With::None, Want::Stranger),
    (4, At::Source(3), With::None, Want::Stranger),
    (4, At::Null, With::None, Want::Stranger),
    (7, ROOT, With::None, Want::Stranger),
];

#[test]
fn named_instances_have_values(rt: HostRuntime) {
    assert_eq!(rt; other_row(rt.alloc(), &TEXTS, &INSTANCES), Ok(None));
}

// Whether lists of arguments are these arguments, up to three of them.
fn are_listed(alloc: Global) -> Result<bool, AllocError> {
    let (x, y, z) = (NamedArg::Int(1), NamedArg::Truth(true), NamedArg::Int(3));
    let three = NamedArgs::of(vec![in alloc; x, y, z]?);
    let two = NamedArgs::of(vec![in alloc; NamedArg::Int(1), NamedArg::Int(2)]?);
    let one = NamedArgs::of(vec![in alloc; NamedArg::Int(1)]?);
    let none = NamedArgs::of(Vec::new(alloc));
    Ok(
        three == NamedArgs::Three(NamedArg::Int(1), NamedArg::Truth(true), NamedArg::Int(3))
            && two == NamedArgs::Two(NamedArg::Int(1), NamedArg::Int(2))
            && one == NamedArgs::One(NamedArg::Int(1))
            && none == NamedArgs::None,
    )
}

#[test]
fn arguments_of_lists(rt: HostRuntime) {
    assert_eq!(rt; are_listed(rt.alloc()), Ok(true));
}

// The equation of an attribute without arguments at a node, where they are an instance and no collection.
fn site_of(
    alloc: Global,
    system: &System,
    attr: AttrId,
    node: u16,
) -> Result<Option<EqSite>, Memory>
    requires { IsProgram (program_of system.now) }
{
    let node = u32::from(node);
    let mut names = NameList::of_source(alloc, system)?;
    names.add(NamedInstance {
        attr,
        node: NodeName::Source(node),
        args: NamedArgs::None,
    })?;
    if !names.are_of(system) {
        return Ok(None);
    }
    let (at, args) = (NodeRef::of_source(Some(node)), Args::none());
    let node = at;
    if is_collection(system, &Instance::Attr { attr, node, args }) {
        return Ok(None);
    }
    let mut reader = Nothing { system };
    Ok(Some(equation_of(system, attr, at, args, &mut reader)))
}

// The place of the second statement is what the path binds.
const SECOND_PLACE: Args = Args {
    count: 1,
    first: 1,
    second: 0,
    third: 0,
};

const NONE: Args = Args {
    count: 0,
    first: 0,
    second: 0,
    third: 0,
};

// Where the equation of `y` at the second node of the list is read, and what is bound there.
const PLACE: EqSite = EqSite {
    equation: EqId(5),
    node: NodeRef(1),
    outer: SECOND_PLACE,
    inner: NONE,
};

// Whether the equation of `y` there comes to the place that is bound.
fn is_evaluated(alloc: Global, system: &System) -> bool
    requires { IsProgram (program_of system.now) }
{
    if system.rules().equations() <= 5 {
        return false;
    }
    let turn = evaluate(alloc, system, &PLACE, &mut Nothing { system });
    matches!(turn, Ok(Turn::Done(Value::Int(1))))
}

// The equation of `y` at the second node of the list, and whether it is evaluated so.
fn found_at_node(alloc: Global) -> Result<(Result<Option<EqSite>, Memory>, bool), ReadFault> {
    let system = system_checked(alloc, &TEXTS)?;
    Ok((site_of(alloc, &system, Y, 2), is_evaluated(alloc, &system)))
}

#[test]
fn equations_are_found_and_evaluated(rt: HostRuntime) {
    assert_eq!(rt; found_at_node(rt.alloc()), Ok((Ok(Some(PLACE)), true)));
}
