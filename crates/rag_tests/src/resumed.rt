// Evaluations that go on where they stopped: no form over elements goes over one again that it has done with.
ghost use Rattle.std.specs.Prelude.{◌≡◌, ◌<◌, ◌+◌, ◌*◌, ◌^◌};
ghost use Rattle.equation_law.specs.Checked.{IsProgram};
ghost use Rattle.equation_law.specs.Systems.{program_of};

use crate::programs::{Long, Texts, long_text, system_said};
use ast_grammar::ClassId;
use attr_rules::AttrId;
use collection_attrs::is_collection;
use equation_law::{Args, Code, Instance, NodeRef, Reader, System, Up, Value};
use expr_eval::{Saved, Turn, kind_of, resume_instance};
use program_reader::Refusal;
use rag_io::Memory;
use std::alloc::Global;
use std::cmp::Ordering;

/// A reader that has no value of an instance when it is demanded first, and `true`, read at its type, from then on; those of lower attributes,
/// and of the same at earlier nodes, have theirs then too. It counts the demands.
#[derive(Drop)]
pub(crate) struct Late<'a> {
    system: &'a System,
    known: u64,
    wanted: u64,
    demands: u32,
}

// The number of an attribute at a node.
fn number_of(attr: AttrId, node: NodeRef) -> u64
    ensures number { result ≡ attr.0 * 1000 + node.0 }
    ensures small { result < 2 ^ 63 }
{
    u64::from(attr.0) * 1000 + u64::from(node.0)
}

impl Reader for Late<'_> {
    ghost use Rattle.equation_law.specs.Systems.{program_of};
    ghost use Rattle.rag_tests.specs.Late.{late};

    ghost tells = { λ reader. late (program_of reader.system.now) reader.known };

    fn settled(&mut self, alloc: Global, i: &Instance) -> Result<Option<Value>, Memory> {
        self.demands = self.demands.saturating_add(1);
        self.known = self.known.max(self.wanted);
        match i {
            Instance::Query(_) => Ok(None),
            Instance::Attr { attr, node, .. } => {
                let number = number_of(*attr, *node);
                if number < self.known {
                    let kind = kind_of(self.system, i);
                    return Ok(Some(Value::Truth(true).read_as(alloc, kind)));
                }
                self.wanted = number + 1;
                Ok(None)
            }
        }
    }

    fn made_class(&mut self, _node: NodeRef) -> ClassId {
        ClassId(u16::MAX)
    }

    fn made_child(&mut self, _node: NodeRef, _component: u32) -> NodeRef {
        NodeRef(0)
    }

    fn made_token(&mut self, _node: NodeRef, _component: u32) -> Code {
        0
    }

    fn made_up(&mut self, _node: NodeRef) -> Up {
        Up::Owner {
            node: NodeRef(0),
            attr: AttrId(0),
        }
    }

    fn made_arg(&mut self, _node: NodeRef, _k: u32) -> Code {
        0
    }

    fn made_order(&mut self, a: NodeRef, b: NodeRef) -> Ordering {
        a.0.cmp(&b.0)
    }
}

const GRAMMAR: &str = "P ::= l:L*; L ::= <V:int>;";

const ASPECT: &str =
    "aspect A { syn boolean L.a() = true; syn boolean L.b() = true; syn Set<L> L.s() = single(this); syn boolean L.t() = true; \
     syn boolean P.all() = all(x : getlList() | x.a()); syn boolean P.any() = any(x : getlList() | x.a()); \
     syn L P.first() = first(x : getlList() | !x.a()); syn Set<L> P.each() = each(x : getlList() | x.s()); \
     syn boolean P.both() = all(x : getlList() | x.a()) && any(x : getlList() | x.b()); \
     syn boolean P.within() = all(x : getlList() | any(y : getlList() | x.a() && y.b())); \
     syn int P.sizes() = size(each(x : getlList() | x.s())) + size(each(x : getlList() | x.t() ? x.s() : empty)); }";

// A list of 40 elements.
const TREE: Long<'_> = Long {
    head: "P([",
    part: "L(1), ",
    middle: "L(1)])",
    end: "",
    times: 39,
};

// The attributes of the root by their numbers, and how many demands there are until one has its value. A demand that has no value ends an
// evaluation, and is made once more: two at each element for one attribute. A form in a form makes two at each of 40 pairs; one more at the
// first, and two more at each of those, end evaluations.
const DEMANDS: [(u16, u32); 7] = [
    (4, 80),
    (5, 80),
    (6, 80),
    (7, 80),
    (8, 160),
    (9, 3281),
    (10, 200),
];

/// What the evaluation of an attribute of the root comes to that goes on after each demand without a value: what was missing, in turn, the last turn,
/// and how many demands there were.
#[derive(Drop)]
pub(crate) struct Followed {
    pub(crate) missing: Vec<Instance>,
    pub(crate) last: Turn,
    demands: u32,
}

/// Follows the evaluation of an attribute of the root, which is no collection.
pub(crate) fn follow(alloc: Global, system: &System, attr: AttrId) -> Result<Followed, Memory>
    requires { IsProgram (program_of system.now) }
{
    let i = Instance::Attr {
        attr,
        node: NodeRef(1),
        args: Args::none(),
    };
    if is_collection(system, &i) {
        return Err(Memory);
    }
    let mut reader = Late {
        system,
        known: 0,
        wanted: 0,
        demands: 0,
    };
    let mut saved = Saved::new(alloc);
    let mut missing = Vec::new(alloc);
    for _ in 0..10_000 {
        match resume_instance(alloc, system, &i, &mut reader, &mut saved)? {
            Turn::Need(next) => missing.push(next).map_err(|_| Memory)?,
            last => {
                return Ok(Followed {
                    missing,
                    last,
                    demands: reader.demands,
                });
            }
        }
    }
    Err(Memory)
}

// How many demands the evaluation of an attribute of the root takes that comes to a value.
fn demands_of(alloc: Global, system: &System, attr: u16) -> Result<u32, Memory>
    requires { IsProgram (program_of system.now) }
{
    let followed = follow(alloc, system, AttrId(attr))?;
    match followed.last {
        Turn::Done(_) => Ok(followed.demands),
        _ => Err(Memory),
    }
}

// The first of these attributes that takes another number of demands.
fn other_demands(alloc: Global, system: &System) -> Result<Option<u16>, Memory>
    requires { IsProgram (program_of system.now) }
{
    for (attr, wanted) in &DEMANDS {
        if demands_of(alloc, system, *attr)? != *wanted {
            return Ok(Some(*attr));
        }
    }
    Ok(None)
}

// The first of these attributes in a system of the list that takes another number of demands.
fn other_in_list(alloc: Global) -> Result<Result<Option<u16>, Memory>, Refusal> {
    let Ok(tree) = long_text(alloc, &TREE) else {
        return Err(Refusal::Memory);
    };
    let texts = Texts {
        ast: GRAMMAR,
        jrag: ASPECT,
        tree: tree.as_str(),
        queries: "",
    };
    let system = system_said(alloc, &texts)?;
    Ok(other_demands(alloc, &system))
}

#[test]
fn each_element_is_gone_over_once(rt: HostRuntime) {
    assert_eq!(rt; other_in_list(rt.alloc()), Ok(Ok(None)));
}
