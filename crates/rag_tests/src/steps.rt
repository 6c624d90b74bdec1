// An inherited look-up out of created trees goes up once: each tree and each node that it passes takes one step.
ghost use Rattle.std.specs.Prelude.{◌≡◌};
ghost use Rattle.equation_law.specs.Checked.{IsProgram};
ghost use Rattle.equation_law.specs.Systems.{program_of};

use crate::programs::{Texts, system_checked};
use ast_grammar::ClassId;
use attr_rules::{AttrId, EqId};
use broken_rules::ReadFault;
use equation_law::{Args, Code, Instance, NodeRef, Reader, System, Up, Value};
use inherited_walk::find_equation;
use made_trees::{Lent, Makers, argument_of, child_of, class_of, order_of, up_of};
use plain_rounds::{NameList, NamedArgs, NamedInstance, NodeName, plain_rounds};
use rag_io::Memory;
use std::alloc::Global;
use std::cmp::Ordering;

/// A reader of what made trees, without values. It counts the steps upwards that are asked of it.
#[derive(Drop)]
pub(crate) struct Counting<'a> {
    system: &'a System,
    makers: &'a Makers,
    steps: u32,
    ghost same: { makers.now.system ≡ system.now },
}

impl Reader for Counting<'_> {
    ghost use Rattle.rag_tests.specs.Counting.{told_by};

    ghost tells = { λ reader. told_by reader.makers.now };

    fn settled(&mut self, _alloc: Global, _i: &Instance) -> Result<Option<Value>, Memory> {
        Ok(None)
    }

    fn made_class(&mut self, node: NodeRef) -> ClassId {
        match class_of(&mut Lent(self.makers), self.system, node) {
            Some(class) => class,
            None => ClassId(u16::MAX),
        }
    }

    fn made_child(&mut self, node: NodeRef, component: u32) -> NodeRef {
        child_of(&mut Lent(self.makers), self.system, node, component)
    }

    fn made_token(&mut self, _node: NodeRef, _component: u32) -> Code {
        0
    }

    fn made_up(&mut self, node: NodeRef) -> Up {
        self.steps = self.steps.saturating_add(1);
        up_of(&mut Lent(self.makers), self.system, node)
    }

    fn made_arg(&mut self, node: NodeRef, k: u32) -> Code {
        argument_of(&mut Lent(self.makers), node, k)
    }

    fn made_order(&mut self, a: NodeRef, b: NodeRef) -> Ordering {
        order_of(&mut Lent(self.makers), self.system, a, b)
    }
}

// A tree of three nodes in line, of which the last one makes the next tree. The root of the source makes the first one, and has the equation that a
// look-up out of all of them finds.
const TEXTS: Texts<'_> = Texts {
    ast: "N; A ::= B; B ::= C; C;",
    jrag: "aspect A { syn nta A N.next() = new A(new B(new C())); syn nta A C.next() = new A(new B(new C())); \
           inh int C.base(); eq N.next().base() = 5; }",
    tree: "N()",
    queries: "",
};

const FIRST: AttrId = AttrId(0);

const NEXT: AttrId = AttrId(1);

const BASE: AttrId = AttrId(2);

const FOUND: EqId = EqId(2);

fn without_arguments(attr: AttrId, node: NodeName) -> NamedInstance {
    NamedInstance {
        attr,
        node,
        args: NamedArgs::None,
    }
}

// The instance that makes the tree of this depth.
fn maker_at(alloc: Global, depth: u32) -> Result<NamedInstance, ReadFault> {
    let mut name = without_arguments(FIRST, NodeName::Source(0));
    for _ in 1..depth {
        name = without_arguments(NEXT, NodeName::Made(Box::new(alloc, name)?, 2));
    }
    Ok(name)
}

// The instances that make nested trees up to this depth.
fn makers_to(alloc: Global, system: &System, depth: u32) -> Result<NameList, ReadFault> {
    let mut names = NameList::of_source(alloc, system)?;
    for k in 1..=depth {
        names.add(maker_at(alloc, k)?)?;
    }
    Ok(names)
}

// The last node of the tree of this depth, where it was made.
fn last_node(makers: &Makers, depth: u32) -> Option<NodeRef> {
    let mut node = NodeRef(1);
    let mut attr = FIRST;
    for _ in 0..depth {
        let args = Args::none();
        let root = makers.root(&Instance::Attr { attr, node, args })?;
        node = NodeRef(root.0.saturating_add(2));
        attr = NEXT;
    }
    Some(node)
}

// How many steps a look-up at the last node of the tree of this depth takes that finds the equation at the root of the source.
fn steps_from(alloc: Global, system: &System, depth: u32) -> Result<Option<u32>, ReadFault>
    requires { IsProgram (program_of system.now) }
{
    let names = makers_to(alloc, system, depth)?;
    if !names.are_of(system) {
        return Ok(None);
    }
    let table = plain_rounds(alloc, system, &names)?;
    let makers = table.makers();
    if makers.len() < depth {
        return Ok(None);
    }
    let Some(node) = last_node(makers, depth) else {
        return Ok(None);
    };
    let mut reader = Counting {
        system,
        makers,
        steps: 0,
    };
    match find_equation(system, BASE, node, Args::none(), &mut reader) {
        Some(site) if site.equation == FOUND => Ok(Some(reader.steps)),
        _ => Ok(None),
    }
}

// Depths, and the steps: one out of each tree, and two inside of it.
const STEPS: [(u32, u32); 4] = [(1, 3), (50, 150), (100, 300), (200, 600)];

// The first depth at which there are other steps.
fn other_steps(alloc: Global) -> Result<Option<u32>, ReadFault> {
    let system = system_checked(alloc, &TEXTS)?;
    for (depth, steps) in STEPS {
        if steps_from(alloc, &system, depth)? != Some(steps) {
            return Ok(Some(depth));
        }
    }
    Ok(None)
}

#[test]
fn a_look_up_takes_a_step_for_each_tree_and_node(rt: HostRuntime) {
    assert_eq!(rt; other_steps(rt.alloc()), Ok(None));
}
