// Roots of collections that were found already.
ghost use Rattle.std.specs.Prelude.{◌≡◌, ◌<◌, IfNone, IfSome, length};
ghost use Rattle.tree_arena.specs.Terms.{IsTree};
ghost use Rattle.equation_law.specs.Checked.{HasSourcesAlone};
ghost use Rattle.equation_law.specs.Systems.{program_of};
ghost use Rattle.collection_attrs.specs.Roots.{IsRoot, IsRootOf, IsRootless, KeepsAtMost};
ghost use Rattle.collection_attrs.specs.Surveys.{Collections, IsCollectorOf};

use crate::collectors::Collector;
use ast_grammar::ClassId;
use equation_law::System;
use std::alloc::Global;
use std::collections::HashMap;
use std::marker::Model;
use std::snapshot::Snapshot;

/// A root class, by its number, and a node from which on upwards the closest node of it is looked for.
#[derive(Clone, Copy, Debug, PartialEq, Eq, Hash)]
pub(crate) struct Upwards {
    pub class: u16,
    pub node: u32,
}

impl Upwards {
    /// From a node to the closest of a class.
    fn new(class: ClassId, node: u32) -> Upwards
        ensures { (result.class ≡ class.0) × (result.node ≡ node) }
    {
        Upwards {
            class: class.0,
            node,
        }
    }
}

/// For root classes and nodes, the root that was found, or that there is none. It is a fact of the system's program alone.
#[derive(Drop)]
pub struct Roots {
    system: Snapshot<System>,
    notes: HashMap<Upwards, Option<u32>>,
}

impl Model for Roots {
    ghost use Rattle.std.specs.Coded.{codes};
    ghost use Rattle.attr_rules.specs.contracts.expression.TExpr as expressions;
    ghost use Rattle.equation_law.specs.declared.system.System.{System as StandingSystem};
    ghost use Rattle.equation_law.specs.Systems.{program_of};
    ghost use Rattle.collection_attrs.specs.Roots.{AreRoots};

    ghost Value = { StandingSystem };

    ghost coded = { Prim.hlevel (codes, expressions.the_row.coded) };

    ghost view = { λ r. r.system.value };

    ghost invariant = { λ r. AreRoots (program_of r.system.value) r.notes };
}

// Keeps the root of a node, if there is memory for that.
fn keep(notes: &mut HashMap<Upwards, Option<u32>>, from: Upwards, root: Option<u32>)
    ensures { KeepsAtMost notes.old from root notes.new }
{
    let _kept = notes.insert(from, root);
}

/// The closest node upwards, the node itself included, that is of a class or of a subclass. It is looked for up to the first node for which it is
/// noted.
fn climb(system: &System, roots: &Roots, class: ClassId, node: u32) -> Option<u32>
    requires same { roots.now ≡ system.now }
    requires within { node < length (program_of system.now).tree }
    requires tree { IsTree (program_of system.now).tree }
    ensures { IsRoot (program_of system.now) class node result }
{
    let tree = system.tree();
    let mut at = node;
    'upwards: while !system.grammar().is_sub(tree.class_of(at), class) {
        if let Some(root) = roots.noted(class, at) {
            return root;
        }
        at = tree.parent(at)?;
    }
    Some(at)
}

/// Notes the root for each node on the way to it, up to the first for which it is noted.
fn fill(system: &System, roots: &mut Roots, class: ClassId, node: u32, root: Option<u32>)
    requires same { roots.old ≡ system.now }
    requires within { node < length (program_of system.now).tree }
    requires tree { IsTree (program_of system.now).tree }
    requires root { IsRoot (program_of system.now) class node root }
    ensures { roots.new ≡ roots.old }
{
    let tree = system.tree();
    let mut at = node;
    'upwards: while !system.grammar().is_sub(tree.class_of(at), class) {
        if roots.noted(class, at).is_some() {
            return;
        }
        roots.note(class, at, root);
        let Some(parent) = tree.parent(at) else {
            return;
        };
        at = parent;
    }
}

impl Roots {
    /// None is noted yet. It takes no memory.
    pub fn new(alloc: Global, system: &System) -> Roots
        ensures { result ≡ system.now }
    {
        Roots {
            system: Snapshot::of(system),
            notes: HashMap::new(alloc),
        }
    }

    /// What is noted of a node: its root, or that it has none.
    fn noted(&self, class: ClassId, node: u32) -> Option<Option<u32>>
        ensures { IfSome result (IsRoot (program_of self.now) class node) }
    {
        match self.notes.get(&Upwards::new(class, node)) {
            Some(root) => Some(*root),
            None => None,
        }
    }

    /// Notes the root of a node.
    fn note(&mut self, class: ClassId, node: u32, root: Option<u32>)
        requires { IsRoot (program_of self.old) class node root }
        ensures { self.new ≡ self.old }
    {
        keep(&mut self.notes, Upwards::new(class, node), root);
    }

    /// The same as `root_of`, of a program that makes no trees. A way upwards is climbed once: the root is noted for each node on it.
    pub fn find_root(&mut self, system: &System, of: Collector) -> Option<u32>
        requires same { self.old ≡ system.now }
        requires bare { HasSourcesAlone (program_of system.now) }
        requires collection { (c : Collections) × IsCollectorOf (program_of system.now) of c }
        ensures same { self.new ≡ self.old }
        ensures within { IfSome result (λ r. r < length (program_of system.now).tree) }
        ensures some { IfSome result (IsRootOf (program_of system.now) of) }
        ensures none { IfNone result (IsRootless (program_of system.now) of) }
    {
        let node = of.node.source()?;
        let nodes = system.tree().len();
        let Some(class) = system.rules().root(of.attr) else {
            return Some(0);
        };
        if node >= nodes {
            return None;
        }
        let root = climb(system, self, class, node);
        fill(system, self, class, node, root);
        root
    }
}
