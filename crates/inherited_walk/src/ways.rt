// Ways upwards that were climbed already.
ghost use Rattle.std.specs.Prelude.{◌≡◌, ◌<◌, ◌⊎◌, ℕ, IfSome, None, Some, length, false};
ghost use Rattle.std.specs.HashMap.{get};
ghost use Rattle.tree_arena.specs.Nodes.{most_nodes, parent_in};
ghost use Rattle.equation_law.specs.Checked.{HasSourcesAlone};
ghost use Rattle.equation_law.specs.Codes.{IsRow};
ghost use Rattle.equation_law.specs.Systems.{program_of};
ghost use Rattle.inherited_walk.specs.contracts.ways.StartPartialEq.TheImpl as starts;
ghost use Rattle.inherited_walk.specs.declared.ways.Start.{Start as WayStart};
ghost use Rattle.inherited_walk.specs.Sites.{FindsEquation, IsSourceSite, IsUncovered};
ghost use Rattle.inherited_walk.specs.Ways.{IsWay};

use crate::walk::{covering, inherited, is_inherited, synthesized};
use attr_rules::AttrId;
use equation_law::{Args, EqSite, NodeRef, System};
use std::alloc::Global;
use std::collections::HashMap;
use std::marker::Model;
use std::snapshot::Snapshot;

/// An attribute and a node, where a way begins.
#[derive(Clone, Copy, Debug, PartialEq, Eq, Hash)]
pub struct Start {
    pub attr: AttrId,
    pub node: u32,
}

/// For inherited attributes at nodes, from which node on upwards the equation is found. It is a fact of the system's program alone.
#[derive(Drop)]
pub struct Ways {
    system: Snapshot<System>,
    tops: HashMap<Start, u32>,
}

impl Model for Ways {
    ghost use Rattle.std.specs.Coded.{codes};
    ghost use Rattle.attr_rules.specs.contracts.expression.TExpr as expressions;
    ghost use Rattle.equation_law.specs.declared.system.System.{System as StandingSystem};
    ghost use Rattle.equation_law.specs.Systems.{program_of};
    ghost use Rattle.inherited_walk.specs.Ways.{AreWays};

    ghost Value = { StandingSystem };

    ghost coded = { Prim.hlevel (codes, expressions.the_row.coded) };

    ghost view = { λ w. w.system.value };

    ghost invariant = { λ w. AreWays (program_of w.system.value) w.tops };
}

// Keeps the top of a way, if there is memory for that.
fn keep(tops: &mut HashMap<Start, u32>, start: Start, top: u32)
    ensures { (s : WayStart) (t : ℕ) → get starts.ghosts.eq tops.new s ≡ Some t → (get starts.ghosts.eq tops.old s ≡ Some t) ⊎ ((s ≡ start) × (t ≡ top)) }
{
    let _kept = tops.insert(start, top);
}

impl Ways {
    /// None is noted yet. It takes no memory.
    pub fn new(alloc: Global, system: &System) -> Ways
        ensures { result ≡ system.now }
    {
        Ways {
            system: Snapshot::of(system),
            tops: HashMap::new(alloc),
        }
    }

    /// Whether the way from a node is noted.
    fn has(&self, attr: AttrId, node: u32) -> bool {
        self.tops.contains_key(&Start { attr, node })
    }

    /// The top of the way from a node, as far as it is noted.
    fn follow(&self, attr: AttrId, node: u32) -> u32
        ensures { IsWay (program_of self.now) attr.0 node result }
    {
        match self.tops.get(&Start { attr, node }) {
            Some(top) => *top,
            None => node,
        }
    }

    /// Notes the way from a node.
    fn note(&mut self, attr: AttrId, node: u32, top: u32)
        requires { IsWay (program_of self.old) attr.0 node top }
        ensures { self.new ≡ self.old }
    {
        keep(&mut self.tops, Start { attr, node }, top);
    }
}

/// Whether an equation covers the way to a node at its parent.
fn covers(system: &System, attr: AttrId, node: u32, parent: u32) -> bool
    requires node { node < length (program_of system.now).tree }
    requires few { node < most_nodes }
    requires parent { parent_in (program_of system.now).tree node ≡ Some parent }
    requires above { parent < node }
    ensures { result ≡ false → IsUncovered (program_of system.now) attr node }
{
    covering(system, attr, Args::none(), node, parent).is_some()
}

/// The node from which on upwards the equation of an inherited attribute at a node is found: it is covered there, or the root.
fn top_of(system: &System, ways: &Ways, attr: AttrId, node: u32) -> u32
    requires same { ways.now ≡ system.now }
    ensures { IsWay (program_of system.now) attr.0 node result }
{
    let tree = system.tree();
    if node >= tree.len() {
        return node;
    }
    let mut at = ways.follow(attr, node);
    while let Some(parent) = tree.parent(at) {
        if covers(system, attr, at, parent) {
            return at;
        }
        at = ways.follow(attr, parent);
    }
    at
}

/// Notes the top for each node of the way from a node to it, up to the first for which it is noted.
fn fill(system: &System, ways: &mut Ways, attr: AttrId, node: u32, top: u32)
    requires same { ways.old ≡ system.now }
    requires way { IsWay (program_of system.now) attr.0 node top }
    ensures { ways.new ≡ ways.old }
{
    let tree = system.tree();
    if node >= tree.len() {
        return;
    }
    let mut at = node;
    while let Some(parent) = tree.parent(at) {
        if at <= top || ways.has(attr, at) || covers(system, attr, at, parent) {
            return;
        }
        ways.note(attr, at, top);
        at = parent;
    }
}

/// The same as `find_equation`, in a program that makes nothing. A way upwards is climbed once: it is noted for each node on it.
pub fn find_noted(
    system: &System,
    ways: &mut Ways,
    attr: AttrId,
    node: NodeRef,
    args: Args,
) -> Option<EqSite>
    requires same { ways.old ≡ system.now }
    requires bare { HasSourcesAlone (program_of system.now) }
    ensures same { ways.new ≡ ways.old }
    ensures found { FindsEquation (program_of system.now) attr node args result }
    ensures rows { IsRow args → IfSome result (λ s. IsRow s.outer × IsRow s.inner) }
    ensures source { IfSome result (IsSourceSite (program_of system.now) args) }
{
    let source = node.source()?;
    if !is_inherited(system, attr) {
        return synthesized(system, attr, source, args);
    }
    let top = top_of(system, ways, attr, source);
    fill(system, ways, attr, source, top);
    inherited(system, attr, args, top)
}
