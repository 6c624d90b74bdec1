// What a caller notes of a program.
ghost use Rattle.std.specs.Prelude.{◌≡◌, ◌⊎◌, ◌<◌, IfNone, IfSome, List, Some, length, true};
ghost use Rattle.equation_law.specs.Checked.{HasSourcesAlone};
ghost use Rattle.equation_law.specs.declared.coding.Instance.{Instance as CodedInstance};
ghost use Rattle.equation_law.specs.Codes.{IsRow, Naming};
ghost use Rattle.equation_law.specs.Program.{Program};
ghost use Rattle.equation_law.specs.Systems.{program_of};
ghost use Rattle.memo_cells.specs.declared.view.View.{View};
ghost use Rattle.memo_cells.specs.Agreeing.{Agrees};
ghost use Rattle.collection_attrs.specs.Roots.{IsRootOf, IsRootless};
ghost use Rattle.collection_attrs.specs.Surveys.{Collections, IsCollectorOf};
ghost use Rattle.collection_attrs.specs.Walks.{Walk, new_walk};
ghost use Rattle.caller_pass.specs.declared.walks.Walked.{Walked};
ghost use Rattle.caller_pass.specs.Keeping.{IsNotebookOf, SameButWalks, walk_at};
ghost use Rattle.inherited_walk.specs.Sites.{FindsEquation, IsSourceSite};
ghost use Rattle.caller_pass.specs.Noting.{AreNoted, IsNoted, KeepsAmong, KeepsAtMost, is_kept};

use crate::walks::Walks;
use attr_rules::AttrId;
use collection_attrs::{Collector, Offers, Roots};
use equation_law::{Args, EqSite, Instance, NodeRef, System, Value};
use inherited_walk::{Ways, find_noted};
use std::alloc::Global;
use std::collections::{HashMap, HashSet};
use std::marker::Model;
use std::snapshot::Snapshot;

/// What one caller has found out of a system's program. A note is a fact of the program and of what codes stand for, as the caller's pass knows it, and
/// what is kept of walks is one of the cells that the pass has seen settled: so both hold as long as the pass goes on.
#[derive(Drop)]
pub struct Notebook {
    system: Snapshot<System>,
    // Values of instances of set types, which share the elements with those that were handed out.
    sets: HashMap<Instance, Value>,
    // Instances that have a loop.
    loops: HashSet<Instance>,
    // Ways upwards, for inherited attributes.
    ways: Ways,
    // Roots of collections.
    roots: Roots,
    // Walks over what is offered to collections, which outlive what is asked: else each query for a collection would begin its walk anew.
    walks: Walks,
}

// Keeps the value of an instance, if there is memory for that.
fn keep(sets: &mut HashMap<Instance, Value>, i: Instance, value: Value)
    ensures { KeepsAtMost sets.old.entries i value sets.new.entries }
{
    let _noted = sets.insert(i, value);
}

// Puts an instance among others, if there is memory for that.
fn put(among: &mut HashSet<Instance>, one: Instance)
    ensures { (i : CodedInstance) → is_kept among.new.keys i ≡ true → (is_kept among.old.keys i ≡ true) ⊎ (i ≡ one) }
{
    let _put = among.insert(one);
}

// Puts instances among others, as far as there is memory for that.
fn put_all(among: &mut HashSet<Instance>, more: &[Instance])
    ensures { KeepsAmong among.old.keys more.now among.new.keys }
{
    for one in more {
        put(among, *one);
    }
}

impl Model for Notebook {
    ghost use Rattle.std.specs.Prelude.{◌≡◌};
    ghost use Rattle.std.specs.Coded.{codes};
    ghost use Rattle.attr_rules.specs.contracts.expression.TExpr as expressions;
    ghost use Rattle.caller_pass.specs.Keeping.{Notes};

    ghost Value = { Notes };

    ghost coded = { Prim.hlevel (codes, expressions.the_row.coded) };

    ghost view = { λ n. record { system = n.system.value; sets = n.sets.entries; loops = n.loops.keys; walks = n.walks } };

    ghost invariant = { λ n. (n.ways ≡ n.system.value) × (n.roots ≡ n.system.value) };
}

impl Notebook {
    /// Nothing is noted yet of the program of a system. It takes no memory.
    pub fn new(alloc: Global, system: &System) -> Notebook
        ensures { (v : View) → IsNotebookOf system.now v result }
    {
        Notebook {
            system: Snapshot::of(system),
            sets: HashMap::new(alloc),
            loops: HashSet::new(alloc),
            ways: Ways::new(alloc, system),
            roots: Roots::new(alloc, system),
            walks: Walks::new(alloc),
        }
    }

    /// The value that is noted of an instance.
    pub(crate) fn set(&self, i: &Instance) -> Option<Value>
        ensures { (p : Program) (ms : List CodedInstance) (names : Naming) → Agrees p ms names → AreNoted p ms self.now.sets → IfSome result (IsNoted p ms i.now) }
    {
        let value = self.sets.get(i)?;
        value.copy().ok()
    }

    /// Notes the value of an instance, if there is memory for that.
    pub(crate) fn note_set(&mut self, i: Instance, value: Value)
        ensures others { (self.new.system ≡ self.old.system) × (self.new.loops ≡ self.old.loops) × (self.new.walks ≡ self.old.walks) }
        ensures sets { KeepsAtMost self.old.sets i value self.new.sets }
    {
        keep(&mut self.sets, i, value);
    }

    /// Whether it is noted that an instance has a loop.
    pub(crate) fn has_loop(&self, i: &Instance) -> bool
        ensures { result ≡ is_kept self.now.loops i.now }
    {
        self.loops.contains(i)
    }

    /// Notes that each of these instances has a loop, if there is memory for that.
    pub(crate) fn note_loops(&mut self, chain: &[Instance])
        ensures others { (self.new.system ≡ self.old.system) × (self.new.sets ≡ self.old.sets) × (self.new.walks ≡ self.old.walks) }
        ensures loops { KeepsAmong self.old.loops chain.now self.new.loops }
    {
        put_all(&mut self.loops, chain);
    }

    /// The equation of an attribute at a node with arguments. The way to it is noted.
    pub(crate) fn site(
        &mut self,
        system: &System,
        attr: AttrId,
        node: NodeRef,
        args: Args,
    ) -> Option<EqSite>
        requires same { self.old.system ≡ system.now }
        requires bare { HasSourcesAlone (program_of system.now) }
        ensures same { self.new ≡ self.old }
        ensures found { FindsEquation (program_of system.now) attr node args result }
        ensures rows { IsRow args → IfSome result (λ s. IsRow s.outer × IsRow s.inner) }
        ensures source { IfSome result (IsSourceSite (program_of system.now) args) }
    {
        find_noted(system, &mut self.ways, attr, node, args)
    }

    /// The root in whose subtree what is offered to a collection stands. Where there is none, nothing is offered. The way to it is noted.
    pub(crate) fn root_for(&mut self, system: &System, of: Collector) -> Option<u32>
        requires same { self.old.system ≡ system.now }
        requires bare { HasSourcesAlone (program_of system.now) }
        requires collection { (c : Collections) × IsCollectorOf (program_of system.now) of c }
        ensures same { self.new ≡ self.old }
        ensures within { IfSome result (λ r. r < length (program_of system.now).tree) }
        ensures some { IfSome result (IsRootOf (program_of system.now) of) }
        ensures none { IfNone result (IsRootless (program_of system.now) of) }
    {
        self.roots.find_root(system, of)
    }

    /// Takes away the walk over what is offered to a collection attribute in the subtree of a root, or begins one.
    pub(crate) fn take_walk(&mut self, alloc: Global, attr: AttrId, root: u32) -> Offers
        ensures same { SameButWalks self.old self.new }
        ensures of { (result.attribute ≡ attr.0) × (result.root ≡ root) }
        ensures walk { (result ≡ new_walk attr.0 root) ⊎ ((k : Walked) × (walk_at self.old.walks k ≡ Some result)) }
        ensures others { (k : Walked) (w : Walk) → walk_at self.new.walks k ≡ Some w → walk_at self.old.walks k ≡ Some w }
    {
        self.walks.take(alloc, attr, root)
    }

    /// Keeps a walk, if there is memory for that.
    pub(crate) fn put_walk(&mut self, offers: Offers)
        ensures same { SameButWalks self.old self.new }
        ensures walks { (k : Walked) (w : Walk) → walk_at self.new.walks k ≡ Some w → (walk_at self.old.walks k ≡ Some w) ⊎ (w ≡ offers) }
    {
        self.walks.put(offers);
    }
}
