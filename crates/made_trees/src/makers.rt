// What made trees, in the order in which it came.
ghost use Rattle.std.specs.Prelude.{◌≡◌, ◌+◌, ◌*◌, ◌^◌, suc, ◌<◌, ◌∷◌, Option, Some, None, [], IfOk, IfSome, OnErr, OnOk, length, slice_get};
ghost use Rattle.std.specs.Option.{option_map};
ghost use Rattle.tree_arena.specs.Nodes.{most_nodes};
ghost use Rattle.equation_law.specs.Checked.{IsProgram};
ghost use Rattle.equation_law.specs.Codes.{IsCoded, instance_by, most_made};
ghost use Rattle.equation_law.specs.Meaning.{child_at};
ghost use Rattle.equation_law.specs.Equations.{world_of};
ghost use Rattle.equation_law.specs.Names.{made_by};
ghost use Rattle.equation_law.specs.Reading.{class_behind, code_above};
ghost use Rattle.equation_law.specs.Systems.{program_of};
ghost use Rattle.made_trees.specs.Made.{CanMake, maker_at};
ghost use Rattle.made_trees.specs.Makers.{AreTrees, IsAbove, IsArgumentAt, IsMakerOf, IsMore, IsNumberOf, IsSpotOf, IsStandAt, IsTokenAt, naming_of, program_for, stands_for};
ghost use Rattle.made_trees.specs.Makers as specs;
ghost use Rattle.made_trees.specs.Stands.{IsSmall, stands_of, stands_or_none};
ghost use Rattle.made_trees.specs.Stands as standing;
ghost use Rattle.attr_rules.specs.Expression.{new_arguments_of};

use crate::keeping::{KeepsMakers, class_of};
use crate::spots::root_of;
use ast_grammar::ClassId;
use attr_rules::EqId;
use equation_law::{Instance, NodeRef, System};
use rag_io::Memory;
use std::alloc::Global;
use std::collections::HashMap;
use std::marker::Model;
use std::snapshot::Snapshot;

// So many trees have codes of 32 bits.
const MOST_TREES: u32 = 268_431_359;

/// An instance that makes a tree, and its equation, or None where it has none.
#[derive(Clone, Copy)]
pub(crate) struct Maker {
    pub(crate) instance: Instance,
    pub(crate) equation: Option<EqId>,
}

/// What made trees, in the order in which it came, each with a number.
#[derive(Drop)]
pub struct Makers {
    system: Snapshot<System>,
    kept: Vec<Maker>,
    numbers: HashMap<Instance, u32>,
}

impl Model for Makers {
    ghost use Rattle.std.specs.Coded.{codes};
    ghost use Rattle.attr_rules.specs.contracts.expression.TExpr as expressions;
    ghost use Rattle.equation_law.specs.Systems.{program_of};
    ghost use Rattle.made_trees.specs.Makers.{AreKept, Trees, makers_in};

    ghost Value = { Trees };

    ghost coded = { Prim.hlevel (codes, expressions.the_row.coded) };

    ghost view = { λ m. record { system = m.system.value; makers = makers_in m.kept.items } };

    ghost invariant = { λ m. AreKept (program_of m.system.value) m.kept.items m.numbers };
}

/// Keeps a maker with its number, or nothing where there isn't enough memory.
fn keep(
    kept: &mut Vec<Maker>,
    numbers: &mut HashMap<Instance, u32>,
    maker: Maker,
) -> Result<(), Memory>
    requires { length kept.old.items < 2 ^ 32 }
    ensures ok { OnOk result (specs.Keeps kept.old.items numbers.old maker kept.new.items numbers.new) }
    ensures err { OnErr result (specs.Stays kept.old.items numbers.old kept.new.items numbers.new) }
{
    let number = kept.len() as u32;
    kept.push(maker).map_err(|_| Memory)?;
    match numbers.insert(maker.instance, number) {
        Ok(_) => Ok(()),
        Err(_) => {
            kept.pop();
            Err(Memory)
        }
    }
}

impl Makers {
    /// Nothing made a tree yet. It takes no memory.
    pub fn new(alloc: Global, system: &System) -> Makers
        requires { IsProgram (program_of system.now) }
        ensures same { result.system ≡ system.now }
        ensures none { result.makers ≡ [] }
    {
        Makers {
            system: Snapshot::of(system),
            kept: Vec::new(alloc),
            numbers: HashMap::new(alloc),
        }
    }

    /// How many trees were made.
    pub fn len(&self) -> u32
        ensures number { result ≡ length self.now.makers }
        ensures trees { AreTrees self.now }
    {
        self.kept.len() as u32
    }

    /// The number of an instance, if it is one that made a tree.
    pub fn number(&self, i: &Instance) -> Option<u32>
        ensures { IsNumberOf self.now.makers i.now result }
    {
        self.numbers.get(i).copied()
    }

    /// The class of a node of the tree or of one that was made, or None where there is none.
    pub fn class(&self, system: &System, node: NodeRef) -> Option<ClassId>
        requires { self.now.system ≡ system.now }
        ensures { class_behind (program_for self.now) (stands_for self.now node.0) ≡ result }
    {
        if node.is_made() {
            return class_of(&mut Lent(self), system, node);
        }
        let number = node.source()?;
        let tree = system.tree();
        if number < tree.len() {
            Some(tree.class_of(number))
        } else {
            None
        }
    }

    /// The equation by which a tree was made, or None where there is none.
    fn equation(&self, tree: u32) -> Option<EqId>
        requires { tree < length self.now.makers }
        ensures { specs.IsEquationAt self.now tree result }
    {
        self.kept[tree as usize].equation
    }

    /// The instance that made a tree.
    fn instance(&self, tree: u32) -> Instance
        requires { tree < length self.now.makers }
        ensures { maker_at self.now.makers tree ≡ Some result }
    {
        self.kept[tree as usize].instance
    }

    /// The equation by which an instance makes a tree, if it is one.
    pub(crate) fn equation_of(&self, system: &System, i: &Instance) -> Option<EqId>
        requires { self.now.system ≡ system.now }
        ensures within { specs.IsEquationWithin (program_for self.now) result }
        ensures making { specs.IsMakingOf self.now i.now result }
    {
        match *i {
            Instance::Attr { attr, node, .. } => {
                let class = self.class(system, node)?;
                system.rules().syn_equation(class, attr)
            }
            Instance::Query(_) => None,
        }
    }

    /// The code of the root of the tree that an instance makes, which gets a number unless it has one.
    pub fn add(&mut self, system: &System, instance: Instance) -> Result<NodeRef, Memory>
        requires same { self.old.system ≡ system.now }
        requires coded { IsCoded (program_for self.old) instance }
        requires can { CanMake (program_for self.old) (length self.old.makers) instance }
        ensures same { self.new.system ≡ self.old.system }
        ensures more { IsMore self.old.makers instance self.new.makers }
        ensures trees { AreTrees self.new }
        ensures root { IfOk result (λ root. stands_for self.new root.0 ≡ made_by (instance_by (program_for self.new) (naming_of self.new) instance) 0) }
    {
        let number = self.len();
        if let Some(known) = self.number(&instance) {
            return Ok(root_of(known));
        }
        if number >= MOST_TREES {
            return Err(Memory);
        }
        let equation = self.equation_of(system, &instance);
        self.push(Maker { instance, equation })?;
        Ok(root_of(number))
    }

    /// One maker more, unless there isn't enough memory.
    fn push(&mut self, maker: Maker) -> Result<(), Memory>
        requires coded { IsCoded (program_for self.old) maker.instance }
        requires can { CanMake (program_for self.old) (length self.old.makers) maker.instance }
        requires new { IsNumberOf self.old.makers maker.instance None }
        requires few { length self.old.makers < 268431359 }
        requires keeps { specs.KeepsMaking (program_for self.old) (naming_of self.old) maker }
        ensures same { self.new.system ≡ self.old.system }
        ensures ok { OnOk result (self.new.makers ≡ maker.instance ∷ self.old.makers) }
        ensures err { OnErr result (self.new.makers ≡ self.old.makers) }
        ensures trees { AreTrees self.new }
    {
        keep(&mut self.kept, &mut self.numbers, maker)
    }
}

/// Makers, as what keeps the makers of trees.
#[derive(Clone, Copy)]
pub struct Lent<'a>(pub &'a Makers);

impl KeepsMakers for Lent<'_> {
    ghost use Rattle.std.specs.Prelude.{◌≡◌, refl};
    ghost use Rattle.std.proofs.Common.{◌∙◌};

    ghost trees = { λ s. s.0.now };

    ghost keeps = { λ r s. s.0.now ≡ r.0.now };

    fn count(&mut self) -> u32 {
        self.0.len()
    }

    fn equation(&mut self, tree: u32) -> Option<EqId> {
        self.0.equation(tree)
    }

    fn instance(&mut self, tree: u32) -> Instance {
        self.0.instance(tree)
    }

    ghost same = { λ s. refl };

    ghost further = { λ r s t e f. f ∙ e };

    ghost still = { λ r s e. e };
}
