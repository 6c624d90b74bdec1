// What makes a tree, where its root is, and of which classes its nodes are.
ghost use Rattle.std.specs.Prelude.{◌≡◌, is_some};
ghost use Rattle.tree_arena.specs.Nodes.{class_in};
ghost use Rattle.equation_law.specs.Checked.{IsProgram};
ghost use Rattle.equation_law.specs.Codes.{instance_by};
ghost use Rattle.equation_law.specs.Created.{tree_or_none};
ghost use Rattle.equation_law.specs.Program.{making_at};
ghost use Rattle.equation_law.specs.Systems.{program_of};
ghost use Rattle.made_trees.specs.Makers.{IsEquationWithin, IsRootOf, making_by, making_for, naming_of, program_for};

use crate::makers::Makers;
use crate::news::stand_in;
use crate::spots::root_of;
use ast_grammar::ClassId;
use attr_rules::{AttrId, EqId, TExpr};
use equation_law::{Instance, NodeRef, System};

/// Whether an equation is a `new`.
fn is_new(system: &System, equation: Option<EqId>) -> bool
    requires { IsEquationWithin (program_of system.now) equation }
    ensures { result ≡ is_some (making_by (program_of system.now) equation) }
{
    match equation {
        Some(equation) => matches!(system.rules().body(equation), TExpr::New(_, _)),
        None => false,
    }
}

impl Makers {
    /// Whether an instance makes a tree: its equation is a `new`.
    pub fn makes(&self, system: &System, i: &Instance) -> bool
        requires { self.now.system ≡ system.now }
        ensures { result ≡ is_some (making_for (program_for self.now) (instance_by (program_for self.now) (naming_of self.now) i.now)) }
    {
        is_new(system, self.equation_of(system, i))
    }

    /// The code of the root of the tree that an instance makes, if it has a number.
    pub fn root(&self, i: &Instance) -> Option<NodeRef>
        ensures { IsRootOf self.now i.now result }
    {
        let _trees = self.len();
        let number = self.number(i)?;
        Some(root_of(number))
    }
}

/// The class of the node at a position of the tree that an attribute makes at nodes of a class, or None where there is none. It takes time in
/// proportion to the `new`.
pub fn class_made(system: &System, class: ClassId, attr: AttrId, position: u32) -> Option<ClassId>
    requires { IsProgram (program_of system.now) }
    ensures { result ≡ class_in (tree_or_none (making_at (program_of system.now) attr.0 class)) position }
{
    let equation = system.rules().syn_equation(class, attr);
    let stand = stand_in(system, equation, position)?;
    Some(stand.class)
}
