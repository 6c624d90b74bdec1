// The rules of a grammar, phase by phase.
ghost use Rattle.std.specs.Prelude.{◌≡◌, IfOk};
ghost use Rattle.broken_rules.specs.Answers.{Says};
ghost use Rattle.ast_rules.specs.Members.{Rises};
ghost use Rattle.ast_rules.specs.Naming.{names_of};
ghost use Rattle.ast_rules.specs.Phases.{grammar_phases, superclasses_of};
ghost use Rattle.ast_rules.specs.Written.{seen_rules};

use crate::loops::{check_superclasses, superclass_numbers};
use crate::members::check_members;
use crate::naming::check_naming;
use crate::written::WrittenRule;
use broken_rules::ReadFault;
use names::Names;
use std::alloc::Global;

/// The classes of a grammar by number: their names, and the number of each one's superclass.
#[derive(Drop)]
pub struct ClassNumbers<'a> {
    pub names: Names<'a>,
    pub superclasses: Vec<Option<usize>>,
}

/// Checks the rules of a grammar, whose places rise, and numbers their classes in the order of the rules.
///
/// There are three phases, and the first that finds a broken rule decides. By names: no class has the name of an earlier one (G2), a
/// superclass is a class (G3), so is the type of a child, list or optional (G5), the type of a token is `String`, `int` or `boolean`
/// (G7), and no class or component is called by a word that is reserved or that JastAdd2 keeps for itself (G8). By superclasses: no
/// class is its own superclass, directly or through others (G4). By components, inherited ones included: no two of a class have one
/// name (G6), and a class has at most 16 of them, where a grammar has at most 256 classes (G10).
pub fn check_rules<'a>(
    alloc: Global,
    rules: &[WrittenRule<'a>],
) -> Result<ClassNumbers<'a>, ReadFault>
    requires { Rises (seen_rules rules.now) }
    ensures phases { Says (grammar_phases (seen_rules rules.now)) result }
    ensures names { IfOk result (λ c. c.names ≡ names_of (seen_rules rules.now)) }
    ensures superclasses { IfOk result (λ c. c.superclasses.items ≡ superclasses_of (seen_rules rules.now)) }
{
    let names = check_naming(alloc, rules)?;
    let superclasses = superclass_numbers(alloc, &names, rules)?;
    check_superclasses(alloc, rules, &superclasses)?;
    check_members(alloc, rules, &superclasses)?;
    Ok(ClassNumbers {
        names,
        superclasses,
    })
}
