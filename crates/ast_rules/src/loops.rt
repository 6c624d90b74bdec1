// Superclasses by the numbers of classes, and loops of them: G4.
ghost use Rattle.std.specs.Prelude.{◌≡◌, IfOk, length};
ghost use Rattle.broken_rules.specs.Answers.{Ends};
ghost use Rattle.ast_rules.specs.Superclasses.{superclass_number, superclass_numbers, superclasses_broken};
ghost use Rattle.ast_rules.specs.Written.{seen_rule, seen_rules};

use crate::written::WrittenRule;
use broken_rules::{Earliest, ReadFault, Rule};
use names::Names;
use rag_io::Memory;
use std::alloc::Global;
use superclasses::own_superclasses;

// The number of the superclass of a rule's class.
fn superclass_number(names: &Names<'_>, rule: &WrittenRule<'_>) -> Option<usize>
    ensures { result ≡ superclass_number names.now (seen_rule rule.now) }
{
    match &rule.superclass {
        None => None,
        Some(name) => names.number_of(name.text),
    }
}

// The numbers of all superclasses.
pub(crate) fn superclass_numbers(
    alloc: Global,
    names: &Names<'_>,
    rules: &[WrittenRule<'_>],
) -> Result<Vec<Option<usize>>, Memory>
    ensures { IfOk result (λ v. v.items ≡ superclass_numbers names.now (seen_rules rules.now)) }
{
    let mut numbers = Vec::new(alloc);
    for rule in rules {
        numbers
            .push(superclass_number(names, rule))
            .map_err(|_| Memory)?;
    }
    Ok(numbers)
}

// The phase of superclasses.
pub(crate) fn check_superclasses(
    alloc: Global,
    rules: &[WrittenRule<'_>],
    superclasses: &[Option<usize>],
) -> Result<(), ReadFault>
    requires { length superclasses.now ≡ length rules.now }
    ensures { Ends (superclasses_broken superclasses.now (seen_rules rules.now)) result }
{
    let are_own = own_superclasses(alloc, superclasses)?;
    let mut earliest = Earliest::new();
    for (i, rule) in rules.iter().enumerate() {
        earliest.note_if(are_own[i], Rule::G4, rule.name.place);
    }
    earliest.answer()
}
