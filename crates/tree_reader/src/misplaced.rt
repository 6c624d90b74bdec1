// What stands where something else is wanted: N4 and N5.
ghost use Rattle.std.specs.Prelude.{◌≡◌, ℕ, List};
ghost use Rattle.std.specs.Option.{option_map};
ghost use Rattle.ast_grammar.specs.Grammar.{number_of};
ghost use Rattle.broken_rules.specs.Notes.{Notes};
ghost use Rattle.tree_reader.specs.Breaking.{brackets_misplaced, is_apart, node_misplaced, value_misplaced};
ghost use Rattle.tree_reader.specs.Steps.{seen_leaf, seen_wanted};

use crate::values::Value;
use crate::wants::Wanted;
use ast_grammar::{ClassId, Grammar, Shape};
use broken_rules::{Earliest, Rule};
use rag_io::Place;

// Whether a class is known, and neither the wanted one nor a subclass.
pub(crate) fn is_apart(grammar: &Grammar, class: Option<ClassId>, wanted: ClassId) -> bool
    ensures { result ≡ is_apart grammar.now (option_map number_of class) wanted }
{
    match class {
        Some(class) => !grammar.is_sub(class, wanted),
        None => false,
    }
}

/// Notes what a node breaks that stands here.
pub(crate) fn note_node(
    grammar: &Grammar,
    wanted: Wanted,
    class: Option<ClassId>,
    place: Place,
    broken: &mut Earliest,
)
    ensures { Notes (node_misplaced grammar.now (seen_wanted wanted) (option_map number_of class) place) broken.old broken.new }
{
    match wanted {
        Wanted::At(Shape::Child, above) | Wanted::Element(above) => {
            broken.note_if(is_apart(grammar, class, above), Rule::N4, place);
        }
        Wanted::At(Shape::List | Shape::Optional, _) | Wanted::NoNode => {
            broken.note(Rule::N4, place);
        }
        Wanted::At(Shape::Text | Shape::Int | Shape::Truth, _) => broken.note(Rule::N5, place),
        Wanted::Anything => {}
    }
}

/// Notes what brackets break that stand here.
pub(crate) fn note_brackets(wanted: Wanted, place: Place, broken: &mut Earliest)
    ensures { Notes (brackets_misplaced (seen_wanted wanted) place) broken.old broken.new }
{
    match wanted {
        Wanted::At(Shape::List | Shape::Optional, _) | Wanted::Anything => {}
        Wanted::At(Shape::Child, _) | Wanted::Element(_) | Wanted::NoNode => {
            broken.note(Rule::N4, place);
        }
        Wanted::At(Shape::Text | Shape::Int | Shape::Truth, _) => broken.note(Rule::N5, place),
    }
}

/// Notes what the value of a token breaks that stands here.
pub(crate) fn note_value(wanted: Wanted, value: &Value<'_>, place: Place, broken: &mut Earliest)
    ensures { (text : List ℕ) → Notes (value_misplaced (seen_wanted wanted) (seen_leaf text value.now) place) broken.old broken.new }
{
    match wanted {
        Wanted::At(Shape::Text, _) => broken.note_if(!value.is_text(), Rule::N5, place),
        Wanted::At(Shape::Int, _) => broken.note_if(!value.is_small_int(), Rule::N5, place),
        Wanted::At(Shape::Truth, _) => broken.note_if(!value.is_truth(), Rule::N5, place),
        Wanted::At(Shape::Child | Shape::List | Shape::Optional, _)
        | Wanted::Element(_)
        | Wanted::NoNode => broken.note(Rule::N4, place),
        Wanted::Anything => {}
    }
}
