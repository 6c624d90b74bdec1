// Classes by their names, and the rule on these: J2.
ghost use Rattle.std.specs.Prelude.{◌≡◌, ◌<◌, IfSome, length};
ghost use Rattle.std.specs.Option.{option_map};
ghost use Rattle.ast_grammar.specs.Grammar.{class_named, number_of};
ghost use Rattle.broken_rules.specs.Notes.{Notes};
ghost use Rattle.attr_scope.specs.Classes.{class_broken};
ghost use Rattle.aspect_items.specs.Expressions.{seen_name};

use aspect_items::Name;
use ast_grammar::{ClassId, Grammar};
use broken_rules::{Earliest, Rule};

/// The class of a name. Notes J2 where there is none.
pub fn check_class(grammar: &Grammar, name: &Name, faults: &mut Earliest) -> Option<ClassId>
    ensures class { option_map number_of result ≡ class_named grammar.now (seen_name name.now).text }
    ensures within { IfSome result (λ class. class.0 < length grammar.now) }
    ensures noted { Notes (class_broken grammar.now (seen_name name.now)) faults.old faults.new }
{
    let class = grammar.find_class(&name.text);
    faults.note_if(class.is_none(), Rule::J2, name.place);
    class
}
