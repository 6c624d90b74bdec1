// Higher-order attributes: the rule on their types, J13, and those that a class has by a name.
ghost use Rattle.std.specs.Prelude.{◌≡◌, ◌<◌, length};
ghost use Rattle.std.specs.Option.{option_map};
ghost use Rattle.attr_rules.specs.Rules.{number_of_attribute};
ghost use Rattle.broken_rules.specs.Notes.{Notes};
ghost use Rattle.attr_heads.specs.Created.{created_attribute, created_type_broken, is_no_class};
ghost use Rattle.attr_heads.specs.Targets.{OfGrammar};
ghost use Rattle.aspect_items.specs.Expressions.{seen_name};
ghost use Rattle.aspect_items.specs.Items.{seen_type};

use aspect_items::{Name, Type};
use ast_grammar::{ClassId, Grammar};
use attr_rules::{AttrId, Attributes, Kind, Sort};
use attr_scope::type_written;
use broken_rules::{Earliest, Rule};

// A type is no class, where the type is known.
fn is_no_class(kind: Option<Kind>) -> bool
    ensures { result ≡ is_no_class kind }
{
    match kind {
        None | Some(Kind::Node(_)) => false,
        Some(Kind::Truth | Kind::Int | Kind::Text | Kind::Texts | Kind::Nodes(_)) => true,
    }
}

/// J13 of a declaration of this sort, type and name, which may be that of a higher-order attribute.
pub(crate) fn check_created_type(
    grammar: &Grammar,
    sort: Sort,
    of: &Type,
    name: &Name,
    faults: &mut Earliest,
)
    ensures { Notes (created_type_broken grammar.now sort (seen_type of.now) (seen_name name.now)) faults.old faults.new }
{
    let is_other = sort.is_higher_order() && is_no_class(type_written(grammar, of));
    faults.note_if(is_other, Rule::J13, name.place);
}

/// The attribute that a class has by a name, where it is higher-order.
pub(crate) fn created_attribute(
    attributes: &Attributes,
    class: ClassId,
    name: &[u8],
) -> Option<AttrId>
    requires { class.0 < length attributes.now.superclasses }
    ensures { OfGrammar attributes.now (λ g. option_map number_of_attribute result ≡ created_attribute g attributes.now.attributes name.now class.0) }
{
    let attribute = attributes.find(class, name)?;
    if attributes.attr(attribute).sort.is_higher_order() {
        Some(attribute)
    } else {
        None
    }
}
