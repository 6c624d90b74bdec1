// Types as they are written.
ghost use Rattle.std.specs.Prelude.{◌≡◌};
ghost use Rattle.attr_scope.specs.WrittenTypes.{kind_written, same_kind, type_written};
ghost use Rattle.aspect_items.specs.Items.{seen_type};

use aspect_items::{Type, TypeName};
use ast_grammar::Grammar;
use attr_rules::Kind;

/// The type that is written, if it is one: sets are of texts or of nodes of a class.
pub fn type_written(grammar: &Grammar, of: &Type) -> Option<Kind>
    ensures { result ≡ type_written grammar.now (seen_type of.now) }
{
    match (&of.name, of.set) {
        (TypeName::Boolean, false) => Some(Kind::Truth),
        (TypeName::Int, false) => Some(Kind::Int),
        (TypeName::String, false) => Some(Kind::Text),
        (TypeName::Class(name), false) => Some(Kind::Node(grammar.find_class(name)?)),
        (TypeName::Boolean | TypeName::Int, true) => None,
        (TypeName::String, true) => Some(Kind::Texts),
        (TypeName::Class(name), true) => Some(Kind::Nodes(grammar.find_class(name)?)),
    }
}

/// The type that is written. What is no type counts as `boolean`.
pub fn kind_written(grammar: &Grammar, of: &Type) -> Kind
    ensures { result ≡ kind_written grammar.now (seen_type of.now) }
{
    type_written(grammar, of).unwrap_or(Kind::Truth)
}

/// Two types are one, as far as both are known.
pub fn same_kind(left: Option<Kind>, right: Option<Kind>) -> bool
    ensures { result ≡ same_kind left right }
{
    match (left, right) {
        (Some(left), Some(right)) => left == right,
        _ => true,
    }
}
