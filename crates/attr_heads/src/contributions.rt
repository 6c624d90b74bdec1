// What contributions are for, and the rules on their heads: J2 and J14.
ghost use Rattle.std.specs.Prelude.{◌≡◌, ◌<◌, IfSome, length, map};
ghost use Rattle.std.specs.Option.{option_map};
ghost use Rattle.ast_grammar.specs.Grammar.{number_of, superclasses_of};
ghost use Rattle.attr_rules.specs.Rules.{number_of_attribute};
ghost use Rattle.broken_rules.specs.Notes.{Notes};
ghost use Rattle.attr_heads.specs.Contributions.{aim_of, collection_named, collection_of, contribution_broken, contributions_broken, no_collection_broken};
ghost use Rattle.attr_heads.specs.Targets.{OfGrammar};
ghost use Rattle.attr_scope.specs.Classes.{class_or_first};
ghost use Rattle.attr_scope.specs.Seen.{seen_offer};
ghost use Rattle.ast_grammar.specs.Grammar.{class_named};
ghost use Rattle.aspect_items.specs.Expressions.{seen_name};
ghost use Rattle.aspect_items.specs.Items.{seen_contribution};

use aspect_items::{Contribution, Name};
use ast_grammar::{ClassId, Grammar};
use attr_rules::{AttrId, Attributes};
use attr_scope::check_class;
use broken_rules::{Earliest, Rule};

/// What a contribution is for: the class at whose nodes it is read, the class that its receiver has to fit, and the collection.
#[derive(Clone, Copy, Debug, PartialEq, Eq)]
pub struct Aim {
    pub contributor: ClassId,
    pub receiver: ClassId,
    pub collection: AttrId,
}

// The collection that a class has by a name.
fn collection_named(attributes: &Attributes, class: ClassId, name: &[u8]) -> Option<AttrId>
    requires { class.0 < length attributes.now.superclasses }
    ensures { OfGrammar attributes.now (λ g. option_map number_of_attribute result ≡ collection_named g attributes.now.attributes name.now class.0) }
{
    let attribute = attributes.find(class, name)?;
    if attributes.collecting(attribute).is_some() {
        Some(attribute)
    } else {
        None
    }
}

// Notes J14 where the class, if it is known, has no collection of the name.
fn check_target(
    grammar: &Grammar,
    attributes: &Attributes,
    class: Option<ClassId>,
    name: &Name,
    faults: &mut Earliest,
)
    requires within { IfSome class (λ c. c.0 < length grammar.now) }
    requires superclasses { attributes.now.superclasses ≡ superclasses_of grammar.now }
    ensures { Notes (no_collection_broken grammar.now attributes.now.attributes (seen_name name.now) (option_map number_of class)) faults.old faults.new }
{
    let Some(class) = class else { return };
    let collection = collection_named(attributes, class, &name.text);
    faults.note_if(collection.is_none(), Rule::J14, name.place);
}

// J2 and J14 of a contribution.
fn check_contribution(
    grammar: &Grammar,
    attributes: &Attributes,
    contribution: &Contribution,
    faults: &mut Earliest,
)
    requires { attributes.now.superclasses ≡ superclasses_of grammar.now }
    ensures { Notes (contribution_broken grammar.now attributes.now.attributes (seen_contribution contribution.now)) faults.old faults.new }
{
    check_class(grammar, &contribution.contributor, faults);
    let class = check_class(grammar, &contribution.class, faults);
    check_target(grammar, attributes, class, &contribution.name, faults);
}

/// J2 and J14 of all contributions.
pub(crate) fn check_contributions(
    grammar: &Grammar,
    attributes: &Attributes,
    contributions: &[&Contribution],
    faults: &mut Earliest,
)
    requires { attributes.now.superclasses ≡ superclasses_of grammar.now }
    ensures { Notes (contributions_broken grammar.now attributes.now.attributes (map seen_offer contributions.now)) faults.old faults.new }
{
    for contribution in contributions {
        check_contribution(grammar, attributes, contribution, faults);
    }
}

// The class of a name. What is none counts as the first.
fn class_or_first(grammar: &Grammar, name: &Name) -> ClassId
    ensures { result ≡ class_or_first (class_named grammar.now (seen_name name.now).text) }
{
    grammar.find_class(&name.text).unwrap_or(ClassId(0))
}

// The collection of a contribution, where the class behind `to` has it.
fn collection_of(
    grammar: &Grammar,
    attributes: &Attributes,
    contribution: &Contribution,
) -> Option<AttrId>
    requires { attributes.now.superclasses ≡ superclasses_of grammar.now }
    ensures { option_map number_of_attribute result ≡ collection_of grammar.now attributes.now.attributes (seen_contribution contribution.now) }
{
    let class = grammar.find_class(&contribution.class.text)?;
    collection_named(attributes, class, &contribution.name.text)
}

/// What a contribution is for. What isn't known counts as the first.
pub fn aim_of(grammar: &Grammar, attributes: &Attributes, contribution: &Contribution) -> Aim
    requires { attributes.now.superclasses ≡ superclasses_of grammar.now }
    ensures { result ≡ aim_of grammar.now attributes.now.attributes (seen_contribution contribution.now) }
{
    Aim {
        contributor: class_or_first(grammar, &contribution.contributor),
        receiver: class_or_first(grammar, &contribution.class),
        collection: collection_of(grammar, attributes, contribution).unwrap_or(AttrId(0)),
    }
}
