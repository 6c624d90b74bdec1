// The rules on what equations are for: J2, J5, J6 and J15, beside those on paths, on parameters and on contributions.
ghost use Rattle.std.specs.Prelude.{◌≡◌, ◌<◌, IfOk, IfSome, None, OnOk, length, map};
ghost use Rattle.std.specs.Option.{option_map};
ghost use Rattle.ast_grammar.specs.Grammar.{number_of, superclasses_of};
ghost use Rattle.attr_rules.specs.Rules.{first_inherited, number_of_attribute};
ghost use Rattle.broken_rules.specs.Answers.{Ends};
ghost use Rattle.broken_rules.specs.Notes.{Notes};
ghost use Rattle.attr_heads.specs.Contributions.{uses_broken};
ghost use Rattle.attr_scope.specs.Seen.{seen_given, seen_offer};
ghost use Rattle.attr_heads.specs.Targets.{OfGrammar, lacking_broken, other_parameters_broken, own_attribute, own_attribute_of, target_by, target_of, target_or_first, targets_broken, targets_of, uninherited_broken, unknown_broken};
ghost use Rattle.attr_heads.specs.TargetsKept.{HoldsMore, NotesSecond};
ghost use Rattle.attr_scope.specs.Written as written;
ghost use Rattle.aspect_items.specs.Expressions.{seen_name};
ghost use Rattle.aspect_items.specs.Items.{seen_signature};

use crate::contributions::check_contributions;
use crate::parameters::{check_all_parameters, differ};
use crate::paths::check_path;
use aspect_items::{Contribution, Name, Signature};
use ast_grammar::{ClassId, Grammar};
use attr_rules::{AttrId, Attributes, Reach, Target};
use attr_scope::{Given, check_class};
use broken_rules::{Earliest, ReadFault, Rule};
use rag_io::Memory;
use std::alloc::Global;
use std::collections::HashSet;

// What stands for what a refused equation is for.
const FIRST: Target = Target {
    class: ClassId(0),
    reach: Reach::Own,
    attribute: AttrId(0),
};

// What an equation is for, as a key.
#[derive(Clone, Copy, Debug, PartialEq, Eq, Hash)]
struct Key {
    class: u16,
    reach: Reach,
    attribute: u16,
}

// The attribute that a class has by a name, where equations without a path give it values.
fn own_attribute(attributes: &Attributes, class: ClassId, name: &[u8]) -> Option<AttrId>
    requires { class.0 < length attributes.now.superclasses }
    ensures { OfGrammar attributes.now (λ g. option_map number_of_attribute result ≡ own_attribute g attributes.now.attributes name.now class.0) }
{
    let attribute = attributes.find(class, name)?;
    if attributes.attr(attribute).sort.has_own_equations() {
        Some(attribute)
    } else {
        None
    }
}

// The attribute of an equation without a path, where its class is known, which has it. Notes J5 where it hasn't.
fn check_own(
    grammar: &Grammar,
    attributes: &Attributes,
    class: Option<ClassId>,
    name: &Name,
    faults: &mut Earliest,
) -> Option<AttrId>
    requires within { IfSome class (λ c. c.0 < length grammar.now) }
    requires superclasses { attributes.now.superclasses ≡ superclasses_of grammar.now }
    ensures attribute { option_map number_of_attribute result ≡ own_attribute_of grammar.now attributes.now class (seen_name name.now) }
    ensures noted { Notes (lacking_broken grammar.now attributes.now.attributes None (option_map number_of class) (seen_name name.now)) faults.old faults.new }
{
    let attribute = own_attribute(attributes, class?, &name.text);
    faults.note_if(attribute.is_none(), Rule::J5, name.place);
    attribute
}

// The inherited attribute of an equation with a path. Notes J5 where there is none.
fn check_inherited(attributes: &Attributes, name: &Name, faults: &mut Earliest) -> Option<AttrId>
    ensures attribute { option_map number_of_attribute result ≡ first_inherited attributes.now.attributes (seen_name name.now).text }
    ensures noted { Notes (uninherited_broken attributes.now.attributes (seen_name name.now)) faults.old faults.new }
{
    let attribute = attributes.find_inherited(&name.text);
    faults.note_if(attribute.is_none(), Rule::J5, name.place);
    attribute
}

// J15 at the name of an equation whose parameters aren't those of its attribute, where there is one.
fn check_differing(
    grammar: &Grammar,
    attributes: &Attributes,
    attribute: Option<AttrId>,
    signature: &Signature,
    faults: &mut Earliest,
)
    ensures { Notes (other_parameters_broken grammar.now attributes.now attribute (seen_signature signature.now)) faults.old faults.new }
{
    let Some(attribute) = attribute else { return };
    if u32::from(attribute.0) >= attributes.len() {
        return;
    }
    let params = attributes.attr(attribute).params;
    let is_other = differ(grammar, params, &signature.parameters);
    faults.note_if(is_other, Rule::J15, signature.name.place);
}

// What an equation is for, by its class, its reach and its attribute, where these are known.
fn target_by(
    class: Option<ClassId>,
    reach: Option<Reach>,
    attribute: Option<AttrId>,
) -> Option<Target>
    ensures { result ≡ target_by (option_map number_of class) reach (option_map number_of_attribute attribute) }
{
    Some(Target {
        class: class?,
        reach: reach?,
        attribute: attribute?,
    })
}

// What an equation is for. Notes J2 where there is no such class, what the path and the parameters break, J5 where there is no such
// attribute, and J15 where it has other parameters.
fn check_target(
    alloc: Global,
    grammar: &Grammar,
    attributes: &Attributes,
    equation: &Given<'_>,
    faults: &mut Earliest,
) -> Result<Option<Target>, Memory>
    requires { attributes.now.superclasses ≡ superclasses_of grammar.now }
    ensures target { IfOk result (λ t. t ≡ target_of grammar.now attributes.now.attributes (seen_given equation.now)) }
    ensures noted { OnOk result (Notes (unknown_broken grammar.now attributes.now.attributes (seen_given equation.now)) faults.old faults.new) }
{
    let signature = equation.attribute;
    let class = check_class(grammar, equation.class, faults);
    let reach = check_path(grammar, attributes, class, equation.path, faults);
    check_all_parameters(alloc, grammar, equation.path, signature, faults)?;
    let attribute = match equation.path {
        None => check_own(grammar, attributes, class, &signature.name, faults),
        Some(_) => check_inherited(attributes, &signature.name, faults),
    };
    check_differing(grammar, attributes, attribute, signature, faults);
    Ok(target_by(class, reach, attribute))
}

// The same where there is one, and else the first attribute of the first class.
fn target_or_first(target: Option<Target>) -> Target
    ensures { result ≡ target_or_first target }
{
    target.unwrap_or(FIRST)
}

// Notes J6 where an equation before is for the same class, reach and attribute.
fn check_second(
    given: &mut HashSet<Key>,
    target: Option<Target>,
    name: &Name,
    faults: &mut Earliest,
) -> Result<(), Memory>
    ensures noted { OnOk result (NotesSecond given.old target (seen_name name.now) faults.old faults.new) }
    ensures held { OnOk result (HoldsMore given.old target given.new) }
{
    let Some(target) = target else { return Ok(()) };
    let key = Key {
        class: target.class.0,
        reach: target.reach,
        attribute: target.attribute.0,
    };
    let Ok(is_new) = given.insert(key) else {
        return Err(Memory);
    };
    faults.note_if(!is_new, Rule::J6, name.place);
    Ok(())
}

// The class, the reach and the attribute of each equation. Notes what their heads break.
fn note_targets(
    alloc: Global,
    grammar: &Grammar,
    attributes: &Attributes,
    equations: &[Given<'_>],
    faults: &mut Earliest,
) -> Result<Vec<Target>, Memory>
    requires { attributes.now.superclasses ≡ superclasses_of grammar.now }
    ensures noted { OnOk result (Notes (targets_broken grammar.now attributes.now.attributes (map seen_given equations.now)) faults.old faults.new) }
    ensures targets { IfOk result (λ list. list.items ≡ targets_of grammar.now attributes.now.attributes (map seen_given equations.now)) }
{
    let mut given = HashSet::new(alloc);
    let mut targets = Vec::new(alloc);
    for equation in equations {
        let target = check_target(alloc, grammar, attributes, equation, faults)?;
        check_second(&mut given, target, &equation.attribute.name, faults)?;
        targets.push(target_or_first(target)).map_err(|_| Memory)?;
    }
    Ok(targets)
}

/// The phase of what equations and contributions are for: the class, the reach and the attribute of each equation, where no rule on these is
/// broken.
pub fn check_targets(
    alloc: Global,
    grammar: &Grammar,
    attributes: &Attributes,
    equations: &[Given<'_>],
    contributions: &[&Contribution],
) -> Result<Vec<Target>, ReadFault>
    requires { attributes.now.superclasses ≡ superclasses_of grammar.now }
    ensures phase { Ends (uses_broken grammar.now attributes.now.attributes (map seen_given equations.now) (map seen_offer contributions.now)) result }
    ensures targets { IfOk result (λ list. list.items ≡ targets_of grammar.now attributes.now.attributes (map seen_given equations.now)) }
{
    let mut faults = Earliest::new();
    let targets = note_targets(alloc, grammar, attributes, equations, &mut faults)?;
    check_contributions(grammar, attributes, contributions, &mut faults);
    faults.answer()?;
    Ok(targets)
}
