// Components with inherited ones: G6 and G10.
ghost use Rattle.std.specs.Prelude.{◌≡◌, ◌++◌, ℕ, List, [], ◌∷◌, map, not, IfOk, OnOk, length};
ghost use Rattle.broken_rules.specs.Answers.{Ends};
ghost use Rattle.broken_rules.specs.Notes.{Notes, each_after};
ghost use Rattle.broken_rules.specs.Order.{first_of};
ghost use Rattle.names.specs.Among.{is_among, with_name};
ghost use Rattle.superclasses.specs.Superclasses.{line_of};
ghost use Rattle.ast_rules.specs.Members.{Adds, Inherits, Rises, names_of_components, member_broken, class_broken, members_broken};
ghost use Rattle.ast_rules.specs.Written.{seen_component, seen_rule, seen_rules};

use crate::written::{WrittenComponent, WrittenRule};
use broken_rules::{Earliest, ReadFault, Rule};
use names::Names;
use rag_io::Memory;
use std::alloc::Global;
use superclasses::line_of;

// A class has at most this many classes before it.
const CLASSES: usize = 256;

// A component has at most this many components before it, inherited ones included.
const COMPONENTS: usize = 16;

// The names of the components that a class inherits, and how many components they are.
#[derive(Drop)]
struct Inherited<'a> {
    names: Names<'a>,
    count: usize,
}

// Adds the name of a component, and tells whether it was new.
fn insert_name<'a>(names: &mut Names<'a>, component: &WrittenComponent<'a>) -> Result<bool, Memory>
    ensures added { IfOk result (λ added. added ≡ not (is_among names.old (seen_component component.now).name.text)) }
    ensures names { OnOk result (names.new ≡ with_name names.old (seen_component component.now).name.text) }
{
    names.insert(component.name.text)
}

// Adds the names of some components.
fn add_names<'a>(names: &mut Names<'a>, components: &[WrittenComponent<'a>]) -> Result<(), Memory>
    ensures { OnOk result (Adds names.old (names_of_components (map seen_component components.now)) names.new) }
{
    for component in components {
        insert_name(names, component)?;
    }
    Ok(())
}

// Adds what is inherited from the class of this number.
fn inherit_from<'a>(
    inherited: &mut Inherited<'a>,
    rules: &[WrittenRule<'a>],
    number: usize,
) -> Result<(), Memory>
    ensures { (line : List ℕ) → Inherits (seen_rules rules.now) line inherited.old.names inherited.old.count
        → OnOk result (Inherits (seen_rules rules.now) (line ++ number ∷ []) inherited.new.names inherited.new.count) }
{
    let Some(rule) = rules.get(number) else {
        return Ok(());
    };
    let components = rule.components.as_slice();
    add_names(&mut inherited.names, components)?;
    inherited.count = inherited.count.saturating_add(components.len());
    Ok(())
}

// What a class inherits.
fn inherit<'a>(
    alloc: Global,
    rules: &[WrittenRule<'a>],
    superclasses: &[Option<usize>],
    class: usize,
) -> Result<Inherited<'a>, Memory>
    ensures { IfOk result (λ r. Inherits (seen_rules rules.now) (line_of superclasses.now class) r.names r.count) }
{
    let mut inherited = Inherited {
        names: Names::new(alloc),
        count: 0,
    };
    let line = line_of(alloc, superclasses, class)?;
    for number in &line {
        inherit_from(&mut inherited, rules, *number)?;
    }
    Ok(inherited)
}

// Notes G6 and G10 of own components.
fn check_own<'a>(
    names: &mut Names<'a>,
    count: usize,
    components: &[WrittenComponent<'a>],
    earliest: &mut Earliest,
) -> Result<(), Memory>
    ensures { let broken = each_after (member_broken (is_among names.old) count) [] (map seen_component components.now) in
        OnOk result (Notes broken earliest.old earliest.new) }
{
    for (i, component) in components.iter().enumerate() {
        let is_new = insert_name(names, component)?;
        earliest.note_if(!is_new, Rule::G6, component.name.place);
        let is_many = count.saturating_add(i) == COMPONENTS;
        earliest.note_if(is_many, Rule::G10, component.name.place);
    }
    Ok(())
}

// Notes G6 and G10 of a class.
fn check_class<'a>(
    alloc: Global,
    rules: &[WrittenRule<'a>],
    superclasses: &[Option<usize>],
    number: usize,
    rule: &WrittenRule<'a>,
    earliest: &mut Earliest,
) -> Result<(), Memory>
    ensures { let broken = class_broken (seen_rules rules.now) superclasses.now number (seen_rule rule.now) in
        OnOk result (Notes broken earliest.old earliest.new) }
{
    earliest.note_if(number == CLASSES, Rule::G10, rule.name.place);
    let mut inherited = inherit(alloc, rules, superclasses, number)?;
    let components = rule.components.as_slice();
    let count = inherited.count;
    check_own(&mut inherited.names, count, components, earliest)
}

// What a class breaks, if anything.
fn first_of_class<'a>(
    alloc: Global,
    rules: &[WrittenRule<'a>],
    superclasses: &[Option<usize>],
    number: usize,
    rule: &WrittenRule<'a>,
) -> Result<(), ReadFault>
    ensures { Ends (class_broken (seen_rules rules.now) superclasses.now number (seen_rule rule.now)) result }
{
    let mut earliest = Earliest::new();
    check_class(alloc, rules, superclasses, number, rule, &mut earliest)?;
    earliest.answer()
}

// The phase of components. It ends at the first class that breaks a rule, which is the 257th at the latest: what the later ones break
// stands behind it.
pub(crate) fn check_members(
    alloc: Global,
    rules: &[WrittenRule<'_>],
    superclasses: &[Option<usize>],
) -> Result<(), ReadFault>
    requires { Rises (seen_rules rules.now) }
    ensures { Ends (members_broken (seen_rules rules.now) superclasses.now) result }
{
    for (i, rule) in rules.iter().enumerate() {
        first_of_class(alloc, rules, superclasses, i, rule)?;
    }
    Ok(())
}
