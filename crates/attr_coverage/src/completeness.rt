// The rules that each concrete class has an equation for each of its attributes, and that no inherited one can be met uncovered: J7 and J8.
ghost use Rattle.std.specs.Prelude.{◌≡◌, ◌&&◌, ◌<◌, IfOk, OnOk, length, map};
ghost use Rattle.std.specs.List.{list_any};
ghost use Rattle.ast_grammar.specs.Grammar.{is_sub};
ghost use Rattle.attr_rules.specs.Rules.{has_own_equations};
ghost use Rattle.attr_coverage.specs.Completeness.{can_be_open, place_of, places_of};
ghost use Rattle.attr_coverage.specs.CoveringKept.{mark_at};
ghost use Rattle.attr_coverage.specs.Covering.{is_concrete};
ghost use Rattle.attr_coverage.specs.Dispatched.{EndsLacking, EndsWritten, ForMade, NotesLacking, lacks_equation};
ghost use Rattle.attr_scope.specs.Classes.{class_numbers};
ghost use Rattle.attr_scope.specs.Seen.{seen_head};

use crate::covering::{is_concrete, is_marked, uncovered_classes};
use crate::created::{Created, made_by_class, roots_of};
use ast_grammar::{ClassId, Grammar};
use attr_rules::{Attr, AttrId, Attributes, Dispatch};
use attr_scope::{Given, Head};
use broken_rules::{Earliest, ReadFault, Rule};
use rag_io::{Memory, Place};
use std::alloc::Global;

// Nodes of some class have the attribute, which is declared for a class, and no equation gives it a value there.
fn lacks_equation(
    grammar: &Grammar,
    dispatch: &Dispatch,
    attribute: AttrId,
    declared: ClassId,
) -> bool
    ensures { result ≡ lacks_equation grammar.now dispatch.now attribute declared }
{
    (0..grammar.classes()).any(|number| {
        let class = ClassId(number as u16);
        is_concrete(grammar, class)
            && grammar.is_sub(class, declared)
            && dispatch.find(class, attribute).is_none()
    })
}

// An attribute that has equations of its own lacks one.
fn is_missing(grammar: &Grammar, dispatch: &Dispatch, attribute: AttrId, declared: &Attr) -> bool
    ensures { result ≡ (has_own_equations declared.now.sort && lacks_equation grammar.now dispatch.now attribute declared.now.class) }
{
    declared.sort.has_own_equations()
        && lacks_equation(grammar, dispatch, attribute, declared.class)
}

// There are nodes of one of the marked classes, and they have the attribute, which is declared for a class.
fn is_marked_below(grammar: &Grammar, marks: &[bool], declared: ClassId) -> bool
    ensures { result ≡ list_any (λ c. is_concrete grammar.now c && (is_sub grammar.now c declared.0 && mark_at marks.now c)) (class_numbers grammar.now) }
{
    (0..grammar.classes()).any(|number| {
        let class = ClassId(number as u16);
        is_concrete(grammar, class) && grammar.is_sub(class, declared) && is_marked(marks, class)
    })
}

// An inherited attribute can be met uncovered, which is declared for a class.
fn is_open(
    alloc: Global,
    grammar: &Grammar,
    dispatch: &Dispatch,
    first: Option<AttrId>,
    made: &[Vec<Created>],
    declared: ClassId,
) -> Result<bool, Memory>
    requires { length made.now ≡ length grammar.now }
    ensures { ForMade grammar.now dispatch.now made.now (λ targets made. IfOk result (λ b. b ≡ can_be_open grammar.now targets first made declared)) }
{
    let marks = uncovered_classes(alloc, grammar, dispatch, first, made)?;
    Ok(is_marked_below(grammar, &marks, declared))
}

// J7 or J8 of an attribute, whose name in the declaration stands at a place. A collection has no equations.
fn check_attribute(
    alloc: Global,
    grammar: &Grammar,
    attributes: &Attributes,
    dispatch: &Dispatch,
    made: &[Vec<Created>],
    attribute: AttrId,
    place: Place,
    faults: &mut Earliest,
) -> Result<(), Memory>
    requires made { length made.now ≡ length grammar.now }
    requires known { attribute.0 < length attributes.now.attributes }
    ensures { OnOk result (NotesLacking grammar.now attributes.now dispatch.now made.now attribute place faults.old faults.new) }
{
    let declared = attributes.attr(attribute);
    if declared.sort.is_inherited() {
        let first = attributes.first_of_name(attribute);
        let is_open = is_open(alloc, grammar, dispatch, first, made, declared.class)?;
        faults.note_if(is_open, Rule::J8, place);
        return Ok(());
    }
    let is_missing = is_missing(grammar, dispatch, attribute, declared);
    faults.note_if(is_missing, Rule::J7, place);
    Ok(())
}

// Where the name in a declaration stands.
fn place_of(head: &Head<'_>) -> Place
    ensures { result ≡ place_of (seen_head head.now) }
{
    head.name.place
}

// Where the names in the declarations stand.
fn places_of(alloc: Global, heads: &[Head<'_>]) -> Result<Vec<Place>, Memory>
    ensures { IfOk result (λ list. list.items ≡ places_of (map seen_head heads.now)) }
{
    let mut list = Vec::new(alloc);
    for head in heads {
        list.push(place_of(head)).map_err(|_| Memory)?;
    }
    Ok(list)
}

// J7 and J8 of each attribute, whose name in the declaration stands at the place of its number.
fn check_attributes(
    alloc: Global,
    grammar: &Grammar,
    attributes: &Attributes,
    dispatch: &Dispatch,
    made: &[Vec<Created>],
    places: &[Place],
) -> Result<(), ReadFault>
    requires made { length made.now ≡ length grammar.now }
    requires even { length places.now ≡ length attributes.now.attributes }
    ensures { EndsLacking grammar.now attributes.now dispatch.now made.now places.now result }
{
    let mut faults = Earliest::new();
    for i in 0..attributes.len() {
        let attribute = AttrId(i as u16);
        let place = places[i as usize];
        check_attribute(
            alloc,
            grammar,
            attributes,
            dispatch,
            made,
            attribute,
            place,
            &mut faults,
        )?;
    }
    faults.answer()
}

/// The phase of completeness, among these equations, which the dispatch is for: of each attribute, which the declaration of its number
/// declares. What the higher-order attributes make is looked for once for all of them.
pub fn check_completeness(
    alloc: Global,
    grammar: &Grammar,
    heads: &[Head<'_>],
    equations: &[Given<'_>],
    attributes: &Attributes,
    dispatch: &Dispatch,
) -> Result<(), ReadFault>
    requires { length heads.now ≡ length attributes.now.attributes }
    ensures { EndsWritten grammar.now attributes.now dispatch.now equations.now heads.now result }
{
    let places = places_of(alloc, heads)?;
    let roots = roots_of(alloc, grammar, equations)?;
    let made = made_by_class(alloc, grammar, attributes, dispatch, &roots)?;
    check_attributes(alloc, grammar, attributes, dispatch, &made, &places)
}
