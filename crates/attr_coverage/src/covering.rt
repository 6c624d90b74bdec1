// The classes of which there can be a node at which no equation gives a value to an inherited attribute.
ghost use Rattle.std.specs.Prelude.{◌≡◌, ◌<◌, ◌==◌, ◌&&◌, IfOk, OnOk, false, length, replicate, true};
ghost use Rattle.attr_rules.specs.Rules.{is_for_nodes};
ghost use Rattle.attr_coverage.specs.Covering.{is_concrete, is_concrete_below, is_covered_for, is_open_at, is_open_root};
ghost use Rattle.attr_coverage.specs.CoveringKept.{Adds, AreListed, Grows, mark_at};
ghost use Rattle.attr_coverage.specs.Dispatched.{AddsFollowing, AddsHanging, AddsMade, AddsRoot, ForTargets, MarksUncovered};

use crate::created::Created;
use ast_grammar::{ClassId, Component, Grammar, Shape};
use attr_rules::{AttrId, Dispatch, Part, Via};
use rag_io::Memory;
use std::alloc::Global;

/// The classes that are found so far: a mark for each class, and those that are marked, in the order in which they were found.
#[derive(Drop)]
struct Found {
    marks: Vec<bool>,
    classes: Vec<ClassId>,
}

/// There are nodes of the class.
pub(crate) fn is_concrete(grammar: &Grammar, class: ClassId) -> bool
    ensures { result ≡ is_concrete grammar.now class.0 }
{
    u32::from(class.0) < grammar.classes() && !grammar.is_abstract(class)
}

// There are nodes of the class, which is another one or a subclass of it.
fn is_concrete_below(grammar: &Grammar, class: ClassId, above: ClassId) -> bool
    ensures { result ≡ is_concrete_below grammar.now above.0 class.0 }
{
    is_concrete(grammar, class) && grammar.is_sub(class, above)
}

/// The class of this number is marked.
pub(crate) fn is_marked(marks: &[bool], class: ClassId) -> bool
    ensures { result ≡ mark_at marks.now class.0 }
{
    marks.get(class.0 as usize).copied().unwrap_or(false)
}

// Nodes hang at components of this shape.
fn is_for_nodes(shape: Shape) -> bool
    ensures { result ≡ is_for_nodes shape }
{
    match shape {
        Shape::Child | Shape::List | Shape::Optional => true,
        Shape::Text | Shape::Int | Shape::Truth => false,
    }
}

// An equation covers what hangs by something at nodes of a class.
fn is_covered(
    grammar: &Grammar,
    dispatch: &Dispatch,
    first: Option<AttrId>,
    class: ClassId,
    via: Via,
) -> bool
    ensures { ForTargets grammar.now dispatch.now (λ targets. result ≡ is_covered_for grammar.now targets first class.0 via) }
{
    match first {
        None => false,
        Some(attribute) => dispatch.find_covering(class, via, attribute).is_some(),
    }
}

// Nodes hang at the component, which is one of nodes of a class, and no equation covers them.
fn is_open(
    grammar: &Grammar,
    dispatch: &Dispatch,
    first: Option<AttrId>,
    class: ClassId,
    k: Part,
    component: &Component,
) -> bool
    ensures { ForTargets grammar.now dispatch.now (λ targets. result ≡ is_open_at grammar.now targets first class k.0 component.now.shape) }
{
    is_for_nodes(component.shape) && !is_covered(grammar, dispatch, first, class, Via::Component(k))
}

// The root is of a class of the grammar, and no equation covers the attribute that makes it at nodes of a class.
fn is_open_root(
    grammar: &Grammar,
    dispatch: &Dispatch,
    first: Option<AttrId>,
    class: ClassId,
    root: Created,
) -> bool
    ensures within { result ≡ true → root.class.0 < length grammar.now }
    ensures open { ForTargets grammar.now dispatch.now (λ targets. result ≡ is_open_root grammar.now (is_covered_for grammar.now targets first) class.0 root) }
{
    u32::from(root.class.0) < grammar.classes()
        && !is_covered(
            grammar,
            dispatch,
            first,
            class,
            Via::Created(root.attribute),
        )
}

impl Found {
    // No class is found.
    fn new(alloc: Global, classes: u32) -> Result<Found, Memory>
        ensures marks { IfOk result (λ f. f.marks.items ≡ replicate classes false) }
        ensures listed { IfOk result AreListed }
    {
        let marks = vec![in alloc; false; classes as usize].map_err(|_| Memory)?;
        let classes = Vec::new(alloc);
        Ok(Found { marks, classes })
    }

    // A class is found.
    fn add(&mut self, class: ClassId) -> Result<(), Memory>
        requires { class.0 < length self.old.marks.items }
        ensures grown { OnOk result (Grows self.old self.new) }
        ensures added { OnOk result (Adds (λ c. class.0 == c) self.old self.new) }
    {
        if !is_marked(&self.marks, class) {
            self.classes.push(class).map_err(|_| Memory)?;
            self.marks[class.0 as usize] = true;
        }
        Ok(())
    }

    // The concrete classes from one on downwards are found.
    fn add_below(&mut self, grammar: &Grammar, above: ClassId) -> Result<(), Memory>
        requires { length self.old.marks.items ≡ length grammar.now }
        ensures grown { OnOk result (Grows self.old self.new) }
        ensures added { OnOk result (Adds (is_concrete_below grammar.now above.0) self.old self.new) }
    {
        for number in 0..grammar.classes() {
            let class = ClassId(number as u16);
            if is_concrete_below(grammar, class, above) {
                self.add(class)?;
            }
        }
        Ok(())
    }

    // The classes of what may hang uncovered at components of nodes of a class are found.
    fn follow_components(
        &mut self,
        grammar: &Grammar,
        dispatch: &Dispatch,
        first: Option<AttrId>,
        class: ClassId,
    ) -> Result<(), Memory>
        requires class { class.0 < length grammar.now }
        requires long { length self.old.marks.items ≡ length grammar.now }
        ensures grown { OnOk result (Grows self.old self.new) }
        ensures added { OnOk result (AddsHanging grammar.now dispatch.now first class self.old self.new) }
    {
        for k in 0..grammar.arity(class) {
            let component = grammar.component(class, k);
            if is_open(grammar, dispatch, first, class, Part(k), component) {
                self.add_below(grammar, component.class)?;
            }
        }
        Ok(())
    }

    // The class of a root is found that is made at nodes of a class, if no equation covers it. Its mark is looked at before the equations.
    fn follow_root(
        &mut self,
        grammar: &Grammar,
        dispatch: &Dispatch,
        first: Option<AttrId>,
        class: ClassId,
        root: Created,
    ) -> Result<(), Memory>
        requires { length self.old.marks.items ≡ length grammar.now }
        ensures grown { OnOk result (Grows self.old self.new) }
        ensures added { OnOk result (AddsRoot grammar.now dispatch.now first class root self.old self.new) }
    {
        if !is_marked(&self.marks, root.class)
            && is_open_root(grammar, dispatch, first, class, root)
        {
            self.add(root.class)?;
        }
        Ok(())
    }

    // The classes of the roots are found that are made at nodes of a class and that no equation covers.
    fn follow_made(
        &mut self,
        grammar: &Grammar,
        dispatch: &Dispatch,
        first: Option<AttrId>,
        class: ClassId,
        made: &[Created],
    ) -> Result<(), Memory>
        requires { length self.old.marks.items ≡ length grammar.now }
        ensures grown { OnOk result (Grows self.old self.new) }
        ensures added { OnOk result (AddsMade grammar.now dispatch.now first class made.now self.old self.new) }
    {
        for root in made {
            self.follow_root(grammar, dispatch, first, class, *root)?;
        }
        Ok(())
    }

    // The classes of what may hang uncovered at nodes of a class, or be made there, are found.
    fn follow(
        &mut self,
        grammar: &Grammar,
        dispatch: &Dispatch,
        first: Option<AttrId>,
        class: ClassId,
        made: &[Created],
    ) -> Result<(), Memory>
        requires class { class.0 < length grammar.now }
        requires long { length self.old.marks.items ≡ length grammar.now }
        ensures grown { OnOk result (Grows self.old self.new) }
        ensures added { OnOk result (AddsFollowing grammar.now dispatch.now first class made.now self.old self.new) }
    {
        self.follow_components(grammar, dispatch, first, class)?;
        self.follow_made(grammar, dispatch, first, class, made)
    }
}

/// Marks the classes of which there can be a node at which no equation gives a value to the inherited attributes of a name, by the first of
/// them and what is made at nodes of each class. Each class is followed once, so it takes one look for an equation for each component of each
/// class, as many steps as there are classes for each that isn't covered, and a look at a mark for each root that is made, with one for an
/// equation where its class isn't marked.
pub(crate) fn uncovered_classes(
    alloc: Global,
    grammar: &Grammar,
    dispatch: &Dispatch,
    first: Option<AttrId>,
    made: &[Vec<Created>],
) -> Result<Vec<bool>, Memory>
    requires { length made.now ≡ length grammar.now }
    ensures { IfOk result (MarksUncovered grammar.now dispatch.now first made.now) }
{
    let mut found = Found::new(alloc, grammar.classes())?;
    found.add_below(grammar, grammar.first_class())?;
    let mut next = 0;
    while next < found.classes.len() {
        let class = found.classes[next];
        found.follow(grammar, dispatch, first, class, &made[class.0 as usize])?;
        next += 1;
    }
    Ok(found.marks)
}
