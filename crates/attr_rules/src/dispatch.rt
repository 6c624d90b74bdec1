// Which equation gives an attribute its value at nodes of a class.
ghost use Rattle.std.specs.Prelude.{◌≡◌, ◌<◌, ◌^◌, Option, All, IfOk, length};
ghost use Rattle.std.specs.Option.{option_map};
ghost use Rattle.ast_grammar.specs.Grammar.{superclasses_of};
ghost use Rattle.attr_rules.specs.Dispatching.{AreCovered, AreEmptyRows, AreOwnRows, Dispatches, FindsCovering, IsNearestRow, IsTarget, PutsFirst, filled};
ghost use Rattle.attr_rules.specs.Rules.{number_of_equation};
ghost use Rattle.attr_rules.specs.RowsKept.{at_row};

use crate::covering::Covering;
use crate::kinds::{AttrId, EqId, Part};
use crate::paths::own_paths;
use crate::rows::{at_row, put_first};
use ast_grammar::{ClassId, Grammar};
use rag_io::Memory;
use std::alloc::Global;

/// By what a node hangs at another: at a component of it, or as the root of a tree that a higher-order attribute of it makes.
#[derive(Clone, Copy, Debug, PartialEq, Eq, Hash)]
pub enum Via {
    Component(Part),
    Created(AttrId),
}

/// At which nodes an equation of a class gives a value: at those of the class (`eq C.y() = ..`), at what hangs at a component of them
/// (`eq C.getX().y() = ..`), at the roots of the trees that a higher-order attribute of them makes (`eq C.a().y() = ..`), or at whatever hangs
/// at them by either (`eq C.getChild().y() = ..`).
#[derive(Clone, Copy, Debug, PartialEq, Eq, Hash)]
pub enum Reach {
    Own,
    Component(Part),
    Created(AttrId),
    Children,
}

impl Reach {
    ghost use Rattle.attr_rules.specs.Dispatching.{via_in};
    ghost use Rattle.attr_rules.specs.Rules.{same_reach};
    ghost use Rattle.attr_rules.specs.declared.dispatch.Reach.TheVariants.{Children, Own};

    /// Whether it is the nodes of the class: the equation has no path.
    pub(crate) fn is_own(self) -> bool
        ensures { result ≡ same_reach self Own }
    {
        match self {
            Reach::Own => true,
            Reach::Component(_) | Reach::Created(_) | Reach::Children => false,
        }
    }

    /// Whether it is whatever hangs at nodes of the class.
    pub(crate) fn is_children(self) -> bool
        ensures { result ≡ same_reach self Children }
    {
        match self {
            Reach::Children => true,
            Reach::Component(_) | Reach::Created(_) | Reach::Own => false,
        }
    }

    /// By what the nodes hang, if it is one component or one attribute.
    pub(crate) fn via(self) -> Option<Via>
        ensures { result ≡ via_in self }
    {
        match self {
            Reach::Component(component) => Some(Via::Component(component)),
            Reach::Created(attribute) => Some(Via::Created(attribute)),
            Reach::Own | Reach::Children => None,
        }
    }
}

/// What an equation is for: of which class it is, at which nodes it gives a value, and to which attribute. With a path this is the first
/// inherited attribute of the name, and stands for all of them.
#[derive(Clone, Copy, Debug, PartialEq, Eq)]
pub struct Target {
    pub class: ClassId,
    pub reach: Reach,
    pub attribute: AttrId,
}

/// The equation of each attribute at nodes of each class, and at what hangs by each of their components and higher-order attributes: that of the nearest class, from the
/// node's class upwards. It is looked for once for each class, and then found in constant time.
#[derive(Drop)]
pub struct Dispatch {
    rows: Vec<Vec<Option<EqId>>>,
    coverings: Vec<Covering>,
}

// Equations go by numbers of 32 bits. A file has no room for more.
fn numbers_suffice(targets: &[Target]) -> Result<(), Memory>
    ensures { IfOk result (λ u. length targets.now < 2 ^ 32) }
{
    match u32::try_from(targets.len()) {
        Ok(_) => Ok(()),
        Err(_) => Err(Memory),
    }
}

// A row for each class, in which nothing stands.
fn empty_rows(
    alloc: Global,
    classes: u32,
    attributes: u32,
) -> Result<Vec<Vec<Option<EqId>>>, Memory>
    ensures { IfOk result (λ rows. AreEmptyRows classes attributes rows.items) }
{
    let mut rows = Vec::new(alloc);
    for _ in 0..classes {
        let row = vec![in alloc; None; attributes as usize].map_err(|_| Memory)?;
        rows.push(row).map_err(|_| Memory)?;
    }
    Ok(rows)
}

// Puts an equation without a path at the place of its class and attribute, where there is none yet.
fn put(rows: &mut [Vec<Option<EqId>>], target: Target, equation: EqId)
    ensures { PutsFirst target equation rows.old rows.new }
{
    let class = target.class.0 as usize;
    if target.reach.is_own() && class < rows.len() {
        put_first(&mut rows[class], target.attribute.0 as usize, equation);
    }
}

// The rows of the equations of exactly each class: for each attribute the first.
fn own_rows(
    alloc: Global,
    classes: u32,
    attributes: u32,
    targets: &[Target],
) -> Result<Vec<Vec<Option<EqId>>>, Memory>
    requires { length targets.now < 2 ^ 32 }
    ensures { IfOk result (λ rows. AreOwnRows classes attributes targets.now rows.items) }
{
    let mut rows = empty_rows(alloc, classes, attributes)?;
    for (i, target) in targets.iter().enumerate() {
        put(&mut rows, *target, EqId(i as u32));
    }
    Ok(rows)
}

// Fills the places of a row that are empty with what stands there in another.
fn fill(row: &mut [Option<EqId>], above: &[Option<EqId>])
    ensures { row.new ≡ filled row.old above.now }
{
    for (place, held) in above.iter().enumerate() {
        if let Some(equation) = held {
            put_first(row, place, *equation);
        }
    }
}

// The row of a class and its superclasses: for each attribute the equation of the nearest class that has one.
fn nearest_row(
    alloc: Global,
    grammar: &Grammar,
    own: &[Vec<Option<EqId>>],
    class: usize,
) -> Result<Vec<Option<EqId>>, Memory>
    requires { class < length own.now }
    ensures { IfOk result (λ row. IsNearestRow (superclasses_of grammar.now) own.now class row.items) }
{
    let subclasses = grammar.subclasses();
    let mut row = Vec::from_slice(alloc, &own[class]).map_err(|_| Memory)?;
    let mut above = subclasses.superclass(class);
    for _ in 0..grammar.classes() {
        let Some(number) = above else { break };
        if let Some(held) = own.get(number) {
            fill(&mut row, held);
        }
        above = subclasses.superclass(number);
    }
    Ok(row)
}

// What covers at nodes of each class.
fn coverings(
    alloc: Global,
    grammar: &Grammar,
    attributes: u32,
    targets: &[Target],
) -> Result<Vec<Covering>, Memory>
    requires few { length targets.now < 2 ^ 32 }
    requires within { All (IsTarget (length (superclasses_of grammar.now)) attributes) targets.now }
    ensures { IfOk result (λ v. AreCovered (superclasses_of grammar.now) targets.now v.items) }
{
    let own = own_paths(alloc, grammar.classes(), targets)?;
    let mut coverings = Vec::new(alloc);
    for class in 0..own.len() {
        let covering = Covering::of_class(alloc, grammar, attributes, &own, class)?;
        coverings.push(covering).map_err(|_| Memory)?;
    }
    Ok(coverings)
}

impl Dispatch {
    /// The equations for these, by their places in the list, among so many attributes. It takes time in proportion to the equations, and for
    /// each class to its superclasses times the attributes, and to its equations with a path and those of its superclasses. Memory goes to a
    /// place for each class and attribute, and to each equation for a component or a higher-order attribute once for each subclass.
    pub fn of_targets(
        alloc: Global,
        grammar: &Grammar,
        attributes: u32,
        targets: &[Target],
    ) -> Result<Dispatch, Memory>
        requires { All (IsTarget (length (superclasses_of grammar.now)) attributes) targets.now }
        ensures { IfOk result (λ d. Dispatches (superclasses_of grammar.now) targets.now d) }
    {
        numbers_suffice(targets)?;
        let own = own_rows(alloc, grammar.classes(), attributes, targets)?;
        let mut rows = Vec::new(alloc);
        for class in 0..own.len() {
            let row = nearest_row(alloc, grammar, &own, class)?;
            rows.push(row).map_err(|_| Memory)?;
        }
        let coverings = coverings(alloc, grammar, attributes, targets)?;
        Ok(Dispatch { rows, coverings })
    }

    /// The equation of an attribute at nodes of a class, or None where there is none. It takes constant time.
    pub fn find(&self, class: ClassId, attribute: AttrId) -> Option<EqId>
        ensures { result ≡ at_row self.now.rows.items class.0 attribute.0 }
    {
        at_row(&self.rows, class.0 as usize, attribute.0 as usize)
    }

    /// The equation with a path that covers what hangs by a component or a higher-order attribute at nodes of a class, for the first
    /// inherited attribute of a name, or None where there is none: that of the nearest class, from this one upwards, and in a class one for
    /// just that before one for every child. It takes constant time.
    pub fn find_covering(&self, class: ClassId, via: Via, attribute: AttrId) -> Option<EqId>
        ensures { FindsCovering self.now class via attribute (option_map number_of_equation result) }
    {
        let covering = self.coverings.get(class.0 as usize)?;
        covering.find(via, attribute)
    }
}
