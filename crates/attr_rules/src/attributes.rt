// The attributes of a grammar, by their numbers and by their names.
ghost use Rattle.std.specs.Prelude.{◌≡◌, ◌↔◌, ◌+◌, ◌<◌, ◌≤◌, ◌++◌, ◌∷◌, [], suc, Some, IfOk, IfSome, IsTrue, OnOk, length, map, slice_get};
ghost use Rattle.std.specs.Option.{option_map};
ghost use Rattle.attr_rules.specs.KeptAttributes.{AreFirstInherited, AreNumbered, AreRows, Extends, IsRow, attributes_in, seen_attribute};
ghost use Rattle.rag_io.specs.Pool.{most_texts};
ghost use Rattle.ast_grammar.specs.Grammar.{superclasses_of};
ghost use Rattle.attr_rules.specs.Rules.{attribute_named, circular_at, collecting_at, declared_at, first_inherited, first_of_name, most_attributes, number_of_attribute};

use crate::kinds::{Attr, AttrId, Collecting};
use crate::rows::{at_place, at_row, put_first};
use ast_grammar::{ClassId, Grammar};
use rag_io::{Memory, Pool, PoolFault};
use std::alloc::Global;
use std::marker::Model;
use superclasses::Subclasses;

/// An attribute: its name, what is declared of it, and how it collects, where it is a collection.
#[derive(Clone, Copy, Debug)]
pub struct NamedAttr<'a> {
    pub name: &'a [u8],
    pub declared: Attr,
    pub collecting: Option<Collecting>,
}

// The same with the number of its name.
#[derive(Clone, Copy, Debug)]
pub(crate) struct KeptAttr {
    pub name: u32,
    pub declared: Attr,
    pub collecting: Option<Collecting>,
}

/// The attributes of a grammar in the order of their declarations, at most 1,024. They are found by number and by name in constant time:
/// for each class there is a row with a place for each name.
#[derive(Drop)]
pub struct Attributes {
    subclasses: Subclasses,
    names: Pool,
    kept: Vec<KeptAttr>,
    rows: Vec<Vec<Option<AttrId>>>,
    inherited: Vec<Option<AttrId>>,
}

impl Model for Attributes {
    ghost use Rattle.attr_rules.specs.KeptAttributes.{AreKept, attributes_in};
    ghost use Rattle.attr_rules.specs.Rules.{AttributeSet};

    ghost Value = { AttributeSet };

    ghost view = { λ a. record { superclasses = a.subclasses; attributes = attributes_in a.names a.kept.items } };

    ghost invariant = { λ a. AreKept a.subclasses a.names a.kept.items a.rows.items a.inherited.items };
}

// The number of a name, which is added where it isn't there. There is room for it.
fn number_name(names: &mut Pool, name: &[u8]) -> Result<u32, Memory>
    requires { length names.old < most_texts }
    ensures number { IfOk result (λ number. slice_get names.new number ≡ Some name.now) }
    ensures kept { OnOk result (Extends names.old names.new) }
    ensures few { OnOk result (length names.new ≤ suc (length names.old)) }
{
    match names.add(name) {
        Ok(number) => Ok(number),
        Err(PoolFault::Memory) => Err(Memory),
        Err(PoolFault::Full) => unreachable!(),
    }
}

fn push(list: &mut Vec<KeptAttr>, attribute: KeptAttr) -> Result<(), Memory>
    ensures { OnOk result (list.new.items ≡ list.old.items ++ attribute ∷ []) }
{
    list.push(attribute).map_err(|_| Memory)
}

// The attributes with the numbers of their names, which go into the pool.
fn numbered(
    alloc: Global,
    names: &mut Pool,
    list: &[NamedAttr<'_>],
) -> Result<Vec<KeptAttr>, Memory>
    requires { length names.old + length list.now ≤ most_texts }
    ensures attributes { IfOk result (λ kept. attributes_in names.new kept.items ≡ map seen_attribute list.now) }
    ensures within { IfOk result (λ kept. AreNumbered names.new kept.items) }
{
    let mut kept = Vec::new(alloc);
    for attribute in list {
        let name = number_name(names, attribute.name)?;
        let NamedAttr {
            declared,
            collecting,
            ..
        } = *attribute;
        push(
            &mut kept,
            KeptAttr {
                name,
                declared,
                collecting,
            },
        )?;
    }
    let _texts = names.len();
    Ok(kept)
}

// The row of a class: for each name the first attribute of this name that is declared for the class or a superclass.
fn row_of(
    alloc: Global,
    subclasses: &Subclasses,
    names: u32,
    kept: &[KeptAttr],
    class: usize,
) -> Result<Vec<Option<AttrId>>, Memory>
    requires { length kept.now ≤ most_attributes }
    ensures { IfOk result (λ row. IsRow subclasses.now names kept.now class row.items) }
{
    let mut row = vec![in alloc; None; names as usize].map_err(|_| Memory)?;
    for (i, attribute) in kept.iter().enumerate() {
        if subclasses.is_sub(class, attribute.declared.class.0 as usize) {
            put_first(&mut row, attribute.name as usize, AttrId(i as u16));
        }
    }
    Ok(row)
}

// The rows of so many classes.
fn rows_of(
    alloc: Global,
    subclasses: &Subclasses,
    classes: usize,
    names: u32,
    kept: &[KeptAttr],
) -> Result<Vec<Vec<Option<AttrId>>>, Memory>
    requires { length kept.now ≤ most_attributes }
    ensures { IfOk result (λ rows. AreRows subclasses.now classes names kept.now rows.items) }
{
    let mut rows = Vec::new(alloc);
    for class in 0..classes {
        let row = row_of(alloc, subclasses, names, kept, class)?;
        rows.push(row).map_err(|_| Memory)?;
    }
    Ok(rows)
}

// For each of so many names the first inherited attribute.
fn first_inherited(
    alloc: Global,
    names: u32,
    kept: &[KeptAttr],
) -> Result<Vec<Option<AttrId>>, Memory>
    requires { length kept.now ≤ most_attributes }
    ensures { IfOk result (λ row. AreFirstInherited names kept.now row.items) }
{
    let mut row = vec![in alloc; None; names as usize].map_err(|_| Memory)?;
    for (i, attribute) in kept.iter().enumerate() {
        if attribute.declared.sort.is_inherited() {
            put_first(&mut row, attribute.name as usize, AttrId(i as u16));
        }
    }
    Ok(row)
}

impl Attributes {
    /// The attributes of this list, by their places in it. It takes time in proportion to the classes times the attributes.
    pub fn of_list(
        alloc: Global,
        grammar: &Grammar,
        list: &[NamedAttr<'_>],
    ) -> Result<Attributes, Memory>
        requires { length list.now ≤ most_attributes }
        ensures { IfOk result (λ a. a ≡ record { superclasses = superclasses_of grammar.now; attributes = map seen_attribute list.now }) }
    {
        let subclasses = grammar.subclasses().copy(alloc)?;
        let mut names = Pool::new(alloc)?;
        let kept = numbered(alloc, &mut names, list)?;
        let classes = grammar.classes() as usize;
        let rows = rows_of(alloc, &subclasses, classes, names.len(), &kept)?;
        let inherited = first_inherited(alloc, names.len(), &kept)?;
        Ok(Attributes {
            subclasses,
            names,
            kept,
            rows,
            inherited,
        })
    }

    /// The number of attributes.
    pub fn len(&self) -> u32
        ensures number { result ≡ length self.now.attributes }
        ensures few { result ≤ most_attributes }
    {
        self.kept.len() as u32
    }

    /// Whether there are none.
    pub fn is_empty(&self) -> bool
        ensures { IsTrue result ↔ (self.now.attributes ≡ []) }
    {
        self.kept.is_empty()
    }

    /// What is declared of an attribute.
    pub fn attr(&self, a: AttrId) -> &Attr
        requires { a.0 < length self.now.attributes }
        ensures { declared_at self.now.attributes a.0 ≡ Some result.now }
    {
        &self.kept[a.0 as usize].declared
    }

    /// How an attribute collects, or None where it is no collection.
    pub fn collecting(&self, a: AttrId) -> Option<Collecting>
        requires { a.0 < length self.now.attributes }
        ensures { result ≡ collecting_at self.now.attributes a.0 }
    {
        self.kept[a.0 as usize].collecting
    }

    /// Whether the attribute of this number is declared circular; where there is none, it isn't.
    pub fn is_circular(&self, a: AttrId) -> bool
        ensures { result ≡ circular_at self.now.attributes a.0 }
    {
        u32::from(a.0) < self.len() && self.attr(a).circular
    }

    /// The first inherited attribute that has the name of this one, or None where none has. It takes constant time.
    pub fn first_of_name(&self, a: AttrId) -> Option<AttrId>
        ensures { option_map number_of_attribute result ≡ first_of_name self.now.attributes a.0 }
    {
        let attribute = self.kept.get(a.0 as usize)?;
        at_place(&self.inherited, attribute.name as usize)
    }

    /// The first inherited attribute of this name, or None where there is none. It takes the time of one look-up.
    pub fn find_inherited(&self, name: &[u8]) -> Option<AttrId>
        ensures { option_map number_of_attribute result ≡ first_inherited self.now.attributes name.now }
    {
        let name = self.names.find(name)?;
        at_place(&self.inherited, name as usize)
    }

    /// The attribute of this name that is declared for the class or a superclass, or None where none is. It takes the time of one look-up.
    pub fn find(&self, class: ClassId, name: &[u8]) -> Option<AttrId>
        requires { class.0 < length self.now.superclasses }
        ensures number { option_map number_of_attribute result ≡ attribute_named self.now.superclasses self.now.attributes class name.now }
        ensures within { IfSome result (λ a. a.0 < length self.now.attributes) }
    {
        let name = self.names.find(name)?;
        at_row(&self.rows, class.0 as usize, name as usize)
    }
}
