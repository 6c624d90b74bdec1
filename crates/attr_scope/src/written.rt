// What aspects declare, and the equations and contributions that they give, as they are written.
ghost use Rattle.std.specs.Prelude.{◌≡◌, IfOk, map};
ghost use Rattle.std.specs.Option.{option_map};
ghost use Rattle.attr_scope.specs.Seen.{seen_given, seen_head, seen_offer};
ghost use Rattle.attr_scope.specs.Written.{contributed_in, contributions, declarations, declared_in, given_by, given_in, givens, synthesized_sort};
ghost use Rattle.aspect_items.specs.Items.{seen_equation, seen_item};

use aspect_items::{
    Circular, Collection, Contribution, Equation, Expr, Item, Name, Parameter, Signature, Type,
};
use attr_rules::Sort;
use rag_io::Memory;
use std::alloc::Global;

/// The declaration of an attribute: its sort, its type, the class that has it, its name with the parameters, whether it is circular, and how it
/// collects, where it is a collection.
#[derive(Clone, Copy, Debug)]
pub struct Head<'a> {
    pub sort: Sort,
    pub of: &'a Type,
    pub class: &'a Name,
    pub name: &'a Name,
    pub parameters: &'a [Parameter],
    pub circular: Option<&'a Circular>,
    pub collection: Option<&'a Collection>,
}

/// An equation: the name of the class, the path to the nodes, if it has one, the name of the attribute with the parameters, and the right
/// side.
#[derive(Clone, Copy, Debug)]
pub struct Given<'a> {
    pub class: &'a Name,
    pub path: Option<&'a Signature>,
    pub attribute: &'a Signature,
    pub body: &'a Expr,
}

// What is declared with `nta` is higher-order.
fn synthesized_sort(higher_order: bool) -> Sort
    ensures { result ≡ synthesized_sort higher_order }
{
    if higher_order { Sort::Nta } else { Sort::Syn }
}

// The declaration that an item is, if it is one.
fn declared_in(item: &Item) -> Option<Head<'_>>
    ensures { option_map seen_head result ≡ declared_in (seen_item item.now) }
{
    match item {
        Item::Synthesized(declared) => Some(Head {
            sort: synthesized_sort(declared.higher_order),
            of: &declared.of,
            class: &declared.class,
            name: &declared.signature.name,
            parameters: &declared.signature.parameters,
            circular: declared.circular.as_ref(),
            collection: None,
        }),
        Item::Inherited(declared) => Some(Head {
            sort: Sort::Inh,
            of: &declared.of,
            class: &declared.class,
            name: &declared.signature.name,
            parameters: &declared.signature.parameters,
            circular: declared.circular.as_ref(),
            collection: None,
        }),
        Item::Collection(collection) => Some(Head {
            sort: Sort::Coll,
            of: &collection.of,
            class: &collection.class,
            name: &collection.name,
            parameters: &[],
            circular: None,
            collection: Some(collection),
        }),
        Item::Equation(_) | Item::Contribution(_) => None,
    }
}

/// The declarations among some items, in their order.
pub fn declarations(alloc: Global, items: &[Item]) -> Result<Vec<Head<'_>>, Memory>
    ensures { IfOk result (λ list. map seen_head list.items ≡ declarations (map seen_item items.now)) }
{
    let mut list = Vec::new(alloc);
    for item in items {
        if let Some(declared) = declared_in(item) {
            list.push(declared).map_err(|_| Memory)?;
        }
    }
    Ok(list)
}

// What an `eq` gives. With an inherited attribute behind it, the first name is a path.
fn given_by(equation: &Equation) -> Given<'_>
    ensures { seen_given result ≡ given_by (seen_equation equation.now) }
{
    let (path, attribute) = match &equation.inherited {
        Some(inherited) => (Some(&equation.signature), inherited),
        None => (None, &equation.signature),
    };
    Given {
        class: &equation.class,
        path,
        attribute,
        body: &equation.body,
    }
}

// The equation that an item gives, if it gives one: that of `eq`, or the one that stands in a declaration.
fn given_in(item: &Item) -> Option<Given<'_>>
    ensures { option_map seen_given result ≡ given_in (seen_item item.now) }
{
    match item {
        Item::Synthesized(declared) => Some(Given {
            class: &declared.class,
            path: None,
            attribute: &declared.signature,
            body: declared.body.as_ref()?,
        }),
        Item::Equation(equation) => Some(given_by(equation)),
        Item::Inherited(_) | Item::Collection(_) | Item::Contribution(_) => None,
    }
}

/// The equations among some items, in their order.
pub fn givens(alloc: Global, items: &[Item]) -> Result<Vec<Given<'_>>, Memory>
    ensures { IfOk result (λ list. map seen_given list.items ≡ givens (map seen_item items.now)) }
{
    let mut list = Vec::new(alloc);
    for item in items {
        if let Some(given) = given_in(item) {
            list.push(given).map_err(|_| Memory)?;
        }
    }
    Ok(list)
}

// The contribution that an item is, if it is one.
fn contributed_in(item: &Item) -> Option<&Contribution>
    ensures { option_map seen_offer result ≡ contributed_in (seen_item item.now) }
{
    match item {
        Item::Contribution(contribution) => Some(contribution),
        Item::Synthesized(_) | Item::Inherited(_) | Item::Equation(_) | Item::Collection(_) => None,
    }
}

/// The contributions among some items, in their order.
pub fn contributions(alloc: Global, items: &[Item]) -> Result<Vec<&Contribution>, Memory>
    ensures { IfOk result (λ list. map seen_offer list.items ≡ contributions (map seen_item items.now)) }
{
    let mut list = Vec::new(alloc);
    for item in items {
        if let Some(contribution) = contributed_in(item) {
            list.push(contribution).map_err(|_| Memory)?;
        }
    }
    Ok(list)
}
