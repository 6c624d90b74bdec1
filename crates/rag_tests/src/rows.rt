// Instances that tables name row by row, and the values that the rounds give them.
ghost use Rattle.equation_law.specs.Checked.{IsProgram};
ghost use Rattle.equation_law.specs.Systems.{program_of};

use crate::programs::{Texts, system_checked};
use attr_rules::{AttrId, TextId};
use broken_rules::ReadFault;
use equation_law::System;
use plain_rounds::{
    NameList, NamedArg, NamedArgs, NamedInstance, NamedValue, NodeName, Table, plain_rounds,
};
use rag_io::Pool;
use std::alloc::Global;

/// A node: null, one of the source by its number, or that at a position of the tree that an earlier row makes.
#[derive(Clone, Copy)]
pub(crate) enum At {
    Null,
    Source(u32),
    Made(usize, u32),
}

/// An argument. A text that the system doesn't have goes by a number that no text has.
#[derive(Clone, Copy)]
pub(crate) enum Given {
    Truth(bool),
    Int(i32),
    Text(&'static str),
    Node(At),
}

/// The arguments of an instance.
#[derive(Clone, Copy)]
pub(crate) enum With {
    None,
    One(Given),
    Two(Given, Given),
    Three(Given, Given, Given),
}

/// What is wanted of a row: that it is no instance of the system, that it is one but isn't listed, that it is one to which the rounds give no value,
/// or its value, of which any that is no truth value, integer or text is a node, a set or a tree.
#[derive(Clone, Copy)]
pub(crate) enum Want {
    Stranger,
    Unlisted,
    Nothing,
    Truth(bool),
    Int(i32),
    Text(&'static str),
    Other,
}

/// An attribute by its number, at a node with arguments, and what is wanted of that.
pub(crate) type Row = (u16, At, With, Want);

/// The number of a text, or one that no text has.
pub(crate) fn text_id(pool: &Pool, text: &str) -> TextId {
    match pool.find(text.as_bytes()) {
        Some(number) => TextId(number),
        None => TextId(pool.len()),
    }
}

// The name of a node behind these rows.
#[cycle(names)]
fn node_name(alloc: Global, pool: &Pool, at: At, before: &[Row]) -> Result<NodeName, ReadFault> {
    match at {
        At::Null => Ok(NodeName::Null),
        At::Source(number) => Ok(NodeName::Source(number)),
        At::Made(k, position) => {
            if k >= before.len() {
                return Err(ReadFault::Memory);
            }
            let maker = row_name(alloc, pool, &before[k], &before[..k])?;
            Ok(NodeName::Made(Box::new(alloc, maker)?, position))
        }
    }
}

#[cycle(names)]
fn argument_name(
    alloc: Global,
    pool: &Pool,
    given: Given,
    before: &[Row],
) -> Result<NamedArg, ReadFault> {
    match given {
        Given::Truth(value) => Ok(NamedArg::Truth(value)),
        Given::Int(value) => Ok(NamedArg::Int(value)),
        Given::Text(text) => Ok(NamedArg::Text(text_id(pool, text))),
        Given::Node(at) => Ok(NamedArg::Node(node_name(alloc, pool, at, before)?)),
    }
}

#[cycle(names)]
fn argument_names(
    alloc: Global,
    pool: &Pool,
    with: With,
    before: &[Row],
) -> Result<NamedArgs, ReadFault> {
    match with {
        With::None => Ok(NamedArgs::None),
        With::One(x) => Ok(NamedArgs::One(argument_name(alloc, pool, x, before)?)),
        With::Two(x, y) => {
            let first = argument_name(alloc, pool, x, before)?;
            let second = argument_name(alloc, pool, y, before)?;
            Ok(NamedArgs::Two(first, second))
        }
        With::Three(x, y, z) => {
            let first = argument_name(alloc, pool, x, before)?;
            let second = argument_name(alloc, pool, y, before)?;
            let third = argument_name(alloc, pool, z, before)?;
            Ok(NamedArgs::Three(first, second, third))
        }
    }
}

// The name of the instance of a row behind these rows.
#[cycle(names)]
fn row_name(
    alloc: Global,
    pool: &Pool,
    row: &Row,
    before: &[Row],
) -> Result<NamedInstance, ReadFault> {
    let (attr, at, with, _) = row;
    let node = node_name(alloc, pool, *at, before)?;
    let args = argument_names(alloc, pool, *with, before)?;
    Ok(NamedInstance {
        attr: AttrId(*attr),
        node,
        args,
    })
}

fn is_listed(want: &Want) -> bool {
    !matches!(want, Want::Stranger | Want::Unlisted)
}

/// The names of the source, and behind them those of the rows that are listed.
pub(crate) fn names_of(
    alloc: Global,
    system: &System,
    rows: &[Row],
) -> Result<NameList, ReadFault> {
    let mut names = NameList::of_source(alloc, system)?;
    for (k, row) in rows.iter().enumerate() {
        if is_listed(&row.3) {
            names.add(row_name(alloc, system.pool(), row, &rows[..k])?)?;
        }
    }
    Ok(names)
}

// Whether a row behind these rows is an instance of the system.
fn is_instance(alloc: Global, system: &System, row: &Row, before: &[Row]) -> Result<bool, ReadFault>
    requires { IsProgram (program_of system.now) }
{
    let mut names = NameList::of_source(alloc, system)?;
    names.add(row_name(alloc, system.pool(), row, before)?)?;
    Ok(names.are_of(system))
}

fn is_text(pool: &Pool, number: Option<TextId>, text: &str) -> bool {
    match number {
        Some(number) => number.0 < pool.len() && pool.get(number.0) == text.as_bytes(),
        None => false,
    }
}

// Whether a value is as it is wanted.
fn is_wanted(pool: &Pool, value: Option<&NamedValue>, want: &Want) -> bool {
    let Some(value) = value else {
        return matches!(want, Want::Nothing);
    };
    match want {
        Want::Stranger | Want::Unlisted | Want::Nothing => false,
        Want::Truth(truth) => value.truth() == Some(*truth),
        Want::Int(int) => value.int() == Some(*int),
        Want::Text(text) => is_text(pool, value.text(), text),
        Want::Other => {
            value.truth().is_none() && value.int().is_none() && value.text().is_none()
        }
    }
}

// The first row that has another value than is wanted, by what the rounds give the names from this place on.
fn other_value(pool: &Pool, rows: &[Row], values: &Table, first: u32) -> Option<usize> {
    let mut place = first;
    for (k, row) in rows.iter().enumerate() {
        if is_listed(&row.3) {
            if !is_wanted(pool, values.value(place), &row.3) {
                return Some(k);
            }
            place = place.saturating_add(1);
        }
    }
    None
}

// The first row that is an instance where it is to be none, or the other way round.
fn other_instance(alloc: Global, system: &System, rows: &[Row]) -> Result<Option<usize>, ReadFault>
    requires { IsProgram (program_of system.now) }
{
    for (k, row) in rows.iter().enumerate() {
        let is_stranger = !is_instance(alloc, system, row, &rows[..k])?;
        if is_stranger != matches!(row.3, Want::Stranger) {
            return Ok(Some(k));
        }
    }
    Ok(None)
}

// The first row to which the rounds over the source's instances and all rows that are listed give another value than is wanted. It is the number
// of rows where these aren't all instances.
fn other_rounds(alloc: Global, system: &System, rows: &[Row]) -> Result<Option<usize>, ReadFault>
    requires { IsProgram (program_of system.now) }
{
    let first = NameList::of_source(alloc, system)?.len();
    let names = names_of(alloc, system, rows)?;
    if !names.are_of(system) {
        return Ok(Some(rows.len()));
    }
    let values = plain_rounds(alloc, system, &names)?;
    Ok(other_value(system.pool(), rows, &values, first))
}

/// The first row that isn't as it is wanted, over the system that texts say without queries.
pub(crate) fn other_row(
    alloc: Global,
    texts: &Texts<'_>,
    rows: &[Row],
) -> Result<Option<usize>, ReadFault> {
    let system = system_checked(alloc, texts)?;
    match other_instance(alloc, &system, rows)? {
        Some(k) => Ok(Some(k)),
        None => other_rounds(alloc, &system, rows),
    }
}
