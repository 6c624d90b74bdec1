// The instances that wait for values.
ghost use Rattle.std.specs.Prelude.{◌≡◌, ◌++◌, ◌∷◌, [], false, IfNone, IfOk, IfSome, None, OnOk, option_map, option_to_list};
ghost use Rattle.equation_law.specs.Program.{Program};
ghost use Rattle.caller_pass.specs.Packing.{IsBare, unpacked};
ghost use Rattle.caller_pass.specs.Waiting.{HasPart, IsChainTo, waits, way_of};

use crate::left::Left;
use circular_eval::Local;
use equation_law::{Chain, Instance};
use indexmap::IndexMap;
use memo_cells::Slot;
use rag_io::Memory;
use std::alloc::Global;
use std::marker::Model;

/// An instance that isn't circular and waits for another one: the slot of its cell, the local set through which it waits, where it demands a
/// circular instance, and what its evaluation left behind, if that is anything.
#[derive(Drop)]
pub(crate) struct Waiter<'a> {
    pub slot: Slot,
    pub way: Option<Box<Local<'a>>>,
    pub left: Option<Left<'a>>,
}

/// What few of those that wait have: a local set, or something that their evaluation left behind.
#[derive(Drop)]
pub(crate) struct Rest<'a> {
    pub way: Option<Box<Local<'a>>>,
    pub left: Option<Left<'a>>,
}

/// One that waits, in few bytes: its slot, and a box only where it has more.
#[derive(Drop)]
pub(crate) enum Packed<'a> {
    Bare(Slot),
    Laden(Slot, Box<Rest<'a>>),
}

/// The instances that wait, each for the value of the next one. No instance stands there twice, and whether one stands there takes constant
/// time.
#[derive(Drop)]
pub(crate) struct Waiting<'a> {
    waiters: IndexMap<Instance, Packed<'a>>,
}

impl<'a> Model for Waiting<'a> {
    ghost use Rattle.std.specs.Prelude.{List};
    ghost use Rattle.std.specs.Coded.{codes};
    ghost use Rattle.attr_rules.specs.contracts.expression.TExpr as expressions;
    ghost use Rattle.circular_eval.specs.contracts.local.Local as locals;
    ghost use denote.Signature.{static_lft};
    ghost use Rattle.equation_law.specs.declared.coding.Instance.{Instance as CodedInstance};
    ghost use Rattle.caller_pass.specs.declared.waiting.Waiter.{Waiter as Waits};

    ghost Value = { List (CodedInstance × Waits) };

    ghost coded = { Prim.hlevel (codes, expressions.the_row.coded, (locals.the_row static_lft).coded) };

    ghost use Rattle.caller_pass.specs.Packing.{all_unpacked};

    ghost view = { λ waiting. all_unpacked waiting.waiters.entries };
}

/// A local set and what was left behind, put into a box.
fn boxed<'a>(alloc: Global, rest: Rest<'a>) -> Result<Box<Rest<'a>>, Memory>
    ensures { IfOk result (λ boxed. boxed.value ≡ rest.entry) }
{
    match Box::new(alloc, rest) {
        Ok(rest) => Ok(rest),
        Err(_) => Err(Memory),
    }
}

/// Packs one that is to wait. Nothing is put on the heap where it has no local set, and nothing was left behind.
fn pack<'a>(alloc: Global, waiter: Waiter<'a>) -> Result<Packed<'a>, Memory>
    ensures same { IfOk result (λ packed. unpacked packed ≡ waiter.entry) }
    ensures small { waiter.entry.way ≡ None → waiter.entry.left ≡ None → IfOk result IsBare }
{
    let Waiter { slot, way, left } = waiter;
    match (way, left) {
        (None, None) => Ok(Packed::Bare(slot)),
        (way, left) => Ok(Packed::Laden(slot, boxed(alloc, Rest { way, left })?)),
    }
}

/// Unpacks one that waited.
fn unpack<'a>(packed: Packed<'a>) -> Waiter<'a>
    ensures { result ≡ unpacked packed.entry }
{
    match packed {
        Packed::Bare(slot) => Waiter {
            slot,
            way: None,
            left: None,
        },
        Packed::Laden(slot, rest) => {
            let Rest { way, left } = Box::into_inner(rest);
            Waiter { slot, way, left }
        }
    }
}

/// The local set through which one waits.
fn way_in<'b, 'a>(packed: &'b Packed<'a>) -> Option<&'b Local<'a>>
    ensures { option_map (λ local. local.now) result ≡ way_of (unpacked packed.now) }
{
    match packed {
        Packed::Bare(_) => None,
        Packed::Laden(_, rest) => match &rest.way {
            None => None,
            Some(local) => Some(local.as_ref()),
        },
    }
}

/// Adds an instance last.
fn push(list: &mut Vec<Instance>, i: Instance) -> Result<(), Memory>
    ensures { OnOk result (list.new.items ≡ list.old.items ++ i ∷ []) }
{
    list.push(i).map_err(|_| Memory)
}

/// Adds instances last.
pub(crate) fn push_all(list: &mut Vec<Instance>, more: &[Instance]) -> Result<(), Memory>
    ensures { OnOk result (list.new.items ≡ list.old.items ++ more.now) }
{
    list.extend_from_slice(more).map_err(|_| Memory)
}

/// A chain of one instance.
pub(crate) fn alone(alloc: Global, i: Instance) -> Result<Chain, Memory>
    ensures { IfOk result (λ chain. chain ≡ i ∷ []) }
{
    let mut list = Vec::new(alloc);
    push(&mut list, i)?;
    Ok(Chain::new(list))
}

/// Adds the instances by which a local set leads to what it needed last, without that.
pub(crate) fn push_path(
    alloc: Global,
    list: &mut Vec<Instance>,
    local: &Local<'_>,
) -> Result<(), Memory>
    ensures { OnOk result (HasPart list.old.items list.new.items local.now) }
{
    let path = local.path(alloc)?;
    let Some((_, front)) = path.list().split_last() else {
        return Ok(());
    };
    push_all(list, front)
}

impl<'a> Waiting<'a> {
    /// None waits.
    pub(crate) fn new(alloc: Global) -> Waiting<'a>
        ensures { result ≡ [] }
    {
        Waiting {
            waiters: IndexMap::new(alloc),
        }
    }

    /// Whether an instance waits.
    pub(crate) fn contains(&self, i: Instance) -> bool
        ensures { result ≡ waits self.now i }
    {
        self.waiters.contains_key(&i)
    }

    /// Lets one more wait, which doesn't wait yet.
    pub(crate) fn push(
        &mut self,
        alloc: Global,
        i: Instance,
        waiter: Waiter<'a>,
    ) -> Result<(), Memory>
        requires { waits self.old i ≡ false }
        ensures { OnOk result (self.new ≡ self.old ++ (i, waiter.entry) ∷ []) }
    {
        let packed = pack(alloc, waiter)?;
        let Ok(_) = self.waiters.insert(i, packed) else {
            return Err(Memory);
        };
        Ok(())
    }

    /// Takes the last one away, if one waits.
    pub(crate) fn pop(&mut self) -> Option<(Instance, Waiter<'a>)>
        ensures last { self.old ≡ self.new ++ option_to_list result }
        ensures none { IfNone result (self.new ≡ []) }
        ensures other { IfSome result (λ e. waits self.new e.0 ≡ false) }
    {
        match self.waiters.pop() {
            None => None,
            Some((i, packed)) => Some((i, unpack(packed))),
        }
    }

    /// The instances by which the first one leads to what the last one waits for, that included.
    pub(crate) fn chain(&self, alloc: Global, on: Instance) -> Result<Chain, Memory>
        ensures { IfOk result (λ chain. (p : Program) → IsChainTo p self.now on chain) }
    {
        let mut list = Vec::new(alloc);
        for (instance, packed) in &self.waiters {
            push(&mut list, *instance)?;
            if let Some(local) = way_in(packed) {
                push_path(alloc, &mut list, local)?;
            }
        }
        push(&mut list, on)?;
        Ok(Chain::new(list))
    }
}
