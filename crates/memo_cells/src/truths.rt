// Which instances have truth values.
ghost use Rattle.std.specs.Prelude.{◌≡◌, ◌<◌, ◌++◌, ◌∷◌, [], IfOk, OnOk, map, slice_index_or, true};
ghost use Rattle.attr_equations.specs.Kept.{rules_in};
ghost use Rattle.attr_rules.specs.Types.{truth_kind};
ghost use Rattle.equation_law.specs.Names.{Instance};
ghost use Rattle.equation_law.specs.Systems.{program_of};
ghost use Rattle.memo_cells.specs.Causes.{IsLogOn};
ghost use Rattle.memo_cells.specs.Naming.{IsCellOf, IsFirstKey};
ghost use Rattle.memo_cells.specs.Standing.{IsPassOf};
ghost use Rattle.memo_cells.specs.Truths.{TellsTruth};
ghost use Rattle.memo_cells.specs.Views.{IsAtLeast};

use crate::cells::{Cells, Pass};
use crate::keys::Slot;
use attr_equations::Rules;
use attr_rules::{AttrId, Kind};
use equation_law::{QueryId, System};
use rag_io::Memory;
use std::alloc::Global;

// Whether a type is that of truth values.
fn is_truth(kind: Kind) -> bool
    ensures { result ≡ truth_kind kind }
{
    matches!(kind, Kind::Truth)
}

fn push(list: &mut Vec<bool>, truth: bool) -> Result<(), Memory>
    ensures { OnOk result (list.new.items ≡ list.old.items ++ truth ∷ []) }
{
    list.push(truth).map_err(|_| Memory)
}

/// Whether each attribute has truth values, by its number.
pub(crate) fn truths_of_attributes(alloc: Global, rules: &Rules) -> Result<Vec<bool>, Memory>
    ensures { IfOk result (λ list. list.items ≡ map (λ x. truth_kind x.declared.kind) (rules_in rules.now).attributes) }
{
    let mut list = Vec::new(alloc);
    for number in 0..rules.attrs() {
        let declared = rules.attr(AttrId(number as u16));
        push(&mut list, is_truth(declared.kind))?;
    }
    Ok(list)
}

/// Whether each query has a truth value, by its number.
pub(crate) fn truths_of_queries(alloc: Global, system: &System) -> Result<Vec<bool>, Memory>
    ensures { IfOk result (λ list. list.items ≡ map (λ q. truth_kind q.kind) (program_of system.now).queries) }
{
    let mut list = Vec::new(alloc);
    for query in 0..system.replies() {
        push(&mut list, is_truth(system.query(QueryId(query)).kind()))?;
    }
    Ok(list)
}

// What stands at a place of a list; what isn't there counts as a truth value.
fn truth_at(list: &[bool], place: usize) -> bool
    ensures { result ≡ slice_index_or list.now place true }
{
    if place < list.len() {
        list[place]
    } else {
        true
    }
}

impl Cells {
    /// The key word of the attribute or query by which the way to the instance of a slot begins.
    fn first_key(&self, pass: &mut Pass, slot: Slot) -> u64
        requires own { IsPassOf self.now pass.old }
        requires cell { (i : Instance) × IsCellOf (program_of self.now.system.value) self.now pass.old i slot.0 }
        ensures own { IsPassOf self.now pass.new }
        ensures kept { IsAtLeast pass.old pass.new }
        ensures log { IsLogOn pass.old pass.new }
        ensures first { (i : Instance) → IsCellOf (program_of self.now.system.value) self.now pass.old i slot.0 → IsFirstKey i result }
        ensures claims { pass.new.claims ≡ pass.old.claims }
    {
        let mut word = self.look_key(pass, slot.0);
        for _done in 0..3u32 {
            if word >> 61 != 2 {
                return word;
            }
            word = self.look_key(pass, ((word - (1 << 62)) >> 32) as u32);
        }
        word
    }

    /// Whether the instance of a slot has truth values.
    pub(crate) fn is_of_truth(&self, pass: &mut Pass, slot: Slot) -> bool
        requires own { IsPassOf self.now pass.old }
        requires cell { (i : Instance) × IsCellOf (program_of self.now.system.value) self.now pass.old i slot.0 }
        ensures own { IsPassOf self.now pass.new }
        ensures kept { IsAtLeast pass.old pass.new }
        ensures log { IsLogOn pass.old pass.new }
        ensures truth { TellsTruth self.now pass.old slot.0 result }
        ensures claims { pass.new.claims ≡ pass.old.claims }
    {
        let word = self.first_key(pass, slot);
        if word < 1 << 63 {
            truth_at(&self.attributes, ((word - (1 << 61)) >> 32) as usize)
        } else {
            truth_at(&self.queries, (word - (1 << 63)) as usize)
        }
    }
}
