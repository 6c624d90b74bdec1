// The walk over what is offered to a collection in the subtree of a root.
ghost use Rattle.std.specs.Prelude.{◌≡◌, ◌+◌, ◌^◌, ◌<◌, ◌≤◌, IfNone, IfSome, None, OnErr, OnOk, Some, length, slice_get};
ghost use Rattle.tree_arena.specs.Nodes.{end_in};
ghost use Rattle.equation_law.specs.Systems.{program_of};
ghost use Rattle.collection_attrs.specs.Surveys.{noted_in};
ghost use Rattle.collection_attrs.specs.Walks.{IsFirstFor, IsStanding, MayGoOn, NoneFrom, StandsBefore, new_walk, one_further, passed_by};

use crate::lasts::{Spot, last_for};
use crate::linking::{Entry, link, told};
use crate::seeking::next_from;
use attr_rules::AttrId;
use equation_law::{NodeRef, System};
use rag_io::Memory;
use std::alloc::Global;
use std::marker::Model;

/// The walk over what is offered to one collection in the subtree of one root: how far it has come, and the offers that it passed whose condition is
/// true, those with one receiver in a ring. The instances of the collection whose root this is share it, so conditions and receivers are evaluated once.
#[derive(Drop)]
pub struct Offers {
    attr: AttrId,
    root: u32,
    node: u32,
    contribution: u32,
    entries: Vec<Entry>,
    lasts: Vec<Spot>,
}

impl Model for Offers {
    ghost use Rattle.std.specs.Prelude.{map};
    ghost use Rattle.collection_attrs.specs.Spots.{IsTree, last_of};
    ghost use Rattle.collection_attrs.specs.Surveys.{AreChained, noted_in};
    ghost use Rattle.collection_attrs.specs.Walks.{Walk};

    ghost Value = { Walk };

    ghost view = { λ o. record { attribute = o.attr.0; root = o.root; node = o.node; contribution = o.contribution; notes = map noted_in o.entries.items } };

    ghost invariant = { λ o. AreChained o.entries.items (last_of o.lasts.items) × IsTree o.lasts.items };
}

impl Offers {
    /// A walk that begins. It takes no memory.
    pub fn new(alloc: Global, attr: AttrId, root: u32) -> Offers
        ensures { result ≡ new_walk attr.0 root }
    {
        Offers {
            attr,
            root,
            node: root,
            contribution: 0,
            entries: Vec::new(alloc),
            lasts: Vec::new(alloc),
        }
    }

    /// The attribute.
    pub fn attr(&self) -> AttrId
        ensures { result.0 ≡ self.now.attribute }
    {
        self.attr
    }

    /// The root of the subtree.
    pub fn root(&self) -> u32
        ensures { result ≡ self.now.root }
    {
        self.root
    }

    /// The number of offers that are kept.
    pub fn len(&self) -> usize
        ensures { result ≡ length self.now.notes }
    {
        self.entries.len()
    }

    /// An offer that is kept.
    pub(crate) fn entry(&self, place: u32) -> Entry
        requires { place < length self.now.notes }
        ensures { slice_get self.now.notes place ≡ Some (noted_in result) }
    {
        self.entries[place as usize]
    }

    /// The first offer from a place on with this receiver, if one is kept, where the place is 0 or stands behind an offer with the receiver. It takes
    /// constant time.
    pub(crate) fn next_for(&self, receiver: NodeRef, from: u32) -> Option<u32>
        requires { from ≤ length self.now.notes }
        ensures few { IfSome result (λ k. k + 1 < 2 ^ 32) }
        ensures within { IfSome result (λ k. (from ≤ k) × (k < length self.now.notes)) }
        ensures some { IfSome result (λ k. MayGoOn self.now.notes receiver.0 from → IsFirstFor self.now.notes receiver.0 from k) }
        ensures none { IfNone result (MayGoOn self.now.notes receiver.0 from → NoneFrom self.now.notes receiver.0 from) }
    {
        if from == 0 {
            return Some(told(&self.entries, last_for(&self.lasts, receiver)?));
        }
        let next = told(&self.entries, from - 1);
        if next < from {
            return None;
        }
        Some(next)
    }

    /// Goes on to the next offer of the subtree that was not passed yet: its node and its contribution, by its number. None at the end of the
    /// subtree, where the room to spare is given back. It takes no memory.
    pub(crate) fn seek(&mut self, system: &System) -> Option<(u32, u32)>
        requires { IsStanding (program_of system.now) self.old }
        ensures same { (self.new.attribute ≡ self.old.attribute) × (self.new.root ≡ self.old.root) × (self.new.notes ≡ self.old.notes) }
        ensures stands { IsStanding (program_of system.now) self.new }
        ensures passed { passed_by (program_of system.now) self.new ≡ passed_by (program_of system.now) self.old }
        ensures few { IfSome result (λ at. (at.0 + 1 < 2 ^ 32) × (at.1 + 1 < 2 ^ 32)) }
        ensures some { IfSome result (StandsBefore (program_of system.now) self.new) }
        ensures none { IfNone result (self.new.node ≡ end_in (program_of system.now).tree self.new.root) }
    {
        let end = system.tree().end(self.root);
        match next_from(system, self.attr, self.node, self.contribution, end) {
            Some((node, number)) => {
                self.node = node;
                self.contribution = number;
                Some((node, number))
            }
            None => {
                self.node = end;
                self.contribution = 0;
                self.entries.shrink_to_fit();
                self.lasts.shrink_to_fit();
                None
            }
        }
    }

    /// Passes an offer whose condition is false.
    pub(crate) fn pass(&mut self)
        requires { self.old.contribution + 1 < 2 ^ 32 }
        ensures { self.new ≡ one_further self.old None }
    {
        self.contribution += 1;
    }

    /// Passes one whose condition is true, which is kept with its receiver. Without memory for it the walk stays where it is.
    pub(crate) fn keep(&mut self, receiver: NodeRef) -> Result<(), Memory>
        requires { self.old.contribution + 1 < 2 ^ 32 }
        ensures kept { OnOk result (self.new ≡ one_further self.old (Some receiver.0)) }
        ensures stays { OnErr result (self.new ≡ self.old) }
    {
        link(
            &mut self.entries,
            &mut self.lasts,
            self.node,
            self.contribution,
            receiver,
        )?;
        self.contribution += 1;
        Ok(())
    }
}
