// Entries of a walk: those with one receiver are a ring.
ghost use Rattle.std.specs.Prelude.{◌≡◌, ◌+◌, ◌++◌, ◌∷◌, ◌^◌, ◌<◌, [], IfNone, IfOk, IfSome, OnErr, OnOk, Some, length, map, slice_get};
ghost use Rattle.collection_attrs.specs.declared.linking.Entry.{Entry as Kept};
ghost use Rattle.collection_attrs.specs.Spots.{IsTree, last_of};
ghost use Rattle.collection_attrs.specs.Surveys.{AreChained, TellsNext, note_of, noted_in};

use crate::lasts::{Spot, last_for, put};
use equation_law::NodeRef;
use rag_io::Memory;

/// An offer whose condition is true: its node, its contribution, its receiver, and the place of the next entry with this receiver. The last one tells
/// the first.
#[derive(Clone, Copy)]
pub(crate) struct Entry {
    pub(crate) node: u32,
    pub(crate) contribution: u32,
    pub(crate) receiver: NodeRef,
    pub(crate) next: u32,
}

/// What an entry tells.
pub(crate) fn told(entries: &[Entry], place: u32) -> u32
    requires { place < length entries.now }
    ensures { (x : Kept) → slice_get entries.now place ≡ Some x → result ≡ x.next }
{
    entries[place as usize].next
}

/// What a new entry at this place tells: what the last one told, or where there is none itself.
fn first_for(entries: &[Entry], before: Option<u32>, place: u32) -> u32
    requires { IfSome before (λ last. last < length entries.now) }
    ensures alone { IfNone before (result ≡ place) }
    ensures first { IfSome before (λ last. (x : Kept) → slice_get entries.now last ≡ Some x → result ≡ x.next) }
{
    match before {
        Some(last) => told(entries, last),
        None => place,
    }
}

/// Tells an entry the next with its receiver.
fn tell(entries: &mut Vec<Entry>, place: u32, next: u32)
    requires { place < length entries.old.items }
    ensures { TellsNext entries.old.items place next entries.new.items }
{
    let mut entry = entries[place as usize];
    entry.next = next;
    entries[place as usize] = entry;
}

/// The place behind some entries, where one more has a number of 32 bits.
fn place_behind(entries: &[Entry]) -> Result<u32, Memory>
    ensures { IfOk result (λ place. (place ≡ length entries.now) × (place + 1 < 2 ^ 32)) }
{
    match u32::try_from(entries.len()) {
        Ok(place) if place < u32::MAX => Ok(place),
        _ => Err(Memory),
    }
}

/// Puts an entry behind the others, and tells none of them.
fn append(entries: &mut Vec<Entry>, entry: Entry) -> Result<(), Memory>
    ensures appended { OnOk result (entries.new.items ≡ entries.old.items ++ entry ∷ []) }
    ensures stays { OnErr result (entries.new.items ≡ entries.old.items) }
{
    entries.push(entry).map_err(|_| Memory)
}

/// Puts an entry behind the others. It tells the first with its receiver, and the last one tells it. Without memory for it nothing changes.
pub(crate) fn link(
    entries: &mut Vec<Entry>,
    lasts: &mut Vec<Spot>,
    node: u32,
    contribution: u32,
    receiver: NodeRef,
) -> Result<(), Memory>
    requires chained { AreChained entries.old.items (last_of lasts.old.items) }
    requires tree { IsTree lasts.old.items }
    ensures chained { AreChained entries.new.items (last_of lasts.new.items) }
    ensures tree { IsTree lasts.new.items }
    ensures kept { OnOk result (map noted_in entries.new.items ≡ map noted_in entries.old.items ++ note_of node contribution receiver ∷ []) }
    ensures stays { OnErr result (map noted_in entries.new.items ≡ map noted_in entries.old.items) }
{
    let place = place_behind(entries)?;
    let before = last_for(lasts, receiver);
    let next = first_for(entries, before, place);
    append(
        entries,
        Entry {
            node,
            contribution,
            receiver,
            next,
        },
    )?;
    match put(lasts, receiver, place) {
        Err(fault) => {
            entries.truncate(place as usize);
            Err(fault)
        }
        Ok(()) => match before {
            Some(last) => {
                tell(entries, last, place);
                Ok(())
            }
            None => Ok(()),
        },
    }
}
