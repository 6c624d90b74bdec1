// For each receiver where the last entry with it stands.
ghost use Rattle.std.specs.Prelude.{◌≡◌, ◌⊎◌, ◌+◌, ◌++◌, ◌∷◌, ◌^◌, ◌<◌, [], ℕ, IfOk, OnErr, OnOk, Some, cond, eqb, length, slice_get};
ghost use Rattle.equation_law.specs.declared.coding.NodeRef.{NodeRef as Node};
ghost use Rattle.collection_attrs.specs.declared.lasts.Spot.{Spot as Kept};
ghost use Rattle.collection_attrs.specs.Spots.{IsTree, Leads, below_of, hung, last_of};

use equation_law::NodeRef;
use rag_io::Memory;

/// A spot: a receiver, where the last entry with it stands, and which spots stand below this one, by their places: one for what is even, and one for
/// what is odd; 0 where there is none. The spots are a digital search tree. From the first spot, which stands below none, a receiver is looked for by
/// its code: where the spot is another's, on to the one below for the code, and with half of it. A code has 32 bits, so there are at most 33 steps,
/// whatever the codes.
#[derive(Clone, Copy)]
pub(crate) struct Spot {
    pub(crate) receiver: NodeRef,
    pub(crate) last: u32,
    pub(crate) even: u32,
    pub(crate) odd: u32,
}

/// The spot below for what is left of a code.
fn below(spot: Spot, left: u32) -> u32
    ensures { result ≡ below_of spot left }
{
    if left % 2 == 0 { spot.even } else { spot.odd }
}

/// A spot with another below it for what is left of a code.
fn with_below(spot: Spot, left: u32, place: u32) -> Spot
    ensures { result ≡ hung spot left place }
{
    if left % 2 == 0 {
        Spot {
            even: place,
            ..spot
        }
    } else {
        Spot { odd: place, ..spot }
    }
}

/// Where the way of a receiver ends: at its spot, or where none stands below for what is left of its code.
fn way_end(spots: &[Spot], receiver: NodeRef) -> (u32, u32)
    requires tree { IsTree spots.now }
    requires some { 0 < length spots.now }
    ensures within { result.0 < length spots.now }
    ensures led { Leads spots.now 0 receiver.0 result.0 result.1 }
    ensures still { (i : ℕ) (s : Kept) → slice_get spots.now i ≡ Some s → s.receiver.0 ≡ receiver.0 → (left : ℕ) × Leads spots.now result.0 result.1 i left }
    ensures ended { (s : Kept) → slice_get spots.now result.0 ≡ Some s → (s.receiver.0 ≡ receiver.0) ⊎ (below_of s result.1 ≡ 0) }
{
    let mut at = 0;
    let mut left = receiver.0;
    'down: loop {
        let spot = spots[at as usize];
        if spot.receiver.0 == receiver.0 {
            return (at, left);
        }
        let next = below(spot, left);
        if next == 0 {
            return (at, left);
        }
        at = next;
        left /= 2;
    }
}

/// Where the last entry with a receiver stands, if there is one.
pub(crate) fn last_for(spots: &[Spot], receiver: NodeRef) -> Option<u32>
    requires { IsTree spots.now }
    ensures { result ≡ last_of spots.now receiver }
{
    if spots.is_empty() {
        return None;
    }
    let (at, _) = way_end(spots, receiver);
    let spot = spots[at as usize];
    if spot.receiver.0 != receiver.0 {
        return None;
    }
    Some(spot.last)
}

/// The place behind some spots, where one more has a number of 32 bits.
fn behind(spots: &[Spot]) -> Result<u32, Memory>
    ensures { IfOk result (λ place. (place ≡ length spots.now) × (place + 1 < 2 ^ 32)) }
{
    match u32::try_from(spots.len()) {
        Ok(place) if place < u32::MAX => Ok(place),
        _ => Err(Memory),
    }
}

/// Puts a spot behind the others, below none.
fn append(spots: &mut Vec<Spot>, spot: Spot) -> Result<(), Memory>
    ensures appended { OnOk result (spots.new.items ≡ spots.old.items ++ spot ∷ []) }
    ensures stays { OnErr result (spots.new.items ≡ spots.old.items) }
{
    spots.push(spot).map_err(|_| Memory)
}

/// Keeps where the last entry with a receiver stands. Without memory for it nothing changes.
pub(crate) fn put(spots: &mut Vec<Spot>, receiver: NodeRef, last: u32) -> Result<(), Memory>
    requires { IsTree spots.old.items }
    ensures tree { IsTree spots.new.items }
    ensures put { OnOk result ((n : Node) → last_of spots.new.items n ≡ cond (eqb receiver.0 n.0) (Some last) (last_of spots.old.items n)) }
    ensures stays { OnErr result (spots.new.items ≡ spots.old.items) }
{
    let new = Spot {
        receiver,
        last,
        even: 0,
        odd: 0,
    };
    let place = behind(spots)?;
    if place == 0 {
        return append(spots, new);
    }
    let (at, left) = way_end(spots, receiver);
    let spot = spots[at as usize];
    if spot.receiver.0 == receiver.0 {
        spots[at as usize] = Spot { last, ..spot };
        return Ok(());
    }
    append(spots, new)?;
    spots[at as usize] = with_below(spot, left, place);
    Ok(())
}
