// Contributions by the collection that they are for.
ghost use Rattle.std.specs.Prelude.{◌≡◌, ◌+◌, ◌<◌, ◌≤◌, ◌^◌, ◌++◌, ◌∷◌, [], IfNone, IfOk, IfSome, OnOk, length, map, nat_lt};
ghost use Rattle.groups.specs.Groups.{AreWithin};
ghost use Rattle.attr_equations.specs.Offered.{AreBelow, AreRising, AreGrouped, IsFirstFrom, key_of};

use crate::contributions::KeptContribution;
use attr_rules::AttrId;
use groups::Groups;
use rag_io::Memory;
use std::alloc::Global;

fn greater(a: u32, b: u32) -> u32
    ensures first { a ≤ result }
    ensures second { b ≤ result }
{
    a.max(b)
}

// How many groups there have to be for an attribute to have one.
fn behind(attr: AttrId) -> u32
    ensures { result ≡ attr.0 + 1 }
{
    u32::from(attr.0) + 1
}

// How many groups there have to be.
fn groups_for(contributions: &[KeptContribution]) -> u32
    ensures { AreWithin (map key_of contributions.now) result }
{
    let mut groups = 0;
    for number in 0..contributions.len() {
        groups = greater(groups, behind(contributions[number].numbers.target));
    }
    groups
}

fn push(keys: &mut Vec<Option<u32>>, key: Option<u32>) -> Result<(), Memory>
    ensures { OnOk result (keys.new.items ≡ keys.old.items ++ key ∷ []) }
{
    keys.push(key).map_err(|_| Memory)
}

// The groups in which the numbers of contributions stand.
fn keys_of(alloc: Global, contributions: &[KeptContribution]) -> Result<Vec<Option<u32>>, Memory>
    ensures { IfOk result (λ keys. keys.items ≡ map key_of contributions.now) }
{
    let mut keys = Vec::new(alloc);
    for number in 0..contributions.len() {
        push(
            &mut keys,
            Some(u32::from(contributions[number].numbers.target.0)),
        )?;
    }
    Ok(keys)
}

/// The numbers of contributions, in groups by the attribute that they are for. It takes linear time.
pub(crate) fn grouped(alloc: Global, contributions: &[KeptContribution]) -> Result<Groups, Memory>
    requires { length contributions.now < 2 ^ 32 }
    ensures { IfOk result (AreGrouped contributions.now) }
{
    let keys = keys_of(alloc, contributions)?;
    Groups::of(alloc, &keys, groups_for(contributions))
}

/// The first of some numbers, which rise, that isn't below another one. It takes logarithmic time.
pub(crate) fn first_from(numbers: &[u32], from: u32) -> Option<u32>
    requires { AreRising numbers.now }
    ensures some { IfSome result (IsFirstFrom numbers.now from) }
    ensures none { IfNone result (AreBelow numbers.now from) }
{
    let place = numbers.partition_point(
        |number: &u32| -> bool
            ensures { result ≡ nat_lt number.now from }
        { *number < from },
    );
    if place < numbers.len() {
        Some(numbers[place])
    } else {
        None
    }
}
