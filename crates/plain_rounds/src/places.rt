// Where the instances of a list stand in it.
ghost use Rattle.std.specs.Prelude.{◌≡◌, All, Some, None, IfOk, IfSome, cond};
ghost use Rattle.solutions.specs.Rounds.{or_else};
ghost use Rattle.equation_law.specs.declared.coding.Instance.{Instance as CodedInstance};
ghost use Rattle.equation_law.specs.Program.{Program};
ghost use Rattle.plain_rounds.specs.Places.{IsHeld, IsRead, first_place, found, kept_place, same_code};
ghost use Rattle.plain_rounds.specs.Places as specs;

use crate::values::NamedValue;
use equation_law::Instance;
use rag_io::Memory;
use std::alloc::Global;
use std::collections::HashMap;

/// The first place of each instance of a list.
#[derive(Drop)]
pub(crate) struct Places {
    map: HashMap<Instance, usize>,
}

/// Keeps the place of an instance, unless one is kept already.
fn keep_first(
    map: &mut HashMap<Instance, usize>,
    name: Instance,
    place: usize,
) -> Result<(), Memory>
    ensures { IfOk result (λ _. (q : CodedInstance) → kept_place map.new q ≡ or_else (kept_place map.old q) (cond (same_code name q) (Some place) None)) }
{
    if map.contains_key(&name) {
        return Ok(());
    }
    match map.insert(name, place) {
        Ok(_) => Ok(()),
        Err(_) => Err(Memory),
    }
}

/// The value at a place, if there are such a place and a value.
fn value_on(values: &[Option<NamedValue>], place: usize) -> Option<&NamedValue>
    ensures value { IsRead result (λ p n. specs.value_on p n values.now place) }
    ensures held { (p : Program) → All (IsHeld p) values.now → IfSome result (λ value. IsHeld p (Some value.now)) }
{
    match values.get(place) {
        Some(Some(held)) => Some(held),
        Some(None) => None,
        None => None,
    }
}

impl Places {
    /// Those of no names. It takes no memory.
    pub(crate) fn none(alloc: Global) -> Places
        ensures { (q : CodedInstance) → kept_place result.map q ≡ None }
    {
        Places {
            map: HashMap::new(alloc),
        }
    }

    /// The places in these names.
    pub(crate) fn of_names(alloc: Global, names: &[Instance]) -> Result<Places, Memory>
        ensures { IfOk result (λ p. (q : CodedInstance) → kept_place p.map q ≡ first_place names.now q) }
    {
        let mut map = HashMap::new(alloc);
        for (k, name) in names.iter().enumerate() {
            keep_first(&mut map, *name, k)?;
        }
        Ok(Places { map })
    }

    /// The value that stands at the first place of an instance, if there are such a place and a value.
    pub(crate) fn value<'a>(
        &self,
        values: &'a [Option<NamedValue>],
        name: Instance,
    ) -> Option<&'a NamedValue>
        ensures value { IsRead result (λ p n. found p n self.now.map values.now name) }
        ensures held { (p : Program) → All (IsHeld p) values.now → IfSome result (λ value. IsHeld p (Some value.now)) }
    {
        let place = self.map.get(&name)?;
        value_on(values, *place)
    }
}
