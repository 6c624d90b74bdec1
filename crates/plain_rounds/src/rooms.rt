// How far values may still go in inner rounds.
ghost use Rattle.std.specs.Prelude.{◌≤◌, All};
ghost use Rattle.equation_law.specs.declared.system.System.{System as KeptSystem};
ghost use Rattle.equation_law.specs.Codes.{AreElements};
ghost use Rattle.equation_law.specs.Systems.{program_of};
ghost use Rattle.plain_rounds.specs.Places.{IsHeld};
ghost use Rattle.plain_rounds.specs.Rooms.{AreRoomsOf, HasLowValue, IsHeightOf, IsRoomOf, top};
ghost use Rattle.plain_rounds.specs.Rooms as spec;

use crate::values::NamedValue;
use equation_law::Value;
use set_values::count;

/// More elements than a set can have in memory.
const TOP: u128 = 18_446_744_073_709_551_616;

/// How high a value is: 1 for true, and for a set how many elements it has.
fn height(value: &Value) -> usize
    ensures { (system : KeptSystem) → AreElements (program_of system) value.now → IsHeightOf (program_of system) value.now result }
{
    if value.truth() { 1 } else { count(value) }
}

/// How far a value may still go: it may rise until it has `TOP` elements, and then be dropped.
fn room(held: &Option<NamedValue>) -> u128
    ensures room { (system : KeptSystem) → IsHeld (program_of system) held.now → IsRoomOf (program_of system) held.now result }
    ensures low { (system : KeptSystem) → IsHeld (program_of system) held.now → HasLowValue (program_of system) held.now }
    ensures most { result ≤ top }
{
    match held {
        Some(held) => TOP - height(&held.value) as u128,
        None => 0,
    }
}

/// How far all of them may still go, added up.
pub(crate) fn rooms(values: &[Option<NamedValue>]) -> u128
    ensures { (system : KeptSystem) → All (IsHeld (program_of system)) values.now → AreRoomsOf (program_of system) values.now result }
{
    let mut total = 0;
    for value in values {
        total += room(value);
    }
    total
}
