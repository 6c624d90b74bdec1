// Lists that grow.
ghost use Rattle.std.specs.Prelude.{◌≡◌, ◌≤◌, ◌+◌, [], ◌∷◌, ◌++◌, OnErr, OnOk, length};

use rag_io::Memory;

/// Adds an item last.
pub(crate) fn push<T: Drop>(list: &mut Vec<T>, item: T) -> Result<(), Memory>
    ensures added { OnOk result (list.new.items ≡ list.old.items ++ item ∷ []) }
    ensures kept { OnErr result (list.new.items ≡ list.old.items) }
    ensures few { length list.new.items ≤ length list.old.items + 1 }
{
    list.push(item).map_err(|_| Memory)
}
