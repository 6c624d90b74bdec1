// Claiming the cell of an instance, and whether it is new.
ghost use Rattle.std.specs.Prelude.{IfOk, OnErr};
ghost use Rattle.memo_cells.specs.Working.{ClaimsKeysAt, GoesOn, IsCellAt, IsCodedAt, IsInstanceAt, IsKnownAt, IsOwn, LacksCellAt, ReadsOn};

use equation_law::Instance;
use memo_cells::{CellsFull, Key, Slot, Work, claim_instance};

/// The cell of an instance, and whether nobody had claimed it.
#[derive(Clone, Copy)]
pub(crate) struct Opened {
    pub slot: Slot,
    pub is_new: bool,
}

/// Whether nobody claimed the first key on the way to an instance.
fn is_unclaimed<W: Work>(work: &mut W, i: Instance) -> bool
    requires own { IsOwn (W.held work.old) }
    ensures on { ReadsOn (W.held work.old) (W.held work.new) }
{
    let key = match i {
        Instance::Attr { attr, node, .. } => Key::Inst { attr, node },
        Instance::Query(query) => Key::Query(query),
    };
    work.seek(key).is_none()
}

/// The same as `claim_instance`, with whether the cell is new.
pub(crate) fn open_cell<W: Work>(work: &mut W, i: Instance) -> Result<Opened, CellsFull>
    requires own { IsOwn (W.held work.old) }
    requires instance { IsInstanceAt (W.held work.old) i }
    requires coded { IsCodedAt (W.held work.old) i }
    requires known { IsKnownAt (W.held work.old) i }
    ensures on { GoesOn (W.held work.old) (W.held work.new) }
    ensures slot { IfOk result (λ o. IsCellAt (W.held work.old) (W.held work.new) i o.slot.0) }
    ensures full { OnErr result (LacksCellAt (W.held work.old) (W.held work.new) i) }
    ensures claims { ClaimsKeysAt (W.held work.old) (W.held work.new) i }
{
    let is_new = is_unclaimed(work, i);
    let slot = claim_instance(work, i)?;
    Ok(Opened { slot, is_new })
}
