// The cells of instances: one key for the attribute at the node, and one for each argument.
ghost use Rattle.std.specs.Prelude.{◌<◌, IfOk, IfSome, OnErr};
ghost use Rattle.equation_law.specs.declared.coding.Instance.TheVariants.{Attr as attribute_at};
ghost use Rattle.memo_cells.specs.Working.{ClaimsKeysAt, FindsCell, GoesOn, HasCell, IsCellAt, IsCodedAt, IsInstanceAt, IsItsCell, IsKnownAt, IsOwn, IsPlainAt, LacksCellAt, MissesCell, ReadsOn, WhyNoCell};

use crate::calls::CellsFull;
use crate::keys::{Key, Slot};
use crate::work::{Words, Work};
use attr_rules::AttrId;
use equation_law::{Args, Instance, NodeRef};

/// The slot of an attribute at a node with arguments.
fn claim_attribute<W: Work>(
    work: &mut W,
    attr: AttrId,
    node: NodeRef,
    args: Args,
) -> Result<Slot, CellsFull>
    requires own { IsOwn (W.held work.old) }
    requires instance { IsInstanceAt (W.held work.old) (attribute_at attr node args) }
    requires coded { IsCodedAt (W.held work.old) (attribute_at attr node args) }
    requires known { IsKnownAt (W.held work.old) (attribute_at attr node args) }
    ensures on { GoesOn (W.held work.old) (W.held work.new) }
    ensures slot { IfOk result (λ s. IsCellAt (W.held work.old) (W.held work.new) (attribute_at attr node args) s.0) }
    ensures full { OnErr result (LacksCellAt (W.held work.old) (W.held work.new) (attribute_at attr node args)) }
    ensures claims { ClaimsKeysAt (W.held work.old) (W.held work.new) (attribute_at attr node args) }
{
    let mut slot = work.claim(Key::Inst { attr, node })?;
    let mut place = 0;
    while let Some(code) = args.code_at(place) {
        slot = work.claim(Key::Arg { slot, code })?;
        place += 1;
    }
    Ok(slot)
}

/// The one slot of an instance of the system, claimed where it wasn't, with those on the way to it, of which there is one for each
/// argument. It refuses only where other keys have all the cells than one of these.
pub fn claim_instance<W: Work>(work: &mut W, i: Instance) -> Result<Slot, CellsFull>
    requires own { IsOwn (W.held work.old) }
    requires instance { IsInstanceAt (W.held work.old) i }
    requires coded { IsCodedAt (W.held work.old) i }
    requires known { IsKnownAt (W.held work.old) i }
    ensures on { GoesOn (W.held work.old) (W.held work.new) }
    ensures slot { IfOk result (λ s. IsCellAt (W.held work.old) (W.held work.new) i s.0) }
    ensures full { OnErr result (LacksCellAt (W.held work.old) (W.held work.new) i) }
    ensures claims { ClaimsKeysAt (W.held work.old) (W.held work.new) i }
{
    match i {
        Instance::Attr { attr, node, args } => claim_attribute(work, attr, node, args),
        Instance::Query(query) => work.claim(Key::Query(query)),
    }
}

/// The slot of an attribute at a node with arguments, if it is claimed.
fn seek_attribute<W: Words>(work: &mut W, attr: AttrId, node: NodeRef, args: Args) -> Option<Slot>
    ensures on { ReadsOn (W.held work.old) (W.held work.new) }
    ensures slot { FindsCell (W.held work.old) (W.held work.new) (attribute_at attr node args) result }
    ensures its { IfSome result (λ s. IsItsCell (W.held work.old) (W.held work.new) (attribute_at attr node args) s.0) }
    ensures none { MissesCell (W.held work.old) (W.held work.new) (attribute_at attr node args) result }
    ensures cause { WhyNoCell (W.held work.old) (W.held work.new) (attribute_at attr node args) result }
    ensures place { IfSome result (λ s. s.0 < (W.held work.old).frame.cells) }
    ensures plain { IfSome result (λ s. IsPlainAt (W.held work.new) s.0) }
    ensures cell { IfSome result (λ s. HasCell (W.held work.new) s.0) }
{
    let mut slot = work.seek(Key::Inst { attr, node })?;
    let mut place = 0;
    while let Some(code) = args.code_at(place) {
        slot = work.seek(Key::Arg { slot, code })?;
        place += 1;
    }
    Some(slot)
}

/// The one slot of a well coded instance, or None where it isn't claimed: never for one whose cell was seen claimed. It claims nothing. A slot that is
/// found is that of some instance, if this one isn't well coded.
pub fn seek_instance<W: Words>(work: &mut W, i: Instance) -> Option<Slot>
    ensures on { ReadsOn (W.held work.old) (W.held work.new) }
    ensures slot { FindsCell (W.held work.old) (W.held work.new) i result }
    ensures its { IfSome result (λ s. IsItsCell (W.held work.old) (W.held work.new) i s.0) }
    ensures none { MissesCell (W.held work.old) (W.held work.new) i result }
    ensures cause { WhyNoCell (W.held work.old) (W.held work.new) i result }
    ensures place { IfSome result (λ s. s.0 < (W.held work.old).frame.cells) }
    ensures plain { IfSome result (λ s. IsPlainAt (W.held work.new) s.0) }
    ensures cell { IfSome result (λ s. HasCell (W.held work.new) s.0) }
{
    match i {
        Instance::Attr { attr, node, args } => seek_attribute(work, attr, node, args),
        Instance::Query(query) => work.seek(Key::Query(query)),
    }
}
