// Noting the values of a local set that is sealed.
ghost use Rattle.std.specs.Prelude.{◌≡◌};
ghost use Rattle.circular_eval.specs.Advancing.{AnswersTurnAt};
ghost use Rattle.circular_eval.specs.Local.{IsLocalAt};
ghost use Rattle.caller_pass.specs.Holding.{IsProgramAt, IsSealedBy};

use crate::desk::Desk;
use circular_eval::{CircFault, CircTurn, Local};
use expr_eval::kind_of;

/// Notes the value of each member of a sealed local set that is of a set type. No word is read for it.
fn note_members(desk: &mut Desk<'_>, local: &Local<'_>)
    requires program { IsProgramAt desk.old }
    requires local { IsLocalAt desk.old local.now }
    requires sealed { IsSealedBy desk.old local.now }
    ensures { desk.new ≡ desk.old }
{
    for number in 0..local.len() {
        if let Some((i, value)) = local.value_at(number) {
            let kind = kind_of(desk.system, &i);
            desk.note_set(i, kind, value);
        }
    }
}

/// Notes the values of a local set, if it was sealed when it went on.
pub(crate) fn note_sealed(
    desk: &mut Desk<'_>,
    local: &Local<'_>,
    turn: &Result<CircTurn, CircFault>,
)
    requires program { IsProgramAt desk.old }
    requires local { IsLocalAt desk.old local.now }
    requires answer { AnswersTurnAt desk.old desk.old local.now turn.now }
    ensures { desk.new ≡ desk.old }
{
    if let Ok(CircTurn::Closed) = turn {
        note_members(desk, local);
    }
}
