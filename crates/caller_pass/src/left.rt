// What an evaluation leaves behind where it stops.
ghost use Rattle.std.specs.Prelude.{◌≡◌, IfNone, IfSome, None};
ghost use Rattle.caller_pass.specs.Leaving.{LeavesNothing};

use collection_attrs::Survey;
use expr_eval::Saved;
use std::alloc::Global;

/// What the evaluation of an instance leaves behind where it stops: how far forms over elements have gone in the expression at which it stopped,
/// and, where the instance is a collection, how far that has gone over its offers.
#[derive(Drop)]
pub(crate) struct Left<'a> {
    pub saved: Saved<'a>,
    pub survey: Option<Survey>,
}

/// Takes what an evaluation left behind, or begins with nothing.
pub(crate) fn take_left<'a>(alloc: Global, left: &mut Option<Left<'a>>) -> Left<'a>
    ensures gone { left.new ≡ None }
    ensures own { IfSome left.old (λ l. result ≡ l) }
    ensures nothing { IfNone left.old (LeavesNothing result) }
{
    match left.take() {
        Some(left) => left,
        None => Left {
            saved: Saved::new(alloc),
            survey: None,
        },
    }
}

/// What an evaluation left behind, if that is anything.
pub(crate) fn unless_empty(left: Left<'_>) -> Option<Left<'_>>
    ensures own { IfSome result (λ l. l ≡ left.entry) }
    ensures nothing { IfNone result (LeavesNothing left.entry) }
{
    if left.saved.is_empty() && left.survey.is_none() {
        return None;
    }
    Some(left)
}
