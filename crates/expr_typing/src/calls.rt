// The rules on calls: J9, J10 and J11.
ghost use Rattle.std.specs.Prelude.{◌≡◌};
ghost use Rattle.broken_rules.specs.Notes.{Notes};
ghost use Rattle.expr_typing.specs.Calls.{broken_as, broken_by, first_place, meant, other_count, stray_list};
ghost use Rattle.attr_scope.specs.Seen.{seen_scope};
ghost use Rattle.aspect_items.specs.Expressions.{seen_name};

use crate::sides::place_of;
use aspect_items::{Expr, Name};
use attr_rules::ValueType;
use attr_scope::{Member, Scope};
use broken_rules::{Earliest, Rule};
use rag_io::Place;

/// A call as it is written: its receiver, if it has one, the name, and how many arguments there are.
#[derive(Clone, Copy)]
pub struct Called<'a> {
    pub receiver: Option<&'a Expr>,
    pub name: &'a Name,
    pub count: usize,
    /// Whether it may give a whole list.
    pub range: bool,
}

impl Called<'_> {
    // The place of its first token.
    fn place(&self) -> Place
        ensures { result ≡ first_place self.now }
    {
        match self.receiver {
            Some(receiver) => place_of(receiver),
            None => self.name.place,
        }
    }
}

// J11 at a name that takes another number of arguments.
fn check_count(scope: &Scope<'_>, call: Called<'_>, member: Member, faults: &mut Earliest)
    ensures { Notes (other_count (seen_scope scope.now) member (seen_name call.entry.name.now) call.entry.count) faults.old faults.new }
{
    let is_other = !scope.takes(member, call.count);
    faults.note_if(is_other, Rule::J11, call.name.place);
}

// J10 at a whole list, where none is wanted.
fn check_list(call: Called<'_>, member: Member, faults: &mut Earliest)
    ensures { Notes (stray_list call.entry.range member (first_place call.entry)) faults.old faults.new }
{
    if !call.range && member.is_list() {
        faults.note(Rule::J10, call.place());
    }
}

// J9 at a name that means nothing, and J10 and J11 at one that means something.
fn check_member(scope: &Scope<'_>, call: Called<'_>, member: Option<Member>, faults: &mut Earliest)
    ensures { Notes (broken_as (seen_scope scope.now) member call.entry) faults.old faults.new }
{
    match member {
        None => faults.note(Rule::J9, call.name.place),
        Some(member) => {
            check_count(scope, call, member, faults);
            check_list(call, member, faults);
        }
    }
}

/// J9, J10 and J11 of a call of this member behind a receiver of a type, where that is known: J10 at a receiver that is of no class.
pub fn check_call(
    scope: &Scope<'_>,
    call: Called<'_>,
    receiver: Option<ValueType>,
    member: Option<Member>,
    faults: &mut Earliest,
)
    ensures { member ≡ meant (seen_scope scope.now) receiver call.entry → Notes (broken_by (seen_scope scope.now) receiver call.entry) faults.old faults.new }
{
    let Some(receiver) = receiver else { return };
    if receiver.class().is_none() {
        faults.note(Rule::J10, call.place());
        return;
    }
    check_member(scope, call, member, faults);
}
