// The values of a local set.
ghost use Rattle.std.specs.Prelude.{◌≤◌, IfNone, IfSome, length};
ghost use Rattle.circular_eval.specs.Sealed.{IsMemberAt};

use crate::local::Local;
use equation_law::{Instance, Value};

impl Local<'_> {
    /// A member by its number, and its value. There is none where there aren't so many.
    pub fn value_at(&self, number: usize) -> Option<(Instance, &Value)>
        ensures some { IfSome result (λ x. IsMemberAt self.now.members.entries number x.0 x.1.now) }
        ensures none { IfNone result (length self.now.members.entries ≤ number) }
    {
        let (instance, member) = self.member(number)?;
        Some((*instance, &member.value))
    }
}
