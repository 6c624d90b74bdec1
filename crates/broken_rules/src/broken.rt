// Broken rules and their order.
ghost use Rattle.std.specs.Prelude.{◌≡◌};
ghost use Rattle.broken_rules.specs.Order.{broken_cmp, is_before};
ghost use Rattle.broken_rules.specs.declared.broken.ReadFault.TheVariants.{Memory as WantOfMemory};

use crate::rule::Rule;
use rag_io::{Memory, Place};
use std::alloc::{AllocError, AllocFailed};

/// A broken rule, and where it is broken.
#[derive(Clone, Copy, Debug, PartialEq, Eq)]
pub struct Broken {
    pub place: Place,
    pub rule: Rule,
}

impl Broken {
    /// Whether this one counts before the other: by line, then by column, and at one place by the rules' order.
    #[tactic(auto, unfolding(crate::specs::Order::broken_cmp))]
    pub fn is_before(&self, other: &Broken) -> bool
        ensures { result ≡ is_before self.now other.now }
    {
        if self.place.line != other.place.line {
            return self.place.line < other.place.line;
        }
        if self.place.column != other.place.column {
            return self.place.column < other.place.column;
        }
        self.rule.number() < other.rule.number()
    }
}

/// Why a reader gave nothing.
#[derive(Clone, Copy, Debug, PartialEq, Eq)]
pub enum ReadFault {
    /// The input breaks rules, and this is the first broken one.
    Broken(Broken),
    /// There is no memory for what is read.
    Memory,
}

impl From<Memory> for ReadFault {
    ghost from_gives = { λ _ e. e ≡ WantOfMemory };

    fn from(_: Memory) -> Self {
        ReadFault::Memory
    }
}

impl From<AllocError> for ReadFault {
    ghost from_gives = { λ _ e. e ≡ WantOfMemory };

    fn from(_: AllocError) -> Self {
        ReadFault::Memory
    }
}

impl<T: Drop> From<AllocFailed<T>> for ReadFault {
    ghost from_gives = { λ _ e. e ≡ WantOfMemory };

    fn from(_: AllocFailed<T>) -> Self {
        ReadFault::Memory
    }
}
