// Symbols and productions.
ghost use Rattle.std.specs.Prelude.{◌≡◌};
ghost use Rattle.ll_parser.specs.declared.symbols.ParseFault.TheVariants.{OutOfMemory};

use std::alloc::{AllocError, AllocFailed};

/// What a production is made of. Classes of tokens are below 63, and 0 is the end of the file; the events of
/// actions are below 255.
#[derive(Clone, Copy, Debug)]
pub enum Symbol {
    /// A token of this class.
    Terminal(u8),
    /// What this nonterminal derives.
    Nonterminal(u8),
    /// No tokens, and this event.
    Action(u8),
}

/// Productions, and the production for each nonterminal at each token.
#[derive(Clone, Copy, Debug)]
pub struct Table<'a> {
    /// The nonterminal of each production.
    pub of: &'a [u8],
    /// Where the body of each production begins in `bodies`, and where the last one ends.
    pub starts: &'a [u16],
    /// The bodies one behind the other, each from its last symbol to its first.
    pub bodies: &'a [Symbol],
    /// For each nonterminal 64 numbers of productions, by the class of the next token; 255 is none.
    pub choice: &'a [u8],
}

/// What one step did.
#[derive(Clone, Copy, Debug)]
pub(crate) enum Step {
    Goes,
    Shifts,
    Stops,
}

/// Want of memory within a step.
#[derive(Clone, Copy, Debug)]
pub(crate) struct Memory;

/// Why tokens were not read.
#[derive(Clone, Copy, Debug, PartialEq, Eq)]
pub enum ParseFault {
    /// The tokens up to and with the one of this index begin no sentence, and those before it begin one.
    At(usize),
    /// Want of memory.
    OutOfMemory,
}

impl<T: Drop> From<AllocFailed<T>> for Memory {
    fn from(_: AllocFailed<T>) -> Self {
        Memory
    }
}

impl From<AllocError> for Memory {
    fn from(_: AllocError) -> Self {
        Memory
    }
}

impl From<Memory> for ParseFault {
    ghost from_gives = { λ _ e. e ≡ OutOfMemory };

    fn from(_: Memory) -> Self {
        ParseFault::OutOfMemory
    }
}

impl<T: Drop> From<AllocFailed<T>> for ParseFault {
    ghost from_gives = { λ _ e. e ≡ OutOfMemory };

    fn from(_: AllocFailed<T>) -> Self {
        ParseFault::OutOfMemory
    }
}
