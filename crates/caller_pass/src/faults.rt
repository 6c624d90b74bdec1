// Why an instance has no answer.

use circular_eval::CircFault;
use equation_law::{Chain, Instance};
use memo_cells::CellsFull;
use rag_io::Memory;

/// Why an instance has no answer.
#[derive(Drop)]
pub enum AskFault {
    /// Its demand leads back to `on`, which stands twice in the chain that begins with the instance.
    Circular { on: Instance, chain: Chain },
    /// All cells have keys, and none of them is that of an instance that is demanded, or of a word of its set.
    CellsFull,
    /// Want of memory.
    Memory,
}

impl From<Memory> for AskFault {
    ghost use Rattle.std.specs.Prelude.{◌≡◌};
    ghost use Rattle.caller_pass.specs.declared.faults.AskFault.TheVariants.{Memory as NoMemory};

    ghost from_gives = { λ _ fault. fault ≡ NoMemory };

    fn from(_: Memory) -> AskFault {
        AskFault::Memory
    }
}

impl From<CellsFull> for AskFault {
    ghost use Rattle.std.specs.Prelude.{◌≡◌};
    ghost use Rattle.caller_pass.specs.declared.faults.AskFault.TheVariants.{CellsFull as Full};

    ghost from_gives = { λ _ fault. fault ≡ Full };

    fn from(_: CellsFull) -> AskFault {
        AskFault::CellsFull
    }
}

impl From<CircFault> for AskFault {
    ghost use Rattle.caller_pass.specs.Answering.{IsSameFault};

    ghost from_gives = { λ from fault. IsSameFault from fault };

    fn from(fault: CircFault) -> AskFault {
        match fault {
            CircFault::CellsFull => AskFault::CellsFull,
            CircFault::Memory => AskFault::Memory,
        }
    }
}
