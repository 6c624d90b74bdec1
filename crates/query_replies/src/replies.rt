// The reply lines.
ghost use Rattle.std.specs.Prelude.{◌≡◌, ◌≤◌, ◌<◌, ◌++◌, ◌∷◌, [], Err, IfOk, OnOk, length};
ghost use Rattle.equation_law.specs.Checked.{HasSourcesAlone, IsProgram};
ghost use Rattle.equation_law.specs.Systems.{program_of};
ghost use Rattle.equation_law.specs.Names.{Query};
ghost use Rattle.memo_cells.specs.Claiming.{ClaimsKeys, FillsCells};
ghost use Rattle.memo_cells.specs.Standing.{AreNew, IsPassOf};
ghost use Rattle.memo_cells.specs.Views.{IsAtLeast};
ghost use Rattle.caller_pass.specs.Keeping.{IsNotebookOf};
ghost use Rattle.caller_pass.specs.Overfull.{IsOverfull};
ghost use Rattle.query_replies.specs.Replies.{AreReplies};
ghost use Rattle.query_replies.specs.Replies.{AddsAnswer};

use caller_pass::{AskFault, Notebook, Steps, ask_noted};
use equation_law::{Instance, QueryId, System};
use memo_cells::{Cells, Pass};
use query_lang::add_reply;
use rag_io::{Gate, Memory};
use std::alloc::Global;
use std::marker::Brand;
use std::sync::ledger::{Blank, Ledger};

fn add_line(text: &mut Vec<u8>, line: &[u8]) -> Result<(), Memory>
    ensures { OnOk result (text.new.items ≡ text.old.items ++ (line.now ++ 10 ∷ [])) }
{
    text.extend_from_slice(line).map_err(|_| Memory)?;
    text.push(b'\n').map_err(|_| Memory)?;
    Ok(())
}

/// Why there are no replies.
#[derive(Clone, Copy, Debug, PartialEq, Eq)]
pub enum ReplyFault {
    /// All cells have keys, and more are demanded.
    Cells,
    /// Want of memory.
    Memory,
}

impl From<Memory> for ReplyFault {
    ghost use Rattle.std.specs.Prelude.{◌≡◌};
    ghost use Rattle.query_replies.specs.declared.replies.ReplyFault.TheVariants.{Memory as NoMemory};

    ghost from_gives = { λ _ fault. fault ≡ NoMemory };

    fn from(_: Memory) -> ReplyFault {
        ReplyFault::Memory
    }
}

// The line of a query: the text of its value, or `circular` where it has a loop.
fn add_answer<L: Ledger>(
    alloc: Global,
    system: &System,
    cells: &Cells,
    pass: &mut Pass,
    notes: &mut Notebook,
    query: QueryId,
    text: &mut Vec<u8>,
    evals: &mut Steps<L>,
) -> Result<(), ReplyFault>
    requires program { IsProgram (program_of system.now) }
    requires same { cells.now.system.value ≡ system.now }
    requires own { IsPassOf cells.now pass.old }
    requires notes { IsNotebookOf system.now pass.old notes.old }
    requires query { query.0 < length (program_of system.now).queries }
    ensures own { IsPassOf cells.now pass.new }
    ensures kept { IsAtLeast pass.old pass.new }
    ensures notes { IsNotebookOf system.now pass.new notes.new }
    ensures claims { ClaimsKeys (program_of system.now) (Query query.0) pass.old pass.new }
    ensures line { OnOk result (AddsAnswer (program_of system.now) query.0 text.old.items text.new.items) }
    ensures full { result ≡ Err ReplyFault.Cells → FillsCells (program_of system.now) (Query query.0) cells.now pass.new }
{
    let asked = Instance::Query(query);
    match ask_noted(alloc, system, cells, pass, notes, &asked, evals) {
        Ok(value) => Ok(add_reply(alloc, system, text, &value)?),
        Err(AskFault::Circular { .. }) => Ok(add_line(text, b"circular".as_slice())?),
        Err(AskFault::CellsFull) => Err(ReplyFault::Cells),
        Err(AskFault::Memory) => Err(ReplyFault::Memory),
    }
}

// Adds the lines of all queries, in order.
fn add_answers<L: Ledger, G: Gate>(
    alloc: Global,
    gate: &G,
    system: &System,
    cells: &Cells,
    pass: &mut Pass,
    blank: Blank,
) -> Result<Vec<u8>, ReplyFault>
    requires name { blank.name ≡ L.name }
    requires parts { blank.parts ≡ L.parts }
    requires some { 0 < L.parts }
    requires program { IsProgram (program_of system.now) }
    requires new { AreNew system.now cells.now.cells cells.now pass.old }
    ensures replies { IfOk result (λ text. AreReplies (program_of system.now) 0 (program_of system.now).queries text.items) }
    ensures full { result ≡ Err ReplyFault.Cells → IsOverfull (program_of system.now) cells.now.cells }
{
    let mut evals = Steps::<L>::new(blank);
    let mut notes = Notebook::new(alloc, system);
    let mut text = Vec::new(alloc);
    'replies: for query in 0..system.replies() {
        add_answer(
            alloc,
            system,
            cells,
            pass,
            &mut notes,
            QueryId(query),
            &mut text,
            &mut evals,
        )?;
        gate.reached(0, query);
    }
    Ok(text)
}

/// The reply lines of all queries, in order, over so many cells. The gate is told after each reply. The system's program makes no nodes.
pub fn reply_lines<G: Gate>(
    alloc: Global,
    gate: &G,
    system: &System,
    cells: u32,
) -> Result<Vec<u8>, ReplyFault>
    requires program { IsProgram (program_of system.now) }
    requires sources { HasSourcesAlone (program_of system.now) }
    requires cells { (1024 ≤ cells) × (cells ≤ 4194304) }
    ensures replies { IfOk result (λ text. AreReplies (program_of system.now) 0 (program_of system.now).queries text.items) }
    ensures full { result ≡ Err ReplyFault.Cells → IsOverfull (program_of system.now) cells }
{
    let (cells, mut pass) = Cells::new(alloc, system, cells)?;
    add_answers::<Brand, G>(alloc, gate, system, &cells, &mut pass, Blank::new(1))
}
