// Asking for the value of an instance.
ghost use Rattle.std.specs.Prelude.{◌≡◌, ◌++◌, ◌∷◌, [], List, true};
ghost use Rattle.equation_law.specs.declared.coding.Instance.{Instance as CodedInstance};
ghost use Rattle.equation_law.specs.Checked.{IsProgram};
ghost use Rattle.equation_law.specs.Codes.{IsCoded};
ghost use Rattle.equation_law.specs.Systems.{program_of};
ghost use Rattle.memo_cells.specs.Agreeing.{IsKnownInstance};
ghost use Rattle.memo_cells.specs.Causes.{IsLogOn};
ghost use Rattle.memo_cells.specs.Standing.{IsPassOf};
ghost use Rattle.memo_cells.specs.Views.{Has, IsAtLeast};
ghost use Rattle.memo_cells.specs.Working.{GoesOn, IsCodedAt, IsInstanceAt, IsKnownAt, IsOwn};
ghost use Rattle.caller_pass.specs.Answering.{AnswersChain, AsksByEach, AsksNotedByEach};
ghost use Rattle.caller_pass.specs.Keeping.{IsNotebookOf, KeepsLoopsOf};
ghost use Rattle.caller_pass.specs.Holding.{AsksNotedAt, IsInstanceByEach, IsProgramAt, SolvesAt};

use crate::desk::Desk;
use crate::evals::Steps;
use crate::faults::AskFault;
use crate::notebook::Notebook;
use crate::solving::{close, solve_unless_noted};
use equation_law::{Chain, Instance, System, Value};
use expr_eval::is_declared;
use memo_cells::{Cells, Pass};
use std::alloc::Global;
use std::mem::replace;
use std::sync::ledger::Ledger;

/// Settles an instance, or seals it with its set if it is circular.
fn settle<L: Ledger>(
    alloc: Global,
    desk: &mut Desk<'_>,
    i: Instance,
    evals: &mut Steps<L>,
) -> Result<(), AskFault>
    requires program { IsProgramAt desk.old }
    requires own { IsOwn desk.old }
    requires instance { IsInstanceAt desk.old i }
    requires coded { IsCodedAt desk.old i }
    requires known { IsKnownAt desk.old i }
    ensures on { GoesOn desk.old desk.new }
    ensures solved { SolvesAt desk.old desk.new i evals.old evals.new result }
{
    if is_declared(desk.system, &i) {
        return close(alloc, desk, i, evals);
    }
    solve_unless_noted(alloc, desk, i, evals)
}

/// The value of an instance, which is settled or sealed where it isn't yet.
fn answer<L: Ledger>(
    alloc: Global,
    desk: &mut Desk<'_>,
    i: Instance,
    evals: &mut Steps<L>,
) -> Result<Value, AskFault>
    requires program { IsProgramAt desk.old }
    requires instance { IsInstanceAt desk.old i }
    requires coded { IsCodedAt desk.old i }
    requires known { IsKnownAt desk.old i }
    ensures on { GoesOn desk.old desk.new }
    ensures asked { AsksNotedAt desk.old desk.new i evals.old evals.new result }
{
    if let Some(value) = desk.known_value(alloc, i)? {
        return Ok(value);
    }
    settle(alloc, desk, i, evals)?;
    match desk.known_value(alloc, i)? {
        Some(value) => Ok(value),
        None => Err(AskFault::Memory),
    }
}

/// Asks at a desk that has these notes, and gives them back.
fn ask_at<L: Ledger>(
    alloc: Global,
    system: &System,
    cells: &Cells,
    pass: &mut Pass,
    notes: Notebook,
    i: &Instance,
    evals: &mut Steps<L>,
) -> (Result<Value, AskFault>, Notebook)
    requires program { IsProgram (program_of system.now) }
    requires same { cells.now.system.value ≡ system.now }
    requires own { IsPassOf cells.now pass.old }
    requires notes { IsNotebookOf system.now pass.old notes }
    requires instance { IsInstanceByEach (program_of system.now) pass.old i.now }
    requires coded { IsCoded (program_of system.now) i.now }
    requires known { IsKnownInstance (program_of system.now) pass.old.made i.now }
    ensures own { IsPassOf cells.now pass.new }
    ensures kept { IsAtLeast pass.old pass.new }
    ensures log { IsLogOn pass.old pass.new }
    ensures notes { IsNotebookOf system.now pass.new result.1 }
    ensures asked { AsksNotedByEach (program_of system.now) cells.now pass.old pass.new i.now evals.old evals.new result.0 }
{
    let mut desk = Desk {
        system,
        cells,
        notes,
        pass,
    };
    let came = answer(alloc, &mut desk, *i, evals);
    // What was lent goes back last.
    let Desk {
        notes: more,
        pass: _pass,
        ..
    } = desk;
    (came, more)
}

/// Asks where nothing is noted.
fn ask_alone<L: Ledger>(
    alloc: Global,
    system: &System,
    cells: &Cells,
    pass: &mut Pass,
    i: &Instance,
    evals: &mut Steps<L>,
) -> Result<Value, AskFault>
    requires program { IsProgram (program_of system.now) }
    requires same { cells.now.system.value ≡ system.now }
    requires own { IsPassOf cells.now pass.old }
    requires instance { IsInstanceByEach (program_of system.now) pass.old i.now }
    requires coded { IsCoded (program_of system.now) i.now }
    requires known { IsKnownInstance (program_of system.now) pass.old.made i.now }
    ensures own { IsPassOf cells.now pass.new }
    ensures kept { IsAtLeast pass.old pass.new }
    ensures log { IsLogOn pass.old pass.new }
    ensures asked { AsksNotedByEach (program_of system.now) cells.now pass.old pass.new i.now evals.old evals.new result }
{
    let mut notes = Notebook::new(alloc, system);
    ask_noted(alloc, system, cells, pass, &mut notes, i, evals)
}

/// Whether an instance stands in a chain before its end.
fn stands_before(on: &Instance, chain: &Chain) -> bool
    ensures { result ≡ true → (front : List CodedInstance) × Has front on.now × ((last : CodedInstance) × (chain.now ≡ front ++ last ∷ [])) }
{
    match chain.list().split_last() {
        Some((_, front)) => front.contains(on),
        None => false,
    }
}

/// The fault of a chain that ends at an instance which stands in it before.
fn round(on: Instance, chain: Chain) -> AskFault
    ensures { AnswersChain on chain result }
{
    if stands_before(&on, &chain) {
        AskFault::Circular { on, chain }
    } else {
        AskFault::Memory
    }
}

/// Notes the loops that an answer tells of.
fn note_loops(notes: &mut Notebook, came: &Result<Value, AskFault>)
    ensures { KeepsLoopsOf notes.old came.now notes.new }
{
    if let Err(AskFault::Circular { chain, .. }) = came {
        notes.note_loops(chain.list());
    }
}

/// The value of an instance in the solution, evaluated on demand. What is demanded for it waits in an explicit stack. Each value that comes is
/// settled in its cell, and circular instances are sealed together; what is settled or sealed already isn't evaluated again: the value word is loaded
/// once the cell is claimed. An evaluation goes up to the first demand that isn't settled, so each instance that is demanded takes one evaluation, and
/// one more for each of its demands that has to wait.
///
/// After a fault the pass knows what it knew and what was settled meanwhile, and asking again goes on from there.
pub fn ask<L: Ledger>(
    alloc: Global,
    system: &System,
    cells: &Cells,
    pass: &mut Pass,
    i: &Instance,
    evals: &mut Steps<L>,
) -> Result<Value, AskFault>
    requires program { IsProgram (program_of system.now) }
    requires same { cells.now.system.value ≡ system.now }
    requires own { IsPassOf cells.now pass.old }
    requires instance { IsInstanceByEach (program_of system.now) pass.old i.now }
    requires coded { IsCoded (program_of system.now) i.now }
    requires known { IsKnownInstance (program_of system.now) pass.old.made i.now }
    ensures own { IsPassOf cells.now pass.new }
    ensures kept { IsAtLeast pass.old pass.new }
    ensures log { IsLogOn pass.old pass.new }
    ensures asked { AsksByEach (program_of system.now) cells.now pass.old pass.new i.now evals.old evals.new result }
{
    match ask_alone(alloc, system, cells, pass, i, evals) {
        Ok(value) => Ok(value),
        Err(AskFault::Circular { on, chain }) => Err(round(on, chain)),
        Err(AskFault::CellsFull) => Err(AskFault::CellsFull),
        Err(AskFault::Memory) => Err(AskFault::Memory),
    }
}

/// Asks for the value of an instance like `ask`, with what the caller has noted of the program, and notes more. Where the demand comes to an
/// instance that is noted to have a loop, the chain ends there.
pub fn ask_noted<L: Ledger>(
    alloc: Global,
    system: &System,
    cells: &Cells,
    pass: &mut Pass,
    notes: &mut Notebook,
    i: &Instance,
    evals: &mut Steps<L>,
) -> Result<Value, AskFault>
    requires program { IsProgram (program_of system.now) }
    requires same { cells.now.system.value ≡ system.now }
    requires own { IsPassOf cells.now pass.old }
    requires notes { IsNotebookOf system.now pass.old notes.old }
    requires instance { IsInstanceByEach (program_of system.now) pass.old i.now }
    requires coded { IsCoded (program_of system.now) i.now }
    requires known { IsKnownInstance (program_of system.now) pass.old.made i.now }
    ensures own { IsPassOf cells.now pass.new }
    ensures kept { IsAtLeast pass.old pass.new }
    ensures log { IsLogOn pass.old pass.new }
    ensures notes { IsNotebookOf system.now pass.new notes.new }
    ensures asked { AsksNotedByEach (program_of system.now) cells.now pass.old pass.new i.now evals.old evals.new result }
{
    let kept = replace(notes, Notebook::new(alloc, system));
    let (came, more) = ask_at(alloc, system, cells, pass, kept, i, evals);
    *notes = more;
    note_loops(notes, &came);
    came
}
