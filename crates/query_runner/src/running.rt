// The top call.
ghost use Rattle.std.specs.Prelude.{◌≡◌, ◌≢◌, ◌⊎◌, ◌≤◌, ◌++◌, None, Some, Ok, Err, map, IfOk, IfErr};
ghost use Rattle.rag_io.specs.Outside.{Rose};
ghost use Rattle.query_runner.specs.Answered.{AnswersCommand, AnswersWhereTold, Stopped, status_of, text_of};
ghost use Rattle.run_io.specs.Taking.{Took, TookSome};
ghost use Rattle.query_runner.specs.Run.{WritesAnswer, WritesPart};
ghost use Rattle.query_runner.specs.Output.{broken_line, usage};
ghost use Rattle.run_io.specs.Words.{Check as AsksCheck, PrintTree, Run as AsksRun, command_of, text_of_word};
ghost use Rattle.run_io.specs.Named.{seen_names, seen_pair_names};

use broken_rules::Broken;
use program_reader::{Refusal, counts_text, read_system, tree_text};
use query_replies::{ReplyFault, reply_lines};
use rag_io::{Gate, Shelf, Sink};
use run_io::{
    Command, Names, PairNames, Stop, command_of, fetch_all, fetch_pair, name_of, pair_name_of,
    put_all,
};
use std::alloc::Global;
use std::thread::Threads;

const USAGE: &[u8] =
    b"usage: rag run [--callers N] [--cells N] [--count] AST JRAG TREE QUERIES\n       rag check AST JRAG\n       rag tree AST TREE\n       rag bulk N [--callers N]\n";

/// How many cells the memo table of a run has.
const CELLS: u32 = 262_144;

/// What is to be written.
#[derive(Drop)]
pub(crate) enum Answer {
    /// The reply lines, the counts of aspects, or the text of a tree.
    Output(Vec<u8>),
    /// The line of a file that is refused.
    Refusal(Vec<u8>),
    /// The usage text.
    Usage,
    /// The line that says that the cells are full.
    Full,
}

/// Why nothing is to be written.
#[derive(Clone, Copy, Debug, PartialEq, Eq)]
pub(crate) enum Failure {
    /// The shelf failed.
    Fetch,
    /// Want of memory.
    Memory,
}

impl Answer {
    /// The status that goes with it.
    fn status(&self) -> u8
        ensures { result ≡ status_of self.now }
    {
        match self {
            Answer::Output(_) => 0,
            Answer::Refusal(_) => 1,
            Answer::Usage => 2,
            Answer::Full => 4,
        }
    }

    /// The text.
    fn text(&self) -> &[u8]
        ensures { result.now ≡ text_of self.now }
    {
        match self {
            Answer::Output(text) | Answer::Refusal(text) => text.as_slice(),
            Answer::Usage => USAGE,
            Answer::Full => b"full: cells\n",
        }
    }
}

// The line of a file that is refused.
fn refuse(alloc: Global, name: &str, why: &str) -> Result<Answer, Failure>
    ensures line { IfOk result (λ a. (status_of a ≡ 1) × (text_of a ≡ name.now ++ why.now)) }
    ensures memory { IfErr result (λ f. f ≡ Failure.Memory) }
{
    let Ok(mut line) = Vec::from_slice(alloc, name.as_bytes()) else {
        return Err(Failure::Memory);
    };
    match line.extend_from_slice(why.as_bytes()) {
        Ok(_) => Ok(Answer::Refusal(line)),
        Err(_) => Err(Failure::Memory),
    }
}

// The line of a broken rule.
fn refuse_broken(alloc: Global, name: &str, broken: Broken) -> Result<Answer, Failure>
    ensures line { IfOk result (λ a. (status_of a ≡ 1) × (text_of a ≡ broken_line name.now broken)) }
    ensures memory { IfErr result (λ f. f ≡ Failure.Memory) }
{
    let Broken { place, rule } = broken;
    match format!(in alloc; "{name}:{}:{}: {rule}\n", place.line, place.column) {
        Ok(line) => Ok(Answer::Refusal(line.into_bytes())),
        Err(_) => Err(Failure::Memory),
    }
}

// What is written where fetching stopped.
fn refuse_stop(alloc: Global, stop: Stop<'_>) -> Result<Answer, Failure>
    ensures { Stopped stop.entry result }
{
    match stop {
        Stop::Failed => Err(Failure::Fetch),
        Stop::Memory => Err(Failure::Memory),
        Stop::TooLong(name) => refuse(alloc, name, ": too long\n"),
    }
}

// The replies to the queries of four files, or the line of the first that is refused.
fn answer_run<S: Shelf, G: Gate>(
    alloc: Global,
    names: Names<'_>,
    shelf: &mut S,
    gate: &G,
) -> Result<Answer, Failure>
    ensures answer { AnswersCommand (AsksRun (seen_names names.entry)) (S.files shelf.old) result }
    ensures status { result ≢ Ok Answer.Usage }
    ensures fetch { result ≡ Err Failure.Fetch → Rose (S.faults shelf.old) (S.faults shelf.new) }
{
    let contents = match fetch_all(alloc, shelf, names) {
        Ok(contents) => contents,
        Err(stop) => return refuse_stop(alloc, stop),
    };
    match read_system(alloc, &contents) {
        Ok(system) => match reply_lines(alloc, gate, &system, CELLS) {
            Ok(text) => Ok(Answer::Output(text)),
            Err(ReplyFault::Cells) => Ok(Answer::Full),
            Err(ReplyFault::Memory) => Err(Failure::Memory),
        },
        Err(Refusal::Memory) => Err(Failure::Memory),
        Err(Refusal::Broken(file, broken)) => refuse_broken(alloc, name_of(names, file), broken),
        Err(Refusal::NotBuilt(file)) => refuse(alloc, name_of(names, file), ": not built\n"),
    }
}

// The counts of aspects, or the line of the first of its two files that is refused.
fn answer_check<S: Shelf>(
    alloc: Global,
    names: PairNames<'_>,
    shelf: &mut S,
) -> Result<Answer, Failure>
    ensures answer { AnswersCommand (AsksCheck (seen_pair_names names.entry)) (S.files shelf.old) result }
    ensures status { result ≢ Ok Answer.Usage }
    ensures fetch { result ≡ Err Failure.Fetch → Rose (S.faults shelf.old) (S.faults shelf.new) }
{
    let contents = match fetch_pair(alloc, shelf, names) {
        Ok(contents) => contents,
        Err(stop) => return refuse_stop(alloc, stop),
    };
    match counts_text(alloc, &contents) {
        Ok(text) => Ok(Answer::Output(text)),
        Err(Refusal::Memory) => Err(Failure::Memory),
        Err(Refusal::Broken(file, broken)) => {
            refuse_broken(alloc, pair_name_of(names, file), broken)
        }
        Err(Refusal::NotBuilt(_)) => unreachable!(),
    }
}

// The canonical text of a tree, or the line of the first of its two files that is refused.
fn answer_tree<S: Shelf>(
    alloc: Global,
    names: PairNames<'_>,
    shelf: &mut S,
) -> Result<Answer, Failure>
    ensures answer { AnswersCommand (PrintTree (seen_pair_names names.entry)) (S.files shelf.old) result }
    ensures status { result ≢ Ok Answer.Usage }
    ensures fetch { result ≡ Err Failure.Fetch → Rose (S.faults shelf.old) (S.faults shelf.new) }
{
    let contents = match fetch_pair(alloc, shelf, names) {
        Ok(contents) => contents,
        Err(stop) => return refuse_stop(alloc, stop),
    };
    match tree_text(alloc, &contents) {
        Ok(text) => Ok(Answer::Output(text)),
        Err(Refusal::Memory) => Err(Failure::Memory),
        Err(Refusal::Broken(file, broken)) => {
            refuse_broken(alloc, pair_name_of(names, file), broken)
        }
        Err(Refusal::NotBuilt(_)) => unreachable!(),
    }
}

// All that is done before the first put.
fn prepare<S: Shelf, G: Gate>(
    alloc: Global,
    words: &[String],
    shelf: &mut S,
    gate: &G,
) -> Result<Answer, Failure>
    ensures answer { IfOk result (λ a. AnswersWhereTold (map text_of_word words.now) (S.files shelf.old) a) }
    ensures misused { command_of (map text_of_word words.now) ≡ None → result ≡ Ok Answer.Usage }
    ensures usage { result ≡ Ok Answer.Usage → command_of (map text_of_word words.now) ≡ None }
    ensures fetch { result ≡ Err Failure.Fetch → Rose (S.faults shelf.old) (S.faults shelf.new) }
{
    match command_of(words) {
        None => Ok(Answer::Usage),
        Some(Command::Run(names)) => answer_run(alloc, names, shelf, gate),
        Some(Command::Check(names)) => answer_check(alloc, names, shelf),
        Some(Command::Tree(names)) => answer_tree(alloc, names, shelf),
    }
}

/// Does all that the program does, and answers the status that it ends with.
///
/// The words are `run` and the names of a grammar, aspects, a tree and queries, or `check` and the names of a grammar and aspects, or `tree`
/// and the names of a grammar and a tree. The order is: the words are read; the files are fetched, up to the first fetch that is refused;
/// each is tested in turn; the replies are made, and `gate.reached(0, r)` is called after reply r, or the counts or the text of the tree are;
/// it is put in pieces of 65,536 bytes. So nothing is put before
/// all of it is made.
///
/// | Status | Comes | Written |
/// |---|---|---|
/// | 0 | where the whole output was put | the output: one line for each query, the line of counts, or the canonical text of the tree |
/// | 1 | where a file is too long | `NAME: too long` |
/// | 1 | where the grammar, the aspects or the tree breaks a rule | `NAME:LINE:COLUMN: RULE`, of the first broken one |
/// | 1 | where another file isn't in the form that is evaluated so far | `NAME: not built` |
/// | 2 | where the words are neither `run` and four file names nor `check` or `tree` and two | the usage text |
/// | 3 | for want of memory | nothing |
/// | 4 | where more cells are demanded than there are | `full: cells` |
/// | 5 | where the shelf's count of faults rose | nothing |
/// | 6 | where the sink's count of faults rose | a front of what was to be put: of the usage text where the words are neither |
pub fn run<R: Threads + Sync, S: Shelf, K: Sink, G: Gate>(
    _rt: &R,
    alloc: Global,
    words: &[String],
    shelf: &mut S,
    sink: &mut K,
    gate: &G,
) -> u8
    ensures full { result ≡ 4 → WritesAnswer (map text_of_word words.now) (S.files shelf.old) (K.taken sink.old) (K.taken sink.new) result }
    ensures answer { result ≤ 2 → WritesAnswer (map text_of_word words.now) (S.files shelf.old) (K.taken sink.old) (K.taken sink.new) result }
    ensures misused { command_of (map text_of_word words.now) ≡ None → (result ≡ 2) ⊎ (result ≡ 6) }
    ensures usage { result ≡ 2 → (command_of (map text_of_word words.now) ≡ None) × Took (K.taken sink.old) usage (K.taken sink.new) }
    ensures memory { result ≡ 3 → K.taken sink.new ≡ K.taken sink.old }
    ensures fetch { result ≡ 5 → Rose (S.faults shelf.old) (S.faults shelf.new) × (K.taken sink.new ≡ K.taken sink.old) }
    ensures faults { result ≡ 6 → Rose (K.faults sink.old) (K.faults sink.new) }
    ensures put { result ≡ 6 → WritesPart (map text_of_word words.now) (S.files shelf.old) (K.taken sink.old) (K.taken sink.new) }
    ensures misused_put { command_of (map text_of_word words.now) ≡ None → result ≡ 6 → TookSome (K.taken sink.old) usage (K.taken sink.new) }
    ensures statuses { (result ≤ 2) ⊎ ((result ≡ 3) ⊎ ((result ≡ 4) ⊎ ((result ≡ 5) ⊎ (result ≡ 6)))) }
{
    let answer = match prepare(alloc, words, shelf, gate) {
        Ok(answer) => answer,
        Err(Failure::Memory) => return 3,
        Err(Failure::Fetch) => return 5,
    };
    match put_all(sink, answer.text()) {
        Ok(()) => answer.status(),
        Err(_) => 6,
    }
}
