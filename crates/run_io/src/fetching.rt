// Fetches the files of a command, in their order.
ghost use Rattle.std.specs.Prelude.{◌≡◌, ◌≤◌, length, IfOk, IfErr};
ghost use Rattle.rag_io.specs.Outside.{longest_file};
ghost use Rattle.run_io.specs.Fetched.{seen_contents, seen_pair, AreShort, AreBothShort, StopsOne, StopsAll, StopsPair, Holds, HoldsFetched, HoldsPairFetched};
ghost use Rattle.run_io.specs.Named.{seen_names, seen_pair_names};
ghost use Rattle.run_io.specs.Files.{in_order};

use crate::words::{Names, PairNames};
use rag_io::{FetchFault, Shelf};
use std::alloc::Global;

/// The bytes of the four files.
#[derive(Drop)]
pub struct Contents {
    pub ast: Vec<u8>,
    pub jrag: Vec<u8>,
    pub tree: Vec<u8>,
    pub queries: Vec<u8>,
}

/// The bytes of a grammar and of one file more.
#[derive(Drop)]
pub struct PairContents {
    pub ast: Vec<u8>,
    pub other: Vec<u8>,
}

/// Why fetching stopped.
#[derive(Clone, Copy)]
pub enum Stop<'a> {
    /// The shelf failed.
    Failed,
    /// The file of this name is too long.
    TooLong(&'a str),
    /// Want of memory.
    Memory,
}

fn fetch<'a, S: Shelf>(alloc: Global, shelf: &mut S, name: &'a str) -> Result<Vec<u8>, Stop<'a>>
    ensures held { IfOk result (λ bytes. Holds (S.files shelf.old) name.now bytes.items) }
    ensures fits { IfOk result (λ bytes. length bytes.items ≤ longest_file) }
    ensures cause { IfErr result (λ stop. StopsOne (S.files shelf.old) name.now (S.faults shelf.old) (S.faults shelf.new) stop) }
    ensures files { S.files shelf.new ≡ S.files shelf.old }
    ensures later { S.faults shelf.old ≤ S.faults shelf.new }
{
    let mut bytes = Vec::new(alloc);
    match shelf.fetch(name, &mut bytes) {
        Ok(()) => Ok(bytes),
        Err(FetchFault::Failed) => Err(Stop::Failed),
        Err(FetchFault::TooLong) => Err(Stop::TooLong(name)),
        Err(FetchFault::Memory) => Err(Stop::Memory),
    }
}

/// Fetches the four files of `run`, up to the first that is refused.
pub fn fetch_all<'a, S: Shelf>(
    alloc: Global,
    shelf: &mut S,
    names: Names<'a>,
) -> Result<Contents, Stop<'a>>
    ensures held { IfOk result (λ c. HoldsFetched (S.files shelf.old) (seen_names names.entry) (seen_contents c)) }
    ensures fits { IfOk result (λ c. AreShort (seen_contents c)) }
    ensures cause { IfErr result (λ stop. StopsAll (S.files shelf.old) (in_order (seen_names names.entry)) (S.faults shelf.old) (S.faults shelf.new) stop) }
    ensures later { S.faults shelf.old ≤ S.faults shelf.new }
{
    let ast = fetch(alloc, shelf, names.ast)?;
    let jrag = fetch(alloc, shelf, names.jrag)?;
    let tree = fetch(alloc, shelf, names.tree)?;
    let queries = fetch(alloc, shelf, names.queries)?;
    Ok(Contents {
        ast,
        jrag,
        tree,
        queries,
    })
}

/// Fetches the two files of `check` or of `tree`, up to the first that is refused.
pub fn fetch_pair<'a, S: Shelf>(
    alloc: Global,
    shelf: &mut S,
    names: PairNames<'a>,
) -> Result<PairContents, Stop<'a>>
    ensures held { IfOk result (λ c. HoldsPairFetched (S.files shelf.old) (seen_pair_names names.entry) (seen_pair c)) }
    ensures fits { IfOk result (λ c. AreBothShort (seen_pair c)) }
    ensures cause { IfErr result (λ stop. StopsPair (S.files shelf.old) (seen_pair_names names.entry) (S.faults shelf.old) (S.faults shelf.new) stop) }
    ensures later { S.faults shelf.old ≤ S.faults shelf.new }
{
    let ast = fetch(alloc, shelf, names.ast)?;
    let other = fetch(alloc, shelf, names.other)?;
    Ok(PairContents { ast, other })
}
