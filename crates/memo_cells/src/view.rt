// What a pass knows.
ghost use Rattle.std.specs.Prelude.{◌≡◌};
ghost use Rattle.memo_cells.specs.Views.{first_view, framed};

use equation_law::{Instance, System};
use std::alloc::Global;
use std::collections::LinkedList;
use std::snapshot::Snapshot;

/// What cells are told when they are made, and the number of their table.
#[derive(Drop)]
pub struct Frame {
    pub table: u64,
    pub system: Snapshot<System>,
    pub cells: u64,
}

/// What a pass knows and has done. Contracts speak of it; at run time that of a first pass alone is made, and nothing reads it.
#[derive(Drop)]
pub struct View {
    /// The number of its table.
    pub table: u64,
    pub frame: Option<Frame>,
    /// Its share of the table.
    pub share: u64,
    /// Each place whose key word it saw claimed, with that word.
    pub keys: LinkedList<(u64, u64)>,
    /// Each place whose value word it saw settled, with its key word and its code.
    pub values: LinkedList<(u64, u64, u64)>,
    /// Each bit that it saw set in a value word: the place, its key word, and the number of the bit. Of a word of a set all bits count, and
    /// of any other key the lowest.
    pub bits: LinkedList<(u64, u64, u64)>,
    /// The places that it claimed itself.
    pub claims: LinkedList<u64>,
    /// What its steps found: a word of the table and the number that stood there, the last first.
    pub found: LinkedList<(u64, u64)>,
    /// At least so many numbers of trees were drawn.
    pub trees: u64,
    /// At least so many queries were drawn.
    pub queries: u64,
    /// The number of a tree that it drew and that waits to be published or kept.
    pub held: Option<u64>,
    /// The words of that tree's row that it wrote: each with what it holds.
    pub written: LinkedList<(u64, u64)>,
    /// Each word of a row that it saw: the tree, the word and what it holds.
    pub rows: LinkedList<(u64, u64, u64)>,
    /// What made the trees that it knows, the last one first.
    pub made: LinkedList<Instance>,
    /// The number of a tree that it drew and keeps for the next one.
    pub spare: Option<u64>,
    /// The numbers of trees that it gave up.
    pub given_up: LinkedList<u64>,
    /// The places that it has still to seal.
    pub to_seal: LinkedList<u64>,
    /// The queries that it drew.
    pub draws: LinkedList<u64>,
}

// What a pass of so many cells of a system knows at first: nothing.
fn first_view(alloc: Global, system: Snapshot<System>, cells: u32) -> View
    ensures { result ≡ first_view (framed system cells) }
{
    View {
        table: 0,
        frame: Some(Frame {
            table: 0,
            system,
            cells: u64::from(cells),
        }),
        share: 1 << 62,
        keys: LinkedList::new(alloc),
        values: LinkedList::new(alloc),
        bits: LinkedList::new(alloc),
        claims: LinkedList::new(alloc),
        found: LinkedList::new(alloc),
        trees: 0,
        queries: 0,
        held: None,
        written: LinkedList::new(alloc),
        rows: LinkedList::new(alloc),
        made: LinkedList::new(alloc),
        spare: None,
        given_up: LinkedList::new(alloc),
        to_seal: LinkedList::new(alloc),
        draws: LinkedList::new(alloc),
    }
}

/// What is known of it by a first pass. It takes no memory.
pub(crate) fn nothing_known(alloc: Global, system: Snapshot<System>, cells: u32) -> Snapshot<View>
    ensures { result.value ≡ first_view (framed system cells) }
{
    let first = first_view(alloc, system, cells);
    Snapshot::of(&first)
}
