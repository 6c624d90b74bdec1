// Keys of cells, and the words that they are.
ghost use Rattle.std.specs.Prelude.{◌≡◌, ◌≢◌, ◌<◌};
ghost use Rattle.memo_cells.specs.Keys.{Fits, is_attribute, is_set_word, key_word, start};

use attr_rules::AttrId;
use equation_law::{Code, NodeRef, QueryId};

/// The place of a cell in the table, from 0 to the number of cells less one.
#[derive(Clone, Copy, Debug, PartialEq, Eq, Hash)]
pub struct Slot(pub u32);

/// What a cell is for. An instance with n arguments is reached by n + 1 keys: that of the attribute at the node, and one for each argument,
/// which holds the slot of what comes before it.
#[derive(Clone, Copy, Debug, PartialEq, Eq)]
pub enum Key {
    /// An attribute at a node.
    Inst { attr: AttrId, node: NodeRef },
    /// One more argument of what stands in a slot, below 2^29.
    Arg { slot: Slot, code: Code },
    /// One word of the set of what stands in a slot, below 2^29: it has the elements whose codes are 64 times its number and up to 63 more.
    Word { slot: Slot, word: u32 },
    /// A query, by its number.
    Query(QueryId),
}

impl Key {
    /// The word that stands for the key in the table. Its top three bits are the kind: 1 for an attribute, of which the number stands
    /// above the code of the node, 2 for an argument, of which the slot stands above the code, 3 for a word of a set, of which the slot
    /// stands above the number of the word, and 4 for a query.
    pub(crate) fn word(self) -> u64
        requires { Fits self }
        ensures word { result ≡ key_word self }
        ensures claimed { result ≢ 0 }
    {
        match self {
            Key::Inst { attr, node } => (1 << 61)
                + u64::from(attr.0) * (1 << 32)
                + u64::from(node.0),
            Key::Arg { slot, code } => (1 << 62) + u64::from(slot.0) * (1 << 32) + u64::from(code),
            Key::Word { slot, word } => (3 << 61) + u64::from(slot.0) * (1 << 32) + u64::from(word),
            Key::Query(query) => (1 << 63) + u64::from(query.0),
        }
    }
}

/// Where the search for a key begins in a table of so many cells: a multiplicative hash of its word.
pub(crate) fn start_of(cells: u32, word: u64) -> u32
    requires { 0 < cells }
    ensures start { result ≡ start cells word }
    ensures below { result < cells }
{
    ((word.wrapping_mul(0x9E37_79B9_7F4A_7C15) >> 32) % u64::from(cells)) as u32
}

/// Whether a key word is of an attribute, with or without arguments.
pub(crate) fn is_attribute(word: u64) -> bool
    ensures { result ≡ is_attribute word }
{
    word >> 61 == 1 || word >> 61 == 2
}

/// Whether a key word is of a word of a set.
pub(crate) fn is_set_word(word: u64) -> bool
    ensures { result ≡ is_set_word word }
{
    word >> 61 == 3
}
