// Texts, each with a number.
ghost use Rattle.std.specs.Prelude.{◌≡◌, ◌≢◌, ◌<◌, ◌↔◌, [], ◌∷◌, ◌++◌, Some, None, length, slice_get, IfOk, IfSome, OnOk, OnErr};
ghost use Rattle.rag_io.specs.Pool.{texts_of, most_texts, ArePooled, number_of, with_text};

use crate::Memory;
use indexmap::IndexSet;
use std::alloc::Global;
use std::marker::Model;

/// How many texts a pool may have, a limit of this project's own.
pub const MOST_TEXTS: u32 = 65_536;

/// Why a text was not added. The pool is as it was.
#[derive(Clone, Copy, Debug, PartialEq, Eq)]
pub enum PoolFault {
    /// The text is new, and the pool has [`MOST_TEXTS`] already.
    Full,
    /// There is no memory for the new text.
    Memory,
}

/// Distinct texts in the order in which they were added: the number of a text is its index, and the empty text is number 0. Two texts
/// of a pool are equal exactly where their numbers are, so what is kept of a text is its number, which never changes.
#[derive(Drop)]
pub struct Pool {
    texts: IndexSet<Vec<u8>>,
}

impl Model for Pool {
    ghost use Rattle.std.specs.Prelude.{ℕ, List};
    ghost use Rattle.rag_io.specs.Pool.{texts_of, ArePooled};

    ghost Value = { List (List ℕ) };

    ghost view = { λ pool. texts_of pool.texts };

    ghost invariant = { λ pool. ArePooled (texts_of pool.texts) };
}

impl Pool {
    /// A pool that holds the empty text alone.
    pub fn new(alloc: Global) -> Result<Pool, Memory>
        ensures { IfOk result (λ pool. pool ≡ [] ∷ []) }
    {
        let mut texts = IndexSet::new(alloc);
        match texts.insert(Vec::new(alloc)) {
            Ok(_) => Ok(Pool { texts }),
            Err(_) => Err(Memory),
        }
    }

    /// How many texts there are, from 1 to [`MOST_TEXTS`]. It takes no memory.
    pub fn len(&self) -> u32
        ensures value { result ≡ length self.now }
        ensures pool { ArePooled self.now }
    {
        self.texts.len() as u32
    }

    /// The number of a text, where it is there. It takes no memory. The texts are hashed, so the time is that of one look-up, however many
    /// texts there are.
    pub fn find(&self, text: &[u8]) -> Option<u32>
        ensures value { result ≡ number_of self.now text.now }
        ensures text { IfSome result (λ number. slice_get self.now number ≡ Some text.now) }
    {
        index_of(&self.texts, text).map(|index| index as u32)
    }

    /// The text of a number. It takes no memory and constant time.
    pub fn get(&self, number: u32) -> &[u8]
        requires { number < length self.now }
        ensures text { slice_get self.now number ≡ Some result.now }
        ensures number { number_of self.now result.now ≡ Some number }
    {
        self.texts.as_slice()[number as usize].as_slice()
    }

    /// The number of a text, which is put last where it isn't there. A text that is there takes no memory and is never refused.
    pub fn add(&mut self, text: &[u8]) -> Result<u32, PoolFault>
        ensures number { IfOk result (λ number. number_of self.new text.now ≡ Some number) }
        ensures text { IfOk result (λ number. slice_get self.new number ≡ Some text.now) }
        ensures added { OnOk result (self.new ≡ with_text self.old text.now) }
        ensures pool { ArePooled self.new }

        ensures full { (result ≡ Err PoolFault.Full) ↔ ((number_of self.old text.now ≡ None) × (length self.old ≡ most_texts)) }
        ensures memory { result ≡ Err PoolFault.Memory → length self.old < most_texts }
        ensures new_alone { OnErr result (number_of self.old text.now ≡ None) }
        ensures refused { OnErr result (self.new ≡ self.old) }
    {
        if let Some(number) = self.find(text) {
            return Ok(number);
        }
        let number = self.len();
        if number == MOST_TEXTS {
            return Err(PoolFault::Full);
        }
        put_last(&mut self.texts, text)?;
        Ok(number)
    }
}

fn index_of(texts: &IndexSet<Vec<u8>>, text: &[u8]) -> Option<usize>
    ensures { result ≡ number_of (texts_of texts.now) text.now }
{
    texts.get_index_of(text)
}

// Puts a text last that isn't there.
fn put_last(texts: &mut IndexSet<Vec<u8>>, text: &[u8]) -> Result<(), PoolFault>
    requires { number_of (texts_of texts.old) text.now ≡ None }
    ensures added { OnOk result (texts_of texts.new ≡ texts_of texts.old ++ text.now ∷ []) }
    ensures refused { OnErr result (texts_of texts.new ≡ texts_of texts.old) }
    ensures memory { result ≢ Err PoolFault.Full }
{
    let alloc = *texts.allocator();
    let copy = Vec::from_slice(alloc, text).map_err(|_| PoolFault::Memory)?;
    let Ok(_) = texts.insert(copy) else {
        return Err(PoolFault::Memory);
    };
    Ok(())
}
