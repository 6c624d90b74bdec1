// The words of a set, shared between its copies.
ghost use Rattle.std.specs.Prelude.{◌≡◌, ◌<◌, ◌≤◌, IfOk, OnOk, OnErr, length};
ghost use Rattle.std.specs.List.{insert};
ghost use Rattle.code_sets.specs.Kept.{with_bits, words_of};

use crate::word::Word;
use rag_io::Memory;
use smallvec::SmallVec;
use std::alloc::Global;
use std::rc::Rc;
use std::slice::from_ref;

/// The words of a set, in the order of their numbers.
#[derive(Drop)]
pub(crate) enum Kept {
    /// There is none.
    Empty,
    /// One, which takes no memory.
    One(Word),
    /// More than one, shared between the copies of the set.
    Many(Rc<SmallVec<Word, 1>>),
}

// Adds bits to the word at a place.
fn put_bits(words: &mut SmallVec<Word, 1>, at: usize, bits: u64)
    requires { at < length words.old.items }
    ensures { words.new.items ≡ with_bits words.old.items at bits }
{
    words[at].bits |= bits;
}

// Puts a word in at a place. On a refusal it isn't put in.
fn put_word(words: &mut SmallVec<Word, 1>, at: usize, word: Word) -> Result<(), Memory>
    requires { at ≤ length words.old.items }
    ensures ok { OnOk result (words.new.items ≡ insert words.old.items at word) }
    ensures err { OnErr result (words.new.items ≡ words.old.items) }
{
    words.insert(at, word).map_err(|_| Memory)
}

impl Kept {
    /// These words.
    pub(crate) fn of(alloc: Global, words: SmallVec<Word, 1>) -> Result<Kept, Memory>
        ensures { IfOk result (λ kept. words_of kept ≡ words.items) }
    {
        if words.len() > 1 {
            let shared = Rc::new(alloc, words).map_err(|_| Memory)?;
            return Ok(Kept::Many(shared));
        }
        match words.as_slice().first() {
            None => Ok(Kept::Empty),
            Some(word) => Ok(Kept::One(*word)),
        }
    }

    /// The words.
    pub(crate) fn words(&self) -> &[Word]
        ensures { result.now ≡ words_of self.now }
    {
        match self {
            Kept::Empty => &[],
            Kept::One(word) => from_ref(word),
            Kept::Many(shared) => shared.as_ref().as_slice(),
        }
    }

    /// The same words once more, in constant time.
    pub(crate) fn copy(&self) -> Result<Kept, Memory>
        ensures { IfOk result (λ kept. words_of kept ≡ words_of self.now) }
    {
        match self {
            Kept::Empty => Ok(Kept::Empty),
            Kept::One(word) => Ok(Kept::One(*word)),
            Kept::Many(shared) => {
                let copy = shared.clone().map_err(|_| Memory)?;
                Ok(Kept::Many(copy))
            }
        }
    }

    /// Adds bits to the word at a place. On a refusal none is added.
    pub(crate) fn add_bits(&mut self, at: usize, bits: u64) -> Result<(), Memory>
        requires { at < length (words_of self.old) }
        ensures ok { OnOk result (words_of self.new ≡ with_bits (words_of self.old) at bits) }
        ensures err { OnErr result (words_of self.new ≡ words_of self.old) }
    {
        match self {
            Kept::Empty => {}
            Kept::One(word) => word.bits |= bits,
            Kept::Many(shared) => {
                let Ok(words) = Rc::make_mut(shared) else {
                    return Err(Memory);
                };
                put_bits(words, at, bits);
            }
        }
        Ok(())
    }

    /// Puts a word in at a place. On a refusal none is put in.
    pub(crate) fn insert(&mut self, alloc: Global, at: usize, word: Word) -> Result<(), Memory>
        requires { at ≤ length (words_of self.old) }
        ensures ok { OnOk result (words_of self.new ≡ insert (words_of self.old) at word) }
        ensures err { OnErr result (words_of self.new ≡ words_of self.old) }
    {
        match self {
            Kept::Empty => *self = Kept::One(word),
            Kept::One(only) => {
                let mut words = SmallVec::new(alloc);
                words.push(*only).map_err(|_| Memory)?;
                put_word(&mut words, at, word)?;
                *self = Kept::of(alloc, words)?;
            }
            Kept::Many(shared) => {
                let Ok(words) = Rc::make_mut(shared) else {
                    return Err(Memory);
                };
                put_word(words, at, word)?;
            }
        }
        Ok(())
    }
}
