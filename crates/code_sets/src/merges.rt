// Words of two sets side by side, each in the order of their numbers.
ghost use Rattle.std.specs.Prelude.{◌≡◌, ◌<◌, ◌≤◌, ◌++◌, ℕ, true, false, [], IfOk, OnOk, IfSome, IfNone};
ghost use Rattle.std.specs.List.{AllByRecursion};
ghost use Rattle.code_sets.specs.Members.{AreMade, IsWithin};
ghost use Rattle.code_sets.specs.Merges.{IsFirstNumber, IsParted, keeps, word_of};
ghost use Rattle.code_sets.specs.Words.{AreWords, codes_of_words, has_bit, numbers_of};

use crate::word::Word;
use rag_io::Memory;
use smallvec::SmallVec;
use std::alloc::Global;

/// Which codes of two sets are kept.
#[derive(Clone, Copy)]
pub(crate) enum Operation {
    /// Those of either.
    Union,
    /// Those of both.
    Inter,
    /// Those that the second hasn't.
    Minus,
}

impl Operation {
    // The bits that are kept of those of two words.
    fn bits(self, ours: u64, theirs: u64) -> u64
        ensures { (c : ℕ) → has_bit result c ≡ keeps self (has_bit ours c) (has_bit theirs c) }
    {
        match self {
            Operation::Union => ours | theirs,
            Operation::Inter => ours & theirs,
            Operation::Minus => ours & !theirs,
        }
    }
}

// The lowest number of the words of two sets.
fn first_number(ours: &[Word], theirs: &[Word]) -> Option<u32>
    requires ours { AreWords ours.now }
    requires theirs { AreWords theirs.now }
    ensures none { IfNone result ((ours.now ≡ []) × (theirs.now ≡ [])) }
    ensures some { IfSome result (IsFirstNumber ours.now theirs.now) }
{
    match (ours.split_first(), theirs.split_first()) {
        (Some((our, _)), Some((their, _))) => Some(our.number.min(their.number)),
        (Some((our, _)), None) => Some(our.number),
        (None, Some((their, _))) => Some(their.number),
        (None, None) => None,
    }
}

// The bits of the word of a number, below which there is none, and the words after it.
fn part(words: &[Word], number: u32) -> (u64, &[Word])
    requires words { AreWords words.now }
    requires from { AllByRecursion (λ n. number ≤ n) (numbers_of words.now) }
    ensures { IsParted words.now number result.0 result.1.now }
{
    let Some((word, rest)) = words.split_first() else {
        return (0, words);
    };
    if word.number == number {
        (word.bits, rest)
    } else {
        (0, words)
    }
}

// Puts the word of some bits behind the others.
fn push_word(words: &mut SmallVec<Word, 1>, number: u32, bits: u64) -> Result<(), Memory>
    ensures { OnOk result (words.new.items ≡ words.old.items ++ word_of number bits) }
{
    if bits != 0 {
        words.push(Word { number, bits }).map_err(|_| Memory)?;
    }
    Ok(())
}

/// The words of the codes of two sets that are kept.
pub(crate) fn merge(
    alloc: Global,
    ours: &[Word],
    theirs: &[Word],
    operation: Operation,
) -> Result<SmallVec<Word, 1>, Memory>
    requires ours { AreWords ours.now }
    requires theirs { AreWords theirs.now }
    ensures words { IfOk result (λ words. AreWords words.items) }
    ensures made { IfOk result (λ words. AreMade (keeps operation) (codes_of_words ours.now) (codes_of_words theirs.now) (codes_of_words words.items)) }
{
    let mut words = SmallVec::new(alloc);
    let mut our_words = ours;
    let mut their_words = theirs;
    while let Some(number) = first_number(our_words, their_words) {
        let (our_bits, our_rest) = part(our_words, number);
        let (their_bits, their_rest) = part(their_words, number);
        push_word(&mut words, number, operation.bits(our_bits, their_bits))?;
        our_words = our_rest;
        their_words = their_rest;
    }
    Ok(words)
}

/// Whether the codes of one set are all in another.
pub(crate) fn is_within(ours: &[Word], theirs: &[Word]) -> bool
    requires ours { AreWords ours.now }
    requires theirs { AreWords theirs.now }
    ensures within { result ≡ true → IsWithin (codes_of_words ours.now) (codes_of_words theirs.now) }
    ensures beyond { result ≡ false → ¬ IsWithin (codes_of_words ours.now) (codes_of_words theirs.now) }
{
    let mut our_words = ours;
    let mut their_words = theirs;
    while let Some(number) = first_number(our_words, their_words) {
        if our_words.is_empty() {
            return true;
        }
        let (our_bits, our_rest) = part(our_words, number);
        let (their_bits, their_rest) = part(their_words, number);
        if our_bits & !their_bits != 0 {
            return false;
        }
        our_words = our_rest;
        their_words = their_rest;
    }
    true
}
