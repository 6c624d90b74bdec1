// Sets of codes.
ghost use Rattle.std.specs.Prelude.{◌≡◌, ◌≢◌, ◌==◌, ◌∷◌, ◌++◌, [], ◌&&◌, ◌||◌, ◌<◌, ◌/◌, ◌^◌, ℕ, true, false, not, IfOk, OnOk, OnErr, length};
ghost use Rattle.code_sets.specs.Members.{AreMade, IsWithin, Rises, has_code};
ghost use Rattle.code_sets.specs.Merges.{keeps};
ghost use Rattle.code_sets.specs.Words.{codes_of_word, has_bit};

use crate::kept::Kept;
use crate::merges::{Operation, is_within, merge};
use crate::word::{Word, search};
use rag_io::Memory;
use std::alloc::Global;
use std::marker::Model;

/// The code of a value.
pub type Code = u32;

// How many codes have their bits in one word.
const WORD_SIZE: u32 = 64;

/// The codes of the elements of a set, seen as a list, which rises strictly.
///
/// They are kept as the bits of words: the bit `b` of the word `w` stands for the code `64 * w + b`.
#[derive(Drop)]
pub struct Codes {
    alloc: Global,
    // The words that have a code, in the order of their numbers.
    kept: Kept,
}

impl Model for Codes {
    ghost use Rattle.std.specs.Prelude.{List, ℕ};
    ghost use Rattle.code_sets.specs.Kept.{words_of};
    ghost use Rattle.code_sets.specs.Words.{AreWords, codes_of_words};

    ghost Value = { List ℕ };

    ghost view = { λ codes. codes_of_words (words_of codes.kept) };

    ghost invariant = { λ codes. AreWords (words_of codes.kept) };
}

impl Codes {
    /// No codes. It takes no memory.
    pub fn none(alloc: Global) -> Codes
        ensures { result ≡ [] }
    {
        Codes {
            alloc,
            kept: Kept::Empty,
        }
    }

    /// One code.
    pub fn one(alloc: Global, code: Code) -> Result<Codes, Memory>
        ensures { IfOk result (λ codes. codes ≡ code ∷ []) }
    {
        let mut codes = Codes::none(alloc);
        codes.add_word(code / WORD_SIZE, 1 << (code % WORD_SIZE))?;
        Ok(codes)
    }

    /// The same codes once more, in constant time.
    pub fn copy(&self) -> Result<Codes, Memory>
        ensures { IfOk result (λ codes. codes ≡ self.now) }
    {
        let alloc = self.alloc;
        let kept = self.kept.copy()?;
        Ok(Codes { alloc, kept })
    }

    /// How many codes there are.
    pub fn len(&self) -> usize
        ensures len { result ≡ length self.now }
        ensures rises { Rises self.now }
    {
        let mut len = 0;
        for word in self.kept.words() {
            len += word.bits.count_ones() as usize;
        }
        len
    }

    /// Whether there is no code.
    pub fn is_empty(&self) -> bool
        ensures { result ≡ (length self.now == 0) }
    {
        self.kept.words().is_empty()
    }

    /// Whether another set has the same codes.
    pub fn same(&self, other: &Codes) -> bool
        ensures equal { result ≡ true → self.now ≡ other.now }
        ensures unequal { result ≡ false → self.now ≢ other.now }
    {
        self.kept.words() == other.kept.words()
    }

    /// Whether the code is one of them.
    pub fn has(&self, code: Code) -> bool
        ensures { result ≡ has_code self.now code }
    {
        (self.word(code / WORD_SIZE) >> (code % WORD_SIZE)) % 2 == 1
    }

    // The bits of a word.
    fn word(&self, number: u32) -> u64
        ensures bits { (c : ℕ) → c / 64 ≡ number → has_bit result c ≡ has_code self.now c }
        ensures rises { Rises self.now }
    {
        let words = self.kept.words();
        match search(words, number) {
            Ok(at) => words[at].bits,
            Err(_) => 0,
        }
    }

    /// Adds the codes of a word, whose bits are given. On a refusal none is added.
    pub fn add_word(&mut self, word: u32, bits: u64) -> Result<(), Memory>
        requires { word < 2 ^ 26 }
        ensures made { OnOk result (AreMade (λ a b. a || b) self.old (codes_of_word word bits) self.new) }
        ensures err { OnErr result (self.new ≡ self.old) }
    {
        let words = self.kept.words();
        if bits == 0 {
            return Ok(());
        }
        match search(words, word) {
            Ok(at) => self.kept.add_bits(at, bits),
            Err(at) => {
                let number = word;
                self.kept.insert(self.alloc, at, Word { number, bits })
            }
        }
    }

    /// Adds those of another set. On a refusal none is added.
    pub fn add(&mut self, other: &Codes) -> Result<(), Memory>
        ensures made { OnOk result (AreMade (λ a b. a || b) self.old other.now self.new) }
        ensures err { OnErr result (self.new ≡ self.old) }
    {
        if let Kept::One(word) = &other.kept {
            return self.add_word(word.number, word.bits);
        }
        if !self.has_all(other) {
            *self = self.joined(other)?;
        }
        Ok(())
    }

    // Whether those of another set are all here.
    fn has_all(&self, other: &Codes) -> bool
        ensures within { result ≡ true → IsWithin other.now self.now }
        ensures rises { Rises self.now }
    {
        is_within(other.kept.words(), self.kept.words())
    }

    /// Those of either.
    pub fn union(&self, other: &Codes) -> Result<Codes, Memory>
        ensures { IfOk result (AreMade (λ a b. a || b) self.now other.now) }
    {
        if self.has_all(other) {
            return self.copy();
        }
        self.joined(other)
    }

    // Those of either, where the other may have those of both.
    fn joined(&self, other: &Codes) -> Result<Codes, Memory>
        ensures { IfOk result (AreMade (λ a b. a || b) self.now other.now) }
    {
        if other.has_all(self) {
            return other.copy();
        }
        self.merged(self.alloc, other, Operation::Union)
    }

    // Those that are kept of both.
    fn merged(&self, alloc: Global, other: &Codes, operation: Operation) -> Result<Codes, Memory>
        ensures { IfOk result (AreMade (keeps operation) self.now other.now) }
    {
        let words = merge(alloc, self.kept.words(), other.kept.words(), operation)?;
        let kept = Kept::of(alloc, words)?;
        Ok(Codes { alloc, kept })
    }

    /// Those that both have.
    pub fn inter(&self, alloc: Global, other: &Codes) -> Result<Codes, Memory>
        ensures { IfOk result (AreMade (λ a b. a && b) self.now other.now) }
    {
        self.merged(alloc, other, Operation::Inter)
    }

    /// Those that the other set hasn't.
    pub fn minus(&self, alloc: Global, other: &Codes) -> Result<Codes, Memory>
        ensures { IfOk result (AreMade (λ a b. a && not b) self.now other.now) }
    {
        self.merged(alloc, other, Operation::Minus)
    }

    /// The codes, in their order.
    pub fn list(&self, alloc: Global) -> Result<Vec<Code>, Memory>
        ensures { IfOk result (λ list. list.items ≡ self.now) }
    {
        let mut list = Vec::new(alloc);
        for word in self.kept.words() {
            push_codes(&mut list, word.number, word.bits)?;
        }
        Ok(list)
    }
}

// Pushes the codes of a word, in their order.
fn push_codes(list: &mut Vec<Code>, word: u32, bits: u64) -> Result<(), Memory>
    requires { word < 2 ^ 26 }
    ensures { OnOk result (list.new.items ≡ list.old.items ++ codes_of_word word bits) }
{
    let mut rest = bits;
    while rest != 0 {
        let bit = rest.trailing_zeros();
        list.push(word * WORD_SIZE + bit).map_err(|_| Memory)?;
        rest ^= 1 << bit;
    }
    Ok(())
}
