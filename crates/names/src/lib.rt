//! Names that are told apart by their bytes, with their numbers.
#![tactic(auto)]

use indexmap::IndexSet;
use rag_io::Memory;
use std::alloc::Global;
use std::marker::Model;

/// Different names, in the order in which they were first inserted. A name's number is its place in that order, from 0.
#[derive(Drop)]
pub struct Names<'a> {
    known: IndexSet<&'a [u8]>,
}

impl<'a> Model for Names<'a> {
    ghost use Rattle.std.specs.Prelude.{List, ℕ, map};

    ghost Value = { List (List ℕ) };

    ghost view = { λ names. map (λ name. name.now) names.known.keys };
}

impl<'a> Names<'a> {
    ghost use Rattle.std.specs.Prelude.{◌≡◌, ◌↔◌, [], IsTrue, false, not, IfOk, OnOk, OnErr, length, position};
    ghost use Rattle.std.specs.Str.{bytes_eq};
    ghost use Rattle.names.specs.Among.{is_among, with_name};

    /// No name.
    pub fn new(alloc: Global) -> Names<'a>
        ensures { result ≡ [] }
    {
        Names {
            known: IndexSet::new(alloc),
        }
    }

    /// How many names there are.
    pub fn len(&self) -> usize
        ensures { result ≡ length self.now }
    {
        self.known.len()
    }

    /// Whether there is no name.
    pub fn is_empty(&self) -> bool
        ensures { IsTrue result ↔ (self.now ≡ []) }
    {
        self.known.is_empty()
    }

    /// Whether the name is there.
    pub fn contains(&self, name: &[u8]) -> bool
        ensures { result ≡ is_among self.now name.now }
    {
        self.known.contains(name)
    }

    /// The number of a name.
    pub fn number_of(&self, name: &[u8]) -> Option<usize>
        ensures { result ≡ position (bytes_eq name.now) self.now }
    {
        self.known.get_index_of(name)
    }

    /// Adds a name at the end where it isn't there, and tells whether it was new. Only a new name can lack memory, and then the names
    /// stay as they were.
    pub fn insert(&mut self, name: &'a [u8]) -> Result<bool, Memory>
        ensures added { IfOk result (λ added. added ≡ not (is_among self.old name.now)) }
        ensures names { OnOk result (self.new ≡ with_name self.old name.now) }
        ensures err { OnErr result (self.new ≡ self.old) }
        ensures absent { OnErr result (is_among self.old name.now ≡ false) }
    {
        let Ok(added) = self.known.insert(name) else {
            return Err(Memory);
        };
        Ok(added)
    }
}
