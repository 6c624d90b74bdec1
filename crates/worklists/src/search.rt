// A search for the members of a local set that lead to something that is missing.
ghost use Rattle.std.specs.Prelude.{◌↔◌, ◌≡◌, ◌++◌, ◌∷◌, ◌<◌, [], false, ℕ, Contains, IfNone, IfOk, IfSome, OnOk, Some, length, slice_get};
ghost use Rattle.worklists.specs.Searching.{Finds, IsFound, IsNewSearch};

use indexmap::IndexSet;
use rag_io::Memory;
use std::alloc::Global;

/// A search that goes from each member that it finds to those that read its value. Members are told by their numbers.
#[derive(Drop)]
pub(crate) struct Search {
    // Whether each member was found.
    found: Vec<bool>,
    // Those that were found and from which the search didn't go on yet.
    waiting: Vec<usize>,
    // How many readers were looked at.
    looked: usize,
}

impl Search {
    /// None of so many members was found yet.
    pub(crate) fn new(alloc: Global, count: usize) -> Result<Search, Memory>
        ensures { IfOk result (λ search. IsNewSearch count search) }
    {
        let found = vec![in alloc; false; count].map_err(|_| Memory)?;
        Ok(Search {
            found,
            waiting: Vec::new(alloc),
            looked: 0,
        })
    }

    /// A member is found, if there is one of this number.
    pub(crate) fn find(&mut self, number: usize) -> Result<(), Memory>
        ensures finds { OnOk result (Finds (λ k. k ≡ number) self.old self.new) }
        ensures found { OnOk result (number < length self.old.found.items → IsFound self.new number) }
    {
        let Some(found) = self.found.get_mut(number) else {
            return Ok(());
        };
        if *found {
            return Ok(());
        }
        *found = true;
        let Ok(()) = self.waiting.push(number) else {
            return Err(Memory);
        };
        Ok(())
    }

    /// The members are found that read the value of one that was found.
    pub(crate) fn find_all(&mut self, readers: &IndexSet<usize>) -> Result<(), Memory>
        ensures finds { OnOk result (Finds (Contains readers.now.keys) self.old self.new) }
        ensures found { OnOk result ((k : ℕ) → Contains readers.now.keys k → k < length self.old.found.items → IsFound self.new k) }
    {
        self.looked = self.looked.saturating_add(readers.len());
        for number in readers.as_slice() {
            self.find(*number)?;
        }
        Ok(())
    }

    /// One of those from which the search didn't go on yet. It goes on from there now.
    pub(crate) fn next(&mut self) -> Option<usize>
        ensures found { self.new.found ≡ self.old.found }
        ensures some { IfSome result (λ number. self.old.waiting.items ≡ self.new.waiting.items ++ number ∷ []) }
        ensures none { IfNone result (self.old.waiting.items ≡ [] × (self.new.waiting.items ≡ [])) }
    {
        self.waiting.pop()
    }

    /// How many readers were looked at.
    pub(crate) fn looked(&self) -> usize
        ensures { result ≡ self.now.looked }
    {
        self.looked
    }

    /// The members that weren't found.
    pub(crate) fn others(&self, alloc: Global) -> Result<Vec<usize>, Memory>
        ensures { IfOk result (λ others. (k : ℕ) → Contains others.items k ↔ (slice_get self.now.found.items k ≡ Some false)) }
    {
        let mut others = Vec::new(alloc);
        for (number, found) in self.found.iter().enumerate() {
            if !*found {
                let Ok(()) = others.push(number) else {
                    return Err(Memory);
                };
            }
        }
        Ok(others)
    }
}
