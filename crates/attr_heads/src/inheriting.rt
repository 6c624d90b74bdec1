// The first declarations of inherited attributes.
ghost use Rattle.std.specs.Prelude.{◌≡◌, ℕ, List, None, OnOk};
ghost use Rattle.attr_heads.specs.FirstInherited.{KeepsFirst, head_kept};

use attr_scope::Head;
use rag_io::Memory;
use std::alloc::Global;
use std::collections::HashMap;

/// For each name the declaration of the first inherited attribute of it.
#[derive(Drop)]
pub(crate) struct Inheriting<'a> {
    pub heads: HashMap<&'a [u8], Head<'a>>,
}

impl<'a> Inheriting<'a> {
    /// There is no inherited attribute.
    pub(crate) fn new(alloc: Global) -> Inheriting<'a>
        ensures { (name : List ℕ) → head_kept result.heads name ≡ None }
    {
        Inheriting {
            heads: HashMap::new(alloc),
        }
    }

    /// The declaration of the first inherited attribute of a name, if there is one.
    pub(crate) fn first(&self, name: &[u8]) -> Option<Head<'a>>
        ensures { result ≡ head_kept self.now.heads name.now }
    {
        self.heads.get(name).copied()
    }

    /// Keeps the declaration of an inherited attribute, where it is the first of its name.
    pub(crate) fn insert(&mut self, name: &'a [u8], head: Head<'a>) -> Result<(), Memory>
        ensures { OnOk result (KeepsFirst self.old.heads name.now head.entry self.new.heads) }
    {
        if self.heads.contains_key(name) {
            return Ok(());
        }
        match self.heads.insert(name, head) {
            Ok(_) => Ok(()),
            Err(_) => Err(Memory),
        }
    }
}
