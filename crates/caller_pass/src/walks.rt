// The walks over what is offered to collections.
ghost use Rattle.std.specs.Prelude.{◌≡◌, ◌⊎◌, [], Some};
ghost use Rattle.collection_attrs.specs.Walks.{Walk, new_walk};
ghost use Rattle.caller_pass.specs.declared.walks.Walked.{Walked as Key};
ghost use Rattle.caller_pass.specs.Keeping.{walk_at};

use attr_rules::AttrId;
use collection_attrs::Offers;
use std::alloc::Global;
use std::collections::HashMap;
use std::marker::Model;

/// A collection attribute, and the root of the subtree in which a walk goes over what is offered to it.
#[derive(Clone, Copy, Debug, PartialEq, Eq, Hash)]
pub(crate) struct Walked {
    pub attr: AttrId,
    pub root: u32,
}

/// The walks that are kept, by attribute and root.
#[derive(Drop)]
pub(crate) struct Walks {
    kept: HashMap<Walked, Offers>,
}

// Keeps a walk, if there is memory for that.
fn keep(kept: &mut HashMap<Walked, Offers>, walked: Walked, offers: Offers)
    ensures { (k : Key) (w : Walk) → walk_at kept.new.entries k ≡ Some w → (walk_at kept.old.entries k ≡ Some w) ⊎ ((k ≡ walked) × (w ≡ offers)) }
{
    let _kept = kept.insert(walked, offers);
}

impl Model for Walks {
    ghost use Rattle.std.specs.Prelude.{List};
    ghost use Rattle.collection_attrs.specs.Walks.{Walk};
    ghost use Rattle.caller_pass.specs.declared.walks.Walked.{Walked as Key};
    ghost use Rattle.caller_pass.specs.Keeping.{AreKeyed};

    ghost Value = { List (Key × Walk) };

    ghost view = { λ w. w.kept.entries };

    ghost invariant = { λ w. AreKeyed w.kept.entries };
}

impl Walks {
    /// None is kept yet. It takes no memory.
    pub(crate) fn new(alloc: Global) -> Walks
        ensures { result ≡ [] }
    {
        Walks {
            kept: HashMap::new(alloc),
        }
    }

    /// Takes away the walk of an attribute in the subtree of a root, or begins one.
    pub(crate) fn take(&mut self, alloc: Global, attr: AttrId, root: u32) -> Offers
        ensures of { (result.attribute ≡ attr.0) × (result.root ≡ root) }
        ensures walk { (result ≡ new_walk attr.0 root) ⊎ ((k : Key) × (walk_at self.old k ≡ Some result)) }
        ensures others { (k : Key) (w : Walk) → walk_at self.new k ≡ Some w → walk_at self.old k ≡ Some w }
    {
        match self.kept.remove(&Walked { attr, root }) {
            Some(offers) => offers,
            None => Offers::new(alloc, attr, root),
        }
    }

    /// Puts a walk back, if there is memory for that. One that is lost begins anew.
    pub(crate) fn put(&mut self, offers: Offers)
        ensures { (k : Key) (w : Walk) → walk_at self.new k ≡ Some w → (walk_at self.old k ≡ Some w) ⊎ (w ≡ offers) }
    {
        let walked = Walked {
            attr: offers.attr(),
            root: offers.root(),
        };
        keep(&mut self.kept, walked, offers);
    }
}
