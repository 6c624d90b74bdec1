// The broken rule that counts.
ghost use Rattle.std.specs.Prelude.{◌≡◌, [], ◌∷◌, None};
ghost use Rattle.broken_rules.specs.Answers.{answer_of};
ghost use Rattle.broken_rules.specs.Notes.{Notes, at, broken_if};

use crate::broken::{Broken, ReadFault};
use crate::rule::Rule;
use rag_io::Place;
use std::marker::Model;

/// The first of the broken rules that were noted so far, in whatever order they were noted.
#[derive(Drop)]
pub struct Earliest {
    found: Option<Broken>,
}

impl Model for Earliest {
    ghost use Rattle.std.specs.Prelude.{Option};
    ghost use Rattle.broken_rules.specs.declared.broken.Broken.{Broken};

    ghost Value = { Option Broken };

    ghost view = { λ earliest. earliest.found };
}

impl Earliest {
    /// Nothing was noted.
    pub fn new() -> Earliest
        ensures { result ≡ None }
    {
        Earliest { found: None }
    }

    /// Notes that the rule is broken at the place.
    pub fn note(&mut self, rule: Rule, place: Place)
        ensures { Notes (at place rule ∷ []) self.old self.new }
    {
        let broken = Broken { place, rule };
        self.found = match self.found {
            None => Some(broken),
            Some(known) => Some(if broken.is_before(&known) {
                broken
            } else {
                known
            }),
        };
    }

    /// Notes the rule where it is broken.
    pub fn note_if(&mut self, is_broken: bool, rule: Rule, place: Place)
        ensures { Notes (broken_if is_broken (at place rule)) self.old self.new }
    {
        if is_broken {
            self.note(rule, place);
        }
    }

    /// The first of the broken rules, or none where nothing was noted.
    pub fn found(&self) -> Option<Broken>
        ensures { result ≡ self.now }
    {
        self.found
    }

    /// What a phase gives that noted these: the first of the broken rules, or that it passed where nothing was noted.
    pub fn answer(&self) -> Result<(), ReadFault>
        ensures { result ≡ answer_of self.now }
    {
        match self.found {
            None => Ok(()),
            Some(broken) => Err(ReadFault::Broken(broken)),
        }
    }
}

impl Default for Earliest {
    ghost is_default = { λ earliest. earliest ≡ None };

    fn default() -> Earliest {
        Earliest::new()
    }
}
