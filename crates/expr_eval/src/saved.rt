// How far forms over elements have gone, which an evaluation that stops leaves behind.
ghost use Rattle.std.specs.Prelude.{◌≡◌, true, IfSome};
ghost use Rattle.attr_rules.specs.Expression.{expression_of};
ghost use Rattle.expr_eval.specs.Elements.{Rooms};
ghost use Rattle.expr_eval.specs.Saved.{AddsOne, IsAt, IsSavedAt, IsTaken, Loses, SavesNothing, making_of as makes};

use crate::accessors::Elements;
use crate::evaluation::Context;
use attr_rules::{Kind, Quantifier, TExpr};
use equation_law::{NodeRef, Single, Value};
use expr_equality::same;
use rag_io::Memory;
use std::alloc::Global;

/// What a form over elements makes of what is said at them: by a condition, or the union, of a type, of sets.
#[derive(Clone, Copy)]
pub(crate) enum Making {
    Tests(Quantifier),
    Joins(Kind),
}

/// Where a form over elements stands: the element that it was at last, in front of the values of the names; how many elements it has done with;
/// and what it made of these.
#[derive(Drop)]
pub(crate) struct Stand {
    pub(crate) names: Vec<Single>,
    pub(crate) next: usize,
    pub(crate) so_far: Value,
}

/// A form over elements that was read at a node, its elements, and where it stands.
#[derive(Drop)]
pub(crate) struct Going<'a> {
    form: &'a TExpr,
    this: NodeRef,
    list: Elements,
    stand: Stand,
}

/// What an evaluation that stopped leaves behind: how far each form over elements has gone, those that ended too. It is true for every
/// evaluation over what the reader has then or later, so an evaluation that goes on with it goes over each element once. Where no form over
/// elements was met, it takes no memory.
#[derive(Drop)]
pub struct Saved<'a> {
    goings: Vec<Going<'a>>,
}

/// What a form over elements makes.
pub(crate) fn making_of(form: &TExpr) -> Making
    ensures { result ≡ makes (expression_of form.now) }
{
    match form {
        TExpr::Quantified(quantifier, _, _, _) => Making::Tests(*quantifier),
        TExpr::QuantifiedSet(quantifier, _, _) => Making::Tests(*quantifier),
        TExpr::Each(kind, _, _, _) => Making::Joins(*kind),
        TExpr::EachOfSet(kind, _, _) => Making::Joins(*kind),
        _ => Making::Tests(Quantifier::Any),
    }
}

impl<'a> Going<'a> {
    /// Whether it is at these names.
    fn has_names(&self, names: &[Single]) -> bool
        ensures { result ≡ true → Rooms names.now self.now.stand.names.items }
    {
        match self.stand.names.split_first() {
            Some((_, own)) => own == names,
            None => false,
        }
    }

    /// Whether it is about this form, at this node and with these names.
    fn is_at(&self, context: &Context<'_>, form: &TExpr) -> bool
        ensures { result ≡ true → IsAt context.now (expression_of form.now) self.now }
    {
        if self.this != context.this || !self.has_names(context.names) {
            return false;
        }
        same(self.form, form)
    }

    /// At how many names it is.
    fn depth(&self) -> usize {
        self.stand.names.len().saturating_sub(1)
    }
}

impl<'a> Saved<'a> {
    /// Nothing is saved.
    pub fn new(alloc: Global) -> Saved<'a>
        ensures { SavesNothing result }
    {
        Saved {
            goings: Vec::new(alloc),
        }
    }

    /// Whether nothing is saved.
    pub fn is_empty(&self) -> bool
        ensures nothing { result ≡ true → SavesNothing self.now }
        ensures something { SavesNothing self.now → result ≡ true }
    {
        self.goings.is_empty()
    }

    /// The place of what is saved of a form at a node with names.
    fn find(&self, context: &Context<'_>, form: &TExpr) -> Option<usize>
        ensures { IfSome result (IsSavedAt context.now (expression_of form.now) self.now) }
    {
        for k in 0..self.goings.len() {
            if self.goings[k].is_at(context, form) {
                return Some(k);
            }
        }
        None
    }

    /// Takes away what is saved of a form at a node with names.
    pub(crate) fn take(&mut self, context: &Context<'_>, form: &TExpr) -> Option<(Elements, Stand)>
        ensures taken { IfSome result (IsTaken context.now (expression_of form.now) self.old) }
        ensures loses { Loses self.old self.new }
    {
        let k = self.find(context, form)?;
        let going = self.goings.swap_remove(k);
        Some((going.list, going.stand))
    }

    /// Saves where a form at a node stands.
    pub(crate) fn put(
        &mut self,
        form: &'a TExpr,
        this: NodeRef,
        list: Elements,
        stand: Stand,
    ) -> Result<(), Memory>
        ensures { AddsOne self.old self.new (record { form = form.entry; this = this; list = list; stand = stand }) }
    {
        let going = Going {
            form,
            this,
            list,
            stand,
        };
        match self.goings.push(going) {
            Ok(()) => Ok(()),
            Err(_) => Err(Memory),
        }
    }

    /// Lets go of what is saved at more names than so many: the elements that those stand for are done with.
    pub(crate) fn leave(&mut self, names: usize)
        ensures { Loses self.old self.new }
    {
        let mut k = 0;
        'goings: while k < self.goings.len() {
            if self.goings[k].depth() > names {
                let _ = self.goings.swap_remove(k);
            } else {
                k += 1;
            }
        }
    }
}
