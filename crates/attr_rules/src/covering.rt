// What covers what hangs at nodes of a class.
ghost use Rattle.std.specs.Prelude.{◌≡◌, ◌<◌, ◌≤◌, ℕ, IfOk, None, length};
ghost use Rattle.std.specs.Option.{option_map};
ghost use Rattle.ast_grammar.specs.Grammar.{superclasses_of};
ghost use Rattle.attr_rules.specs.declared.dispatch.Reach.TheVariants.{Children};
ghost use Rattle.attr_rules.specs.declared.dispatch.Via.{Via};
ghost use Rattle.attr_rules.specs.Dispatching.{AddsClass, CoversUpwards, KeepsFirst, KeepsNamed, PutsChildren, covered_by, number_for, number_in};
ghost use Rattle.attr_rules.specs.RowsKept.{at_place};
ghost use Rattle.attr_rules.specs.Rules.{number_of_equation};

use crate::dispatch::{Target, Via};
use crate::kinds::{AttrId, EqId};
use crate::rows::{at_place, put_first};
use ast_grammar::Grammar;
use rag_io::Memory;
use std::alloc::Global;
use std::collections::HashMap;
use std::marker::Model;

/// By what a node hangs and an attribute, as a key.
#[derive(Clone, Copy, Debug, PartialEq, Eq, Hash)]
pub struct Key {
    pub via: Via,
    pub attribute: AttrId,
}

/// Equations, each kept for what hangs by a component or a higher-order attribute, and for an attribute.
#[derive(Drop)]
pub struct Named {
    equations: HashMap<Key, EqId>,
}

impl Model for Named {
    ghost use Rattle.std.specs.Prelude.{List};
    ghost use Rattle.attr_rules.specs.declared.kinds.EqId.{EqId as EquationNumber};
    ghost use Rattle.attr_rules.specs.declared.covering.Key.{Key as PathKey};

    ghost Value = { List (PathKey × EquationNumber) };

    ghost view = { λ n. n.equations.entries };
}

/// Which equation covers what hangs by each component and higher-order attribute at nodes of a class, for each attribute. Where the class or a
/// superclass has an equation for just what hangs by it, it is kept by these two. Of all others it is one for every child, at the place of the
/// attribute.
#[derive(Drop)]
pub struct Covering {
    named: Named,
    children: Vec<Option<EqId>>,
}

// Keeps an equation for what hangs by something and for an attribute, unless one is kept already.
fn keep_first(named: &mut HashMap<Key, EqId>, key: Key, equation: EqId) -> Result<(), Memory>
    ensures { IfOk result (λ _. KeepsFirst key equation named.old named.new) }
{
    if named.contains_key(&key) {
        return Ok(());
    }
    match named.insert(key, equation) {
        Ok(_) => Ok(()),
        Err(_) => Err(Memory),
    }
}

// Keeps these equations for the components and higher-order attributes that they name. Where a nearer class has one for every child, that is kept.
fn keep_named(
    named: &mut HashMap<Key, EqId>,
    children: &[Option<EqId>],
    paths: &[(Target, EqId)],
) -> Result<(), Memory>
    ensures { IfOk result (λ _. KeepsNamed children.now paths.now named.old named.new) }
{
    for path in paths {
        let (target, equation) = *path;
        if let Some(via) = target.reach.via() {
            let nearer = at_place(children, target.attribute.0 as usize);
            let key = Key {
                via,
                attribute: target.attribute,
            };
            keep_first(named, key, nearer.unwrap_or(equation))?;
        }
    }
    Ok(())
}

// Puts those of these equations that are for every child at the places of their attributes, where there is none yet.
fn put_children(children: &mut [Option<EqId>], paths: &[(Target, EqId)])
    requires { (a : ℕ) → length children.now ≤ a → number_for paths.now Children a ≡ None }
    ensures long { length children.new ≡ length children.old }
    ensures each { PutsChildren paths.now children.old children.new }
{
    for path in paths {
        let (target, equation) = *path;
        if target.reach.is_children() {
            put_first(children, target.attribute.0 as usize, equation);
        }
    }
}

impl Covering {
    // Nothing covers, of so many attributes.
    fn empty(alloc: Global, attributes: u32) -> Result<Covering, Memory>
        ensures long { IfOk result (λ c. length c.children.items ≡ attributes) }
        ensures none { IfOk result (λ c. (v : Via) (a : ℕ) → covered_by c v a ≡ None) }
    {
        let equations = HashMap::new(alloc);
        let named = Named { equations };
        let children = vec![in alloc; None; attributes as usize].map_err(|_| Memory)?;
        Ok(Covering { named, children })
    }

    // Takes in the equations of exactly one class more, farther than those before: they cover what nothing covers yet.
    fn add_class(&mut self, paths: &[(Target, EqId)]) -> Result<(), Memory>
        requires { (a : ℕ) → length self.now.children.items ≤ a → number_for paths.now Children a ≡ None }
        ensures { IfOk result (λ _. AddsClass paths.now self.old self.new) }
    {
        keep_named(&mut self.named.equations, &self.children, paths)?;
        put_children(&mut self.children, paths);
        Ok(())
    }

    /// What covers at nodes of a class, by the equations with a path of exactly each class.
    pub(crate) fn of_class(
        alloc: Global,
        grammar: &Grammar,
        attributes: u32,
        own: &[Vec<(Target, EqId)>],
        class: usize,
    ) -> Result<Covering, Memory>
        requires known { class < length own.now }
        requires within { (c a : ℕ) → attributes ≤ a → number_in own.now c Children a ≡ None }
        ensures { IfOk result (λ c. CoversUpwards (superclasses_of grammar.now) own.now class c) }
    {
        let subclasses = grammar.subclasses();
        let mut covering = Covering::empty(alloc, attributes)?;
        covering.add_class(&own[class])?;
        let mut above = subclasses.superclass(class);
        for _ in 0..grammar.classes() {
            let Some(number) = above else { break };
            if let Some(paths) = own.get(number) {
                covering.add_class(paths)?;
            }
            above = subclasses.superclass(number);
        }
        Ok(covering)
    }

    /// The equation that covers what hangs by a component or a higher-order attribute. It takes constant time.
    pub(crate) fn find(&self, via: Via, attribute: AttrId) -> Option<EqId>
        ensures { option_map number_of_equation result ≡ covered_by self.now via attribute.0 }
    {
        let key = Key { via, attribute };
        let named = self.named.equations.get(&key).copied();
        named.or_else(|| at_place(&self.children, attribute.0 as usize))
    }
}
