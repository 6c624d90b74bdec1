// The rules of a grammar.
ghost use Rattle.std.specs.Prelude.{◌≡◌, ◌*◌, ◌≤◌, ◌<◌, length, map, slice_get, Some, IfNone, IfOk, IfSome};
ghost use Rattle.std.specs.List.{flat_map};
ghost use Rattle.std.specs.Option.{option_map};
ghost use Rattle.attr_rules.specs.Dispatching.{Dispatches};
ghost use Rattle.attr_rules.specs.Expression.{expression_of};
ghost use Rattle.attr_equations.specs.KeptContributions.{AreNumbered, IsContributionAt, contribution_in};
ghost use Rattle.attr_equations.specs.KeptEquations.{kept_target};
ghost use Rattle.attr_equations.specs.Offered.{AreGrouped, IsNextFor, NoneFor};
ghost use Rattle.attr_rules.specs.Rules.{attribute_at, bodies, body_at, covering_number, equation_number, expressions_in, method_at, most_attributes, number_of_attribute, number_of_equation, root_at, target_in};

use crate::contributions::{Contribution, KeptContribution};
use crate::offered::{first_from, grouped};
use ast_grammar::{ClassId, Grammar};
use attr_rules::{Attr, AttrId, Attributes, Dispatch, EqId, Method, TExpr, Target, Via};
use groups::Groups;
use rag_io::Memory;
use std::alloc::Global;

/// An equation: what it is for, and its right side.
#[derive(Drop)]
pub struct KeptEquation {
    pub target: Target,
    pub body: TExpr,
}

/// The declared attributes of a grammar, at most 1,024, their equations, and the contributions to collections. The expressions of these are
/// numbered behind the equations, and the numbers of those to one collection stand side by side. What it is asked takes no memory.
#[derive(Drop)]
pub struct Rules {
    attributes: Attributes,
    dispatch: Dispatch,
    equations: Vec<KeptEquation>,
    contributions: Vec<KeptContribution>,
    offered: Groups,
    ghost dispatched: { Dispatches attributes.superclasses (map kept_target equations.items) dispatch },
    ghost numbered: { AreNumbered (length equations.items) contributions.items },
    ghost by_target: { AreGrouped contributions.items offered },
}

// The expression at a place among those of some contributions, of which each has three.
fn offered(contributions: &[KeptContribution], place: usize) -> &TExpr
    requires { place < 3 * length contributions.now }
    ensures { slice_get (flat_map expressions_in (map contribution_in contributions.now)) place ≡ Some (expression_of result.now) }
{
    let contribution = &contributions[place / 3];
    match place % 3 {
        0 => &contribution.condition,
        1 => &contribution.receiver,
        _ => &contribution.value,
    }
}

impl Rules {
    ghost use Rattle.attr_equations.specs.Kept.{attribute_found, rules_in, rules_of};

    /// The rules of these attributes, equations and contributions, with where each equation holds.
    pub fn of_parts(
        alloc: Global,
        attributes: Attributes,
        dispatch: Dispatch,
        equations: Vec<KeptEquation>,
        contributions: Vec<KeptContribution>,
    ) -> Result<Rules, Memory>
        requires dispatched { Dispatches attributes.superclasses (map kept_target equations.items) dispatch }
        requires numbered { AreNumbered (length equations.items) contributions.items }
        ensures { IfOk result (λ rules. rules_in rules ≡ rules_of attributes equations.items contributions.items) }
    {
        let offered = grouped(alloc, &contributions)?;
        Ok(Rules {
            attributes,
            dispatch,
            equations,
            contributions,
            offered,
        })
    }

    /// The attributes.
    pub fn attributes(&self) -> &Attributes
        ensures { result.now ≡ record { superclasses = (rules_in self.now).superclasses; attributes = (rules_in self.now).attributes } }
    {
        &self.attributes
    }

    /// The number of attributes.
    pub fn attrs(&self) -> u32
        ensures number { result ≡ length (rules_in self.now).attributes }
        ensures few { result ≤ most_attributes }
    {
        self.attributes.len()
    }

    /// What is declared of an attribute.
    pub fn attr(&self, a: AttrId) -> &Attr
        requires { a.0 < length (rules_in self.now).attributes }
        ensures { attribute_at (rules_in self.now) a.0 ≡ Some result.now }
    {
        self.attributes.attr(a)
    }

    /// The attribute of this name that is declared for the class or a superclass, or None where none is. It takes the time of one look-up.
    pub fn find(&self, _grammar: &Grammar, class: ClassId, name: &[u8]) -> Option<AttrId>
        requires { class.0 < length (rules_in self.now).superclasses }
        ensures number { option_map number_of_attribute result ≡ attribute_found (rules_in self.now) class name.now }
        ensures within { IfSome result (λ a. a.0 < length (rules_in self.now).attributes) }
    {
        self.attributes.find(class, name)
    }

    /// The number of equations.
    pub fn equations(&self) -> u32
        ensures { result ≡ length (rules_in self.now).equations }
    {
        self.equations.len() as u32
    }

    /// The equation that gives a synthesized attribute its value at nodes of a class: that of the nearest class, from
    /// this one upwards. None where there is none. It takes constant time.
    pub fn syn_equation(&self, class: ClassId, a: AttrId) -> Option<EqId>
        ensures number { option_map number_of_equation result ≡ equation_number (rules_in self.now) class a.0 }
        ensures within { IfSome result (λ e. e.0 < length (rules_in self.now).equations) }
    {
        self.dispatch.find(class, a)
    }

    /// The equation that gives an inherited attribute its value at what hangs by a component or a higher-order attribute at nodes of a
    /// class: that of the nearest class, from this one upwards, and in a class one for just that before one for every child. None where
    /// there is none. It takes constant time.
    pub fn inh_equation(&self, class: ClassId, via: Via, a: AttrId) -> Option<EqId>
        ensures number { option_map number_of_equation result ≡ covering_number (rules_in self.now) class via a.0 }
        ensures within { IfSome result (λ e. e.0 < length (rules_in self.now).equations) }
    {
        let first = self.attributes.first_of_name(a)?;
        self.dispatch.find_covering(class, via, first)
    }

    /// What an equation is for.
    pub fn target(&self, e: EqId) -> Target
        requires { e.0 < length (rules_in self.now).equations }
        ensures { option_map target_in (slice_get (rules_in self.now).equations e.0) ≡ Some result }
    {
        self.equations[e.0 as usize].target
    }

    /// The right side of an equation, or the expression of a contribution.
    pub fn body(&self, e: EqId) -> &TExpr
        requires { e.0 < length (bodies (rules_in self.now)) }
        ensures { body_at (rules_in self.now) e.0 ≡ Some (expression_of result.now) }
    {
        let place = e.0 as usize;
        match self.equations.get(place) {
            Some(equation) => &equation.body,
            None => offered(&self.contributions, place - self.equations.len()),
        }
    }

    /// The method of a collection, or None where the attribute is none.
    pub fn method(&self, a: AttrId) -> Option<Method>
        requires { a.0 < length (rules_in self.now).attributes }
        ensures { result ≡ method_at (rules_in self.now) a.0 }
    {
        Some(self.attributes.collecting(a)?.method)
    }

    /// The root class of a collection, or None where the attribute is none or its root class isn't written.
    pub fn root(&self, a: AttrId) -> Option<ClassId>
        requires { a.0 < length (rules_in self.now).attributes }
        ensures { result ≡ root_at (rules_in self.now) a.0 }
    {
        self.attributes.collecting(a)?.root
    }

    /// The number of contributions.
    pub fn contributions(&self) -> u32
        ensures { result ≡ length (rules_in self.now).contributions }
    {
        self.contributions.len() as u32
    }

    /// A contribution. They are numbered in the order of the file.
    pub fn contribution(&self, k: u32) -> &Contribution
        requires { k < length (rules_in self.now).contributions }
        ensures { IsContributionAt (rules_in self.now) k result.now }
    {
        &self.contributions[k as usize].numbers
    }

    /// The first contribution to an attribute from a number on, or None where none is behind it. It takes logarithmic time.
    pub fn contribution_for(&self, a: AttrId, from: u32) -> Option<u32>
        ensures some { IfSome result (IsNextFor (rules_in self.now) a.0 from) }
        ensures none { IfNone result (NoneFor (rules_in self.now) a.0 from) }
    {
        let group = u32::from(a.0);
        if group >= self.offered.len() {
            return None;
        }
        first_from(self.offered.group(group), from)
    }
}
