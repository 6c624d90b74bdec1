// The parts of a `new`, and the rules on it: J12 and J17.
ghost use Rattle.std.specs.Prelude.{◌≡◌, ◌<◌, suc, IfOk, IfSome, length, min};
ghost use Rattle.std.specs.Option.{option_map};
ghost use Rattle.ast_grammar.specs.Grammar.{component_at, most_components, number_of};
ghost use Rattle.attr_rules.specs.Expression.{expression_of, new_arguments_of, new_token};
ghost use Rattle.attr_rules.specs.Rules.{most_created};
ghost use Rattle.attr_rules.specs.Typing as spec;
ghost use Rattle.broken_rules.specs.declared.rule.Rule.TheVariants.{J12};
ghost use Rattle.broken_rules.specs.Notes.{Notes, at, broken_if};
ghost use Rattle.expr_typing.specs.Created.{argument_before, child_before, child_broken, is_too_large, is_unmade, new_said, size_broken, taken_at, taken_for};

use crate::typed::boxed;
use ast_grammar::{ClassId, Component, Grammar, Shape};
use attr_rules::{Kind, NewArgs, TExpr};
use broken_rules::{Earliest, Rule};
use rag_io::{Memory, Place};
use std::alloc::Global;

/// A tree that is made has at most so many nodes, and so many token values.
const MOST_CREATED: u32 = 16;

/// What a `new` takes as its argument for a component.
#[derive(Clone, Copy, Debug, PartialEq, Eq)]
pub enum Takes {
    /// A value of this type, for a token.
    Token(Kind),
    /// A `new` of this class or below, for a child.
    Child(ClassId),
    /// Nothing: there is no argument for a list or an optional.
    Nothing,
}

fn taken_for(component: Component) -> Takes
    ensures { result ≡ taken_at component }
{
    match component.shape {
        Shape::Child => Takes::Child(component.class),
        Shape::Text => Takes::Token(Kind::Text),
        Shape::Int => Takes::Token(Kind::Int),
        Shape::Truth => Takes::Token(Kind::Truth),
        Shape::List | Shape::Optional => Takes::Nothing,
    }
}

/// What a `new` of a class takes for a component by its place, from 0, where the class has so many.
pub fn taken(grammar: &Grammar, class: ClassId, k: u32) -> Option<Takes>
    requires { class.0 < length grammar.now }
    ensures taken { result ≡ option_map taken_for (component_at grammar.now class.0 k) }
    ensures short { IfSome result (λ takes. k < most_components) }
{
    if k >= grammar.arity(class) {
        return None;
    }
    Some(taken_for(*grammar.component(class, k)))
}

/// J12 at a `new` of a class with so many arguments: an abstract class makes nothing, and there are as many arguments as components.
pub fn check_made(
    grammar: &Grammar,
    place: Place,
    class: ClassId,
    count: usize,
    faults: &mut Earliest,
)
    requires { class.0 < length grammar.now }
    ensures { Notes (broken_if (is_unmade grammar.now class.0 count) (at place J12)) faults.old faults.new }
{
    let is_unmade = grammar.is_abstract(class) || grammar.arity(class) as usize != count;
    faults.note_if(is_unmade, Rule::J12, place);
}

/// J12 at a `new` that has a child of a class, where that is known, and takes one of another.
pub fn check_child(
    grammar: &Grammar,
    place: Place,
    wanted: ClassId,
    class: Option<ClassId>,
    faults: &mut Earliest,
)
    ensures { Notes (child_broken grammar.now place wanted (option_map number_of class)) faults.old faults.new }
{
    let Some(class) = class else { return };
    faults.note_if(!grammar.is_sub(class, wanted), Rule::J12, place);
}

// How many nodes are made below the root, of which one too many is the last that counts.
fn nodes_below(arguments: &NewArgs) -> u32
    ensures { result ≡ min (spec.nodes_below (new_arguments_of arguments.now)) (suc most_created) }
{
    match arguments {
        NewArgs::End => 0,
        NewArgs::Token(_, _, rest) => nodes_below(rest),
        NewArgs::Child(_, below, rest) => {
            let nodes = 1 + nodes_below(below) + nodes_below(rest);
            nodes.min(MOST_CREATED + 1)
        }
    }
}

// How many token values all nodes have, of which one too many is the last that counts.
fn tokens_made(arguments: &NewArgs) -> u32
    ensures { result ≡ min (spec.tokens_made (new_arguments_of arguments.now)) (suc most_created) }
{
    match arguments {
        NewArgs::End => 0,
        NewArgs::Token(_, _, rest) => (1 + tokens_made(rest)).min(MOST_CREATED + 1),
        NewArgs::Child(_, below, rest) => {
            let tokens = tokens_made(below) + tokens_made(rest);
            tokens.min(MOST_CREATED + 1)
        }
    }
}

fn is_too_large(said: &TExpr) -> bool
    ensures { result ≡ is_too_large (expression_of said.now) }
{
    match said {
        TExpr::New(_, arguments) => {
            1 + nodes_below(arguments) > MOST_CREATED || tokens_made(arguments) > MOST_CREATED
        }
        _ => false,
    }
}

/// J17 at a `new` that makes too large a tree.
pub fn check_size(place: Place, said: &TExpr, faults: &mut Earliest)
    ensures { Notes (size_broken place (expression_of said.now)) faults.old faults.new }
{
    faults.note_if(is_too_large(said), Rule::J17, place);
}

/// What a `new` says. One of no known class says `null`.
pub fn new_said(class: Option<ClassId>, arguments: NewArgs) -> TExpr
    ensures { expression_of result ≡ new_said (option_map number_of class) (new_arguments_of arguments) }
{
    match class {
        None => TExpr::Null,
        Some(class) => TExpr::New(class, arguments),
    }
}

fn boxed_arguments(alloc: Global, arguments: NewArgs) -> Result<Box<NewArgs>, Memory>
    ensures { IfOk result (λ b. new_arguments_of b.value ≡ new_arguments_of arguments) }
{
    Box::new(alloc, arguments).map_err(|_| Memory)
}

fn child_before(alloc: Global, child: TExpr, rest: NewArgs) -> Result<NewArgs, Memory>
    ensures { IfOk result (λ parts. new_arguments_of parts ≡ child_before (expression_of child) (new_arguments_of rest)) }
{
    match child {
        TExpr::New(class, arguments) => {
            let arguments = boxed_arguments(alloc, arguments)?;
            let rest = boxed_arguments(alloc, rest)?;
            Ok(NewArgs::Child(class, arguments, rest))
        }
        _ => Ok(rest),
    }
}

fn token_before(alloc: Global, kind: Kind, token: TExpr, rest: NewArgs) -> Result<NewArgs, Memory>
    ensures { IfOk result (λ parts. new_arguments_of parts ≡ new_token kind (expression_of token) (new_arguments_of rest)) }
{
    let token = boxed(alloc, token)?;
    let rest = boxed_arguments(alloc, rest)?;
    Ok(NewArgs::Token(kind, token, rest))
}

/// One argument of a `new` more, before others. A child that makes nothing is left out.
pub fn argument_before(
    alloc: Global,
    takes: Takes,
    argument: TExpr,
    rest: NewArgs,
) -> Result<NewArgs, Memory>
    ensures { IfOk result (λ parts. new_arguments_of parts ≡ argument_before takes (expression_of argument) (new_arguments_of rest)) }
{
    match takes {
        Takes::Token(kind) => token_before(alloc, kind, argument, rest),
        Takes::Child(_) => child_before(alloc, argument, rest),
        Takes::Nothing => Ok(rest),
    }
}
