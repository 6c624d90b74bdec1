// What a `new` makes, node by node.
ghost use Rattle.std.specs.Prelude.{◌≡◌, ◌+◌, ◌≤◌, ℕ, IfSome, Option, slice_get};
ghost use Rattle.std.specs.Option.{option_and_then, option_map};
ghost use Rattle.attr_rules.specs.Expression.{new_arguments_of};
ghost use Rattle.attr_rules.specs.Typing as typing;
ghost use Rattle.equation_law.specs.Created.{own_tokens};
ghost use Rattle.equation_law.specs.Systems.{program_of};
ghost use Rattle.made_trees.specs.Makers as makers;
ghost use Rattle.made_trees.specs.Stands.{IsFoundFrom, IsSmall, IsSmallFrom, most_parts, stands_of, stands_or_none};
ghost use Rattle.made_trees.specs.Stands as stands;

use ast_grammar::ClassId;
use attr_rules::{EqId, NewArgs, TExpr};
use equation_law::System;

/// A node: its class, its arguments, its parent with the component at which it hangs there, and how many tokens stand in front of its own.
#[derive(Clone, Copy)]
pub(crate) struct Stand<'a> {
    pub(crate) class: ClassId,
    pub(crate) parts: &'a NewArgs,
    pub(crate) parent: u32,
    pub(crate) component: u32,
    pub(crate) tokens: u32,
}

/// Where some arguments of a node begin: its position, the position of the next node, the next component, and how many tokens stand in front.
#[derive(Clone, Copy)]
pub(crate) struct Front {
    pub(crate) parent: u32,
    pub(crate) first: u32,
    pub(crate) component: u32,
    pub(crate) tokens: u32,
}

/// The node at a position of the tree that an equation makes, if there is one.
pub(crate) fn stand_in<'a>(
    system: &'a System,
    equation: Option<EqId>,
    position: u32,
) -> Option<Stand<'a>>
    requires within { makers.IsEquationWithin (program_of system.now) equation }
    requires small { IfSome (makers.making_by (program_of system.now) equation) IsSmall }
    ensures { slice_get (stands_or_none (makers.making_by (program_of system.now) equation)) position ≡ option_map stands.stand_of result }
{
    match system.rules().body(equation?) {
        TExpr::New(class, parts) => stand_of(*class, parts, position),
        _ => None,
    }
}

/// The node at a position of a tree of this class with these arguments.
fn stand_of<'a>(class: ClassId, parts: &'a NewArgs, position: u32) -> Option<Stand<'a>>
    requires { IsSmall (record { class = class; arguments = new_arguments_of parts.now }) }
    ensures { slice_get (stands_of (record { class = class; arguments = new_arguments_of parts.now })) position ≡ option_map stands.stand_of result }
{
    if position == 0 {
        return Some(Stand {
            class,
            parts,
            parent: 0,
            component: 0,
            tokens: 0,
        });
    }
    let front = Front {
        parent: 0,
        first: 1,
        component: 0,
        tokens: 0,
    };
    find(parts, front, position).ok()
}

/// How many nodes are made below a node.
fn nodes_below(parts: &NewArgs) -> u32
    requires { typing.nodes_below (new_arguments_of parts.now) ≤ most_parts }
    ensures { result ≡ typing.nodes_below (new_arguments_of parts.now) }
{
    match parts {
        NewArgs::End => 0,
        NewArgs::Token(_, _, rest) => nodes_below(rest),
        NewArgs::Child(_, below, rest) => 1 + nodes_below(below) + nodes_below(rest),
    }
}

/// How many tokens they all have.
fn tokens_made(parts: &NewArgs) -> u32
    requires { typing.tokens_made (new_arguments_of parts.now) ≤ most_parts }
    ensures { result ≡ typing.tokens_made (new_arguments_of parts.now) }
{
    match parts {
        NewArgs::End => 0,
        NewArgs::Token(_, _, rest) => 1 + tokens_made(rest),
        NewArgs::Child(_, below, rest) => tokens_made(below) + tokens_made(rest),
    }
}

/// The node at a position, or the position behind the last node where it comes earlier.
pub(crate) fn find<'a>(parts: &'a NewArgs, at: Front, wanted: u32) -> Result<Stand<'a>, u32>
    requires small { IsSmallFrom at (new_arguments_of parts.now) }
    requires front { at.first ≤ wanted }
    ensures { IsFoundFrom at (new_arguments_of parts.now) wanted result }
{
    match parts {
        NewArgs::End => Err(at.first),
        NewArgs::Token(_, _, rest) => find(rest, behind_token(at), wanted),
        NewArgs::Child(class, below, rest) => {
            if at.first == wanted {
                return Ok(Stand {
                    class: *class,
                    parts: below,
                    parent: at.parent,
                    component: at.component,
                    tokens: at.tokens,
                });
            }
            match find(below, inside(at), wanted) {
                Ok(stand) => Ok(stand),
                Err(next) => find(rest, behind_child(at, next, tokens_made(below)), wanted),
            }
        }
    }
}

/// Behind a token.
fn behind_token(at: Front) -> Front
    requires component { at.component ≤ most_parts }
    requires tokens { at.tokens ≤ most_parts }
    ensures { result ≡ record { parent = at.parent; first = at.first; component = at.component + 1; tokens = at.tokens + 1 } }
{
    Front {
        component: at.component + 1,
        tokens: at.tokens + 1,
        ..at
    }
}

/// Below the child that comes next.
fn inside(at: Front) -> Front
    requires { at.first ≤ most_parts }
    ensures { result ≡ record { parent = at.first; first = at.first + 1; component = 0; tokens = at.tokens } }
{
    Front {
        parent: at.first,
        first: at.first + 1,
        component: 0,
        tokens: at.tokens,
    }
}

/// Behind a child with so many tokens.
fn behind_child(at: Front, next: u32, tokens: u32) -> Front
    requires component { at.component ≤ most_parts }
    requires tokens { at.tokens + tokens ≤ most_parts }
    ensures { result ≡ record { parent = at.parent; first = next; component = at.component + 1; tokens = at.tokens + tokens } }
{
    Front {
        parent: at.parent,
        first: next,
        component: at.component + 1,
        tokens: at.tokens + tokens,
    }
}

/// The position of the child at a component of these arguments, the next node having this position.
pub(crate) fn child_place(parts: &NewArgs, next: u32, component: u32) -> Option<u32>
    requires { next + typing.nodes_below (new_arguments_of parts.now) ≤ most_parts }
    ensures { result ≡ stands.child_place (new_arguments_of parts.now) next component }
{
    match parts {
        NewArgs::End => None,
        NewArgs::Token(_, _, rest) => child_place(rest, next, component.checked_sub(1)?),
        NewArgs::Child(_, below, rest) => {
            let Some(later) = component.checked_sub(1) else {
                return Some(next);
            };
            child_place(rest, next + 1 + nodes_below(below), later)
        }
    }
}

/// The place of the token at a component of these arguments, the next token having this place.
pub(crate) fn own_token(parts: &NewArgs, next: u32, component: u32) -> Option<u32>
    requires { next + typing.tokens_made (new_arguments_of parts.now) ≤ most_parts }
    ensures { result ≡ option_and_then (λ (x : Option ℕ). x) (slice_get (own_tokens (new_arguments_of parts.now) next) component) }
{
    match parts {
        NewArgs::End => None,
        NewArgs::Token(_, _, rest) => {
            let Some(later) = component.checked_sub(1) else {
                return Some(next);
            };
            own_token(rest, next + 1, later)
        }
        NewArgs::Child(_, below, rest) => {
            own_token(rest, next + tokens_made(below), component.checked_sub(1)?)
        }
    }
}
