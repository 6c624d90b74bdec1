// Parts of what is read, on a stack: what the last tokens say.
ghost use Rattle.std.specs.Prelude.{◌≡◌, ◌∷◌, IfOk, Some, map};
ghost use Rattle.std.specs.Option.{option_and_then, option_map};
ghost use Rattle.jrag_reader.specs.declared.parts.Unbuilt.TheVariants.{Memory as OutOfMemory};
ghost use Rattle.aspect_items.specs.Expressions.{seen_expr, seen_name};
ghost use Rattle.aspect_items.specs.Items.{seen_circular, seen_item, seen_parameter, seen_signature, seen_type};
ghost use Rattle.jrag_reader.specs.Parts as specs;
ghost use Rattle.jrag_reader.specs.Parts.{top};
ghost use Rattle.jrag_reader.specs.Stack.{Makes, Takes, seen_part, seen_quantifier, seen_said, seen_token_and_code, tops};

use aspect_items::{Circular, Expr, Item, Name, Parameter, Quantifier, Signature, Type};
use rag_io::{Memory, Token};

/// What some tokens side by side say.
#[derive(Drop)]
pub(crate) enum Part<'a> {
    /// A token, and the number of its text in the pool if it is one.
    Token(Token<'a>, u32),
    Said(Said),
}

/// What they say where they are no token alone.
#[derive(Drop)]
pub(crate) enum Said {
    Name(Name),
    /// A name that is also the word of a quantifier.
    Quantifier(Quantifier, Name),
    Expr(Expr),
    Arguments(Vec<Expr>),
    Type(Type),
    Parameters(Vec<Parameter>),
    /// Whether a word is there that may be left out.
    Flag(bool),
    /// Whether `lazy` and `nta` are there.
    Modifiers(bool, bool),
    Circularity(Option<Circular>),
    /// An expression that may be left out.
    Perhaps(Option<Expr>),
    /// The inherited attribute behind a path.
    Behind(Option<Signature>),
    /// A name that may be left out.
    PerhapsNamed(Option<Name>),
    Item(Item),
    /// The items of some aspects.
    Items(Vec<Item>),
    /// The same with those of an aspect that isn't closed yet.
    Opened(Vec<Item>),
}

/// Why a part isn't made.
#[derive(Clone, Copy, Debug, PartialEq, Eq)]
pub(crate) enum Unbuilt {
    /// The parts on top aren't those of the form. The events of a sentence never lead there.
    Misfit,
    /// Want of memory.
    Memory,
}

impl From<Memory> for Unbuilt {
    ghost from_gives = { λ _ unbuilt. unbuilt ≡ OutOfMemory };

    fn from(_: Memory) -> Unbuilt {
        Unbuilt::Memory
    }
}

/// What is answered where a part isn't the one that is asked for. It takes what was taken so far.
pub(crate) fn misfit<T: Drop>(_taken: T) -> Unbuilt
    ensures { result ≡ Unbuilt.Misfit }
{
    Unbuilt::Misfit
}

/// What is answered where there was no memory. It takes what was taken so far.
pub(crate) fn no_memory<T: Drop>(_taken: T) -> Unbuilt
    ensures { result ≡ Unbuilt.Memory }
{
    Unbuilt::Memory
}

/// There was no memory for what was to be made. It takes what is there so far.
pub(crate) fn unmade<T: Drop>(_made: T) -> Memory {
    Memory
}

pub(crate) fn push<'a>(parts: &mut Vec<Part<'a>>, part: Part<'a>) -> Result<(), Memory>
    ensures { IfOk result (λ _. tops parts.new.items ≡ seen_part part.entry ∷ tops parts.old.items) }
{
    match parts.push(part) {
        Ok(()) => Ok(()),
        Err(unpushed) => Err(unmade(unpushed)),
    }
}

/// Puts what is made onto the parts.
pub(crate) fn say(parts: &mut Vec<Part<'_>>, said: Said) -> Result<(), Unbuilt>
    ensures { Makes (Some (seen_said said ∷ tops parts.old.items)) result (tops parts.new.items) }
{
    match push(parts, Part::Said(said)) {
        Ok(()) => Ok(()),
        Err(_) => Err(Unbuilt::Memory),
    }
}

pub(crate) fn pop_token<'a>(parts: &mut Vec<Part<'a>>) -> Result<(Token<'a>, u32), Unbuilt>
    ensures { Takes seen_token_and_code (top specs.token_in (tops parts.old.items)) result (tops parts.new.items) }
{
    let popped = parts.pop();
    let token = token_in(&popped);
    token.ok_or(misfit(popped))
}

fn token_in<'a>(popped: &Option<Part<'a>>) -> Option<(Token<'a>, u32)>
    ensures { option_map seen_token_and_code result ≡ option_and_then specs.token_in (option_map seen_part popped.now) }
{
    match popped {
        Some(Part::Token(token, code)) => Some((*token, *code)),
        _ => None,
    }
}

pub(crate) fn pop_name(parts: &mut Vec<Part<'_>>) -> Result<Name, Unbuilt>
    ensures { Takes seen_name (top specs.name_in (tops parts.old.items)) result (tops parts.new.items) }
{
    match parts.pop() {
        Some(Part::Said(Said::Name(name) | Said::Quantifier(_, name))) => Ok(name),
        other => Err(misfit(other)),
    }
}

pub(crate) fn pop_quantifier(parts: &mut Vec<Part<'_>>) -> Result<(Quantifier, Name), Unbuilt>
    ensures { Takes seen_quantifier (top specs.quantifier_in (tops parts.old.items)) result (tops parts.new.items) }
{
    match parts.pop() {
        Some(Part::Said(Said::Quantifier(quantifier, name))) => Ok((quantifier, name)),
        other => Err(misfit(other)),
    }
}

/// An expression. A name is one too.
pub(crate) fn pop_expr(parts: &mut Vec<Part<'_>>) -> Result<Expr, Unbuilt>
    ensures { Takes seen_expr (top specs.expr_in (tops parts.old.items)) result (tops parts.new.items) }
{
    match parts.pop() {
        Some(Part::Said(Said::Expr(expr))) => Ok(expr),
        Some(Part::Said(Said::Name(name) | Said::Quantifier(_, name))) => Ok(Expr::Variable(name)),
        other => Err(misfit(other)),
    }
}

pub(crate) fn pop_arguments(parts: &mut Vec<Part<'_>>) -> Result<Vec<Expr>, Unbuilt>
    ensures { Takes (λ v. map seen_expr v.items) (top specs.arguments_in (tops parts.old.items)) result (tops parts.new.items) }
{
    match parts.pop() {
        Some(Part::Said(Said::Arguments(arguments))) => Ok(arguments),
        other => Err(misfit(other)),
    }
}

pub(crate) fn pop_type(parts: &mut Vec<Part<'_>>) -> Result<Type, Unbuilt>
    ensures { Takes seen_type (top specs.type_in (tops parts.old.items)) result (tops parts.new.items) }
{
    match parts.pop() {
        Some(Part::Said(Said::Type(of))) => Ok(of),
        other => Err(misfit(other)),
    }
}

pub(crate) fn pop_parameters(parts: &mut Vec<Part<'_>>) -> Result<Vec<Parameter>, Unbuilt>
    ensures { Takes (λ v. map seen_parameter v.items) (top specs.parameters_in (tops parts.old.items)) result (tops parts.new.items) }
{
    match parts.pop() {
        Some(Part::Said(Said::Parameters(parameters))) => Ok(parameters),
        other => Err(misfit(other)),
    }
}

pub(crate) fn pop_flag(parts: &mut Vec<Part<'_>>) -> Result<bool, Unbuilt>
    ensures { Takes (λ b. b) (top specs.flag_in (tops parts.old.items)) result (tops parts.new.items) }
{
    let popped = parts.pop();
    let flag = flag_in(&popped);
    flag.ok_or(misfit(popped))
}

fn flag_in(popped: &Option<Part<'_>>) -> Option<bool>
    ensures { result ≡ option_and_then specs.flag_in (option_map seen_part popped.now) }
{
    match popped {
        Some(Part::Said(Said::Flag(there))) => Some(*there),
        _ => None,
    }
}

pub(crate) fn pop_modifiers(parts: &mut Vec<Part<'_>>) -> Result<(bool, bool), Unbuilt>
    ensures { Takes (λ b. b) (top specs.modifiers_in (tops parts.old.items)) result (tops parts.new.items) }
{
    let popped = parts.pop();
    let modifiers = modifiers_in(&popped);
    modifiers.ok_or(misfit(popped))
}

fn modifiers_in(popped: &Option<Part<'_>>) -> Option<(bool, bool)>
    ensures { result ≡ option_and_then specs.modifiers_in (option_map seen_part popped.now) }
{
    match popped {
        Some(Part::Said(Said::Modifiers(lazy, higher_order))) => Some((*lazy, *higher_order)),
        _ => None,
    }
}

pub(crate) fn pop_circularity(parts: &mut Vec<Part<'_>>) -> Result<Option<Circular>, Unbuilt>
    ensures { Takes (option_map seen_circular) (top specs.circularity_in (tops parts.old.items)) result (tops parts.new.items) }
{
    match parts.pop() {
        Some(Part::Said(Said::Circularity(circular))) => Ok(circular),
        other => Err(misfit(other)),
    }
}

pub(crate) fn pop_perhaps(parts: &mut Vec<Part<'_>>) -> Result<Option<Expr>, Unbuilt>
    ensures { Takes (option_map seen_expr) (top specs.perhaps_in (tops parts.old.items)) result (tops parts.new.items) }
{
    match parts.pop() {
        Some(Part::Said(Said::Perhaps(expr))) => Ok(expr),
        other => Err(misfit(other)),
    }
}

pub(crate) fn pop_behind(parts: &mut Vec<Part<'_>>) -> Result<Option<Signature>, Unbuilt>
    ensures { Takes (option_map seen_signature) (top specs.behind_in (tops parts.old.items)) result (tops parts.new.items) }
{
    match parts.pop() {
        Some(Part::Said(Said::Behind(inherited))) => Ok(inherited),
        other => Err(misfit(other)),
    }
}

pub(crate) fn pop_perhaps_named(parts: &mut Vec<Part<'_>>) -> Result<Option<Name>, Unbuilt>
    ensures { Takes (option_map seen_name) (top specs.perhaps_named_in (tops parts.old.items)) result (tops parts.new.items) }
{
    match parts.pop() {
        Some(Part::Said(Said::PerhapsNamed(name))) => Ok(name),
        other => Err(misfit(other)),
    }
}

pub(crate) fn pop_item(parts: &mut Vec<Part<'_>>) -> Result<Item, Unbuilt>
    ensures { Takes seen_item (top specs.item_in (tops parts.old.items)) result (tops parts.new.items) }
{
    match parts.pop() {
        Some(Part::Said(Said::Item(item))) => Ok(item),
        other => Err(misfit(other)),
    }
}

pub(crate) fn pop_items(parts: &mut Vec<Part<'_>>) -> Result<Vec<Item>, Unbuilt>
    ensures { Takes (λ v. map seen_item v.items) (top specs.items_in (tops parts.old.items)) result (tops parts.new.items) }
{
    match parts.pop() {
        Some(Part::Said(Said::Items(items))) => Ok(items),
        other => Err(misfit(other)),
    }
}

pub(crate) fn pop_opened(parts: &mut Vec<Part<'_>>) -> Result<Vec<Item>, Unbuilt>
    ensures { Takes (λ v. map seen_item v.items) (top specs.opened_in (tops parts.old.items)) result (tops parts.new.items) }
{
    match parts.pop() {
        Some(Part::Said(Said::Opened(items))) => Ok(items),
        other => Err(misfit(other)),
    }
}
