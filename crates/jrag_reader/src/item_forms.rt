// Forms of items and of their parts: each takes its parts from the stack, the last one first, and puts what they make onto it.
ghost use Rattle.std.specs.Prelude.{◌≡◌, ◌∷◌, ◌++◌, [], IfOk, map};
ghost use Rattle.std.specs.Option.{option_map};
ghost use Rattle.rag_io.specs.Tokens.{seen_token};
ghost use Rattle.jrag_syntax.specs.Tokens.{token_class};
ghost use Rattle.aspect_items.specs.Expressions.{seen_expr, seen_name};
ghost use Rattle.aspect_items.specs.Items.{seen_circular, seen_item, seen_parameter, seen_signature, seen_type, seen_type_name};
ghost use Rattle.jrag_reader.specs.Making as specs;
ghost use Rattle.jrag_reader.specs.Stack.{Makes, Takes, seen_names, seen_pair, tops};

use crate::expression_forms::{make_argument, make_expression, make_first_argument, take_enclosed};
use crate::parts::{
    Part, Said, Unbuilt, misfit, pop_behind, pop_circularity, pop_expr, pop_flag, pop_item,
    pop_items, pop_modifiers, pop_name, pop_opened, pop_parameters, pop_perhaps, pop_perhaps_named,
    pop_token, pop_type, say, unmade,
};
use crate::{classes, events};
use aspect_items::{
    Circular, Collection, Contribution, Equation, Expr, Inherited, Item, Name, Parameter,
    Signature, Synthesized, Type, TypeName,
};
use jrag_syntax::{Start, class_of};
use rag_io::{Memory, Token};
use std::alloc::Global;
use token_texts::place_of;

// An aspect behind others, up to its `{`.
fn make_open(parts: &mut Vec<Part<'_>>) -> Result<(), Unbuilt>
    ensures { Makes (specs.make_open (tops parts.old.items)) result (tops parts.new.items) }
{
    let _brace = pop_token(parts)?;
    let _name = pop_name(parts)?;
    let _word = pop_token(parts)?;
    let items = pop_items(parts)?;
    say(parts, Said::Opened(items))
}

fn push_item(items: &mut Vec<Item>, item: Item) -> Result<(), Memory>
    ensures { IfOk result (λ _. map seen_item items.new.items ≡ map seen_item items.old.items ++ seen_item item ∷ []) }
{
    match items.push(item) {
        Ok(()) => Ok(()),
        Err(unpushed) => Err(unmade(unpushed)),
    }
}

fn make_item(parts: &mut Vec<Part<'_>>) -> Result<(), Unbuilt>
    ensures { Makes (specs.make_item (tops parts.old.items)) result (tops parts.new.items) }
{
    let item = pop_item(parts)?;
    let Ok(mut items) = pop_opened(parts) else {
        return Err(misfit(item));
    };
    push_item(&mut items, item)?;
    say(parts, Said::Opened(items))
}

fn make_close(parts: &mut Vec<Part<'_>>) -> Result<(), Unbuilt>
    ensures { Makes (specs.make_close (tops parts.old.items)) result (tops parts.new.items) }
{
    let _brace = pop_token(parts)?;
    let items = pop_opened(parts)?;
    say(parts, Said::Items(items))
}

// A name, and its parameters in parentheses.
fn take_signature(parts: &mut Vec<Part<'_>>) -> Result<Signature, Unbuilt>
    ensures { Takes seen_signature (specs.signature_on (tops parts.old.items)) result (tops parts.new.items) }
{
    let _close = pop_token(parts)?;
    let parameters = pop_parameters(parts)?;
    let Ok(_open) = pop_token(parts) else {
        return Err(misfit(parameters));
    };
    let Ok(name) = pop_name(parts) else {
        return Err(misfit(parameters));
    };
    Ok(Signature { name, parameters })
}

// A class, and `.` behind it.
fn take_class(parts: &mut Vec<Part<'_>>) -> Result<Name, Unbuilt>
    ensures { Takes seen_name (specs.class_on (tops parts.old.items)) result (tops parts.new.items) }
{
    let _dot = pop_token(parts)?;
    pop_name(parts)
}

// A class, `.`, a name and empty parentheses: the name, and the class.
fn take_target(parts: &mut Vec<Part<'_>>) -> Result<(Name, Name), Unbuilt>
    ensures { Takes seen_names (specs.target_on (tops parts.old.items)) result (tops parts.new.items) }
{
    let _close = pop_token(parts)?;
    let _open = pop_token(parts)?;
    let name = pop_name(parts)?;
    let Ok(class) = take_class(parts) else {
        return Err(misfit(name));
    };
    Ok((name, class))
}

// An attribute of a class: its name and its parameters, and the class.
fn take_attribute(parts: &mut Vec<Part<'_>>) -> Result<(Signature, Name), Unbuilt>
    ensures { Takes (seen_pair seen_signature seen_name) (specs.attribute_on (tops parts.old.items)) result (tops parts.new.items) }
{
    let signature = take_signature(parts)?;
    let Ok(class) = take_class(parts) else {
        return Err(misfit(signature));
    };
    Ok((signature, class))
}

// The same, and the type before it.
fn take_typed(parts: &mut Vec<Part<'_>>) -> Result<((Signature, Name), Type), Unbuilt>
    ensures { Takes (seen_pair (seen_pair seen_signature seen_name) seen_type) (specs.typed_on (tops parts.old.items)) result (tops parts.new.items) }
{
    let attribute = take_attribute(parts)?;
    let Ok(of) = pop_type(parts) else {
        return Err(misfit(attribute));
    };
    Ok((attribute, of))
}

// Perhaps a body before `;`, and before it whether the attribute is circular.
fn take_bodied(parts: &mut Vec<Part<'_>>) -> Result<(Option<Expr>, Option<Circular>), Unbuilt>
    ensures { Takes (seen_pair (option_map seen_expr) (option_map seen_circular)) (specs.bodied_on (tops parts.old.items)) result (tops parts.new.items) }
{
    let _semicolon = pop_token(parts)?;
    let body = pop_perhaps(parts)?;
    let Ok(circular) = pop_circularity(parts) else {
        return Err(misfit(body));
    };
    Ok((body, circular))
}

// Whether `lazy` and `nta` are there, behind a word.
fn take_modified(parts: &mut Vec<Part<'_>>) -> Result<(bool, bool), Unbuilt>
    ensures { Takes (λ b. b) (specs.modified_on (tops parts.old.items)) result (tops parts.new.items) }
{
    let modifiers = pop_modifiers(parts)?;
    let _word = pop_token(parts)?;
    Ok(modifiers)
}

fn make_synthesized(parts: &mut Vec<Part<'_>>) -> Result<(), Unbuilt>
    ensures { Makes (specs.make_synthesized (tops parts.old.items)) result (tops parts.new.items) }
{
    let bodied = take_bodied(parts)?;
    let Ok(typed) = take_typed(parts) else {
        return Err(misfit(bodied));
    };
    let Ok((lazy, higher_order)) = take_modified(parts) else {
        return Err(misfit((bodied, typed)));
    };
    let (body, circular) = bodied;
    let ((signature, class), of) = typed;
    let item = Item::Synthesized(Synthesized {
        lazy,
        higher_order,
        of,
        class,
        signature,
        circular,
        body,
    });
    say(parts, Said::Item(item))
}

// Whether a word is there that may be left out, behind another one.
fn take_flagged(parts: &mut Vec<Part<'_>>) -> Result<bool, Unbuilt>
    ensures { Takes (λ b. b) (specs.flagged_on (tops parts.old.items)) result (tops parts.new.items) }
{
    let there = pop_flag(parts)?;
    let _word = pop_token(parts)?;
    Ok(there)
}

fn make_inherited(parts: &mut Vec<Part<'_>>) -> Result<(), Unbuilt>
    ensures { Makes (specs.make_inherited (tops parts.old.items)) result (tops parts.new.items) }
{
    let _semicolon = pop_token(parts)?;
    let circular = pop_circularity(parts)?;
    let Ok(typed) = take_typed(parts) else {
        return Err(misfit(circular));
    };
    let Ok(lazy) = take_flagged(parts) else {
        return Err(misfit((circular, typed)));
    };
    let ((signature, class), of) = typed;
    let item = Item::Inherited(Inherited {
        lazy,
        of,
        class,
        signature,
        circular,
    });
    say(parts, Said::Item(item))
}

// `=`, and perhaps the attribute behind a path before it.
fn take_behind(parts: &mut Vec<Part<'_>>) -> Result<Option<Signature>, Unbuilt>
    ensures { Takes (option_map seen_signature) (specs.behind_on (tops parts.old.items)) result (tops parts.new.items) }
{
    let _equals = pop_token(parts)?;
    pop_behind(parts)
}

// An expression between `=` and `;`, and perhaps the attribute behind a path before them.
fn take_equated(parts: &mut Vec<Part<'_>>) -> Result<(Expr, Option<Signature>), Unbuilt>
    ensures { Takes (seen_pair seen_expr (option_map seen_signature)) (specs.equated_on (tops parts.old.items)) result (tops parts.new.items) }
{
    let _semicolon = pop_token(parts)?;
    let body = pop_expr(parts)?;
    let Ok(inherited) = take_behind(parts) else {
        return Err(misfit(body));
    };
    Ok((body, inherited))
}

fn make_equation(parts: &mut Vec<Part<'_>>) -> Result<(), Unbuilt>
    ensures { Makes (specs.make_equation (tops parts.old.items)) result (tops parts.new.items) }
{
    let equated = take_equated(parts)?;
    let Ok(attribute) = take_attribute(parts) else {
        return Err(misfit(equated));
    };
    let Ok(_word) = pop_token(parts) else {
        return Err(misfit((equated, attribute)));
    };
    let (body, inherited) = equated;
    let (signature, class) = attribute;
    let item = Item::Equation(Equation {
        class,
        signature,
        inherited,
        body,
    });
    say(parts, Said::Item(item))
}

// Perhaps a root before `;`, and perhaps a method before it.
fn take_with_root(parts: &mut Vec<Part<'_>>) -> Result<(Option<Name>, Option<Name>), Unbuilt>
    ensures { Takes (seen_pair (option_map seen_name) (option_map seen_name)) (specs.with_root_on (tops parts.old.items)) result (tops parts.new.items) }
{
    let _semicolon = pop_token(parts)?;
    let root = pop_perhaps_named(parts)?;
    let Ok(method) = pop_perhaps_named(parts) else {
        return Err(misfit(root));
    };
    Ok((root, method))
}

// A target with a type behind a word.
fn take_collected(parts: &mut Vec<Part<'_>>) -> Result<((Name, Name), Type), Unbuilt>
    ensures { Takes (seen_pair seen_names seen_type) (specs.collected_on (tops parts.old.items)) result (tops parts.new.items) }
{
    let target = take_target(parts)?;
    let Ok(of) = pop_type(parts) else {
        return Err(misfit(target));
    };
    let Ok(_word) = pop_token(parts) else {
        return Err(misfit((target, of)));
    };
    Ok((target, of))
}

fn make_collection(parts: &mut Vec<Part<'_>>) -> Result<(), Unbuilt>
    ensures { Makes (specs.make_collection (tops parts.old.items)) result (tops parts.new.items) }
{
    let with_root = take_with_root(parts)?;
    let Ok((_open, fresh)) = take_enclosed(parts) else {
        return Err(misfit(with_root));
    };
    let Ok(collected) = take_collected(parts) else {
        return Err(misfit((with_root, fresh)));
    };
    let (root, method) = with_root;
    let ((name, class), of) = collected;
    let item = Item::Collection(Collection {
        of,
        class,
        name,
        fresh,
        method,
        root,
    });
    say(parts, Said::Item(item))
}

// A target, and a token behind it.
fn take_target_before(parts: &mut Vec<Part<'_>>) -> Result<(Name, Name), Unbuilt>
    ensures { Takes seen_names (specs.target_before (tops parts.old.items)) result (tops parts.new.items) }
{
    let _for = pop_token(parts)?;
    take_target(parts)
}

// An expression before `;`, and the target before it.
fn take_received(parts: &mut Vec<Part<'_>>) -> Result<(Expr, (Name, Name)), Unbuilt>
    ensures { Takes (seen_pair seen_expr seen_names) (specs.received_on (tops parts.old.items)) result (tops parts.new.items) }
{
    let _semicolon = pop_token(parts)?;
    let receiver = pop_expr(parts)?;
    let Ok(target) = take_target_before(parts) else {
        return Err(misfit(receiver));
    };
    Ok((receiver, target))
}

// What is contributed, perhaps with a condition, and a token behind both: the condition, and the value.
fn take_value(parts: &mut Vec<Part<'_>>) -> Result<(Option<Expr>, Expr), Unbuilt>
    ensures { Takes (seen_pair (option_map seen_expr) seen_expr) (specs.value_on (tops parts.old.items)) result (tops parts.new.items) }
{
    let _to = pop_token(parts)?;
    let condition = pop_perhaps(parts)?;
    let Ok(value) = pop_expr(parts) else {
        return Err(misfit(condition));
    };
    Ok((condition, value))
}

// A name, and a word behind it.
fn take_contributor(parts: &mut Vec<Part<'_>>) -> Result<Name, Unbuilt>
    ensures { Takes seen_name (specs.contributor_on (tops parts.old.items)) result (tops parts.new.items) }
{
    let _word = pop_token(parts)?;
    pop_name(parts)
}

fn make_contribution(parts: &mut Vec<Part<'_>>) -> Result<(), Unbuilt>
    ensures { Makes (specs.make_contribution (tops parts.old.items)) result (tops parts.new.items) }
{
    let received = take_received(parts)?;
    let Ok(contributed) = take_value(parts) else {
        return Err(misfit(received));
    };
    let Ok(contributor) = take_contributor(parts) else {
        return Err(misfit((received, contributed)));
    };
    let (receiver, (name, class)) = received;
    let (condition, value) = contributed;
    let item = Item::Contribution(Contribution {
        contributor,
        value,
        condition,
        class,
        name,
        receiver,
    });
    say(parts, Said::Item(item))
}

fn make_present(parts: &mut Vec<Part<'_>>) -> Result<(), Unbuilt>
    ensures { Makes (specs.make_present (tops parts.old.items)) result (tops parts.new.items) }
{
    let _word = pop_token(parts)?;
    say(parts, Said::Flag(true))
}

// `lazy`, and perhaps `nta`.
fn make_lazy_first(parts: &mut Vec<Part<'_>>) -> Result<(), Unbuilt>
    ensures { Makes (specs.make_lazy_first (tops parts.old.items)) result (tops parts.new.items) }
{
    let higher_order = pop_flag(parts)?;
    let _word = pop_token(parts)?;
    say(parts, Said::Modifiers(true, higher_order))
}

// `nta`, and perhaps `lazy`.
fn make_higher_order_first(parts: &mut Vec<Part<'_>>) -> Result<(), Unbuilt>
    ensures { Makes (specs.make_higher_order_first (tops parts.old.items)) result (tops parts.new.items) }
{
    let lazy = pop_flag(parts)?;
    let _word = pop_token(parts)?;
    say(parts, Said::Modifiers(lazy, true))
}

// The name of a type, by its word.
fn type_name_of(alloc: Global, start: Start, token: &Token<'_>) -> Result<TypeName, Memory>
    ensures { IfOk result (λ n. seen_type_name n ≡ specs.type_name_by (token_class start (seen_token token.now)) (seen_token token.now).text) }
{
    Ok(match class_of(start, token) {
        classes::BOOLEAN_TYPE => TypeName::Boolean,
        classes::INT_TYPE => TypeName::Int,
        classes::STRING_TYPE => TypeName::String,
        _ => TypeName::Class(Vec::from_slice(alloc, token.text).map_err(|_| Memory)?),
    })
}

fn make_type(alloc: Global, start: Start, parts: &mut Vec<Part<'_>>) -> Result<(), Unbuilt>
    ensures { Makes (specs.make_type start (tops parts.old.items)) result (tops parts.new.items) }
{
    let (token, _) = pop_token(parts)?;
    let of = Type {
        place: place_of(&token),
        set: false,
        name: type_name_of(alloc, start, &token)?,
    };
    say(parts, Said::Type(of))
}

fn make_set(alloc: Global, start: Start, parts: &mut Vec<Part<'_>>) -> Result<(), Unbuilt>
    ensures { Makes (specs.make_set start (tops parts.old.items)) result (tops parts.new.items) }
{
    let _close = pop_token(parts)?;
    let (token, _) = pop_token(parts)?;
    let _open = pop_token(parts)?;
    let (word, _) = pop_token(parts)?;
    let of = Type {
        place: place_of(&word),
        set: true,
        name: type_name_of(alloc, start, &token)?,
    };
    say(parts, Said::Type(of))
}

// A type and a name.
fn take_parameter(parts: &mut Vec<Part<'_>>) -> Result<Parameter, Unbuilt>
    ensures { Takes seen_parameter (specs.parameter_on (tops parts.old.items)) result (tops parts.new.items) }
{
    let name = pop_name(parts)?;
    let Ok(of) = pop_type(parts) else {
        return Err(misfit(name));
    };
    Ok(Parameter { of, name })
}

fn push_parameter(parameters: &mut Vec<Parameter>, parameter: Parameter) -> Result<(), Memory>
    ensures { IfOk result (λ _. map seen_parameter parameters.new.items ≡ map seen_parameter parameters.old.items ++ seen_parameter parameter ∷ []) }
{
    match parameters.push(parameter) {
        Ok(()) => Ok(()),
        Err(unpushed) => Err(unmade(unpushed)),
    }
}

fn make_first_parameter(alloc: Global, parts: &mut Vec<Part<'_>>) -> Result<(), Unbuilt>
    ensures { Makes (specs.make_first_parameter (tops parts.old.items)) result (tops parts.new.items) }
{
    let parameter = take_parameter(parts)?;
    let mut parameters = Vec::new(alloc);
    push_parameter(&mut parameters, parameter)?;
    say(parts, Said::Parameters(parameters))
}

fn make_parameter(parts: &mut Vec<Part<'_>>) -> Result<(), Unbuilt>
    ensures { Makes (specs.make_parameter (tops parts.old.items)) result (tops parts.new.items) }
{
    let parameter = take_parameter(parts)?;
    let Ok(_comma) = pop_token(parts) else {
        return Err(misfit(parameter));
    };
    let Ok(mut parameters) = pop_parameters(parts) else {
        return Err(misfit(parameter));
    };
    push_parameter(&mut parameters, parameter)?;
    say(parts, Said::Parameters(parameters))
}

fn make_circular(parts: &mut Vec<Part<'_>>) -> Result<(), Unbuilt>
    ensures { Makes (specs.make_circular (tops parts.old.items)) result (tops parts.new.items) }
{
    let (_open, bottom) = take_enclosed(parts)?;
    let Ok((word, _)) = pop_token(parts) else {
        return Err(misfit(bottom));
    };
    let circular = Circular {
        place: place_of(&word),
        bottom,
    };
    say(parts, Said::Circularity(Some(circular)))
}

// An expression behind `=` or `when`.
fn make_body(parts: &mut Vec<Part<'_>>) -> Result<(), Unbuilt>
    ensures { Makes (specs.make_body (tops parts.old.items)) result (tops parts.new.items) }
{
    let expr = pop_expr(parts)?;
    let Ok(_word) = pop_token(parts) else {
        return Err(misfit(expr));
    };
    say(parts, Said::Perhaps(Some(expr)))
}

fn make_path(parts: &mut Vec<Part<'_>>) -> Result<(), Unbuilt>
    ensures { Makes (specs.make_path (tops parts.old.items)) result (tops parts.new.items) }
{
    let signature = take_signature(parts)?;
    let Ok(_dot) = pop_token(parts) else {
        return Err(misfit(signature));
    };
    say(parts, Said::Behind(Some(signature)))
}

// A name behind `with` or `root`.
fn make_named(parts: &mut Vec<Part<'_>>) -> Result<(), Unbuilt>
    ensures { Makes (specs.make_named (tops parts.old.items)) result (tops parts.new.items) }
{
    let name = pop_name(parts)?;
    let Ok(_word) = pop_token(parts) else {
        return Err(misfit(name));
    };
    say(parts, Said::PerhapsNamed(Some(name)))
}

// The form of a part of an item, or of an expression.
fn make_detail(
    alloc: Global,
    start: Start,
    form: u8,
    parts: &mut Vec<Part<'_>>,
) -> Result<(), Unbuilt>
    ensures { Makes (specs.make_detail start form (tops parts.old.items)) result (tops parts.new.items) }
{
    match form {
        events::NO_ARGUMENTS => say(parts, Said::Arguments(Vec::new(alloc))),
        events::FIRST_ARGUMENT => make_first_argument(alloc, parts),
        events::ARGUMENT => make_argument(parts),
        events::PRESENT => make_present(parts),
        events::ABSENT => say(parts, Said::Flag(false)),
        events::NO_MODIFIERS => say(parts, Said::Modifiers(false, false)),
        events::LAZY_FIRST => make_lazy_first(parts),
        events::HIGHER_ORDER_FIRST => make_higher_order_first(parts),
        events::TYPE => make_type(alloc, start, parts),
        events::SET => make_set(alloc, start, parts),
        events::NO_PARAMETERS => say(parts, Said::Parameters(Vec::new(alloc))),
        events::FIRST_PARAMETER => make_first_parameter(alloc, parts),
        events::PARAMETER => make_parameter(parts),
        events::CIRCULAR => make_circular(parts),
        events::NOT_CIRCULAR => say(parts, Said::Circularity(None)),
        _ => make_expression(alloc, start, form, parts),
    }
}

// The form of what may be left out, or of another part.
fn make_optional(
    alloc: Global,
    start: Start,
    form: u8,
    parts: &mut Vec<Part<'_>>,
) -> Result<(), Unbuilt>
    ensures { Makes (specs.make_optional start form (tops parts.old.items)) result (tops parts.new.items) }
{
    match form {
        events::BODY | events::CONDITION => make_body(parts),
        events::NO_BODY | events::NO_CONDITION => say(parts, Said::Perhaps(None)),
        events::PATH => make_path(parts),
        events::NO_PATH => say(parts, Said::Behind(None)),
        events::METHOD | events::ROOT => make_named(parts),
        events::NO_METHOD | events::NO_ROOT => say(parts, Said::PerhapsNamed(None)),
        _ => make_detail(alloc, start, form, parts),
    }
}

/// What an action of the grammar makes of the parts. Where an outermost expression begins and ends, it is nothing.
pub(crate) fn make(
    alloc: Global,
    start: Start,
    form: u8,
    parts: &mut Vec<Part<'_>>,
) -> Result<(), Unbuilt>
    ensures { Makes (specs.make start form (tops parts.old.items)) result (tops parts.new.items) }
{
    match form {
        events::BEGIN | events::END => Ok(()),
        events::NO_ITEMS => say(parts, Said::Items(Vec::new(alloc))),
        events::OPEN => make_open(parts),
        events::ITEM => make_item(parts),
        events::CLOSE => make_close(parts),
        events::SYNTHESIZED => make_synthesized(parts),
        events::INHERITED => make_inherited(parts),
        events::EQUATION => make_equation(parts),
        events::COLLECTION => make_collection(parts),
        events::CONTRIBUTION => make_contribution(parts),
        _ => make_optional(alloc, start, form, parts),
    }
}
