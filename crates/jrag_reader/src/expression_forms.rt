// Forms of expressions, and arguments: each takes its parts from the stack, the last one first, and puts what they make onto it.
ghost use Rattle.std.specs.Prelude.{◌≡◌, IfOk, ◌∷◌, ◌++◌, [], map};
ghost use Rattle.std.specs.Option.{option_map};
ghost use Rattle.rag_io.specs.Tokens.{seen_token};
ghost use Rattle.jrag_syntax.specs.Tokens.{token_class};
ghost use Rattle.aspect_items.specs.Expressions.{Binary, If, seen_expr, seen_name};
ghost use Rattle.jrag_reader.specs.Making as specs;
ghost use Rattle.jrag_reader.specs.Parts.{Formed};
ghost use Rattle.jrag_reader.specs.Stack.{Makes, Takes, seen_pair, seen_said, tops};

use crate::parts::{
    Part, Said, Unbuilt, misfit, no_memory, pop_arguments, pop_expr, pop_name, pop_quantifier,
    pop_token, say, unmade,
};
use crate::{classes, events};
use aspect_items::{Expr, Name, Operator, Quantifier};
use jrag_syntax::{Start, class_of};
use rag_io::{Memory, Place, Token, capped};
use std::alloc::Global;
use token_texts::place_of;

// The name that a word is.
fn name_of(alloc: Global, token: &Token<'_>) -> Result<Name, Memory>
    ensures { IfOk result (λ n. seen_name n ≡ specs.name_of (seen_token token.now)) }
{
    match Vec::from_slice(alloc, token.text) {
        Ok(text) => Ok(Name {
            text,
            place: place_of(token),
        }),
        Err(_) => Err(Memory),
    }
}

// The value of an integer, or the largest one that is kept.
fn integer_of(token: &Token<'_>) -> u32
    ensures { result ≡ specs.integer_of (seen_token token.now) }
{
    capped(token.text, u64::from(u32::MAX)) as u32
}

fn boxed(alloc: Global, expr: Expr) -> Result<Box<Expr>, Memory>
    ensures { IfOk result (λ b. seen_expr b.value ≡ seen_expr expr) }
{
    match Box::new(alloc, expr) {
        Ok(boxed) => Ok(boxed),
        Err(unboxed) => Err(unmade(unboxed)),
    }
}

// Two expressions on the heap.
fn both_boxed(alloc: Global, first: Expr, last: Expr) -> Result<(Box<Expr>, Box<Expr>), Memory>
    ensures first { IfOk result (λ both. seen_expr both.0.value ≡ seen_expr first) }
    ensures last { IfOk result (λ both. seen_expr both.1.value ≡ seen_expr last) }
{
    let Ok(first) = boxed(alloc, first) else {
        return Err(unmade(last));
    };
    let Ok(last) = boxed(alloc, last) else {
        return Err(unmade(first));
    };
    Ok((first, last))
}

// A token, and the expression before it.
fn take_marked<'a>(parts: &mut Vec<Part<'a>>) -> Result<(Token<'a>, Expr), Unbuilt>
    ensures { Takes (seen_pair seen_token seen_expr) (specs.marked_on (tops parts.old.items)) result (tops parts.new.items) }
{
    let (token, _) = pop_token(parts)?;
    let expr = pop_expr(parts)?;
    Ok((token, expr))
}

fn literal_of(start: Start, token: &Token<'_>) -> Option<Expr>
    ensures { option_map seen_expr result ≡ specs.literal_by (token_class start (seen_token token.now)) (seen_token token.now) }
{
    let place = place_of(token);
    match class_of(start, token) {
        classes::INT => Some(Expr::Int(place, integer_of(token))),
        classes::THIS => Some(Expr::This(place)),
        classes::TRUE => Some(Expr::Truth(place, true)),
        classes::FALSE => Some(Expr::Truth(place, false)),
        classes::NULL => Some(Expr::Null(place)),
        classes::EMPTY => Some(Expr::Empty(place)),
        _ => None,
    }
}

fn operator_of(class: u8) -> Option<Operator>
    ensures { result ≡ specs.operator_by class }
{
    match class {
        classes::OR => Some(Operator::Or),
        classes::AND => Some(Operator::And),
        classes::ADD => Some(Operator::Add),
        classes::SUBTRACT => Some(Operator::Subtract),
        classes::MULTIPLY => Some(Operator::Multiply),
        classes::EQUAL => Some(Operator::Equal),
        classes::DIFFER => Some(Operator::Differ),
        classes::LESS => Some(Operator::Less),
        classes::AT_MOST => Some(Operator::AtMost),
        classes::GREATER => Some(Operator::Greater),
        classes::AT_LEAST => Some(Operator::AtLeast),
        _ => None,
    }
}

fn quantifier_of(class: u8) -> Option<Quantifier>
    ensures { result ≡ specs.quantifier_by class }
{
    match class {
        classes::EACH => Some(Quantifier::Each),
        classes::ANY => Some(Quantifier::Any),
        classes::ALL => Some(Quantifier::All),
        classes::FIRST => Some(Quantifier::First),
        _ => None,
    }
}

// A word, with the quantifier that it may be.
fn named(quantifier: Option<Quantifier>, name: Name) -> Said
    ensures { seen_said result ≡ specs.named quantifier (seen_name name) }
{
    match quantifier {
        Some(quantifier) => Said::Quantifier(quantifier, name),
        None => Said::Name(name),
    }
}

fn make_name(alloc: Global, start: Start, parts: &mut Vec<Part<'_>>) -> Result<(), Unbuilt>
    ensures { Makes (specs.make_name start (tops parts.old.items)) result (tops parts.new.items) }
{
    let (token, _) = pop_token(parts)?;
    let name = name_of(alloc, &token)?;
    let quantifier = quantifier_of(class_of(start, &token));
    say(parts, named(quantifier, name))
}

// A literal onto the stack, where the token is one.
fn push_literal(literal: Option<Expr>, parts: &mut Vec<Part<'_>>) -> Result<(), Unbuilt>
    ensures { Makes (option_map (λ e. Formed e ∷ tops parts.old.items) (option_map seen_expr literal)) result (tops parts.new.items) }
{
    match literal {
        Some(literal) => say(parts, Said::Expr(literal)),
        None => Err(Unbuilt::Misfit),
    }
}

fn make_literal(start: Start, parts: &mut Vec<Part<'_>>) -> Result<(), Unbuilt>
    ensures { Makes (specs.make_literal start (tops parts.old.items)) result (tops parts.new.items) }
{
    let (token, _) = pop_token(parts)?;
    push_literal(literal_of(start, &token), parts)
}

fn make_text(parts: &mut Vec<Part<'_>>) -> Result<(), Unbuilt>
    ensures { Makes (specs.make_text (tops parts.old.items)) result (tops parts.new.items) }
{
    let (token, code) = pop_token(parts)?;
    say(parts, Said::Expr(Expr::Text(place_of(&token), code)))
}

fn make_source(parts: &mut Vec<Part<'_>>) -> Result<(), Unbuilt>
    ensures { Makes (specs.make_source (tops parts.old.items)) result (tops parts.new.items) }
{
    let (digits, _) = pop_token(parts)?;
    let (at, _) = pop_token(parts)?;
    let source = Expr::Source(place_of(&at), integer_of(&digits));
    say(parts, Said::Expr(source))
}

pub(crate) fn make_first_argument(alloc: Global, parts: &mut Vec<Part<'_>>) -> Result<(), Unbuilt>
    ensures { Makes (specs.make_first_argument (tops parts.old.items)) result (tops parts.new.items) }
{
    let argument = pop_expr(parts)?;
    let mut arguments = Vec::new(alloc);
    push_argument(&mut arguments, argument)?;
    say(parts, Said::Arguments(arguments))
}

fn push_argument(arguments: &mut Vec<Expr>, argument: Expr) -> Result<(), Memory>
    ensures { IfOk result (λ _. map seen_expr arguments.new.items ≡ map seen_expr arguments.old.items ++ seen_expr argument ∷ []) }
{
    match arguments.push(argument) {
        Ok(()) => Ok(()),
        Err(unpushed) => Err(unmade(unpushed)),
    }
}

pub(crate) fn make_argument(parts: &mut Vec<Part<'_>>) -> Result<(), Unbuilt>
    ensures { Makes (specs.make_argument (tops parts.old.items)) result (tops parts.new.items) }
{
    let argument = pop_expr(parts)?;
    let Ok(_comma) = pop_token(parts) else {
        return Err(misfit(argument));
    };
    let Ok(mut arguments) = pop_arguments(parts) else {
        return Err(misfit(argument));
    };
    push_argument(&mut arguments, argument)?;
    say(parts, Said::Arguments(arguments))
}

// Arguments in parentheses.
fn take_arguments(parts: &mut Vec<Part<'_>>) -> Result<Vec<Expr>, Unbuilt>
    ensures { Takes (λ v. map seen_expr v.items) (specs.arguments_on (tops parts.old.items)) result (tops parts.new.items) }
{
    let _close = pop_token(parts)?;
    let arguments = pop_arguments(parts)?;
    let Ok(_open) = pop_token(parts) else {
        return Err(misfit(arguments));
    };
    Ok(arguments)
}

// A name before arguments in parentheses.
fn take_called(parts: &mut Vec<Part<'_>>) -> Result<(Name, Vec<Expr>), Unbuilt>
    ensures { Takes (seen_pair seen_name (λ v. map seen_expr v.items)) (specs.called_on (tops parts.old.items)) result (tops parts.new.items) }
{
    let arguments = take_arguments(parts)?;
    let Ok(name) = pop_name(parts) else {
        return Err(misfit(arguments));
    };
    Ok((name, arguments))
}

fn make_call(parts: &mut Vec<Part<'_>>) -> Result<(), Unbuilt>
    ensures { Makes (specs.make_call (tops parts.old.items)) result (tops parts.new.items) }
{
    let (name, arguments) = take_called(parts)?;
    say(parts, Said::Expr(Expr::Call(name, arguments)))
}

fn make_member(alloc: Global, parts: &mut Vec<Part<'_>>) -> Result<(), Unbuilt>
    ensures { Makes (specs.make_member (tops parts.old.items)) result (tops parts.new.items) }
{
    let (name, arguments) = take_called(parts)?;
    let Ok((_dot, receiver)) = take_marked(parts) else {
        return Err(misfit((name, arguments)));
    };
    let Ok(receiver) = boxed(alloc, receiver) else {
        return Err(no_memory((name, arguments)));
    };
    let member = Expr::Member(receiver, name, arguments);
    say(parts, Said::Expr(member))
}

fn make_new(parts: &mut Vec<Part<'_>>) -> Result<(), Unbuilt>
    ensures { Makes (specs.make_new (tops parts.old.items)) result (tops parts.new.items) }
{
    let (class, arguments) = take_called(parts)?;
    let Ok((word, _)) = pop_token(parts) else {
        return Err(misfit((class, arguments)));
    };
    let made = Expr::New(place_of(&word), class, arguments);
    say(parts, Said::Expr(made))
}

// The word of a quantifier, with its place, before `(`.
fn take_quantifier(parts: &mut Vec<Part<'_>>) -> Result<(Quantifier, Place), Unbuilt>
    ensures { Takes (λ q. q) (specs.quantifier_on (tops parts.old.items)) result (tops parts.new.items) }
{
    let _open = pop_token(parts)?;
    let (quantifier, word) = pop_quantifier(parts)?;
    Ok((quantifier, word.place))
}

// A quantifier, with its place, and the name that it binds.
fn take_binder(parts: &mut Vec<Part<'_>>) -> Result<((Quantifier, Place), Name), Unbuilt>
    ensures { Takes (seen_pair (λ q. q) seen_name) (specs.binder_on (tops parts.old.items)) result (tops parts.new.items) }
{
    let _colon = pop_token(parts)?;
    let bound = pop_name(parts)?;
    let Ok(quantifier) = take_quantifier(parts) else {
        return Err(misfit(bound));
    };
    Ok((quantifier, bound))
}

fn make_quantified(alloc: Global, parts: &mut Vec<Part<'_>>) -> Result<(), Unbuilt>
    ensures { Makes (specs.make_quantified (tops parts.old.items)) result (tops parts.new.items) }
{
    let _close = pop_token(parts)?;
    let read = pop_expr(parts)?;
    let Ok((_bar, range)) = take_marked(parts) else {
        return Err(misfit(read));
    };
    let Ok(((quantifier, place), bound)) = take_binder(parts) else {
        return Err(misfit((range, read)));
    };
    let Ok((range, read)) = both_boxed(alloc, range, read) else {
        return Err(no_memory(bound));
    };
    let quantified = Expr::Quantified(quantifier, place, bound, range, read);
    say(parts, Said::Expr(quantified))
}

/// An expression between two tokens, and the first of them.
pub(crate) fn take_enclosed<'a>(parts: &mut Vec<Part<'a>>) -> Result<(Token<'a>, Expr), Unbuilt>
    ensures { Takes (seen_pair seen_token seen_expr) (specs.enclosed_on (tops parts.old.items)) result (tops parts.new.items) }
{
    let _close = pop_token(parts)?;
    let expr = pop_expr(parts)?;
    let Ok((open, _)) = pop_token(parts) else {
        return Err(misfit(expr));
    };
    Ok((open, expr))
}

fn make_group(alloc: Global, parts: &mut Vec<Part<'_>>) -> Result<(), Unbuilt>
    ensures { Makes (specs.make_group (tops parts.old.items)) result (tops parts.new.items) }
{
    let (open, inner) = take_enclosed(parts)?;
    let inner = boxed(alloc, inner)?;
    say(parts, Said::Expr(Expr::Group(place_of(&open), inner)))
}

// A name between two tokens, and the first of them.
fn take_cast<'a>(parts: &mut Vec<Part<'a>>) -> Result<(Token<'a>, Name), Unbuilt>
    ensures { Takes (seen_pair seen_token seen_name) (specs.cast_on (tops parts.old.items)) result (tops parts.new.items) }
{
    let _close = pop_token(parts)?;
    let class = pop_name(parts)?;
    let Ok((open, _)) = pop_token(parts) else {
        return Err(misfit(class));
    };
    Ok((open, class))
}

fn make_cast(alloc: Global, parts: &mut Vec<Part<'_>>) -> Result<(), Unbuilt>
    ensures { Makes (specs.make_cast (tops parts.old.items)) result (tops parts.new.items) }
{
    let operand = pop_expr(parts)?;
    let Ok((open, class)) = take_cast(parts) else {
        return Err(misfit(operand));
    };
    let Ok(operand) = boxed(alloc, operand) else {
        return Err(no_memory(class));
    };
    let cast = Expr::Cast(place_of(&open), class, operand);
    say(parts, Said::Expr(cast))
}

fn make_not(alloc: Global, parts: &mut Vec<Part<'_>>) -> Result<(), Unbuilt>
    ensures { Makes (specs.make_not (tops parts.old.items)) result (tops parts.new.items) }
{
    let operand = pop_expr(parts)?;
    let Ok((sign, _)) = pop_token(parts) else {
        return Err(misfit(operand));
    };
    let operand = boxed(alloc, operand)?;
    say(parts, Said::Expr(Expr::Not(place_of(&sign), operand)))
}

fn make_negate(alloc: Global, parts: &mut Vec<Part<'_>>) -> Result<(), Unbuilt>
    ensures { Makes (specs.make_negate (tops parts.old.items)) result (tops parts.new.items) }
{
    let operand = pop_expr(parts)?;
    let Ok((sign, _)) = pop_token(parts) else {
        return Err(misfit(operand));
    };
    let operand = boxed(alloc, operand)?;
    say(parts, Said::Expr(Expr::Negate(place_of(&sign), operand)))
}

// Two operands onto the stack, where what stands between them is an operator.
fn push_binary(
    operator: Option<Operator>,
    left: Box<Expr>,
    right: Box<Expr>,
    parts: &mut Vec<Part<'_>>,
) -> Result<(), Unbuilt>
    ensures { Makes (option_map (λ o. Formed (Binary o (seen_expr left.value) (seen_expr right.value)) ∷ tops parts.old.items) operator)
        result (tops parts.new.items) }
{
    match operator {
        Some(operator) => say(parts, Said::Expr(Expr::Binary(operator, left, right))),
        None => Err(Unbuilt::Misfit),
    }
}

// An operator between two operands.
fn make_binary(alloc: Global, start: Start, parts: &mut Vec<Part<'_>>) -> Result<(), Unbuilt>
    ensures { Makes (specs.make_binary start (tops parts.old.items)) result (tops parts.new.items) }
{
    let right = pop_expr(parts)?;
    let Ok((sign, left)) = take_marked(parts) else {
        return Err(misfit(right));
    };
    let (left, right) = both_boxed(alloc, left, right)?;
    push_binary(operator_of(class_of(start, &sign)), left, right, parts)
}

fn make_instance(alloc: Global, parts: &mut Vec<Part<'_>>) -> Result<(), Unbuilt>
    ensures { Makes (specs.make_instance (tops parts.old.items)) result (tops parts.new.items) }
{
    let class = pop_name(parts)?;
    let Ok((_word, operand)) = take_marked(parts) else {
        return Err(misfit(class));
    };
    let Ok(operand) = boxed(alloc, operand) else {
        return Err(no_memory(class));
    };
    say(parts, Said::Expr(Expr::InstanceOf(operand, class)))
}

// A choice between two expressions.
fn choice_of(alloc: Global, condition: Expr, then: Expr, otherwise: Expr) -> Result<Expr, Memory>
    ensures { IfOk result (λ e. seen_expr e ≡ If (seen_expr condition) (seen_expr then) (seen_expr otherwise)) }
{
    let Ok(condition) = boxed(alloc, condition) else {
        return Err(unmade((then, otherwise)));
    };
    let Ok((then, otherwise)) = both_boxed(alloc, then, otherwise) else {
        return Err(unmade(condition));
    };
    let choice = Expr::If(condition, then, otherwise);
    Ok(choice)
}

fn make_choice(alloc: Global, parts: &mut Vec<Part<'_>>) -> Result<(), Unbuilt>
    ensures { Makes (specs.make_choice (tops parts.old.items)) result (tops parts.new.items) }
{
    let otherwise = pop_expr(parts)?;
    let Ok((_colon, then)) = take_marked(parts) else {
        return Err(misfit(otherwise));
    };
    let Ok((_mark, condition)) = take_marked(parts) else {
        return Err(misfit((then, otherwise)));
    };
    let choice = choice_of(alloc, condition, then, otherwise)?;
    say(parts, Said::Expr(choice))
}

/// The form of an expression.
pub(crate) fn make_expression(
    alloc: Global,
    start: Start,
    form: u8,
    parts: &mut Vec<Part<'_>>,
) -> Result<(), Unbuilt>
    ensures { Makes (specs.make_expression start form (tops parts.old.items)) result (tops parts.new.items) }
{
    match form {
        events::NAME => make_name(alloc, start, parts),
        events::LITERAL => make_literal(start, parts),
        events::TEXT => make_text(parts),
        events::SOURCE => make_source(parts),
        events::CALL => make_call(parts),
        events::MEMBER => make_member(alloc, parts),
        events::NEW => make_new(parts),
        events::QUANTIFIED => make_quantified(alloc, parts),
        events::GROUP => make_group(alloc, parts),
        events::CAST => make_cast(alloc, parts),
        events::NOT => make_not(alloc, parts),
        events::NEGATE => make_negate(alloc, parts),
        events::PRODUCT
        | events::SUM
        | events::COMPARE
        | events::EQUATE
        | events::AND
        | events::OR => make_binary(alloc, start, parts),
        events::INSTANCE => make_instance(alloc, parts),
        events::CHOOSE => make_choice(alloc, parts),
        _ => Err(Unbuilt::Misfit),
    }
}
