// The rules on expressions: J9, J10, J11, J12 and J17.
ghost use Rattle.std.specs.Prelude.{◌≡◌, ◌++◌, ◌∷◌, [], None, Some, IfOk, OnOk, map, length, nat_lt, pos};
ghost use Rattle.std.specs.Int.{int_wrap, w32};
ghost use Rattle.broken_rules.specs.Notes.{Notes, at, broken_if};
ghost use Rattle.broken_rules.specs.declared.rule.Rule.TheVariants.{J9, J12, J17};
ghost use Rattle.attr_rules.specs.Expression.{Int, Null, This, arguments_of as said_arguments, expression_of};
ghost use Rattle.attr_rules.specs.Types.{of_class};
ghost use Rattle.attr_bodies.specs.Bodies.{argument_broken, body_broken, cast_broken, expr_broken, node_broken, operand_broken, prefixed_broken, range_broken, variable_broken};
ghost use Rattle.attr_bodies.specs.Says.{called_says, cast_says, chosen_says, form_says, group_says, joined_says, over_says, prefixed_says, said_as, said_by, seen_typed, test_says};
ghost use Rattle.attr_bodies.specs.Seen.{broken_behind, broken_with, chosen_broken, given_broken, joined_broken, over_broken, part_of, seen_arguments, seen_call, set_form_broken};
ghost use Rattle.expr_typing.specs.Calls.{meant};
ghost use Rattle.expr_typing.specs.SetForms.{count_broken, int, settled};
ghost use Rattle.expr_typing.specs.Standing.{greatest};
ghost use Rattle.expr_typing.specs.Typed.{arguments_in, arguments_said, body_of, class_type, range_of};
ghost use Rattle.expr_typing.specs.declared.standing.Stands.TheVariants.{Anywhere};
ghost use Rattle.attr_scope.specs.ScopeKept.{IsScope};
ghost use Rattle.attr_scope.specs.Seen.{seen_scope, seen_variable};
ghost use Rattle.aspect_items.specs.Expressions.{Variable as Named, seen_expr, seen_name};

use aspect_items::{Expr, Name, Operator, Quantifier};
use ast_grammar::{ClassId, Grammar};
use attr_rules::{Kind, Params, TArgs, TExpr, TextId, ValueType};
use attr_scope::{Member, Scope, Variable, check_class, no_params};
use broken_rules::{Earliest, Rule};
use expr_typing::{
    Called, Elements, Part, Prefix, SetForm, Stands, Typed, all_arguments, called, cast,
    check_call, check_choice, check_count, check_fit, check_node, check_one, check_over,
    check_pair, check_range, check_sides, chosen, common_of, element_type, elements_over,
    else_place, form_named, joined, one_said, one_type, over_said, pair_said, pair_type, prefixed,
    quantified_type, result_of, settled, tested, type_of_class,
};
use rag_io::{Memory, Place};
use std::alloc::Global;

const TRUTH: Option<ValueType> = Some(ValueType::Of(Kind::Truth));

const INT: Option<ValueType> = Some(ValueType::Of(Kind::Int));

const TEXT: Option<ValueType> = Some(ValueType::Of(Kind::Text));

const NULL: Option<ValueType> = Some(ValueType::Null);

const EMPTY: Option<ValueType> = Some(ValueType::Empty);

fn typed(value_type: Option<ValueType>, body: TExpr) -> Typed
    ensures { seen_typed result ≡ said_as value_type (expression_of body) }
{
    Typed {
        value_type,
        list: None,
        body,
    }
}

// The node at which the equation is read.
fn this_of(scope: &Scope<'_>) -> Typed
    ensures { seen_typed result ≡ said_as (Some (of_class (seen_scope scope.now).this)) This }
{
    typed(Some(ValueType::of_class(scope.class)), TExpr::This)
}

// A literal. One that is too great breaks a rule.
fn literal(number: u32) -> TExpr
    ensures { expression_of result ≡ Int (int_wrap w32 (pos number)) }
{
    TExpr::Int(number.cast_signed())
}

// A literal, by where it stands.
fn type_literal(stands: Stands, place: Place, number: u32, faults: &mut Earliest) -> Typed
    ensures noted { Notes (broken_if (nat_lt (greatest stands) number) (at place J17)) faults.old faults.new }
    ensures says { seen_typed result ≡ said_as int (Int (int_wrap w32 (pos number))) }
{
    faults.note_if(stands.greatest() < number, Rule::J17, place);
    typed(INT, literal(number))
}

// What means nothing.
fn unknown(place: Place, faults: &mut Earliest) -> Typed
    ensures noted { Notes (at place J9 ∷ []) faults.old faults.new }
    ensures says { seen_typed result ≡ said_as None Null }
{
    faults.note(Rule::J9, place);
    typed(None, TExpr::Null)
}

// A `new` where nothing is made. It is of its class all the same.
fn misplaced(grammar: &Grammar, place: Place, name: &Name, faults: &mut Earliest) -> Typed
    ensures noted { Notes (at place J12 ∷ []) faults.old faults.new }
    ensures says { seen_typed result ≡ said_as (class_type grammar.now (seen_name name.now).text) Null }
{
    faults.note(Rule::J12, place);
    typed(type_of_class(grammar.find_class(&name.text)), TExpr::Null)
}

// A part of an expression: how it is written, and what it says.
#[derive(Drop)]
struct TypedPart<'a> {
    written: &'a Expr,
    typed: Typed,
}

impl TypedPart<'_> {
    fn part(&self) -> Part<'_>
        ensures { result ≡ part_of self.now }
    {
        Part {
            written: self.written,
            value_type: self.typed.value_type,
        }
    }
}

// An operator between two parts.
fn combined(
    alloc: Global,
    grammar: &Grammar,
    operator: Operator,
    left: TypedPart<'_>,
    right: TypedPart<'_>,
    faults: &mut Earliest,
) -> Result<Typed, Memory>
    ensures noted { OnOk result (Notes (joined_broken grammar.now operator left.entry right.entry) faults.old faults.new) }
    ensures says { IfOk result (λ t. seen_typed t ≡ joined_says operator left.entry right.entry) }
{
    check_sides(grammar, operator, left.part(), right.part(), faults);
    let body = joined(alloc, operator, left.typed.body, right.typed.body)?;
    Ok(typed(result_of(operator), body))
}

// A choice between two parts.
fn choice(
    alloc: Global,
    grammar: &Grammar,
    condition: TypedPart<'_>,
    then: TypedPart<'_>,
    otherwise: TypedPart<'_>,
    faults: &mut Earliest,
) -> Result<Typed, Memory>
    ensures noted { OnOk result (Notes (chosen_broken grammar.now condition.entry then.entry otherwise.entry) faults.old faults.new) }
    ensures says { IfOk result (λ t. seen_typed t ≡ chosen_says grammar.now condition.entry then.entry otherwise.entry) }
{
    check_choice(
        grammar,
        condition.part(),
        then.part(),
        otherwise.part(),
        faults,
    );
    let value_type = common_of(grammar, then.typed.value_type, otherwise.typed.value_type);
    let place = else_place(otherwise.written);
    let body = chosen(
        alloc,
        condition.typed.body,
        then.typed.body,
        place,
        otherwise.typed.body,
    )?;
    Ok(typed(value_type, body))
}

// A part, and what it breaks.
#[cycle(types)]
fn type_part<'a>(
    alloc: Global,
    scope: &Scope<'_>,
    written: &'a Expr,
    faults: &mut Earliest,
) -> Result<TypedPart<'a>, Memory>
    requires { IsScope (seen_scope scope.now) }
    ensures noted { OnOk result (Notes (expr_broken (seen_scope scope.now) Anywhere (seen_expr written.now)) faults.old faults.new) }
    ensures written { IfOk result (λ p. p.written.now ≡ written.now) }
    ensures says { IfOk result (λ p. seen_typed p.typed ≡ said_by (seen_scope scope.now) (seen_expr written.now)) }
{
    let typed = type_expr(alloc, scope, written, Stands::Anywhere, faults)?;
    Ok(TypedPart { written, typed })
}

// An argument of a call, of which a type may be wanted.
#[cycle(types)]
fn type_argument(
    alloc: Global,
    scope: &Scope<'_>,
    argument: &Expr,
    wanted: Option<Kind>,
    faults: &mut Earliest,
) -> Result<TExpr, Memory>
    requires { IsScope (seen_scope scope.now) }
    ensures noted { OnOk result (Notes (argument_broken (seen_scope scope.now) wanted (seen_expr argument.now)) faults.old faults.new) }
    ensures says { IfOk result (λ e. expression_of e ≡ body_of (seen_scope scope.now) (seen_expr argument.now)) }
{
    match wanted {
        Some(kind) => type_operand(alloc, scope, argument, Stands::Anywhere, kind, faults),
        None => Ok(type_expr(alloc, scope, argument, Stands::Anywhere, faults)?.body),
    }
}

fn add(list: &mut Vec<TExpr>, body: TExpr) -> Result<(), Memory>
    ensures { OnOk result (list.new.items ≡ list.old.items ++ body ∷ []) }
{
    list.push(body).map_err(|_| Memory)
}

// The arguments of a call, of which the first are wanted of these types.
#[cycle(types)]
fn type_arguments(
    alloc: Global,
    scope: &Scope<'_>,
    wanted: Params,
    arguments: &[Expr],
    faults: &mut Earliest,
) -> Result<Vec<TExpr>, Memory>
    requires { IsScope (seen_scope scope.now) }
    ensures noted { OnOk result (Notes (given_broken (seen_scope scope.now) wanted arguments.now) faults.old faults.new) }
    ensures says { IfOk result (λ list. arguments_in (map expression_of list.items) ≡ arguments_said (seen_scope scope.now) (seen_arguments arguments.now)) }
{
    let mut list = Vec::new(alloc);
    let mut kinds = wanted;
    for argument in arguments {
        let body = type_argument(alloc, scope, argument, kinds.first_kind(), faults)?;
        add(&mut list, body)?;
        kinds = kinds.rest();
    }
    Ok(list)
}

// What a name means in a call behind a receiver of a type, and what the arguments say.
#[cycle(types)]
fn type_called(
    alloc: Global,
    scope: &Scope<'_>,
    receiver: Option<ValueType>,
    call: Called<'_>,
    arguments: &[Expr],
    faults: &mut Earliest,
) -> Result<(Option<Member>, TArgs), Memory>
    requires scope { IsScope (seen_scope scope.now) }
    requires count { call.count ≡ length arguments.now }
    ensures noted { OnOk result (Notes (broken_with (seen_scope scope.now) receiver call.entry arguments.now) faults.old faults.new) }
    ensures member { IfOk result (λ r. r.0 ≡ meant (seen_scope scope.now) receiver call.entry) }
    ensures says { IfOk result (λ r. said_arguments r.1 ≡ arguments_said (seen_scope scope.now) (seen_arguments arguments.now)) }
{
    let member = scope.member_on(receiver, &call.name.text, call.count);
    check_call(scope, call, receiver, member, faults);
    let wanted = scope.wanted_for(member, call.count);
    let bodies = type_arguments(alloc, scope, wanted, arguments, faults)?;
    Ok((member, all_arguments(alloc, bodies)?))
}

// A call behind a receiver.
#[cycle(types)]
fn type_call(
    alloc: Global,
    scope: &Scope<'_>,
    receiver: Typed,
    call: Called<'_>,
    arguments: &[Expr],
    faults: &mut Earliest,
) -> Result<Typed, Memory>
    requires scope { IsScope (seen_scope scope.now) }
    requires count { call.count ≡ length arguments.now }
    ensures noted { OnOk result (Notes (broken_with (seen_scope scope.now) receiver.value_type call.entry arguments.now) faults.old faults.new) }
    ensures says { IfOk result (λ t. seen_typed t ≡ called_says (seen_scope scope.now) receiver call.entry.name.now arguments.now) }
{
    let (member, arguments) = type_called(
        alloc,
        scope,
        receiver.value_type,
        call,
        arguments,
        faults,
    )?;
    let body = called(alloc, member, receiver.body, arguments, call.name.place)?;
    let value_type = scope.type_of(member);
    let list = scope.list_of(member, call.count);
    Ok(Typed {
        value_type,
        list,
        body,
    })
}

/// A part of which a type is wanted, by where it stands.
#[cycle(types)]
pub fn type_operand(
    alloc: Global,
    scope: &Scope<'_>,
    operand: &Expr,
    stands: Stands,
    wanted: Kind,
    faults: &mut Earliest,
) -> Result<TExpr, Memory>
    requires { IsScope (seen_scope scope.now) }
    ensures noted { OnOk result (Notes (operand_broken (seen_scope scope.now) stands wanted (seen_expr operand.now)) faults.old faults.new) }
    ensures says { IfOk result (λ e. expression_of e ≡ body_of (seen_scope scope.now) (seen_expr operand.now)) }
{
    let typed = type_expr(alloc, scope, operand, stands, faults)?;
    let part = Part {
        written: operand,
        value_type: typed.value_type,
    };
    check_fit(scope.grammar, part, wanted, faults);
    Ok(typed.body)
}

// A part in parentheses, which gives no list.
#[cycle(types)]
fn type_group(
    alloc: Global,
    scope: &Scope<'_>,
    inner: &Expr,
    faults: &mut Earliest,
) -> Result<Typed, Memory>
    requires { IsScope (seen_scope scope.now) }
    ensures noted { OnOk result (Notes (expr_broken (seen_scope scope.now) Anywhere (seen_expr inner.now)) faults.old faults.new) }
    ensures says { IfOk result (λ t. seen_typed t ≡ group_says (seen_scope scope.now) (seen_expr inner.now)) }
{
    let inner = type_expr(alloc, scope, inner, Stands::Anywhere, faults)?;
    Ok(typed(inner.value_type, inner.body))
}

// A part with what stands before it.
#[cycle(types)]
fn type_prefixed(
    alloc: Global,
    scope: &Scope<'_>,
    prefix: Prefix,
    operand: &Expr,
    faults: &mut Earliest,
) -> Result<Typed, Memory>
    requires { IsScope (seen_scope scope.now) }
    ensures noted { OnOk result (Notes (prefixed_broken (seen_scope scope.now) prefix (seen_expr operand.now)) faults.old faults.new) }
    ensures says { IfOk result (λ t. seen_typed t ≡ prefixed_says (seen_scope scope.now) prefix (seen_expr operand.now)) }
{
    let kind = prefix.kind();
    let operand = type_operand(alloc, scope, operand, prefix.stands(), kind, faults)?;
    let body = prefixed(alloc, prefix, operand)?;
    Ok(typed(Some(ValueType::Of(kind)), body))
}

// One of the forms of sets that has another number of arguments.
fn form_alone(form: SetForm, name: &Name, faults: &mut Earliest) -> Typed
    ensures noted { Notes (count_broken (seen_name name.now)) faults.old faults.new }
    ensures says { seen_typed result ≡ said_as (settled form) Null }
{
    check_count(name, faults);
    typed(settled(form), TExpr::Null)
}

// One of the forms of sets with one argument.
#[cycle(types)]
fn type_one(
    alloc: Global,
    scope: &Scope<'_>,
    form: SetForm,
    name: &Name,
    only: &Expr,
    faults: &mut Earliest,
) -> Result<Typed, Memory>
    requires { IsScope (seen_scope scope.now) }
    ensures noted { OnOk result (Notes (set_form_broken (seen_scope scope.now) form name.now (only.now ∷ [])) faults.old faults.new) }
    ensures says { IfOk result (λ t. seen_typed t ≡ form_says (seen_scope scope.now) form (seen_arguments (only.now ∷ []))) }
{
    let only = type_part(alloc, scope, only, faults)?;
    check_one(form, name, only.part(), faults);
    let value_type = one_type(form, only.typed.value_type);
    let body = one_said(alloc, form, only.typed.body)?;
    Ok(typed(value_type, body))
}

// One of the forms of sets with two arguments.
#[cycle(types)]
fn type_pair(
    alloc: Global,
    scope: &Scope<'_>,
    form: SetForm,
    name: &Name,
    first: &Expr,
    second: &Expr,
    faults: &mut Earliest,
) -> Result<Typed, Memory>
    requires { IsScope (seen_scope scope.now) }
    ensures noted { OnOk result (Notes (set_form_broken (seen_scope scope.now) form name.now (first.now ∷ second.now ∷ [])) faults.old faults.new) }
    ensures says { IfOk result (λ t. seen_typed t ≡ form_says (seen_scope scope.now) form (seen_arguments (first.now ∷ second.now ∷ []))) }
{
    let first = type_part(alloc, scope, first, faults)?;
    let second = type_part(alloc, scope, second, faults)?;
    check_pair(
        scope.grammar,
        form,
        name,
        first.part(),
        second.part(),
        faults,
    );
    let left = first.typed.value_type;
    let value_type = pair_type(scope.grammar, form, left, second.typed.value_type);
    let body = pair_said(alloc, form, value_type, first.typed.body, second.typed.body)?;
    Ok(typed(value_type, body))
}

// One of the forms of sets.
#[cycle(types)]
fn type_form(
    alloc: Global,
    scope: &Scope<'_>,
    form: SetForm,
    name: &Name,
    arguments: &[Expr],
    faults: &mut Earliest,
) -> Result<Typed, Memory>
    requires { IsScope (seen_scope scope.now) }
    ensures noted { OnOk result (Notes (set_form_broken (seen_scope scope.now) form name.now arguments.now) faults.old faults.new) }
    ensures says { IfOk result (λ t. seen_typed t ≡ form_says (seen_scope scope.now) form (seen_arguments arguments.now)) }
{
    match arguments {
        [] => Ok(form_alone(form, name, faults)),
        [only] => type_one(alloc, scope, form, name, only, faults),
        [first, second] => type_pair(alloc, scope, form, name, first, second, faults),
        [_, _, _, ..] => {
            type_arguments(alloc, scope, no_params(), arguments, faults)?;
            Ok(form_alone(form, name, faults))
        }
    }
}

// A call of a name without receiver.
#[cycle(types)]
fn type_call_alone(
    alloc: Global,
    scope: &Scope<'_>,
    stands: Stands,
    name: &Name,
    arguments: &[Expr],
    faults: &mut Earliest,
) -> Result<Typed, Memory>
    requires { IsScope (seen_scope scope.now) }
    ensures noted { OnOk result (Notes (expr_broken (seen_scope scope.now) stands (seen_call name.now arguments.now)) faults.old faults.new) }
    ensures says { IfOk result (λ t. seen_typed t ≡ said_by (seen_scope scope.now) (seen_call name.now arguments.now)) }
{
    if let Some(form) = form_named(&name.text) {
        return type_form(alloc, scope, form, name, arguments, faults);
    }
    let call = Called {
        receiver: None,
        name,
        count: arguments.len(),
        range: stands.is_range(),
    };
    type_call(alloc, scope, this_of(scope), call, arguments, faults)
}

// A call of a name behind a receiver.
#[cycle(types)]
fn type_member(
    alloc: Global,
    scope: &Scope<'_>,
    stands: Stands,
    receiver: TypedPart<'_>,
    name: &Name,
    arguments: &[Expr],
    faults: &mut Earliest,
) -> Result<Typed, Memory>
    requires { IsScope (seen_scope scope.now) }
    ensures noted { OnOk result (Notes (broken_behind (seen_scope scope.now) stands receiver.entry name.now arguments.now) faults.old faults.new) }
    ensures says { IfOk result (λ t. seen_typed t ≡ called_says (seen_scope scope.now) receiver.entry.typed name.now arguments.now) }
{
    let call = Called {
        receiver: Some(receiver.written),
        name,
        count: arguments.len(),
        range: stands.is_range(),
    };
    type_call(alloc, scope, receiver.typed, call, arguments, faults)
}

// The range of a form over some elements: these elements, and what has the list, or the set.
#[cycle(types)]
fn type_range(
    alloc: Global,
    scope: &Scope<'_>,
    form: Quantifier,
    range: &Expr,
    faults: &mut Earliest,
) -> Result<(Option<Elements>, TExpr), Memory>
    requires { IsScope (seen_scope scope.now) }
    ensures noted { OnOk result (Notes (range_broken (seen_scope scope.now) form (seen_expr range.now)) faults.old faults.new) }
    ensures elements { IfOk result (λ r. r.0 ≡ range_of (seen_scope scope.now) form (seen_expr range.now)) }
    ensures says { IfOk result (λ r. expression_of r.1 ≡ body_of (seen_scope scope.now) (seen_expr range.now)) }
{
    let typed = type_expr(alloc, scope, range, Stands::Range, faults)?;
    check_range(form, range, typed.value_type, faults);
    let elements = elements_over(form, typed.list, typed.value_type);
    Ok((elements, typed.body))
}

// The body of a form over some elements.
#[cycle(types)]
fn type_body(
    alloc: Global,
    scope: &Scope<'_>,
    form: Quantifier,
    body: &Expr,
    faults: &mut Earliest,
) -> Result<Typed, Memory>
    requires { IsScope (seen_scope scope.now) }
    ensures noted { OnOk result (Notes (body_broken (seen_scope scope.now) form (seen_expr body.now)) faults.old faults.new) }
    ensures says { IfOk result (λ t. seen_typed t ≡ said_by (seen_scope scope.now) (seen_expr body.now)) }
{
    let typed = type_expr(alloc, scope, body, Stands::Anywhere, faults)?;
    let part = Part {
        written: body,
        value_type: typed.value_type,
    };
    check_over(scope.grammar, form, part, faults);
    Ok(typed)
}

// The names of a scope with one more, the innermost first.
fn with_name<'a>(
    alloc: Global,
    scope: &Scope<'a>,
    variable: Variable<'a>,
) -> Result<Vec<Variable<'a>>, Memory>
    ensures { IfOk result (λ list. map seen_variable list.items ≡ seen_variable variable.entry ∷ (seen_scope scope.now).variables) }
{
    let mut list = Vec::new(alloc);
    list.push(variable).map_err(|_| Memory)?;
    list.extend_from_slice(scope.variables).map_err(|_| Memory)?;
    Ok(list)
}

// A form over some elements.
#[cycle(types)]
fn type_quantified(
    alloc: Global,
    scope: &Scope<'_>,
    form: Quantifier,
    name: &Name,
    range: &Expr,
    body: &Expr,
    faults: &mut Earliest,
) -> Result<Typed, Memory>
    requires { IsScope (seen_scope scope.now) }
    ensures noted { OnOk result (Notes (over_broken (seen_scope scope.now) form name.now range.now body.now) faults.old faults.new) }
    ensures says { IfOk result (λ t. seen_typed t ≡ over_says (seen_scope scope.now) form name.now range.now body.now) }
{
    let (elements, range) = type_range(alloc, scope, form, range, faults)?;
    let value_type = element_type(elements);
    let variable = Variable {
        name: &name.text,
        value_type,
    };
    let variables = with_name(alloc, &*scope, variable)?;
    let inner = Scope {
        grammar: &*scope.grammar,
        attributes: &*scope.attributes,
        class: scope.class,
        variables: &variables,
    };
    let each = type_body(alloc, &inner, form, body, faults)?;
    let of = each.value_type;
    let body = over_said(alloc, form, of, elements, range, each.body)?;
    Ok(typed(quantified_type(form, elements, of), body))
}

// The operand of a cast or of `instanceof`.
#[cycle(types)]
fn type_node(
    alloc: Global,
    scope: &Scope<'_>,
    operand: &Expr,
    faults: &mut Earliest,
) -> Result<TExpr, Memory>
    requires { IsScope (seen_scope scope.now) }
    ensures noted { OnOk result (Notes (node_broken (seen_scope scope.now) (seen_expr operand.now)) faults.old faults.new) }
    ensures says { IfOk result (λ e. expression_of e ≡ body_of (seen_scope scope.now) (seen_expr operand.now)) }
{
    let typed = type_expr(alloc, scope, operand, Stands::Anywhere, faults)?;
    let part = Part {
        written: operand,
        value_type: typed.value_type,
    };
    check_node(part, faults);
    Ok(typed.body)
}

// A cast of a part.
#[cycle(types)]
fn type_cast(
    alloc: Global,
    scope: &Scope<'_>,
    name: &Name,
    operand: &Expr,
    faults: &mut Earliest,
) -> Result<Typed, Memory>
    requires { IsScope (seen_scope scope.now) }
    ensures noted { OnOk result (Notes (cast_broken (seen_scope scope.now) (seen_name name.now) (seen_expr operand.now)) faults.old faults.new) }
    ensures says { IfOk result (λ t. seen_typed t ≡ cast_says (seen_scope scope.now) (seen_name name.now) (seen_expr operand.now)) }
{
    let class = check_class(scope.grammar, name, faults);
    let operand = type_node(alloc, scope, operand, faults)?;
    let body = cast(alloc, class.unwrap_or(ClassId(0)), operand)?;
    Ok(typed(type_of_class(class), body))
}

// A test of a part's class.
#[cycle(types)]
fn type_test(
    alloc: Global,
    scope: &Scope<'_>,
    name: &Name,
    operand: &Expr,
    faults: &mut Earliest,
) -> Result<Typed, Memory>
    requires { IsScope (seen_scope scope.now) }
    ensures noted { OnOk result (Notes (cast_broken (seen_scope scope.now) (seen_name name.now) (seen_expr operand.now)) faults.old faults.new) }
    ensures says { IfOk result (λ t. seen_typed t ≡ test_says (seen_scope scope.now) (seen_name name.now) (seen_expr operand.now)) }
{
    let class = check_class(scope.grammar, name, faults);
    let operand = type_node(alloc, scope, operand, faults)?;
    let body = tested(alloc, class.unwrap_or(ClassId(0)), operand)?;
    Ok(typed(TRUTH, body))
}

// A name that stands for a value.
fn type_variable(scope: &Scope<'_>, name: &Name, faults: &mut Earliest) -> Typed
    ensures noted { Notes (variable_broken (seen_scope scope.now) (seen_name name.now)) faults.old faults.new }
    ensures says { seen_typed result ≡ said_by (seen_scope scope.now) (Named (seen_name name.now)) }
{
    match scope.variable(&name.text) {
        Some(number) => typed(scope.variable_type(&name.text), TExpr::Variable(number)),
        None => unknown(name.place, faults),
    }
}

// What a written expression says, and what it breaks, by where it stands. It goes down the expression, which has at most 400
// tokens.
#[cycle(types)]
fn type_expr(
    alloc: Global,
    scope: &Scope<'_>,
    expr: &Expr,
    stands: Stands,
    faults: &mut Earliest,
) -> Result<Typed, Memory>
    requires { IsScope (seen_scope scope.now) }
    ensures noted { OnOk result (Notes (expr_broken (seen_scope scope.now) stands (seen_expr expr.now)) faults.old faults.new) }
    ensures says { IfOk result (λ t. seen_typed t ≡ said_by (seen_scope scope.now) (seen_expr expr.now)) }
{
    match expr {
        Expr::Truth(_, b) => Ok(typed(TRUTH, TExpr::Truth(*b))),
        Expr::Null(_) => Ok(typed(NULL, TExpr::Null)),
        Expr::This(_) => Ok(this_of(scope)),
        Expr::Int(place, number) => Ok(type_literal(stands, *place, *number, faults)),
        Expr::Text(_, number) => Ok(typed(TEXT, TExpr::Text(TextId(*number)))),
        Expr::Variable(name) => Ok(type_variable(scope, name, faults)),
        Expr::Quantified(form, _, name, range, body) => {
            type_quantified(alloc, scope, *form, name, range, body, faults)
        }
        Expr::Cast(_, name, operand) => type_cast(alloc, scope, name, operand, faults),
        Expr::InstanceOf(operand, name) => type_test(alloc, scope, name, operand, faults),
        Expr::Source(place, _) => Ok(unknown(*place, faults)),
        Expr::Call(name, arguments) => {
            type_call_alone(alloc, scope, stands, name, arguments, faults)
        }
        Expr::Member(receiver, name, arguments) => {
            let receiver = type_part(alloc, scope, receiver, faults)?;
            type_member(alloc, scope, stands, receiver, name, arguments, faults)
        }
        Expr::Group(_, inner) => type_group(alloc, scope, inner, faults),
        Expr::Not(_, operand) => type_prefixed(alloc, scope, Prefix::Not, operand, faults),
        Expr::Negate(_, operand) => type_prefixed(alloc, scope, Prefix::Minus, operand, faults),
        Expr::Binary(operator, left, right) => {
            let left = type_part(alloc, scope, left, faults)?;
            let right = type_part(alloc, scope, right, faults)?;
            combined(alloc, scope.grammar, *operator, left, right, faults)
        }
        Expr::If(condition, then, otherwise) => {
            let condition = type_part(alloc, scope, condition, faults)?;
            let then = type_part(alloc, scope, then, faults)?;
            let otherwise = type_part(alloc, scope, otherwise, faults)?;
            choice(alloc, scope.grammar, condition, then, otherwise, faults)
        }
        Expr::Empty(_) => Ok(typed(EMPTY, TExpr::Empty)),
        Expr::New(place, name, _) => Ok(misplaced(scope.grammar, *place, name, faults)),
    }
}
