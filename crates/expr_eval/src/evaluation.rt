// The meaning of an expression under what a reader has.
ghost use Rattle.std.specs.Prelude.{◌≡◌, ◌<◌, [], IfOk, OnOk, Some, length, true};
ghost use Rattle.attr_rules.specs.Expression.{expression_of};
ghost use Rattle.attr_rules.specs.Types.{text_kind};
ghost use Rattle.equation_law.specs.declared.coding.Instance.TheVariants.{Attr as attribute_at};
ghost use Rattle.equation_law.specs.Codes.{AreCodes, AreElements, ByEachNaming, IsCode, IsCoded, IsRow, Naming, codes_in, single_by, value_by, value_coded};
ghost use Rattle.equation_law.specs.Equations.{attribute_kind as kind_of};
ghost use Rattle.equation_law.specs.Program.{Program, attribute_parameters, text_of};
ghost use Rattle.equation_law.specs.Reading.{Grows, IsSound, KnowsInstance, KnowsValue};
ghost use Rattle.equation_law.specs.Values.{as_argument, truth};
ghost use Rattle.equation_law.specs.Systems.{program_of};
ghost use Rattle.set_values.specs.Ordered.{KnowsSingle};
ghost use Rattle.expr_eval.specs.Elements.{KnowsElements, Rooms};
ghost use Rattle.expr_eval.specs.Evaluating.{CallReads, DemandReads, KnowsContext, is_over_form, place_in};
ghost use Rattle.expr_eval.specs.Parts.{IsCombined, IsRounded, IsSaid, is_further, node_part};
ghost use Rattle.expr_eval.specs.Reads.{ArgumentsReadIn, GoesOverIn, IsReady, ReadsAt, ReadsCall, ReadsChoice, ReadsIn, ReadsStandIn, state};
ghost use Rattle.expr_eval.specs.Saved.{AreRanged, IsFirst, Stands, TakesIn, begun as begun_with, body_of, done as done_with, range_of};

use crate::accessors::Elements;
use crate::nodes::{put_node, put_token};
use crate::parts::{Parts, make_both, make_whole, parts_of, put_leaf};
use crate::saved::{Making, Saved, Stand, making_of};
use attr_rules::{AttrId, Kind, Params, Quantifier, SetOperator, TArgs, TExpr, TextId};
use equation_law::{Args, Code, Instance, NodeRef, Reader, Single, System, Value};
use rag_io::Memory;
use set_values::set_operate;
use std::alloc::Global;
use std::mem;

/// What an expression is evaluated in: the program, the node at which the equation is read, and the values of the names, the innermost
/// first.
#[derive(Clone, Copy)]
pub(crate) struct Context<'a> {
    pub(crate) alloc: Global,
    pub(crate) system: &'a System,
    pub(crate) this: NodeRef,
    pub(crate) names: &'a [Single],
}

/// Why an expression has no value.
#[derive(Clone, Copy)]
pub(crate) enum Halt {
    /// The reader has no value for this instance, which is the first demand of that kind.
    Need(Instance),
    /// The reader had not enough memory.
    Memory,
}

impl From<Memory> for Halt {
    ghost use Rattle.std.specs.Prelude.{◌≡◌};
    ghost use Rattle.expr_eval.specs.declared.evaluation.Halt.TheVariants.{Memory as NoMemory};

    ghost from_gives = { λ _ halt. halt ≡ NoMemory };

    fn from(_: Memory) -> Halt {
        Halt::Memory
    }
}

/// The type of an attribute; of one that isn't declared, `boolean`.
pub(crate) fn attribute_kind(system: &System, attribute: AttrId) -> Kind
    ensures { result ≡ kind_of (program_of system.now) attribute.0 }
{
    let rules = system.rules();
    if u32::from(attribute.0) < rules.attrs() {
        rules.attr(attribute).kind
    } else {
        Kind::Truth
    }
}

/// Puts an instance's value, read at its type, in place.
fn demand<R: Reader>(
    context: &Context<'_>,
    instance: Instance,
    reader: &mut R,
    came: &mut Result<Value, Halt>,
)
    requires sound { IsSound (program_of context.now.system.now) (R.tells reader.old) }
    requires coded { IsCoded (program_of context.now.system.now) instance }
    requires known { KnowsInstance (program_of context.now.system.now) (R.tells reader.old) instance }
    ensures { DemandReads (program_of context.now.system.now) (R.tells reader.old) (R.tells reader.new) instance came.new }
{
    match reader.settled(context.alloc, &instance) {
        Ok(Some(value)) => *came = Ok(value),
        Ok(None) => *came = Err(Halt::Need(instance)),
        Err(_) => *came = Err(Halt::Memory),
    }
}

/// Whether it is the type of texts.
fn is_text(kind: Kind) -> bool
    ensures { result ≡ text_kind kind }
{
    match kind {
        Kind::Text => true,
        Kind::Truth | Kind::Int | Kind::Node(_) | Kind::Texts | Kind::Nodes(_) => false,
    }
}

/// The number of a text, which is that of the empty one for a number that no text has.
fn known_text(system: &System, number: TextId) -> Code
    ensures within { result < length (program_of system.now).texts }
    ensures text { text_of (program_of system.now) result ≡ text_of (program_of system.now) number.0 }
{
    if number.0 < system.pool().len() {
        number.0
    } else {
        0
    }
}

/// The code of an argument for a parameter of this type: each value has one.
pub(crate) fn argument_code(system: &System, kind: Kind, value: Value) -> Code
    ensures code { IsCode (program_of system.now) kind result }
    ensures value { ByEachNaming (program_of system.now) (λ n. as_argument kind (value_coded n kind result) ≡ as_argument kind (value_by n value)) }
{
    if is_text(kind) {
        return known_text(system, value.text());
    }
    value.code(kind)
}

/// The codes of the arguments of a call, for these parameters, evaluated from the left. One without a parameter counts for nothing.
#[cycle(meaning)]
fn given<'a, R: Reader>(
    context: &Context<'_>,
    parameters: Params,
    arguments: &'a TArgs,
    reader: &mut R,
    saved: &mut Saved<'a>,
) -> Result<Args, Halt>
    requires ready { IsReady (program_of context.now.system.now) (state context.now.system.now (R.tells reader.old) saved.old) }
    requires known { KnowsContext (R.tells reader.old) context.now }
    ensures { ArgumentsReadIn context.now (R.tells reader.old) saved.old (R.tells reader.new) saved.new parameters arguments.now result }
{
    match arguments {
        TArgs::End => Ok(Args::none()),
        TArgs::More(first, rest) => {
            let mut came = Err(Halt::Memory);
            meaning(context, first, reader, saved, &mut came);
            let value = came?;
            let behind = given(context, parameters.rest(), rest, reader, saved)?;
            Ok(match parameters.first_kind() {
                Some(kind) => behind.behind(argument_code(context.system, kind, value)),
                None => Args::none(),
            })
        }
    }
}

/// A call at a node with arguments: the instance's value, and on null the default of the attribute's type.
fn call<R: Reader>(
    context: &Context<'_>,
    attr: AttrId,
    node: NodeRef,
    args: Args,
    reader: &mut R,
    came: &mut Result<Value, Halt>,
)
    requires sound { IsSound (program_of context.now.system.now) (R.tells reader.old) }
    requires row { IsRow args }
    requires codes { AreCodes (program_of context.now.system.now) (attribute_parameters (program_of context.now.system.now) attr.0) (codes_in args) }
    requires known { KnowsInstance (program_of context.now.system.now) (R.tells reader.old) (attribute_at attr node args) }
    ensures { CallReads (program_of context.now.system.now) (R.tells reader.old) (R.tells reader.new) attr.0 node.0 args came.new }
{
    if node == NodeRef(0) {
        let kind = attribute_kind(context.system, attr);
        *came = Ok(Value::default_of(context.alloc, kind));
        return;
    }
    demand(context, Instance::Attr { attr, node, args }, reader, came);
}

/// The names with room for one more in front.
fn with_room(context: &Context<'_>) -> Result<Vec<Single>, Memory>
    ensures { IfOk result (λ names. Rooms context.now.names.now names.items) }
{
    let mut names = Vec::new(context.alloc);
    names.push(Single::Node(NodeRef(0))).map_err(|_| Memory)?;
    names.extend_from_slice(context.names).map_err(|_| Memory)?;
    Ok(names)
}

/// The value where there are no elements.
fn begun(alloc: Global, making: Making) -> Value
    ensures value { (n : Naming) → n.text 0 ≡ [] → value_by n result ≡ begun_with making }
    ensures coded { (p : Program) → AreElements p result }
{
    match making {
        Making::Tests(Quantifier::Any) => Value::Truth(false),
        Making::Tests(Quantifier::All) => Value::Truth(true),
        Making::Tests(Quantifier::First) => Value::Node(NodeRef(0)),
        Making::Joins(kind) => Value::default_of(alloc, kind),
    }
}

/// What is made of two sets.
fn combined(
    context: &Context<'_>,
    operator: SetOperator,
    kind: Kind,
    left: Value,
    right: Value,
) -> Result<Value, Memory>
    requires left { AreElements (program_of context.now.system.now) left }
    requires right { AreElements (program_of context.now.system.now) right }
    ensures value { IfOk result (IsCombined context.now.system.now operator kind left right) }
    ensures coded { IfOk result (AreElements (program_of context.now.system.now)) }
{
    set_operate(context.alloc, operator, kind, left, right)
}

/// Puts an element in the place of a value.
fn put_element(place: &mut Value, element: Single)
    ensures value { (n : Naming) → value_by n place.new ≡ single_by n element }
    ensures coded { (p : Program) → AreElements p place.new }
{
    *place = Value::from(element);
}

/// Puts the value behind an element in the place of the one before it, by what is said there.
fn put_in(
    context: &Context<'_>,
    making: Making,
    element: Single,
    so_far: &mut Value,
    said: Value,
) -> Result<(), Memory>
    requires so_far { AreElements (program_of context.now.system.now) so_far.old }
    requires said { AreElements (program_of context.now.system.now) said }
    ensures value { OnOk result (TakesIn context.now.system.now making element said so_far.old so_far.new) }
    ensures coded { OnOk result (AreElements (program_of context.now.system.now) so_far.new) }
{
    match making {
        Making::Tests(Quantifier::Any) => {
            *so_far = Value::Truth(so_far.truth() || said.truth());
            Ok(())
        }
        Making::Tests(Quantifier::All) => {
            *so_far = Value::Truth(so_far.truth() && said.truth());
            Ok(())
        }
        Making::Tests(Quantifier::First) => {
            if said.truth() {
                put_element(so_far, element);
                return Ok(());
            }
            Ok(())
        }
        Making::Joins(kind) => {
            let before = mem::replace(so_far, Value::Truth(false));
            *so_far = combined(context, SetOperator::Union, kind, before, said)?;
            Ok(())
        }
    }
}

/// How many of so many elements are done with behind the n-th: `first` needs none behind one at which the condition is true.
fn done(making: Making, count: usize, n: usize, said: &Value) -> usize
    requires { n < count }
    ensures { (by : Naming) → result ≡ done_with making count n (value_by by said.now) }
{
    match making {
        Making::Tests(Quantifier::First) if said.truth() => count,
        _ => n + 1,
    }
}

/// Takes in what is said at an element.
fn take_in(
    context: &Context<'_>,
    making: Making,
    list: &Elements,
    element: Single,
    said: Value,
    stand: &mut Stand,
) -> Result<(), Memory>
    requires next { stand.old.next < list.now.count }
    requires so_far { AreElements (program_of context.now.system.now) stand.old.so_far }
    requires said { AreElements (program_of context.now.system.now) said }
    ensures names { stand.new.names ≡ stand.old.names }
    ensures next { (n : Naming) → stand.new.next ≡ done_with making list.now.count stand.old.next (value_by n said) }
    ensures so_far { OnOk result (TakesIn context.now.system.now making element said stand.old.so_far stand.new.so_far) }
    ensures coded { OnOk result (AreElements (program_of context.now.system.now) stand.new.so_far) }
{
    stand.next = done(making, list.count, stand.next, &said);
    put_in(context, making, element, &mut stand.so_far, said)
}

/// What an expression says at an element, which stands in front of the names.
#[cycle(meaning)]
fn with_element<'a, R: Reader>(
    context: &Context<'_>,
    names: &mut Vec<Single>,
    element: Single,
    body: &'a TExpr,
    reader: &mut R,
    saved: &mut Saved<'a>,
    came: &mut Result<Value, Halt>,
)
    requires ready { IsReady (program_of context.now.system.now) (state context.now.system.now (R.tells reader.old) saved.old) }
    requires known { KnowsContext (R.tells reader.old) context.now }
    requires room { Rooms context.now.names.now names.old.items }
    requires element { KnowsSingle (R.tells reader.old) element }
    ensures room { Rooms context.now.names.now names.new.items }
    ensures reads { ReadsAt context.now (R.tells reader.old) saved.old (R.tells reader.new) saved.new element body.now came.new }
{
    names[0] = element;
    let inner = Context {
        alloc: context.alloc,
        system: context.system,
        this: context.this,
        names,
    };
    meaning(&inner, body, reader, saved, came);
}

/// Goes over the elements that are left. What is saved of forms in the body is let go of behind each of them.
#[cycle(meaning)]
fn at_elements<'a, R: Reader>(
    context: &Context<'_>,
    making: Making,
    list: &Elements,
    stand: &mut Stand,
    body: &'a TExpr,
    reader: &mut R,
    saved: &mut Saved<'a>,
) -> Result<(), Halt>
    requires ready { IsReady (program_of context.now.system.now) (state context.now.system.now (R.tells reader.old) saved.old) }
    requires known { KnowsContext (R.tells reader.old) context.now }
    requires room { Rooms context.now.names.now stand.old.names.items }
    requires elements { KnowsElements (R.tells reader.old) list.now }
    requires stands { Stands context.now.system.now (R.tells reader.old) (place_in context.now) making (expression_of body.now) list.now stand.old }
    ensures room { Rooms context.now.names.now stand.new.names.items }
    ensures over { GoesOverIn context.now (R.tells reader.old) saved.old (R.tells reader.new) saved.new making body.now list.now stand.new result }
{
    // The codes of the nodes of the tree are no larger.
    prove!(context.system.tree().len() <= 65_536);
    'elements: while stand.next < list.count {
        let element = list.get(context.system, stand.next);
        let mut came = Err(Halt::Memory);
        with_element(
            context,
            &mut stand.names,
            element,
            body,
            reader,
            saved,
            &mut came,
        );
        let said = came?;
        take_in(context, making, list, element, said, stand)?;
        saved.leave(context.names.len());
    }
    Ok(())
}

/// The elements of a form, from the value that they come from.
fn elements_of<R: Reader>(
    context: &Context<'_>,
    form: &TExpr,
    from: &Value,
    reader: &mut R,
) -> Result<Elements, Memory>
    requires sound { IsSound (program_of context.now.system.now) (R.tells reader.old) }
    requires form { is_over_form (expression_of form.now) ≡ true }
    requires from { AreElements (program_of context.now.system.now) from.now }
    requires known { KnowsValue (R.tells reader.old) from.now }
    ensures kept { Grows (program_of context.now.system.now) (R.tells reader.old) (R.tells reader.new) }
    ensures ranged { IfOk result (AreRanged context.now.system.now (R.tells reader.new) (expression_of form.now) from.now) }
    ensures known { IfOk result (KnowsElements (R.tells reader.new)) }
{
    match form {
        TExpr::Quantified(_, k, _, _) => Ok(Elements::of(context.system, *k, from.node())),
        TExpr::Each(_, k, _, _) => Ok(Elements::of(context.system, *k, from.node())),
        TExpr::QuantifiedSet(_, _, _) | TExpr::EachOfSet(_, _, _) => {
            Elements::of_set(context.alloc, context.system, from, reader)
        }
        _ => unreachable!(),
    }
}

/// The elements of a form, which stands before the first.
fn at_first<R: Reader>(
    context: &Context<'_>,
    form: &TExpr,
    from: &Value,
    reader: &mut R,
) -> Result<(Elements, Stand), Memory>
    requires sound { IsSound (program_of context.now.system.now) (R.tells reader.old) }
    requires form { is_over_form (expression_of form.now) ≡ true }
    requires from { AreElements (program_of context.now.system.now) from.now }
    requires known { KnowsValue (R.tells reader.old) from.now }
    ensures kept { Grows (program_of context.now.system.now) (R.tells reader.old) (R.tells reader.new) }
    ensures elements { IfOk result (λ stood. AreRanged context.now.system.now (R.tells reader.new) (expression_of form.now) from.now stood.0) }
    ensures known { IfOk result (λ stood. KnowsElements (R.tells reader.new) stood.0) }
    ensures first { IfOk result (λ stood. IsFirst context.now (expression_of form.now) stood.1) }
{
    let list = elements_of(context, form, from, reader)?;
    let names = with_room(context)?;
    let so_far = begun(context.alloc, making_of(form));
    Ok((
        list,
        Stand {
            names,
            next: 0,
            so_far,
        },
    ))
}

/// The elements of a form, and where it stands: where that is saved, or before the first.
#[cycle(meaning)]
fn standing<'a, R: Reader>(
    context: &Context<'_>,
    form: &'a TExpr,
    range: &'a TExpr,
    reader: &mut R,
    saved: &mut Saved<'a>,
) -> Result<(Elements, Stand), Halt>
    requires ready { IsReady (program_of context.now.system.now) (state context.now.system.now (R.tells reader.old) saved.old) }
    requires known { KnowsContext (R.tells reader.old) context.now }
    requires form { is_over_form (expression_of form.now) ≡ true }
    requires range { range_of (expression_of form.now) ≡ expression_of range.now }
    ensures { ReadsStandIn context.now (R.tells reader.old) saved.old (R.tells reader.new) saved.new form.now result }
{
    match saved.take(context, form) {
        Some(found) => Ok(found),
        None => {
            let mut came = Err(Halt::Memory);
            meaning(context, range, reader, saved, &mut came);
            let from = came?;
            Ok(at_first(context, form, &from, reader)?)
        }
    }
}

/// The value of a form over elements, which goes on where it stood. Where it stands then is saved.
#[cycle(meaning)]
#[inline(never)]
fn over_form<'a, R: Reader>(
    context: &Context<'_>,
    form: &'a TExpr,
    range: &'a TExpr,
    body: &'a TExpr,
    reader: &mut R,
    saved: &mut Saved<'a>,
) -> Result<Value, Halt>
    requires ready { IsReady (program_of context.now.system.now) (state context.now.system.now (R.tells reader.old) saved.old) }
    requires known { KnowsContext (R.tells reader.old) context.now }
    requires form { is_over_form (expression_of form.now) ≡ true }
    requires range { range_of (expression_of form.now) ≡ expression_of range.now }
    requires body { body_of (expression_of form.now) ≡ expression_of body.now }
    ensures { ReadsIn context.now (R.tells reader.old) saved.old (R.tells reader.new) saved.new form.now result }
{
    let (list, mut stand) = standing(context, form, range, reader, saved)?;
    match at_elements(
        context,
        making_of(form),
        &list,
        &mut stand,
        body,
        reader,
        saved,
    ) {
        Ok(()) => {
            let value = stand.so_far.copy()?;
            saved.put(form, context.this, list, stand)?;
            Ok(value)
        }
        Err(Halt::Need(instance)) => {
            saved.put(form, context.this, list, stand)?;
            Err(Halt::Need(instance))
        }
        Err(Halt::Memory) => Err(Halt::Memory),
    }
}

/// The truth value of what came, if a value did.
fn round(came: &mut Result<Value, Halt>)
    ensures { IsRounded came.old came.new }
{
    match came {
        Ok(value) => *value = Value::Truth(value.truth()),
        Err(_) => {}
    }
}

/// The truth value that came, if a value did.
fn said(came: &Result<Value, Halt>) -> Option<bool>
    ensures { IsSaid came.now result }
{
    match came {
        Ok(value) => Some(value.truth()),
        Err(_) => None,
    }
}

/// Puts the value of a call in place.
#[cycle(meaning)]
fn put_call<'a, R: Reader>(
    context: &Context<'_>,
    called: AttrId,
    receiver: &'a TExpr,
    arguments: &'a TArgs,
    reader: &mut R,
    saved: &mut Saved<'a>,
    came: &mut Result<Value, Halt>,
)
    requires ready { IsReady (program_of context.now.system.now) (state context.now.system.now (R.tells reader.old) saved.old) }
    requires known { KnowsContext (R.tells reader.old) context.now }
    ensures { ReadsCall context.now (R.tells reader.old) saved.old (R.tells reader.new) saved.new called receiver.now arguments.now came.new }
{
    meaning(context, receiver, reader, saved, came);
    match came {
        Ok(receiver) => {
            let node = receiver.node();
            let wanted = context.system.parameters(called);
            match given(context, wanted, arguments, reader, saved) {
                Ok(args) => call(context, called, node, args, reader, came),
                Err(halt) => *came = Err(halt),
            }
        }
        Err(_) => {}
    }
}

/// Puts the value of a choice between two parts in place.
#[cycle(meaning)]
fn put_choice<'a, R: Reader>(
    context: &Context<'_>,
    condition: &'a TExpr,
    then: &'a TExpr,
    otherwise: &'a TExpr,
    reader: &mut R,
    saved: &mut Saved<'a>,
    came: &mut Result<Value, Halt>,
)
    requires ready { IsReady (program_of context.now.system.now) (state context.now.system.now (R.tells reader.old) saved.old) }
    requires known { KnowsContext (R.tells reader.old) context.now }
    ensures { ReadsChoice context.now (R.tells reader.old) saved.old (R.tells reader.new) saved.new condition.now then.now otherwise.now came.new }
{
    meaning(context, condition, reader, saved, came);
    match said(came) {
        Some(true) => meaning(context, then, reader, saved, came),
        Some(false) => meaning(context, otherwise, reader, saved, came),
        None => {}
    }
}

/// Puts the value of a call, or of a form in which a condition chooses what is evaluated, in place.
#[cycle(meaning)]
#[inline(never)]
fn further<'a, R: Reader>(
    context: &Context<'_>,
    form: &'a TExpr,
    reader: &mut R,
    saved: &mut Saved<'a>,
    came: &mut Result<Value, Halt>,
)
    requires ready { IsReady (program_of context.now.system.now) (state context.now.system.now (R.tells reader.old) saved.old) }
    requires known { KnowsContext (R.tells reader.old) context.now }
    requires further { is_further (expression_of form.now) ≡ true }
    ensures { ReadsIn context.now (R.tells reader.old) saved.old (R.tells reader.new) saved.new form.now came.new }
{
    match form {
        TExpr::Call(called, _, receiver, arguments) => {
            put_call(context, *called, receiver, arguments, reader, saved, came);
        }
        TExpr::And(left, right) => {
            meaning(context, left, reader, saved, came);
            match said(came) {
                Some(true) => {
                    meaning(context, right, reader, saved, came);
                    round(came);
                }
                Some(false) => *came = Ok(Value::Truth(false)),
                None => {}
            }
        }
        TExpr::Or(left, right) => {
            meaning(context, left, reader, saved, came);
            match said(came) {
                Some(true) => *came = Ok(Value::Truth(true)),
                Some(false) => {
                    meaning(context, right, reader, saved, came);
                    round(came);
                }
                None => {}
            }
        }
        TExpr::If(condition, then, _, otherwise) => {
            put_choice(context, condition, then, otherwise, reader, saved, came);
        }
        _ => unreachable!(),
    }
}

/// Puts the value that a form makes of the node of its part in place.
#[cycle(meaning)]
fn put_of_node<'a, R: Reader>(
    context: &Context<'_>,
    form: &TExpr,
    part: &'a TExpr,
    reader: &mut R,
    saved: &mut Saved<'a>,
    came: &mut Result<Value, Halt>,
)
    requires ready { IsReady (program_of context.now.system.now) (state context.now.system.now (R.tells reader.old) saved.old) }
    requires known { KnowsContext (R.tells reader.old) context.now }
    requires part { node_part form.now ≡ Some part.now }
    ensures { ReadsIn context.now (R.tells reader.old) saved.old (R.tells reader.new) saved.new form.now came.new }
{
    meaning(context, part, reader, saved, came);
    match came {
        Ok(part) => {
            let node = part.node();
            put_node(context, form, node, reader, came);
        }
        Err(_) => {}
    }
}

/// Puts the value of an expression in place, or the first demand for which the reader has none. It walks down the expression, which has at
/// most 400 tokens: what is always evaluated of a form comes first, and then what the form makes of it, which needs no reader.
#[cycle(meaning)]
pub(crate) fn meaning<'a, R: Reader>(
    context: &Context<'_>,
    expression: &'a TExpr,
    reader: &mut R,
    saved: &mut Saved<'a>,
    came: &mut Result<Value, Halt>,
)
    requires ready { IsReady (program_of context.now.system.now) (state context.now.system.now (R.tells reader.old) saved.old) }
    requires known { KnowsContext (R.tells reader.old) context.now }
    ensures { ReadsIn context.now (R.tells reader.old) saved.old (R.tells reader.new) saved.new expression.now came.new }
{
    // The codes of the nodes of the tree are no larger.
    prove!(context.system.tree().len() <= 65_536);
    match parts_of(expression) {
        Parts::Leaf => put_leaf(context, expression, came),
        Parts::One(part) => {
            meaning(context, part, reader, saved, came);
            make_whole(context, expression, came);
        }
        Parts::Token(kind, component, receiver) => {
            meaning(context, receiver, reader, saved, came);
            match came {
                Ok(receiver) => {
                    let node = receiver.node();
                    put_token(context, *kind, *component, node, reader, came);
                }
                Err(_) => {}
            }
        }
        Parts::Two(first, second) => {
            meaning(context, first, reader, saved, came);
            match came {
                Ok(_) => {
                    let mut other = Err(Halt::Memory);
                    meaning(context, second, reader, saved, &mut other);
                    make_both(context, expression, came, &mut other);
                }
                Err(_) => {}
            }
        }
        Parts::Over(range, body) => {
            *came = over_form(context, expression, range, body, reader, saved);
        }
        Parts::Further => further(context, expression, reader, saved, came),
        Parts::Node(part) => put_of_node(context, expression, part, reader, saved, came),
    }
}
