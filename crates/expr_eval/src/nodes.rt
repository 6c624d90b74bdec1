// What forms read of a node: of one of the tree, or of one that was made, which a reader knows.
ghost use Rattle.std.specs.Prelude.{◌≡◌, ◌≢◌, ◌<◌, Ok, Some, IsSome, false, true};
ghost use Rattle.attr_rules.specs.Expression.{expression_of};
ghost use Rattle.tree_arena.specs.Nodes.{most_nodes};
ghost use Rattle.equation_law.specs.Checked.{token_wanted};
ghost use Rattle.equation_law.specs.Codes.{reference_by};
ghost use Rattle.equation_law.specs.Reading.{ByEachIn, IsSound, class_behind};
ghost use Rattle.equation_law.specs.Systems.{program_of};
ghost use Rattle.expr_eval.specs.Evaluating.{TokenReads};
ghost use Rattle.expr_eval.specs.Made.{IsChildBy, IsMakerOf, IsOfBy, NodeReads};
ghost use Rattle.expr_eval.specs.Parts.{is_node_form};

use crate::accessors::{child, decoded, token};
use crate::evaluation::{Context, Halt};
use ast_grammar::{ClassId, Shape};
use attr_rules::{Kind, Part, TExpr};
use equation_law::{Instance, NodeRef, Reader, System, Up, Value};
use inherited_walk::{class_at, made_arguments};

/// The child, or the optional child, of a receiver at a component, or null.
fn child_of<R: Reader>(system: &System, k: Part, receiver: NodeRef, reader: &mut R) -> NodeRef
    requires sound { IsSound (program_of system.now) (R.tells reader.old) }
    requires known { (R.tells reader.old).knows receiver.0 }
    ensures { IsChildBy (program_of system.now) (R.tells reader.old) (R.tells reader.new) k.0 receiver result }
{
    if receiver.is_made() {
        reader.made_child(receiver, k.0)
    } else {
        child(system, k, receiver)
    }
}

/// Whether a node is of a class or below.
fn is_of<R: Reader>(system: &System, class: ClassId, node: NodeRef, reader: &mut R) -> bool
    requires sound { IsSound (program_of system.now) (R.tells reader.old) }
    requires known { (R.tells reader.old).knows node.0 }
    ensures { IsOfBy (program_of system.now) (R.tells reader.old) (R.tells reader.new) class node result }
{
    match class_at(system, node, reader) {
        Some(own) => system.grammar().is_sub(own, class),
        None => false,
    }
}

/// The value that a form makes of a node.
fn of_node<R: Reader>(system: &System, form: &TExpr, node: NodeRef, reader: &mut R) -> Value
    requires sound { IsSound (program_of system.now) (R.tells reader.old) }
    requires form { is_node_form (expression_of form.now) ≡ true }
    requires known { (R.tells reader.old).knows node.0 }
    ensures { NodeReads (program_of system.now) (R.tells reader.old) (R.tells reader.new) (expression_of form.now) node.0 (Ok result) }
{
    match form {
        TExpr::Child(k, _) => Value::Node(child_of(system, *k, node, reader)),
        TExpr::Has(k, _) => Value::Truth(child_of(system, *k, node, reader).source().is_some()),
        TExpr::Cast(class, _) => {
            if is_of(system, *class, node, reader) {
                return Value::Node(node);
            }
            Value::Node(NodeRef(0))
        }
        TExpr::InstanceOf(class, _) => Value::Truth(is_of(system, *class, node, reader)),
        _ => unreachable!(),
    }
}

/// Puts the value that a form makes of a node in place.
pub(crate) fn put_node<R: Reader>(
    context: &Context<'_>,
    form: &TExpr,
    node: NodeRef,
    reader: &mut R,
    came: &mut Result<Value, Halt>,
)
    requires sound { IsSound (program_of context.now.system.now) (R.tells reader.old) }
    requires form { is_node_form (expression_of form.now) ≡ true }
    requires known { (R.tells reader.old).knows node.0 }
    ensures { NodeReads (program_of context.now.system.now) (R.tells reader.old) (R.tells reader.new) (expression_of form.now) node.0 came.new }
{
    *came = Ok(of_node(context.system, form, node, reader));
}

/// The type of the token at a component of a class, or None where that is no token.
fn token_kind(system: &System, class: ClassId, component: Part) -> Option<Kind>
    ensures { result ≡ token_wanted (program_of system.now).grammar (Some class) component.0 }
{
    let grammar = system.grammar();
    if u32::from(class.0) >= grammar.classes() || component.0 >= grammar.arity(class) {
        return None;
    }
    match grammar.component(class, component.0).shape {
        Shape::Text => Some(Kind::Text),
        Shape::Int => Some(Kind::Int),
        Shape::Truth => Some(Kind::Truth),
        Shape::Child | Shape::List | Shape::Optional => None,
    }
}

/// Whether the token at a component of a class is of a type.
fn is_wanted(system: &System, class: ClassId, component: Part, kind: Kind) -> bool
    ensures wanted { result ≡ true → token_wanted (program_of system.now).grammar (Some class) component.0 ≡ Some kind }
    ensures other { result ≡ false → token_wanted (program_of system.now).grammar (Some class) component.0 ≢ Some kind }
{
    token_kind(system, class, component) == Some(kind)
}

/// What made a node.
fn maker_of<R: Reader>(system: &System, node: NodeRef, reader: &mut R) -> Instance
    requires sound { IsSound (program_of system.now) (R.tells reader.old) }
    requires made { most_nodes < node.0 }
    requires known { (R.tells reader.old).knows node.0 }
    requires class { ByEachIn (R.tells reader.old) (λ n. IsSome (class_behind (program_of system.now) (reference_by n.node node.0))) }
    ensures { IsMakerOf (program_of system.now) (R.tells reader.old) (R.tells reader.new) node result }
{
    // The codes of the nodes of the tree are no larger.
    prove!(system.tree().len() <= 65_536);
    let mut at = node;
    'above: loop {
        match reader.made_up(at) {
            Up::Inside { parent, .. } => at = parent,
            Up::Owner { node: owner, attr } => {
                let args = made_arguments(system, attr, at, reader);
                return Instance::Attr {
                    attr,
                    node: owner,
                    args,
                };
            }
        }
    }
}

/// Puts the token of a node of a class that was made in place: what made the node is asked for its value. A token of another type than the
/// component's reads as the default.
fn put_made_token<R: Reader>(
    context: &Context<'_>,
    kind: Kind,
    component: Part,
    class: ClassId,
    node: NodeRef,
    reader: &mut R,
    came: &mut Result<Value, Halt>,
)
    requires sound { IsSound (program_of context.now.system.now) (R.tells reader.old) }
    requires made { most_nodes < node.0 }
    requires known { (R.tells reader.old).knows node.0 }
    requires class { ByEachIn (R.tells reader.old) (λ n. class_behind (program_of context.now.system.now) (reference_by n.node node.0) ≡ Some class) }
    ensures { TokenReads (program_of context.now.system.now) (R.tells reader.old) (R.tells reader.new) kind component.0 node.0 came.new }
{
    let maker = maker_of(context.system, node, reader);
    match reader.settled(context.alloc, &maker) {
        Ok(Some(_)) => {
            if is_wanted(context.system, class, component, kind) {
                let code = reader.made_token(node, component.0);
                *came = Ok(decoded(context.alloc, kind, Some(code)));
            } else {
                *came = Ok(Value::default_of(context.alloc, kind));
            }
        }
        Ok(None) => *came = Err(Halt::Need(maker)),
        Err(_) => *came = Err(Halt::Memory),
    }
}

/// Puts the token of a node, or of null, at a component in place, read at a type. That of a node of the tree demands nothing.
pub(crate) fn put_token<R: Reader>(
    context: &Context<'_>,
    kind: Kind,
    component: Part,
    node: NodeRef,
    reader: &mut R,
    came: &mut Result<Value, Halt>,
)
    requires sound { IsSound (program_of context.now.system.now) (R.tells reader.old) }
    requires known { (R.tells reader.old).knows node.0 }
    ensures { TokenReads (program_of context.now.system.now) (R.tells reader.old) (R.tells reader.new) kind component.0 node.0 came.new }
{
    if !node.is_made() {
        *came = Ok(token(context.alloc, context.system, kind, component, node));
        return;
    }
    match class_at(context.system, node, reader) {
        Some(class) => put_made_token(context, kind, component, class, node, reader, came),
        None => *came = Ok(Value::default_of(context.alloc, kind)),
    }
}
