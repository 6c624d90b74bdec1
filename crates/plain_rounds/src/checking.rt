// Which names are those of instances of a program.
ghost use Rattle.std.specs.Prelude.{◌≡◌, ◌↔◌, ℕ, List, Some, is_none, slice_get, true};
ghost use Rattle.attr_rules.specs.declared.kinds.Kind.TheVariants as kinds;
ghost use Rattle.attr_rules.specs.Types.{parameter_kinds};
ghost use Rattle.equation_law.specs.Checked.{IsInstance, IsProgram};
ghost use Rattle.equation_law.specs.Names.{Null};
ghost use Rattle.equation_law.specs.Program.{text_of};
ghost use Rattle.equation_law.specs.Systems.{program_of};
ghost use Rattle.plain_rounds.specs.Checking.{AreForRow, IsForKind, IsInstanceOf, IsNodeWith, IsWanted};
ghost use Rattle.plain_rounds.specs.Named.{argument_named, arguments_named, instance_named, name_in, reference_named};

use crate::naming::{Name, NamedArg, NamedArgs, NamedInstance, NodeName};
use ast_grammar::ClassId;
use attr_rules::{Kind, Params};
use equation_law::System;
use made_trees::class_made;

/// Whether there is no parameter.
fn is_end(params: Params) -> bool
    ensures { result ≡ is_none (slice_get (parameter_kinds params) 0) }
{
    params.first_kind().is_none()
}

/// Whether it is the type of truth values.
fn is_truth(kind: Option<Kind>) -> bool
    ensures { (result ≡ true) ↔ (kind ≡ Some kinds.Truth) }
{
    matches!(kind, Some(Kind::Truth))
}

/// Whether it is the type of integers.
fn is_int(kind: Option<Kind>) -> bool
    ensures { (result ≡ true) ↔ (kind ≡ Some kinds.Int) }
{
    matches!(kind, Some(Kind::Int))
}

/// Whether it is the type of texts.
fn is_text(kind: Option<Kind>) -> bool
    ensures { (result ≡ true) ↔ (kind ≡ Some kinds.Text) }
{
    matches!(kind, Some(Kind::Text))
}

/// The class of which nodes are wanted, if it is a type of nodes.
fn class_wanted(kind: Option<Kind>) -> Option<ClassId>
    ensures { IsWanted kind result }
{
    match kind {
        Some(Kind::Node(class)) => Some(class),
        _ => None,
    }
}

/// Whether it is the name of null.
fn is_null(name: &NodeName) -> bool
    ensures { (texts : ℕ → List ℕ) → (result ≡ true) ↔ (reference_named texts name.now ≡ Null) }
{
    match name {
        NodeName::Null => true,
        NodeName::Source(_) | NodeName::Made(_, _) => false,
    }
}

/// The class of a node, or None where the program has no such node.
#[cycle(classes)]
fn node_class(system: &System, name: &NodeName) -> Option<ClassId>
    requires { IsProgram (program_of system.now) }
    ensures { IsNodeWith (program_of system.now) (reference_named (text_of (program_of system.now)) name.now) result }
{
    match name {
        NodeName::Null => None,
        NodeName::Source(number) => {
            let tree = system.tree();
            if *number < tree.len() {
                Some(tree.class_of(*number))
            } else {
                None
            }
        }
        NodeName::Made(maker, position) => {
            let owner = instance_class(system, maker)?;
            if !system.rules().attr(maker.attr).sort.is_higher_order() {
                return None;
            }
            class_made(system, owner, maker.attr, *position)
        }
    }
}

/// The class of the node of an instance, or None where the program has no such instance.
#[cycle(classes)]
fn instance_class(system: &System, name: &NamedInstance) -> Option<ClassId>
    requires { IsProgram (program_of system.now) }
    ensures { IsInstanceOf (program_of system.now) (instance_named (text_of (program_of system.now)) name.now) result }
{
    let rules = system.rules();
    if u32::from(name.attr.0) >= rules.attrs() {
        return None;
    }
    let declared = rules.attr(name.attr);
    let class = node_class(system, &name.node)?;
    if system.grammar().is_sub(class, declared.class)
        && are_for(system, declared.params, &name.args)
    {
        Some(class)
    } else {
        None
    }
}

/// Whether arguments are as many as these parameters, and of their types.
#[cycle(classes)]
fn are_for(system: &System, params: Params, arguments: &NamedArgs) -> bool
    requires { IsProgram (program_of system.now) }
    ensures { AreForRow (program_of system.now) params (arguments_named (text_of (program_of system.now)) arguments.now) result }
{
    let (second, third) = (params.rest(), params.rest().rest());
    match arguments {
        NamedArgs::None => is_end(params),
        NamedArgs::One(x) => is_for(system, params.first_kind(), x) && is_end(second),
        NamedArgs::Two(x, y) => {
            is_for(system, params.first_kind(), x)
                && is_for(system, second.first_kind(), y)
                && is_end(third)
        }
        NamedArgs::Three(x, y, z) => {
            is_for(system, params.first_kind(), x)
                && is_for(system, second.first_kind(), y)
                && is_for(system, third.first_kind(), z)
                && is_end(third.rest())
        }
    }
}

/// Whether there is such a parameter, and an argument is of its type.
#[cycle(classes)]
fn is_for(system: &System, kind: Option<Kind>, argument: &NamedArg) -> bool
    requires { IsProgram (program_of system.now) }
    ensures { IsForKind (program_of system.now) kind (argument_named (text_of (program_of system.now)) argument.now) result }
{
    match argument {
        NamedArg::Truth(_) => is_truth(kind),
        NamedArg::Int(value) => {
            let _value = *value;
            is_int(kind)
        }
        NamedArg::Text(_) => is_text(kind),
        NamedArg::Node(node) => {
            let Some(wanted) = class_wanted(kind) else {
                return false;
            };
            match node_class(system, node) {
                Some(class) => system.grammar().is_sub(class, wanted),
                None => is_null(node),
            }
        }
    }
}

/// Whether it is the name of an instance of the system.
pub(crate) fn is_instance(system: &System, name: &Name) -> bool
    requires { IsProgram (program_of system.now) }
    ensures { (result ≡ true) ↔ IsInstance (program_of system.now) (name_in (text_of (program_of system.now)) name.now) }
{
    match name {
        Name::Attribute(name) => instance_class(system, name).is_some(),
        Name::Query(query) => query.0 < system.replies(),
    }
}
