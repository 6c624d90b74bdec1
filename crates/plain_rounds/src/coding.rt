// The codes of instances that stand under structural names. What made the nodes in them is put among the makers.
ghost use Rattle.std.specs.Prelude.{◌≡◌, ◌<◌, IfOk, All, length};
ghost use Rattle.equation_law.specs.Checked.{IsInstance};
ghost use Rattle.equation_law.specs.Names.{Query};
ghost use Rattle.equation_law.specs.Program.{text_of};
ghost use Rattle.equation_law.specs.Systems.{program_of};
ghost use Rattle.made_trees.specs.Made.{Follow};
ghost use Rattle.made_trees.specs.Makers.{AreTrees};
ghost use Rattle.plain_rounds.specs.CodesOf.{AreCodesOfArguments, AreCodesOfNames, IsCodeOfArgument, IsCodeOfInstance, IsCodeOfNode};
ghost use Rattle.plain_rounds.specs.Coding.{AreSomeArguments, IsNameCoded, IsSomeArgument, IsSomeNode};
ghost use Rattle.plain_rounds.specs.Named.{argument_named, arguments_named, instance_named, instances_named, name_in, reference_named};

use crate::growing::push;
use crate::naming::{Name, NamedArg, NamedArgs, NamedInstance, NodeName};
use attr_rules::{Kind, TextId};
use equation_law::{Args, Code, Instance, NodeRef, System, Value};
use made_trees::Makers;
use rag_io::Memory;
use std::alloc::Global;

/// The number of a text, which is that of the empty one for a number that no text has.
fn text_code(system: &System, number: TextId) -> Code
    ensures within { result < length (program_of system.now).texts }
    ensures text { text_of (program_of system.now) result ≡ text_of (program_of system.now) number.0 }
{
    if number.0 < system.pool().len() {
        number.0
    } else {
        0
    }
}

/// The code of a node of the program, or of null.
#[cycle(codes)]
fn node_code(system: &System, name: &NodeName, makers: &mut Makers) -> Result<NodeRef, Memory>
    requires same { makers.old.system ≡ system.now }
    requires trees { AreTrees makers.old }
    requires there { IsSomeNode (program_of system.now) (reference_named (text_of (program_of system.now)) name.now) }
    ensures same { makers.new.system ≡ system.now }
    ensures trees { AreTrees makers.new }
    ensures follow { Follow makers.old.makers makers.new.makers }
    ensures code { IfOk result (λ code. IsCodeOfNode system.now makers.new name.now code.0) }
{
    match name {
        NodeName::Null => Ok(NodeRef(0)),
        NodeName::Source(number) => Ok(NodeRef::of_source(Some(*number))),
        NodeName::Made(maker, position) => {
            let instance = instance_code(system, maker, makers)?;
            let root = makers.add(system, instance)?;
            Ok(NodeRef(root.0 + position))
        }
    }
}

/// The code of an argument.
#[cycle(codes)]
fn argument_code(system: &System, argument: &NamedArg, makers: &mut Makers) -> Result<Code, Memory>
    requires same { makers.old.system ≡ system.now }
    requires trees { AreTrees makers.old }
    requires there { IsSomeArgument (program_of system.now) (argument_named (text_of (program_of system.now)) argument.now) }
    ensures same { makers.new.system ≡ system.now }
    ensures trees { AreTrees makers.new }
    ensures follow { Follow makers.old.makers makers.new.makers }
    ensures code { IfOk result (λ code. IsCodeOfArgument system.now makers.new argument.now code) }
{
    match argument {
        NamedArg::Truth(value) => Ok(Value::Truth(*value).code(Kind::Truth)),
        NamedArg::Int(value) => Ok(Value::Int(*value).code(Kind::Int)),
        NamedArg::Text(number) => Ok(text_code(system, *number)),
        NamedArg::Node(node) => Ok(node_code(system, node, makers)?.0),
    }
}

/// The codes of arguments.
#[cycle(codes)]
fn argument_codes(
    system: &System,
    arguments: &NamedArgs,
    makers: &mut Makers,
) -> Result<Args, Memory>
    requires same { makers.old.system ≡ system.now }
    requires trees { AreTrees makers.old }
    requires there { AreSomeArguments (program_of system.now) (arguments_named (text_of (program_of system.now)) arguments.now) }
    ensures same { makers.new.system ≡ system.now }
    ensures trees { AreTrees makers.new }
    ensures follow { Follow makers.old.makers makers.new.makers }
    ensures codes { IfOk result (λ codes. AreCodesOfArguments system.now makers.new arguments.now codes) }
{
    match arguments {
        NamedArgs::None => Ok(Args::none()),
        NamedArgs::One(x) => Ok(Args::none().with(argument_code(system, x, makers)?)),
        NamedArgs::Two(x, y) => {
            let first = argument_code(system, x, makers)?;
            let second = argument_code(system, y, makers)?;
            Ok(Args::none().with(first).with(second))
        }
        NamedArgs::Three(x, y, z) => {
            let first = argument_code(system, x, makers)?;
            let second = argument_code(system, y, makers)?;
            let third = argument_code(system, z, makers)?;
            Ok(Args::none().with(first).with(second).with(third))
        }
    }
}

/// The code of an instance of an attribute.
#[cycle(codes)]
fn instance_code(
    system: &System,
    name: &NamedInstance,
    makers: &mut Makers,
) -> Result<Instance, Memory>
    requires same { makers.old.system ≡ system.now }
    requires trees { AreTrees makers.old }
    requires there { IsInstance (program_of system.now) (instance_named (text_of (program_of system.now)) name.now) }
    ensures same { makers.new.system ≡ system.now }
    ensures trees { AreTrees makers.new }
    ensures follow { Follow makers.old.makers makers.new.makers }
    ensures code { IfOk result (λ code. IsCodeOfInstance system.now makers.new name.now code) }
{
    let attr = name.attr;
    let node = node_code(system, &name.node, makers)?;
    let args = argument_codes(system, &name.args, makers)?;
    Ok(Instance::Attr { attr, node, args })
}

/// The code of an instance, which is put among the makers where it makes a tree.
fn name_code(system: &System, name: &Name, makers: &mut Makers) -> Result<Instance, Memory>
    requires same { makers.old.system ≡ system.now }
    requires trees { AreTrees makers.old }
    requires there { IsInstance (program_of system.now) (name_in (text_of (program_of system.now)) name.now) }
    ensures same { makers.new.system ≡ system.now }
    ensures trees { AreTrees makers.new }
    ensures follow { Follow makers.old.makers makers.new.makers }
    ensures code { IfOk result (λ code. IsNameCoded (program_of system.now) makers.new.makers (name_in (text_of (program_of system.now)) name.now) code) }
{
    let name = match name {
        Name::Query(query) => return Ok(Instance::Query(*query)),
        Name::Attribute(name) => name,
    };
    let instance = instance_code(system, name, makers)?;
    if makers.makes(system, &instance) {
        makers.add(system, instance)?;
    }
    Ok(instance)
}

/// The codes of instances of the system, of which those that make trees are put among the makers.
pub(crate) fn codes_of(
    alloc: Global,
    system: &System,
    names: &[Name],
    makers: &mut Makers,
) -> Result<Vec<Instance>, Memory>
    requires same { makers.old.system ≡ system.now }
    requires trees { AreTrees makers.old }
    requires there { All (IsInstance (program_of system.now)) (instances_named (program_of system.now) names.now) }
    ensures same { makers.new.system ≡ system.now }
    ensures trees { AreTrees makers.new }
    ensures codes { IfOk result (λ codes. AreCodesOfNames system.now makers.new names.now codes.items) }
{
    let mut codes = Vec::with_capacity(alloc, names.len()).map_err(|_| Memory)?;
    for name in names {
        let code = name_code(system, name, makers)?;
        push(&mut codes, code)?;
    }
    Ok(codes)
}
