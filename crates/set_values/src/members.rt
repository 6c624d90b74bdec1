// Sets of one element, the members of a set, and how many there are.
ghost use Rattle.std.specs.Prelude.{◌≡◌, ◌<◌, IfOk, All, length, pos};
ghost use Rattle.std.specs.Int.{int_wrap};
ghost use mir.Syntax.{w32};
ghost use Rattle.equation_law.specs.Codes.{AreElements, ByEachNaming, reference_by, value_by};
ghost use Rattle.equation_law.specs.Program.{Program, text_of};
ghost use Rattle.equation_law.specs.Sets.{has};
ghost use Rattle.equation_law.specs.Systems.{program_of};
ghost use Rattle.equation_law.specs.Values as spec;
ghost use Rattle.set_values.specs.CodedSets.{HasNodesOf, WhereCoded, nodes_set, text_set};

use attr_rules::TextId;
use code_sets::{Code, Codes};
use equation_law::{NodeRef, System, Value};
use rag_io::Memory;
use std::alloc::Global;

/// The number of a text, which is that of the empty one for a number that no text has.
pub fn known_text(system: &System, number: TextId) -> Code
    ensures within { result < length (program_of system.now).texts }
    ensures text { text_of (program_of system.now) result ≡ text_of (program_of system.now) number.0 }
{
    if number.0 < system.pool().len() {
        number.0
    } else {
        0
    }
}

/// The set of a text or of a node. That of null is empty, and so is that of a value of which there are no sets.
pub fn single_set(alloc: Global, system: &System, value: &Value) -> Result<Value, Memory>
    ensures value { IfOk result (λ set. ByEachNaming (program_of system.now) (λ n. value_by n set ≡ spec.single (value_by n value.now))) }
    ensures elements { IfOk result (AreElements (program_of system.now)) }
    ensures nodes { IfOk result (HasNodesOf value.now) }
{
    match value {
        Value::Text(number) => Ok(Value::Texts(Codes::one(alloc, known_text(system, *number))?)),
        Value::Node(node) if node.0 > 0 => Ok(Value::Nodes(Codes::one(alloc, node.0)?)),
        _ => Ok(Value::Nodes(Codes::none(alloc))),
    }
}

/// Whether a text is one of some texts.
fn has_text(system: &System, codes: &Codes, number: TextId) -> bool
    requires { All (λ c. c < length (program_of system.now).texts) codes.now }
    ensures { result ≡ has (text_set (program_of system.now) codes.now) (text_of (program_of system.now) number.0) }
{
    codes.has(known_text(system, number))
}

/// Whether a node is one of some nodes; null is not.
fn has_node(codes: &Codes, node: NodeRef) -> bool
    requires { All (λ c. 0 < c) codes.now }
    ensures { (p : Program) → ByEachNaming p (λ n. result ≡ spec.has_node (nodes_set n.node codes.now) (reference_by n.node node.0)) }
{
    codes.has(node.0)
}

/// Whether a set has a value among its elements. A value that is no set has none.
pub fn contains(system: &System, set: &Value, element: &Value) -> bool
    requires { AreElements (program_of system.now) set.now }
    ensures { ByEachNaming (program_of system.now) (λ n. result ≡ spec.contains (value_by n set.now) (value_by n element.now)) }
{
    match set {
        Value::Texts(codes) => has_text(system, codes, element.text()),
        Value::Nodes(codes) => has_node(codes, element.node()),
        _ => false,
    }
}

/// A number as an integer of 32 bits, to which it wraps.
fn wrapped(number: usize) -> i32
    ensures { result ≡ int_wrap w32 (pos number) }
{
    ((number % (1 << 32)) as u32).cast_signed()
}

/// How many elements a set has. A value that is no set has none.
pub fn count(set: &Value) -> usize
    ensures { WhereCoded set.now (λ p. ByEachNaming p (λ n. result ≡ spec.size_of (value_by n set.now))) }
{
    match set {
        Value::Texts(codes) | Value::Nodes(codes) => codes.len(),
        _ => 0,
    }
}

/// How many elements a set has, as an integer of 32 bits. A value that is no set has none.
pub fn size(set: &Value) -> i32
    ensures { WhereCoded set.now (λ p. ByEachNaming p (λ n. result ≡ int_wrap w32 (pos (spec.size_of (value_by n set.now))))) }
{
    wrapped(count(set))
}
