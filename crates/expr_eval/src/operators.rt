// Operators on values.
ghost use Rattle.std.specs.Prelude.{◌≡◌, ◌<◌, [], length, slice_index_or};
ghost use Rattle.std.specs.Str.{bytes_eq};
ghost use Rattle.rag_io.specs.Pool.{ArePooled};
ghost use Rattle.equation_law.specs.Codes.{ByEachNaming, reference_by, value_by};
ghost use Rattle.equation_law.specs.Meaning.{equal as same_value, operate as operated_by};
ghost use Rattle.equation_law.specs.Names.{same_reference};
ghost use Rattle.equation_law.specs.Program.{Program};
ghost use Rattle.equation_law.specs.Systems.{program_of};
ghost use Rattle.equation_law.specs.Values.{Int, Truth, int, truth};

use attr_rules::{Operator, TextId};
use equation_law::{NodeRef, System, Value};
use rag_io::Pool;

/// The number of a text; one that no text has counts as that of the empty text.
fn known(pool: &Pool, number: TextId) -> TextId
    ensures text { slice_index_or pool.now result.0 [] ≡ slice_index_or pool.now number.0 [] }
    ensures within { result.0 < length pool.now }
    ensures pooled { ArePooled pool.now }
{
    if number.0 < pool.len() {
        number
    } else {
        TextId(0)
    }
}

/// Whether two texts are equal, which are told apart by their numbers.
fn same_text(pool: &Pool, left: TextId, right: TextId) -> bool
    ensures { result ≡ bytes_eq (slice_index_or pool.now left.0 []) (slice_index_or pool.now right.0 []) }
{
    known(pool, left) == known(pool, right)
}

/// Whether two nodes are equal, which are told apart by their codes.
fn same_node(left: NodeRef, right: NodeRef) -> bool
    ensures { (p : Program) → ByEachNaming p (λ n. result ≡ same_reference (reference_by n.node left.0) (reference_by n.node right.0)) }
{
    left == right
}

/// Whether two truth values, integers, texts or nodes are equal.
fn equal(system: &System, left: &Value, right: &Value) -> bool
    ensures { ByEachNaming (program_of system.now) (λ n. result ≡ same_value (value_by n left.now) (value_by n right.now)) }
{
    match left {
        Value::Truth(b) => *b == right.truth(),
        Value::Int(z) => *z == right.int(),
        Value::Text(number) => same_text(system.pool(), *number, right.text()),
        Value::Node(node) => same_node(*node, right.node()),
        Value::Texts(_) | Value::Nodes(_) => false,
    }
}

/// A binary operator on two values; sums, differences and products wrap.
pub(crate) fn operate(system: &System, operator: Operator, left: &Value, right: &Value) -> Value
    ensures { ByEachNaming (program_of system.now) (λ n. value_by n result ≡ operated_by operator (value_by n left.now) (value_by n right.now)) }
{
    match operator {
        Operator::Add => Value::Int(left.int().wrapping_add(right.int())),
        Operator::Subtract => Value::Int(left.int().wrapping_sub(right.int())),
        Operator::Multiply => Value::Int(left.int().wrapping_mul(right.int())),
        Operator::Less => Value::Truth(left.int() < right.int()),
        Operator::AtMost => Value::Truth(left.int() <= right.int()),
        Operator::Greater => Value::Truth(left.int() > right.int()),
        Operator::AtLeast => Value::Truth(left.int() >= right.int()),
        Operator::Equal => Value::Truth(equal(system, left, right)),
    }
}
