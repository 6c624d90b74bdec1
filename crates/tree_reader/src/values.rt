// Values of tokens as a text writes them.
ghost use Rattle.std.specs.Prelude.{◌≡◌, ℕ, List, nat_le, if◌then◌else◌, Some, None};
ghost use Rattle.rag_io.specs.Decimal.{decimal};
ghost use Rattle.tree_reader.specs.Breaking.{is_small_int, is_text, is_truth, most_of};
ghost use Rattle.tree_reader.specs.Grown.{int_code};
ghost use Rattle.tree_reader.specs.Steps.{seen_leaf, value_code};

use rag_io::capped;

// The largest integer, and the largest one behind a `-`.
const GREATEST: u64 = 2_147_483_647;

/// The value of a token as it is written.
#[derive(Clone, Copy, Debug, PartialEq, Eq)]
pub(crate) enum Value<'a> {
    /// A text, by the code that it has in the pool.
    Text(u32),
    /// An integer by its digits, perhaps with a `-` before them.
    Int { is_negative: bool, digits: &'a [u8] },
    Truth(bool),
}

// The two's complement of an integer, where it fits into 32 bits.
fn small_code(is_negative: bool, digits: &[u8]) -> Option<u32>
    ensures { result ≡ (if nat_le (decimal digits.now) (most_of is_negative) then Some (int_code is_negative (decimal digits.now)) else None) }
{
    let most = if is_negative { GREATEST + 1 } else { GREATEST };
    let number = capped(digits, most + 1);
    if number > most {
        None
    } else if is_negative {
        Some((number as u32).wrapping_neg())
    } else {
        Some(number as u32)
    }
}

impl Value<'_> {
    /// Whether it is an integer from -2,147,483,648 to 2,147,483,647.
    pub(crate) fn is_small_int(&self) -> bool
        ensures { (text : List ℕ) → result ≡ is_small_int (seen_leaf text self.now) }
    {
        match self {
            Value::Int {
                is_negative,
                digits,
            } => small_code(*is_negative, digits).is_some(),
            Value::Text(_) | Value::Truth(_) => false,
        }
    }

    /// Whether it is a text.
    pub(crate) fn is_text(&self) -> bool
        ensures { (text : List ℕ) → result ≡ is_text (seen_leaf text self.now) }
    {
        matches!(self, Value::Text(_))
    }

    /// Whether it is a truth value.
    pub(crate) fn is_truth(&self) -> bool
        ensures { (text : List ℕ) → result ≡ is_truth (seen_leaf text self.now) }
    {
        matches!(self, Value::Truth(_))
    }

    /// Its code: that of a text, the two's complement of an integer, 0 or 1 for a truth value, and 0 for an integer that doesn't fit.
    pub(crate) fn code(&self) -> u32
        ensures { result ≡ value_code self.now }
    {
        match self {
            Value::Text(code) => *code,
            Value::Int {
                is_negative,
                digits,
            } => small_code(*is_negative, digits).unwrap_or(0),
            Value::Truth(truth) => u32::from(*truth),
        }
    }
}
