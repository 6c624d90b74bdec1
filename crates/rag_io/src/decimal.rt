// The numbers that digits write.
ghost use Rattle.std.specs.Prelude.{◌≡◌, ◌<◌, ◌^◌, min};
ghost use Rattle.rag_io.specs.Decimal.{decimal};

/// The number that the digits of a [`TokenKind::Int`](crate::TokenKind::Int) write, or the limit where it is larger: an integer of
/// millions of digits is a token too, and needs no more than this.
pub fn capped(digits: &[u8], limit: u64) -> u64
    requires { limit < 2 ^ 32 }
    ensures { result ≡ min (decimal digits.now) limit }
{
    let mut number = 0;
    for digit in digits {
        number = (number * 10 + u64::from(digit.saturating_sub(b'0'))).min(limit);
    }
    number
}
