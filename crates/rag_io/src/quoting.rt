// Texts as they are printed.
ghost use Rattle.std.specs.Prelude.{◌≡◌, ◌++◌, OnOk};
ghost use Rattle.rag_io.specs.Quoting.{escaped, quoted};

use crate::Memory;

// Adds a byte of a text.
fn push_escaped(into: &mut Vec<u8>, b: u8) -> Result<(), Memory>
    ensures { OnOk result (into.new.items ≡ into.old.items ++ escaped b) }
{
    let escape = match b {
        b'"' => b'"',
        b'\\' => b'\\',
        b'\n' => b'n',
        b'\t' => b't',
        b'\r' => b'r',
        _ => return into.push(b).map_err(|_| Memory),
    };
    into.push(b'\\').map_err(|_| Memory)?;
    into.push(escape).map_err(|_| Memory)
}

/// Adds a text in quotes: a quote, a backslash, a line feed, a tab and a carriage return inside it by their escapes, and every other
/// byte as it is.
pub fn push_quoted(into: &mut Vec<u8>, text: &[u8]) -> Result<(), Memory>
    ensures { OnOk result (into.new.items ≡ into.old.items ++ quoted text.now) }
{
    into.push(b'"').map_err(|_| Memory)?;
    'bytes: for b in text {
        push_escaped(into, *b)?;
    }
    into.push(b'"').map_err(|_| Memory)
}
