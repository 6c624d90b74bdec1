// Puts a text, in pieces.
ghost use Rattle.std.specs.Prelude.{◌≤◌, OnOk, OnErr};
ghost use Rattle.rag_io.specs.Outside.{Rose};
ghost use Rattle.run_io.specs.Taking.{Took, TookSome};

use rag_io::{PutFault, Sink};

const PIECE: usize = 65_536;

/// Puts all the bytes in pieces of 65,536, the last one shorter; an empty text makes no put. It stops at the
/// first piece that the sink refuses.
pub fn put_all<K: Sink>(sink: &mut K, text: &[u8]) -> Result<(), PutFault>
    ensures took { OnOk result (Took (K.taken sink.old) text.now (K.taken sink.new)) }
    ensures part { OnErr result (TookSome (K.taken sink.old) text.now (K.taken sink.new)) }
    ensures failed { OnErr result (Rose (K.faults sink.old) (K.faults sink.new)) }
    ensures later { K.faults sink.old ≤ K.faults sink.new }
{
    let mut from: usize = 0;
    'pieces: while from < text.len() {
        let end = text.len().min(from.saturating_add(PIECE));
        sink.put(&text[from..end])?;
        from = end;
    }
    Ok(())
}
