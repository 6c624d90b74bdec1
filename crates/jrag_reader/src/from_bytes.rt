// The reader of the bytes of `.jrag` files.
ghost use Rattle.std.specs.Prelude.{◌≤◌, length};
ghost use Rattle.rag_io.specs.Outside.{longest_file};
ghost use Rattle.token_texts.specs.Texts.{Extends};
ghost use Rattle.jrag_reader.specs.FromBytes.{AnswersAspects};

use crate::reading::read_jrag;
use aspect_items::Aspects;
use broken_rules::{ReadFault, Rule};
use rag_io::Pool;
use sentences::tokens_of;
use std::alloc::Global;

/// The aspects that the bytes of a `.jrag` file say, whose texts go into the pool, or the first broken rule: J1 at the first place at which no
/// token begins, and else as [`read_jrag`] says. After a refusal the pool holds what it held, and perhaps further texts last.
pub fn read_jrag_bytes(alloc: Global, bytes: &[u8], pool: &mut Pool) -> Result<Aspects, ReadFault>
    requires { length bytes.now ≤ longest_file }
    ensures says { AnswersAspects pool.old bytes.now pool.new result }
    ensures extends { Extends pool.old pool.new }
{
    let tokens = tokens_of(alloc, bytes, Rule::J1)?;
    read_jrag(alloc, &tokens, pool)
}
