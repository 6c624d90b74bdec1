// The tokens of a file.
ghost use Rattle.std.specs.Prelude.{◌≤◌, length};
ghost use Rattle.rag_io.specs.Outside.{longest_file};
ghost use Rattle.sentences.specs.Scanning.{AnswersTokens};

use broken_rules::{Broken, ReadFault, Rule};
use rag_io::{ScanFault, Token, scan};
use std::alloc::Global;

/// The tokens of the bytes of a file. The rule is broken at the first place at which neither a token nor white space nor a comment begins.
pub fn tokens_of(alloc: Global, bytes: &[u8], rule: Rule) -> Result<Vec<Token<'_>>, ReadFault>
    requires { length bytes.now ≤ longest_file }
    ensures { AnswersTokens bytes.now rule result }
{
    match scan(alloc, bytes) {
        Ok(tokens) => Ok(tokens),
        Err(ScanFault::Bad(place)) => Err(ReadFault::Broken(Broken { place, rule })),
        Err(ScanFault::Memory) => Err(ReadFault::Memory),
    }
}
