// Words of codes.
ghost use Rattle.std.specs.Prelude.{IfOk, IfErr};
ghost use Rattle.code_sets.specs.Places.{IsAt, IsGapFor};
ghost use Rattle.code_sets.specs.Words.{AreWords};

/// The codes of a set that stand together in one word: its bit `b` stands for the code `64 * number + b`.
#[derive(Clone, Copy, Default, PartialEq, Eq)]
pub(crate) struct Word {
    pub(crate) number: u32,
    pub(crate) bits: u64,
}

/// Where the word of a number is, or where it would go.
pub(crate) fn search(words: &[Word], number: u32) -> Result<usize, usize>
    requires { AreWords words.now }
    ensures found { IfOk result (IsAt words.now number) }
    ensures absent { IfErr result (IsGapFor words.now number) }
{
    match words.last() {
        Some(last) if last.number < number => Err(words.len()),
        _ => words.binary_search_by_key(&number, |word| word.number),
    }
}
