// The laws of the output, over the definitions alone.
ghost use Rattle.std.specs.Prelude.{◌≢◌, ℕ, List};
ghost use Rattle.rag_io.specs.Outside.{Named};
ghost use Rattle.query_runner.specs.Output.{Answers, HaveOneAnswer};

/// One answer: for some words and the files that a shelf holds there is at most one status of 0, 1 and 2 with its text. So a file
/// that is refused excludes replies, the replies are one text, and the file that is refused is one.
pub fn one_answer()
    ensures { (words : List (List ℕ)) (files : List Named) → HaveOneAnswer words files }
{}

/// Where the cells may be full, no file is refused and the words ask for a run: words and files that have an answer of status 1 or 2 have none of
/// status 4.
pub fn full_or_refused()
    ensures { (words : List (List ℕ)) (files : List Named) (s : ℕ) (t u : List ℕ) → Answers words files 4 t → Answers words files s u → (s ≢ 1) × (s ≢ 2) }
{}
