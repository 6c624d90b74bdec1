// Laws over the definitions.
ghost use Rattle.std.specs.Prelude.{ℕ, List};
ghost use Rattle.rag_io.specs.Tokens.{Lexed};
ghost use Rattle.ast_grammar.specs.Grammar.{Class};
ghost use Rattle.tree_reader.specs.Reading.{BreakOneFirst, SayOneTree, SayOrBreak};

/// Over a grammar and a pool of texts, some tokens say one tree at most or have one first broken rule at most, and not both: so what
/// `read_tree` answers is the only answer that is right.
pub fn one_tree()
    ensures tree { (g : List Class) (pool : List (List ℕ)) (ts : List Lexed) → SayOneTree g pool ts }
    ensures broken { (g : List Class) (pool : List (List ℕ)) (ts : List Lexed) → BreakOneFirst g pool ts }
    ensures either { (g : List Class) (pool : List (List ℕ)) (ts : List Lexed) → SayOrBreak g pool ts }
{}
