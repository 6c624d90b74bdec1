// Laws over the definitions.
ghost use Rattle.std.specs.Prelude.{◌≡◌, List};
ghost use Rattle.broken_rules.specs.declared.broken.Broken.{Broken as BrokenRule};
ghost use Rattle.rag_io.specs.Tokens.{Lexed};
ghost use Rattle.ast_grammar.specs.Grammar.{Class};
ghost use Rattle.ast_grammar.specs.Reading.{IsFirstBroken, SaysGrammar};

/// Some tokens say one grammar at most or have one first broken rule at most, and not both: so what `read_ast` answers is the only answer
/// that is right.
pub fn one_grammar()
    ensures grammar { (ts : List Lexed) (g h : List Class) → SaysGrammar ts g → SaysGrammar ts h → g ≡ h }
    ensures broken { (ts : List Lexed) (b c : BrokenRule) → IsFirstBroken ts b → IsFirstBroken ts c → b ≡ c }
    ensures either { (ts : List Lexed) (g : List Class) (b : BrokenRule) → SaysGrammar ts g → IsFirstBroken ts b → ⊥ }
{}
