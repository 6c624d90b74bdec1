// Laws over the definitions.
ghost use Rattle.std.specs.Prelude.{◌≡◌, ℕ, List, Some, slice_get};
ghost use Rattle.rag_io.specs.declared.token.Place.{Place as At};
ghost use Rattle.rag_io.specs.declared.token.TokenKind.TheVariants.{Text};
ghost use Rattle.rag_io.specs.Pool.{ArePooled, HaveOneNumber};
ghost use Rattle.rag_io.specs.Tokens.{Lexed, IsTokens, IsFirstBad, AreTokens};
ghost use Rattle.rag_io.specs.Unquoted.{IsQuoted, StandsFor};

/// Some bytes have one list of tokens or one first bad place, and not both: so what `scan` answers is the only answer that is right.
pub fn one_reading()
    ensures tokens { (p : At) (bytes : List ℕ) (ts us : List Lexed) → IsTokens p bytes ts → IsTokens p bytes us → ts ≡ us }
    ensures place { (p : At) (bytes : List ℕ) (q r : At) → IsFirstBad p bytes q → IsFirstBad p bytes r → q ≡ r }
    ensures either { (p : At) (bytes : List ℕ) (ts : List Lexed) (q : At) → IsTokens p bytes ts → IsFirstBad p bytes q → ⊥ }
{}

/// A text stands for one list of bytes: so what `unquote` answers is the only answer that is right. It may be called on each text that
/// `scan` finds.
pub fn one_unquoting()
    ensures some { (text : List ℕ) → IsQuoted text → (bytes : List ℕ) × StandsFor text bytes }
    ensures one { (text bytes others : List ℕ) → StandsFor text bytes → StandsFor text others → bytes ≡ others }
    ensures found { (ts : List Lexed) (i : ℕ) (t : Lexed) → AreTokens ts → slice_get ts i ≡ Some t → t.kind ≡ Text → IsQuoted t.text }
{}

/// Two texts of a pool are equal exactly where their numbers are.
pub fn one_number()
    ensures { (texts : List (List ℕ)) → ArePooled texts → HaveOneNumber texts }
{}
