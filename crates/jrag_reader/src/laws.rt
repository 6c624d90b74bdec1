// Laws over the definitions.
ghost use Rattle.std.specs.Prelude.{◌≡◌, ℕ, List};
ghost use Rattle.broken_rules.specs.declared.broken.Broken.{Broken as BrokenRule};
ghost use Rattle.rag_io.specs.Tokens.{Lexed};
ghost use Rattle.jrag_syntax.specs.declared.classes.Start.{Start};
ghost use Rattle.jrag_syntax.specs.declared.classes.Start.TheVariants.{File, Expression};
ghost use Rattle.aspect_items.specs.Expressions.{Expr};
ghost use Rattle.aspect_items.specs.Items.{Item};
ghost use Rattle.jrag_reader.specs.Reading.{BreakOneFirst, IsFirstBroken, SaysExpr, SaysItems};

/// With a pool of texts, some tokens say one list of items or one expression at most, or have one first broken rule at most, and not both:
/// so what `read_jrag` and `read_expr` answer is the only answer that is right.
pub fn one_reading()
    ensures items { (pool : List (List ℕ)) (ts : List Lexed) (a b : List Item) → SaysItems pool ts a → SaysItems pool ts b → a ≡ b }
    ensures expr { (pool : List (List ℕ)) (ts : List Lexed) (a b : Expr) → SaysExpr pool ts a → SaysExpr pool ts b → a ≡ b }
    ensures broken { (start : Start) (pool : List (List ℕ)) (ts : List Lexed) → BreakOneFirst start pool ts }
    ensures either_items { (pool : List (List ℕ)) (ts : List Lexed) (a : List Item) (b : BrokenRule) → SaysItems pool ts a → IsFirstBroken File pool ts b → ⊥ }
    ensures either_expr { (pool : List (List ℕ)) (ts : List Lexed) (a : Expr) (b : BrokenRule) → SaysExpr pool ts a → IsFirstBroken Expression pool ts b → ⊥ }
{}
