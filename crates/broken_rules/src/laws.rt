// Laws over the definitions.
ghost use Rattle.std.specs.Prelude.{◌≡◌, List, Option, false};
ghost use Rattle.broken_rules.specs.Answers.{Answers, first_broken};
ghost use Rattle.broken_rules.specs.Order.{is_before};
ghost use Rattle.broken_rules.specs.declared.broken.Broken.{Broken as BrokenRule};

/// Some phases have one first broken rule at most, since of two different ones one is before the other: so what a checker answers is the
/// only answer that is right.
pub fn one_first_broken()
    ensures answer { (phases : List (List BrokenRule)) (p q : Option BrokenRule) → Answers phases p → Answers phases q → p ≡ q }
    ensures computed { (phases : List (List BrokenRule)) → Answers phases (first_broken phases) }
    ensures order { (a b : BrokenRule) → is_before a b ≡ false → is_before b a ≡ false → a ≡ b }
{}
