// What holds of equations that break none of M1 to M5.
ghost use Rattle.std.specs.Prelude.{◌≡◌, ◌↔◌, ℕ, Bool, List, [], true, None};
ghost use Rattle.attr_rules.specs.Expression.{Expression};
ghost use Rattle.attr_rules.specs.Rising.{IsRising, has_call};
ghost use Rattle.attr_rules.specs.Rules.{EquationsMadeWell, EquationsRise, RuleSet};
ghost use Rattle.attr_rules.specs.WellMade.{IsWellMade};
ghost use Rattle.broken_rules.specs.Answers.{Has, IsFirst};
ghost use Rattle.broken_rules.specs.declared.broken.Broken.{Broken};
ghost use Rattle.broken_rules.specs.declared.rule.Rule.{Rule};
ghost use Rattle.monotone_check.specs.Equations.{ArePermitted, equations_broken};
ghost use Rattle.monotone_check.specs.Parts.{CallsCircular};
ghost use Rattle.monotone_check.specs.Permitted.{IsPermitted};
ghost use Rattle.monotone_check.specs.Positions.{broken_in};
ghost use Rattle.monotone_check.specs.Ways.{Breaks, Decides, EquationsBreak, Foremost, Position};

/// The test for a call of a circular attribute finds one exactly where the expression, or one of its parts at any depth, is one.
pub fn calls_are_found()
    ensures { (circular : ℕ → Bool) (e : Expression) → (has_call circular e ≡ true) ↔ CallsCircular circular e }
{}

/// An expression breaks nothing exactly where each call of a circular attribute stands in permitted positions alone.
pub fn unbroken_is_permitted()
    ensures { (circular : ℕ → Bool) (e : Expression) → (broken_in circular None e ≡ []) ↔ IsPermitted circular e }
{}

/// Where nothing is broken, those in the equations of circular attributes stand in permitted positions.
pub fn accepted_rules_are_permitted()
    ensures { (rules : RuleSet) → equations_broken rules ≡ [] → ArePermitted rules }
{}

/// Where they stand there, nothing is broken.
pub fn permitted_rules_are_accepted()
    ensures { (rules : RuleSet) → ArePermitted rules → equations_broken rules ≡ [] }
{}

/// An expression in which they stand there, and which is well made, rises.
pub fn permitted_rises()
    ensures { (circular : ℕ → Bool) (e : Expression) → IsPermitted circular e → IsWellMade circular e → IsRising circular e }
{}

/// Where nothing is broken and the equations are well made, those of circular attributes rise.
pub fn accepted_rises()
    ensures { (rules : RuleSet) → EquationsMadeWell rules → equations_broken rules ≡ [] → EquationsRise rules }
{}

/// One position on a way decides at most, with one rule.
pub fn one_position_decides()
    ensures { (p q : Position) (m n : Rule) (ps : List Position) → Decides p m ps → Decides q n ps → (p ≡ q) × (m ≡ n) }
{}

/// The rules that an expression breaks are those that the positions tell which decide on the ways from its calls outwards, and M3 of its choices;
/// and where there are none, all calls of circular attributes stand in permitted positions alone.
pub fn positions_decide()
    ensures all { (circular : ℕ → Bool) (e : Expression) (b : Broken) → Has (broken_in circular None e) b ↔ Breaks circular e b }
    ensures none { (circular : ℕ → Bool) (e : Expression) → IsPermitted circular e ↔ ((b : Broken) → Breaks circular e b → ⊥) }
{}

/// The first rule that the equations of circular attributes break is the first that those positions and choices tell in them, and none is broken
/// exactly where they tell none.
pub fn first_broken_is_decided()
    ensures first { (rules : RuleSet) (b : Broken) → IsFirst (equations_broken rules) b ↔ Foremost (EquationsBreak rules) b }
    ensures none { (rules : RuleSet) → (equations_broken rules ≡ []) ↔ ((b : Broken) → EquationsBreak rules b → ⊥) }
{}
