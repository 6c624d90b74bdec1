// What holds of aspects that break no rule.
ghost use Rattle.std.specs.Prelude.{◌≡◌, ◌↔◌, ℕ, List, None, true};
ghost use Rattle.ast_grammar.specs.Grammar.{Class, IsGrammar};
ghost use Rattle.broken_rules.specs.Answers.{Answers};
ghost use Rattle.attr_rules.specs.Rules.{AreRules, ContributionsMadeWell, EquationsMadeWell, RuleSet, Uncovered};
ghost use Rattle.attr_coverage.specs.Covering.{covers, is_uncovered};
ghost use Rattle.attr_coverage.specs.Created.{made_in};
ghost use Rattle.attr_types.specs.Phases.{phases_of, rules_of};
ghost use Rattle.aspect_items.specs.Items.{Item};

/// Aspects that break no rule over a grammar make rules of it: each equation is of a class that has the attribute, its right side is well
/// typed and fits, each concrete class has an equation for each of its attributes, and no two are for the same; no two attributes of related
/// classes have one name, and none has that of an accessor. The method of each collection combines values of its type, and of each contribution
/// the condition is a truth value, the receiver fits the class of the collection, and the value what is contributed.
pub fn accepted_rules()
    ensures { (g : List Class) (items : List Item) → IsGrammar g → Answers (phases_of g items) None → AreRules g (rules_of g items) }
{}

/// In the equations of circular attributes, a `||` always evaluates both sides exactly where its left side calls a circular attribute, and in other
/// equations none does; and only the literals `false` and `empty` stand behind `:` without their place.
pub fn equations_are_made_well()
    ensures { (g : List Class) (items : List Item) → EquationsMadeWell (rules_of g items) }
{}

/// In contributions no `||` always evaluates both sides, and only the literals `false` and `empty` stand behind `:` without their place.
pub fn contributions_are_made_well()
    ensures { (g : List Class) (items : List Item) → ContributionsMadeWell (rules_of g items) }
{}

/// The classes that the rounds of `is_uncovered` find are exactly those of which there can be a node at which no equation gives a value to
/// an inherited attribute.
pub fn uncovered_classes_are_found()
    ensures { (g : List Class) (r : RuleSet) (a c : ℕ) → (is_uncovered g (covers r a) (made_in g r) c ≡ true) ↔ Uncovered g r a c }
{}
