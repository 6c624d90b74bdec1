// That exactly the expressions that have no type by the rules break one.
ghost use Rattle.std.specs.Prelude.{◌≡◌, ◌↔◌, ℕ, List, [], None, Some, true};
ghost use Rattle.broken_rules.specs.Answers.{Answers};
ghost use Rattle.ast_grammar.specs.declared.grammar.ClassId.{ClassId};
ghost use Rattle.ast_grammar.specs.Grammar.{Class, IsGrammar};
ghost use Rattle.attr_rules.specs.declared.accessors.Accessor.{Accessor};
ghost use Rattle.attr_rules.specs.declared.kinds.AttrId.{AttrId};
ghost use Rattle.attr_rules.specs.declared.kinds.Kind.{Kind};
ghost use Rattle.attr_rules.specs.declared.types.ValueType.{ValueType};
ghost use Rattle.attr_rules.specs.Rules.{Attribute};
ghost use Rattle.attr_rules.specs.Types.{common, fits};
ghost use Rattle.aspect_items.specs.Expressions.{Expr};
ghost use Rattle.aspect_items.specs.Items.{Contribution, Item};
ghost use Rattle.attr_scope.specs.Scope.{Scope};
ghost use Rattle.attr_scope.specs.Written.{Given};
ghost use Rattle.expr_typing.specs.declared.standing.Stands.{Stands};
ghost use Rattle.expr_typing.specs.declared.standing.Stands.TheVariants.{Anywhere};
ghost use Rattle.expr_typing.specs.Typed.{known};
ghost use Rattle.attr_bodies.specs.Bodies.{expr_broken, operand_broken};
ghost use Rattle.attr_bodies.specs.Created.{created_broken};
ghost use Rattle.attr_types.specs.Phases.{phases_of};
ghost use Rattle.typing_rules.specs.ContributionTypes.{OffersExactly};
ghost use Rattle.typing_rules.specs.CreatedTypes.{IsCreated};
ghost use Rattle.typing_rules.specs.EquationTypes.{EquationsExactly, HaveTargets, IsAccepted};
ghost use Rattle.typing_rules.specs.FittingRules.{BothFit, Fits};
ghost use Rattle.typing_rules.specs.MemberRules.{Calls, IsNamedAlone, IsOverGrammar, IsSpelled, Reads};
ghost use Rattle.typing_rules.specs.TypeRules.{IsOf, IsTyped, NamesAreKnown};

/// Where the types of all names are known, an expression of which a type is wanted breaks no rule exactly where it has a type by the rules that
/// fits: nothing that is well typed is refused, and nothing else is let through.
pub fn well_typed_exactly()
    ensures { (s : Scope) (e : Expr) (wanted : Kind) → NamesAreKnown s → (operand_broken s Anywhere wanted e ≡ []) ↔ IsOf s wanted e }
{}

/// Where the types of all names are known, the right side of an equation of a higher-order attribute breaks no rule exactly where it makes a tree by the
/// rules, of a class that fits, with no more than 16 nodes and 16 token values.
pub fn created_exactly()
    ensures { (s : Scope) (e : Expr) (wanted : Kind) → NamesAreKnown s → (created_broken s wanted e ≡ []) ↔ IsCreated s wanted e }
{}

/// What has a type breaks nothing wherever it stands, behind a minus and as a range too.
pub fn typed_expressions_break_nothing()
    ensures { (s : Scope) (e : Expr) (t : ValueType) (w : Stands) → IsTyped s e t → expr_broken s w e ≡ [] }
{}

/// An expression has one type at most: the one that is known of it.
pub fn expressions_have_one_type()
    ensures known { (s : Scope) (e : Expr) (t : ValueType) → IsTyped s e t → known s e ≡ Some t }
    ensures one { (s : Scope) (e : Expr) (t u : ValueType) → IsTyped s e t → IsTyped s e u → t ≡ u }
{}

/// Behind a receiver of a class a name means an accessor, called with as many arguments as it takes, exactly where it is the first of those that the
/// name spells and that take so many; and an attribute exactly where the name spells no accessor of the class, and is that of the attribute.
pub fn members_are_spelled_or_named()
    ensures reads { (s : Scope) (c : ClassId) (name : List ℕ) (n : ℕ) (x : Accessor) → IsGrammar s.grammar → Reads s c name n x ↔ IsSpelled s c name n x }
    ensures calls { (s : Scope) (c : ClassId) (name : List ℕ) (n : ℕ) (a : AttrId) → IsOverGrammar s → Calls s c name n a ↔ IsNamedAlone s c name a }
{}

/// A type fits another exactly where they are equal, where a class is the other or stands below it, where both are sets whose elements fit, where it is
/// that of `null` and the other a class, and where it is that of `empty` and the other a set.
pub fn types_fit_in_words()
    ensures { (g : List Class) (t : ValueType) (k : Kind) → (fits g t k ≡ true) ↔ Fits g t k }
{}

/// The common type of two is the least that both fit: it fits exactly what both do. Where there is none, there is no type that both fit.
pub fn common_types_are_least()
    ensures least { (g : List Class) (t u v : ValueType) (k : Kind) → IsGrammar g → common g t u ≡ Some v → (fits g v k ≡ true) ↔ BothFit g t u k }
    ensures none { (g : List Class) (t u : ValueType) (k : Kind) → IsGrammar g → common g t u ≡ None → BothFit g t u k → ⊥ }
{}

/// Equations whose targets break nothing break no rule on expressions exactly where each right side fits its attribute: that of a higher-order one makes
/// a tree by the rules, and the others have a type by them.
pub fn equations_well_typed_exactly()
    ensures { (g : List Class) (attributes : List Attribute) (list : List Given) → HaveTargets g attributes list → EquationsExactly g attributes list }
{}

/// Contributions break no rule on expressions exactly where each condition is a truth value by the rules, each receiver has a type that fits the class
/// behind `to`, and each value one that fits what is contributed to the collection.
pub fn contributions_well_typed_exactly()
    ensures { (g : List Class) (attributes : List Attribute) (offered : List Contribution) → OffersExactly g attributes offered }
{}

/// Aspects break no rule exactly where their declarations, what their equations and contributions are for, and completeness break none, each right side
/// fits by the rules, and so do the expressions of each contribution.
pub fn accepted_exactly()
    ensures { (g : List Class) (items : List Item) → Answers (phases_of g items) None ↔ IsAccepted g items }
{}
