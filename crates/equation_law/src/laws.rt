// The laws of the solution and of the instances of a program, over the definitions alone.
ghost use Rattle.std.specs.Prelude.{◌≡◌, ◌↔◌, ◌<◌, ◌≤◌, ℕ, ℤ, Bool, List, Option, Some, None, IsSome, length, true};
ghost use Rattle.std.specs.List.{Contains};
ghost use Rattle.std.specs.Cmp.Lexicographic.{slice_cmp};
ghost use Rattle.std.specs.Ordering.{bool_cmp, int_cmp, nat_cmp, ordering_then};
ghost use Rattle.ast_grammar.specs.declared.grammar.ClassId.{ClassId};
ghost use Rattle.attr_rules.specs.Expression.{Expression};
ghost use Rattle.attr_rules.specs.Rising.{IsRising};
ghost use Rattle.attr_rules.specs.Rules.{circular_at};
ghost use Rattle.solutions.specs.Asking.{Ends, Halts};
ghost use Rattle.solutions.specs.Rounds.{Ended, HasFinalValue, is_in};
ghost use Rattle.solutions.specs.Leading.{Demanded};
ghost use Rattle.tree_arena.specs.Nodes.{end_in};
ghost use Rattle.equation_law.specs.Checked.{AreInstances, AreOffersBelow, EndsWellTyped, Fits, IsInstance, IsProgram, IsValue, MeetsInstances, StandsInSource};
ghost use Rattle.equation_law.specs.Growing.{AreAtMost, AsksNoMoreUnder, GivesNoMoreUnder, HasGrowingDemands, HasGrowingValues, MayRaise};
ghost use Rattle.equation_law.specs.Keys.{IsAsked, IsJust, IsKey, IsPrefix, Part, Prefix};
ghost use Rattle.equation_law.specs.Names.{Instance, Query, int_code, same_instance, text_cmp, text_code, truth_code};
ghost use Rattle.equation_law.specs.Values.{Value};
ghost use Rattle.equation_law.specs.Program.{Program, source_instances};
ghost use Rattle.equation_law.specs.Equations.{HasValue, IsCircularIn, IsOnWay, MayBeRoot, NoneMayBeRoot, StandsUnder, collection_root, demands_of, equation_of};
ghost use Rattle.equation_law.specs.Equations.{equations_of, is_declared, kind_in, offers_to, subtree, world_of};
ghost use Rattle.equation_law.specs.Loops.{Chain, HasLoop, HasValueOrLoop, LeadsWithin, order_in};
ghost use Rattle.equation_law.specs.Meaning.{Place, meaning_of};
ghost use Rattle.equation_law.specs.Lower.{IsClosed, IsLower, joined, raised_at};

/// One solution: two lists of instances that give an instance a value give it the same one.
pub fn one_solution()
    ensures { (p : Program) (i : Instance) (v w : Value) → HasValue p i v → HasValue p i w → v ≡ w }
{}

/// An instance whose equation ends under the solution has the value that it ends with.
pub fn ended_has_value()
    ensures { (p : Program) (i : Instance) (v : Value) (demands : List Instance) → Ends (HasValue p) (demands_of p i) v demands → HasValue p i v }
{}

/// An instance whose equation is stuck under the solution has no value.
pub fn stuck_has_none()
    ensures { (p : Program) (i j : Instance) (demands : List Instance) → Halts (HasValue p) (demands_of p i) j demands → (v : Value) → ¬ HasValue p i v }
{}

/// The values that some rounds give are those that rounds give which run until nothing is added.
pub fn finished_rounds()
    ensures { (p : Program) (i : Instance) (v : Value) → HasValue p i v ↔ HasFinalValue (equations_of p) i v }
{}

/// An instance with a value has no loop: it leads into none, and stands on none.
pub fn loop_has_no_value()
    ensures { (p : Program) (i : Instance) (v : Value) → HasValue p i v → ¬ HasLoop p i }
{}

/// Value or loop: each of a list of instances of a program, which has all that its members lead to, has a value or a loop. So does every instance
/// that leads to finitely many others. A tree that is made may make another, and so on without end: such an instance has neither. With
/// `loop_has_no_value`, never both.
pub fn value_or_loop()
    ensures { (p : Program) → IsProgram p → (list : List Instance) (i : Instance) → LeadsWithin p list i → HasValueOrLoop p i }
{}

/// Rounds end over any list of instances of a program, circular ones and all: some run until nothing is added. A set has texts of the program, nodes
/// of its tree, or nodes of trees that members of the list make or are at, so inner rounds make the values of circular instances grow finitely
/// often.
pub fn rounds_end()
    ensures { (p : Program) → IsProgram p → (list : List Instance) → AreInstances p list → Ended (equations_of p) list }
{}

/// What a chain leads to from an instance with a value is what is demanded from it under the solution.
pub fn reach_is_demanded()
    ensures { (p : Program) (i j : Instance) (v : Value) → HasValue p i v → Chain p i j ↔ Demanded (equations_of p) i j }
{}

/// What needs a cell where all queries are asked is what needs one where some query is asked alone; and of the instances, those are the ones to which
/// chains lead from what is asked, and those with the first of their arguments.
pub fn keys_of_queries()
    ensures asked { (p : Program) (x : Part) → IsKey p (IsAsked p) x ↔ ((q : ℕ) × (q < length p.queries) × IsKey p (IsJust (Query q)) x) }
    ensures led { (p : Program) (i x : Instance) → IsKey p (IsJust i) (Prefix x) ↔ ((j : Instance) × IsPrefix x j × Chain p i j) }
{}

/// An instance of a program demands only instances of it, as long as the values that it reads are of their types.
pub fn demands_instances()
    ensures { (p : Program) → IsProgram p → (i : Instance) → IsInstance p i → (A : Instance → Option Value) → Fits p A → MeetsInstances p A i }
{}

/// Well typed equations have values of their types: where the values of an assignment are of their instances' types, an instance of a
/// program whose equation ends has a value of its own type. It is stuck otherwise, at an instance that has no value.
pub fn well_typed_values()
    ensures { (p : Program) → IsProgram p → (i : Instance) → IsInstance p i → (A : Instance → Option Value) → Fits p A → EndsWellTyped p A i }
{}

/// The value of an instance is one of its type.
pub fn values_have_types()
    ensures { (p : Program) → IsProgram p → (i : Instance) → IsInstance p i → (v : Value) → HasValue p i v → IsValue p (kind_in p i) v }
{}

/// Each instance of a program has an equation. So an inherited attribute is met uncovered in no tree of the grammar: above each node whose
/// class has it stands an ancestor with an equation that covers the way to the node.
pub fn instances_have_equations()
    ensures { (p : Program) → IsProgram p → (i : Instance) → IsInstance p i → IsSome (equation_of p i) }
{}

/// The subtree of a node: the numbers from the node's to where the subtree ends are exactly those of the nodes whose way upwards meets it.
pub fn nodes_of_subtrees()
    ensures numbers { (p : Program) → IsProgram p → (k j : ℕ) → k < length p.tree → ((k ≤ j) × (j < end_in p.tree k)) ↔ StandsUnder p.tree k j }
    ensures nodes { (p : Program) → IsProgram p → (k j : ℕ) → k < length p.tree → Contains (subtree p.tree k) j ↔ StandsUnder p.tree k j }
{}

/// The root of a collection at a node is a node of the root class or of a subclass on the way upwards, the closest one: each other of them is above
/// it. Where there is no root, none is on the way.
pub fn roots_of_collections()
    ensures there { (p : Program) → IsProgram p → (c : ClassId) (k r : ℕ) → collection_root p (Some c) k ≡ Some r → MayBeRoot p c k r }
    ensures closest { (p : Program) → IsProgram p → (c : ClassId) (k r n : ℕ) → collection_root p (Some c) k ≡ Some r → MayBeRoot p c k n → IsOnWay p.tree r n }
    ensures none { (p : Program) → IsProgram p → (c : ClassId) (k : ℕ) → collection_root p (Some c) k ≡ None → NoneMayBeRoot p c k }
{}

/// What is offered to a collection below its root is exactly the contributions to its attribute at the nodes of the root's subtree that are of
/// their classes or of subclasses.
pub fn offers_of_collections()
    ensures { (p : Program) → IsProgram p → (a : ℕ) (c : Option ClassId) (k r : ℕ) → collection_root p c k ≡ Some r → AreOffersBelow p a r (offers_to p a c k) }
{}

/// The instances that are listed are those of the program at source nodes without arguments, and the queries.
pub fn listed_instances()
    ensures { (p : Program) (i : Instance) → (is_in same_instance (source_instances p) i ≡ true) ↔ IsInstance p i × StandsInSource i }
{}

/// An instance of a program is circular exactly where its attribute is declared so. A query isn't.
pub fn circular_as_declared()
    ensures { (p : Program) → IsProgram p → (i : Instance) → IsInstance p i → (equations_of p).circular i ≡ is_declared p i }
{}

/// Growing demands: where the equation of a circular instance isn't stuck under some values, it isn't stuck under smaller ones, which stand
/// wherever those stand, the same for undeclared instances and at most those for circular ones. It demands no more, in the same order, and its
/// value is at most the other one.
pub fn growing_demands()
    ensures { (p : Program) (i : Instance) → IsCircularIn p i → HasGrowingDemands p (demands_of p i) }
{}

/// The same of each rising expression, wherever it is read: this is what makes the positions of calls in it permitted.
pub fn rising_demands()
    ensures { (p : Program) (e : Expression) (q : Place) → IsRising (circular_at p.rules.attributes) e → HasGrowingDemands p (meaning_of (world_of p) e q) }
{}

/// Growing values: where neither is stuck, under two assignments of which the first is at most the second where both have values, the value of
/// the first is at most that of the second.
pub fn growing_values()
    ensures { (p : Program) (i : Instance) → IsCircularIn p i → HasGrowingValues p (demands_of p i) }
{}

/// Growing demands under assignments that give each circular instance a value, where the others have the solution's: a lower assignment is one.
/// Where the equation of a circular instance isn't stuck under some, it isn't stuck under values at most those. It demands no more, in the same
/// order, and its value is at most the other one.
pub fn assigned_demands()
    ensures { (p : Program) (T U : Instance → Value) → AreAtMost p T U → AsksNoMoreUnder p T U }
{}

/// Growing values under such assignments: where the equation is stuck under neither, its value under the lower one is at most that under the other.
pub fn assigned_values()
    ensures { (p : Program) (T U : Instance → Value) → AreAtMost p T U → GivesNoMoreUnder p T U }
{}

/// A lower assignment is at most the solution wherever a circular instance has a value.
pub fn lower_below()
    ensures { (p : Program) (T : Instance → Value) → IsLower p T → (i : Instance) (v : Value) → IsCircularIn p i → HasValue p i v → order_in p i (T i) v }
{}

/// Two lower assignments joined give a lower assignment.
pub fn lower_joined()
    ensures { (p : Program) (T U : Instance → Value) → IsLower p T → IsLower p U → IsLower p (joined p T U) }
{}

/// A lower assignment stays one where its value of a circular instance is joined with a part of what the instance's equation comes to under
/// values at most the assignment's.
pub fn lower_raised()
    ensures { (p : Program) (T : Instance → Value) → IsLower p T → (i : Instance) (w : Value) → MayRaise p T i w → IsLower p (raised_at p T i w) }
{}

/// Each instance of a closed set under a lower assignment has that assignment's value.
pub fn closed_set()
    ensures { (p : Program) (C : List Instance) (T : Instance → Value) → IsClosed p C T → (i : Instance) → is_in same_instance C i ≡ true → HasValue p i (T i) }
{}

/// Integers are written in names in their order, and two are told apart, whatever follows: arguments go by value.
pub fn order_of_ints()
    ensures { (y z : ℤ) (u v : List ℕ) → slice_cmp nat_cmp (int_code y u) (int_code z v) ≡ ordering_then (int_cmp y z) (slice_cmp nat_cmp u v) }
{}

/// So are truth values: false comes before true.
pub fn order_of_truths()
    ensures { (a b : Bool) (u v : List ℕ) → slice_cmp nat_cmp (truth_code a u) (truth_code b v) ≡ ordering_then (bool_cmp a b) (slice_cmp nat_cmp u v) }
{}

/// So are texts: they go by their bytes.
pub fn order_of_texts()
    ensures { (s t u v : List ℕ) → slice_cmp nat_cmp (text_code s u) (text_code t v) ≡ ordering_then (text_cmp s t) (slice_cmp nat_cmp u v) }
{}
