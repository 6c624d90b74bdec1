// Laws over the definitions.
ghost use Rattle.std.specs.Prelude.{◌≡◌, ◌≤◌, ◌<◌, ◌+◌, ◌↔◌, ℕ, suc, List, [], Some, None, length, slice_get};
ghost use Rattle.ast_grammar.specs.Grammar.{Class};
ghost use Rattle.tree_arena.specs.Nodes.{Node, child_in, hanging, index_in, parent_in};
ghost use Rattle.tree_arena.specs.Terms.{Forest, IsTerm, below_of, nodes_of, roots_at, size, tree_at};
ghost use Rattle.tree_arena.specs.Accessors.{HangsAt, HasNode, HasRoot, IsOneTree};

/// Trees as nodes and as terms: what the accessors answer of the nodes of a term is what the term has at that number.
pub fn accessors_of_terms()
    ensures length { (term : Forest) → length (nodes_of term) ≡ size term }
    ensures node { (term : Forest) (n : ℕ) (sub : Forest) → IsOneTree term → tree_at term n ≡ Some sub → HasNode (nodes_of term) n sub }
    ensures root { (term : Forest) → IsOneTree term → (parent_in (nodes_of term) 0 ≡ None) × (index_in (nodes_of term) 0 ≡ Some 0) }
    ensures past { (term : Forest) (n k : ℕ) → IsOneTree term → length (nodes_of term) ≤ n → hanging (nodes_of term) n k ≡ [] }
{}

/// The trees of a term by their numbers: each number in front of `size` has one, and those below a tree follow it, as its roots do.
pub fn trees_of_terms()
    ensures one { (g : List Class) (texts : ℕ) (term : Forest) → IsTerm g texts term → IsOneTree term }
    ensures there { (term : Forest) (n : ℕ) → n < size term ↔ ((sub : Forest) × (tree_at term n ≡ Some sub)) }
    ensures alone { (term : Forest) (n : ℕ) (sub : Forest) → tree_at term n ≡ Some sub → IsOneTree sub }
    ensures follow { (term : Forest) (n d : ℕ) (sub : Forest) → tree_at term n ≡ Some sub
        → d < size (below_of sub) → tree_at term (suc n + d) ≡ tree_at (below_of sub) d }
    ensures roots { (trees : Forest) (i k place m : ℕ) → slice_get (roots_at i trees k) place ≡ Some m → HasRoot trees i k m }
{}

/// Whatever the nodes are, a node is the child at a place exactly if its parent, component and index are these, and each but the root
/// has them.
pub fn children_and_parents()
    ensures child { (nodes : List Node) (n k place m : ℕ) → child_in nodes n k place ≡ Some m ↔ HangsAt nodes n k place m }
    ensures every { (nodes : List Node) (m : ℕ) → 0 < m → m < length nodes → (n : ℕ) × (k : ℕ) × (place : ℕ) × HangsAt nodes n k place m }
{}

/// Nodes are those of one tree at most.
pub fn one_term()
    ensures { (t u : Forest) → IsOneTree t → IsOneTree u → nodes_of t ≡ nodes_of u → t ≡ u }
{}
