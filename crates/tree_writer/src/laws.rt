// Laws over the definitions.
ghost use Rattle.std.specs.Prelude.{◌≡◌, ℕ, ◌<◌, List, All, Some, length};
ghost use Rattle.rag_io.specs.Pool.{ArePooled};
ghost use Rattle.ast_grammar.specs.Grammar.{Class, IsGrammar};
ghost use Rattle.tree_arena.specs.Nodes.{Node};
ghost use Rattle.tree_arena.specs.Terms.{Forest, IsTerm, IsTreeOf, tree_at};
ghost use Rattle.tree_writer.specs.Again.{AreReadAgain, AreReadBack, IsWritable};
ghost use Rattle.tree_writer.specs.Parts.{HasSubtree};
ghost use Rattle.tree_writer.specs.Showing.{IsSubtree, IsSubtreeAt};

/// The canonical text of a tree of a grammar is read again: it has tokens, these say the same tree, and they add no text to the pool. The
/// tree has few enough nodes, and its texts are such as the texts of files are.
pub fn written_again()
    ensures { (g : List Class) (pool : List (List ℕ)) → IsGrammar g → ArePooled pool → All IsWritable pool → AreReadAgain g pool }
{}

/// So is the text of a subtree, but that the class of its root may be none of a whole tree's.
pub fn subtree_read_back()
    ensures { (g : List Class) (pool : List (List ℕ)) → IsGrammar g → ArePooled pool → All IsWritable pool → AreReadBack g pool }
{}

/// Each node of a tree of a grammar is the root of a subtree of it, and the root is that of the whole: the canonical text of a tree is the
/// text of its root's subtree and a line feed.
pub fn subtrees_of_trees()
    ensures root { (g : List Class) (texts : ℕ) (term : Forest) → IsTerm g texts term → tree_at term 0 ≡ Some term }
    ensures grown { (g : List Class) (texts : ℕ) (term : Forest) (n : ℕ) (sub : Forest) → IsTerm g texts term → tree_at term n ≡ Some sub → IsSubtree g texts sub }
    ensures nodes { (g : List Class) (texts n : ℕ) (nodes : List Node) → IsTreeOf g texts nodes → n < length nodes → HasSubtree g texts (IsSubtreeAt nodes) n }
{}
