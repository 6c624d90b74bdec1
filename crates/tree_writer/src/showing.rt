// What shows nodes.
ghost use Rattle.std.specs.Prelude.{ℕ};
ghost use Rattle.tree_arena.specs.Terms.{Forest};
ghost use Rattle.tree_writer.specs.Showing.{HasChild, HasToken, IsChildOf, IsClassOf, IsCountOf, IsShown, IsTokenOf};

use ast_grammar::ClassId;
use tree_arena::Tree;

/// Nodes by their codes, each the root of a tree. What shows nodes may learn by looking at one, and still shows what it showed. A code needs
/// to be no place, and one code may show several trees: what is answered then holds of each.
pub trait ShowsNodes {
    /// The trees that are shown, by the codes of their roots.
    ghost shows: { Self → ℕ → Forest → Type 0 };

    /// The second state came of the first by looking.
    ghost keeps: { Self → Self → Type 0 };

    /// The class of a node.
    fn class_of(&mut self, n: u32) -> ClassId
        requires { IsShown (shows self.old) n }
        ensures kept { keeps self.old self.new }
        ensures class { IsClassOf (shows self.old) n result };

    /// How many nodes hang at a component of a node.
    fn count(&mut self, n: u32, k: u32) -> u32
        requires { IsShown (shows self.old) n }
        ensures kept { keeps self.old self.new }
        ensures count { IsCountOf (shows self.old) n k result };

    /// The i-th of the nodes that hang at a component of a node.
    fn child(&mut self, n: u32, k: u32, i: u32) -> u32
        requires { HasChild (shows self.old) n k i }
        ensures kept { keeps self.old self.new }
        ensures child { IsChildOf (shows self.old) (shows self.new) n k i result };

    /// The code of the token of a node at a component.
    fn token(&mut self, n: u32, k: u32) -> u32
        requires { HasToken (shows self.old) n k }
        ensures kept { keeps self.old self.new }
        ensures token { IsTokenOf (shows self.old) n k result };

    ghost same: { (s : Self) → keeps s s };

    ghost further: { (r s t : Self) → keeps r s → keeps s t → keeps r t };

    ghost still: { (r s : Self) (n : ℕ) (tree : Forest) → keeps r s → shows r n tree → shows s n tree };
}

/// The nodes of a source tree by their numbers.
#[derive(Clone, Copy)]
pub struct SourceNodes<'a>(pub &'a Tree);

impl ShowsNodes for SourceNodes<'_> {
    ghost use Rattle.std.specs.Prelude.{◌≡◌, List, refl};
    ghost use Rattle.std.proofs.Common.{◌∙◌, subst};
    ghost use Rattle.tree_arena.specs.Nodes.{Node};
    ghost use Rattle.tree_writer.specs.Showing.{IsSubtreeAt};

    ghost shows = { λ s n tree. IsSubtreeAt s.0.now n tree };

    ghost keeps = { λ r s. r.0.now ≡ s.0.now };

    fn class_of(&mut self, n: u32) -> ClassId {
        self.0.class_of(n)
    }

    fn count(&mut self, n: u32, k: u32) -> u32 {
        self.0.count(n, k)
    }

    fn child(&mut self, n: u32, k: u32, i: u32) -> u32 {
        let Some(child) = self.0.child(n, k, i) else {
            unreachable!()
        };
        child
    }

    fn token(&mut self, n: u32, k: u32) -> u32 {
        self.0.token(n, k)
    }

    ghost same = { λ s. refl };

    ghost further = { λ r s t e f. e ∙ f };

    ghost still = { λ r s n tree e h. subst (λ (nodes : List Node). IsSubtreeAt nodes n tree) e h };
}
