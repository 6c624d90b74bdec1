// The equation of an attribute at a source node.
ghost use Rattle.std.specs.Prelude.{◌≡◌, ◌<◌, IfSome, Some, [], length};
ghost use Rattle.tree_arena.specs.Nodes.{most_nodes, parent_in};
ghost use Rattle.equation_law.specs.Codes.{IsRow, Naming};
ghost use Rattle.equation_law.specs.Equations.{bound_values, inherited_site, inherits, synthesized_site};
ghost use Rattle.equation_law.specs.Names.{Reference, Source};
ghost use Rattle.equation_law.specs.Program.{Program, declared_of};
ghost use Rattle.equation_law.specs.Systems.{program_of};
ghost use Rattle.inherited_walk.specs.Sites.{BindsNoCode, IsCoveringFor, IsFoundFor, IsSourceSite, outer_values};

use attr_rules::{AttrId, Part, Reach, Via};
use equation_law::{Args, EqSite, NodeRef, System};

/// Whether an attribute is inherited; one that isn't declared is not.
pub(crate) fn is_inherited(system: &System, attr: AttrId) -> bool
    ensures { result ≡ inherits (declared_of (program_of system.now) attr.0) }
{
    let rules = system.rules();
    u32::from(attr.0) < rules.attrs() && rules.attr(attr).sort.is_inherited()
}

/// The equation of a synthesized or higher-order attribute: that of the nearest class, from the node's class upwards, read at the node.
pub(crate) fn synthesized(system: &System, attr: AttrId, node: u32, args: Args) -> Option<EqSite>
    ensures found { let p = program_of system.now in IsFoundFor p attr args (synthesized_site p attr.0 (Source node)) result }
    ensures rows { IsRow args → IfSome result (λ s. IsRow s.outer × IsRow s.inner) }
    ensures source { IfSome result (IsSourceSite (program_of system.now) args) }
{
    let tree = system.tree();
    if node >= tree.len() {
        return None;
    }
    let class = tree.class_of(node);
    let equation = system.rules().syn_equation(class, attr)?;
    Some(EqSite {
        equation,
        node: NodeRef::of_source(Some(node)),
        outer: Args::none(),
        inner: args,
    })
}

/// What a path binds towards a node of this place among those that hang at the same component.
pub(crate) fn bound_index(reach: Reach, place: u32) -> Args
    ensures row { IsRow result }
    ensures none { BindsNoCode reach result }
    ensures values { (p : Program) (n : Naming) → outer_values p n reach result ≡ bound_values reach place [] }
{
    match reach {
        Reach::Component(_) => Args::none().with(place),
        Reach::Own | Reach::Created(_) | Reach::Children => Args::none(),
    }
}

/// The equation that covers a node at its parent: that of the nearest class, from the parent's class upwards, read at the parent.
pub(crate) fn covering(
    system: &System,
    attr: AttrId,
    args: Args,
    node: u32,
    parent: u32,
) -> Option<EqSite>
    requires node { node < length (program_of system.now).tree }
    requires few { node < most_nodes }
    requires parent { parent_in (program_of system.now).tree node ≡ Some parent }
    requires above { parent < node }
    ensures found { IsCoveringFor (program_of system.now) attr args node result }
    ensures rows { IsRow args → IfSome result (λ s. IsRow s.outer × IsRow s.inner) }
    ensures source { IfSome result (IsSourceSite (program_of system.now) args) }
{
    let tree = system.tree();
    let rules = system.rules();
    let class = tree.class_of(parent);
    let via = Via::Component(Part(tree.hangs_by(node)));
    let equation = rules.inh_equation(class, via, attr)?;
    Some(EqSite {
        equation,
        node: NodeRef::of_source(Some(parent)),
        outer: bound_index(rules.target(equation).reach, tree.index(node)),
        inner: args,
    })
}

/// The equation of an inherited attribute: from the node upwards, that of the closest ancestor which has one that covers the way to it.
pub(crate) fn inherited(system: &System, attr: AttrId, args: Args, node: u32) -> Option<EqSite>
    ensures found { (root : Reference) → let p = program_of system.now in IsFoundFor p attr args (λ zs. inherited_site p attr.0 zs root (Source node)) result }
    ensures rows { IsRow args → IfSome result (λ s. IsRow s.outer × IsRow s.inner) }
    ensures source { IfSome result (IsSourceSite (program_of system.now) args) }
{
    let tree = system.tree();
    if node >= tree.len() {
        return None;
    }
    let mut at = node;
    while let Some(parent) = tree.parent(at) {
        let found = covering(system, attr, args, at, parent);
        if found.is_some() {
            return found;
        }
        at = parent;
    }
    None
}
