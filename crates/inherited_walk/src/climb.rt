// The equation of an attribute at any node: above nodes that were made the way leads through their trees, and from the root of a tree to its
// owner.
ghost use Rattle.std.specs.Prelude.{◌<◌, IfSome, None, Some};
ghost use Rattle.tree_arena.specs.Nodes.{most_nodes};
ghost use Rattle.equation_law.specs.Checked.{IsProgram};
ghost use Rattle.equation_law.specs.Codes.{IsRow};
ghost use Rattle.equation_law.specs.declared.coding.Instance.TheVariants.{Attr as attribute_at};
ghost use Rattle.equation_law.specs.Reading.{IsInstanceIn, IsSingleIn, IsSound, KnowsInstance};
ghost use Rattle.equation_law.specs.Systems.{program_of};
ghost use Rattle.inherited_walk.specs.Climbing.{BindsBy, CoversBy, FindsBy, GivesArguments, InheritsBy, IsClassAt, IsHigherBy};
ghost use Rattle.inherited_walk.specs.Sites.{KnowsSite};

use crate::walk::{bound_index, inherited, is_inherited};
use ast_grammar::ClassId;
use attr_rules::{AttrId, Part, Reach, Via};
use equation_law::{Args, EqSite, NodeRef, Reader, System, Up};

/// The class of a node of the tree or of one that was made, or None where there is none.
pub fn class_at<R: Reader>(system: &System, node: NodeRef, reader: &mut R) -> Option<ClassId>
    requires sound { IsSound (program_of system.now) (R.tells reader.old) }
    requires known { (R.tells reader.old).knows node.0 }
    ensures { IsClassAt (program_of system.now) (R.tells reader.old) (R.tells reader.new) node result }
{
    if node.is_made() {
        // The tree has no more nodes than there are codes of source nodes.
        prove!(system.tree().len() > 0);
        let class = reader.made_class(node);
        return if u32::from(class.0) < system.grammar().classes() {
            Some(class)
        } else {
            None
        };
    }
    let number = node.source()?;
    let tree = system.tree();
    if number < tree.len() {
        Some(tree.class_of(number))
    } else {
        None
    }
}

/// The arguments with which this attribute made a node.
pub fn made_arguments<R: Reader>(
    system: &System,
    maker: AttrId,
    node: NodeRef,
    reader: &mut R,
) -> Args
    requires sound { IsSound (program_of system.now) (R.tells reader.old) }
    requires known { (R.tells reader.old).knows node.0 }
    ensures { GivesArguments (program_of system.now) (R.tells reader.old) (R.tells reader.new) maker node result }
{
    let mut args = Args::none();
    let mut wanted = system.parameters(maker);
    while wanted.first_kind().is_some() {
        args = args.with(reader.made_arg(node, args.count));
        wanted = wanted.rest();
    }
    args
}

/// What stands above a node that was made, and the equation that covers the node there, if there is one.
#[derive(Clone, Copy)]
pub struct Higher {
    node: NodeRef,
    site: Option<EqSite>,
}

/// What a path of an equation binds towards a node that was made: in its tree a node hangs alone at its component.
fn bound<R: Reader>(system: &System, reach: Reach, node: NodeRef, reader: &mut R) -> Args
    requires sound { IsSound (program_of system.now) (R.tells reader.old) }
    requires known { (R.tells reader.old).knows node.0 }
    ensures { BindsBy (program_of system.now) (R.tells reader.old) (R.tells reader.new) reach node result }
{
    match reach {
        Reach::Created(maker) => made_arguments(system, maker, node, reader),
        Reach::Own | Reach::Component(_) | Reach::Children => bound_index(reach, 0),
    }
}

/// The equation of a class that covers, for an inherited attribute, what hangs at a node above by this.
fn covering_made<R: Reader>(
    system: &System,
    attr: AttrId,
    args: Args,
    class: ClassId,
    via: Via,
    above: NodeRef,
    node: NodeRef,
    reader: &mut R,
) -> Option<EqSite>
    requires sound { IsSound (program_of system.now) (R.tells reader.old) }
    requires known { (R.tells reader.old).knows node.0 }
    ensures { CoversBy (program_of system.now) (R.tells reader.old) (R.tells reader.new) attr args class via above node result }
{
    let rules = system.rules();
    let equation = rules.inh_equation(class, via, attr)?;
    let outer = bound(system, rules.target(equation).reach, node, reader);
    Some(EqSite {
        equation,
        node: above,
        outer,
        inner: args,
    })
}

/// The node above one that was made, and the equation of an inherited attribute that covers the latter there, if there is one.
fn above<R: Reader>(
    system: &System,
    attr: AttrId,
    args: Args,
    node: NodeRef,
    reader: &mut R,
) -> Higher
    requires sound { IsSound (program_of system.now) (R.tells reader.old) }
    requires made { most_nodes < node.0 }
    requires known { (R.tells reader.old).knows node.0 }
    ensures higher { IsHigherBy (program_of system.now) (R.tells reader.old) (R.tells reader.new) attr node args result }
    ensures rows { IsRow args → IfSome result.site (λ s. IsRow s.outer × IsRow s.inner) }
{
    // The tree has no more nodes than there are codes of source nodes.
    prove!(system.tree().len() > 0);
    let (above, via) = match reader.made_up(node) {
        Up::Inside { parent, component } => (parent, Via::Component(Part(component))),
        Up::Owner {
            node: owner,
            attr: maker,
        } => (owner, Via::Created(maker)),
    };
    let site = match class_at(system, above, reader) {
        Some(class) => covering_made(system, attr, args, class, via, above, node, reader),
        None => None,
    };
    Higher { node: above, site }
}

/// The equation of an inherited attribute at a node: that of the closest node above which has one that covers the way to it.
fn climb<R: Reader>(
    system: &System,
    attr: AttrId,
    node: NodeRef,
    args: Args,
    reader: &mut R,
) -> Option<EqSite>
    requires sound { IsSound (program_of system.now) (R.tells reader.old) }
    requires known { KnowsInstance (program_of system.now) (R.tells reader.old) (attribute_at attr node args) }
    ensures found { InheritsBy (program_of system.now) (R.tells reader.old) (R.tells reader.new) attr node args result }
    ensures rows { IsRow args → IfSome result (λ s. IsRow s.outer × IsRow s.inner) }
    ensures known { IfSome result (KnowsSite (program_of system.now) (R.tells reader.new) attr.0) }
{
    let mut at = node;
    while at.is_made() {
        class_at(system, at, reader)?;
        let higher = above(system, attr, args, at, reader);
        if higher.site.is_some() {
            return higher.site;
        }
        at = higher.node;
    }
    inherited(system, attr, args, at.source()?)
}

/// The equation of an attribute at a node with arguments, if it has one: none at null, where the node's class doesn't have the attribute, or
/// where it lacks an equation for it. It takes no memory, and time in proportion to the way upwards.
pub fn find_equation<R: Reader>(
    system: &System,
    attr: AttrId,
    node: NodeRef,
    args: Args,
    reader: &mut R,
) -> Option<EqSite>
    requires sound { IsSound (program_of system.now) (R.tells reader.old) }
    requires known { KnowsInstance (program_of system.now) (R.tells reader.old) (attribute_at attr node args) }
    ensures found { FindsBy (program_of system.now) (R.tells reader.old) (R.tells reader.new) attr node args result }
    ensures rows { IsRow args → IfSome result (λ s. IsRow s.outer × IsRow s.inner) }
    ensures known { IfSome result (KnowsSite (program_of system.now) (R.tells reader.new) attr.0) }
{
    if is_inherited(system, attr) {
        return climb(system, attr, node, args, reader);
    }
    let class = class_at(system, node, reader)?;
    let equation = system.rules().syn_equation(class, attr)?;
    Some(EqSite {
        equation,
        node,
        outer: Args::none(),
        inner: args,
    })
}

/// The equation of an instance of a program that breaks no rule, if it is no collection. It takes no memory, and time in proportion to the way upwards.
pub fn equation_of<R: Reader>(
    system: &System,
    attr: AttrId,
    node: NodeRef,
    args: Args,
    reader: &mut R,
) -> EqSite
    requires sound { IsSound (program_of system.now) (R.tells reader.old) }
    requires program { IsProgram (program_of system.now) }
    requires instance { IsInstanceIn (program_of system.now) (R.tells reader.old) (attribute_at attr node args) }
    requires known { KnowsInstance (program_of system.now) (R.tells reader.old) (attribute_at attr node args) }
    requires single { IsSingleIn (program_of system.now) (R.tells reader.old) (attribute_at attr node args) }
    ensures found { FindsBy (program_of system.now) (R.tells reader.old) (R.tells reader.new) attr node args (Some result) }
    ensures known { KnowsSite (program_of system.now) (R.tells reader.new) attr.0 result }
{
    match find_equation(system, attr, node, args, reader) {
        Some(site) => site,
        None => unreachable!(),
    }
}
