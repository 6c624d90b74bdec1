// The values that stand in a round, as a reader.
ghost use Rattle.std.specs.Prelude.{◌≡◌, ◌<◌, [], IfOk, Some, length};
ghost use Rattle.plain_rounds.specs.Places.{IsHeld};
ghost use Rattle.plain_rounds.specs.Settings.{AreReady, IsSetting, naming_at, program_at, standing_in};
ghost use Rattle.plain_rounds.specs.Standing.{FindsAt, IsTreeOf, IsTreeValue};
ghost use Rattle.plain_rounds.specs.Steps.{IsComingAt};

use crate::places::Places;
use crate::setting::Setting;
use crate::values::NamedValue;
use ast_grammar::ClassId;
use attr_rules::AttrId;
use collection_attrs::evaluate_any;
use equation_law::{Args, Code, EqSite, Instance, NodeRef, Reader, TreeImage, Up, Value};
use expr_eval::{Turn, kind_of};
use inherited_walk::find_equation;
use made_trees::{
    Lent, argument_of, child_of, class_of, maker_of, order_of, token_place_of, up_of,
};
use rag_io::Memory;
use std::alloc::Global;
use std::cmp::Ordering;

/// What stands in a round: a value, or none, for each instance of a list.
#[derive(Clone, Copy)]
pub(crate) struct Standing<'a> {
    setting: Setting<'a>,
    values: &'a [Option<NamedValue>],
}

impl Standing<'_> {
    ghost use Rattle.plain_rounds.specs.Standing.{IsStandingWhereReady, IsTokenIn};

    /// The value that stands under an instance, read at its type.
    fn value(&self, alloc: Global, i: Instance) -> Result<Option<Value>, Memory>
        ensures { IfOk result (λ value. IsStandingWhereReady self.now i value) }
    {
        let setting = &self.setting;
        match setting.places.value(self.values, i) {
            Some(held) => Ok(Some(held.read_as(alloc, kind_of(setting.system, &i))?)),
            None => Ok(None),
        }
    }

    /// The code of a token of a node that was made, or None where no tree with such a token stands.
    fn token(&self, node: NodeRef, component: u32) -> Option<Code>
        ensures { AreReady self.now.setting self.now.values.now → IsTokenIn self.now node.0 component result }
    {
        let setting = &self.setting;
        let mut makers = Lent(setting.makers);
        let (maker, _) = maker_of(&mut makers, node)?;
        let held = setting.places.value(self.values, maker)?;
        let place = token_place_of(&mut makers, setting.system, node, component)?;
        held.token(place)
    }
}

impl Reader for Standing<'_> {
    ghost use Rattle.plain_rounds.specs.Standing.{told_by};

    ghost tells = { told_by };

    fn settled(&mut self, alloc: Global, i: &Instance) -> Result<Option<Value>, Memory> {
        self.value(alloc, *i)
    }

    fn made_class(&mut self, node: NodeRef) -> ClassId {
        let setting = &self.setting;
        match class_of(&mut Lent(setting.makers), setting.system, node) {
            Some(class) => class,
            None => ClassId(u16::MAX),
        }
    }

    fn made_child(&mut self, node: NodeRef, component: u32) -> NodeRef {
        let setting = &self.setting;
        child_of(&mut Lent(setting.makers), setting.system, node, component)
    }

    fn made_token(&mut self, node: NodeRef, component: u32) -> Code {
        match self.token(node, component) {
            Some(code) => code,
            None => 0,
        }
    }

    fn made_up(&mut self, node: NodeRef) -> Up {
        let setting = &self.setting;
        up_of(&mut Lent(setting.makers), setting.system, node)
    }

    fn made_arg(&mut self, node: NodeRef, k: u32) -> Code {
        argument_of(&mut Lent(self.setting.makers), node, k)
    }

    fn made_order(&mut self, a: NodeRef, b: NodeRef) -> Ordering {
        let setting = &self.setting;
        order_of(&mut Lent(setting.makers), setting.system, a, b)
    }
}

/// What stands where there are no instances: nothing.
fn bare<'a, 'b>(setting: &Setting<'a>, nowhere: &'b Places) -> Standing<'b>
where
    'a: 'b,
    ensures system { result.setting.system.now ≡ setting.now.system.now }
    ensures makers { result.setting.makers.now ≡ setting.now.makers.now }
    ensures names { result.setting.names.now ≡ [] }
    ensures places { result.setting.places.now ≡ nowhere.now }
    ensures values { result.values.now ≡ [] }
{
    Standing {
        setting: setting.bare(nowhere),
        values: &[],
    }
}

/// The equation of an attribute at a node with arguments, if it has one.
pub(crate) fn equation_at(
    alloc: Global,
    setting: &Setting<'_>,
    attr: AttrId,
    node: NodeRef,
    args: Args,
) -> Option<EqSite>
    requires { IsSetting setting.now }
    ensures { FindsAt setting.now attr node args result }
{
    let nowhere = Places::none(alloc);
    let mut nothing = bare(setting, &nowhere);
    find_equation(setting.system, attr, node, args, &mut nothing)
}

/// The value that a tree of an instance is: the node at its root, and the tree.
fn tree_value(setting: &Setting<'_>, name: &Instance, image: TreeImage) -> NamedValue
    requires { IsTreeOf setting.now name.now image }
    ensures { IsTreeValue setting.now name.now image result }
{
    match setting.makers.root(name) {
        Some(root) => NamedValue {
            value: Value::Node(root),
            image: Some(image),
        },
        None => unreachable!(),
    }
}

/// The value of the equation of an instance of the list under what stands, if it isn't stuck.
pub(crate) fn equation_value(
    alloc: Global,
    setting: &Setting<'_>,
    values: &[Option<NamedValue>],
    k: usize,
) -> Result<Option<NamedValue>, Memory>
    requires ready { AreReady setting.now values.now }
    requires within { k < length setting.now.names.now }
    ensures value { let s = setting.now in IfOk result (λ value. IsComingAt (program_at s) (naming_at s) s.names.now (standing_in s values.now) k value) }
    ensures held { IfOk result (IsHeld (program_at setting.now)) }
{
    let name = setting.names[k];
    let mut standing = Standing {
        setting: *setting,
        values,
    };
    match evaluate_any(alloc, setting.system, &name, &mut standing)? {
        Turn::Done(value) => Ok(Some(NamedValue { value, image: None })),
        Turn::Need(_) => Ok(None),
        Turn::Image(image) => Ok(Some(tree_value(setting, &name, image))),
    }
}
