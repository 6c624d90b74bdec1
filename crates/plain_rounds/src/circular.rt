// Which instances are circular, and where these start.
ghost use Rattle.std.specs.Prelude.{◌≡◌};
ghost use Rattle.equation_law.specs.declared.coding.Instance.TheVariants.{Attr as attribute_at};
ghost use Rattle.equation_law.specs.Equations.{equations_of};
ghost use Rattle.equation_law.specs.Equations as spec;
ghost use Rattle.plain_rounds.specs.Places.{IsHeld};
ghost use Rattle.plain_rounds.specs.Rising.{equation_rises_in};
ghost use Rattle.plain_rounds.specs.Settings.{IsSetting, instance_at, naming_at, program_at};
ghost use Rattle.plain_rounds.specs.Steps.{known, start_of};

use crate::rising::rises;
use crate::setting::Setting;
use crate::standing::equation_at;
use crate::values::NamedValue;
use attr_rules::{AttrId, Kind};
use collection_attrs::is_collection;
use equation_law::{Args, Instance, NodeRef, Value};
use expr_eval::kind_of;
use std::alloc::Global;

/// Whether it is a type of which circular attributes are.
fn is_ordered(kind: Kind) -> bool
    ensures { result ≡ spec.is_ordered kind }
{
    match kind {
        Kind::Truth | Kind::Texts | Kind::Nodes(_) => true,
        Kind::Int | Kind::Text | Kind::Node(_) => false,
    }
}

/// Whether an attribute has an equation at a node, and it is an expression that rises.
fn equation_rises(
    alloc: Global,
    setting: &Setting<'_>,
    attr: AttrId,
    node: NodeRef,
    args: Args,
) -> bool
    requires { IsSetting setting.now }
    ensures { result ≡ equation_rises_in (program_at setting.now) (instance_at setting.now (attribute_at attr node args)) }
{
    if is_collection(setting.system, &Instance::Attr { attr, node, args }) {
        return false;
    }
    match equation_at(alloc, setting, attr, node, args) {
        None => false,
        Some(site) => {
            let rules = setting.system.rules();
            rises(rules, rules.body(site.equation))
        }
    }
}

/// Whether an instance is circular. In a program that was checked it is where its attribute is declared so.
pub(crate) fn is_circular(alloc: Global, setting: &Setting<'_>, name: &Instance) -> bool
    requires { IsSetting setting.now }
    ensures { result ≡ (equations_of (program_at setting.now)).circular (instance_at setting.now name.now) }
{
    match name {
        Instance::Query(_) => false,
        Instance::Attr { attr, node, args } => {
            setting.system.rules().attributes().is_circular(*attr)
                && is_ordered(kind_of(setting.system, name))
                && equation_rises(alloc, setting, *attr, *node, *args)
        }
    }
}

/// Where the rounds of an instance start, if it is circular.
pub(crate) fn start_of(alloc: Global, setting: &Setting<'_>, name: &Instance) -> Option<NamedValue>
    requires { IsSetting setting.now }
    ensures value { known (program_at setting.now) (naming_at setting.now) result ≡ start_of (program_at setting.now) (instance_at setting.now name.now) }
    ensures held { IsHeld (program_at setting.now) result }
{
    if is_circular(alloc, setting, name) {
        let value = Value::default_of(alloc, kind_of(setting.system, name));
        Some(NamedValue { value, image: None })
    } else {
        None
    }
}
