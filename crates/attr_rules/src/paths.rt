// Equations with a path, class by class.
ghost use Rattle.std.specs.Prelude.{◌<◌, ◌^◌, [], All, IfOk, length};
ghost use Rattle.attr_rules.specs.Dispatching.{AddsPath, AreOwnPaths};

use crate::dispatch::Target;
use crate::kinds::EqId;
use rag_io::Memory;
use std::alloc::Global;

// Adds an equation to those of its class, if it has a path.
fn add(lists: &mut [Vec<(Target, EqId)>], target: Target, equation: EqId) -> Result<(), Memory>
    requires { target.class.0 < length lists.now }
    ensures { IfOk result (λ _. AddsPath target equation lists.old lists.new) }
{
    if target.reach.is_own() {
        return Ok(());
    }
    let list = &mut lists[target.class.0 as usize];
    match list.push((target, equation)) {
        Ok(_) => Ok(()),
        Err(_) => Err(Memory),
    }
}

// A list for each class, in which nothing stands.
fn empty_lists(alloc: Global, classes: u32) -> Result<Vec<Vec<(Target, EqId)>>, Memory>
    ensures { IfOk result (λ lists. AreOwnPaths classes [] lists.items) }
{
    let mut lists = Vec::new(alloc);
    for _ in 0..classes {
        lists.push(Vec::new(alloc)).map_err(|_| Memory)?;
    }
    Ok(lists)
}

/// The equations with a path of exactly each class, with their places in the list.
pub(crate) fn own_paths(
    alloc: Global,
    classes: u32,
    targets: &[Target],
) -> Result<Vec<Vec<(Target, EqId)>>, Memory>
    requires few { length targets.now < 2 ^ 32 }
    requires within { All (λ t. t.class.0 < classes) targets.now }
    ensures { IfOk result (λ lists. AreOwnPaths classes targets.now lists.items) }
{
    let mut lists = empty_lists(alloc, classes)?;
    for (i, target) in targets.iter().enumerate() {
        add(&mut lists, *target, EqId(i as u32))?;
    }
    Ok(lists)
}
