// The next of the offers in the subtree of a root.
ghost use Rattle.std.specs.Prelude.{◌≡◌, ◌+◌, ◌^◌, ◌<◌, ◌≤◌, IfNone, IfSome, length};
ghost use Rattle.equation_law.specs.Systems.{program_of};
ghost use Rattle.collection_attrs.specs.Walks.{IsFirstOffered, IsNext, NoneBetween, NoneOffered};

use attr_rules::AttrId;
use equation_law::System;

/// The first contribution from one on that is offered to an attribute at a node, by its number.
fn next_offered(system: &System, attr: AttrId, node: u32, from: u32) -> Option<u32>
    requires node { node < length (program_of system.now).tree }
    ensures few { IfSome result (λ k. k + 1 < 2 ^ 32) }
    ensures some { IfSome result (IsFirstOffered (program_of system.now) attr.0 node from) }
    ensures none { IfNone result (NoneOffered (program_of system.now) attr.0 node from (length (program_of system.now).rules.contributions)) }
{
    let rules = system.rules();
    let class = system.tree().class_of(node);
    let mut first = from;
    'contributions: while let Some(number) = rules.contribution_for(attr, first) {
        if system
            .grammar()
            .is_sub(class, rules.contribution(number).class)
        {
            return Some(number);
        }
        first = number + 1;
    }
    None
}

/// The first offer from a contribution at a node on, before the end of a subtree: its node and its contribution.
pub(crate) fn next_from(
    system: &System,
    attr: AttrId,
    from: u32,
    first: u32,
    end: u32,
) -> Option<(u32, u32)>
    requires within { end ≤ length (program_of system.now).tree }
    requires before { from ≤ end }
    requires first { first ≤ length (program_of system.now).rules.contributions }
    requires ended { from ≡ end → first ≡ 0 }
    ensures few { IfSome result (λ at. (at.0 + 1 < 2 ^ 32) × (at.1 + 1 < 2 ^ 32)) }
    ensures some { IfSome result (λ at. IsNext (program_of system.now) attr.0 from first end at.0 at.1) }
    ensures none { IfNone result (NoneBetween (program_of system.now) attr.0 from first end 0) }
{
    let mut node = from;
    let mut next = first;
    'nodes: while node < end {
        if let Some(number) = next_offered(system, attr, node, next) {
            return Some((node, number));
        }
        node += 1;
        next = 0;
    }
    None
}
