// Contributions to collections, with their expressions.
ghost use Rattle.std.specs.Prelude.{◌≡◌, ◌+◌, ◌<◌, ◌++◌, ◌∷◌, [], ◌^◌, OnOk, Option, None, Some, map};
ghost use Rattle.attr_rules.specs.Expression.{expression_of};
ghost use Rattle.attr_equations.specs.KeptContributions.{AreNumbered, IsNumbered, condition_typed, contribution_in, contribution_typed, number_if};

use ast_grammar::ClassId;
use attr_rules::{AttrId, EqId, TExpr};
use rag_io::Memory;

/// A contribution: the class at whose nodes it is read, the collection that it is for, and the numbers of its expressions: of its condition,
/// where one is written, of its receiver, at which it counts, and of the value that is contributed.
#[derive(Clone, Copy, Debug, PartialEq, Eq)]
pub struct Contribution {
    pub class: ClassId,
    pub target: AttrId,
    pub guard: Option<EqId>,
    pub receiver: EqId,
    pub value: EqId,
}

/// A contribution as it is typed, with its condition where one is written.
#[derive(Drop)]
pub struct TypedContribution {
    pub class: ClassId,
    pub target: AttrId,
    pub condition: Option<TExpr>,
    pub receiver: TExpr,
    pub value: TExpr,
}

/// A contribution with its expressions, which have three numbers side by side. A condition that isn't written is `true`, and its number is left
/// out.
#[derive(Drop)]
pub struct KeptContribution {
    pub numbers: Contribution,
    pub condition: TExpr,
    pub receiver: TExpr,
    pub value: TExpr,
}

// The number of a condition, where one is written.
fn number_if(first: u32, condition: &Option<TExpr>) -> Option<EqId>
    ensures { result ≡ number_if first condition.now }
{
    match condition {
        Some(_) => Some(EqId(first)),
        None => None,
    }
}

// A condition that isn't written is `true`.
fn condition_kept(condition: Option<TExpr>) -> TExpr
    ensures { expression_of result ≡ condition_typed condition }
{
    match condition {
        Some(condition) => condition,
        None => TExpr::Truth(true),
    }
}

// A contribution whose expressions have numbers from this one on.
fn numbered(first: u32, contribution: TypedContribution) -> KeptContribution
    requires { first + 2 < 2 ^ 32 }
    ensures numbers { IsNumbered first result }
    ensures is { contribution_in result ≡ contribution_typed contribution }
{
    let guard = number_if(first, &contribution.condition);
    let numbers = Contribution {
        class: contribution.class,
        target: contribution.target,
        guard,
        receiver: EqId(first + 1),
        value: EqId(first + 2),
    };
    KeptContribution {
        numbers,
        condition: condition_kept(contribution.condition),
        receiver: contribution.receiver,
        value: contribution.value,
    }
}

fn push(list: &mut Vec<KeptContribution>, contribution: KeptContribution) -> Result<(), Memory>
    ensures { OnOk result (list.new.items ≡ list.old.items ++ contribution ∷ []) }
{
    list.push(contribution).map_err(|_| Memory)
}

/// Adds a contribution behind so many equations and some contributions. Expressions go by numbers of 32 bits, and a file has no room for more.
pub fn add_contribution(
    list: &mut Vec<KeptContribution>,
    equations: u32,
    contribution: TypedContribution,
) -> Result<(), Memory>
    requires { AreNumbered equations list.old.items }
    ensures numbered { OnOk result (AreNumbered equations list.new.items) }
    ensures added { OnOk result (map contribution_in list.new.items ≡ map contribution_in list.old.items ++ contribution_typed contribution ∷ []) }
{
    let first = equations + 3 * list.len() as u32;
    if first >= u32::MAX - 3 {
        return Err(Memory);
    }
    push(list, numbered(first, contribution))
}
