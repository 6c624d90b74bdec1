// The values of the names that an equation begins with: the arguments of its attribute, and behind them what its path binds.
ghost use Rattle.std.specs.Prelude.{◌≡◌, ◌++◌, ◌∷◌, [], pos, IfOk, OnOk, map};
ghost use Rattle.std.specs.Int.{int_wrap};
ghost use mir.Syntax.{w32};
ghost use Rattle.attr_rules.specs.Types.{parameter_kinds};
ghost use Rattle.equation_law.specs.Codes.{IsRow, Naming, arguments_by, codes_in, single_by, value_coded};
ghost use Rattle.equation_law.specs.Systems.{program_of};
ghost use Rattle.equation_law.specs.Values.{Int, argument_value, as_argument};
ghost use Rattle.expr_eval.specs.Elements.{AddsValues};
ghost use Rattle.inherited_walk.specs.Sites.{index_values, outer_values, reach_at, site_place};

use attr_rules::{AttrId, EqId, Kind, Params, Reach, TextId};
use equation_law::{Args, Code, EqSite, NodeRef, Single, System};
use rag_io::Memory;
use std::alloc::Global;

/// The integer of a code.
fn integer(code: Code) -> Single
    ensures { (n : Naming) → single_by n result ≡ Int (int_wrap w32 (pos code)) }
{
    Single::Int(code.cast_signed())
}

/// The value of an argument of this type. No argument is a set.
fn argument(kind: Kind, code: Code) -> Single
    ensures { (n : Naming) → single_by n result ≡ argument_value (as_argument kind (value_coded n kind code)) }
{
    match kind {
        Kind::Truth => Single::Truth(code != 0),
        Kind::Int => integer(code),
        Kind::Text => Single::Text(TextId(code)),
        Kind::Node(_) => Single::Node(NodeRef(code)),
        Kind::Texts | Kind::Nodes(_) => Single::Truth(false),
    }
}

fn push(names: &mut Vec<Single>, value: Single) -> Result<(), Memory>
    ensures { OnOk result (names.new.items ≡ names.old.items ++ value ∷ []) }
{
    names.push(value).map_err(|_| Memory)
}

/// Places in lists.
fn push_places(names: &mut Vec<Single>, outer: Args) -> Result<(), Memory>
    requires { IsRow outer }
    ensures { OnOk result ((n : Naming) → map (single_by n) names.new.items ≡ map (single_by n) names.old.items ++ index_values outer) }
{
    let mut given = outer;
    while let Some(place) = given.first_code() {
        push(names, integer(place))?;
        given = given.rest();
    }
    Ok(())
}

/// The values of some arguments for these parameters, behind others.
fn push_arguments(names: &mut Vec<Single>, parameters: Params, args: Args) -> Result<(), Memory>
    requires { IsRow args }
    ensures { OnOk result (AddsValues names.old.items names.new.items (λ n. map argument_value (arguments_by n (parameter_kinds parameters) (codes_in args)))) }
{
    let mut wanted = parameters;
    let mut given = args;
    while let (Some(kind), Some(code)) = (wanted.first_kind(), given.first_code()) {
        push(names, argument(kind, code))?;
        wanted = wanted.rest();
        given = given.rest();
    }
    Ok(())
}

/// What a path binds, behind other names: over a component a place in a list, and over a higher-order attribute its arguments.
fn push_bound(
    system: &System,
    names: &mut Vec<Single>,
    reach: Reach,
    outer: Args,
) -> Result<(), Memory>
    requires { IsRow outer }
    ensures { OnOk result (AddsValues names.old.items names.new.items (λ n. outer_values (program_of system.now) n reach outer)) }
{
    match reach {
        Reach::Component(_) => push_places(names, outer),
        Reach::Created(maker) => push_arguments(names, system.parameters(maker), outer),
        Reach::Own | Reach::Children => Ok(()),
    }
}

/// The path of an equation; an expression of a contribution has none.
fn reach_of(system: &System, equation: EqId) -> Reach
    ensures { result ≡ reach_at (program_of system.now) equation.0 }
{
    let rules = system.rules();
    if equation.0 < rules.equations() {
        rules.target(equation).reach
    } else {
        Reach::Own
    }
}

/// The values of the names of an equation that is read for an attribute.
pub(crate) fn names_of(
    alloc: Global,
    system: &System,
    attr: AttrId,
    site: &EqSite,
) -> Result<Vec<Single>, Memory>
    requires inner { IsRow site.now.inner }
    requires outer { IsRow site.now.outer }
    ensures { IfOk result (λ names. (n : Naming) → map (single_by n) names.items ≡ (site_place (program_of system.now) n attr.0 site.now).names) }
{
    let mut names = Vec::new(alloc);
    push_arguments(&mut names, system.parameters(attr), site.inner)?;
    push_bound(
        system,
        &mut names,
        reach_of(system, site.equation),
        site.outer,
    )?;
    Ok(names)
}
