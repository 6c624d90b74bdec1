// Parameters, and the rules on them in heads: J3, J4 and J17.
ghost use Rattle.std.specs.Prelude.{◌≡◌, ◌++◌, [], Some, OnOk, map};
ghost use Rattle.broken_rules.specs.Notes.{Notes};
ghost use Rattle.attr_rules.specs.Types.{parameter_kinds};
ghost use Rattle.attr_heads.specs.Parameters.{all_parameters_broken, differ, is_no_parameter, is_other_type, parameter_kind, parameter_names, parameter_types, parameters_broken, params_written, path_parameters, seen_path};
ghost use Rattle.attr_heads.specs.ParametersKept.{NotesParameter};
ghost use Rattle.names.specs.Among.{is_among, with_name};
ghost use Rattle.names.specs.Known.{Knows};
ghost use Rattle.aspect_items.specs.Items.{seen_parameter, seen_signature, seen_type};

use aspect_items::{Parameter, Signature, Type};
use ast_grammar::Grammar;
use attr_rules::{Kind, Params};
use attr_scope::{kind_written, same_kind, type_written};
use broken_rules::{Earliest, Rule};
use names::Names;
use rag_io::Memory;
use std::alloc::Global;

/// A parenthesis has at most so many parameters.
const MOST_PARAMETERS: usize = 3;

// A type that no parameter has: a set, or none.
fn is_no_parameter(grammar: &Grammar, of: &Type) -> bool
    ensures { result ≡ is_no_parameter grammar.now (seen_type of.now) }
{
    of.set || type_written(grammar, of).is_none()
}

// J4, J3 and J17 of a parameter, before which there are so many.
fn check_parameter<'a>(
    grammar: &Grammar,
    names: &mut Names<'a>,
    count: usize,
    parameter: &'a Parameter,
    faults: &mut Earliest,
) -> Result<(), Memory>
    ensures noted { OnOk result (NotesParameter grammar.now names.old count (seen_parameter parameter.now) faults.old faults.new) }
    ensures names { OnOk result (names.new ≡ with_name names.old (seen_parameter parameter.now).name.text) }
{
    let is_other = is_no_parameter(grammar, &parameter.of);
    faults.note_if(is_other, Rule::J4, parameter.of.place);
    let name = &parameter.name;
    let is_new = names.insert(&name.text)?;
    faults.note_if(!is_new, Rule::J3, name.place);
    faults.note_if(count == MOST_PARAMETERS, Rule::J17, name.place);
    Ok(())
}

// The same of all parameters of a parenthesis, behind these names.
fn check_parameters<'a>(
    grammar: &Grammar,
    names: &mut Names<'a>,
    parameters: &'a [Parameter],
    faults: &mut Earliest,
) -> Result<(), Memory>
    ensures noted { OnOk result (Notes (parameters_broken grammar.now names.old (map seen_parameter parameters.now)) faults.old faults.new) }
    ensures names { OnOk result (Knows names.new (is_among (names.old ++ parameter_names (map seen_parameter parameters.now)))) }
{
    for (count, parameter) in parameters.iter().enumerate() {
        check_parameter(grammar, names, count, parameter, faults)?;
    }
    Ok(())
}

/// The parameters of a path, if there is one.
pub(crate) fn path_parameters(path: Option<&Signature>) -> &[Parameter]
    ensures { map seen_parameter result.now ≡ path_parameters (seen_path path.entry) }
{
    match path {
        Some(path) => &path.parameters,
        None => &[],
    }
}

/// J3, J4 and J17 of the parameters of a head: of those of the path, if there is one, and of those of the attribute.
pub(crate) fn check_all_parameters(
    alloc: Global,
    grammar: &Grammar,
    path: Option<&Signature>,
    attribute: &Signature,
    faults: &mut Earliest,
) -> Result<(), Memory>
    ensures { OnOk result (Notes (all_parameters_broken grammar.now (seen_path path.entry) (seen_signature attribute.now)) faults.old faults.new) }
{
    let mut names = Names::new(alloc);
    check_parameters(grammar, &mut names, path_parameters(path), faults)?;
    check_parameters(grammar, &mut names, &attribute.parameters, faults)
}

/// The same of the parameters of a declaration, which has no path.
pub(crate) fn check_own_parameters(
    alloc: Global,
    grammar: &Grammar,
    parameters: &[Parameter],
    faults: &mut Earliest,
) -> Result<(), Memory>
    ensures { OnOk result (Notes (parameters_broken grammar.now [] (map seen_parameter parameters.now)) faults.old faults.new) }
{
    let mut names = Names::new(alloc);
    check_parameters(grammar, &mut names, parameters, faults)
}

/// What is written is known to be another type than this one, as far as that is known. No parameter is a set.
pub(crate) fn is_other_type(grammar: &Grammar, wanted: Option<Kind>, of: &Type) -> bool
    ensures { result ≡ is_other_type grammar.now wanted (seen_type of.now) }
{
    of.set || !same_kind(wanted, type_written(grammar, of))
}

/// The parameters aren't those of an attribute, in number and type.
pub(crate) fn differ(grammar: &Grammar, wanted: Params, parameters: &[Parameter]) -> bool
    ensures { result ≡ differ grammar.now (map Some (parameter_kinds wanted)) (map seen_parameter parameters.now) }
{
    let [first, rest @ ..] = parameters else {
        return wanted.first_kind().is_some();
    };
    match wanted.first_kind() {
        None => true,
        kind => { is_other_type(grammar, kind, &first.of) || differ(grammar, wanted.rest(), rest) }
    }
}

/// The parameters aren't those of another declaration, in number and type, as far as types are known.
pub(crate) fn differ_from(grammar: &Grammar, others: &[Parameter], parameters: &[Parameter]) -> bool
    ensures { result ≡ differ grammar.now (parameter_types grammar.now (map seen_parameter others.now)) (map seen_parameter parameters.now) }
{
    if others.len() != parameters.len() {
        return true;
    }
    for (k, other) in others.iter().enumerate() {
        if is_other_type(grammar, type_written(grammar, &other.of), &parameters[k].of) {
            return true;
        }
    }
    false
}

fn parameter_kind(grammar: &Grammar, parameter: &Parameter) -> Kind
    ensures { result ≡ parameter_kind grammar.now (seen_parameter parameter.now) }
{
    kind_written(grammar, &parameter.of)
}

/// The parameters that are written, of which the first three count.
pub(crate) fn params_written(grammar: &Grammar, parameters: &[Parameter]) -> Params
    ensures { result ≡ params_written grammar.now (map seen_parameter parameters.now) }
{
    let none = Kind::Truth;
    let (count, first, second, third) = match parameters {
        [] => (0, none, none, none),
        [a] => (1, parameter_kind(grammar, a), none, none),
        [a, b] => (
            2,
            parameter_kind(grammar, a),
            parameter_kind(grammar, b),
            none,
        ),
        [a, b, c, ..] => (
            3,
            parameter_kind(grammar, a),
            parameter_kind(grammar, b),
            parameter_kind(grammar, c),
        ),
    };
    Params {
        count,
        first,
        second,
        third,
    }
}
