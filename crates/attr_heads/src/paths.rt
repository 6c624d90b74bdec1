// Where the path of an equation leads, what an equation may name, and the rules on paths: J9 and J15.
ghost use Rattle.std.specs.Prelude.{◌≡◌, ◌<◌, IfOk, IfSome, OnOk, length, map, Some};
ghost use Rattle.std.specs.Option.{option_map};
ghost use Rattle.ast_grammar.specs.Grammar.{component_at, number_of, superclasses_of};
ghost use Rattle.attr_rules.specs.Rules as rules;
ghost use Rattle.attr_rules.specs.Types.{parameter_kinds};
ghost use Rattle.broken_rules.specs.Notes.{Notes};
ghost use Rattle.attr_heads.specs.Parameters.{seen_path};
ghost use Rattle.attr_heads.specs.Paths.{are_other, component_behind, is_list_component, node_component_named, parameter_named, path_broken, path_kinds, reach_named, reach_of, way_broken};
ghost use Rattle.attr_heads.specs.PathsKept.{Binds, names_given};
ghost use Rattle.attr_scope.specs.Seen.{seen_variable};
ghost use Rattle.aspect_items.specs.Items.{seen_parameter, seen_signature};

use crate::created::created_attribute;
use crate::parameters::{differ, path_parameters};
use aspect_items::{Parameter, Signature};
use ast_grammar::{ClassId, Grammar, Shape};
use attr_rules::{AttrId, Attributes, Kind, Params, Part, Reach, ValueType};
use attr_scope::{Variable, type_written};
use broken_rules::{Earliest, Rule};
use rag_io::Memory;
use std::alloc::Global;

// No parameters.
const NONE: Params = Params {
    count: 0,
    first: Kind::Truth,
    second: Kind::Truth,
    third: Kind::Truth,
};

// One index.
const INDEX: Params = Params {
    count: 1,
    first: Kind::Int,
    second: Kind::Truth,
    third: Kind::Truth,
};

// Nodes may hang at a component of this shape.
fn is_for_nodes(shape: Shape) -> bool
    ensures { result ≡ rules.is_for_nodes shape }
{
    match shape {
        Shape::Child | Shape::List | Shape::Optional => true,
        Shape::Text | Shape::Int | Shape::Truth => false,
    }
}

// The component of this name, where nodes may hang at it.
fn node_component(grammar: &Grammar, class: ClassId, name: &[u8]) -> Option<u32>
    requires { class.0 < length grammar.now }
    ensures { result ≡ node_component_named grammar.now class.0 name.now }
{
    let number = grammar.find_component(class, name)?;
    if is_for_nodes(grammar.component(class, number).shape) {
        Some(number)
    } else {
        None
    }
}

// The component that `getX` names.
fn component_behind(grammar: &Grammar, class: ClassId, name: &[u8]) -> Option<u32>
    requires { class.0 < length grammar.now }
    ensures { result ≡ component_behind grammar.now class.0 name.now }
{
    let component = name.strip_prefix(b"get".as_slice())?;
    node_component(grammar, class, component)
}

// Where a name leads from nodes of a class.
fn reach_named(
    grammar: &Grammar,
    attributes: &Attributes,
    class: ClassId,
    name: &[u8],
) -> Option<Reach>
    requires within { class.0 < length grammar.now }
    requires superclasses { attributes.now.superclasses ≡ superclasses_of grammar.now }
    ensures { result ≡ reach_named grammar.now attributes.now.attributes class.0 name.now }
{
    if name == b"getChild".as_slice() {
        return Some(Reach::Children);
    }
    if let Some(component) = component_behind(grammar, class, name) {
        return Some(Reach::Component(Part(component)));
    }
    let attribute = created_attribute(attributes, class, name)?;
    Some(Reach::Created(attribute))
}

// The component is a list.
fn is_list(grammar: &Grammar, class: ClassId, component: Part) -> bool
    requires { class.0 < length grammar.now }
    ensures { result ≡ is_list_component (component_at grammar.now class.0 component.0) }
{
    component.0 < grammar.arity(class) && grammar.component(class, component.0).shape == Shape::List
}

// The parameters of an attribute; where there is none, no parameters.
fn params_declared(attributes: &Attributes, attribute: AttrId) -> Params
    ensures { parameter_kinds result ≡ rules.kinds_of (rules.declared_at attributes.now.attributes attribute.0) }
{
    if u32::from(attribute.0) < attributes.len() {
        attributes.attr(attribute).params
    } else {
        NONE
    }
}

// The parameters of a path, where it has any.
fn path_params(grammar: &Grammar, attributes: &Attributes, class: ClassId, reach: Reach) -> Params
    requires { class.0 < length grammar.now }
    ensures { parameter_kinds result ≡ path_kinds grammar.now attributes.now.attributes class.0 reach }
{
    match reach {
        Reach::Component(component) if is_list(grammar, class, component) => INDEX,
        Reach::Created(attribute) => params_declared(attributes, attribute),
        Reach::Own | Reach::Component(_) | Reach::Children => NONE,
    }
}

// What a path binds, as parameters.
fn bound_params(attributes: &Attributes, reach: Reach) -> Params
    ensures { parameter_kinds result ≡ rules.bound_kinds attributes.now.attributes reach }
{
    match reach {
        Reach::Component(_) => INDEX,
        Reach::Created(attribute) => params_declared(attributes, attribute),
        Reach::Own | Reach::Children => NONE,
    }
}

// A parameter, of the type that it has, where that is known.
fn parameter_named<'a>(grammar: &Grammar, parameter: &'a Parameter) -> Variable<'a>
    ensures { seen_variable result ≡ parameter_named grammar.now (seen_parameter parameter.now) }
{
    Variable {
        name: &parameter.name.text,
        value_type: type_written(grammar, &parameter.of).map(ValueType::Of),
    }
}

// The parameters of an attribute.
fn parameters_named<'a>(
    alloc: Global,
    grammar: &Grammar,
    parameters: &'a [Parameter],
) -> Result<Vec<Variable<'a>>, Memory>
    ensures { IfOk result (λ list. map seen_variable list.items ≡ map (parameter_named grammar.now) (map seen_parameter parameters.now)) }
{
    let mut list = Vec::new(alloc);
    for parameter in parameters {
        list.push(parameter_named(grammar, parameter))
            .map_err(|_| Memory)?;
    }
    Ok(list)
}

// Binds what is of these types under the names of parameters; where there is none, under the empty name, which is no name in an expression.
fn bind<'a>(
    list: &mut Vec<Variable<'a>>,
    bound: Params,
    parameters: &'a [Parameter],
) -> Result<(), Memory>
    ensures { OnOk result (Binds list.old.items (parameter_kinds bound) parameters.now list.new.items) }
{
    let Some(kind) = bound.first_kind() else {
        return Ok(());
    };
    let (name, rest): (&[u8], &[Parameter]) = match parameters {
        [] => (&[], &[]),
        [first, rest @ ..] => (&first.name.text, rest),
    };
    list.push(Variable {
        name,
        value_type: Some(ValueType::Of(kind)),
    })
    .map_err(|_| Memory)?;
    bind(list, bound.rest(), rest)
}

/// What an equation may name: the parameters of the attribute, and behind them what its path binds. That is over a component the place of
/// the node among those that hang there, and over a higher-order attribute its arguments, under the names of the path's parameters.
pub fn equation_names<'a>(
    alloc: Global,
    grammar: &Grammar,
    attributes: &Attributes,
    attribute: &'a Signature,
    path: Option<&'a Signature>,
    reach: Reach,
) -> Result<Vec<Variable<'a>>, Memory>
    ensures { IfOk result (λ list. map seen_variable list.items ≡ names_given grammar.now attributes.now attribute.now path.entry reach) }
{
    let mut list = parameters_named(alloc, grammar, &attribute.parameters)?;
    let bound = bound_params(attributes, reach);
    bind(&mut list, bound, path_parameters(path))?;
    Ok(list)
}

// Parameters other than none, and than those of these types.
fn are_other(grammar: &Grammar, wanted: Params, parameters: &[Parameter]) -> bool
    ensures { result ≡ are_other grammar.now (parameter_kinds wanted) (map seen_parameter parameters.now) }
{
    !parameters.is_empty() && differ(grammar, wanted, parameters)
}

// Where a path leads from nodes of a class. Notes J9 where it leads nowhere, and J15 where it has other parameters.
fn check_way(
    grammar: &Grammar,
    attributes: &Attributes,
    class: ClassId,
    path: &Signature,
    faults: &mut Earliest,
) -> Option<Reach>
    requires within { class.0 < length grammar.now }
    requires superclasses { attributes.now.superclasses ≡ superclasses_of grammar.now }
    ensures reach { result ≡ reach_named grammar.now attributes.now.attributes class.0 (seen_signature path.now).name.text }
    ensures noted { Notes (way_broken grammar.now attributes.now.attributes (Some class.0) (seen_signature path.now)) faults.old faults.new }
{
    let Some(reach) = reach_named(grammar, attributes, class, &path.name.text) else {
        faults.note(Rule::J9, path.name.place);
        return None;
    };
    let wanted = path_params(grammar, attributes, class, reach);
    let is_other = are_other(grammar, wanted, &path.parameters);
    faults.note_if(is_other, Rule::J15, path.name.place);
    Some(reach)
}

/// For which nodes an equation of a class is, by its path. Notes what the path breaks.
pub(crate) fn check_path(
    grammar: &Grammar,
    attributes: &Attributes,
    class: Option<ClassId>,
    path: Option<&Signature>,
    faults: &mut Earliest,
) -> Option<Reach>
    requires within { IfSome class (λ c. c.0 < length grammar.now) }
    requires superclasses { attributes.now.superclasses ≡ superclasses_of grammar.now }
    ensures reach { result ≡ reach_of grammar.now attributes.now.attributes (option_map number_of class) (seen_path path.entry) }
    ensures noted { Notes (path_broken grammar.now attributes.now.attributes (option_map number_of class) (seen_path path.entry)) faults.old faults.new }
{
    let Some(path) = path else {
        return Some(Reach::Own);
    };
    check_way(grammar, attributes, class?, path, faults)
}
