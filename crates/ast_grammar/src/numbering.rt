// Components by the numbers of their names and classes.
ghost use Rattle.std.specs.Prelude.{◌≡◌, ◌≤◌, List, length, map, position, IfOk};
ghost use Rattle.std.specs.Str.{bytes_eq};
ghost use Rattle.ast_rules.specs.Naming.{names_of};
ghost use Rattle.ast_rules.specs.Written.{WrittenRule as WrittenByRule, seen_component, seen_rules};
ghost use Rattle.ast_grammar.specs.Building.{AreNames, component_numbered, items_of, own_numbered};
ghost use Rattle.ast_grammar.specs.Grammar.{most_classes};
ghost use Rattle.ast_grammar.specs.Written.{class_for, class_numbered, shape_of, token_shape};

use crate::grammar::{ClassId, Component, Shape};
use ast_rules::{Form, WrittenComponent, WrittenRule, type_of};
use names::Names;
use rag_io::{Memory, Pool};
use std::alloc::Global;

// The shape of a token, by its type.
fn token_shape(component: &WrittenComponent<'_>) -> Shape
    ensures { result ≡ token_shape (seen_component component.now).type_name }
{
    let Some(name) = &component.type_name else {
        return Shape::Text;
    };
    if name.text == b"int".as_slice() {
        Shape::Int
    } else if name.text == b"boolean".as_slice() {
        Shape::Truth
    } else {
        Shape::Text
    }
}

fn shape_of(component: &WrittenComponent<'_>) -> Shape
    ensures { result ≡ shape_of component.now.form (seen_component component.now).type_name }
{
    match component.form {
        Form::Child => Shape::Child,
        Form::List => Shape::List,
        Form::Optional => Shape::Optional,
        Form::Token => token_shape(component),
    }
}

// The class of this name.
fn class_called(classes: &Names<'_>, name: &[u8]) -> ClassId
    requires { length classes.now ≤ most_classes }
    ensures { result ≡ class_numbered (position (bytes_eq name.now) classes.now) }
{
    match classes.number_of(name) {
        Some(number) => ClassId(number as u16),
        None => ClassId(0),
    }
}

// The class of a child, list or optional; a token has number 0.
fn class_for(classes: &Names<'_>, component: &WrittenComponent<'_>) -> ClassId
    requires { length classes.now ≤ most_classes }
    ensures { (rules : List WrittenByRule) → classes.now ≡ names_of rules
        → result ≡ class_for rules component.now.form (seen_component component.now) }
{
    match component.form {
        Form::Child | Form::List | Form::Optional => {
            class_called(classes, type_of(component).text)
        }
        Form::Token => ClassId(0),
    }
}

fn component_of(names: &Pool, classes: &Names<'_>, component: &WrittenComponent<'_>) -> Component
    requires { length classes.now ≤ most_classes }
    ensures { (rules : List WrittenByRule) → AreNames rules names.now classes.now
        → result ≡ component_numbered rules (seen_component component.now) }
{
    Component {
        name: names.find(component.name.text).unwrap_or(0),
        shape: shape_of(component),
        class: class_for(classes, component),
    }
}

// The components that a rule itself writes.
fn own_components(
    alloc: Global,
    names: &Pool,
    classes: &Names<'_>,
    components: &[WrittenComponent<'_>],
) -> Result<Vec<Component>, Memory>
    requires { length classes.now ≤ most_classes }
    ensures { (rules : List WrittenByRule) → AreNames rules names.now classes.now
        → IfOk result (λ v. v.items ≡ map (component_numbered rules) (map seen_component components.now)) }
{
    let mut own = Vec::new(alloc);
    for component in components {
        own.push(component_of(names, classes, component))
            .map_err(|_| Memory)?;
    }
    Ok(own)
}

// Of each rule the components that it itself writes.
pub(crate) fn number_components(
    alloc: Global,
    names: &Pool,
    classes: &Names<'_>,
    rules: &[WrittenRule<'_>],
) -> Result<Vec<Vec<Component>>, Memory>
    requires names { AreNames (seen_rules rules.now) names.now classes.now }
    requires few { length classes.now ≤ most_classes }
    ensures { IfOk result (λ v. map items_of v.items ≡ map (own_numbered (seen_rules rules.now)) (seen_rules rules.now)) }
{
    let mut all = Vec::new(alloc);
    for rule in rules {
        let own = own_components(alloc, names, classes, &rule.components)?;
        all.push(own).map_err(|_| Memory)?;
    }
    Ok(all)
}
