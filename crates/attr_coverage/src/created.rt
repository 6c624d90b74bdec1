// Of which classes the roots are that the higher-order attributes of nodes make.
ghost use Rattle.std.specs.Prelude.{◌≡◌, ◌<◌, IfOk, length, map};
ghost use Rattle.std.specs.Option.{option_map};
ghost use Rattle.ast_grammar.specs.Grammar.{number_of};
ghost use Rattle.attr_coverage.specs.Completeness.{roots_of};
ghost use Rattle.attr_coverage.specs.Created.{makes_at, written_root};
ghost use Rattle.attr_coverage.specs.Dispatched.{FindsRoot, ForTargets, ListsAllMade, ListsMade, created_for, numbers_of};
ghost use Rattle.attr_scope.specs.Seen.{seen_given};
ghost use Rattle.aspect_items.specs.Expressions.{seen_expr};

use aspect_items::Expr;
use ast_grammar::{ClassId, Grammar};
use attr_rules::{Attr, AttrId, Attributes, Dispatch};
use attr_scope::Given;
use rag_io::Memory;
use std::alloc::Global;

/// A higher-order attribute, and the class of the root that it makes at nodes of some class.
#[derive(Clone, Copy, Debug)]
pub struct Created {
    pub attribute: AttrId,
    pub class: ClassId,
}

// The class of the root that a right side makes as it is written, where it is a `new`.
fn written_root(grammar: &Grammar, body: &Expr) -> Option<ClassId>
    ensures { option_map number_of result ≡ written_root grammar.now (seen_expr body.now) }
{
    match body {
        Expr::New(_, class, _) => grammar.find_class(&class.text),
        _ => None,
    }
}

/// For each equation the class of the root that it makes.
pub(crate) fn roots_of(
    alloc: Global,
    grammar: &Grammar,
    equations: &[Given<'_>],
) -> Result<Vec<Option<ClassId>>, Memory>
    ensures { IfOk result (λ list. numbers_of list.items ≡ roots_of grammar.now (map seen_given equations.now)) }
{
    let mut list = Vec::new(alloc);
    for equation in equations {
        let root = written_root(grammar, equation.body);
        list.push(root).map_err(|_| Memory)?;
    }
    Ok(list)
}

// The attribute is higher-order, and nodes of the class have it.
fn makes_at(grammar: &Grammar, class: ClassId, declared: &Attr) -> bool
    ensures { result ≡ makes_at grammar.now class.0 declared.now }
{
    declared.sort.is_higher_order() && grammar.is_sub(class, declared.class)
}

// The class of the root that the equation of an attribute makes at nodes of a class.
fn root_by(
    dispatch: &Dispatch,
    roots: &[Option<ClassId>],
    class: ClassId,
    attribute: AttrId,
) -> Option<ClassId>
    ensures { FindsRoot dispatch.now roots.now class attribute result }
{
    let equation = dispatch.find(class, attribute)?;
    roots.get(equation.0 as usize).copied().flatten()
}

// What an attribute makes at nodes of a class.
fn created_at(
    grammar: &Grammar,
    attributes: &Attributes,
    dispatch: &Dispatch,
    roots: &[Option<ClassId>],
    class: ClassId,
    attribute: AttrId,
) -> Option<Created>
    requires { attribute.0 < length attributes.now.attributes }
    ensures { ForTargets grammar.now dispatch.now (λ targets. result ≡ created_for grammar.now attributes.now targets roots.now class attribute) }
{
    if !makes_at(grammar, class, attributes.attr(attribute)) {
        return None;
    }
    let root = root_by(dispatch, roots, class, attribute)?;
    Some(Created {
        attribute,
        class: root,
    })
}

// What the attributes make at nodes of a class.
fn made_of(
    alloc: Global,
    grammar: &Grammar,
    attributes: &Attributes,
    dispatch: &Dispatch,
    roots: &[Option<ClassId>],
    class: ClassId,
) -> Result<Vec<Created>, Memory>
    ensures { ListsMade grammar.now attributes.now dispatch.now roots.now class result }
{
    let mut list = Vec::new(alloc);
    for number in 0..attributes.len() {
        let attribute = AttrId(number as u16);
        if let Some(created) = created_at(grammar, attributes, dispatch, roots, class, attribute) {
            list.push(created).map_err(|_| Memory)?;
        }
    }
    Ok(list)
}

/// What the attributes make at nodes of each class, among equations that make roots of these classes. It takes one look for an equation for
/// each class and each higher-order attribute.
pub(crate) fn made_by_class(
    alloc: Global,
    grammar: &Grammar,
    attributes: &Attributes,
    dispatch: &Dispatch,
    roots: &[Option<ClassId>],
) -> Result<Vec<Vec<Created>>, Memory>
    ensures long { IfOk result (λ rows. length rows.items ≡ length grammar.now) }
    ensures made { ListsAllMade grammar.now attributes.now dispatch.now roots.now result }
{
    let mut rows = Vec::new(alloc);
    for number in 0..grammar.classes() {
        let class = ClassId(number as u16);
        let row = made_of(alloc, grammar, attributes, dispatch, roots, class)?;
        rows.push(row).map_err(|_| Memory)?;
    }
    Ok(rows)
}
