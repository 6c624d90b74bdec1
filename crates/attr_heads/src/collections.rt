// Collections, and the rules on their declarations: J2 and J13.
ghost use Rattle.std.specs.Prelude.{◌≡◌};
ghost use Rattle.std.specs.Option.{option_and_then, option_map};
ghost use Rattle.broken_rules.specs.Notes.{Notes};
ghost use Rattle.attr_heads.specs.Collections.{class_of_name, collecting_declared, collection_broken, collects_as, has_no_row, is_row, is_row_by, is_true, is_zero, method_named, method_written, root_broken};
ghost use Rattle.attr_rules.specs.Rules.{is_single};
ghost use Rattle.attr_rules.specs.Types.{int_kind, truth_kind};
ghost use Rattle.aspect_items.specs.Expressions.{seen_expr, seen_name};
ghost use Rattle.aspect_items.specs.Items.{seen_collection, seen_type};

use crate::starts::{is_empty, is_false};
use aspect_items::{Collection, Expr, Name, Type};
use ast_grammar::{ClassId, Grammar};
use attr_rules::{Collecting, Kind, Method};
use attr_scope::{check_class, type_written};
use broken_rules::{Earliest, Rule};

// The literal `true`, which stands in no parentheses.
fn is_true(expr: &Expr) -> bool
    ensures { result ≡ is_true (seen_expr expr.now) }
{
    match expr {
        Expr::Truth(_, truth) => *truth,
        _ => false,
    }
}

// A literal of the value 0, which stands in no parentheses.
fn is_zero(expr: &Expr) -> bool
    ensures { result ≡ is_zero (seen_expr expr.now) }
{
    match expr {
        Expr::Int(_, number) => *number == 0,
        _ => false,
    }
}

// The method of a name.
fn method_named(name: &[u8]) -> Option<Method>
    ensures { result ≡ method_named name.now }
{
    if name == b"add".as_slice() {
        Some(Method::Add)
    } else if name == b"addAll".as_slice() {
        Some(Method::AddAll)
    } else if name == b"sum".as_slice() {
        Some(Method::Sum)
    } else if name == b"or".as_slice() {
        Some(Method::Or)
    } else if name == b"and".as_slice() {
        Some(Method::And)
    } else {
        None
    }
}

// The method that is written. Where none is, it is `add`.
fn method_written(method: &Option<Name>) -> Option<Method>
    ensures { result ≡ method_written (option_map seen_name method.now) }
{
    match method {
        None => Some(Method::Add),
        Some(name) => method_named(&name.text),
    }
}

fn is_single(kind: Kind) -> bool
    ensures { result ≡ is_single kind }
{
    match kind {
        Kind::Truth | Kind::Int | Kind::Text | Kind::Node(_) => true,
        Kind::Texts | Kind::Nodes(_) => false,
    }
}

fn is_int(kind: Kind) -> bool
    ensures { result ≡ int_kind kind }
{
    matches!(kind, Kind::Int)
}

fn is_truth(kind: Kind) -> bool
    ensures { result ≡ truth_kind kind }
{
    matches!(kind, Kind::Truth)
}

// The type, the fresh value and the method of a collection go together.
fn is_row(kind: Kind, fresh: &Expr, method: Method) -> bool
    ensures { result ≡ is_row kind (seen_expr fresh.now) method }
{
    match method {
        Method::Add | Method::AddAll => !is_single(kind) && is_empty(fresh),
        Method::Sum => is_int(kind) && is_zero(fresh),
        Method::Or => is_truth(kind) && is_false(fresh),
        Method::And => is_truth(kind) && is_true(fresh),
    }
}

fn is_row_by(kind: Kind, fresh: &Expr, method: Option<Method>) -> bool
    ensures { result ≡ is_row_by kind (seen_expr fresh.now) method }
{
    let Some(method) = method else { return false };
    is_row(kind, fresh, method)
}

// They don't, where the type is known.
fn has_no_row(kind: Option<Kind>, collection: &Collection) -> bool
    ensures { result ≡ has_no_row kind (seen_collection collection.now) }
{
    match kind {
        None => false,
        Some(kind) => {
            let method = method_written(&collection.method);
            !is_row_by(kind, &collection.fresh, method)
        }
    }
}

// J2 at the name behind `root`, where one is written.
fn check_root(grammar: &Grammar, root: &Option<Name>, faults: &mut Earliest)
    ensures { Notes (root_broken grammar.now (option_map seen_name root.now)) faults.old faults.new }
{
    if let Some(name) = root {
        check_class(grammar, name, faults);
    }
}

/// J13 and J2 of a declaration of this type, which may be a collection.
pub(crate) fn check_collection(
    grammar: &Grammar,
    of: &Type,
    collection: Option<&Collection>,
    faults: &mut Earliest,
)
    ensures { Notes (collection_broken grammar.now (seen_type of.now) (option_map (λ c. seen_collection c.now) collection.entry)) faults.old faults.new }
{
    let Some(collection) = collection else { return };
    let has_none = has_no_row(type_written(grammar, of), collection);
    faults.note_if(has_none, Rule::J13, collection.name.place);
    check_root(grammar, &collection.root, faults);
}

// The class of a name, where one is written and there is one.
fn root_class(grammar: &Grammar, root: &Option<Name>) -> Option<ClassId>
    ensures { result ≡ option_and_then (class_of_name grammar.now) (option_map seen_name root.now) }
{
    match root {
        Some(name) => grammar.find_class(&name.text),
        None => None,
    }
}

// How a collection collects. What is no method counts as `add`.
fn collects_as(grammar: &Grammar, collection: &Collection) -> Collecting
    ensures { result ≡ collects_as grammar.now (seen_collection collection.now) }
{
    let method = method_written(&collection.method);
    Collecting {
        method: method.unwrap_or(Method::Add),
        root: root_class(grammar, &collection.root),
    }
}

/// How what is declared collects, where it is a collection.
pub(crate) fn collecting_declared(
    grammar: &Grammar,
    collection: Option<&Collection>,
) -> Option<Collecting>
    ensures { result ≡ collecting_declared grammar.now (option_map (λ c. seen_collection c.now) collection.entry) }
{
    Some(collects_as(grammar, collection?))
}
