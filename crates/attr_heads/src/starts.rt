// Where the rounds of circular attributes start, and the rule on their declarations: J13.
ghost use Rattle.std.specs.Prelude.{◌≡◌};
ghost use Rattle.std.specs.Option.{option_map};
ghost use Rattle.broken_rules.specs.Notes.{Notes};
ghost use Rattle.attr_rules.specs.Rules.{may_be_circular};
ghost use Rattle.attr_heads.specs.Starts.{are_unlike, has_no_start, is_circular, is_empty, is_false, start_broken, start_declared, start_of, start_where};
ghost use Rattle.aspect_items.specs.Expressions.{seen_expr};
ghost use Rattle.aspect_items.specs.Items.{seen_circular, seen_type};

use aspect_items::{Circular, Expr, Type};
use ast_grammar::Grammar;
use attr_rules::{Kind, Sort, Start};
use attr_scope::type_written;
use broken_rules::{Earliest, Rule};

/// The literal `false`, which stands in no parentheses.
pub(crate) fn is_false(expr: &Expr) -> bool
    ensures { result ≡ is_false (seen_expr expr.now) }
{
    match expr {
        Expr::Truth(_, truth) => !*truth,
        _ => false,
    }
}

/// The literal `empty`, which stands in no parentheses.
pub(crate) fn is_empty(expr: &Expr) -> bool
    ensures { result ≡ is_empty (seen_expr expr.now) }
{
    match expr {
        Expr::Empty(_) => true,
        _ => false,
    }
}

fn start_where(holds: bool, start: Start) -> Option<Start>
    ensures { result ≡ start_where holds start }
{
    if holds { Some(start) } else { None }
}

// Where the rounds of a circular attribute of a type start that has this bottom, if it is one of the type.
fn start_of(kind: Kind, bottom: &Expr) -> Option<Start>
    ensures { result ≡ start_of kind (seen_expr bottom.now) }
{
    match kind {
        Kind::Truth => start_where(is_false(bottom), Start::False),
        Kind::Texts | Kind::Nodes(_) => start_where(is_empty(bottom), Start::Empty),
        Kind::Int | Kind::Text | Kind::Node(_) => None,
    }
}

fn has_no_start(kind: Option<Kind>, bottom: &Expr) -> bool
    ensures { result ≡ has_no_start kind (seen_expr bottom.now) }
{
    match kind {
        None => false,
        Some(kind) => start_of(kind, bottom).is_none(),
    }
}

fn may_be_circular(sort: Sort) -> bool
    ensures { result ≡ may_be_circular sort }
{
    match sort {
        Sort::Syn | Sort::Inh => true,
        Sort::Nta | Sort::Coll => false,
    }
}

/// J13 of a declaration of this sort and type, which may be circular.
pub(crate) fn check_start(
    grammar: &Grammar,
    sort: Sort,
    of: &Type,
    circular: Option<&Circular>,
    faults: &mut Earliest,
)
    ensures { Notes (start_broken grammar.now sort (seen_type of.now) (option_map (λ c. seen_circular c.now) circular.entry)) faults.old faults.new }
{
    let Some(circular) = circular else { return };
    let lacks = has_no_start(type_written(grammar, of), &circular.bottom);
    faults.note_if(!may_be_circular(sort) || lacks, Rule::J13, circular.place);
}

/// Whether it is declared circular.
pub(crate) fn is_circular(circular: Option<&Circular>) -> bool
    ensures { result ≡ is_circular (option_map (λ c. seen_circular c.now) circular.entry) }
{
    circular.is_some()
}

/// Where the rounds start that are declared for an attribute of a type, if any are.
pub(crate) fn start_declared(kind: Kind, circular: Option<&Circular>) -> Start
    ensures { result ≡ start_declared kind (option_map (λ c. seen_circular c.now) circular.entry) }
{
    match circular {
        None => Start::Plain,
        Some(circular) => start_of(kind, &circular.bottom).unwrap_or(Start::Plain),
    }
}

/// One of two holds, and the other doesn't.
pub(crate) fn are_unlike(one: bool, other: bool) -> bool
    ensures { result ≡ are_unlike one other }
{
    if one { !other } else { other }
}
