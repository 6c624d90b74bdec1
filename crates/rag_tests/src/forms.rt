// Expressions that no text says, with numbers of texts, nodes and components that there aren't, and sets that no expression makes.
ghost use Rattle.std.specs.Prelude.{◌≡◌, ◌≤◌, All, IfOk, [], length};
ghost use Rattle.attr_equations.specs.Kept.{rules_in};
ghost use Rattle.attr_rules.specs.Rules.{bodies};
ghost use Rattle.equation_law.specs.Checked.{HasSourcesAlone};
ghost use Rattle.equation_law.specs.Program.{most_replies};
ghost use Rattle.equation_law.specs.Systems.{program_of};
ghost use Rattle.rag_tests.specs.Nothing.{AsksNone, MakesNone};

use crate::programs::{grammar_of, tree_of};
use ast_grammar::{ClassId, Grammar};
use attr_equations::Rules;
use attr_rules::{
    AttrId, Attributes, Dispatch, Kind, Operator, Part, QueryEq, SetOperator, TExpr, TextId,
};
use broken_rules::ReadFault;
use code_sets::Codes;
use equation_law::{Code, Instance, NodeRef, Queries, QueryId, Reader, Single, System, Up, Value};
use expr_eval::{Turn, evaluate_query};
use rag_io::Memory;
use set_values::{set_operate, size};
use std::alloc::{AllocFailed, Global};
use std::cmp::Ordering;

/// A reader that has no value, and so has nothing of a tree that an attribute makes.
#[derive(Drop)]
pub(crate) struct Nothing<'a> {
    pub(crate) system: &'a System,
}

impl Reader for Nothing<'_> {
    ghost use Rattle.equation_law.specs.Systems.{program_of};
    ghost use Rattle.rag_tests.specs.Nothing.{nothing};

    ghost tells = { λ reader. nothing (program_of reader.system.now) };

    fn settled(&mut self, _alloc: Global, _i: &Instance) -> Result<Option<Value>, Memory> {
        Ok(None)
    }

    fn made_class(&mut self, _node: NodeRef) -> ClassId {
        ClassId(u16::MAX)
    }

    fn made_child(&mut self, _node: NodeRef, _component: u32) -> NodeRef {
        NodeRef(0)
    }

    fn made_token(&mut self, _node: NodeRef, _component: u32) -> Code {
        0
    }

    fn made_up(&mut self, _node: NodeRef) -> Up {
        Up::Owner {
            node: NodeRef(0),
            attr: AttrId(0),
        }
    }

    fn made_arg(&mut self, _node: NodeRef, _k: u32) -> Code {
        0
    }

    fn made_order(&mut self, a: NodeRef, b: NodeRef) -> Ordering {
        a.0.cmp(&b.0)
    }
}

const GRAMMAR: &str =
    "P ::= l:E [o:E] [n:E] s:E* e:E*; abstract E ::= <V:int> <T:String> <F:boolean>; A : E; B : E; C : A;";

// The texts "x" and "y" have the numbers 1 and 2.
const TREE: &str =
    "P(A(-5, \"x\", true), [B(7, \"y\", false)], [], [C(1, \"x\", false), B(2, \"\", true)], [])";

// A form of two numbers: of two texts, or of a component or a class and a node.
enum Form {
    // Whether two texts are equal, whether the set of the first has the second, and how many both are together.
    Same,
    Contains,
    Both,
    // The child, whether there is one, the element at a place, how many there are, the token, and the size of a set that is made over the list.
    Child,
    Has,
    Element(i32),
    Count,
    Token(Kind),
    Each,
    // The node where it is of the class, and whether it is.
    Cast(ClassId),
    Is(ClassId),
    // A name that no form binds.
    Variable,
}

type Failed = AllocFailed<TExpr>;

// The set of one text.
fn single(alloc: Global, text: u32) -> Result<Box<TExpr>, Failed> {
    let text = Box::new(alloc, TExpr::Text(TextId(text)))?;
    Box::new(alloc, TExpr::Single(text))
}

// An expression over two texts.
fn of_texts(alloc: Global, form: &Form, first: u32, second: u32) -> Result<TExpr, Failed>
    ensures { IfOk result MakesNone }
{
    match form {
        Form::Contains => {
            let set = single(alloc, first)?;
            let other = Box::new(alloc, TExpr::Text(TextId(second)))?;
            Ok(TExpr::Contains(set, other))
        }
        Form::Both => {
            let set = single(alloc, first)?;
            let other = single(alloc, second)?;
            let both = TExpr::Sets(SetOperator::Union, Kind::Texts, set, other);
            Ok(TExpr::Size(Box::new(alloc, both)?))
        }
        _ => {
            let text = Box::new(alloc, TExpr::Text(TextId(first)))?;
            let other = Box::new(alloc, TExpr::Text(TextId(second)))?;
            Ok(TExpr::Binary(Operator::Equal, text, other))
        }
    }
}

fn expression(alloc: Global, form: &Form, k: u32, n: u32) -> Result<TExpr, Failed>
    ensures { IfOk result MakesNone }
{
    let owner = Box::new(alloc, TExpr::Source(n))?;
    match form {
        Form::Same | Form::Contains | Form::Both => of_texts(alloc, form, k, n),
        Form::Child => Ok(TExpr::Child(Part(k), owner)),
        Form::Has => Ok(TExpr::Has(Part(k), owner)),
        Form::Element(place) => {
            let place = Box::new(alloc, TExpr::Int(*place))?;
            Ok(TExpr::Element(Part(k), owner, place))
        }
        Form::Count => Ok(TExpr::Count(Part(k), owner)),
        Form::Token(kind) => Ok(TExpr::Token(*kind, Part(k), owner)),
        Form::Each => {
            let each = TExpr::Each(Kind::Texts, Part(k), owner, single(alloc, 1)?);
            Ok(TExpr::Size(Box::new(alloc, each)?))
        }
        Form::Cast(class) => Ok(TExpr::Cast(*class, owner)),
        Form::Is(class) => Ok(TExpr::InstanceOf(*class, owner)),
        Form::Variable => Ok(TExpr::Variable(k as usize)),
    }
}

const NULL: Single = Single::Node(NodeRef(0));

// Expressions and their values. What is no number of a text counts as the empty one, and what isn't there as the type's default.
const FORMS: [(Form, u32, u32, Single); 34] = [
    (Form::Same, 9, 0, Single::Truth(true)),
    (Form::Same, 0, 9, Single::Truth(true)),
    (Form::Same, 9, 1, Single::Truth(false)),
    (Form::Contains, 0, 9, Single::Truth(true)),
    (Form::Contains, 9, 0, Single::Truth(true)),
    (Form::Contains, 9, 1, Single::Truth(false)),
    (Form::Both, 9, 0, Single::Int(1)),
    (Form::Both, 9, 2, Single::Int(2)),
    // A child that there is; a list, a component that the class hasn't, a token, and a node that there isn't.
    (Form::Child, 1, 0, Single::Node(NodeRef(3))),
    (Form::Child, 4, 0, NULL),
    (Form::Child, 5, 0, NULL),
    (Form::Child, 0, 1, NULL),
    (Form::Child, 0, 9, NULL),
    (Form::Has, 1, 0, Single::Truth(true)),
    (Form::Has, 4, 0, Single::Truth(false)),
    (Form::Has, 5, 0, Single::Truth(false)),
    (Form::Has, 0, 1, Single::Truth(false)),
    (Form::Has, 0, 9, Single::Truth(false)),
    (Form::Element(1), 3, 0, Single::Node(NodeRef(5))),
    (Form::Element(0), 3, 9, NULL),
    (Form::Count, 3, 0, Single::Int(2)),
    (Form::Count, 5, 0, Single::Int(0)),
    (Form::Count, 0, 1, Single::Int(0)),
    (Form::Count, 3, 1, Single::Int(0)),
    (Form::Count, 3, 9, Single::Int(0)),
    (Form::Token(Kind::Text), 1, 2, Single::Text(TextId(2))),
    (Form::Token(Kind::Int), 0, 0, Single::Int(0)),
    (Form::Token(Kind::Int), 3, 1, Single::Int(0)),
    (Form::Token(Kind::Text), 1, 9, Single::Text(TextId(0))),
    (Form::Each, 3, 0, Single::Int(1)),
    (Form::Each, 3, 1, Single::Int(0)),
    (Form::Cast(ClassId(1)), 0, 9, NULL),
    (Form::Is(ClassId(1)), 0, 9, Single::Truth(false)),
    (Form::Variable, 0, 0, NULL),
];

fn queries_of_forms(alloc: Global) -> Result<Vec<QueryEq>, ReadFault>
    ensures { IfOk result (λ queries. All AsksNone queries.items) }
{
    let mut queries = Vec::new(alloc);
    for (form, k, n, _) in &FORMS {
        let query = expression(alloc, form, *k, *n)?;
        queries.push(QueryEq::of(query, Kind::Truth))?;
    }
    Ok(queries)
}

// No attribute and no equation.
fn no_rules(alloc: Global, grammar: &Grammar) -> Result<Rules, Memory>
    ensures { IfOk result (λ rules. bodies (rules_in rules) ≡ []) }
{
    let attributes = Attributes::of_list(alloc, grammar, &[])?;
    let dispatch = Dispatch::of_targets(alloc, grammar, 0, &[])?;
    Rules::of_parts(
        alloc,
        attributes,
        dispatch,
        Vec::new(alloc),
        Vec::new(alloc),
    )
}

fn system_of(alloc: Global, queries: Vec<QueryEq>) -> Result<System, ReadFault>
    requires few { length queries.items ≤ most_replies }
    requires none { All AsksNone queries.items }
    ensures { IfOk result (λ system. HasSourcesAlone (program_of system)) }
{
    let grammar = grammar_of(alloc, GRAMMAR)?;
    let rules = no_rules(alloc, &grammar)?;
    let (tree, pool) = tree_of(alloc, &grammar, TREE)?;
    // No tree has more nodes.
    prove!(tree.len() <= 65_536);
    let queries = Queries::new(queries);
    Ok(System::new(alloc, grammar, rules, tree, pool, queries)?)
}

// The first of these expressions that has another value.
fn other_form(alloc: Global, system: &System) -> Result<Option<u32>, Memory>
    requires { HasSourcesAlone (program_of system.now) }
{
    for query in 0..system.replies() {
        let turn = evaluate_query(alloc, system, QueryId(query), &mut Nothing { system })?;
        let is_value = match (&turn, FORMS.get(query as usize)) {
            (Turn::Done(value), Some((_, _, _, want))) => value.single() == Some(*want),
            _ => false,
        };
        if !is_value {
            return Ok(Some(query));
        }
    }
    Ok(None)
}

// How many expressions there are, and the first that has another value.
fn found_of_forms(alloc: Global) -> Result<(u32, Result<Option<u32>, Memory>), ReadFault> {
    let queries = queries_of_forms(alloc)?;
    if queries.len() > 262_144 {
        return Err(ReadFault::Memory);
    }
    let system = system_of(alloc, queries)?;
    Ok((system.replies(), other_form(alloc, &system)))
}

#[test]
fn what_there_is_not_has_default_values(rt: HostRuntime) {
    assert_eq!(rt; found_of_forms(rt.alloc()), Ok((34, Ok(None))));
}

const NODES: Kind = Kind::Nodes(ClassId(0));

// How many elements the union of the sets of two nodes has, which is read at a type: at another one they count as empty.
const PAIRS: [(Kind, u32, u32, i32); 4] = [
    (NODES, 2, 3, 2),
    (NODES, 2, 2, 1),
    (Kind::Texts, 2, 3, 0),
    (Kind::Int, 2, 3, 0),
];

// The first of these unions that has another number of elements.
fn other_pair(alloc: Global) -> Result<Option<usize>, Memory> {
    for (k, (kind, first, second, want)) in PAIRS.iter().enumerate() {
        let first = Value::Nodes(Codes::one(alloc, *first)?);
        let second = Value::Nodes(Codes::one(alloc, *second)?);
        let set = set_operate(alloc, SetOperator::Union, *kind, first, second)?;
        if size(&set) != *want {
            return Ok(Some(k));
        }
    }
    Ok(None)
}

// The type of a query, and whether it is `this`.
fn kept_query() -> (Kind, bool) {
    let query = QueryEq::of(TExpr::This, Kind::Node(ClassId(3)));
    (query.kind(), matches!(query.expression(), TExpr::This))
}

#[test]
fn other_values_have_no_elements(rt: HostRuntime) {
    let sizes = (
        size(&Value::Text(TextId(1))),
        size(&Value::Node(NodeRef(1))),
    );
    let found = (other_pair(rt.alloc()), sizes, kept_query());
    assert_eq!(rt; found, (Ok(None), (0, 0), (Kind::Node(ClassId(3)), true)));
}
