// Equations that are evaluated: where they are found, and what they come to.
ghost use Rattle.std.specs.Prelude.{◌≡◌, ◌<◌, None, length, IfSome};
ghost use Rattle.attr_rules.specs.Rules.{bodies, body_at};
ghost use Rattle.equation_law.specs.declared.coding.Instance.TheVariants.{Attr as attribute_at, Query as query_at};
ghost use Rattle.equation_law.specs.Codes.{IsCoded, IsRow, instance_of};
ghost use Rattle.equation_law.specs.Created.{making_in};
ghost use Rattle.equation_law.specs.Equations.{is_declared, kind_in};
ghost use Rattle.equation_law.specs.Names.{Query};
ghost use Rattle.equation_law.specs.Reading.{IsSingleIn, IsSound, KnowsInstance};
ghost use Rattle.equation_law.specs.Systems.{program_of};
ghost use Rattle.expr_eval.specs.Reads.{IsReady, state};
ghost use Rattle.expr_eval.specs.Saved.{AreSaved};
ghost use Rattle.inherited_walk.specs.Sites.{FindsIn, KnowsSite};
ghost use Rattle.expr_eval.specs.Evaluating.{KnowsContext};
ghost use Rattle.expr_eval.specs.Sites.{EvaluatesBody, EvaluatesInstance, EvaluatesQuery, EvaluatesSite, ImagesIn, IsImageFor, IsImageOf, IsNoImage, IsTurned, KnowsTarget, ResumesInstance, ResumesQuery, ResumesSite, TurnAs, expression_or_null};

use crate::binding::names_of;
use crate::evaluation::{Context, Halt, attribute_kind, meaning};
use crate::saved::Saved;
use crate::trees::put_tokens;
use attr_rules::{AttrId, EqId, Kind, NewArgs, TExpr};
use equation_law::{
    Args, EqSite, Instance, NodeRef, QueryId, Reader, System, Tokens, TreeImage, Value,
};
use inherited_walk::find_equation;
use rag_io::Memory;
use std::alloc::Global;

/// What an evaluation comes to.
#[derive(Drop)]
pub enum Turn {
    /// The value.
    Done(Value),
    /// The first demand, in order, for which the reader has no value.
    Need(Instance),
    /// The tree that a `new` makes.
    Image(TreeImage),
}

impl Turn {
    /// The same with its value read at a type.
    fn read_as(self, alloc: Global, kind: Kind) -> Turn
        ensures { TurnAs kind self result }
    {
        match self {
            Turn::Done(value) => Turn::Done(value.read_as(alloc, kind)),
            Turn::Need(instance) => Turn::Need(instance),
            Turn::Image(image) => match kind {
                Kind::Node(_) => Turn::Image(image),
                _ => Turn::Done(Value::default_of(alloc, kind)),
            },
        }
    }
}

/// The type of a query's values; of one that isn't there, `boolean`.
fn query_kind(system: &System, query: QueryId) -> Kind
    ensures { result ≡ kind_in (program_of system.now) (Query query.0) }
{
    if query.0 < system.replies() {
        system.query(query).kind()
    } else {
        Kind::Truth
    }
}

/// The type of an instance's values; of what is no instance of the system, `boolean`.
pub fn kind_of(system: &System, i: &Instance) -> Kind
    ensures { result ≡ kind_in (program_of system.now) (instance_of (program_of system.now) i.now) }
{
    match i {
        Instance::Attr { attr, .. } => attribute_kind(system, *attr),
        Instance::Query(query) => query_kind(system, *query),
    }
}

/// Whether an instance is of an attribute that is declared circular.
pub fn is_declared(system: &System, i: &Instance) -> bool
    ensures { result ≡ is_declared (program_of system.now) (instance_of (program_of system.now) i.now) }
{
    match i {
        Instance::Attr { attr, .. } => system.rules().attributes().is_circular(*attr),
        Instance::Query(_) => false,
    }
}

/// What an evaluation of an expression is to callers.
fn turned(came: Result<Value, Halt>) -> Result<Turn, Memory>
    ensures is { IsTurned came result }
    ensures plain { IsNoImage result }
{
    match came {
        Ok(value) => Ok(Turn::Done(value)),
        Err(Halt::Need(instance)) => Ok(Turn::Need(instance)),
        Err(Halt::Memory) => Err(Memory),
    }
}

/// The tree that a `new` makes which is the right side of an equation.
fn image<'a, R: Reader>(
    context: &Context<'_>,
    equation: EqId,
    parts: &'a NewArgs,
    reader: &mut R,
    saved: &mut Saved<'a>,
) -> Result<Turn, Memory>
    requires ready { IsReady (program_of context.now.system.now) (state context.now.system.now (R.tells reader.old) saved.old) }
    requires known { KnowsContext (R.tells reader.old) context.now }
    ensures images { ImagesIn context.now (R.tells reader.old) saved.old (R.tells reader.new) saved.new equation parts.now result }
    ensures made { IsImageOf equation.0 result }
{
    let mut tokens = Tokens::new(context.alloc);
    match put_tokens(context, parts, reader, saved, &mut tokens) {
        Ok(()) => Ok(Turn::Image(TreeImage { equation, tokens })),
        Err(halt) => turned(Err(halt)),
    }
}

/// The meaning of the equation of a site, read for an attribute of these parameters, under what a reader has at the end of the call, or the
/// first demand that it has no value for.
fn evaluate_for<'a, R: Reader>(
    alloc: Global,
    system: &'a System,
    attr: AttrId,
    site: &EqSite,
    reader: &mut R,
    saved: &mut Saved<'a>,
) -> Result<Turn, Memory>
    requires equation { site.now.equation.0 < length (bodies (program_of system.now).rules) }
    requires inner { IsRow site.now.inner }
    requires outer { IsRow site.now.outer }
    requires known { KnowsSite (program_of system.now) (R.tells reader.old) attr.0 site.now }
    requires ready { IsReady (program_of system.now) (state system.now (R.tells reader.old) saved.old) }
    ensures reads { ResumesSite system.now (R.tells reader.old) saved.old (R.tells reader.new) saved.new attr.0 site.now result }
    ensures plain { making_in (expression_or_null (body_at (program_of system.now).rules site.now.equation.0)) ≡ None → IsNoImage result }
    ensures made { IsImageOf site.now.equation.0 result }
{
    let Ok(names) = names_of(alloc, system, attr, site) else {
        return Err(Memory);
    };
    let context = Context {
        alloc,
        system,
        this: site.node,
        names: &names,
    };
    let body = system.rules().body(site.equation);
    match body {
        TExpr::New(_, parts) => image(&context, site.equation, parts, reader, saved),
        _ => {
            let mut came = Err(Halt::Memory);
            meaning(&context, body, reader, saved, &mut came);
            turned(came)
        }
    }
}

/// The meaning of the equation of a site under what a reader has at the end of the call, or the first demand that it has no value for. The
/// reader knows where the equation is read.
pub fn evaluate<R: Reader>(
    alloc: Global,
    system: &System,
    site: &EqSite,
    reader: &mut R,
) -> Result<Turn, Memory>
    requires equation { site.now.equation.0 < length (program_of system.now).rules.equations }
    requires inner { IsRow site.now.inner }
    requires outer { IsRow site.now.outer }
    requires known { KnowsTarget (program_of system.now) (R.tells reader.old) site.now }
    requires sound { IsSound (program_of system.now) (R.tells reader.old) }
    ensures evaluates { EvaluatesSite (program_of system.now) (R.tells reader.old) (R.tells reader.new) site.now result }
    ensures made { IsImageOf site.now.equation.0 result }
{
    let attr = system.rules().target(site.equation).attribute;
    let mut saved = Saved::new(alloc);
    evaluate_for(alloc, system, attr, site, reader, &mut saved)
}

/// The meaning of a query's expression, which is read at the root, in the same way.
fn asked<'a, R: Reader>(
    alloc: Global,
    system: &'a System,
    query: QueryId,
    reader: &mut R,
    saved: &mut Saved<'a>,
) -> Result<Turn, Memory>
    requires query { query.0 < length (program_of system.now).queries }
    requires ready { IsReady (program_of system.now) (state system.now (R.tells reader.old) saved.old) }
    ensures resumes { ResumesQuery system.now (R.tells reader.old) saved.old (R.tells reader.new) saved.new query.0 result }
    ensures plain { IsNoImage result }
{
    // The first code is that of the root.
    let context = Context {
        alloc,
        system,
        this: NodeRef(1),
        names: &[],
    };
    let mut came = Err(Halt::Memory);
    meaning(
        &context,
        system.query(query).expression(),
        reader,
        saved,
        &mut came,
    );
    turned(came)
}

/// The meaning of a query's expression, which is read at the root, under what a reader has at the end of the call, or the first demand that it
/// has no value for.
pub fn evaluate_query<R: Reader>(
    alloc: Global,
    system: &System,
    query: QueryId,
    reader: &mut R,
) -> Result<Turn, Memory>
    requires query { query.0 < length (program_of system.now).queries }
    requires sound { IsSound (program_of system.now) (R.tells reader.old) }
    ensures evaluates { EvaluatesQuery (program_of system.now) (R.tells reader.old) (R.tells reader.new) query.0 result }
    ensures plain { IsNoImage result }
{
    let mut saved = Saved::new(alloc);
    asked(alloc, system, query, reader, &mut saved)
}

/// Goes on with the evaluation of an expression of the rules, which is read without names at a node that the reader knows.
pub fn resume_body<'a, R: Reader>(
    alloc: Global,
    system: &'a System,
    expression: EqId,
    node: NodeRef,
    reader: &mut R,
    saved: &mut Saved<'a>,
) -> Result<Turn, Memory>
    requires known { expression.0 < length (bodies (program_of system.now).rules) }
    requires node { (R.tells reader.old).knows node.0 }
    requires sound { IsSound (program_of system.now) (R.tells reader.old) }
    requires saved { AreSaved system.now (R.tells reader.old) saved.old }
    ensures evaluates { EvaluatesBody (program_of system.now) (R.tells reader.old) (R.tells reader.new) expression.0 node.0 result }
    ensures plain { IsNoImage result }
    ensures saved { AreSaved system.now (R.tells reader.new) saved.new }
{
    let context = Context {
        alloc,
        system,
        this: node,
        names: &[],
    };
    let mut came = Err(Halt::Memory);
    meaning(
        &context,
        system.rules().body(expression),
        reader,
        saved,
        &mut came,
    );
    turned(came)
}

/// What the equation of an attribute at a node comes to, where it is found.
fn at_site<'a, R: Reader>(
    alloc: Global,
    system: &'a System,
    attr: AttrId,
    node: NodeRef,
    args: Args,
    site: Option<EqSite>,
    reader: &mut R,
    saved: &mut Saved<'a>,
) -> Result<Turn, Memory>
    requires ready { IsReady (program_of system.now) (state system.now (R.tells reader.old) saved.old) }
    requires single { IsSingleIn (program_of system.now) (R.tells reader.old) (attribute_at attr node args) }
    requires found { FindsIn (program_of system.now) (R.tells reader.old) attr node args site }
    requires rows { IfSome site (λ s. IsRow s.outer × IsRow s.inner) }
    requires known { IfSome site (KnowsSite (program_of system.now) (R.tells reader.old) attr.0) }
    ensures resumes { ResumesInstance system.now (R.tells reader.old) saved.old (R.tells reader.new) saved.new (attribute_at attr node args) result }
    ensures made { IsImageFor (program_of system.now) (R.tells reader.new) (attribute_at attr node args) result }
{
    match site {
        None => Ok(Turn::Done(Value::Node(NodeRef(0)))),
        Some(site) => {
            let turn = evaluate_for(alloc, system, attr, &site, reader, saved)?;
            Ok(turn.read_as(alloc, attribute_kind(system, attr)))
        }
    }
}

/// What the equation of an attribute at a node comes to.
fn evaluate_attribute<'a, R: Reader>(
    alloc: Global,
    system: &'a System,
    attr: AttrId,
    node: NodeRef,
    args: Args,
    reader: &mut R,
    saved: &mut Saved<'a>,
) -> Result<Turn, Memory>
    requires ready { IsReady (program_of system.now) (state system.now (R.tells reader.old) saved.old) }
    requires row { IsRow args }
    requires known { KnowsInstance (program_of system.now) (R.tells reader.old) (attribute_at attr node args) }
    requires single { IsSingleIn (program_of system.now) (R.tells reader.old) (attribute_at attr node args) }
    ensures resumes { ResumesInstance system.now (R.tells reader.old) saved.old (R.tells reader.new) saved.new (attribute_at attr node args) result }
    ensures made { IsImageFor (program_of system.now) (R.tells reader.new) (attribute_at attr node args) result }
{
    let site = find_equation(system, attr, node, args, reader);
    at_site(alloc, system, attr, node, args, site, reader, saved)
}

/// What a query comes to.
fn evaluate_asked<'a, R: Reader>(
    alloc: Global,
    system: &'a System,
    query: QueryId,
    reader: &mut R,
    saved: &mut Saved<'a>,
) -> Result<Turn, Memory>
    requires { IsReady (program_of system.now) (state system.now (R.tells reader.old) saved.old) }
    ensures resumes { ResumesInstance system.now (R.tells reader.old) saved.old (R.tells reader.new) saved.new (query_at query) result }
    ensures plain { IsNoImage result }
{
    if query.0 >= system.replies() {
        return Ok(Turn::Done(Value::Node(NodeRef(0))));
    }
    let turn = asked(alloc, system, query, reader, saved)?;
    Ok(turn.read_as(alloc, system.query(query).kind()))
}

/// Goes on with the evaluation of what the equation of an instance comes to: the value is that of its expression, read at the instance's type,
/// under what the reader has at the end of the call. What an earlier evaluation left behind is taken up, and what this one leaves behind is
/// saved: no form over elements goes over one of them again that it has done with. What is no instance of the system counts as null. It needs an
/// instance that is no collection, and of which the reader knows the nodes.
pub fn resume_instance<'a, R: Reader>(
    alloc: Global,
    system: &'a System,
    i: &Instance,
    reader: &mut R,
    saved: &mut Saved<'a>,
) -> Result<Turn, Memory>
    requires sound { IsSound (program_of system.now) (R.tells reader.old) }
    requires saved { AreSaved system.now (R.tells reader.old) saved.old }
    requires coded { IsCoded (program_of system.now) i.now }
    requires known { KnowsInstance (program_of system.now) (R.tells reader.old) i.now }
    requires single { IsSingleIn (program_of system.now) (R.tells reader.old) i.now }
    ensures evaluates { EvaluatesInstance (program_of system.now) (R.tells reader.old) (R.tells reader.new) i.now result }
    ensures made { IsImageFor (program_of system.now) (R.tells reader.new) i.now result }
    ensures saved { AreSaved system.now (R.tells reader.new) saved.new }
{
    match i {
        Instance::Attr { attr, node, args } => {
            evaluate_attribute(alloc, system, *attr, *node, *args, reader, saved)
        }
        Instance::Query(query) => evaluate_asked(alloc, system, *query, reader, saved),
    }
}

/// The same as `resume_instance` of an attribute at a node, whose equation was found already. The reader knows where that is read.
pub fn resume_at<'a, R: Reader>(
    alloc: Global,
    system: &'a System,
    attr: AttrId,
    node: NodeRef,
    args: Args,
    site: Option<EqSite>,
    reader: &mut R,
    saved: &mut Saved<'a>,
) -> Result<Turn, Memory>
    requires sound { IsSound (program_of system.now) (R.tells reader.old) }
    requires saved { AreSaved system.now (R.tells reader.old) saved.old }
    requires single { IsSingleIn (program_of system.now) (R.tells reader.old) (attribute_at attr node args) }
    requires found { FindsIn (program_of system.now) (R.tells reader.old) attr node args site }
    requires rows { IfSome site (λ s. IsRow s.outer × IsRow s.inner) }
    requires known { IfSome site (KnowsSite (program_of system.now) (R.tells reader.old) attr.0) }
    ensures evaluates { EvaluatesInstance (program_of system.now) (R.tells reader.old) (R.tells reader.new) (attribute_at attr node args) result }
    ensures made { IsImageFor (program_of system.now) (R.tells reader.new) (attribute_at attr node args) result }
    ensures saved { AreSaved system.now (R.tells reader.new) saved.new }
{
    at_site(alloc, system, attr, node, args, site, reader, saved)
}

/// What the equation of an instance that is no collection comes to: the value is that of its expression, read at the instance's type. What is no
/// instance of the system counts as null. The reader knows the nodes in the instance.
pub fn evaluate_instance<R: Reader>(
    alloc: Global,
    system: &System,
    i: &Instance,
    reader: &mut R,
) -> Result<Turn, Memory>
    requires sound { IsSound (program_of system.now) (R.tells reader.old) }
    requires coded { IsCoded (program_of system.now) i.now }
    requires known { KnowsInstance (program_of system.now) (R.tells reader.old) i.now }
    requires single { IsSingleIn (program_of system.now) (R.tells reader.old) i.now }
    ensures evaluates { EvaluatesInstance (program_of system.now) (R.tells reader.old) (R.tells reader.new) i.now result }
    ensures made { IsImageFor (program_of system.now) (R.tells reader.new) i.now result }
{
    let mut saved = Saved::new(alloc);
    resume_instance(alloc, system, i, reader, &mut saved)
}
