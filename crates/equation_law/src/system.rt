// A program as the code keeps it.
ghost use Rattle.std.specs.Prelude.{◌≡◌, ◌<◌, ◌≤◌, ℕ, IfOk, Some, length, map, slice_get};
ghost use Rattle.ast_grammar.specs.Grammar.{most_classes};
ghost use Rattle.attr_equations.specs.Kept.{rules_in};
ghost use Rattle.attr_rules.specs.Queries.{query_of};
ghost use Rattle.rag_io.specs.Pool.{ArePooled};
ghost use Rattle.attr_rules.specs.Types.{parameter_kinds};
ghost use Rattle.equation_law.specs.Program.{HangsInside, attribute_parameters, most_replies};
ghost use Rattle.equation_law.specs.Spans.{AreSpans, IsBelow, IsSpan};

use crate::coding::QueryId;
use crate::spans::{Span, Spans, spans_of};
use ast_grammar::{ClassId, Grammar};
use attr_equations::Rules;
use attr_rules::{AttrId, Kind, Params, QueryEq};
use rag_io::{Memory, Pool};
use std::alloc::Global;
use tree_arena::Tree;

/// Queries in order.
#[derive(Drop)]
pub struct Queries {
    list: Vec<QueryEq>,
}

impl Queries {
    ghost use Rattle.equation_law.specs.Systems.{queries_in};

    /// The queries of a list.
    pub fn new(list: Vec<QueryEq>) -> Queries
        ensures { queries_in result ≡ map query_of list.items }
    {
        Queries { list }
    }
}

/// A grammar with its rules, a source tree, the pool of its texts, and queries.
#[derive(Drop)]
pub struct System {
    grammar: Grammar,
    rules: Rules,
    tree: Tree,
    pool: Pool,
    queries: Queries,
    spans: Spans,
    ghost few: { length queries.list.items ≤ most_replies },
    ghost pooled: { ArePooled pool },
    ghost small: { length grammar ≤ most_classes },
    ghost whole: { HangsInside tree },
    ghost spanned: { AreSpans grammar tree spans.firsts.items spans.ends.items },
}

#[tactic(auto, unfolding(crate::specs::Systems::program_of))]
impl System {
    ghost use Rattle.equation_law.specs.Systems.{program_from, program_of, queries_in};

    /// The system of these parts, which were read and checked against each other. There are at most 262,144
    /// queries. It finds the nodes of each class, which takes linear time.
    pub fn new(
        alloc: Global,
        grammar: Grammar,
        rules: Rules,
        tree: Tree,
        pool: Pool,
        queries: Queries,
    ) -> Result<System, Memory>
        requires { length (queries_in queries) ≤ most_replies }
        ensures { IfOk result (λ system. program_of system ≡ program_from grammar rules tree pool queries) }
    {
        // Each pool has the empty text, as its first.
        prove!(pool.len() > 0);
        // A grammar has few classes.
        prove!(grammar.classes() <= 256);
        // Each tree is one of a grammar, and has a root.
        prove!(tree.len() > 0);
        let spans = spans_of(alloc, &grammar, &tree)?;
        Ok(System {
            grammar,
            rules,
            tree,
            pool,
            queries,
            spans,
        })
    }

    /// The grammar.
    pub fn grammar(&self) -> &Grammar
        ensures { result.now ≡ (program_of self.now).grammar }
    {
        &self.grammar
    }

    /// The rules.
    pub fn rules(&self) -> &Rules
        ensures { rules_in result.now ≡ (program_of self.now).rules }
    {
        &self.rules
    }

    /// The parameters of an attribute; one that isn't declared has none.
    pub fn parameters(&self, attribute: AttrId) -> Params
        ensures { parameter_kinds result ≡ attribute_parameters (program_of self.now) attribute.0 }
    {
        if u32::from(attribute.0) < self.rules.attrs() {
            self.rules.attr(attribute).params
        } else {
            Params {
                count: 0,
                first: Kind::Truth,
                second: Kind::Truth,
                third: Kind::Truth,
            }
        }
    }

    /// The source tree.
    pub fn tree(&self) -> &Tree
        ensures { result.now ≡ (program_of self.now).tree }
    {
        &self.tree
    }

    /// The nodes of a class and of its subclasses lie in this span: it begins with the first of them, and ends behind the last. Of a class
    /// that the grammar hasn't, it has all nodes. This takes constant time.
    pub fn span(&self, class: ClassId) -> Span
        ensures all { (n : ℕ) → IsBelow (program_of self.now).grammar (program_of self.now).tree class.0 n → (result.first ≤ n) × (n < result.end) }
        ensures exact { class.0 < length (program_of self.now).grammar → IsSpan (program_of self.now).grammar (program_of self.now).tree class.0 result }
        ensures ordered { result.first ≤ result.end }
        ensures within { result.end ≤ length (program_of self.now).tree }
    {
        let number = class.0 as usize;
        if number < self.spans.ends.len() {
            let first = self.spans.firsts[number];
            let end = self.spans.ends[number];
            return Span { first, end };
        }
        let end = self.tree.len();
        Span { first: 0, end }
    }

    /// The texts of literals and tokens.
    pub fn pool(&self) -> &Pool
        ensures { result.now ≡ (program_of self.now).texts }
    {
        &self.pool
    }

    /// The number of queries.
    pub fn replies(&self) -> u32
        ensures number { result ≡ length (program_of self.now).queries }
        ensures few { result ≤ most_replies }
    {
        self.queries.list.len() as u32
    }

    /// A query by its number.
    pub fn query(&self, n: QueryId) -> &QueryEq
        requires { n.0 < length (program_of self.now).queries }
        ensures { slice_get (program_of self.now).queries n.0 ≡ Some (query_of result.now) }
    {
        &self.queries.list[n.0 as usize]
    }
}
