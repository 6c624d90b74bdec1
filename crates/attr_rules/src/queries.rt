// Queries.
ghost use Rattle.std.specs.Prelude.{◌≡◌};
ghost use Rattle.attr_rules.specs.Expression.{expression_of};
ghost use Rattle.attr_rules.specs.Queries.{query_of};

use crate::expression::TExpr;
use crate::kinds::Kind;

/// The equation of a query: one typed expression, which is read at the root of the tree, and the type of its values.
#[derive(Drop)]
pub struct QueryEq {
    expression: TExpr,
    kind: Kind,
}

impl QueryEq {
    /// The query that asks for the value of an expression of this type.
    pub fn of(expression: TExpr, kind: Kind) -> QueryEq
        ensures { query_of result ≡ record { body = expression_of expression; kind = kind } }
    {
        QueryEq { expression, kind }
    }

    /// The expression.
    pub fn expression(&self) -> &TExpr
        ensures { expression_of result.now ≡ (query_of self.now).body }
    {
        &self.expression
    }

    /// The type of its values. That of `null` is the first class of the grammar.
    pub fn kind(&self) -> Kind
        ensures { result ≡ (query_of self.now).kind }
    {
        self.kind
    }
}
