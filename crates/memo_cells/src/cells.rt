// The cells and their passes.

use crate::view::{Frame, View};
use equation_law::System;
use std::marker::Model;
use std::snapshot::Snapshot;

/// The cells of one system. The words stand in the pass. Of each attribute and query it is kept whether it has truth values.
#[derive(Drop)]
pub struct Cells {
    pub(crate) size: u32,
    pub(crate) system: Snapshot<System>,
    pub(crate) attributes: Vec<bool>,
    pub(crate) queries: Vec<bool>,
}

impl Model for Cells {
    ghost use Rattle.std.specs.Prelude.{◌<◌};
    ghost use Rattle.std.specs.Coded.{codes};
    ghost use Rattle.attr_rules.specs.contracts.expression.TExpr as expressions;
    ghost use Rattle.equation_law.specs.Systems.{program_of};
    ghost use Rattle.memo_cells.specs.declared.view.Frame.{Frame};
    ghost use Rattle.memo_cells.specs.Truths.{AreTruths};
    ghost use Rattle.memo_cells.specs.Views.{framed};

    ghost Value = { Frame };

    ghost coded = { Prim.hlevel (codes, expressions.the_row.coded) };

    ghost view = { λ c. framed c.system c.size };

    ghost invariant = { λ c. (0 < c.size) × AreTruths (program_of c.system.value) c.attributes.items c.queries.items };
}

/// One caller's token. The words stand in it, and what it knows of them: that is told by its own steps, and no byte stands for it.
#[derive(Drop)]
pub struct Pass {
    pub(crate) keys: Vec<u64>,
    pub(crate) values: Vec<u64>,
    pub(crate) size: u32,
    pub(crate) system: Snapshot<System>,
    pub(crate) known: Snapshot<View>,
}

impl Model for Pass {
    ghost use Rattle.std.specs.Prelude.{◌≡◌, ◌<◌, [], length};
    ghost use Rattle.std.specs.Coded.{codes};
    ghost use Rattle.attr_rules.specs.contracts.expression.TExpr as expressions;
    ghost use Rattle.memo_cells.specs.declared.view.View.{View};
    ghost use Rattle.memo_cells.specs.Standing.{AreWords, IsTold};
    ghost use Rattle.memo_cells.specs.Views.{framed};

    ghost Value = { View };

    ghost coded = { Prim.hlevel (codes, expressions.the_row.coded) };

    ghost view = { λ p. p.known.value };

    ghost invariant = { λ p. (0 < p.size) × (length p.keys.items ≡ p.size) × (length p.values.items ≡ p.size) × AreWords (framed p.system p.size) p.known.value.made [] p.keys.items p.values.items × IsTold (framed p.system p.size) p.known.value.made p.keys.items p.values.items p.known.value };
}
