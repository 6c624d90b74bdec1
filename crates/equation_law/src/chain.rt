// A chain of instances.

use crate::coding::Instance;
use std::marker::Model;

/// Instances, each of which leads to the next.
#[derive(Drop)]
pub struct Chain {
    list: Vec<Instance>,
}

impl Model for Chain {
    ghost use Rattle.std.specs.Prelude.{List};
    ghost use Rattle.equation_law.specs.declared.coding.Instance.{Instance as CodedInstance};

    ghost Value = { List CodedInstance };

    ghost view = { λ chain. chain.list.items };
}

impl Chain {
    ghost use Rattle.std.specs.Prelude.{◌≡◌};

    /// A chain of these instances.
    pub fn new(list: Vec<Instance>) -> Chain
        ensures { result ≡ list.items }
    {
        Chain { list }
    }

    /// The instances, in their order.
    pub fn list(&self) -> &[Instance]
        ensures { result.now ≡ self.now }
    {
        self.list.as_slice()
    }
}
