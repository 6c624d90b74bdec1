// Which items are evaluated so far: those whose values are no trees of their own.
ghost use Rattle.std.specs.Prelude.{◌≡◌, map};
ghost use Rattle.built_forms.specs.Built.{all_built, is_built_item};
ghost use Rattle.aspect_items.specs.Items.{seen_aspects, seen_item};

use aspect_items::{Aspects, Item};

fn is_built_item(item: &Item) -> bool
    ensures { result ≡ is_built_item (seen_item item.now) }
{
    match item {
        Item::Synthesized(declared) => !declared.higher_order,
        Item::Inherited(_) | Item::Collection(_) | Item::Equation(_) | Item::Contribution(_) => {
            true
        }
    }
}

/// Whether every item is evaluated so far: whether none declares a higher-order attribute.
pub fn built(aspects: &Aspects) -> bool
    ensures { result ≡ all_built (seen_aspects aspects.now) }
{
    for item in &aspects.items {
        if !is_built_item(item) {
            return false;
        }
    }
    true
}
