// The items of a file of aspects.
use crate::items::Item;

/// The items of some aspects, in the order of the file. Which aspect an item stands in says nothing.
#[derive(Debug, Drop)]
pub struct Aspects {
    pub items: Vec<Item>,
}
