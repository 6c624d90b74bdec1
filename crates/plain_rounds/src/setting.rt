// What rounds go over.
ghost use Rattle.std.specs.Prelude.{◌≡◌, []};

use crate::places::Places;
use equation_law::{Instance, System};
use made_trees::Makers;

/// What rounds go over: the instances of a list with their first places, and what made the trees to which their nodes belong.
#[derive(Clone, Copy)]
pub(crate) struct Setting<'a> {
    pub(crate) system: &'a System,
    pub(crate) makers: &'a Makers,
    pub(crate) names: &'a [Instance],
    pub(crate) places: &'a Places,
    ghost same: { makers.now.system ≡ system.now },
}

impl<'a> Setting<'a> {
    /// The same system and makers without any instances.
    pub(crate) fn bare<'b>(&self, nowhere: &'b Places) -> Setting<'b>
    where
        'a: 'b,
        ensures system { result.system.now ≡ self.now.system.now }
        ensures makers { result.makers.now ≡ self.now.makers.now }
        ensures names { result.names.now ≡ [] }
        ensures places { result.places.now ≡ nowhere.now }
    {
        Setting {
            system: self.system,
            makers: self.makers,
            names: &[],
            places: nowhere,
        }
    }
}
