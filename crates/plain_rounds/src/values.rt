// Values by what codes stand for.
ghost use Rattle.std.specs.Prelude.{◌≡◌, IfOk, MatchOption};
ghost use Rattle.equation_law.specs.Codes.{Naming};
ghost use Rattle.equation_law.specs.Program.{Program};
ghost use Rattle.equation_law.specs.Values.{Truth, Int, Text, node};
ghost use Rattle.plain_rounds.specs.Named.{IsReadAs, value_in, IsNoTruth, IsNoInt, IsNoText};

use attr_rules::{Kind, TextId};
use equation_law::{Code, NodeRef, TreeImage, Value};
use rag_io::Memory;
use std::alloc::Global;

/// A value. Where a tree is made it is the node at its root, and the tree stands beside it.
#[derive(Drop)]
pub struct NamedValue {
    pub(crate) value: Value,
    pub(crate) image: Option<TreeImage>,
}

/// The same tree once more.
fn image_copy(image: &Option<TreeImage>) -> Result<Option<TreeImage>, Memory>
    ensures { IfOk result (λ copied. copied ≡ image.now) }
{
    match image {
        None => Ok(None),
        Some(image) => Ok(Some(TreeImage {
            equation: image.equation,
            tokens: image.tokens.copy()?,
        })),
    }
}

impl NamedValue {
    ghost use Rattle.equation_law.specs.Codes.{AreElements};
    ghost use Rattle.plain_rounds.specs.Places.{IsHeld};
    ghost use Rattle.std.specs.Prelude.{Some, [], slice_get};
    ghost use Rattle.std.specs.Option.{option_and_then};
    ghost use Rattle.equation_law.specs.declared.coding.TreeImage.{TreeImage as Image};

    /// The truth value, or None exactly where the value is of another kind.
    pub fn truth(&self) -> Option<bool>
        ensures { (p : Program) (n : Naming) → MatchOption result (IsNoTruth (value_in p n self.now)) (λ b. value_in p n self.now ≡ Truth b) }
    {
        match (&self.value, &self.image) {
            (Value::Truth(b), None) => Some(*b),
            _ => None,
        }
    }

    /// The integer, or None exactly where the value is of another kind.
    pub fn int(&self) -> Option<i32>
        ensures { (p : Program) (n : Naming) → MatchOption result (IsNoInt (value_in p n self.now)) (λ z. value_in p n self.now ≡ Int z) }
    {
        match (&self.value, &self.image) {
            (Value::Int(z), None) => Some(*z),
            _ => None,
        }
    }

    /// The number of the text in the pool, or None exactly where the value is of another kind.
    pub fn text(&self) -> Option<TextId>
        ensures { (p : Program) (n : Naming) → MatchOption result (IsNoText (value_in p n self.now)) (λ t. value_in p n self.now ≡ Text (n.text t.0)) }
    {
        match (&self.value, &self.image) {
            (Value::Text(number), None) => Some(*number),
            _ => None,
        }
    }

    /// The code of a token of the tree, by its place among all of the tree.
    pub(crate) fn token(&self, place: u32) -> Option<Code>
        ensures { result ≡ option_and_then (λ (t : Image). slice_get t.tokens place) self.now.image }
    {
        match &self.image {
            Some(image) => image.tokens.get(place),
            None => None,
        }
    }

    /// The same value once more.
    pub(crate) fn copy(&self) -> Result<NamedValue, Memory>
        ensures same { IfOk result (λ copied. (p : Program) (n : Naming) → value_in p n copied ≡ value_in p n self.now) }
        ensures held { IfOk result (λ copied. (p : Program) → IsHeld p (Some self.now) → IsHeld p (Some copied)) }
    {
        let value = self.value.copy()?;
        let image = image_copy(&self.image)?;
        Ok(NamedValue { value, image })
    }

    /// The value read at a type: a value of another type reads as the type's default, and a tree as its root.
    pub(crate) fn read_as(&self, alloc: Global, kind: Kind) -> Result<Value, Memory>
        ensures value { IfOk result (λ read. (p : Program) (n : Naming) → IsHeld p (Some self.now) → n.text 0 ≡ [] → IsReadAs p n kind self.now read) }
        ensures elements { IfOk result (λ read. (p : Program) → IsHeld p (Some self.now) → AreElements p read) }
    {
        let value = self.value.copy()?;
        Ok(value.read_as(alloc, kind))
    }
}
