// A grammar and its accessors.
ghost use Rattle.std.specs.Prelude.{◌≡◌, ◌==◌, ◌<◌, ◌≤◌, ◌↔◌, IfSome, IsTrue, length, position, slice_get, Some};
ghost use Rattle.std.specs.Option.{option_map};
ghost use Rattle.superclasses.specs.Superclasses.{nearest_common};
ghost use Rattle.ast_grammar.specs.Grammar.{IsGrammar, IsSubclass, is_sub, most_classes, most_components, nameless, number_of};
ghost use Rattle.ast_grammar.specs.Grammar.{abstract_in, class_named, name_of_class, superclass_of, superclasses_of};
ghost use Rattle.ast_grammar.specs.Grammar.{component_at, component_named, components_of, name_of_component};

use rag_io::Pool;
use std::marker::Model;
use superclasses::Subclasses;

/// The number of a class of a grammar: classes are numbered from 0 in the order of the file.
#[derive(Clone, Copy, Debug, PartialEq, Eq)]
pub struct ClassId(pub u16);

/// What a component is, in the notation of the JastAdd2 manual: a child `A`, a list of children `A*`, an
/// optional child `[A]`, or a token `<A:String>`, `<A:int>` or `<A:boolean>`.
#[derive(Clone, Copy, Debug, PartialEq, Eq)]
pub enum Shape {
    Child,
    List,
    Optional,
    Text,
    Int,
    Truth,
}

/// A component of a class: the number of its name in the grammar's own table of names, its shape, and the class of
/// a child, of the children of a list, or of an optional child. The class of a token is that of number 0, and says nothing.
#[derive(Clone, Copy, Debug, PartialEq, Eq)]
pub struct Component {
    pub name: u32,
    pub shape: Shape,
    pub class: ClassId,
}

// A class with all its components, inherited ones first. The name is a number in the grammar's table of names.
#[derive(Drop)]
pub(crate) struct KeptClass {
    pub is_abstract: bool,
    pub name: u32,
    pub superclass: Option<ClassId>,
    pub components: Vec<Component>,
}

/// An abstract grammar: at least one class and at most 256, with different names, each with at most 16 components of different names,
/// those of its superclass first. No class is its own superclass, directly or through others. What it is asked takes no memory.
#[derive(Drop)]
pub struct Grammar {
    names: Pool,
    subclasses: Subclasses,
    classes: Vec<KeptClass>,
}

impl Model for Grammar {
    ghost use Rattle.std.specs.Prelude.{List};
    ghost use Rattle.ast_grammar.specs.Grammar.{Class};
    ghost use Rattle.ast_grammar.specs.Kept.{grammar_of, IsKept};

    ghost Value = { List Class };

    ghost view = { λ kept. grammar_of kept.names kept.classes.items };

    ghost invariant = { λ kept. IsKept kept.names kept.subclasses kept.classes.items };
}

// The place of the component whose name has this number.
fn place_of(components: &[Component], number: u32) -> Option<usize>
    ensures first { result ≡ position (λ p. p.name == number) components.now }
    ensures within { IfSome result (λ k. k < length components.now) }
{
    components
        .iter()
        .position(|component| component.name == number)
}

impl Grammar {
    ghost use Rattle.ast_grammar.specs.Kept.{grammar_of, IsKept};

    // The grammar of these classes, with their names and superclasses.
    pub(crate) fn of_parts(names: Pool, subclasses: Subclasses, classes: Vec<KeptClass>) -> Grammar
        requires { IsKept names subclasses classes.items }
        ensures { result ≡ grammar_of names classes.items }
    {
        Grammar {
            names,
            subclasses,
            classes,
        }
    }

    /// The number of classes.
    pub fn classes(&self) -> u32
        ensures number { result ≡ length self.now }
        ensures few { result ≤ most_classes }
        ensures allowed { IsGrammar self.now }
    {
        self.classes.len() as u32
    }

    /// The class of the first rule.
    pub fn first_class(&self) -> ClassId
        ensures { result.0 ≡ 0 }
    {
        ClassId(0)
    }

    /// The name of a class, as its rule writes it. This takes constant time.
    pub fn class_name(&self, class: ClassId) -> &[u8]
        requires { class.0 < length self.now }
        ensures { option_map name_of_class (slice_get self.now class.0) ≡ Some result.now }
    {
        self.names.get(self.classes[class.0 as usize].name)
    }

    /// The class of this name, or None where no class of the grammar has it. The time is that of one look-up, however many classes there
    /// are.
    pub fn find_class(&self, name: &[u8]) -> Option<ClassId>
        ensures number { option_map number_of result ≡ class_named self.now name.now }
        ensures within { IfSome result (λ class. class.0 < length self.now) }
    {
        let number = self.names.find(name)?;
        if number == 0 || self.classes.len() < number as usize {
            return None;
        }
        Some(ClassId((number - 1) as u16))
    }

    /// Whether a class is declared `abstract`.
    pub fn is_abstract(&self, class: ClassId) -> bool
        requires { class.0 < length self.now }
        ensures { option_map abstract_in (slice_get self.now class.0) ≡ Some result }
    {
        self.classes[class.0 as usize].is_abstract
    }

    /// The superclass of a class, if it has one.
    pub fn superclass(&self, class: ClassId) -> Option<ClassId>
        requires { class.0 < length self.now }
        ensures { result ≡ superclass_of self.now class.0 }
    {
        self.classes[class.0 as usize].superclass
    }

    /// Whether the first class is the second or a subclass of it, by one or more superclasses. This takes constant time.
    pub fn is_sub(&self, class: ClassId, above: ClassId) -> bool
        ensures flag { result ≡ is_sub self.now class.0 above.0 }
        ensures meaning { IsTrue result ↔ IsSubclass self.now class.0 above.0 }
    {
        self.subclasses.is_sub(class.0 as usize, above.0 as usize)
    }

    /// The nearest class from the first one upwards that the second is or is a subclass of.
    pub fn nearest_common(&self, first: ClassId, second: ClassId) -> Option<ClassId>
        ensures { option_map number_of result ≡ nearest_common (superclasses_of self.now) first.0 second.0 }
    {
        let found = self
            .subclasses
            .nearest_common(first.0 as usize, second.0 as usize)?;
        Some(ClassId(found as u16))
    }

    /// Which classes are subclasses of which, by the numbers of the classes.
    pub fn subclasses(&self) -> &Subclasses
        ensures { result.now ≡ superclasses_of self.now }
    {
        &self.subclasses
    }

    /// How many components a class has, with those of its superclass.
    pub fn arity(&self, class: ClassId) -> u32
        requires { class.0 < length self.now }
        ensures number { result ≡ length (components_of self.now class.0) }
        ensures short { result ≤ most_components }
    {
        self.classes[class.0 as usize].components.len() as u32
    }

    /// A component of a class by its place, from 0: those of the superclass come first, and then those of the rule, in its order.
    pub fn component(&self, class: ClassId, k: u32) -> &Component
        requires known { class.0 < length self.now }
        requires within { k < length (components_of self.now class.0) }
        ensures { option_map nameless (component_at self.now class.0 k) ≡ Some result.now }
    {
        let kept = &self.classes[class.0 as usize];
        &kept.components[k as usize]
    }

    /// The name of a component of a class: a child, a list or an optional without a name of its own is called by its class.
    pub fn component_name(&self, class: ClassId, k: u32) -> &[u8]
        requires known { class.0 < length self.now }
        requires within { k < length (components_of self.now class.0) }
        ensures { option_map name_of_component (component_at self.now class.0 k) ≡ Some result.now }
    {
        let kept = &self.classes[class.0 as usize];
        self.names.get(kept.components[k as usize].name)
    }

    /// The place of the component of this name in a class, or None where it has none. The name is looked up once, and is then compared by
    /// its number.
    pub fn find_component(&self, class: ClassId, name: &[u8]) -> Option<u32>
        requires { class.0 < length self.now }
        ensures { result ≡ component_named self.now class.0 name.now }
    {
        let number = self.names.find(name)?;
        let found = place_of(&self.classes[class.0 as usize].components, number)?;
        Some(found as u32)
    }
}
