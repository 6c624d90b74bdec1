// The classes for which a name is declared.
ghost use Rattle.std.specs.Prelude.{◌≡◌, ◌++◌, ◌∷◌, [], IfOk, None, OnOk, position};
ghost use Rattle.std.specs.Str.{bytes_eq};
ghost use Rattle.std.specs.List.{list_any};
ghost use Rattle.attr_heads.specs.DeclaredNames.{Adds, AddsClass, IsEven, classes_under, declaring, relates};

use ast_grammar::{ClassId, Grammar};
use names::Names;
use rag_io::Memory;
use std::alloc::Global;

/// Names that are declared, and for each of them the classes that declare it, each once. There are at most 256 of these, so a look at all
/// of them takes constant time.
#[derive(Drop)]
pub(crate) struct Declared<'a> {
    pub names: Names<'a>,
    pub classes: Vec<Vec<ClassId>>,
}

// Adds a class to some, where it isn't among them.
fn add_class(classes: &mut Vec<ClassId>, class: ClassId) -> Result<(), Memory>
    ensures { OnOk result (AddsClass classes.old.items class classes.new.items) }
{
    if classes.contains(&class) {
        return Ok(());
    }
    classes.push(class).map_err(|_| Memory)
}

// The list of one class.
fn only(alloc: Global, class: ClassId) -> Result<Vec<ClassId>, Memory>
    ensures { IfOk result (λ list. list.items ≡ class ∷ []) }
{
    let mut list = Vec::new(alloc);
    list.push(class).map_err(|_| Memory)?;
    Ok(list)
}

// Adds a list at the end.
fn push(lists: &mut Vec<Vec<ClassId>>, list: Vec<ClassId>) -> Result<(), Memory>
    ensures { OnOk result (lists.new.items ≡ lists.old.items ++ list ∷ []) }
{
    lists.push(list).map_err(|_| Memory)
}

// One of some classes is the class, a superclass or a subclass.
fn is_related(grammar: &Grammar, class: ClassId, classes: &[ClassId]) -> bool
    ensures { result ≡ list_any (relates grammar.now class.0) classes.now }
{
    classes.iter().any(|other| grammar.is_sub(*other, class) || grammar.is_sub(class, *other))
}

impl<'a> Declared<'a> {
    /// Nothing is declared.
    pub(crate) fn new(alloc: Global) -> Declared<'a>
        ensures names { result.names ≡ [] }
        ensures classes { result.classes.items ≡ [] }
    {
        Declared {
            names: Names::new(alloc),
            classes: Vec::new(alloc),
        }
    }

    // The classes that declare the name.
    fn classes_of(&self, name: &[u8]) -> &[ClassId]
        ensures { result.now ≡ declaring self.now name.now }
    {
        let Some(number) = self.names.number_of(name) else {
            return &[];
        };
        let Some(classes) = self.classes.get(number) else {
            return &[];
        };
        classes
    }

    /// Whether the name is declared for the class, a superclass or a subclass.
    pub(crate) fn contains(&self, grammar: &Grammar, class: ClassId, name: &[u8]) -> bool
        ensures { result ≡ list_any (relates grammar.now class.0) (classes_under self.now.names self.now.classes.items name.now) }
    {
        is_related(grammar, class, self.classes_of(name))
    }

    // The name, which is new, is declared for the class.
    fn insert_new(&mut self, alloc: Global, class: ClassId, name: &'a [u8]) -> Result<(), Memory>
        requires { position (bytes_eq name.now) self.old.names ≡ None }
        ensures even { IsEven self.old → OnOk result (IsEven self.new) }
        ensures added { IsEven self.old → OnOk result (Adds self.old class name.now self.new) }
    {
        self.names.insert(name)?;
        let classes = only(alloc, class)?;
        push(&mut self.classes, classes)?;
        Ok(())
    }

    /// The name is declared for the class.
    pub(crate) fn insert(
        &mut self,
        alloc: Global,
        class: ClassId,
        name: &'a [u8],
    ) -> Result<(), Memory>
        ensures even { IsEven self.old → OnOk result (IsEven self.new) }
        ensures added { IsEven self.old → OnOk result (Adds self.old class name.now self.new) }
    {
        let Some(number) = self.names.number_of(name) else {
            return self.insert_new(alloc, class, name);
        };
        // Each name has its classes.
        match self.classes.get_mut(number) {
            Some(classes) => add_class(classes, class),
            None => Ok(()),
        }
    }
}
