// The nodes that the tokens of a tree lay, and what they break.
ghost use Rattle.std.specs.Prelude.{◌≡◌, ◌<◌, ℕ, List, [], IfOk, IfSome, None, Some, length, map};
ghost use Rattle.std.specs.Option.{option_map};
ghost use Rattle.ast_grammar.specs.Grammar.{Class, number_of};
ghost use Rattle.broken_rules.specs.Notes.{Notes};
ghost use Rattle.tree_arena.specs.Nodes.{tokens_at};
ghost use Rattle.tree_reader.specs.Breaking.{is_concrete, name_broken};
ghost use Rattle.tree_reader.specs.Laying.{seen_laid};
ghost use Rattle.tree_reader.specs.Steps.{brackets_opened, closed, coded, component_by, ended, entered, gone_behind, laid_last, left, node_opened, seen_frame, seen_leaf, seen_opened, seen_state, started, value_added, value_code, with_int, with_minus};

use crate::frames::{Frame, Opened};
use crate::misplaced::{note_brackets, note_node, note_value};
use crate::values::Value;
use crate::wants::Wants;
use ast_grammar::{ClassId, Grammar};
use broken_rules::{Earliest, Rule};
use rag_io::{Memory, Place};
use std::alloc::Global;
use std::mem;
use tree_arena::{FirstNode, Tokens};

// A tree has at most so many nodes.
const MOST_NODES: usize = 65_536;

/// What was read so far: the innermost that is open, what is open around it, the nodes in preorder with the codes of their arguments so far,
/// the broken rule that counts, and the place of a `-` whose digits follow. A node of unknown class is laid as one of the first.
#[derive(Drop)]
pub(crate) struct Laying {
    innermost: Frame,
    outer: Vec<Frame>,
    pub(crate) nodes: Vec<FirstNode>,
    pub(crate) broken: Earliest,
    minus: Option<Place>,
}

// Whether a class is known, and not abstract.
fn is_concrete(grammar: &Grammar, class: Option<ClassId>) -> bool
    requires { IfSome class (λ c. c.0 < length grammar.now) }
    ensures { result ≡ is_concrete grammar.now (option_map number_of class) }
{
    match class {
        Some(class) => !grammar.is_abstract(class),
        None => false,
    }
}

// Notes what the name of a node breaks by itself.
fn note_name(
    grammar: &Grammar,
    class: Option<ClassId>,
    number: usize,
    place: Place,
    broken: &mut Earliest,
)
    requires { IfSome class (λ c. c.0 < length grammar.now) }
    ensures { Notes (name_broken grammar.now (option_map number_of class) number place) broken.old broken.new }
{
    broken.note_if(!is_concrete(grammar, class), Rule::N2, place);
    broken.note_if(number == MOST_NODES, Rule::N7, place);
}

// One more code of the node of this number, where there is one.
fn add_code(nodes: &mut Vec<FirstNode>, number: usize, code: u32) -> Result<(), Memory>
    ensures { IfOk result (λ _. map seen_laid nodes.new.items ≡ coded (map seen_laid nodes.old.items) number code) }
{
    if number < nodes.len() {
        nodes[number].tokens.push(code)?;
    }
    Ok(())
}

// How many codes the node of this number has so far.
fn codes_of(nodes: &[FirstNode], number: usize) -> usize
    ensures { result ≡ length (tokens_at (map seen_laid nodes.now) number) }
{
    match nodes.get(number) {
        Some(node) => node.tokens.list().len(),
        None => 0,
    }
}

// A node that has no codes so far. There is no memory for nodes that 32 bits can't number.
fn first_node(
    alloc: Global,
    class: ClassId,
    parent: usize,
    component: usize,
) -> Result<FirstNode, Memory>
    ensures { IfOk result (λ node. seen_laid node ≡ record { class = class; parent = parent; component = component; tokens = [] }) }
{
    let (Ok(parent), Ok(component)) = (u32::try_from(parent), u32::try_from(component)) else {
        return Err(Memory);
    };
    Ok(FirstNode {
        class,
        parent,
        component,
        tokens: Tokens::new(alloc),
    })
}

impl Laying {
    /// Nothing was read. What the texts break was noted.
    pub(crate) fn new(alloc: Global, broken: Earliest) -> Laying
        ensures { (g : List Class) → seen_state g result ≡ started broken }
    {
        Laying {
            innermost: Frame::outermost(),
            outer: Vec::new(alloc),
            nodes: Vec::new(alloc),
            broken,
            minus: None,
        }
    }

    // The component at which the next argument stands: in arguments, the first that has no code yet.
    fn component(&self) -> usize
        ensures { result ≡ component_by (map seen_laid self.now.nodes.items) self.now.innermost.node (seen_opened self.now.innermost.opened) }
    {
        match self.innermost.opened {
            Opened::Brackets(component) => component,
            Opened::Arguments(_, _) => codes_of(&self.nodes, self.innermost.node),
        }
    }

    // Goes behind the next argument, which has this code.
    fn go_behind(&mut self, grammar: &Grammar, code: u32) -> Result<(), Memory>
        ensures { IfOk result (λ _. seen_state grammar.now self.new ≡ gone_behind code (seen_state grammar.now self.old)) }
    {
        self.innermost.wants = self.innermost.wants.next(grammar);
        match self.innermost.opened {
            Opened::Brackets(_) => Ok(()),
            Opened::Arguments(_, _) => add_code(&mut self.nodes, self.innermost.node, code),
        }
    }

    // Opens what stands inside.
    fn enter(&mut self, frame: Frame) -> Result<(), Memory>
        ensures { IfOk result (λ _. (g : List Class) → seen_state g self.new ≡ entered (seen_frame g frame) (seen_state g self.old)) }
    {
        let around = mem::replace(&mut self.innermost, frame);
        self.outer.push(around).map_err(|_| Memory)
    }

    // Lays a node behind the others.
    fn lay(&mut self, laid: FirstNode) -> Result<(), Memory>
        ensures { IfOk result (λ _. (g : List Class) → seen_state g self.new ≡ laid_last (seen_laid laid) (seen_state g self.old)) }
    {
        self.nodes.push(laid).map_err(|_| Memory)
    }

    /// A node begins with its name and `(`.
    pub(crate) fn open_node(
        &mut self,
        alloc: Global,
        grammar: &Grammar,
        name: &[u8],
        place: Place,
    ) -> Result<(), Memory>
        ensures { IfOk result (λ _. seen_state grammar.now self.new ≡ node_opened grammar.now name.now place (seen_state grammar.now self.old)) }
    {
        let class = grammar.find_class(name);
        let node = self.nodes.len();
        note_name(grammar, class, node, place, &mut self.broken);
        let wanted = self.innermost.wants.wanted(grammar);
        note_node(grammar, wanted, class, place, &mut self.broken);

        let laid = first_node(
            alloc,
            class.unwrap_or(ClassId(0)),
            self.innermost.node,
            self.component(),
        )?;
        self.go_behind(grammar, 0)?;
        self.lay(laid)?;
        self.enter(Frame {
            node,
            opened: Opened::Arguments(class, place),
            wants: Wants::arguments_of(class),
        })
    }

    /// Brackets open.
    pub(crate) fn open_brackets(&mut self, grammar: &Grammar, place: Place) -> Result<(), Memory>
        ensures { IfOk result (λ _. seen_state grammar.now self.new ≡ brackets_opened place (seen_state grammar.now self.old)) }
    {
        let wanted = self.innermost.wants.wanted(grammar);
        note_brackets(wanted, place, &mut self.broken);
        let frame = Frame {
            node: self.innermost.node,
            opened: Opened::Brackets(self.component()),
            wants: wanted.inside(),
        };
        self.go_behind(grammar, 0)?;
        self.enter(frame)
    }

    /// The value of a token.
    pub(crate) fn add_value(
        &mut self,
        grammar: &Grammar,
        value: &Value<'_>,
        place: Place,
    ) -> Result<(), Memory>
        ensures { IfOk result (λ _. (text : List ℕ)
            → seen_state grammar.now self.new ≡ value_added (seen_leaf text value.now) (value_code value.now) place (seen_state grammar.now self.old)) }
    {
        let wanted = self.innermost.wants.wanted(grammar);
        note_value(wanted, value, place, &mut self.broken);
        self.go_behind(grammar, value.code())
    }

    /// A `-`, whose digits follow.
    pub(crate) fn note_minus(&mut self, place: Place)
        ensures { (g : List Class) → seen_state g self.new ≡ with_minus (Some place) (seen_state g self.old) }
    {
        self.minus = Some(place);
    }

    /// The digits of an integer. A `-` before them is its first token.
    pub(crate) fn add_int(
        &mut self,
        grammar: &Grammar,
        digits: &[u8],
        place: Place,
    ) -> Result<(), Memory>
        ensures { IfOk result (λ _. seen_state grammar.now self.new ≡ with_int digits.now place (seen_state grammar.now self.old)) }
    {
        let minus = self.minus.take();
        let value = Value::Int {
            is_negative: minus.is_some(),
            digits,
        };
        self.add_value(grammar, &value, minus.unwrap_or(place))
    }

    // Notes what the end of the innermost breaks: the arguments of a node are as many as its class has components.
    fn note_end(&mut self, grammar: &Grammar)
        ensures { seen_state grammar.now self.new ≡ ended (seen_state grammar.now self.old) }
    {
        if let Opened::Arguments(class, place) = self.innermost.opened {
            let is_miscounted = self.innermost.wants.miscounts(grammar, class);
            self.broken.note_if(is_miscounted, Rule::N3, place);
        }
    }

    // Goes back to what is open around the innermost.
    fn leave(&mut self)
        ensures { (g : List Class) → seen_state g self.new ≡ left (seen_state g self.old) }
    {
        self.innermost = self.outer.pop().unwrap_or(Frame::outermost());
    }

    /// The innermost that is open closes.
    pub(crate) fn close(&mut self, grammar: &Grammar)
        ensures { seen_state grammar.now self.new ≡ closed (seen_state grammar.now self.old) }
    {
        self.note_end(grammar);
        self.leave();
    }
}
