// A pass at its cells.
ghost use Rattle.std.specs.Prelude.{◌≡◌};

use crate::notebook::Notebook;
use crate::turns::is_set;
use ast_grammar::ClassId;
use attr_rules::{AttrId, Kind};
use collection_attrs::{Collector, Offers};
use equation_law::{Args, Code, EqSite, Instance, NodeRef, Reader, System, Up, Value};
use expr_eval::kind_of;
use memo_cells::{Cells, CellsFull, Key, Pass, Slot, Words, Work, seek_instance, value_shown};
use rag_io::Memory;
use std::alloc::Global;
use std::cmp::Ordering;
use std::marker::Model;

/// A pass at its cells, as what local sets are worked out by. `ask` makes one for itself; whoever goes on with a local set without it needs one too.
#[derive(Drop)]
pub struct Desk<'a> {
    pub(crate) system: &'a System,
    pub(crate) cells: &'a Cells,
    pub(crate) notes: Notebook,
    pub(crate) pass: &'a mut Pass,
}

impl<'a> Model for Desk<'a> {
    ghost use Rattle.std.specs.Prelude.{◌≡◌};
    ghost use Rattle.std.specs.Coded.{codes};
    ghost use Rattle.attr_rules.specs.contracts.expression.TExpr as expressions;
    ghost use Rattle.memo_cells.specs.Standing.{IsPassOf};
    ghost use Rattle.memo_cells.specs.Working.{Held};
    ghost use Rattle.caller_pass.specs.Keeping.{IsNotebookOf};

    ghost Value = { Held };

    ghost coded = { Prim.hlevel (codes, expressions.the_row.coded) };

    ghost view = { λ d. record { frame = d.cells.now; view = d.pass.now; lender = d.pass.ghost_name } };

    ghost invariant = { λ d. (IsPassOf d.cells.now d.pass.now × IsNotebookOf d.system.now d.pass.now d.notes) × (d.cells.now.system.value ≡ d.system.now) };
}

impl Reader for Desk<'_> {
    ghost use Rattle.memo_cells.specs.Working.{told_by};

    ghost tells = { told_by };

    fn settled(&mut self, alloc: Global, i: &Instance) -> Result<Option<Value>, Memory> {
        self.known_value(alloc, *i)
    }

    fn made_class(&mut self, _node: NodeRef) -> ClassId {
        ClassId(u16::MAX)
    }

    fn made_child(&mut self, _node: NodeRef, _component: u32) -> NodeRef {
        NodeRef(0)
    }

    fn made_token(&mut self, _node: NodeRef, _component: u32) -> Code {
        0
    }

    fn made_up(&mut self, _node: NodeRef) -> Up {
        Up::Owner {
            node: NodeRef(0),
            attr: AttrId(0),
        }
    }

    fn made_arg(&mut self, _node: NodeRef, _k: u32) -> Code {
        0
    }

    fn made_order(&mut self, a: NodeRef, b: NodeRef) -> Ordering {
        // What the pass knows is known of the desk once its cells are read: only source nodes, whose codes are in their order.
        let _cells = self.cells;
        a.0.cmp(&b.0)
    }
}

impl Words for Desk<'_> {
    ghost held = { λ d. d };

    fn seek(&mut self, key: Key) -> Option<Slot> {
        self.cells.seek(self.pass, key)
    }

    fn word(&mut self, slot: Slot, word: u32) -> u64 {
        self.cells.word(self.pass, slot, word)
    }
}

impl Work for Desk<'_> {
    ghost use Rattle.memo_cells.proofs.Holding.{told_pass};

    fn claim(&mut self, key: Key) -> Result<Slot, CellsFull> {
        self.cells.claim(self.pass, key)
    }

    fn raise(&mut self, slot: Slot, word: u32, bits: u64) -> Result<u64, CellsFull> {
        self.cells.raise(self.pass, slot, word, bits)
    }

    fn seal(&mut self, set: &[Slot]) {
        self.cells.seal(self.pass, set)
    }

    ghost tells_pass = { told_pass };
}

impl<'a> Desk<'a> {
    ghost use Rattle.std.specs.Prelude.{◌≡◌, ◌<◌, IfNone, IfOk, IfSome, false, length, true};
    ghost use Rattle.attr_rules.specs.Rules.{is_single};
    ghost use Rattle.equation_law.specs.Collections.{Collection};
    ghost use Rattle.equation_law.specs.Codes.{IsRow};
    ghost use Rattle.memo_cells.specs.Standing.{IsPassOf};
    ghost use Rattle.memo_cells.specs.Working.{HasCell, IsOwn, MaySettleAt, ReadsOn, program_at};
    ghost use Rattle.collection_attrs.specs.Roots.{IsRootOf, IsRootless};
    ghost use Rattle.collection_attrs.specs.Surveys.{Collections, IsCollectorOf};
    ghost use Rattle.inherited_walk.specs.Sites.{FindsEquation, IsSourceSite};
    ghost use Rattle.caller_pass.specs.Noting.{IsNoted};
    ghost use Rattle.caller_pass.specs.Holding.{FindsCodeAt, FindsValueAt, HasCellThen, HasLoopAt, IsKindAt, IsKnownCell, IsReadValueAt, IsWalkAt, KnowsCell, TellsSettledAt, WhyUnknownAt, WhyUnsettledAt};

    /// A pass at its cells, where nothing is noted.
    pub fn new(alloc: Global, system: &'a System, cells: &'a Cells, pass: &'a mut Pass) -> Desk<'a>
        requires same { cells.now.system.value ≡ system.now }
        requires own { IsPassOf cells.now pass.old }
        ensures cells { result.frame ≡ cells.now }
        ensures pass { result.view ≡ pass.old }
    {
        Desk {
            system,
            cells,
            notes: Notebook::new(alloc, system),
            pass,
        }
    }

    /// The slot of a well coded instance whose cell is settled, and its code. Of another one, the slot is that of some instance.
    pub(crate) fn settled_code(&mut self, i: Instance) -> Option<(Slot, Code)>
        ensures on { ReadsOn self.old self.new }
        ensures known { FindsCodeAt self.old self.new i result }
        ensures its { IfSome result (λ x. IsKnownCell self.new i x.0) }
        ensures cause { IfNone result (WhyUnknownAt self.old self.new i) }
        ensures cell { IfSome result (λ x. HasCellThen self.old self.new x.0.0) }
    {
        let slot = seek_instance(self, i)?;
        let code = self.cells.settled(self.pass, slot)?;
        Some((slot, code))
    }

    /// Whether the instance of a claimed cell is settled, by a load of its value word.
    pub(crate) fn is_settled(&mut self, slot: Slot) -> bool
        requires { HasCell self.old slot.0 }
        ensures on { ReadsOn self.old self.new }
        ensures told { TellsSettledAt self.old self.new slot.0 result }
        ensures cause { (result ≡ false) → WhyUnsettledAt self.old self.new slot.0 }
    {
        self.cells.settled(self.pass, slot).is_some()
    }

    /// Settles the cell of an instance.
    pub(crate) fn settle(&mut self, slot: Slot, code: Code)
        requires own { IsOwn self.old }
        requires slot { slot.0 < self.old.frame.cells }
        requires code { MaySettleAt self.old slot.0 code }
        ensures on { ReadsOn self.old self.new }
        ensures known { KnowsCell self.old self.new slot.0 }
    {
        self.cells.settle(self.pass, slot, code);
    }

    /// The value of a well coded instance whose cell is settled, read at its type. That of a set stands in its words.
    pub(crate) fn known_value(
        &mut self,
        alloc: Global,
        i: Instance,
    ) -> Result<Option<Value>, Memory>
        ensures on { ReadsOn self.old self.new }
        ensures known { FindsValueAt self.old self.new i result }
        ensures cause { IfOk result (λ found. IfNone found (WhyUnknownAt self.old self.new i)) }
    {
        let Some((slot, code)) = self.settled_code(i) else {
            return Ok(None);
        };
        let kind = kind_of(self.system, &i);
        if is_set(kind) {
            let value = self.set_value(alloc, i, slot, kind)?;
            return Ok(Some(value));
        }
        Ok(Some(Value::of_code(alloc, kind, code)))
    }

    /// Notes the value of an instance, if it is of a set type.
    pub(crate) fn note_set(&mut self, i: Instance, kind: Kind, value: &Value)
        requires { IsNoted (program_at self.old) self.old.view.made i value.now }
        ensures { self.new ≡ self.old }
    {
        if !is_set(kind) {
            return;
        }
        if let Ok(copy) = value.copy() {
            self.notes.note_set(i, copy);
        }
    }

    /// The equation of an attribute at a node with arguments. The way to it is noted.
    pub(crate) fn site(&mut self, attr: AttrId, node: NodeRef, args: Args) -> Option<EqSite>
        ensures same { self.new ≡ self.old }
        ensures found { FindsEquation (program_at self.old) attr node args result }
        ensures rows { IsRow args → IfSome result (λ s. IsRow s.outer × IsRow s.inner) }
        ensures source { IfSome result (IsSourceSite (program_at self.old) args) }
    {
        let system = self.system;
        self.notes.site(system, attr, node, args)
    }

    /// The root in whose subtree what is offered to a collection stands. Where there is none, nothing is offered. The way to it is noted.
    pub(crate) fn root_for(&mut self, of: Collector) -> Option<u32>
        requires { (c : Collections) × IsCollectorOf (program_at self.old) of c }
        ensures same { self.new ≡ self.old }
        ensures within { IfSome result (λ r. r < length (program_at self.old).tree) }
        ensures some { IfSome result (IsRootOf (program_at self.old) of) }
        ensures none { IfNone result (IsRootless (program_at self.old) of) }
    {
        let system = self.system;
        self.notes.root_for(system, of)
    }

    /// Takes the walk over what is offered to a collection attribute in the subtree of a root out of the notes, or begins one.
    pub(crate) fn take_walk(&mut self, alloc: Global, attr: AttrId, root: u32) -> Offers
        requires { root < length (program_at self.old).tree }
        ensures same { self.new ≡ self.old }
        ensures of { (result.attribute ≡ attr.0) × (result.root ≡ root) }
        ensures walk { IsWalkAt self.old result }
    {
        self.notes.take_walk(alloc, attr, root)
    }

    /// Notes a walk.
    pub(crate) fn put_walk(&mut self, offers: Offers)
        requires { IsWalkAt self.old offers }
        ensures { self.new ≡ self.old }
    {
        self.notes.put_walk(offers);
    }

    /// Whether it is noted that an instance has a loop.
    pub(crate) fn has_loop(&self, i: &Instance) -> bool
        ensures { result ≡ true → HasLoopAt self.now i.now }
    {
        self.notes.has_loop(i)
    }

    // The value of an instance of a set type whose cell is settled. It is read once, and noted.
    fn set_value(
        &mut self,
        alloc: Global,
        i: Instance,
        slot: Slot,
        kind: Kind,
    ) -> Result<Value, Memory>
        requires own { IsOwn self.old }
        requires cell { HasCell self.old slot.0 }
        requires known { IsKnownCell self.old i slot }
        requires kind { IsKindAt self.old i kind }
        requires set { is_single kind ≡ false }
        ensures on { ReadsOn self.old self.new }
        ensures value { IfOk result (IsReadValueAt self.old self.new i) }
    {
        if let Some(value) = self.notes.set(&i) {
            return Ok(value);
        }
        let system = self.system;
        let value = value_shown(alloc, system, self, slot, kind)?;
        self.note_set(i, kind, &value);
        Ok(value)
    }
}
