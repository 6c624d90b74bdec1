// What the equation of a member reads.
ghost use Rattle.std.specs.Prelude.{◌≡◌, IfOk, None};
ghost use Rattle.equation_law.specs.Equations.{collection_of};
ghost use Rattle.equation_law.specs.Codes.{IsCoded, instance_of};
ghost use Rattle.equation_law.specs.Systems.{program_of};
ghost use Rattle.memo_cells.specs.Working.{IsForSystem, IsKnownAt, IsOwn, ReadsOn};
ghost use Rattle.circular_eval.specs.Local.{AreReadable};
ghost use Rattle.circular_eval.specs.Looking.{AreSavedHere, ComesHere};

use crate::local::Local;
use ast_grammar::ClassId;
use attr_rules::AttrId;
use equation_law::{Code, Instance, NodeRef, Reader, System, Up, Value};
use expr_eval::{Saved, Turn, is_declared, resume_instance};
use memo_cells::Work;
use rag_io::Memory;
use std::alloc::Global;
use std::cmp::Ordering;

/// A reader that has of undeclared instances what the work has, and of circular ones the values of the members of a local set. It notes the
/// members by their numbers.
#[derive(Drop)]
pub(crate) struct LocalReader<'a, W: Work> {
    pub system: &'a System,
    pub work: &'a mut W,
    pub local: &'a Local<'a>,
    pub read: &'a mut Vec<usize>,
}

impl<W: Work> Reader for LocalReader<'_, W> {
    ghost use Rattle.std.specs.Prelude.{◌≡◌};
    ghost use Rattle.memo_cells.specs.Working.{ReadsOn};
    ghost use Rattle.circular_eval.specs.Looking.{told_here};

    ghost tells = { λ d. told_here (W.held d.work.now) d.system.now d.local.now.members.entries (λ x. ReadsOn (W.held x.work.now) (W.held d.work.now) × (d.work.ghost_name ≡ x.work.ghost_name) × (d.local.now ≡ x.local.now) × (d.system.now ≡ x.system.now)) };

    fn settled(&mut self, alloc: Global, i: &Instance) -> Result<Option<Value>, Memory> {
        if !is_declared(self.system, i) {
            return self.work.settled(alloc, i);
        }
        let Some((number, value)) = self.local.find(i) else {
            return Ok(None);
        };
        self.read.push(number).map_err(|_| Memory)?;
        Ok(Some(value.copy()?))
    }

    fn made_class(&mut self, _node: NodeRef) -> ClassId {
        ClassId(u16::MAX)
    }

    fn made_child(&mut self, _node: NodeRef, _component: u32) -> NodeRef {
        NodeRef(0)
    }

    fn made_token(&mut self, _node: NodeRef, _component: u32) -> Code {
        0
    }

    fn made_up(&mut self, _node: NodeRef) -> Up {
        Up::Owner {
            node: NodeRef(0),
            attr: AttrId(0),
        }
    }

    fn made_arg(&mut self, _node: NodeRef, _k: u32) -> Code {
        0
    }

    fn made_order(&mut self, a: NodeRef, b: NodeRef) -> Ordering {
        self.work.made_order(a, b)
    }
}

/// What an evaluation came to, and the members whose values it read.
#[derive(Drop)]
pub(crate) struct Came {
    pub turn: Turn,
    pub read: Vec<usize>,
}

/// Goes on with the evaluation of the equation of an instance, under the values of a local set.
pub(crate) fn evaluate<'a, W: Work>(
    alloc: Global,
    system: &'a System,
    work: &mut W,
    local: &Local<'_>,
    i: &Instance,
    saved: &mut Saved<'a>,
) -> Result<Came, Memory>
    requires own { IsOwn (W.held work.old) }
    requires same { IsForSystem (W.held work.old) system.now }
    requires coded { IsCoded (program_of system.now) i.now }
    requires known { IsKnownAt (W.held work.old) i.now }
    requires single { collection_of (program_of system.now) (instance_of (program_of system.now) i.now) ≡ None }
    requires kept { AreReadable (program_of system.now) (W.held work.old).view.made local.now.members.entries }
    requires saved { AreSavedHere system.now (W.held work.old) local.now saved.old }
    ensures on { ReadsOn (W.held work.old) (W.held work.new) }
    ensures came { IfOk result (λ came. ComesHere (W.held work.new) local.now i.now came.turn) }
    ensures saved { AreSavedHere system.now (W.held work.new) local.now saved.new }
{
    let mut read = Vec::new(alloc);
    let mut reader = LocalReader {
        system,
        work,
        local,
        read: &mut read,
    };
    let turn = resume_instance(alloc, system, i, &mut reader, saved);
    let LocalReader { work: _work, .. } = reader;
    Ok(Came { turn: turn?, read })
}
