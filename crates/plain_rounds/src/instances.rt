// Lists of instances.
ghost use Rattle.std.specs.Prelude.{◌≡◌, ◌↔◌, ◌<◌, ◌^◌, ◌++◌, ◌∷◌, [], All, IfOk, OnErr, OnOk, length, true};

use crate::checking::is_instance;
use crate::growing::push;
use crate::listing::{push_attributes, push_queries};
use crate::naming::{Name, NamedInstance};
use equation_law::System;
use rag_io::Memory;
use std::alloc::Global;

/// A list of instances.
#[derive(Drop)]
pub struct NameList {
    names: Vec<Name>,
    ghost few: { length names.items < 2 ^ 32 },
}

impl NameList {
    ghost use Rattle.equation_law.specs.Checked.{IsInstance, IsProgram};
    ghost use Rattle.equation_law.specs.Program.{Program, source_instances, text_of};
    ghost use Rattle.equation_law.specs.Systems.{program_of};
    ghost use Rattle.plain_rounds.specs.Named.{instance_named, instances_in};

    /// The attribute instances without arguments at source nodes, attribute by attribute and in each by node,
    /// then the queries.
    pub fn of_source(alloc: Global, system: &System) -> Result<NameList, Memory>
        ensures names { IfOk result (λ names. instances_in (program_of system.now) names ≡ source_instances (program_of system.now)) }
        ensures instances { IfOk result (λ names. All (IsInstance (program_of system.now)) (instances_in (program_of system.now) names)) }
    {
        let mut names = Vec::new(alloc);
        push_attributes(&mut names, system)?;
        push_queries(&mut names, system)?;
        Ok(NameList { names })
    }

    /// Adds one instance last. After a refusal the list stands for the same instances as before, and the name is dropped. A list of
    /// 2^32 - 1 instances is full, and takes no more.
    pub fn add(&mut self, name: NamedInstance) -> Result<(), Memory>
        ensures added { OnOk result ((p : Program) → instances_in p self.new ≡ instances_in p self.old ++ instance_named (text_of p) name ∷ []) }
        ensures refused { OnErr result ((p : Program) → instances_in p self.new ≡ instances_in p self.old) }
    {
        if self.names.len() >= u32::MAX as usize {
            return Err(Memory);
        }
        push(&mut self.names, Name::Attribute(name))
    }

    /// The number of instances.
    pub fn len(&self) -> u32
        ensures { (p : Program) → result ≡ length (instances_in p self.now) }
    {
        self.names.len() as u32
    }

    /// Whether all are instances of a system: an attribute that is declared, at a node of its class or of a subclass, with arguments of the
    /// parameters' types, or a query that the system has.
    pub fn are_of(&self, system: &System) -> bool
        requires { IsProgram (program_of system.now) }
        ensures { (result ≡ true) ↔ All (IsInstance (program_of system.now)) (instances_in (program_of system.now) self.now) }
    {
        for name in &self.names {
            if !is_instance(system, name) {
                return false;
            }
        }
        true
    }

    /// The names.
    pub(crate) fn list(&self) -> &[Name]
        ensures { result.now ≡ self.now.names.items }
    {
        self.names.as_slice()
    }
}
