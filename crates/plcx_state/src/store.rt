//! Stores: the values of a program between two scans.
ghost use Rattle.std.specs.Prelude.{◌≡◌, ◌<◌, true, false, Some, IfOk, length, slice_get, slice_set};
ghost use Rattle.plcx_types.specs.Range.{InRange};
ghost use Rattle.plcx_meaning.specs.Layout.{Warm, Cold};
ghost use Rattle.plcx_state.specs.Meanings.{OpensAs, RestartsAs};
ghost use Rattle.plcx_state.specs.Retains.{IsRetainedOf};
ghost use Rattle.plcx_state.specs.Stores.{IsStored, IsStoreOf, HasValue, starts_of, memory_starts_of, start_of};
ghost use Rattle.plcx_state.specs.Stores.{memory_start, all_begun, default_for, all_defaults, opened, again, all_again, restarted};

use crate::layout::{Layout, Leaf, Memory};
use crate::retained::Retained;
use plcx_types::{NoMemory, Val, default_of};
use std::alloc::{AllocError, Global};
use std::marker::Model;

/// What a restart gives a leaf or a memory, and whether a warm one leaves it as it is.
#[derive(Clone, Copy, Debug)]
pub(crate) struct Start {
    pub(crate) initial: Val,
    pub(crate) retained: bool,
}

/// The values of a program's leaves and of what its elements remember, by number.
#[derive(Debug, Drop)]
pub struct Store {
    values: Vec<Val>,
    memories: Vec<Val>,
    starts: Vec<Start>,
    memory_starts: Vec<Start>,
}

impl Model for Store {
    ghost use Rattle.plcx_state.specs.Stores.{Stored, stored, IsStored};

    ghost Value = { Stored };

    ghost view = { λ s. stored s.values.items s.memories.items s.starts.items s.memory_starts.items };

    ghost invariant = { λ s. IsStored (stored s.values.items s.memories.items s.starts.items s.memory_starts.items) };
}

fn start_of(leaf: &Leaf) -> Start
    ensures { result ≡ start_of leaf.now }
{
    Start {
        initial: leaf.initial,
        retained: leaf.retained,
    }
}

fn memory_start(memory: Memory) -> Start
    ensures { result ≡ memory_start memory }
{
    Start {
        initial: default_for(memory),
        retained: memory.retained,
    }
}

fn starts_of(alloc: Global, leaves: &[Leaf]) -> Result<Vec<Start>, AllocError>
    ensures { IfOk result (λ starts. starts.items ≡ starts_of leaves.now) }
{
    leaves.iter().map(|leaf| start_of(leaf)).collect(alloc)
}

fn memory_starts_of(alloc: Global, memories: &[Memory]) -> Result<Vec<Start>, AllocError>
    ensures { IfOk result (λ starts. starts.items ≡ memory_starts_of memories.now) }
{
    memories
        .iter()
        .map(|memory| memory_start(*memory))
        .collect(alloc)
}

fn default_for(memory: Memory) -> Val
    ensures { result ≡ default_for memory }
{
    default_of(memory.ty)
}

fn defaults(alloc: Global, memories: &[Memory]) -> Result<Vec<Val>, AllocError>
    ensures { IfOk result (λ values. values.items ≡ all_defaults memories.now) }
{
    memories
        .iter()
        .map(|memory| default_for(*memory))
        .collect(alloc)
}

fn begun(alloc: Global, leaves: &[Leaf], kept: &[Option<Val>]) -> Result<Vec<Val>, NoMemory>
    requires { length leaves.now ≡ length kept.now }
    ensures { IfOk result (λ values. values.items ≡ all_begun leaves.now kept.now) }
{
    let mut values = Vec::new(alloc);
    for i in 0..leaves.len() {
        values.push(kept[i].unwrap_or(leaves[i].initial))?;
    }
    Ok(values)
}

fn again(keeps: bool, start: Start, v: Val) -> Val
    ensures { result ≡ again keeps start v }
{
    if keeps && start.retained {
        v
    } else {
        start.initial
    }
}

fn all_again(keeps: bool, starts: &[Start], values: &mut Vec<Val>)
    requires { length starts.now ≡ length values.old.items }
    ensures { values.new.items ≡ all_again keeps starts.now values.old.items }
{
    for i in 0..values.len() {
        values[i] = again(keeps, starts[i], values[i]);
    }
}

impl Store {
    /// A store with the initial values, the retained ones over them, and each memory at its default.
    pub fn open(alloc: Global, layout: &Layout, retained: &Retained) -> Result<Store, NoMemory>
        requires { IsRetainedOf layout.now.leaves retained.now }
        ensures value { IfOk result (λ store. store ≡ opened layout.now retained.now) }
        ensures store { IfOk result (λ store. IsStoreOf layout.now store) }
        ensures meaning { IfOk result (λ store. OpensAs layout.now retained.now store) }
    {
        let values = begun(alloc, layout.leaves(), retained.kept())?;
        let memories = defaults(alloc, layout.memories())?;
        let starts = starts_of(alloc, layout.leaves())?;
        let memory_starts = memory_starts_of(alloc, layout.memories())?;
        Ok(Store {
            values,
            memories,
            starts,
            memory_starts,
        })
    }

    /// The value of a leaf.
    pub fn get(&self, leaf: u32) -> Val
        requires { leaf < length self.now.values }
        ensures value { slice_get self.now.values leaf ≡ Some result }
        ensures range { InRange result.ty result.n }
    {
        let value = self.values[leaf as usize];
        let _ = value.n();
        value
    }

    /// Changes the value of a leaf.
    pub fn set(&mut self, leaf: u32, v: Val)
        requires { HasValue self.old.values leaf v.ty }
        ensures { self.new ≡ record self.old { values = slice_set self.old.values leaf v } }
    {
        self.values[leaf as usize] = v;
    }

    /// What an element remembers.
    pub fn get_memory(&self, m: u32) -> Val
        requires { m < length self.now.memories }
        ensures value { slice_get self.now.memories m ≡ Some result }
        ensures range { InRange result.ty result.n }
    {
        let value = self.memories[m as usize];
        let _ = value.n();
        value
    }

    /// Changes what an element remembers.
    pub fn set_memory(&mut self, m: u32, v: Val)
        requires { HasValue self.old.memories m v.ty }
        ensures { self.new ≡ record self.old { memories = slice_set self.old.memories m v } }
    {
        self.memories[m as usize] = v;
    }

    fn restart(&mut self, keeps: bool)
        ensures { self.new ≡ restarted keeps self.old }
    {
        all_again(keeps, &self.starts, &mut self.values);
        all_again(keeps, &self.memory_starts, &mut self.memories);
    }

    /// What isn't retained begins again.
    pub fn warm(&mut self)
        ensures value { self.new ≡ restarted true self.old }
        ensures meaning { RestartsAs Warm self.old self.new }
    {
        self.restart(true);
    }

    /// All begins again, with the initial values of the declarations.
    pub fn cold(&mut self)
        ensures value { self.new ≡ restarted false self.old }
        ensures meaning { RestartsAs Cold self.old self.new }
    {
        self.restart(false);
    }

    /// The values of the leaves, by number.
    pub fn values(&self) -> &[Val]
        ensures values { result.now ≡ self.now.values }
        ensures stored { IsStored self.now }
    {
        self.values.as_slice()
    }

    /// The values of the memories, by number.
    pub fn memory_values(&self) -> &[Val]
        ensures { result.now ≡ self.now.memories }
    {
        self.memories.as_slice()
    }
}
