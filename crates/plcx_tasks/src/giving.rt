//! The inputs that are kept for an instance until its next scan.
ghost use Rattle.std.specs.Prelude.{◌≡◌, ◌<◌, ◌++◌, ℕ, List, [], Some, IfOk, OnOk, length, slice_get, slice_set, if◌then◌else◌};
ghost use Rattle.std.specs.Map.Iter.{deref_pair};
ghost use Rattle.std.specs.Option.{option_map};
ghost use Rattle.plcx_types.specs.Lists.{Each};
ghost use Rattle.plcx_scan.specs.declared.event.Input.{Input};
ghost use Rattle.plcx_tasks.specs.Tasks.{input_of, with_input, given};
ghost use Rattle.plcx_tasks.specs.Steps.{entry_inputs, left_behind, AreWithin, IsGivenWithin};

use crate::ranking::{Rank, is_set};
use crate::ticking::TaskInput;
use indexmap::IndexMap;
use plcx_scan::Input;
use plcx_types::{NoMemory, Val};
use sqlite_items::Items;
use std::alloc::Global;
use std::marker::Model;

/// Per leaf the last value that was given for it, in the order in which leaves came first.
#[derive(Drop)]
pub(crate) struct Pending {
    values: IndexMap<u32, Val>,
}

impl Model for Pending {
    ghost use Rattle.std.specs.Prelude.{List, map};
    ghost use Rattle.plcx_scan.specs.declared.event.Input.{Input};

    ghost Value = { List Input };

    ghost use Rattle.plcx_tasks.specs.Steps.{entry_input};

    ghost view = { λ p. map entry_input p.values.entries };
}

impl Pending {
    fn new(alloc: Global) -> Pending
        ensures { result ≡ [] }
    {
        Pending {
            values: IndexMap::new(alloc),
        }
    }

    fn put(&mut self, input: &TaskInput) -> Result<(), NoMemory>
        ensures { OnOk result (self.new ≡ with_input self.old (input_of input.now)) }
    {
        self.values.insert(input.leaf, input.value)?;
        Ok(())
    }

    fn clear(&mut self)
        ensures { self.new ≡ [] }
    {
        self.values.clear();
    }

    /// The inputs of the next scan.
    pub(crate) fn inputs(&self, alloc: Global) -> Result<Items<Input>, NoMemory>
        ensures { IfOk result (λ inputs. inputs ≡ self.now) }
    {
        let entries = self.values.as_slice();
        let mut inputs = Vec::new(alloc);
        for place in 0..entries.len() {
            push_entry(&mut inputs, entries.get_index(place))?;
        }
        Ok(Items::from_vec(inputs))
    }
}

/// An entry of a table by leaves as an input, behind the others.
fn push_entry(inputs: &mut Vec<Input>, entry: Option<(&u32, &Val)>) -> Result<(), NoMemory>
    ensures { OnOk result (inputs.new.items ≡ inputs.old.items ++ entry_inputs (option_map deref_pair entry.entry)) }
{
    if let Some((leaf, value)) = entry {
        inputs.push(Input {
            leaf: *leaf,
            value: *value,
        })?;
    }
    Ok(())
}

/// Nothing is kept for any of so many instances.
pub(crate) fn none_pending(alloc: Global, instances: usize) -> Result<Vec<Pending>, NoMemory>
    ensures long { IfOk result (λ all. length all.items ≡ instances) }
    ensures none { IfOk result (λ all. (i : ℕ) → i < instances → slice_get all.items i ≡ Some []) }
{
    let mut all = Vec::new(alloc);
    for _ in 0..instances {
        all.push(Pending::new(alloc))?;
    }
    Ok(all)
}

/// The inputs of a tick are kept for their instances.
pub(crate) fn take_inputs(pending: &mut Vec<Pending>, inputs: &[TaskInput]) -> Result<(), NoMemory>
    requires { Each (IsGivenWithin (length pending.old.items)) inputs.now }
    ensures long { length pending.new.items ≡ length pending.old.items }
    ensures given { OnOk result ((i : ℕ) (past : List Input) → slice_get pending.old.items i ≡ Some past → slice_get pending.new.items i ≡ Some (given i past inputs.now)) }
{
    for input in inputs {
        pending[input.instance as usize].put(input)?;
    }
    Ok(())
}

/// Nothing is kept any more for an instance, if its task was due.
fn clear_if(pending: &mut Vec<Pending>, is_due: bool, instance: u32)
    requires { instance < length pending.old.items }
    ensures { pending.new.items ≡ (if is_due then slice_set pending.old.items instance [] else pending.old.items) }
{
    if is_due {
        pending[instance as usize].clear();
    }
}

/// Nothing is kept any more for the instances whose tasks were due.
pub(crate) fn clear_due(pending: &mut Vec<Pending>, due: &[bool], ranks: &[Rank])
    requires { Each (AreWithin (length pending.old.items)) ranks.now }
    ensures long { length pending.new.items ≡ length pending.old.items }
    ensures left { (i : ℕ) (past : List Input) → slice_get pending.old.items i ≡ Some past → slice_get pending.new.items i ≡ Some (left_behind due.now i past ranks.now) }
{
    for rank in ranks {
        clear_if(pending, is_set(due, rank.task), rank.instance);
    }
}
