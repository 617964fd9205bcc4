//! The frame and the state of a side, and what is done around a scan.
ghost use Rattle.std.specs.Prelude.{◌≡◌, ◌<◌, ◌≤◌, Some, IfOk, length, slice_get};
ghost use Rattle.plcx_types.specs.Lists.{Each};
ghost use Rattle.plcx_state.specs.Stores.{IsStored};
ghost use Rattle.plcx_steps.specs.declared.program.Body.{Body};
ghost use Rattle.plcx_steps.specs.Sound.{most_inputs};
ghost use Rattle.plcx_scan.specs.Sides.{told};
ghost use Rattle.plcx_stored.specs.Between.{with_inputs, told_by};
ghost use Rattle.plcx_frames.specs.Frames.{HasFrame, Puts};

use plcx_scan::{Input, Outcome};
use plcx_state::Store;
use plcx_steps::{Program, State, Stop};
use plcx_types::{NoMemory, Ty, Val, default_of};
use std::alloc::Global;

/// The wires and in-outs of a program and of all POUs that it calls, while they are evaluated.
#[derive(Debug, Drop)]
pub struct Frame {
    pub wires: Vec<Val>,
    pub in_outs: Vec<u32>,
}

/// Wires and in-outs enough for the program at a place. More than can be counted would not have fitted.
pub fn frame_of(alloc: Global, program: &Program, place: u32) -> Result<Frame, NoMemory>
    requires { place < length program.now.bodies.items }
    ensures { IfOk result (λ frame. (body : Body) → slice_get program.now.bodies.items place ≡ Some body → HasFrame body frame) }
{
    let body = &program.bodies[place as usize];
    let Some(count) = body.first_wire.checked_add(body.width) else {
        return Err(NoMemory);
    };
    let mut wires = Vec::new(alloc);
    wires.resize(count, default_of(Ty::Bool))?;
    let mut in_outs = Vec::new(alloc);
    in_outs.resize(body.first_in_out, 0)?;
    Ok(Frame { wires, in_outs })
}

/// A state with this store, and room for the inputs of each function.
pub fn state_of(alloc: Global, store: Store) -> Result<State, NoMemory>
    ensures store { IfOk result (λ state. state.store ≡ store) }
    ensures inputs { IfOk result (λ state. most_inputs ≤ length state.inputs.items) }
{
    let mut inputs = Vec::new(alloc);
    inputs.resize(64, default_of(Ty::Bool))?;
    Ok(State {
        store,
        left: 0,
        inputs,
    })
}

/// Sets inputs, one after another.
pub fn put_inputs(store: &mut Store, inputs: &[Input])
    requires { Each (Puts store.old.values) inputs.now }
    ensures value { store.new ≡ record store.old { values = with_inputs inputs.now store.old.values } }
    ensures stored { IsStored store.new }
{
    for input in inputs {
        store.set(input.leaf, input.value);
    }
    let _ = store.values();
}

/// How a scan came out.
pub fn outcome_of(came: Result<(), Stop>) -> Outcome
    ensures { told result ≡ told_by came }
{
    match came {
        Ok(()) => Outcome::Ended,
        Err(Stop::Fault(fault)) => Outcome::Fault(fault),
        Err(Stop::OutOfTurns) => Outcome::OutOfTurns,
    }
}
