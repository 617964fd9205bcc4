//! The side of a text: a program of a unit that is ready, between two events.
ghost use Rattle.std.specs.Prelude.{◌≡◌, ◌↔◌, None, Some, IfOk, IsErrOf, nat_abs};
ghost use Rattle.plcx_types.specs.Lists.{Each};
ghost use Rattle.plcx_meaning.specs.Layout.{Warm, Cold};
ghost use Rattle.plcx_meaning.specs.Ready.{IsReady};
ghost use Rattle.plcx_meaning.specs.Run.{Again};
ghost use Rattle.plcx_meaning.specs.Execute.{program_named};
ghost use Rattle.plcx_meaning.specs.Tree.{PouText as Meant};
ghost use Rattle.plcx_st.specs.Meant.{meant};
ghost use Rattle.plcx_state.specs.Layouts.{IsLaid};
ghost use Rattle.plcx_state.specs.Stores.{IsStored};
ghost use Rattle.plcx_scan.specs.Events.{IsNext, IsInput, scan_of};
ghost use Rattle.plcx_scan.specs.Sides.{Tells, Brings};
ghost use Rattle.plcx_scan.specs.declared.open.OpenError.TheVariants.{NoProgram};
ghost use Rattle.plcx_text_numbered.specs.Texts.{IsTextOf};
ghost use Rattle.plcx_text_layout.specs.Opening.{IsProgramAt, IsKeptFor};
ghost use Rattle.plcx_run.specs.Standing.{IsStanding};

use plcx_frames::{Frame, frame_of, outcome_of, put_inputs, state_of};
use plcx_known::Scope;
use plcx_scan::{Input, OpenError, Outcome, Side};
use plcx_state::{Layout, Retained, Store, print_retained};
use plcx_steps::{Program, State};
use plcx_text_layout::{layout_at, program_place};
use plcx_text_program::prepared;
use plcx_text_runnable::{bodies_are_there, prepared_can_run, programs_stand};
use plcx_text_steps::{Text, scan};
use plcx_text_stored::{
    inputs_are_stored, one_agreement, scans_are_stored, store_is_typed, store_opens,
    store_restarts, store_shows,
};
use plcx_types::{Ident, NoMemory, Val};
use plcx_unit::Ready;
use std::alloc::Global;

/// The place of the program of a name. More POUs than 32 bits count would not have fitted.
fn place_of(ready: &Ready, name: &Ident) -> Result<u32, OpenError>
    ensures there { IfOk result (IsProgramAt (meant ready.now) name.now) }
    ensures no_program { IsErrOf result NoProgram ↔ (program_named name.now (meant ready.now) ≡ None) }
{
    let Some(place) = program_place(ready, name) else {
        return Err(OpenError::NoProgram);
    };
    match u32::try_from(place) {
        Ok(place) => Ok(place),
        Err(_) => Err(OpenError::NoMemory),
    }
}

/// A program of a unit that is ready, prepared, with its store. All that a scan needs is taken when it is opened.
#[derive(Debug, Drop)]
pub struct TextSide<'a> {
    ready: &'a Ready,
    place: u32,
    layout: Layout,
    program: Program,
    text: Text,
    state: State,
    frame: Frame,
    halted: bool,
    last: i64,
    ghost stands: { IsStanding (meant ready.now) place layout program text state frame },
}

impl<'a> TextSide<'a> {
    ghost use Rattle.plcx_run.specs.Sides.{IsOpened};

    /// Its unit is ready, its layout is one, and its store keeps the types that it began with.
    fn keeps_types(&self)
        ensures ready { IsReady (meant self.now.ready.now) }
        ensures laid { IsLaid self.now.layout }
        ensures stored { IsStored self.now.state.store }
    {
        let _ = self.ready.unit();
        let _ = self.layout.leaves();
        let _ = self.state.store.values();
    }

    /// The side of the program of a name, from a retained state.
    pub fn open(
        alloc: Global,
        ready: &'a Ready,
        program: &Ident,
        retained: &Retained,
    ) -> Result<TextSide<'a>, OpenError>
        requires retained { (p : Meant) → program_named program.now (meant ready.now) ≡ Some p → IsKeptFor (meant ready.now) p retained.now }
        ensures opened { IfOk result (IsOpened (meant ready.entry.now) program.now retained.now) }
        ensures no_program { IsErrOf result NoProgram ↔ (program_named program.now (meant ready.entry.now) ≡ None) }
    {
        if program_place(ready, program).is_none() {
            return Err(OpenError::NoProgram);
        }
        let (prepared, text) = prepared(alloc, ready)?;
        TextSide::of_prepared(alloc, ready, program, prepared, text, retained)
    }

    /// The side of the program of a name in a unit that is prepared, from a retained state.
    fn of_prepared(
        alloc: Global,
        ready: &'a Ready,
        name: &Ident,
        program: Program,
        text: Text,
        retained: &Retained,
    ) -> Result<TextSide<'a>, OpenError>
        requires prepared { IsTextOf (meant ready.now) program text }
        requires retained { (p : Meant) → program_named name.now (meant ready.now) ≡ Some p → IsKeptFor (meant ready.now) p retained.now }
        ensures opened { IfOk result (IsOpened (meant ready.entry.now) name.now retained.now) }
        ensures no_program { IsErrOf result NoProgram ↔ (program_named name.now (meant ready.entry.now) ≡ None) }
    {
        let place = place_of(ready, name)?;
        store_opens();
        bodies_are_there();
        let scope = Scope::of(alloc, ready.unit().pous.as_slice())?;
        let layout = layout_at(alloc, &scope, place as usize)?;
        let _ = layout.leaves();
        let store = Store::open(alloc, &layout, retained)?;
        let state = state_of(alloc, store)?;
        let frame = frame_of(alloc, &program, place)?;
        Ok(TextSide {
            ready,
            place,
            layout,
            program,
            text,
            state,
            frame,
            halted: false,
            last: 0,
        })
    }
}

impl Side for TextSide<'_> {
    ghost use Rattle.plcx_meaning.specs.Execute.{TextState};
    ghost use Rattle.plcx_run.specs.Sides.{unit, program as program_of, machine_of, laid_of, held_of, last_of, StandsFor};

    ghost State = { TextState };

    ghost machine = { machine_of };

    ghost stands_for = { StandsFor };

    ghost laid = { laid_of };

    ghost held = { held_of };

    ghost last = { last_of };

    fn layout(&self) -> &Layout {
        one_agreement();
        &self.layout
    }

    fn value(&self, leaf: u32) -> Val {
        self.keeps_types();
        self.state.store.get(leaf)
    }

    fn values(&self) -> &[Val] {
        self.keeps_types();
        one_agreement();
        store_shows();
        self.state.store.values()
    }

    fn scan(&mut self, time: i64, inputs: &[Input], turns: u64) -> Outcome
        requires time { IsNext (last_of self.old) time }
        requires inputs { Each (IsInput (laid_of self.old).leaves) inputs.now }
        ensures outcome { Tells (machine_of self.old) turns (scan_of (laid_of self.old).leaves time inputs.now) (StandsFor self.old) result }
        ensures meaning { Brings (machine_of self.old) turns (scan_of (laid_of self.old).leaves time inputs.now) (StandsFor self.old) (StandsFor self.new) }
        ensures unit { unit self.new ≡ unit self.old }
        ensures program { program_of self.new ≡ program_of self.old }
        ensures machine { machine_of self.new ≡ machine_of self.old }
        ensures laid { laid_of self.new ≡ laid_of self.old }
        ensures time { last_of self.new ≡ nat_abs time }
    {
        self.last = time;
        if self.halted {
            return Outcome::Halted;
        }
        self.keeps_types();
        bodies_are_there();
        prepared_can_run();
        programs_stand();
        inputs_are_stored();
        scans_are_stored();
        store_is_typed();
        one_agreement();
        put_inputs(&mut self.state.store, inputs);
        self.state.left = turns;
        let came = scan(
            &self.program,
            &self.text,
            self.place,
            time,
            &mut self.frame.wires,
            &mut self.frame.in_outs,
            &mut self.state,
        );
        self.halted = came.is_err();
        outcome_of(came)
    }

    fn warm(&mut self)
        ensures meaning { Brings (machine_of self.old) 0 (Again Warm) (StandsFor self.old) (StandsFor self.new) }
        ensures unit { unit self.new ≡ unit self.old }
        ensures program { program_of self.new ≡ program_of self.old }
        ensures machine { machine_of self.new ≡ machine_of self.old }
        ensures laid { laid_of self.new ≡ laid_of self.old }
        ensures time { last_of self.new ≡ last_of self.old }
    {
        self.keeps_types();
        one_agreement();
        store_restarts();
        self.state.store.warm();
        self.halted = false;
    }

    fn cold(&mut self)
        ensures meaning { Brings (machine_of self.old) 0 (Again Cold) (StandsFor self.old) (StandsFor self.new) }
        ensures unit { unit self.new ≡ unit self.old }
        ensures program { program_of self.new ≡ program_of self.old }
        ensures machine { machine_of self.new ≡ machine_of self.old }
        ensures laid { laid_of self.new ≡ laid_of self.old }
        ensures time { last_of self.new ≡ last_of self.old }
    {
        self.keeps_types();
        one_agreement();
        store_restarts();
        self.state.store.cold();
        self.halted = false;
    }

    fn retained_text(&self, alloc: Global) -> Result<Vec<u8>, NoMemory> {
        print_retained(alloc, &self.layout, &self.state.store)
    }
}
