//! Leaves by their place.
ghost use Rattle.std.specs.Prelude.{◌≡◌, ◌<◌, Some, IfSome, slice_get, slice_set};
ghost use Rattle.plcx_types.specs.declared.ty.Ty.TheVariants as ty;
ghost use Rattle.plcx_std.specs.Values.{flag, time, int, on_delay_values, timer_values, up_values, down_values, up_down_values, latch_values, edge_values};

use crate::leaves::{DownCounter, Edge, Latch, OnDelay, Timer, UpCounter, UpDownCounter};
use plcx_types::{Ty, Val, default_of};

fn flag(b: bool) -> Val
    ensures { result ≡ flag b }
{
    Val::new(Ty::Bool, i128::from(b)).unwrap_or(default_of(Ty::Bool))
}

fn time(n: i64) -> Val
    ensures { result ≡ time n }
{
    Val::new(Ty::Time, i128::from(n)).unwrap_or(default_of(Ty::Time))
}

fn int(n: i16) -> Val
    ensures { result ≡ int n }
{
    Val::new(Ty::Int, i128::from(n)).unwrap_or(default_of(Ty::Int))
}

fn flag_of(v: Val) -> bool
    requires { v.ty ≡ ty.Bool }
    ensures { flag result ≡ v }
{
    v.n() == 1
}

fn time_of(v: Val) -> i64
    requires { v.ty ≡ ty.Time }
    ensures { time result ≡ v }
{
    v.n() as i64
}

fn int_of(v: Val) -> i16
    requires { v.ty ≡ ty.Int }
    ensures { int result ≡ v }
{
    v.n() as i16
}

impl OnDelay {
    pub(crate) fn get(self, leaf: u32) -> Val
        requires { leaf < 6 }
        ensures { slice_get (on_delay_values self) leaf ≡ Some result }
    {
        match leaf {
            0 => flag(self.input),
            1 => time(self.preset),
            2 => flag(self.output),
            3 => time(self.elapsed),
            4 => flag(self.running),
            5 => time(self.start),
            _ => unreachable!(),
        }
    }

    pub(crate) fn with(self, leaf: u32, v: Val) -> OnDelay
        requires leaf { leaf < 6 }
        requires ty { IfSome (slice_get (on_delay_values self) leaf) (λ old. old.ty ≡ v.ty) }
        ensures { on_delay_values result ≡ slice_set (on_delay_values self) leaf v }
    {
        match leaf {
            0 => OnDelay {
                input: flag_of(v),
                ..self
            },
            1 => OnDelay {
                preset: time_of(v),
                ..self
            },
            2 => OnDelay {
                output: flag_of(v),
                ..self
            },
            3 => OnDelay {
                elapsed: time_of(v),
                ..self
            },
            4 => OnDelay {
                running: flag_of(v),
                ..self
            },
            5 => OnDelay {
                start: time_of(v),
                ..self
            },
            _ => unreachable!(),
        }
    }
}

impl Timer {
    pub(crate) fn get(self, leaf: u32) -> Val
        requires { leaf < 7 }
        ensures { slice_get (timer_values self) leaf ≡ Some result }
    {
        match leaf {
            0 => flag(self.input),
            1 => time(self.preset),
            2 => flag(self.output),
            3 => time(self.elapsed),
            4 => flag(self.memory),
            5 => flag(self.running),
            6 => time(self.start),
            _ => unreachable!(),
        }
    }

    pub(crate) fn with(self, leaf: u32, v: Val) -> Timer
        requires leaf { leaf < 7 }
        requires ty { IfSome (slice_get (timer_values self) leaf) (λ old. old.ty ≡ v.ty) }
        ensures { timer_values result ≡ slice_set (timer_values self) leaf v }
    {
        match leaf {
            0 => Timer {
                input: flag_of(v),
                ..self
            },
            1 => Timer {
                preset: time_of(v),
                ..self
            },
            2 => Timer {
                output: flag_of(v),
                ..self
            },
            3 => Timer {
                elapsed: time_of(v),
                ..self
            },
            4 => Timer {
                memory: flag_of(v),
                ..self
            },
            5 => Timer {
                running: flag_of(v),
                ..self
            },
            6 => Timer {
                start: time_of(v),
                ..self
            },
            _ => unreachable!(),
        }
    }
}

impl UpCounter {
    pub(crate) fn get(self, leaf: u32) -> Val
        requires { leaf < 6 }
        ensures { slice_get (up_values self) leaf ≡ Some result }
    {
        match leaf {
            0 => flag(self.up),
            1 => flag(self.reset),
            2 => int(self.preset),
            3 => flag(self.output),
            4 => int(self.count),
            5 => flag(self.memory),
            _ => unreachable!(),
        }
    }

    pub(crate) fn with(self, leaf: u32, v: Val) -> UpCounter
        requires leaf { leaf < 6 }
        requires ty { IfSome (slice_get (up_values self) leaf) (λ old. old.ty ≡ v.ty) }
        ensures { up_values result ≡ slice_set (up_values self) leaf v }
    {
        match leaf {
            0 => UpCounter {
                up: flag_of(v),
                ..self
            },
            1 => UpCounter {
                reset: flag_of(v),
                ..self
            },
            2 => UpCounter {
                preset: int_of(v),
                ..self
            },
            3 => UpCounter {
                output: flag_of(v),
                ..self
            },
            4 => UpCounter {
                count: int_of(v),
                ..self
            },
            5 => UpCounter {
                memory: flag_of(v),
                ..self
            },
            _ => unreachable!(),
        }
    }
}

impl DownCounter {
    pub(crate) fn get(self, leaf: u32) -> Val
        requires { leaf < 6 }
        ensures { slice_get (down_values self) leaf ≡ Some result }
    {
        match leaf {
            0 => flag(self.down),
            1 => flag(self.load),
            2 => int(self.preset),
            3 => flag(self.output),
            4 => int(self.count),
            5 => flag(self.memory),
            _ => unreachable!(),
        }
    }

    pub(crate) fn with(self, leaf: u32, v: Val) -> DownCounter
        requires leaf { leaf < 6 }
        requires ty { IfSome (slice_get (down_values self) leaf) (λ old. old.ty ≡ v.ty) }
        ensures { down_values result ≡ slice_set (down_values self) leaf v }
    {
        match leaf {
            0 => DownCounter {
                down: flag_of(v),
                ..self
            },
            1 => DownCounter {
                load: flag_of(v),
                ..self
            },
            2 => DownCounter {
                preset: int_of(v),
                ..self
            },
            3 => DownCounter {
                output: flag_of(v),
                ..self
            },
            4 => DownCounter {
                count: int_of(v),
                ..self
            },
            5 => DownCounter {
                memory: flag_of(v),
                ..self
            },
            _ => unreachable!(),
        }
    }
}

impl UpDownCounter {
    pub(crate) fn get(self, leaf: u32) -> Val
        requires { leaf < 10 }
        ensures { slice_get (up_down_values self) leaf ≡ Some result }
    {
        match leaf {
            0 => flag(self.up),
            1 => flag(self.down),
            2 => flag(self.reset),
            3 => flag(self.load),
            4 => int(self.preset),
            5 => flag(self.output_up),
            6 => flag(self.output_down),
            7 => int(self.count),
            8 => flag(self.memory_up),
            9 => flag(self.memory_down),
            _ => unreachable!(),
        }
    }

    pub(crate) fn with(self, leaf: u32, v: Val) -> UpDownCounter
        requires leaf { leaf < 10 }
        requires ty { IfSome (slice_get (up_down_values self) leaf) (λ old. old.ty ≡ v.ty) }
        ensures { up_down_values result ≡ slice_set (up_down_values self) leaf v }
    {
        match leaf {
            0 => UpDownCounter {
                up: flag_of(v),
                ..self
            },
            1 => UpDownCounter {
                down: flag_of(v),
                ..self
            },
            2 => UpDownCounter {
                reset: flag_of(v),
                ..self
            },
            3 => UpDownCounter {
                load: flag_of(v),
                ..self
            },
            4 => UpDownCounter {
                preset: int_of(v),
                ..self
            },
            5 => UpDownCounter {
                output_up: flag_of(v),
                ..self
            },
            6 => UpDownCounter {
                output_down: flag_of(v),
                ..self
            },
            7 => UpDownCounter {
                count: int_of(v),
                ..self
            },
            8 => UpDownCounter {
                memory_up: flag_of(v),
                ..self
            },
            9 => UpDownCounter {
                memory_down: flag_of(v),
                ..self
            },
            _ => unreachable!(),
        }
    }
}

impl Latch {
    pub(crate) fn get(self, leaf: u32) -> Val
        requires { leaf < 3 }
        ensures { slice_get (latch_values self) leaf ≡ Some result }
    {
        match leaf {
            0 => flag(self.set),
            1 => flag(self.reset),
            2 => flag(self.output),
            _ => unreachable!(),
        }
    }

    pub(crate) fn with(self, leaf: u32, v: Val) -> Latch
        requires leaf { leaf < 3 }
        requires ty { IfSome (slice_get (latch_values self) leaf) (λ old. old.ty ≡ v.ty) }
        ensures { latch_values result ≡ slice_set (latch_values self) leaf v }
    {
        match leaf {
            0 => Latch {
                set: flag_of(v),
                ..self
            },
            1 => Latch {
                reset: flag_of(v),
                ..self
            },
            2 => Latch {
                output: flag_of(v),
                ..self
            },
            _ => unreachable!(),
        }
    }
}

impl Edge {
    pub(crate) fn get(self, leaf: u32) -> Val
        requires { leaf < 3 }
        ensures { slice_get (edge_values self) leaf ≡ Some result }
    {
        match leaf {
            0 => flag(self.clock),
            1 => flag(self.output),
            2 => flag(self.memory),
            _ => unreachable!(),
        }
    }

    pub(crate) fn with(self, leaf: u32, v: Val) -> Edge
        requires leaf { leaf < 3 }
        requires ty { IfSome (slice_get (edge_values self) leaf) (λ old. old.ty ≡ v.ty) }
        ensures { edge_values result ≡ slice_set (edge_values self) leaf v }
    {
        match leaf {
            0 => Edge {
                clock: flag_of(v),
                ..self
            },
            1 => Edge {
                output: flag_of(v),
                ..self
            },
            2 => Edge {
                memory: flag_of(v),
                ..self
            },
            _ => unreachable!(),
        }
    }
}
