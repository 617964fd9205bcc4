//! The standard function blocks: names, pins, and what calls give.
use plcx_std::{
    DownCounter, Role, StdKind, StdState, Timer, UpCounter, ctd, ctu, pins, std_lookup, step, tof,
    tp,
};
use plcx_types::Ty;

const TIMER: Timer = Timer {
    input: false,
    preset: 10,
    output: false,
    elapsed: 0,
    memory: false,
    running: false,
    start: 0,
};

fn shows(leaves: Timer, output: bool, elapsed: i64) -> bool {
    leaves.output == output && leaves.elapsed == elapsed
}

#[test]
fn names_and_pins(rt: HostRuntime) {
    assert_eq!(rt; std_lookup(b"Ctud"), Some(StdKind::Ctud));
    assert_eq!(rt; std_lookup(b"ctux"), None);
    let pins = pins(StdKind::Ton);
    assert_eq!(rt; pins.len(), 6);
    if let Some(pin) = pins.last() {
        assert!(rt; pin.name == "START" && pin.ty == Ty::Time && pin.role == Role::Hidden);
    }
}

#[test]
fn leaves_by_their_place(rt: HostRuntime) {
    let mut state = StdState::new(StdKind::Rs);
    let on = StdState::new(StdKind::FTrig).get(0);
    state.set(0, on);
    step(StdKind::Rs, &mut state, 0);
    assert_eq!(rt; state.get(2).n(), 0);
    assert_eq!(rt; state.kind(), StdKind::Rs);
}

#[test]
fn counters_stop_at_their_ends(rt: HostRuntime) {
    let up = ctu(UpCounter {
        up: true,
        reset: false,
        preset: 0,
        output: false,
        count: 32_767,
        memory: false,
    });
    assert!(rt; up.count == 32_767 && up.output && up.memory);
    let down = ctd(DownCounter {
        down: true,
        load: false,
        preset: 0,
        output: false,
        count: -32_768,
        memory: false,
    });
    assert!(rt; down.count == -32_768 && down.output && down.memory);
}

#[test]
fn a_pulse_is_not_begun_again(rt: HostRuntime) {
    let rows = [
        (true, 0, true, 0),
        (false, 5, true, 5),
        (true, 7, true, 7),
        (true, 10, false, 10),
        (false, 11, false, 0),
    ];
    let mut leaves = TIMER;
    for (input, now, output, elapsed) in rows {
        leaves = tp(Timer { input, ..leaves }, now);
        assert!(rt; shows(leaves, output, elapsed));
    }
}

#[test]
fn an_off_delay(rt: HostRuntime) {
    let rows = [
        (true, 0, true, 0),
        (false, 3, true, 0),
        (false, 12, true, 9),
        (false, 13, false, 10),
    ];
    let mut leaves = TIMER;
    for (input, now, output, elapsed) in rows {
        leaves = tof(Timer { input, ..leaves }, now);
        assert!(rt; shows(leaves, output, elapsed));
    }
}
