//! Laws of the definitions, each on a function of its own.
ghost use Rattle.plcx_std.specs.declared.state.StdState.{StdState};
ghost use Rattle.plcx_std.specs.Pins.{pins};
ghost use Rattle.plcx_std.specs.State.{kind_of, values};
ghost use Rattle.std.specs.Prelude.{◌≡◌, Bool, List, pos, int_le, ◌∷◌, map};
ghost use Rattle.plcx_std.specs.History.{LatchCall, CounterCall, TimerCall, NeverFall, PresetsFit, r_trig_shows, f_trig_shows, sr_shows, rs_shows, ctu_counts, ctd_counts, ton_shows, tof_shows, tp_shows};
ghost use Rattle.plcx_std.specs.Calls.{after_r_trig, after_f_trig, after_sr, after_rs, after_ctu, after_ctd, after_ton, after_tof, after_tp, on_delay_shown, timer_shown};

/// What a block shows after any list of calls on default leaves is told by the calls alone, and by no stored leaf.
pub fn histories()
    ensures r_trig { (clocks : List Bool) → (after_r_trig clocks).output ≡ r_trig_shows clocks }
    ensures f_trig { (clocks : List Bool) → (after_f_trig clocks).output ≡ f_trig_shows clocks }
    ensures sr { (calls : List LatchCall) → (after_sr calls).output ≡ sr_shows calls }
    ensures rs { (calls : List LatchCall) → (after_rs calls).output ≡ rs_shows calls }
    ensures ctu_count { (calls : List CounterCall) → (after_ctu calls).count ≡ ctu_counts calls }
    ensures ctu_output { (c : CounterCall) (earlier : List CounterCall) → (after_ctu (c ∷ earlier)).output ≡ int_le c.preset (ctu_counts (c ∷ earlier)) }
    ensures ctd_count { (calls : List CounterCall) → PresetsFit calls → (after_ctd calls).count ≡ ctd_counts calls }
    ensures ctd_output { (c : CounterCall) (earlier : List CounterCall) → PresetsFit (c ∷ earlier) → (after_ctd (c ∷ earlier)).output ≡ int_le (ctd_counts (c ∷ earlier)) (pos 0) }
    ensures ton { (calls : List TimerCall) → NeverFall calls → on_delay_shown (after_ton calls) ≡ ton_shows calls }
    ensures tof { (calls : List TimerCall) → NeverFall calls → timer_shown (after_tof calls) ≡ tof_shows calls }
    ensures tp { (calls : List TimerCall) → NeverFall calls → timer_shown (after_tp calls) ≡ tp_shows calls }
{}

/// The leaves of a block are its pins, each with the type of its pin.
pub fn leaves_are_pins()
    ensures { (s : StdState) → map (λ v. v.ty) (values s) ≡ map (λ p. p.ty) (pins (kind_of s)) }
{}
