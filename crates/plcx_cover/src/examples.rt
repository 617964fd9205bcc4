//! Worked examples.
ghost use Rattle.std.specs.Prelude.{◌≡◌, ◌^◌, ◌-◌, [], ◌∷◌, codes};
ghost use Rattle.plcx_meaning.specs.ExampleLoops.{loop_block};
ghost use Rattle.plcx_meaning.specs.ExampleRungs.{motor};
ghost use Rattle.plcx_meaning.specs.ExampleWatch.{motor_heard, watched_loop, cut_loop_heard};
ghost use Rattle.plcx_cover.specs.Counts.{raised, all_grown, rows_of};
ghost use Rattle.plcx_cover.specs.Texts.{cover_text};

/// A motor, a loop in a called block whose scan is cut, and a count at its end.
pub fn examples_of_coverage()
    ensures motor { cover_text (motor ∷ []) (all_grown motor_heard (rows_of (motor ∷ [])))
        ≡ codes "pou,element,pin,evaluated,true\nMain,2,,3,1\nMain,3,,3,2\nMain,4,,3,2\nMain,5,,3,2\ncovered 4 of 4\n" }
    ensures not_run { cover_text (motor ∷ []) (all_grown [] (rows_of (motor ∷ [])))
        ≡ codes "pou,element,pin,evaluated,true\nMain,2,,0,0\nMain,3,,0,0\nMain,4,,0,0\nMain,5,,0,0\ncovered 0 of 4\n" }
    ensures cut { cover_text (watched_loop ∷ loop_block ∷ []) (all_grown cut_loop_heard (rows_of (watched_loop ∷ loop_block ∷ [])))
        ≡ codes "pou,element,pin,evaluated,true\nMain,1,,1,\nMain,2,ENO,0,0\nLoop,2,,2,\nLoop,4,OUT,2,\nLoop,6,,1,\nLoop,8,OUT,1,1\nLoop,9,,1,1\ncovered 0 of 3\n" }
    ensures at_the_end { raised (2 ^ 64 - 1) 5 ≡ 2 ^ 64 - 1 }
{}
