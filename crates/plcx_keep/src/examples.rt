//! Worked examples.
ghost use Rattle.std.specs.Prelude.{◌≡◌, ◌++◌, [], ◌∷◌, pos, negsuc, codes};
ghost use Rattle.plcx_types.specs.declared.ty.Ty.TheVariants.{Bool, Word, Sint, Int, Usint, Time};
ghost use Rattle.plcx_types.specs.Literal.{value};
ghost use Rattle.plcx_keep.specs.declared.carry.Fate.TheVariants.{Kept, Changed, Fresh};
ghost use Rattle.plcx_keep.specs.Carries.{carry_of, row, lost_value};
ghost use Rattle.plcx_keep.specs.Texts.{state_lines, report_text};
ghost use Rattle.plcx_keep.specs.Examples.{leaf, alone, with_switch, only, carry, begun_anew};

/// What becomes of a value: it is kept, or changed, or lost.
pub fn examples_of_carrying()
    ensures in_any_case { carry_of (leaf (codes "Count") Int (pos 0) ∷ []) (only Int (pos 7)) (leaf (codes "COUNT") Int (pos 1) ∷ [])
        ≡ carry (row 0 Kept (value Int (pos 7)) ∷ []) [] }
    ensures wider { carry_of (alone Sint) (only Sint (pos 100)) with_switch
        ≡ carry (row 0 Changed (value Int (pos 100)) ∷ row 1 Fresh (value Bool (pos 0)) ∷ []) [] }
    ensures out_of_range { carry_of (alone Sint) (only Sint (negsuc 0)) (alone Usint) ≡ begun_anew Usint (value Sint (negsuc 0)) }
    ensures truth_is_no_number { carry_of (alone Bool) (only Bool (pos 1)) (alone Int) ≡ begun_anew Int (value Bool (pos 1)) }
    ensures time_is_no_number { carry_of (alone Int) (only Int (pos 1)) (alone Time) ≡ begun_anew Time (value Int (pos 1)) }
    ensures bits_are_no_number { carry_of (alone Word) (only Word (pos 1)) (alone Int) ≡ begun_anew Int (value Word (pos 1)) }
    ensures renamed { carry_of (alone Int) (only Int (pos 1)) (leaf (codes "B") Int (pos 3) ∷ [])
        ≡ carry (row 0 Fresh (value Int (pos 3)) ∷ []) (lost_value 0 (value Int (pos 1)) ∷ []) }
{}

/// Lines and reports.
pub fn examples_of_reports()
    ensures lines { state_lines with_switch (only Int (pos 100) ++ only Bool (pos 0)) ≡ codes "retain,C,INT#100\nretain,D,FALSE\n" }
    ensures changed_and_fresh { report_text (alone Sint) with_switch (carry (row 0 Changed (value Int (pos 100)) ∷ row 1 Fresh (value Bool (pos 0)) ∷ []) [])
        ≡ codes "changed,C,INT#100\nfresh,D,FALSE\n" }
    ensures fresh_and_dropped { report_text (alone Sint) (alone Usint) (begun_anew Usint (value Sint (negsuc 0)))
        ≡ codes "fresh,C,USINT#0\ndropped,C,SINT#-1\n" }
{}
