//! Which texts are ready, and what that is worth.
ghost use Rattle.std.specs.Prelude.{◌≡◌, ℕ, List, [], ◌∷◌, Some};
ghost use Rattle.plcx_meaning.specs.Tree.{PouText};
ghost use Rattle.plcx_meaning.specs.Execute.{program_named};
ghost use Rattle.plcx_meaning.specs.Diagram.{Project};
ghost use Rattle.plcx_meaning.specs.Templates.{unit_of};
ghost use Rattle.plcx_meaning.specs.Fits.{ProjectFits};
ghost use Rattle.plcx_meaning.specs.Ready.{IsReady};
ghost use Rattle.plcx_meaning.specs.Laws.{NeverStuck};
ghost use Rattle.plcx_meaning.specs.ReadyExamples.{ready_unit, unbound, bound_to_number, bound_to_temporary, undeclared, undeclared_target, mistyped, no_condition, operator_called, input_read, equal_labels, large_label, formal_twice, formal_unknown, out_of_range, declared_twice, listed_name, wrong_initial, stored_constant, instance_as_input, program_in_out, unknown_type, stored_input, within_itself};

/// A scan of a program of a ready unit has a meaning, whatever its store holds, at every time and budget.
pub fn never_stuck()
    ensures { (unit : List PouText) → IsReady unit → (name : List ℕ) (p : PouText) → program_named name unit ≡ Some p → NeverStuck unit p }
{}

/// The text of a project that fits is ready.
pub fn texts_are_ready()
    ensures { (project : Project) → ProjectFits project → IsReady (unit_of project) }
{}

/// A text that is ready, and texts that are not, each for one reason.
pub fn readiness_of_texts()
    ensures ready { IsReady ready_unit }
    ensures unbound { IsReady unbound → ⊥ }
    ensures bound_to_number { IsReady bound_to_number → ⊥ }
    ensures bound_to_temporary { IsReady bound_to_temporary → ⊥ }
    ensures undeclared { IsReady undeclared → ⊥ }
    ensures undeclared_target { IsReady undeclared_target → ⊥ }
    ensures mistyped { IsReady mistyped → ⊥ }
    ensures no_condition { IsReady no_condition → ⊥ }
    ensures operator_called { IsReady operator_called → ⊥ }
    ensures input_read { IsReady input_read → ⊥ }
    ensures equal_labels { IsReady equal_labels → ⊥ }
    ensures large_label { IsReady large_label → ⊥ }
    ensures formal_twice { IsReady formal_twice → ⊥ }
    ensures formal_unknown { IsReady formal_unknown → ⊥ }
    ensures out_of_range { IsReady out_of_range → ⊥ }
    ensures declared_twice { IsReady declared_twice → ⊥ }
    ensures listed_name { IsReady listed_name → ⊥ }
    ensures wrong_initial { IsReady wrong_initial → ⊥ }
    ensures stored_constant { IsReady stored_constant → ⊥ }
    ensures instance_as_input { IsReady instance_as_input → ⊥ }
    ensures program_in_out { IsReady program_in_out → ⊥ }
    ensures unknown_type { IsReady unknown_type → ⊥ }
    ensures stored_input { IsReady stored_input → ⊥ }
    ensures within_itself { IsReady (within_itself ∷ []) → ⊥ }
{}
