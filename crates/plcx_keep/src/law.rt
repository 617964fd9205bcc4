//! Laws of the definitions, each on a function of its own.
ghost use Rattle.std.specs.Prelude.{◌≡◌, List, Option};
ghost use Rattle.plcx_types.specs.Lists.{Each};
ghost use Rattle.plcx_types.specs.Value.{Value};
ghost use Rattle.plcx_meaning.specs.Layout.{IsRetainedState};
ghost use Rattle.plcx_state.specs.declared.layout.Leaf.{Leaf};
ghost use Rattle.plcx_state.specs.Layouts.{Laid, IsLaid, all_meant};
ghost use Rattle.plcx_state.specs.Lines.{StandsForRetained};
ghost use Rattle.plcx_state.specs.Retains.{IsRetainedOf, kept_at};
ghost use Rattle.plcx_state.specs.Tables.{HasPlainNames};
ghost use Rattle.plcx_keep.specs.declared.carry.CarryRow.{CarryRow};
ghost use Rattle.plcx_keep.specs.Carries.{carry_of};
ghost use Rattle.plcx_keep.specs.States.{AreRowsOf, IsCarried};
ghost use Rattle.plcx_keep.specs.Texts.{state_lines};
ghost use Rattle.plcx_keep.specs.Laws.{IsUnchanged, KeepsTwice};

/// Rows make one state at most.
#[tactic(auto, using(crate::proofs::OneState::one_state))]
pub fn one_state()
    ensures { (leaves : List Leaf) (rows : List CarryRow) (x y : List (Option Value)) → AreRowsOf leaves rows
        → IsCarried leaves rows x → IsCarried leaves rows y → x ≡ y }
{}

/// The state that rows make is a retained state of the meaning, so that runs go on from it.
pub fn runs_go_on()
    ensures { (l : Laid) (rows : List CarryRow) (kept : List (Option Value)) → IsLaid l → IsCarried l.leaves rows kept
        → IsRetainedState (all_meant l.leaves) (kept_at l.leaves kept) }
{}

/// From a layout to itself each value is kept, none is lost, and the state is the same.
pub fn nothing_changes()
    ensures { (l : Laid) (kept : List (Option Value)) → IsLaid l → IsRetainedOf l.leaves kept → IsUnchanged l.leaves kept }
{}

/// A leaf that is kept twice in a row has its first value.
#[tactic(auto, using(crate::proofs::Twice::keeps_twice))]
pub fn kept_twice()
    ensures { (before : List Leaf) (middle : Laid) (after : List Leaf) (kept more : List (Option Value)) → IsLaid middle
        → IsCarried middle.leaves (carry_of before kept middle.leaves).rows more → KeepsTwice before middle.leaves after kept more }
{}

/// The lines of a state are read as that state.
#[tactic(auto, using(crate::proofs::ReadAgain::read_again))]
pub fn lines_are_read_again()
    ensures { (l : Laid) (kept : List (Option Value)) → IsLaid l → Each HasPlainNames l.leaves → IsRetainedOf l.leaves kept
        → StandsForRetained l.leaves (state_lines l.leaves kept) kept }
{}
