//! Laws of the definitions, each on a function of its own.
ghost use Rattle.std.specs.Prelude.{◌≡◌, ℕ, List};
ghost use Rattle.plcx_types.specs.Lists.{Each};
ghost use Rattle.plcx_meaning.specs.Layout.{Leaf, IsLayout};
ghost use Rattle.plcx_scan.specs.Files.{Record, records_of};
ghost use Rattle.plcx_tasks.specs.declared.planning.Instance.{Instance};
ghost use Rattle.plcx_tasks.specs.declared.planning.TaskPlan.{TaskPlan};
ghost use Rattle.plcx_tasks.specs.declared.ticking.TaskEvent.{TaskEvent};
ghost use Rattle.plcx_ticks.specs.Ticks.{AreNamedApart, StandsForTicks, IsFirstWrong};

/// A file of ticks stands for one list of events at most.
#[tactic(auto, using(crate::proofs::OneTicks::ticks_once))]
pub fn one_list_of_ticks()
    ensures { (plan : TaskPlan) (lays : List (List Leaf)) → AreNamedApart plan.instances → Each IsLayout lays
        → (bytes : List ℕ) (es fs : List TaskEvent) → StandsForTicks plan lays bytes es → StandsForTicks plan lays bytes fs → es ≡ fs }
{}

/// One record at most is the first that is wrong, and none is in a file that stands for events.
#[tactic(auto, using(crate::proofs::OneTicks::wrong_same, crate::proofs::OneTicks::file_not_wrong))]
pub fn one_wrong_record()
    ensures one { (instances : List Instance) (lays : List (List Leaf)) (rows : List Record) (m n : ℕ) → IsFirstWrong instances lays rows m → IsFirstWrong instances lays rows n → m ≡ n }
    ensures none { (plan : TaskPlan) (lays : List (List Leaf)) (bytes : List ℕ) (es : List TaskEvent) → StandsForTicks plan lays bytes es → (n : ℕ) → IsFirstWrong plan.instances lays (records_of bytes) n → ⊥ }
{}
