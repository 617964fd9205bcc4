//! Laws of the definitions, each on a function of its own.
ghost use Rattle.std.specs.Prelude.{◌≡◌, ℕ, List};
ghost use Rattle.plcx_meaning.specs.Layout.{IsLayout};
ghost use Rattle.plcx_meaning.specs.Layout.{Leaf as Meant};
ghost use Rattle.plcx_meaning.specs.Run as run;
ghost use Rattle.plcx_state.specs.declared.layout.Leaf.{Leaf};
ghost use Rattle.plcx_state.specs.Layouts.{all_meant};
ghost use Rattle.plcx_scan.specs.Events.{Event, meant_events, CanFollow};
ghost use Rattle.plcx_scan.specs.Files.{Record, records_of, StandsForEvents, IsFirstWrong};

/// Events that may come one after another are such events of the meaning.
#[tactic(auto, using(crate::proofs::MeantEvents::events_meant))]
pub fn events_are_meant()
    ensures { (leaves : List Leaf) (last : ℕ) (events : List Event) → CanFollow leaves last events → run.AreEvents (all_meant leaves) last (meant_events leaves events) }
{}

/// A file stands for one list of events at most.
#[tactic(auto, using(crate::proofs::OneEvents::events_once))]
pub fn one_list_of_events()
    ensures { (leaves : List Meant) → IsLayout leaves → (bytes : List ℕ) (es fs : List run.Event) → StandsForEvents leaves bytes es → StandsForEvents leaves bytes fs → es ≡ fs }
{}

/// One record at most is the first that is wrong, and none is in a file that stands for events.
#[tactic(auto, using(crate::proofs::OneEvents::wrong_same, crate::proofs::OneEvents::file_not_wrong))]
pub fn one_wrong_record()
    ensures one { (leaves : List Meant) (rows : List Record) (m n : ℕ) → IsFirstWrong leaves rows m → IsFirstWrong leaves rows n → m ≡ n }
    ensures none { (leaves : List Meant) (bytes : List ℕ) (es : List run.Event) → StandsForEvents leaves bytes es → (n : ℕ) → IsFirstWrong leaves (records_of bytes) n → ⊥ }
{}
