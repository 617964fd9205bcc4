//! Laws of the definitions, each on a function of its own.
ghost use Rattle.std.specs.Prelude.{◌≡◌, ℕ, List, true};
ghost use Rattle.plcx_types.specs.Lists.{Each};
ghost use Rattle.plcx_meaning.specs.Tree.{Expression, Statements, PouText};
ghost use Rattle.plcx_meaning.specs.Layout.{Scope, Leaf, layout, initial_in, IsLayout, IsSpelled, IsOutside, IsRetainedState};
ghost use Rattle.plcx_meaning.specs.Run.{Input, Event, Scan, Machine, Side, after, last_after};
ghost use Rattle.plcx_meaning.specs.Diagram.{DiagramElement, Pou, Project};
ghost use Rattle.plcx_meaning.specs.Evaluate.{Heard, DiagramState, DiagramSetting, program_does, scope_of};
ghost use Rattle.plcx_meaning.specs.Watch.{earlier, heard_earlier};
ghost use Rattle.plcx_meaning.specs.Execute.{TextState, TextSetting, program_runs};
ghost use Rattle.plcx_meaning.specs.Execute as text;
ghost use Rattle.plcx_meaning.specs.Templates.{unit_of};
ghost use Rattle.plcx_meaning.specs.Fits.{ProjectFits};
ghost use Rattle.plcx_meaning.specs.Ready.{IsReady};
ghost use Rattle.plcx_meaning.specs.Same.{Behaves};
ghost use Rattle.plcx_meaning.specs.Turns.{LeavesAtMost};
ghost use Rattle.plcx_meaning.specs.Laws.{OfPrograms, StatesAgree, TracesAgree, StartsAgree, OfPous, NetworksAgree, BodiesAgree, JumpingUnfolds, WhileUnfolds, diagram_calls, text_calls, StatementsLower, ElementsHear, CallsHear};

/// The text of a project that fits does what the project does: for every program, retained state, list of scans and restarts, and budget.
/// Both tell the same after each event, which is a step, with the same values on all declared paths.
/// What either keeps agrees throughout, the memories of each instance and the turns that are left included.
/// So both have the same trace: what is told and shown after each event, and what is retained at the end.
/// That holds also where no retained state is given, and each begins from the initial values of its own leaves.
pub fn same_behavior()
    ensures behaves { (project : Project) → ProjectFits project → Behaves project (unit_of project) }
    ensures agrees { OfPrograms StatesAgree }
    ensures traces { OfPrograms TracesAgree }
    ensures starts { OfPrograms StartsAgree }
{}

/// The statements of each network of a project that fits do what its elements do, and those of each body what the body does: from agreeing states,
/// at every site, time and budget, faults and cuts within called blocks included.
pub fn networks_agree()
    ensures networks { OfPous NetworksAgree }
    ensures bodies { OfPous BodiesAgree }
{}

/// A scan of a side that is halted changes nothing but the time of the last scan.
pub fn halting()
    ensures diagram { (m : Machine DiagramState) (turns time : ℕ) (inputs : List Input) (s : Side DiagramState) → s.halted ≡ true → after m turns (Scan time inputs) s ≡ record s { last = time } }
    ensures text { (m : Machine TextState) (turns time : ℕ) (inputs : List Input) (s : Side TextState) → s.halted ≡ true → after m turns (Scan time inputs) s ≡ record s { last = time } }
{}

/// The time of the last scan is set by each scan, also of a side that is halted, and kept by restarts.
pub fn times_of_scans()
    ensures diagram { (m : Machine DiagramState) (turns : ℕ) (e : Event) (s : Side DiagramState) → (after m turns e s).last ≡ last_after s.last e }
    ensures text { (m : Machine TextState) (turns : ℕ) (e : Event) (s : Side TextState) → (after m turns e s).last ≡ last_after s.last e }
{}

/// Neither side makes more turns, however a piece of a scan comes out.
pub fn turns_never_grow()
    ensures diagram { (time : ℕ) (project : Project) (p : Pou) (d : DiagramState) → LeavesAtMost (λ e. e.left) d.left (program_does time project p d) }
    ensures text { (time : ℕ) (unit : List PouText) (p : PouText) (g : TextState) → LeavesAtMost (λ h. h.left) g.left (program_runs time unit p g) }
    ensures statements { (n time : ℕ) (unit : List PouText) → StatementsLower (text_calls n time unit) }
{}

/// A loop is its test, one turn, and the loop again; and so is a body with jumps from a network on. The numbers that bound the recursions of the definitions never show.
pub fn loops()
    ensures diagram { (n time : ℕ) (project : Project) (networks : List (List DiagramElement)) (c : DiagramSetting) → c.called ≡ diagram_calls n time project → JumpingUnfolds networks c }
    ensures text { (n time : ℕ) (unit : List PouText) (c : TextSetting) (e : Expression) (ss : Statements) → WhileUnfolds c (text_calls n time unit) e ss }
{}

/// Whoever sets or shows leaves meets declared ones alone, and so no variable that the compiler keeps for itself.
pub fn outside_leaves()
    ensures { (c : Scope) → Each IsOutside (layout c) }
{}

/// Each leaf is spelled as its names are declared: without case that is its path.
pub fn spelled_leaves()
    ensures { (c : Scope) → Each IsSpelled (layout c) }
{}

/// No two leaves of a program have one path, and each begins with a number of its type; so the initial values are a retained state.
pub fn distinct_leaves()
    ensures diagrams { (project : Project) → ProjectFits project → Each (λ p. IsLayout (layout (scope_of project p))) project }
    ensures texts { (unit : List PouText) → IsReady unit → Each (λ p. IsLayout (layout (text.scope_of unit p))) unit }
    ensures initial { (ls : List Leaf) → IsLayout ls → IsRetainedState ls (initial_in ls) }
{}

/// What a watch hears changes nothing else: a piece of a scan does the same whatever was heard before it, and adds to that what it tells.
pub fn hearing()
    ensures program { (time : ℕ) (project : Project) (p : Pou) (hs : List Heard) (d : DiagramState) → program_does time project p (earlier hs d) ≡ heard_earlier hs (program_does time project p d) }
    ensures blocks { (n time : ℕ) (project : Project) → CallsHear (diagram_calls n time project) }
    ensures elements { (n time : ℕ) (project : Project) (c : DiagramSetting) → c.called ≡ diagram_calls n time project → ElementsHear c }
{}
