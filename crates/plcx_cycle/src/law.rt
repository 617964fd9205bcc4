//! What holds of the definitions.
ghost use Rattle.std.specs.Prelude.{◌≡◌, ◌≢◌, ℕ, List, Option, Some, Result, Err};
ghost use Rattle.plcx_xml.specs.declared.tree.Node.{Node};
ghost use Rattle.plcx_xml.specs.declared.tree.Node.TheOpen.{Node-F};
ghost use Rattle.plcx_xml.specs.declared.tree.Element.{Element};
ghost use Rattle.plcx_meaning.specs.Diagram as diagram;
ghost use Rattle.plcx_model.specs.declared.project.Project.{Project};
ghost use Rattle.plcx_words.specs.Command.{TaskRun};
ghost use Rattle.plcx_cycle.specs.Cycles.{ComesTo};
ghost use Rattle.plcx_cycle.specs.declared.error.CycleError.{CycleError};
ghost use Rattle.plcx_cycle.specs.declared.error.CycleError.TheVariants.{NoMemory};

use plcx_plan::{no_plan, one_fault, one_plan};

/// A run of tasks comes to one thing, where the desk tells its ticks, nothing fails and there is memory.
pub fn one_cycle()
    ensures { (root : Node-F Node Element) (project : Project) (diagrams : diagram.Project) (told : List ℕ → Option (List ℕ)) (r : TaskRun) (bytes : List ℕ) → told r.ticks ≡ Some bytes
        → (x y : Result (List ℕ) CycleError) → x ≢ Err NoMemory → y ≢ Err NoMemory → ComesTo told ⊥ root project diagrams r x → ComesTo told ⊥ root project diagrams r y → x ≡ y }
{
    one_plan();
    one_fault();
    no_plan();
}
