//! What holds of the definitions, each on a function of its own.
ghost use Rattle.std.specs.Prelude.{◌≡◌, ℕ};
ghost use Rattle.plcx_xml.specs.declared.tree.Node.{Node};
ghost use Rattle.plcx_xml.specs.declared.tree.Node.TheOpen.{Node-F};
ghost use Rattle.plcx_xml.specs.declared.tree.Element.{Element};
ghost use Rattle.plcx_model.specs.declared.project.Project.{Project};
ghost use Rattle.plcx_tasks.specs.declared.planning.TaskPlan.{TaskPlan};
ghost use Rattle.plcx_plan.specs.declared.condition.TaskKind.{TaskKind};
ghost use Rattle.plcx_plan.specs.Plans.{StandsForPlan, IsFaultOf};

/// A root has one plan.
pub fn one_plan()
    ensures { (root : Node-F Node Element) (project : Project) (a b : TaskPlan) → StandsForPlan root project a → StandsForPlan root project b → a ≡ b }
{}

/// The first that is wrong with the tasks of a root is one, with its place.
pub fn one_fault()
    ensures { (root : Node-F Node Element) (project : Project) (k j : TaskKind) (at by : ℕ) → IsFaultOf root project k at → IsFaultOf root project j by → (k ≡ j) × (at ≡ by) }
{}

/// A root with a fault in its tasks has no plan.
pub fn no_plan()
    ensures { (root : Node-F Node Element) (project : Project) (k : TaskKind) (at : ℕ) (plan : TaskPlan) → IsFaultOf root project k at → StandsForPlan root project plan → ⊥ }
{}
