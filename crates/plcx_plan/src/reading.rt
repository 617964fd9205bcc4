//! Reading the plan of a file's tasks.
ghost use Rattle.std.specs.Prelude.{◌≡◌, ◌≤◌, [], map, length, true, false, None, IfOk, MatchResult};
ghost use Rattle.std.specs.List.{AllPairs};
ghost use Rattle.plcx_types.specs.Limits.{max_instances};
ghost use Rattle.plcx_types.specs.Lists.{Each};
ghost use Rattle.plcx_xml.specs.declared.tree.Node.{out-Node};
ghost use Rattle.plcx_tasks.specs.Orders.{IsPlan};
ghost use Rattle.plcx_plan.specs.Conditions.{checks_of, FirstFault};
ghost use Rattle.plcx_plan.specs.Plans.{IsPlanOf, StandsForPlan, RefusesPlan, HasProgram, DifferInName};
ghost use Rattle.plcx_plan.specs.Seen.{shown, are_led, IsPlanIn, RefusesIn, RefusesElement};

use crate::condition::TaskKind;
use crate::error::TaskError;
use crate::programs::Programs;
use crate::progress::{Progress, step};
use crate::walk::{Looked, items_in};
use plcx_model::Project;
use plcx_tasks::TaskPlan;
use plcx_xml::{Element, Node};
use sqlite_items::Items;
use std::alloc::Global;
use std::collections::HashSet;

/// The plan of items, or the first that is wrong with one.
fn plan_in(alloc: Global, project: &Project, items: &[Looked]) -> Result<TaskPlan, TaskError>
    requires led { are_led false (map shown items.now) ≡ true }
    ensures plan { MatchResult result (IsPlanIn project.now (map shown items.now)) (RefusesIn project.now (map shown items.now)) }
    ensures few { IfOk result (λ plan. length plan.instances ≤ max_instances) }
{
    let programs = Programs::of(alloc, project.pous())?;
    let mut progress = Progress {
        has_resource: false,
        tasks: Vec::new(alloc),
        task_names: HashSet::new(alloc),
        instances: Vec::new(alloc),
        instance_names: HashSet::new(alloc),
    };
    for item in items {
        if let Some(kind) = step(alloc, &mut progress, &programs, items, item)? {
            return Err(TaskError::Broken {
                kind,
                at: item.element.span.start,
            });
        }
    }
    let Progress {
        tasks,
        instances,
        ..
    } = progress;
    Ok(TaskPlan {
        tasks: Items::from_vec(tasks),
        instances: Items::from_vec(instances),
    })
}

fn plan_of(alloc: Global, root: &Element, project: &Project) -> Result<TaskPlan, TaskError>
    ensures plan { MatchResult result (IsPlanOf root.now project.now) (RefusesElement root.now project.now) }
    ensures few { IfOk result (λ plan. length plan.instances ≤ max_instances) }
{
    let items = items_in(alloc, root)?;
    Ok(plan_in(alloc, project, &items)?)
}

/// The plan of the tasks of a tree's resource, or the first condition on them that fails: the kind of the fault, and
/// the byte where the element begins.
pub fn read_tasks(alloc: Global, root: &Node, project: &Project) -> Result<TaskPlan, TaskError>
    ensures tasks { MatchResult result (StandsForPlan (out-Node root.now) project.now) (RefusesPlan (out-Node root.now) project.now) }
    ensures plan { IfOk result IsPlan }
    ensures programs { IfOk result (λ plan. Each (HasProgram project.now) plan.instances) }
    ensures names { IfOk result (λ plan. AllPairs DifferInName plan.instances) }
{
    match root {
        Node::Element(element) => Ok(plan_of(alloc, element, project)?),
        Node::Text(text) => Err(TaskError::Broken {
            kind: TaskKind::Count,
            at: text.span.start,
        }),
    }
}
