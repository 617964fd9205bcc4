//! One step over an element: whether its conditions hold, and what it adds to a plan.
ghost use Rattle.std.specs.Prelude.{◌≡◌, ◌≤◌, ◌<◌, ℕ, List, ◌∷◌, ◌++◌, [], map, length, true, false, IfOk, IfSome, IfNone};
ghost use Rattle.std.specs.List.{list_any};
ghost use Rattle.plcx_types.specs.Name.{is_identifier};
ghost use Rattle.plcx_model.specs.declared.project.Project.{Project as Meant};
ghost use Rattle.plcx_tasks.specs.declared.planning.Task.{Task as Planned};
ghost use Rattle.plcx_plan.specs.declared.condition.Role.TheVariants as role;
ghost use Rattle.plcx_plan.specs.Conditions.{IsTask};
ghost use Rattle.plcx_plan.specs.Items.{Item, elements, same_role};
ghost use Rattle.plcx_plan.specs.Seen.{shown, Steps, IsFew};

use crate::condition::{Role, TaskKind};
use crate::look::{has_instance, interval_at, name_of, priority_of};
use crate::names::note;
use crate::programs::{Programs, program_of};
use crate::walk::Looked;
use plcx_tasks::{Instance, Task};
use plcx_types::limits::{MAX_INSTANCES, MAX_TASKS};
use plcx_types::{Ident, IdentError, NoMemory};
use plcx_xml::Element;
use std::alloc::Global;
use std::collections::HashSet;

/// What is read of the tasks of a file so far.
#[derive(Drop)]
pub struct Progress {
    pub has_resource: bool,
    pub tasks: Vec<Task>,
    pub task_names: HashSet<Vec<u8>>,
    pub instances: Vec<Instance>,
    pub instance_names: HashSet<Vec<u8>>,
}

fn ident(alloc: Global, text: &[u8]) -> Result<Ident, NoMemory>
    requires { is_identifier text.now ≡ true }
    ensures { IfOk result (λ name. name ≡ text.now) }
{
    match Ident::new(alloc, text) {
        Ok(name) => Ok(name),
        Err(IdentError::NoMemory) => Err(NoMemory),
        Err(IdentError::NotIdent) => unreachable!(),
    }
}

/// The task that an element is by itself.
fn task_of(alloc: Global, element: &Element) -> Result<Option<Task>, NoMemory>
    ensures some { IfOk result (λ found. IfSome found (λ task. IsTask element.now task)) }
    ensures none { IfOk result (λ found. IfNone found ((task : Planned) → IsTask element.now task → ⊥)) }
{
    let Some(name) = name_of(element) else {
        return Ok(None);
    };
    let Some(priority) = priority_of(element) else {
        return Ok(None);
    };
    let Some(interval) = interval_at(element) else {
        return Ok(None);
    };
    let name = ident(alloc, name)?;
    Ok(Some(Task {
        name,
        priority,
        interval,
    }))
}

fn is_resource(item: &Looked) -> bool
    ensures { result ≡ same_role (shown item.now).role role.Resource }
{
    item.role == Role::Resource
}

fn is_any_resource(items: &[Looked]) -> bool
    ensures { result ≡ list_any (λ x. same_role (shown x).role role.Resource) items.now }
{
    items.iter().any(|item| is_resource(item))
}

fn root_step(items: &[Looked], progress: &Progress, root: &Element) -> Option<TaskKind>
    ensures { (project : Meant) → Steps project (map shown items.now) (record { role = role.Root; element = root.now }) progress.now progress.now result }
{
    if is_any_resource(items) {
        None
    } else {
        Some(TaskKind::Count)
    }
}

/// Other elements have no conditions.
fn other_step(progress: &Progress, element: &Element) -> Option<TaskKind>
    ensures { (project : Meant) (all : List Item) → Steps project all (record { role = role.Other; element = element.now }) progress.now progress.now result }
{
    None
}

fn resource_step(progress: &mut Progress, resource: &Element) -> Option<TaskKind>
    requires few { IsFew progress.old }
    ensures step { (project : Meant) (all : List Item) → Steps project all (record { role = role.Resource; element = resource.now }) progress.old progress.new result }
    ensures few { IsFew progress.new }
{
    if progress.has_resource {
        return Some(TaskKind::Count);
    }
    if !has_instance(resource) {
        return Some(TaskKind::Count);
    }
    progress.has_resource = true;
    None
}

fn task_step(
    alloc: Global,
    progress: &mut Progress,
    element: &Element,
) -> Result<Option<TaskKind>, NoMemory>
    requires few { IsFew progress.old }
    ensures step { IfOk result (λ fault. (project : Meant) (all : List Item) → Steps project all (record { role = role.Task; element = element.now }) progress.old progress.new fault) }
    ensures few { IfOk result (λ fault. IsFew progress.new) }
{
    if progress.tasks.len() >= MAX_TASKS {
        return Ok(Some(TaskKind::Count));
    }
    let Some(task) = task_of(alloc, element)? else {
        return Ok(Some(TaskKind::Task));
    };
    if note(alloc, &mut progress.task_names, task.name.text())? {
        return Ok(Some(TaskKind::Task));
    }
    progress.tasks.push(task)?;
    Ok(None)
}

fn instance_step(
    alloc: Global,
    progress: &mut Progress,
    programs: &Programs,
    element: &Element,
) -> Result<Option<TaskKind>, NoMemory>
    requires few { IsFew progress.old }
    ensures step { IfOk result (λ fault. (project : Meant) (all : List Item) → project.pous ≡ programs.now
        → Steps project all (record { role = role.Instance; element = element.now }) progress.old progress.new fault) }
    ensures few { IfOk result (λ fault. IsFew progress.new) }
{
    if progress.instances.len() >= MAX_INSTANCES {
        return Ok(Some(TaskKind::Count));
    }
    let Some(name) = name_of(element) else {
        return Ok(Some(TaskKind::Instance));
    };
    if note(alloc, &mut progress.instance_names, name)? {
        return Ok(Some(TaskKind::Instance));
    }
    let Some(pou) = program_of(alloc, programs, element)? else {
        return Ok(Some(TaskKind::Program));
    };
    let instance = Instance {
        name: ident(alloc, name)?,
        program: pou.name.copy(alloc)?,
        task: progress.tasks.len().saturating_sub(1) as u32,
    };
    progress.instances.push(instance)?;
    Ok(None)
}

/// One item more: what is wrong with it, if anything is.
pub fn step(
    alloc: Global,
    progress: &mut Progress,
    programs: &Programs,
    items: &[Looked],
    item: &Looked,
) -> Result<Option<TaskKind>, NoMemory>
    requires few { IsFew progress.old }
    ensures step { IfOk result (λ fault. (project : Meant) → project.pous ≡ programs.now → Steps project (map shown items.now) (shown item.now) progress.old progress.new fault) }
    ensures few { IfOk result (λ fault. IsFew progress.new) }
{
    match item.role {
        Role::Root => Ok(root_step(items, progress, item.element)),
        Role::Resource => Ok(resource_step(progress, item.element)),
        Role::Task => Ok(task_step(alloc, progress, item.element)?),
        Role::Instance => Ok(instance_step(alloc, progress, programs, item.element)?),
        Role::Other => Ok(other_step(progress, item.element)),
    }
}
