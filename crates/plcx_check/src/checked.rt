//! Projects that break no rule.
ghost use Rattle.std.specs.Prelude.{◌≡◌};
ghost use Rattle.plcx_view.specs.Checked.{IsChecked};

use plcx_model::{Links, Plan, Project, Types};

/// A project that breaks no rule, with what was found out about its bodies.
#[derive(Debug, Drop)]
pub struct Checked {
    project: Project,
    links: Links,
    types: Types,
    plan: Plan,
    ghost checked: { ∥ IsChecked project links types plan ∥₁ },
}

impl Checked {
    /// Joins a project and what was found out about it.
    pub(crate) fn new(project: Project, links: Links, types: Types, plan: Plan) -> Checked
        requires { IsChecked project links types plan }
        ensures project { result.project ≡ project }
        ensures links { result.links ≡ links }
        ensures types { result.types ≡ types }
        ensures plan { result.plan ≡ plan }
    {
        Checked {
            project,
            links,
            types,
            plan,
        }
    }

    /// The project, as it was given.
    pub fn project(&self) -> &Project
        ensures { result.now ≡ self.now.project }
    {
        &self.project
    }

    /// For each body and each input pin the sources.
    pub fn links(&self) -> &Links
        ensures { result.now ≡ self.now.links }
    {
        &self.links
    }

    /// For each body the types of its input pins and of its wires.
    pub fn types(&self) -> &Types
        ensures { result.now ≡ self.now.types }
    {
        &self.types
    }

    /// For each body its networks in their order, and which connections are feedback.
    pub fn plan(&self) -> &Plan
        ensures { result.now ≡ self.now.plan }
    {
        &self.plan
    }
}
