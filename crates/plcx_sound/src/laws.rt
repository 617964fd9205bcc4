//! What holds of the definitions, each on a function of its own.
ghost use Rattle.plcx_xml.specs.declared.tree.Element.{Element};
ghost use Rattle.plcx_model.specs.Sound.{Sound};
ghost use Rattle.plcx_model.specs.declared.project.Project.{Project};
ghost use Rattle.plcx_profile.specs.Profile.{StandsForProject};

/// A tree that breaks none of the rules 4 to 16 stands for a sound project.
pub fn sound_project()
    ensures { (root : Element) (project : Project) → StandsForProject root project → Sound project }
{}
