//! The verdict on a file, and the text of one that is compiled.
ghost use Rattle.std.specs.Prelude.{◌≡◌, IfOk, MatchResult};
ghost use Rattle.plcx_xml.specs.StandsForTree.{IsTreeOf};
ghost use Rattle.plcx_view.specs.Checked.{IsChecked};
ghost use Rattle.plcx_view.specs.Diagrams.{diagrams_of};
ghost use Rattle.plcx_command.specs.Compiled.{IsTextOf};
ghost use Rattle.plcx_command.specs.JudgementOf.{IsJudgement, IsJudgementOfTree};

use plcx_check::{CheckError, Checked, check};
use plcx_jump::compile;
use plcx_model::{Broken, Place, Project, Rule};
use plcx_profile::{ProfileError, project_of};
use plcx_read::one_unit;
use plcx_sound::sound_project;
use plcx_st::{print, read_again};
use plcx_types::NoMemory;
use plcx_xml::{Node, XmlError, read_tree};
use std::alloc::Global;

/// The verdict on a file.
#[derive(Drop)]
pub enum Judgement {
    /// No rule is broken.
    Accepted(Checked),
    Broken(Broken),
}

/// A rule that is broken at a byte of the file.
pub fn at_byte(rule: u8, byte: u64) -> Broken
    ensures { result ≡ at_byte rule byte }
{
    Broken {
        rule: Rule(rule),
        place: Place::Byte(byte),
    }
}

ghost use Rattle.plcx_command.specs.Verdict.{at_byte};

/// The verdict on bytes that stand for no tree.
pub fn of_tree(fault: XmlError) -> Result<Judgement, NoMemory>
    ensures { IfOk result (λ j. IsFault fault j) }
{
    match fault {
        XmlError::NotUtf8 { at } => Ok(Judgement::Broken(at_byte(1, at))),
        XmlError::Token { at } => Ok(Judgement::Broken(at_byte(2, at))),
        XmlError::Nesting { at } => Ok(Judgement::Broken(at_byte(3, at))),
        XmlError::TooDeep { at } => Ok(Judgement::Broken(at_byte(7, at))),
        XmlError::NoMemory => Err(NoMemory),
    }
}

ghost use Rattle.plcx_command.specs.JudgementOf.{IsFault};

/// The verdict on a project of a tree that breaks no rule.
fn of_project(alloc: Global, project: Project) -> Result<Judgement, NoMemory>
    requires { Sound project }
    ensures { IfOk result (λ j. IsJudgementOfProject project j) }
{
    match check(alloc, project) {
        Ok(checked) => Ok(Judgement::Accepted(checked)),
        Err(CheckError::Broken { broken, .. }) => Ok(Judgement::Broken(broken)),
        Err(CheckError::NoMemory { .. }) => Err(NoMemory),
    }
}

ghost use Rattle.plcx_command.specs.JudgementOf.{IsJudgementOfProject};
ghost use Rattle.plcx_model.specs.Sound.{Sound};

/// The verdict on a tree.
pub fn of_root(alloc: Global, root: &Node) -> Result<Judgement, NoMemory>
    requires { IsElement (out-Node root.now) }
    ensures { IfOk result (λ j. IsJudgementOfTree (out-Node root.now) j) }
{
    sound_project();
    match project_of(alloc, root) {
        Ok(project) => of_project(alloc, project),
        Err(ProfileError::Broken(broken)) => Ok(Judgement::Broken(broken)),
        Err(ProfileError::NoMemory) => Err(NoMemory),
    }
}

ghost use Rattle.plcx_xml.specs.declared.tree.Node.{out-Node};
ghost use Rattle.plcx_profile.specs.Profile.{IsElement};

/// The verdict on the bytes of a file, which are no more than a file may have.
pub fn judge(alloc: Global, bytes: &[u8]) -> Result<Judgement, NoMemory>
    ensures { IfOk result (λ j. IsJudgement bytes.now j) }
{
    match read_tree(alloc, bytes) {
        Ok(root) => of_root(alloc, &root),
        Err(fault) => of_tree(fault),
    }
}

/// The text of a project that breaks no rule.
pub fn text_of(alloc: Global, checked: &Checked) -> Result<Vec<u8>, NoMemory>
    requires { IsChecked checked.now.project checked.now.links checked.now.types checked.now.plan }
    ensures { IfOk result (λ text. IsTextOf (diagrams_of checked.now.project checked.now.links checked.now.types checked.now.plan) text.items) }
{
    one_unit();
    read_again();
    let unit = compile(alloc, checked)?;
    print(alloc, &unit)
}
