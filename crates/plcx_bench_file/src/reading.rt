//! The project that is read from the file.
ghost use Rattle.std.specs.Prelude.{◌≡◌, IfOk};
ghost use Rattle.plcx_bench_project.specs.Bench.{IsMeasured, IsBench};
ghost use Rattle.plcx_bench_file.specs.Unbroken.{IsUnbroken};
ghost use Rattle.plcx_model.specs.Sound.{Sound};
ghost use Rattle.plcx_profile.specs.Profile.{StandsForRoot};
ghost use Rattle.plcx_xml.specs.StandsForTree.{IsTreeOf};
ghost use Rattle.plcx_xml.specs.declared.error.XmlError.TheVariants as xml;
ghost use Rattle.plcx_xml.specs.declared.tree.Element.{Element};
ghost use Rattle.plcx_xml.specs.declared.tree.Node.{out-Node};
ghost use Rattle.plcx_xml.specs.declared.tree.Node.TheVariants as node;

use crate::spelling::bench_file;
use plcx_model::Project;
use plcx_profile::{ProfileError, one_profile_verdict, project_of};
use plcx_sound::sound_project;
use plcx_types::NoMemory;
use plcx_xml::{Node, XmlError, read_tree};
use std::alloc::Global;

/// The one fault that is left.
fn out_of_memory(fault: XmlError) -> NoMemory
    requires { fault ≡ xml.NoMemory }
{
    match fault {
        XmlError::NoMemory => NoMemory,
        _ => unreachable!(),
    }
}

/// The tree of bytes that stand for one.
fn tree_of(alloc: Global, bytes: &[u8]) -> Result<Node<'_>, NoMemory>
    requires { (root : Element) × IsTreeOf bytes.now root }
    ensures { IfOk result (λ tree. (root : Element) × (tree ≡ node.Element root) × IsTreeOf bytes.now root) }
{
    match read_tree(alloc, bytes) {
        Ok(tree) => Ok(tree),
        Err(fault) => Err(out_of_memory(fault)),
    }
}

/// The project of a tree that breaks no rule.
fn project_in(alloc: Global, tree: &Node) -> Result<Project, NoMemory>
    requires { IsUnbroken (out-Node tree.now) }
    ensures { IfOk result (StandsForRoot (out-Node tree.now)) }
{
    one_profile_verdict();
    match project_of(alloc, tree) {
        Ok(project) => Ok(project),
        Err(ProfileError::NoMemory) => Err(NoMemory),
        Err(ProfileError::Broken(_)) => unreachable!(),
    }
}

/// The project of n networks, read from the bytes of its file: nothing but want of memory stands against it.
pub fn bench_project(alloc: Global, n: u64) -> Result<Project, NoMemory>
    requires { IsMeasured n }
    ensures bench { IfOk result (IsBench n) }
    ensures sound { IfOk result Sound }
{
    sound_project();
    let bytes = bench_file(alloc, n)?;
    let tree = tree_of(alloc, &bytes)?;
    Ok(project_in(alloc, &tree)?)
}
