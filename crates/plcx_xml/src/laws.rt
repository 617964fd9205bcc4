//! Laws on the definitions, for whoever reads them.
ghost use Rattle.std.specs.Prelude.{◌≡◌, ℕ, List};
ghost use Rattle.plcx_xml.specs.Faults.{Fails};
ghost use Rattle.plcx_xml.specs.StandsForTree.{StandsForTree, IsTreeOf};
ghost use Rattle.plcx_xml.specs.declared.error.XmlError.{XmlError};
ghost use Rattle.plcx_xml.specs.declared.error.XmlError.TheVariants.{NoMemory};
ghost use Rattle.plcx_xml.specs.declared.tree.Element.{Element};

/// Bytes stand for one tree at most.
pub fn one_tree()
    ensures { (bytes : List ℕ) (a b : Element) → StandsForTree bytes a → StandsForTree bytes b → a ≡ b }
{}

/// Bytes that have a fault stand for no tree that is read.
pub fn no_tree()
    ensures { (bytes : List ℕ) (e : XmlError) (root : Element) → (e ≡ NoMemory → ⊥) → Fails bytes e → IsTreeOf bytes root → ⊥ }
{}

/// The first fault of a file is one, with its place.
pub fn one_fault()
    ensures { (bytes : List ℕ) (a b : XmlError) → (a ≡ NoMemory → ⊥) → (b ≡ NoMemory → ⊥) → Fails bytes a → Fails bytes b → a ≡ b }
{}
