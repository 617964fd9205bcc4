//! The numbers of what elements name.
ghost use Rattle.std.specs.Prelude.{◌≡◌};
ghost use Rattle.plcx_meaning.specs.Base.{AtEdge, AtOutput};
ghost use Rattle.plcx_numbered.specs.Prepared.{Numbering};
ghost use Rattle.plcx_prepare.specs.Called.{shown_callee};

use plcx_std::StdKind;
use plcx_steps::Operand;

/// What an instance calls: a standard block from a leaf on, or a POU at its place, with the first of its leaves and
/// memories and the names of its in-outs in lower case.
#[derive(Clone, Copy)]
pub enum Callee<'n> {
    Block {
        kind: StdKind,
        leaf: u32,
    },
    User {
        pou: u32,
        leaves: u32,
        memories: u32,
        in_outs: &'n [Vec<u8>],
    },
}

/// The numbers of wires, variables and memories of a network, where its elements are prepared.
pub trait Numbers {
    // What the numbers are.
    ghost numbering: { Self → Numbering };

    /// The wire of an output, by its element and its pin.
    fn wire(&self, id: u64, pin: &[u8]) -> usize
        ensures { result ≡ (numbering self.now).wire id pin.now };

    /// The first wire that no output has.
    fn spare(&self) -> usize
        ensures { result ≡ (numbering self.now).spare };

    /// Where a variable is.
    fn operand(&self, name: &[u8]) -> Operand
        ensures { result ≡ (numbering self.now).operand name.now };

    /// The leaf of a variable within an instance.
    fn inner(&self, instance: &[u8], name: &[u8]) -> u32
        ensures { result ≡ (numbering self.now).inner instance.now name.now };

    /// The memory of an element's edge.
    fn edge(&self, id: u64) -> u32
        ensures { result ≡ (numbering self.now).memory (AtEdge id) };

    /// The memory of an output that feeds back.
    fn output(&self, id: u64, pin: &[u8]) -> u32
        ensures { result ≡ (numbering self.now).memory (AtOutput id pin.now) };

    /// What an instance calls.
    fn callee(&self, instance: &[u8]) -> Callee<'_>
        ensures { shown_callee result ≡ (numbering self.now).callee instance.now };
}
