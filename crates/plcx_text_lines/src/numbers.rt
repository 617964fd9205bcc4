//! The numbers of what statements name.
ghost use Rattle.std.specs.Prelude.{◌≡◌, IfOk};
ghost use Rattle.plcx_meaning.specs.Execute.{referent, formal};
ghost use Rattle.plcx_meaning.specs.Typed.{variable_in, part_in, referent_type, member_type};
ghost use Rattle.plcx_text_numbered.specs.Prepared.{or_bool};
ghost use Rattle.plcx_text_pieces.specs.Called as pieces;
ghost use Rattle.plcx_text_lines.specs.Shown.{shown_place, shown_formal, shown_callee};

use plcx_std::StdKind;
use plcx_steps::Operand;
use plcx_types::{NoMemory, Ty};
use std::alloc::Global;

/// Where the value of a variable stands: that of a temporary in a wire, another one in a leaf.
#[derive(Clone, Copy)]
pub enum Place {
    Held(usize),
    Stored(Operand),
}

/// What a name leads to: where its value stands, and the type of that, BOOL where it has none.
#[derive(Clone, Copy)]
pub struct Named {
    pub place: Place,
    pub ty: Ty,
}

/// What a formal name of a call is: an input or an in-out of a type, or neither.
#[derive(Clone, Copy)]
pub enum Formal {
    Takes(Ty),
    Binds(Ty),
    NoFormal,
}

/// What a name leads to within an instance: a leaf of the caller's, the type of what can be read there, BOOL where
/// nothing can, and what it is as a formal name.
#[derive(Clone, Copy)]
pub struct Part {
    pub leaf: u32,
    pub ty: Ty,
    pub formal: Formal,
}

/// What an instance calls: a standard block from a leaf on, or a POU at its place, with the first of its leaves and the
/// names of its in-outs.
#[derive(Clone, Copy)]
pub enum Callee<'n> {
    Block {
        kind: StdKind,
        leaf: u32,
    },
    User {
        pou: u32,
        leaves: u32,
        in_outs: &'n [&'n [u8]],
    },
}

/// The numbers of what the body of a POU names, where it is prepared.
pub trait Numbers {
    // What the numbers are.
    ghost numbers: { Self → pieces.Numbers };

    /// The place of the POU.
    fn pou(&self) -> u32
        ensures { result ≡ (numbers self.now).pou };

    /// What a name leads to.
    fn named(&self, alloc: Global, name: &[u8]) -> Result<Named, NoMemory>
        ensures place { IfOk result (λ n. shown_place n.place ≡ (numbers self.now).names.place name.now) }
        ensures ty { IfOk result (λ n. let c = (numbers self.now).names.scope in n.ty ≡ or_bool (referent_type (referent c.world (variable_in c name.now)))) };

    /// What a name leads to within an instance.
    fn part(&self, alloc: Global, instance: &[u8], name: &[u8]) -> Result<Part, NoMemory>
        ensures leaf { IfOk result (λ p. p.leaf ≡ (numbers self.now).names.inner instance.now name.now) }
        ensures ty { IfOk result (λ p. let c = (numbers self.now).names.scope in p.ty ≡ or_bool (member_type c.world (part_in c instance.now name.now))) }
        ensures formal { IfOk result (λ p. let c = (numbers self.now).names.scope in shown_formal p.formal ≡ formal c.world (part_in c instance.now name.now)) };

    /// What an instance calls.
    fn callee(&self, alloc: Global, instance: &[u8]) -> Result<Callee<'_>, NoMemory>
        ensures { IfOk result (λ callee. shown_callee callee ≡ (numbers self.now).callee instance.now) };
}
