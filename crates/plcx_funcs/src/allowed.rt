//! Which types the pins of a group may have.
ghost use Rattle.std.specs.Prelude.{◌≡◌};
ghost use Rattle.plcx_funcs.specs.Types.{is_allowed, is_whole, is_word};

use plcx_types::Ty;

/// A set of types: the whole numbers, these and TIME, BOOL and the bit strings, the bit strings, all, and none.
#[derive(Clone, Copy, Debug, PartialEq, Eq)]
pub enum Allowed {
    Whole,
    WholeTime,
    Bits,
    Words,
    All,
    Nothing,
}

pub(crate) fn is_word(ty: Ty) -> bool
    ensures { result ≡ is_word ty }
{
    match ty {
        Ty::Byte | Ty::Word | Ty::Dword | Ty::Lword => true,
        _ => false,
    }
}

pub(crate) fn is_whole(ty: Ty) -> bool
    ensures { result ≡ is_whole ty }
{
    match ty {
        Ty::Bool | Ty::Byte | Ty::Word | Ty::Dword | Ty::Lword | Ty::Time => false,
        _ => true,
    }
}

impl Allowed {
    /// Whether the type is in the set.
    pub fn has(self, ty: Ty) -> bool
        ensures { result ≡ is_allowed self ty }
    {
        match self {
            Allowed::Whole => is_whole(ty),
            Allowed::WholeTime => is_whole(ty) || ty == Ty::Time,
            Allowed::Bits => is_word(ty) || ty == Ty::Bool,
            Allowed::Words => is_word(ty),
            Allowed::All => true,
            Allowed::Nothing => false,
        }
    }
}
