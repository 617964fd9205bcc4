//! The elementary types: how each is named, and which numbers it has.
ghost use Rattle.std.specs.Prelude.{◌≡◌, ◌<◌};
ghost use Rattle.std.specs.Option.{option_copied};
ghost use Rattle.std.specs.Str.{str_eq_ignore_ascii_case};
ghost use Rattle.plcx_types.specs.ElementaryTypes.{row_of};
ghost use Rattle.plcx_types.specs.Range.{bounds_of};
ghost use Rattle.plcx_types.specs.TypeName.{type_name, first_named, type_named};

/// The elementary types.
#[derive(Clone, Copy, Debug, PartialEq, Eq)]
pub enum Ty {
    Bool,
    Byte,
    Word,
    Dword,
    Lword,
    Sint,
    Int,
    Dint,
    Lint,
    Usint,
    Uint,
    Udint,
    Ulint,
    Time,
}

/// All elementary types, each once.
pub const ALL_TYPES: [Ty; 14] = [
    Ty::Bool,
    Ty::Byte,
    Ty::Word,
    Ty::Dword,
    Ty::Lword,
    Ty::Sint,
    Ty::Int,
    Ty::Dint,
    Ty::Lint,
    Ty::Usint,
    Ty::Uint,
    Ty::Udint,
    Ty::Ulint,
    Ty::Time,
];

/// The least and the greatest number of a type.
#[derive(Clone, Copy, Debug, PartialEq, Eq)]
pub struct Bounds {
    pub low: i128,
    pub high: i128,
}

#[derive(Clone, Copy)]
struct TypeRow {
    name: &'static str,
    bits: u32,
    bounds: Bounds,
}

impl Ty {
    fn row(self) -> TypeRow
        ensures name { result.name.now ≡ (row_of self).name }
        ensures bits { result.bits ≡ (row_of self).bits }
        ensures bounds { result.bounds ≡ bounds_of self }
        ensures some { 0 < result.bits }
        ensures few { result.bits < 65 }
    {
        let (name, bits, low, high) = match self {
            Ty::Bool => ("BOOL", 1, 0, 1),
            Ty::Byte => ("BYTE", 8, 0, 255),
            Ty::Word => ("WORD", 16, 0, 65_535),
            Ty::Dword => ("DWORD", 32, 0, 4_294_967_295),
            Ty::Lword => ("LWORD", 64, 0, 18_446_744_073_709_551_615),
            Ty::Sint => ("SINT", 8, -128, 127),
            Ty::Int => ("INT", 16, -32_768, 32_767),
            Ty::Dint => ("DINT", 32, -2_147_483_648, 2_147_483_647),
            Ty::Lint => (
                "LINT",
                64,
                -9_223_372_036_854_775_808,
                9_223_372_036_854_775_807,
            ),
            Ty::Usint => ("USINT", 8, 0, 255),
            Ty::Uint => ("UINT", 16, 0, 65_535),
            Ty::Udint => ("UDINT", 32, 0, 4_294_967_295),
            Ty::Ulint => ("ULINT", 64, 0, 18_446_744_073_709_551_615),
            Ty::Time => (
                "TIME",
                64,
                -9_223_372_036_854_775_808,
                9_223_372_036_854_775_807,
            ),
        };
        TypeRow {
            name,
            bits,
            bounds: Bounds { low, high },
        }
    }

    /// The name of the type, as it is printed.
    pub fn name(self) -> &'static str
        ensures { result.now ≡ type_name self }
    {
        self.row().name
    }

    /// How many bits a number of the type takes.
    pub fn bits(self) -> u32
        ensures bits { result ≡ (row_of self).bits }
        ensures some { 0 < result }
        ensures few { result < 65 }
    {
        self.row().bits
    }

    /// The numbers of the type; a TIME counts milliseconds.
    pub fn bounds(self) -> Bounds
        ensures { result ≡ bounds_of self }
    {
        self.row().bounds
    }

    /// The type of that name, whatever the case of its letters.
    pub fn named(word: &[u8]) -> Option<Ty>
        ensures { result ≡ type_named word.now }
    {
        first_named(word, &ALL_TYPES).copied()
    }
}

fn is_name(ty: Ty, word: &[u8]) -> bool
    ensures { result ≡ str_eq_ignore_ascii_case word.now (type_name ty) }
{
    word.eq_ignore_ascii_case(ty.name().as_bytes())
}

fn first_named<'t>(word: &[u8], types: &'t [Ty]) -> Option<&'t Ty>
    ensures { option_copied result ≡ first_named word.now types.now }
{
    types.iter().find(|ty| is_name(**ty, word))
}
