//! The standard function blocks, and their names.
ghost use Rattle.std.specs.Prelude.{◌≡◌, IfSome, IfNone};
ghost use Rattle.std.specs.Option.{option_copied};
ghost use Rattle.std.specs.Str.{str_eq_ignore_ascii_case};
ghost use Rattle.plcx_std.specs.declared.kind.StdKind.{StdKind};
ghost use Rattle.plcx_std.specs.Kind.{kind_name, first_named, kind_named, NamesKind};

/// The standard function blocks.
#[derive(Clone, Copy, Debug, PartialEq, Eq)]
pub enum StdKind {
    Ton,
    Tof,
    Tp,
    Ctu,
    Ctd,
    Ctud,
    Sr,
    Rs,
    RTrig,
    FTrig,
}

const ALL_KINDS: [StdKind; 10] = [
    StdKind::Ton,
    StdKind::Tof,
    StdKind::Tp,
    StdKind::Ctu,
    StdKind::Ctd,
    StdKind::Ctud,
    StdKind::Sr,
    StdKind::Rs,
    StdKind::RTrig,
    StdKind::FTrig,
];

impl StdKind {
    /// Its name, as it is printed.
    pub fn name(self) -> &'static str
        ensures { result.now ≡ kind_name self }
    {
        match self {
            StdKind::Ton => "TON",
            StdKind::Tof => "TOF",
            StdKind::Tp => "TP",
            StdKind::Ctu => "CTU",
            StdKind::Ctd => "CTD",
            StdKind::Ctud => "CTUD",
            StdKind::Sr => "SR",
            StdKind::Rs => "RS",
            StdKind::RTrig => "R_TRIG",
            StdKind::FTrig => "F_TRIG",
        }
    }
}

fn is_name(kind: StdKind, word: &[u8]) -> bool
    ensures { result ≡ str_eq_ignore_ascii_case word.now (kind_name kind) }
{
    word.eq_ignore_ascii_case(kind.name().as_bytes())
}

fn first_named<'k>(word: &[u8], kinds: &'k [StdKind]) -> Option<&'k StdKind>
    ensures { option_copied result ≡ first_named word.now kinds.now }
{
    kinds.iter().find(|kind| is_name(**kind, word))
}

fn kind_named(word: &[u8]) -> Option<StdKind>
    ensures { result ≡ kind_named word.now }
{
    first_named(word, &ALL_KINDS).copied()
}

/// The block whose name it is but for the case of its letters.
#[tactic(auto, using(crate::proofs::KindNames::kind_is))]
pub fn std_lookup(name: &[u8]) -> Option<StdKind>
    ensures some { IfSome result (λ k. NamesKind name.now k) }
    ensures none { IfNone result ((k : StdKind) → NamesKind name.now k → ⊥) }
    ensures found { result ≡ kind_named name.now }
{
    kind_named(name)
}
