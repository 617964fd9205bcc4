//! The names of the functions.
ghost use Rattle.std.specs.Prelude.{◌≡◌, ◌++◌, IfSome, IfNone, Some, None};
ghost use Rattle.std.specs.Option.{option_copied};
ghost use Rattle.std.specs.Str.{str_eq_ignore_ascii_case};
ghost use Rattle.plcx_funcs.specs.Names.{function_name, plain_functions, plain_name, plain_among, conversion_named, function_named, NamesFunction};
ghost use Rattle.plcx_funcs.specs.declared.func.Func.{Func};

use crate::func::Func;
use crate::table::row;
use plcx_types::conversion_named;

const PLAIN: [Func; 26] = [
    Func::Add,
    Func::Mul,
    Func::Sub,
    Func::Div,
    Func::Mod,
    Func::Abs,
    Func::Move,
    Func::And,
    Func::Or,
    Func::Xor,
    Func::Not,
    Func::Shl,
    Func::Shr,
    Func::Rol,
    Func::Ror,
    Func::Sel,
    Func::Max,
    Func::Min,
    Func::Limit,
    Func::Mux,
    Func::Gt,
    Func::Ge,
    Func::Eq,
    Func::Le,
    Func::Lt,
    Func::Ne,
];

fn is_plain(word: &[u8], func: Func) -> bool
    ensures { result ≡ str_eq_ignore_ascii_case word.now (plain_name func) }
{
    word.eq_ignore_ascii_case(row(func).name.as_bytes())
}

fn plain_among<'a>(functions: &'a [Func], word: &[u8]) -> Option<&'a Func>
    ensures { option_copied result ≡ plain_among functions.now word.now }
{
    functions.iter().find(|func| is_plain(word, **func))
}

fn plain_named(word: &[u8]) -> Option<Func>
    ensures { result ≡ plain_among plain_functions word.now }
{
    plain_among(&PLAIN, word).copied()
}

fn conversion_named_by(word: &[u8]) -> Option<Func>
    ensures { result ≡ conversion_named word.now }
{
    let (from, to) = conversion_named(word)?;
    Some(Func::Conv { from, to })
}

fn function_named(word: &[u8]) -> Option<Func>
    ensures { result ≡ function_named word.now }
{
    match plain_named(word) {
        Some(func) => Some(func),
        None => conversion_named_by(word),
    }
}

/// The function whose name it is but for the case of its letters.
#[tactic(auto, using(crate::proofs::Found::function_is))]
pub fn lookup(name: &[u8]) -> Option<Func>
    ensures some { IfSome result (λ g. NamesFunction name.now g) }
    ensures none { IfNone result ((g : Func) → NamesFunction name.now g → ⊥) }
    ensures found { result ≡ function_named name.now }
{
    function_named(name)
}

/// The name of a function, as it is printed, in up to three parts: the parts of a conversion's are INT, _TO_ and DINT.
#[derive(Clone, Copy, Debug, PartialEq, Eq)]
pub struct FuncName {
    pub first: &'static str,
    pub joint: &'static str,
    pub last: &'static str,
}

impl Func {
    /// Its name, as it is printed.
    pub fn name(self) -> FuncName
        ensures { result.first.now ++ (result.joint.now ++ result.last.now) ≡ function_name self }
    {
        match self {
            Func::Conv { from, to } => FuncName {
                first: from.name(),
                joint: "_TO_",
                last: to.name(),
            },
            _ => FuncName {
                first: row(self).name,
                joint: "",
                last: "",
            },
        }
    }
}
