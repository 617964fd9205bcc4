//! The program that a run is of.
ghost use Rattle.std.specs.Prelude.{◌≡◌, find};
ghost use Rattle.std.specs.Option.{option_map, option_copied};
ghost use Rattle.plcx_execute.specs.Choosing.{is_program, is_program_named, count, chosen};

use plcx_st::{PouText, TextKind};
use plcx_types::same_name;

#[tactic(auto, unfolding(crate::specs::Choosing::is_program))]
fn is_program(pou: &PouText) -> bool
    ensures { result ≡ is_program pou.now }
{
    match pou.kind {
        TextKind::Program => true,
        TextKind::FunctionBlock => false,
    }
}

fn is_program_named(pou: &PouText, name: &str) -> bool
    ensures { result ≡ is_program_named name.now pou.now }
{
    is_program(pou) && same_name(pou.name.name.text(), name.as_bytes())
}

/// How many programs there are.
pub(crate) fn count(pous: &[PouText]) -> usize
    ensures { result ≡ count pous.now }
{
    let mut count = 0;
    for pou in pous {
        if is_program(pou) {
            count += 1;
        }
    }
    count
}

fn named<'a>(pous: &'a [PouText], name: &str) -> Option<&'a PouText>
    ensures { option_copied result ≡ find (is_program_named name.now) pous.entry.now }
{
    pous.iter().find(|pou| is_program_named(pou, name))
}

fn first(pous: &[PouText]) -> Option<&PouText>
    ensures { option_copied result ≡ find is_program pous.entry.now }
{
    pous.iter().find(|pou| is_program(pou))
}

/// The program that a run is of: that of the name, or the only one where none is named.
pub(crate) fn chosen<'a>(pous: &'a [PouText], program: Option<&str>) -> Option<&'a PouText>
    ensures { option_copied result ≡ chosen (option_map (λ s. s.now) program.entry) pous.entry.now }
{
    match program {
        Some(name) => named(pous, name),
        None if count(pous) == 1 => first(pous),
        None => None,
    }
}
