//! The program that a run is of.
ghost use Rattle.std.specs.Prelude.{◌≡◌, IfOk, IfErr, find, length};
ghost use Rattle.std.specs.Option.{option_map, option_copied};
ghost use Rattle.plcx_traced.specs.Programs.{IsMissing};
ghost use Rattle.plcx_simulate.specs.Choosing.{is_program, is_program_named, count, chosen};
ghost use Rattle.plcx_simulate.specs.Programs.{NamesProgram, programs_of, diagrams_in};

use plcx_check::Checked;
use plcx_model::{Pou, PouKind};
use plcx_types::{Ident, same_name};

#[tactic(auto, unfolding(crate::specs::Choosing::is_program))]
fn is_program(pou: &Pou) -> bool
    ensures { result ≡ is_program pou.now }
{
    match pou.kind {
        PouKind::Program => true,
        PouKind::FunctionBlock => false,
    }
}

fn is_program_named(pou: &Pou, name: &str) -> bool
    ensures { result ≡ is_program_named name.now pou.now }
{
    is_program(pou) && same_name(pou.name.text(), name.as_bytes())
}

/// How many programs there are.
fn count(pous: &[Pou]) -> usize
    ensures { result ≡ count pous.now }
{
    let mut count = 0;
    for pou in pous {
        if is_program(pou) {
            count += 1;
        }
    }
    count
}

fn named<'a>(pous: &'a [Pou], name: &str) -> Option<&'a Pou>
    ensures { option_copied result ≡ find (is_program_named name.now) pous.entry.now }
{
    pous.iter().find(|pou| is_program_named(pou, name))
}

fn first(pous: &[Pou]) -> Option<&Pou>
    ensures { option_copied result ≡ find is_program pous.entry.now }
{
    pous.iter().find(|pou| is_program(pou))
}

/// The program of the name, or the only one where none is named.
fn chosen<'a>(pous: &'a [Pou], program: Option<&str>) -> Option<&'a Pou>
    ensures { option_copied result ≡ chosen (option_map (λ s. s.now) program.entry) pous.entry.now }
{
    match program {
        Some(name) => named(pous, name),
        None if count(pous) == 1 => first(pous),
        None => None,
    }
}

/// The name of the program that is named, or of the only one where none is; else how many programs there are.
pub fn program_of<'a>(checked: &'a Checked, program: Option<&str>) -> Result<&'a Ident, u64>
    ensures ok { IfOk result (λ name. NamesProgram (diagrams_in checked.entry.now) (option_map (λ s. s.now) program.entry) name.now) }
    ensures count { IfErr result (λ programs. programs ≡ length (programs_of (diagrams_in checked.entry.now)).all) }
    ensures missing { IfErr result (λ _. IsMissing (programs_of (diagrams_in checked.entry.now)) (option_map (λ s. s.now) program.entry)) }
{
    let pous = checked.project().pous();
    match chosen(pous, program) {
        Some(pou) => Ok(&pou.name),
        None => Err(count(pous) as u64),
    }
}
