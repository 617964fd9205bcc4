//! The bytes of the file.
ghost use Rattle.std.specs.Prelude.{◌≡◌, ◌<◌, IfOk, string_bytes};
ghost use Rattle.std.specs.List.{flat_map, range_with_len};
ghost use Rattle.plcx_bench_project.specs.Bench.{IsMeasured};
ghost use Rattle.plcx_bench_file.specs.File.{bench_bytes};
ghost use Rattle.plcx_bench_file.specs.Text.{declaration_text, variable_text, number_text, addition_text, output_text, network_text};

use std::alloc::{AllocError, Global};

/// The declaration of a variable.
#[tactic(auto, unfolding(crate::specs::Text::declaration_text))]
fn declaration_of(alloc: Global, i: u64) -> Result<String, AllocError>
    ensures { IfOk result (λ s. string_bytes s ≡ declaration_text i) }
{
    format!(in alloc; "<variable name=\"V{i}\"><type><DINT/></type></variable>")
}

/// A variable as an input.
#[tactic(auto, unfolding(crate::specs::Text::variable_text))]
fn variable_of(alloc: Global, id: u64, i: u64) -> Result<String, AllocError>
    ensures { IfOk result (λ s. string_bytes s ≡ variable_text id i) }
{
    format!(in alloc;
        "<inVariable localId=\"{id}\"><position x=\"0\" y=\"{i}\"/><expression>V{i}</expression></inVariable>"
    )
}

/// 1 as an input.
#[tactic(auto, unfolding(crate::specs::Text::number_text))]
fn number_of(alloc: Global, id: u64, i: u64) -> Result<String, AllocError>
    ensures { IfOk result (λ s. string_bytes s ≡ number_text id i) }
{
    format!(in alloc;
        "<inVariable localId=\"{id}\"><position x=\"0\" y=\"{i}\"/><expression>DINT#1</expression></inVariable>"
    )
}

/// The addition of two elements.
#[tactic(auto, unfolding(crate::specs::Text::addition_text))]
fn addition_of(alloc: Global, id: u64, i: u64, left: u64, right: u64) -> Result<String, AllocError>
    ensures { IfOk result (λ s. string_bytes s ≡ addition_text id i left right) }
{
    format!(in alloc;
        "<block localId=\"{id}\" typeName=\"ADD\"><position x=\"0\" y=\"{i}\"/><inputVariables><variable formalParameter=\"IN1\"><connectionPointIn><connection refLocalId=\"{left}\"/></connectionPointIn></variable><variable formalParameter=\"IN2\"><connectionPointIn><connection refLocalId=\"{right}\"/></connectionPointIn></variable></inputVariables><outputVariables><variable formalParameter=\"OUT\"/></outputVariables></block>"
    )
}

/// The output of a network.
#[tactic(auto, unfolding(crate::specs::Text::output_text))]
fn output_of(alloc: Global, id: u64, i: u64, sum: u64, next: u64) -> Result<String, AllocError>
    ensures { IfOk result (λ s. string_bytes s ≡ output_text id i sum next) }
{
    format!(in alloc;
        "<outVariable localId=\"{id}\"><position x=\"0\" y=\"{i}\"/><connectionPointIn><connection refLocalId=\"{sum}\" formalParameter=\"OUT\"/></connectionPointIn><expression>V{next}</expression></outVariable>"
    )
}

/// The i-th of n networks.
#[tactic(auto, using(crate::proofs::Spelled::in_order), unfolding(crate::specs::Text::network_text))]
fn network_of(alloc: Global, n: u64, i: u64) -> Result<Vec<u8>, AllocError>
    requires measured { IsMeasured n }
    requires inside { i < n }
    ensures { IfOk result (λ v. v.items ≡ network_text n i) }
{
    let mut text = variable_of(alloc, 4 * i + 1, i)?.into_bytes();
    text.extend_from_slice(number_of(alloc, 4 * i + 2, i)?.as_bytes())?;
    text.extend_from_slice(addition_of(alloc, 4 * i + 3, i, 4 * i + 1, 4 * i + 2)?.as_bytes())?;
    text.extend_from_slice(output_of(alloc, 4 * i + 4, i, 4 * i + 3, (i + 1) % n)?.as_bytes())?;
    Ok(text)
}

/// The declarations of n variables.
fn declarations_of(alloc: Global, n: u64) -> Result<Vec<u8>, AllocError>
    ensures { IfOk result (λ v. v.items ≡ flat_map declaration_text (range_with_len 0 n)) }
{
    let mut text = Vec::new(alloc);
    for i in 0..n {
        text.extend_from_slice(declaration_of(alloc, i)?.as_bytes())?;
    }
    Ok(text)
}

/// The n networks.
fn networks_of(alloc: Global, n: u64) -> Result<Vec<u8>, AllocError>
    requires { IsMeasured n }
    ensures { IfOk result (λ v. v.items ≡ flat_map (network_text n) (range_with_len 0 n)) }
{
    let mut text = Vec::new(alloc);
    for i in 0..n {
        text.extend_from_slice(&network_of(alloc, n, i)?)?;
    }
    Ok(text)
}

/// The bytes of the file of n networks.
pub fn bench_file(alloc: Global, n: u64) -> Result<Vec<u8>, AllocError>
    requires { IsMeasured n }
    ensures { IfOk result (λ v. v.items ≡ bench_bytes n) }
{
    let mut text = Vec::new(alloc);
    text.extend_from_slice(
        b"<project xmlns=\"http://www.plcopen.org/xml/tc6_0201\"><types><pous><pou name=\"Bench\" pouType=\"program\"><interface><localVars>",
    )?;
    text.extend_from_slice(&declarations_of(alloc, n)?)?;
    text.extend_from_slice(b"</localVars></interface><body><FBD>")?;
    text.extend_from_slice(&networks_of(alloc, n)?)?;
    text.extend_from_slice(b"</FBD></body></pou></pous></types></project>")?;
    Ok(text)
}
