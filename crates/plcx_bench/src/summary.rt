//! The summary of a bench.
ghost use Rattle.std.specs.Prelude.{◌≡◌, ◌≤◌, ◌++◌, IfOk, OnOk, MatchResult};
ghost use Rattle.std.specs.Fmt.{decimal, signed_decimal};
ghost use Rattle.std.specs.List.{fold};
ghost use Rattle.plcx_view.specs.Checked.{IsChecked};
ghost use Rattle.plcx_bench_project.specs.Bench.{IsMeasured, IsBench};
ghost use Rattle.plcx_bench.specs.Summary.{line, summary, IsSummary};
ghost use Rattle.plcx_bench.specs.Watching.{HearsAll, HearsSome};

use crate::scanning::{SCANS, sum_of_scans};
use crate::sides::{diagram_side, text_side};
use crate::text::text_again;
use crate::watching::sum_of_diagram;
use plcx_check::Checked;
use plcx_steps::Watch;
use plcx_types::NoMemory;
use std::alloc::Global;

fn push_count(alloc: Global, text: &mut Vec<u8>, word: &[u8], count: u64) -> Result<(), NoMemory>
    ensures { OnOk result (text.new.items ≡ text.old.items ++ line word.now (decimal count)) }
{
    let digits = format!(in alloc; "{count}")?;
    text.extend_from_slice(word)?;
    text.push(b' ')?;
    text.extend_from_slice(digits.as_bytes())?;
    text.push(b'\n')?;
    Ok(())
}

fn push_sum(alloc: Global, text: &mut Vec<u8>, word: &[u8], sum: i128) -> Result<(), NoMemory>
    ensures { OnOk result (text.new.items ≡ text.old.items ++ line word.now (signed_decimal sum)) }
{
    let digits = format!(in alloc; "{sum}")?;
    text.extend_from_slice(word)?;
    text.push(b' ')?;
    text.extend_from_slice(digits.as_bytes())?;
    text.push(b'\n')?;
    Ok(())
}

/// The summary of so many networks, by the sums of both sides.
fn summary(alloc: Global, networks: u64, diagram: i128, text: i128) -> Result<Vec<u8>, NoMemory>
    requires { networks ≤ 1000 }
    ensures { IfOk result (λ bytes. bytes.items ≡ summary networks diagram text) }
{
    let mut bytes = Vec::new(alloc);
    push_count(alloc, &mut bytes, b"networks", networks)?;
    push_count(alloc, &mut bytes, b"elements", 4 * networks)?;
    push_count(alloc, &mut bytes, b"scans", u64::from(SCANS))?;
    push_sum(alloc, &mut bytes, b"diagram", diagram)?;
    push_sum(alloc, &mut bytes, b"text", text)?;
    Ok(bytes)
}

/// The summary of the project that is measured with n networks. The watch is told what is heard of its diagram.
pub(crate) fn summary_of<W: Watch>(
    alloc: Global,
    checked: &Checked,
    n: u64,
    watch: &mut W,
) -> Result<Vec<u8>, NoMemory>
    requires measured { IsMeasured n }
    requires bench { IsBench n checked.now.project }
    requires checked { IsChecked checked.now.project checked.now.links checked.now.types checked.now.plan }
    ensures summary { IfOk result (λ text. IsSummary n text.items) }
    ensures heard { MatchResult result
        (λ _. HearsAll n (λ heard. watch.new ≡ fold W.told watch.old heard))
        (λ _. HearsSome n (λ heard. watch.new ≡ fold W.told watch.old heard)) }
{
    let program = &checked.project().pous()[0].name;
    let ready = text_again(alloc, checked)?;
    let mut diagram = diagram_side(alloc, checked, program)?;
    let mut text = text_side(alloc, &ready, program)?;
    let of_diagram = sum_of_diagram(&mut diagram, watch);
    let of_text = sum_of_scans(&mut text);
    summary(alloc, n, of_diagram, of_text)
}
