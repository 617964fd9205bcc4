//! The unit of a checked project.
ghost use Rattle.std.specs.Prelude.{◌≡◌, ◌<◌, ◌^◌, Some, map, length, slice_get, IfOk};
ghost use Rattle.plcx_meaning.specs.Templates.{pou_text, unit_of};
ghost use Rattle.plcx_meaning.specs.Ready.{IsReady};
ghost use Rattle.plcx_meaning.specs.Same.{Behaves};
ghost use Rattle.plcx_view.specs.Checked.{IsChecked};
ghost use Rattle.plcx_view.specs.Declared.{kind_of_pou};
ghost use Rattle.plcx_view.specs.Diagrams.{diagrams_of};
ghost use Rattle.plcx_drawn.specs.Pous.{shown_pou};
ghost use Rattle.plcx_types.specs.Lists.{Each};
ghost use Rattle.plcx_meaning.specs.Tree.{statements};
ghost use Rattle.plcx_st.specs.InRange.{StatementsInRange, UnitInRange};
ghost use Rattle.plcx_declare.specs.Named.{BlockIsNamed};
ghost use Rattle.plcx_st.specs.Fitting.{UnitFits};
ghost use Rattle.plcx_st.specs.Meant.{kind_meant, pou_meant, meant};

use crate::bodies::body;
use plcx_check::Checked;
use plcx_declare::blocks;
use plcx_draw::drawing;
use plcx_drawn::Drawing;
use plcx_fits::checked_fits;
use plcx_lower::word_like;
use plcx_meaning::{same_behavior, texts_are_ready};
use plcx_model::{Pou, PouKind};
use plcx_names::Scope;
use plcx_st::{PouText, TextKind, Unit, texts_are_in_range};
use plcx_targets::has_jump;
use plcx_types::NoMemory;
use sqlite_items::Items;
use std::alloc::Global;

fn kind_of(kind: PouKind) -> TextKind
    ensures { kind_meant result ≡ kind_of_pou kind }
{
    match kind {
        PouKind::Program => TextKind::Program,
        PouKind::FunctionBlock => TextKind::FunctionBlock,
    }
}

/// The text of a POU.
fn pou_text(alloc: Global, pous: &[Pou], drawing: &Drawing) -> Result<PouText, NoMemory>
    requires blocks { Each BlockIsNamed (pou_text (shown_pou pous.now drawing.now)).blocks }
    requires body { StatementsInRange (statements (pou_text (shown_pou pous.now drawing.now)).body) }
    requires few { length drawing.now.networks.now < 2 ^ 31 }
    ensures { IfOk result (λ text. pou_meant text ≡ pou_text (shown_pou pous.now drawing.now)) }
{
    let pou = drawing.pou;
    let jumps = has_jump(drawing);
    let blocks = blocks(alloc, pous, pou, drawing.elements(), jumps)?;
    let body = body(alloc, drawing, jumps)?;
    Ok(PouText {
        kind: kind_of(pou.kind),
        name: word_like(alloc, &pou.name)?,
        blocks: Items::from_vec(blocks),
        body: Items::from_vec(body),
    })
}

/// The text of the POU at a place.
fn text_at<'a>(
    alloc: Global,
    scope: &Scope<'a>,
    checked: &'a Checked,
    place: usize,
) -> Result<PouText, NoMemory>
    requires scope { scope.now ≡ checked.now.project.pous }
    requires place { place < length checked.now.project.pous }
    ensures { IfOk result (λ text. slice_get (unit_of (diagrams_of checked.now.project checked.now.links checked.now.types checked.now.plan)) place ≡ Some (pou_meant text)) }
{
    checked_fits();
    texts_are_in_range();
    let drawing = drawing(
        alloc,
        scope,
        checked.links(),
        checked.types(),
        checked.plan(),
        place,
    )?;
    pou_text(alloc, checked.project().pous(), &drawing)
}

/// The texts of all POUs.
fn texts(alloc: Global, checked: &Checked) -> Result<Vec<PouText>, NoMemory>
    ensures { IfOk result (λ texts. map pou_meant texts.items ≡ unit_of (diagrams_of checked.now.project checked.now.links checked.now.types checked.now.plan)) }
{
    let pous = checked.project().pous();
    let scope = Scope::of(alloc, pous)?;
    let mut texts = Vec::new(alloc);
    for place in 0..pous.len() {
        texts.push(text_at(alloc, &scope, checked, place)?)?;
    }
    Ok(texts)
}

/// The unit of a project that breaks no rule. Its words stand nowhere yet.
pub fn compile(alloc: Global, checked: &Checked) -> Result<Unit, NoMemory>
    ensures unit { IfOk result (λ unit. meant unit ≡ unit_of (diagrams_of checked.now.project checked.now.links checked.now.types checked.now.plan)) }
    ensures in_range { IfOk result (λ unit. IsChecked checked.now.project checked.now.links checked.now.types checked.now.plan → UnitInRange (meant unit)) }
    ensures fits { IfOk result (λ unit. IsChecked checked.now.project checked.now.links checked.now.types checked.now.plan → UnitFits (meant unit)) }
    ensures ready { IfOk result (λ unit. IsChecked checked.now.project checked.now.links checked.now.types checked.now.plan → IsReady (meant unit)) }
    ensures behaves { IfOk result (λ unit. IsChecked checked.now.project checked.now.links checked.now.types checked.now.plan
        → Behaves (diagrams_of checked.now.project checked.now.links checked.now.types checked.now.plan) (meant unit)) }
{
    checked_fits();
    texts_are_in_range();
    texts_are_ready();
    same_behavior();
    Ok(Unit {
        pous: Items::from_vec(texts(alloc, checked)?),
    })
}
