//! Outputs and sources of a body, by the numbers that name them.
ghost use Rattle.std.specs.Prelude.{◌≡◌, [], get_or};
ghost use Rattle.plcx_rules.specs.Types.{output_among, output_at, gives_at, is_untyped, sources_at};
ghost use Rattle.plcx_typing.specs.Sheets.{sheet};

use plcx_model::Source;
use plcx_rules::{Form, Gives, Out, Outputs};
use sqlite_items::Items;

const NO_OUT: Out = Out {
    gives: Gives::Nothing,
    negated: false,
};

fn output_among(outputs: &Outputs, place: u32) -> Out
    ensures { result ≡ output_among outputs.now place }
{
    match outputs {
        Outputs::Absent => NO_OUT,
        Outputs::Single(out) => *out,
        Outputs::Listed(outs) => match outs.as_slice().get(place as usize) {
            Some(out) => *out,
            None => NO_OUT,
        },
    }
}

/// The output that a source names.
pub(crate) fn output_at(forms: &[Form], source: Source) -> Out
    ensures { result ≡ output_at (sheet forms.now [] []) source }
{
    match forms.get(source.element as usize) {
        Some(form) => output_among(&form.outputs, source.pin),
        None => NO_OUT,
    }
}

pub(crate) fn is_untyped(gives: Gives) -> bool
    ensures { result ≡ is_untyped gives }
{
    matches!(gives, Gives::Untyped(_))
}

/// The sources of the input pin of a number.
pub(crate) fn sources_at(links: &[Items<Source>], pin: usize) -> &[Source]
    ensures { result.now ≡ get_or links.now pin [] }
{
    match links.get(pin) {
        Some(sources) => sources.as_slice(),
        None => &[],
    }
}
