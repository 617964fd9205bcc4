//! What the texts of an element lead to, looked up once.
ghost use Rattle.std.specs.Prelude.{◌≡◌, map, option_map, IfOk, slice_get};
ghost use Rattle.plcx_drawn.specs.Shown.{shown_source};
ghost use Rattle.plcx_rules.specs.Callees.{output_formal};
ghost use Rattle.plcx_names.specs.SeenHelds.{shown_named};
ghost use Rattle.plcx_view.specs.Operands.{number_of, literal_by};
ghost use Rattle.plcx_view.specs.Links.{wired_to, literal_or, declared_name};
ghost use Rattle.plcx_draw.specs.Known.{held_of, callee_of, formals_by, formals_of, looked_up, gives, shown_output, shown_known, output_text};

use plcx_drawn::{Output, Source};
use plcx_model::{BodyElement, Kind, PinOut};
use plcx_names::{Formal, Named, Owner, Scope, is_function, output_name, result_count, text_named};
use plcx_rules::Callee;
use plcx_types::{Literal, NoMemory};
use sqlite_items::Items;
use std::alloc::{AllocError, Global};

/// An element with what its text names, what it calls, and the formal parameters that its listed outputs stand for.
#[derive(Drop)]
pub(crate) struct Known<'a> {
    pub(crate) element: &'a BodyElement,
    pub(crate) named: Option<Named<'a>>,
    pub(crate) callee: Option<Callee>,
    pub(crate) outputs: Items<Option<Formal<'a>>>,
}

fn named_of<'a>(
    alloc: Global,
    scope: &Scope<'a>,
    owner: &Owner<'a>,
    kind: &Kind,
) -> Result<Option<Named<'a>>, AllocError>
    ensures { IfOk result (λ named. option_map shown_named named ≡ held_of scope.now owner.now kind.now) }
{
    match kind {
        Kind::Contact { text, .. }
        | Kind::Coil { text, .. }
        | Kind::In { text, .. }
        | Kind::Out { text, .. } => text_named(alloc, scope, owner, text.as_slice()),
        _ => Ok(None),
    }
}

fn callee_of(alloc: Global, scope: &Scope, kind: &Kind) -> Result<Option<Callee>, AllocError>
    ensures { IfOk result (λ callee. callee ≡ callee_of scope.now kind.now) }
{
    match kind {
        Kind::Block { type_name, .. } => scope.callee(alloc, type_name.as_slice()),
        _ => Ok(None),
    }
}

/// The formal parameters that the listed outputs of a block of that callee stand for.
fn output_formals<'a>(
    alloc: Global,
    scope: &Scope<'a>,
    callee: Callee,
    outputs: &'a [PinOut],
) -> Result<Vec<Option<Formal<'a>>>, NoMemory>
    ensures { IfOk result (λ all. map shown_output all.items ≡ map (output_formal scope.now callee outputs.now) outputs.now) }
{
    let function = is_function(callee);
    let count = result_count(outputs);
    let mut all = Vec::new(alloc);
    for output in outputs {
        let name = output_name(function, count, output);
        all.push(scope.output_formal(alloc, callee, name)?)?;
    }
    Ok(all)
}

fn formals_of<'a>(
    alloc: Global,
    scope: &Scope<'a>,
    callee: Option<Callee>,
    kind: &'a Kind,
) -> Result<Vec<Option<Formal<'a>>>, NoMemory>
    requires { callee ≡ callee_of scope.now kind.now }
    ensures { IfOk result (λ all. map shown_output all.items ≡ formals_of scope.now kind.now) }
{
    match (kind, callee) {
        (Kind::Block { outputs, .. }, Some(callee)) => {
            output_formals(alloc, scope, callee, outputs.as_slice())
        }
        _ => Ok(Vec::new(alloc)),
    }
}

/// An element, with what its texts lead to.
pub(crate) fn look_up<'a>(
    alloc: Global,
    scope: &Scope<'a>,
    owner: &Owner<'a>,
    element: &'a BodyElement,
) -> Result<Known<'a>, NoMemory>
    ensures { IfOk result (λ known. shown_known known ≡ looked_up scope.now owner.now element.now) }
{
    let callee = callee_of(alloc, scope, &element.kind)?;
    let outputs = formals_of(alloc, scope, callee, &element.kind)?;
    match named_of(alloc, scope, owner, &element.kind) {
        Err(_) => Err(NoMemory),
        Ok(named) => Ok(Known {
            element,
            named,
            callee,
            outputs: Items::from_vec(outputs),
        }),
    }
}

fn number_of(literal: Literal) -> i128
    ensures { result ≡ number_of literal }
{
    match literal {
        Literal::Typed(value) => value.n(),
        Literal::Whole(n) => n,
    }
}

/// An output that feeds back, or one that is fixed before.
fn wired_to<'a>(back: bool, element: u64, pin: &'a [u8]) -> Source<'a>
    ensures { shown_source result ≡ wired_to back element pin.entry.now }
{
    let output = Output { element, pin };
    if back {
        Source::Back(output)
    } else {
        Source::Wire(output)
    }
}

/// The name of a formal parameter as it is declared.
pub(crate) fn declared_name<'a>(formal: &Option<Formal<'a>>) -> &'a [u8]
    ensures { result.now ≡ declared_name (shown_output formal.now) }
{
    match formal {
        None => b"",
        Some(formal) => formal.name,
    }
}

/// What an inVariable gives.
fn read_by<'a>(negated: bool, named: &Option<Named<'a>>, other: Source<'a>) -> Source<'a>
    ensures { shown_source result ≡ literal_or negated (literal_by (option_map shown_named named.now)) (shown_source other.entry) }
{
    match named {
        Some(Named::Literal(literal)) => Source::Literal {
            negated,
            n: number_of(*literal),
        },
        _ => other,
    }
}

impl<'a> Known<'a> {
    /// The name of the output at a place.
    fn output_text(&self, pin: u32) -> &'a [u8]
        ensures { result.now ≡ output_text (slice_get (shown_known self.now).outputs pin) }
    {
        match self.outputs.get(pin as usize) {
            None => b"",
            Some(formal) => declared_name(formal),
        }
    }

    /// What the element gives at the output of this place.
    pub(crate) fn gives(&self, pin: u32, back: bool) -> Source<'a>
        ensures { shown_source result ≡ gives (shown_known self.now) pin back }
    {
        let id = self.element.local_id;
        match &self.element.kind {
            Kind::LeftRail => Source::Rail,
            Kind::In { mods, .. } => read_by(mods.negated, &self.named, wired_to(back, id, b"")),
            _ => wired_to(back, id, self.output_text(pin)),
        }
    }
}
