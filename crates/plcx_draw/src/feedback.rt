//! Which outputs feed back.
ghost use Rattle.std.specs.Prelude.{◌≡◌, ◌&&◌, ℕ, List, map, nat_eq, IfOk, Bool, false, IsTrue, filter};
ghost use Rattle.std.specs.List.{list_any};
ghost use Rattle.std.specs.Str.{bytes_eq};
ghost use Rattle.plcx_meaning.specs.Diagram.{reads_back, link_reads_back, enable_links, links_of, DiagramElement, ports};
ghost use Rattle.plcx_meaning.specs.Diagram as diagram;
ghost use Rattle.plcx_drawn.specs.Shown.{shown_source, shown_link, shown_enable, shown_input_pin, shown_kind, shown_port, shown_element};
ghost use Rattle.plcx_draw.specs.Feedback.{has, Adds, shown_bare, link_of_input, kind_reads_back, with_found};

use indexmap::IndexSet;
use plcx_drawn::{Element, ElementKind, Enable, InputPin, Link, Output, Port, Source, ports};
use plcx_types::NoMemory;
use sqlite_items::Items;
use std::alloc::Global;

/// An element before it is known which of its outputs feed back.
#[derive(Drop)]
pub(crate) struct Bare<'a> {
    pub(crate) id: u64,
    pub(crate) kind: ElementKind<'a>,
}

/// The outputs that are read as ones that feed back, by the `localId` and the pin.
#[derive(Drop)]
pub(crate) struct Feedback<'a> {
    outputs: IndexSet<(u64, &'a [u8])>,
}

impl<'a> Feedback<'a> {
    /// Whether no output is read so.
    pub(crate) fn is_empty(&self) -> bool
        ensures { IsTrue result → (id : ℕ) (pin : List ℕ) → has self.now id pin ≡ false }
    {
        self.outputs.is_empty()
    }

    /// Whether this output is read so.
    pub(crate) fn has(&self, id: u64, pin: &'a [u8]) -> bool
        ensures { result ≡ has self.now id pin.now }
    {
        self.outputs.contains(&(id, pin))
    }

    /// With an output more.
    fn with(self, output: Output<'a>) -> Result<Feedback<'a>, NoMemory>
        ensures { IfOk result (λ more. Adds self.entry more (λ id pin. nat_eq output.entry.element id && bytes_eq output.entry.pin.now pin)) }
    {
        let Feedback { mut outputs } = self;
        outputs.insert((output.element, output.pin))?;
        Ok(Feedback { outputs })
    }

    /// With what a source reads.
    fn with_source(self, source: &Source<'a>) -> Result<Feedback<'a>, NoMemory>
        ensures { IfOk result (λ more. Adds self.entry more (λ id pin. reads_back id pin (shown_source source.now))) }
    {
        match source {
            Source::Back(output) => Ok(self.with(*output)?),
            Source::Rail | Source::Literal { .. } | Source::Wire(_) => Ok(self),
        }
    }

    /// With what some sources read.
    fn with_sources(self, sources: &[Source<'a>]) -> Result<Feedback<'a>, NoMemory>
        ensures { IfOk result (λ more. Adds self.entry more (λ id pin. list_any (reads_back id pin) (map shown_source sources.now))) }
    {
        let mut found = self;
        for source in sources {
            found = found.with_source(source)?;
        }
        Ok(found)
    }

    /// With what the sources of a link read.
    fn with_link(self, link: &Link<'a>) -> Result<Feedback<'a>, NoMemory>
        ensures { IfOk result (λ more. Adds self.entry more (λ id pin. link_reads_back id pin (shown_link link.now))) }
    {
        let found = self.with_source(&link.first)?;
        Ok(found.with_sources(link.others.as_slice())?)
    }

    /// With what EN reads, where it is connected.
    fn with_enable(self, enable: &Enable<'a>) -> Result<Feedback<'a>, NoMemory>
        ensures { IfOk result (λ more. Adds self.entry more (λ id pin. list_any (link_reads_back id pin) (enable_links (shown_enable enable.now)))) }
    {
        match &enable.en {
            None => Ok(self),
            Some(link) => Ok(self.with_link(link)?),
        }
    }

    /// With what the inputs of a function read.
    fn with_links(self, links: &[Link<'a>]) -> Result<Feedback<'a>, NoMemory>
        ensures { IfOk result (λ more. Adds self.entry more (λ id pin. list_any (link_reads_back id pin) (map shown_link links.now))) }
    {
        let mut found = self;
        for link in links {
            found = found.with_link(link)?;
        }
        Ok(found)
    }

    /// With what the inputs of an instance read.
    fn with_inputs(self, inputs: &[InputPin<'a>]) -> Result<Feedback<'a>, NoMemory>
        ensures { IfOk result (λ more. Adds self.entry more (λ id pin. list_any (link_reads_back id pin) (map link_of_input inputs.now))) }
    {
        let mut found = self;
        for input in inputs {
            found = found.with_link(&input.link)?;
        }
        Ok(found)
    }

    /// With what an element reads.
    fn with_kind(self, kind: &ElementKind<'a>) -> Result<Feedback<'a>, NoMemory>
        ensures { IfOk result (λ more. Adds self.entry more (λ id pin. kind_reads_back id pin (shown_kind kind.now))) }
    {
        match kind {
            ElementKind::Still | ElementKind::In { .. } | ElementKind::Label(_) => Ok(self),
            ElementKind::Pass(link) | ElementKind::Return(link) => Ok(self.with_link(link)?),
            ElementKind::Out { link, .. }
            | ElementKind::Contact { link, .. }
            | ElementKind::Coil { link, .. }
            | ElementKind::Jump { link, .. } => Ok(self.with_link(link)?),
            ElementKind::Function { enable, inputs, .. } => {
                let found = self.with_enable(enable)?;
                Ok(found.with_links(inputs.as_slice())?)
            }
            ElementKind::Call { enable, inputs, .. } => {
                let found = self.with_enable(enable)?;
                Ok(found.with_inputs(inputs.as_slice())?)
            }
        }
    }

    /// What some elements read.
    pub(crate) fn of(alloc: Global, elements: &[Bare<'a>]) -> Result<Feedback<'a>, NoMemory>
        ensures { IfOk result (λ found. (id : ℕ) (pin : List ℕ) → has found id pin ≡ list_any (λ (e : DiagramElement). kind_reads_back id pin e.kind) (map shown_bare elements.now)) }
    {
        let mut found = Feedback {
            outputs: IndexSet::new(alloc),
        };
        for element in elements {
            found = found.with_kind(&element.kind)?;
        }
        Ok(found)
    }
}

/// The outputs of an element that feed back, in their order.
fn fed_of<'a>(
    alloc: Global,
    feedback: &Feedback<'a>,
    element: &Bare<'a>,
) -> Result<Vec<Port<'a>>, NoMemory>
    ensures { IfOk result (λ fed. map shown_port fed.items ≡ filter (λ (o : diagram.Port). has feedback.now element.now.id o.pin) (ports (shown_kind element.now.kind))) }
{
    let mut fed = Vec::new(alloc);
    if feedback.is_empty() {
        return Ok(fed);
    }
    let ports = ports(alloc, &element.kind)?;
    for port in &ports {
        if feedback.has(element.id, port.pin) {
            fed.push(*port)?;
        }
    }
    Ok(fed)
}

/// The elements, with those of their outputs that feed back.
pub(crate) fn with_fed<'a>(
    alloc: Global,
    feedback: &Feedback<'a>,
    elements: Vec<Bare<'a>>,
) -> Result<Vec<Element<'a>>, NoMemory>
    ensures { IfOk result (λ all. map shown_element all.items ≡ map (with_found feedback.now) (map shown_bare elements.entry.items)) }
{
    let mut all = Vec::new(alloc);
    for element in elements {
        let fed = fed_of(alloc, feedback, &element)?;
        let Bare { id, kind } = element;
        all.push(Element {
            id,
            kind,
            fed: Items::from_vec(fed),
        })?;
    }
    Ok(all)
}
