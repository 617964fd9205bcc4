//! The rule on how much there may be.
ghost use Rattle.std.specs.Prelude.{◌≡◌, [], map, option_map, false};
ghost use Rattle.plcx_model.specs.Verdict.{first_breaking};
ghost use Rattle.plcx_table.specs.Flat.{shown_item};
ghost use Rattle.plcx_table.specs.Format.{place_of};
ghost use Rattle.plcx_table.specs.Limits.{no_counts, with_element, with_fate, is_too_much, breaks_limits, IsFew};
ghost use Rattle.plcx_table.specs.declared.row.Fate.TheVariants.{Read};
ghost use Rattle.plcx_table.specs.declared.row.FormatRule.TheVariants.{Limits};

use crate::row::{Fate, Row};
use crate::walk::Looked;
use plcx_types::limits::{
    MAX_CONNECTIONS, MAX_ELEMENTS, MAX_PIN_CONNECTIONS, MAX_PINS, MAX_POUS, MAX_VARIABLES,
};

/// What is counted: POUs, the variables of a POU, the elements and connections of a body, the connections of a pin
/// that isn't a right rail's, and the pins of a list of inputs or in-outs.
#[derive(Clone, Copy)]
pub struct Counts {
    pub pous: usize,
    pub variables: usize,
    pub elements: usize,
    pub connections: usize,
    pub pin_connections: usize,
    pub pins: usize,
}

fn no_counts() -> Counts
    ensures value { result ≡ no_counts }
    ensures few { IsFew result }
{
    Counts {
        pous: 0,
        variables: 0,
        elements: 0,
        connections: 0,
        pin_connections: 0,
        pins: 0,
    }
}

fn with_element(counts: Counts) -> Counts
    requires { IsFew counts }
    ensures { result ≡ with_element counts }
{
    Counts {
        elements: counts.elements + 1,
        ..counts
    }
}

/// What is counted once an element is read as this row.
fn with_row(row: Row, counts: Counts) -> Counts
    requires { IsFew counts }
    ensures { result ≡ with_fate (Read row) counts }
{
    match row {
        Row::Program | Row::FunctionBlock => Counts {
            pous: counts.pous + 1,
            variables: 0,
            ..counts
        },
        Row::Variable => Counts {
            variables: counts.variables + 1,
            ..counts
        },
        Row::Diagram => Counts {
            elements: 0,
            connections: 0,
            ..counts
        },
        Row::Block
        | Row::InVariable
        | Row::OutVariable
        | Row::Contact
        | Row::Coil
        | Row::Connector
        | Row::Continuation
        | Row::Label
        | Row::Jump
        | Row::Return
        | Row::LeftRail
        | Row::RightRail => with_element(counts),
        Row::InputPins | Row::InOutPins => Counts { pins: 0, ..counts },
        Row::InputPin | Row::InOutPin => Counts {
            pins: counts.pins + 1,
            ..counts
        },
        Row::PointIn => Counts {
            pin_connections: 0,
            ..counts
        },
        Row::Connection => Counts {
            connections: counts.connections + 1,
            pin_connections: counts.pin_connections + 1,
            ..counts
        },
        Row::RailConnection => Counts {
            connections: counts.connections + 1,
            ..counts
        },
        _ => counts,
    }
}

fn with_fate(fate: Fate, counts: Counts) -> Counts
    requires { IsFew counts }
    ensures { result ≡ with_fate fate counts }
{
    match fate {
        Fate::Read(row) => with_row(row, counts),
        Fate::Skipped(Row::Comment) | Fate::Skipped(Row::Vendor) => with_element(counts),
        _ => counts,
    }
}

#[tactic(auto, unfolding(crate::specs::Limits::is_too_much))]
fn is_too_much(counts: Counts) -> bool
    ensures value { result ≡ is_too_much counts }
    ensures few { result ≡ false → IsFew counts }
{
    counts.pous > MAX_POUS
        || counts.variables > MAX_VARIABLES
        || counts.elements > MAX_ELEMENTS
        || counts.connections > MAX_CONNECTIONS
        || counts.pin_connections > MAX_PIN_CONNECTIONS
        || counts.pins > MAX_PINS
}

/// The first element that is one too many.
pub fn first_too_many(items: &[Looked]) -> Option<u64>
    ensures { result ≡ option_map (place_of Limits) (first_breaking breaks_limits [] (map shown_item items.now)) }
{
    let mut counts = no_counts();
    for item in items {
        counts = with_fate(item.fate, counts);
        if is_too_much(counts) {
            return Some(item.element.span.start);
        }
    }
    None
}
