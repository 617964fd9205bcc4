//! The leaves of the blocks as pins.
ghost use Rattle.std.specs.Prelude.{◌≡◌, map};
ghost use Rattle.plcx_std.specs.Pins.{shown, pins};

use crate::kind::StdKind;
use plcx_types::Ty;

/// What a leaf is to the user of a block.
#[derive(Clone, Copy, Debug, PartialEq, Eq)]
pub enum Role {
    In,
    Out,
    Hidden,
}

/// A leaf of a block.
#[derive(Clone, Copy, Debug)]
pub struct StdPin {
    pub name: &'static str,
    pub ty: Ty,
    pub role: Role,
}

const TON: [StdPin; 6] = [
    StdPin {
        name: "IN",
        ty: Ty::Bool,
        role: Role::In,
    },
    StdPin {
        name: "PT",
        ty: Ty::Time,
        role: Role::In,
    },
    StdPin {
        name: "Q",
        ty: Ty::Bool,
        role: Role::Out,
    },
    StdPin {
        name: "ET",
        ty: Ty::Time,
        role: Role::Out,
    },
    StdPin {
        name: "RUN",
        ty: Ty::Bool,
        role: Role::Hidden,
    },
    StdPin {
        name: "START",
        ty: Ty::Time,
        role: Role::Hidden,
    },
];

const PULSE: [StdPin; 7] = [
    StdPin {
        name: "IN",
        ty: Ty::Bool,
        role: Role::In,
    },
    StdPin {
        name: "PT",
        ty: Ty::Time,
        role: Role::In,
    },
    StdPin {
        name: "Q",
        ty: Ty::Bool,
        role: Role::Out,
    },
    StdPin {
        name: "ET",
        ty: Ty::Time,
        role: Role::Out,
    },
    StdPin {
        name: "M",
        ty: Ty::Bool,
        role: Role::Hidden,
    },
    StdPin {
        name: "RUN",
        ty: Ty::Bool,
        role: Role::Hidden,
    },
    StdPin {
        name: "START",
        ty: Ty::Time,
        role: Role::Hidden,
    },
];

const CTU: [StdPin; 6] = [
    StdPin {
        name: "CU",
        ty: Ty::Bool,
        role: Role::In,
    },
    StdPin {
        name: "R",
        ty: Ty::Bool,
        role: Role::In,
    },
    StdPin {
        name: "PV",
        ty: Ty::Int,
        role: Role::In,
    },
    StdPin {
        name: "Q",
        ty: Ty::Bool,
        role: Role::Out,
    },
    StdPin {
        name: "CV",
        ty: Ty::Int,
        role: Role::Out,
    },
    StdPin {
        name: "M",
        ty: Ty::Bool,
        role: Role::Hidden,
    },
];

const CTD: [StdPin; 6] = [
    StdPin {
        name: "CD",
        ty: Ty::Bool,
        role: Role::In,
    },
    StdPin {
        name: "LD",
        ty: Ty::Bool,
        role: Role::In,
    },
    StdPin {
        name: "PV",
        ty: Ty::Int,
        role: Role::In,
    },
    StdPin {
        name: "Q",
        ty: Ty::Bool,
        role: Role::Out,
    },
    StdPin {
        name: "CV",
        ty: Ty::Int,
        role: Role::Out,
    },
    StdPin {
        name: "M",
        ty: Ty::Bool,
        role: Role::Hidden,
    },
];

const CTUD: [StdPin; 10] = [
    StdPin {
        name: "CU",
        ty: Ty::Bool,
        role: Role::In,
    },
    StdPin {
        name: "CD",
        ty: Ty::Bool,
        role: Role::In,
    },
    StdPin {
        name: "R",
        ty: Ty::Bool,
        role: Role::In,
    },
    StdPin {
        name: "LD",
        ty: Ty::Bool,
        role: Role::In,
    },
    StdPin {
        name: "PV",
        ty: Ty::Int,
        role: Role::In,
    },
    StdPin {
        name: "QU",
        ty: Ty::Bool,
        role: Role::Out,
    },
    StdPin {
        name: "QD",
        ty: Ty::Bool,
        role: Role::Out,
    },
    StdPin {
        name: "CV",
        ty: Ty::Int,
        role: Role::Out,
    },
    StdPin {
        name: "MU",
        ty: Ty::Bool,
        role: Role::Hidden,
    },
    StdPin {
        name: "MD",
        ty: Ty::Bool,
        role: Role::Hidden,
    },
];

const SR: [StdPin; 3] = [
    StdPin {
        name: "S1",
        ty: Ty::Bool,
        role: Role::In,
    },
    StdPin {
        name: "R",
        ty: Ty::Bool,
        role: Role::In,
    },
    StdPin {
        name: "Q1",
        ty: Ty::Bool,
        role: Role::Out,
    },
];

const RS: [StdPin; 3] = [
    StdPin {
        name: "S",
        ty: Ty::Bool,
        role: Role::In,
    },
    StdPin {
        name: "R1",
        ty: Ty::Bool,
        role: Role::In,
    },
    StdPin {
        name: "Q1",
        ty: Ty::Bool,
        role: Role::Out,
    },
];

const R_TRIG: [StdPin; 3] = [
    StdPin {
        name: "CLK",
        ty: Ty::Bool,
        role: Role::In,
    },
    StdPin {
        name: "Q",
        ty: Ty::Bool,
        role: Role::Out,
    },
    StdPin {
        name: "M",
        ty: Ty::Bool,
        role: Role::Hidden,
    },
];

const F_TRIG: [StdPin; 3] = [
    StdPin {
        name: "CLK",
        ty: Ty::Bool,
        role: Role::In,
    },
    StdPin {
        name: "Q",
        ty: Ty::Bool,
        role: Role::Out,
    },
    StdPin {
        name: "M",
        ty: Ty::Bool,
        role: Role::Hidden,
    },
];

/// The leaves of a block in order: its inputs, its outputs, and what only the block itself reads.
pub fn pins(k: StdKind) -> &'static [StdPin]
    ensures { map shown result.now ≡ pins k }
{
    match k {
        StdKind::Ton => &TON,
        StdKind::Tof => &PULSE,
        StdKind::Tp => &PULSE,
        StdKind::Ctu => &CTU,
        StdKind::Ctd => &CTD,
        StdKind::Ctud => &CTUD,
        StdKind::Sr => &SR,
        StdKind::Rs => &RS,
        StdKind::RTrig => &R_TRIG,
        StdKind::FTrig => &F_TRIG,
    }
}
