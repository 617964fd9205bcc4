//! Keys as values that compare as keys do.
ghost use Rattle.std.specs.Prelude.{◌≡◌, ◌↔◌, true, false};
ghost use Rattle.std.specs.Ordering.{is_gt};
ghost use Rattle.plcx_model.specs.Keys.{key_cmp};
ghost use Rattle.plcx_order.specs.Ranks.{rank_of, place_of};

use plcx_model::Key;

/// Where an element stands on the sheet.
#[derive(Clone, Copy, Debug, PartialEq, Eq, PartialOrd, Ord)]
pub(crate) struct Place {
    pub y: i64,
    pub x: i64,
    pub local_id: u64,
}

/// A key whose order is given comes before one whose order isn't.
#[derive(Clone, Copy, Debug, PartialEq, Eq, PartialOrd, Ord)]
pub(crate) struct Rank {
    pub is_late: bool,
    pub order: u64,
    pub place: Place,
}

pub(crate) fn place_of(key: Key) -> Place
    ensures { result ≡ place_of key }
{
    Place {
        y: key.y,
        x: key.x,
        local_id: key.local_id,
    }
}

pub(crate) fn rank_of(key: Key) -> Rank
    ensures { result ≡ rank_of key }
{
    match key.order {
        Some(order) => Rank {
            is_late: false,
            order,
            place: place_of(key),
        },
        None => Rank {
            is_late: true,
            order: 0,
            place: place_of(key),
        },
    }
}

/// Whether one key isn't greater than another.
pub(crate) fn is_at_most(a: Key, b: Key) -> bool
    ensures { (result ≡ true) ↔ (is_gt (key_cmp a b) ≡ false) }
{
    rank_of(a).cmp(&rank_of(b)).is_le()
}
