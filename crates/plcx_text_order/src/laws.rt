//! What holds of the definitions.
ghost use Rattle.plcx_text_order.specs.Laws.{OrderedIsText};

/// What is prepared of all POUs of a ready unit, level by level, is prepared of the unit.
pub fn ordered_is_text()
    ensures { OrderedIsText }
{}
