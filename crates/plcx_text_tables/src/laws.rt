//! What holds of the definitions.
ghost use Rattle.plcx_text_tables.specs.Laws.{TablesTell};

/// Each POU of a unit that is ready has its table, and its level.
pub fn tables_tell()
    ensures { TablesTell }
{}
