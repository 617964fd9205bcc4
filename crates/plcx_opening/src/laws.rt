//! What holds of the memories of a program.
ghost use Rattle.plcx_opening.specs.Laws.{MemoriesAreLaid};

/// What a program remembers by the types of the file is what its diagram does.
pub fn memories_are_laid()
    ensures { MemoriesAreLaid }
{}
