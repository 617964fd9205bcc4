//! What holds of the definitions.
ghost use Rattle.plcx_text_pieces.specs.Laws.{PiecesStand};

/// Where the piece of the statements of a POU stands among what is prepared, its lines stand for these statements.
pub fn pieces_stand()
    ensures { PiecesStand }
{}
