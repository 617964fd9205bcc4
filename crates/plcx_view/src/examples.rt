//! Worked examples: projects, and the diagrams that they have.
ghost use Rattle.std.specs.Prelude.{◌≡◌, [], ◌∷◌};
ghost use Rattle.plcx_meaning.specs.ExampleBlocks.{two_calls};
ghost use Rattle.plcx_meaning.specs.ExampleFeedback.{feedback_pair};
ghost use Rattle.plcx_meaning.specs.ExampleInOuts.{binding};
ghost use Rattle.plcx_meaning.specs.ExampleLoops.{loop};
ghost use Rattle.plcx_meaning.specs.ExamplePins.{edges, enabled_block, negated_pins, returning};
ghost use Rattle.plcx_view.specs.Pieces.{diagram_of};
ghost use Rattle.plcx_view.specs.Examples.{binding_found, binds_pou, converting, converting_found, converting_pou, edges_found, edges_pou, enabled_found, enabled_pou, feedback_found, feedback_pou, increment_pou, loop_found, loop_pou, negated_found, negated_pou, next, next_pou, passing, passing_found, passing_pou, returning_found, returning_pou, two_calls_found, two_calls_pou};

/// Contacts and coils, with edges and storage; connectors, jumps, labels and returns.
pub fn diagrams_of_rungs()
    ensures edges { diagram_of (edges_pou ∷ []) edges_found ≡ edges ∷ [] }
    ensures passing { diagram_of (passing_pou ∷ []) passing_found ≡ passing ∷ [] }
    ensures jumping { diagram_of (loop_pou ∷ []) loop_found ≡ loop ∷ [] }
    ensures returning { diagram_of (returning_pou ∷ []) returning_found ≡ returning ∷ [] }
{}

/// Functions: negated pins, literals and results, a conversion, inputs in the order of the signature, and feedback.
pub fn diagrams_of_functions()
    ensures negated { diagram_of (negated_pou ∷ []) negated_found ≡ negated_pins ∷ [] }
    ensures converting { diagram_of (converting_pou ∷ []) converting_found ≡ converting ∷ [] }
    ensures feeding_back { diagram_of (feedback_pou ∷ []) feedback_found ≡ feedback_pair ∷ [] }
{}

/// Calls: under EN, with in-outs, and of standard blocks, whatever the case of the letters that the file writes.
pub fn diagrams_of_blocks()
    ensures enabled { diagram_of (enabled_pou ∷ next_pou ∷ []) enabled_found ≡ enabled_block ∷ next ∷ [] }
    ensures binding { diagram_of (binds_pou ∷ increment_pou ∷ []) binding_found ≡ binding }
    ensures standard { diagram_of (two_calls_pou ∷ []) two_calls_found ≡ two_calls ∷ [] }
{}
