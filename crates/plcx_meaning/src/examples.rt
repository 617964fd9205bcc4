//! Worked examples: a diagram and its text have the trace that is written beside them, which neither was taken from.
ghost use Rattle.std.specs.Prelude.{◌≡◌, ◌≢◌, pos, List, [], ◌∷◌, map};
ghost use Rattle.plcx_meaning.specs.Layout.{Leaf, initial_in, IsRetainedState};
ghost use Rattle.plcx_meaning.specs.Run.{AreEvents};
ghost use Rattle.plcx_meaning.specs.Evaluate.{diagram_machine};
ghost use Rattle.plcx_meaning.specs.Fits.{ProjectFits};
ghost use Rattle.plcx_meaning.specs.Execute.{text_machine};
ghost use Rattle.plcx_meaning.specs.Templates.{pou_text, unit_of};
ghost use Rattle.plcx_meaning.specs.Traces.{trace_with, trace, diagram_trace, text_trace};
ghost use Rattle.plcx_meaning.specs.ExampleRungs.{document_order, document_order_events, document_order_trace, motor, motor_blocks, motor_events, motor_statements, motor_trace, variable_for_wire, wire_past_a_write, wire_past_a_write_events, wire_past_a_write_trace};
ghost use Rattle.plcx_meaning.specs.ExampleFeedback.{counting, counting_blocks, counting_events, counting_statements, counting_trace, disabled, disabled_events, disabled_trace, feedback_pair, feedback_pair_events, feedback_pair_trace, saturating, saturating_events, saturating_trace};
ghost use Rattle.plcx_meaning.specs.ExampleLoops.{calls_a_loop, calls_a_loop_trace, disabled_in_a_loop, disabled_in_a_loop_trace, first_jump_decides, first_jump_decides_trace, loop, loop_block, loop_blocks, loop_no_turn_trace, loop_one_turn_less_trace, loop_statements, loop_trace, nested_loop, nested_loop_one_turn_less_trace, nested_loop_trace, one_scan, two_scans};
ghost use Rattle.plcx_meaning.specs.ExampleBlocks.{delay, delay_events, delay_trace, division, edge_block, edge_block_blocks, edge_block_statements, fault_in_a_block, fault_in_a_block_events, fault_in_a_block_trace, retained_edge, retained_edge_events, retained_edge_trace, two_calls, two_calls_trace};
ghost use Rattle.plcx_meaning.specs.ExamplePins.{edges, edges_events, edges_trace, enabled_block, enabled_block_events, enabled_block_statements, enabled_block_trace, negated_pins, negated_pins_events, negated_pins_trace, next, returning, returning_events, returning_trace};
ghost use Rattle.plcx_meaning.specs.ExampleStarts.{both_restarts, idle, idle_trace, one_scan_at_start, paths, seven, seven_trace, spelled_so, spellings};
ghost use Rattle.plcx_meaning.specs.ExampleInOuts.{binding, binding_trace, binds, binds_statements, handing_on, handing_on_trace, hands_on, one_variable_twice, sharing, sharing_trace};
ghost use Rattle.plcx_meaning.specs.ExampleWatch.{cut_loop_heard, enabled_block_heard, fault_and_restart_events, fault_and_restart_heard, heard_from_start, motor_heard, watched_loop, whole_loop_heard};

/// Contacts and coils: a motor that holds itself, networks in the order of the document, and a coil that writes the variable of a contact.
pub fn examples_of_rungs()
    ensures motor_diagram { diagram_trace (motor ∷ []) motor 1000 motor_events ≡ motor_trace }
    ensures motor_text { text_trace (motor ∷ []) motor 1000 motor_events ≡ motor_trace }
    ensures document_order_diagram { diagram_trace (document_order ∷ []) document_order 1000 document_order_events ≡ document_order_trace }
    ensures document_order_text { text_trace (document_order ∷ []) document_order 1000 document_order_events ≡ document_order_trace }
    ensures wire_past_a_write_diagram { diagram_trace (wire_past_a_write ∷ []) wire_past_a_write 1000 wire_past_a_write_events ≡ wire_past_a_write_trace }
    ensures wire_past_a_write_text { text_trace (wire_past_a_write ∷ []) wire_past_a_write 1000 wire_past_a_write_events ≡ wire_past_a_write_trace }
    ensures motor_statements { (pou_text motor).body ≡ motor_statements }
    ensures motor_blocks { (pou_text motor).blocks ≡ motor_blocks }
    ensures wrong_variable_for_wire { trace (text_machine (variable_for_wire ∷ []) variable_for_wire) 1000 wire_past_a_write_events ≢ wire_past_a_write_trace }
{}

/// Outputs that feed back: they count, fault, latch, and begin anew after a cold restart; a sum that is not applied gives 0.
pub fn examples_of_feedback()
    ensures counting_diagram { diagram_trace (counting ∷ []) counting 1000 counting_events ≡ counting_trace }
    ensures counting_text { text_trace (counting ∷ []) counting 1000 counting_events ≡ counting_trace }
    ensures saturating_diagram { diagram_trace (saturating ∷ []) saturating 1000 saturating_events ≡ saturating_trace }
    ensures saturating_text { text_trace (saturating ∷ []) saturating 1000 saturating_events ≡ saturating_trace }
    ensures feedback_pair_diagram { diagram_trace (feedback_pair ∷ []) feedback_pair 1000 feedback_pair_events ≡ feedback_pair_trace }
    ensures feedback_pair_text { text_trace (feedback_pair ∷ []) feedback_pair 1000 feedback_pair_events ≡ feedback_pair_trace }
    ensures disabled_diagram { diagram_trace (disabled ∷ []) disabled 1000 disabled_events ≡ disabled_trace }
    ensures disabled_text { text_trace (disabled ∷ []) disabled 1000 disabled_events ≡ disabled_trace }
    ensures counting_statements { (pou_text counting).body ≡ counting_statements }
    ensures counting_blocks { (pou_text counting).blocks ≡ counting_blocks }
{}

/// Jumps: each evaluation of a network costs a turn, in called blocks too, and the first jump whose condition is TRUE decides.
pub fn examples_of_loops()
    ensures loop_diagram { diagram_trace (loop ∷ []) loop 15 one_scan ≡ loop_trace }
    ensures loop_text { text_trace (loop ∷ []) loop 15 one_scan ≡ loop_trace }
    ensures loop_one_turn_less_diagram { diagram_trace (loop ∷ []) loop 14 one_scan ≡ loop_one_turn_less_trace }
    ensures loop_one_turn_less_text { text_trace (loop ∷ []) loop 14 one_scan ≡ loop_one_turn_less_trace }
    ensures loop_no_turn_diagram { diagram_trace (loop ∷ []) loop 0 one_scan ≡ loop_no_turn_trace }
    ensures loop_no_turn_text { text_trace (loop ∷ []) loop 0 one_scan ≡ loop_no_turn_trace }
    ensures first_jump_decides_diagram { diagram_trace (first_jump_decides ∷ []) first_jump_decides 3 one_scan ≡ first_jump_decides_trace }
    ensures first_jump_decides_text { text_trace (first_jump_decides ∷ []) first_jump_decides 3 one_scan ≡ first_jump_decides_trace }
    ensures calls_a_loop_diagram { diagram_trace (calls_a_loop ∷ loop_block ∷ []) calls_a_loop 0 two_scans ≡ calls_a_loop_trace }
    ensures calls_a_loop_text { text_trace (calls_a_loop ∷ loop_block ∷ []) calls_a_loop 0 two_scans ≡ calls_a_loop_trace }
    ensures nested_loop_diagram { diagram_trace (nested_loop ∷ loop_block ∷ []) nested_loop 15 one_scan ≡ nested_loop_trace }
    ensures nested_loop_text { text_trace (nested_loop ∷ loop_block ∷ []) nested_loop 15 one_scan ≡ nested_loop_trace }
    ensures nested_loop_one_turn_less_diagram { diagram_trace (nested_loop ∷ loop_block ∷ []) nested_loop 14 one_scan ≡ nested_loop_one_turn_less_trace }
    ensures nested_loop_one_turn_less_text { text_trace (nested_loop ∷ loop_block ∷ []) nested_loop 14 one_scan ≡ nested_loop_one_turn_less_trace }
    ensures disabled_in_a_loop_diagram { diagram_trace (disabled_in_a_loop ∷ []) disabled_in_a_loop 1000 one_scan ≡ disabled_in_a_loop_trace }
    ensures disabled_in_a_loop_text { text_trace (disabled_in_a_loop ∷ []) disabled_in_a_loop 1000 one_scan ≡ disabled_in_a_loop_trace }
    ensures loop_statements { (pou_text loop).body ≡ loop_statements }
    ensures loop_blocks { (pou_text loop).blocks ≡ loop_blocks }
{}

/// Instances: a delay, an edge in a retained instance, one instance that is called twice, and a fault in a called block.
pub fn examples_of_blocks()
    ensures delay_diagram { diagram_trace (delay ∷ []) delay 1000 delay_events ≡ delay_trace }
    ensures delay_text { text_trace (delay ∷ []) delay 1000 delay_events ≡ delay_trace }
    ensures retained_edge_diagram { diagram_trace (retained_edge ∷ edge_block ∷ []) retained_edge 1000 retained_edge_events ≡ retained_edge_trace }
    ensures retained_edge_text { text_trace (retained_edge ∷ edge_block ∷ []) retained_edge 1000 retained_edge_events ≡ retained_edge_trace }
    ensures two_calls_diagram { diagram_trace (two_calls ∷ []) two_calls 1000 two_scans ≡ two_calls_trace }
    ensures two_calls_text { text_trace (two_calls ∷ []) two_calls 1000 two_scans ≡ two_calls_trace }
    ensures fault_in_a_block_diagram { diagram_trace (fault_in_a_block ∷ division ∷ []) fault_in_a_block 1000 fault_in_a_block_events ≡ fault_in_a_block_trace }
    ensures fault_in_a_block_text { text_trace (fault_in_a_block ∷ division ∷ []) fault_in_a_block 1000 fault_in_a_block_events ≡ fault_in_a_block_trace }
    ensures edge_block_statements { (pou_text edge_block).body ≡ edge_block_statements }
    ensures edge_block_blocks { (pou_text edge_block).blocks ≡ edge_block_blocks }
{}

/// In-outs stand for a variable of the caller, through several calls, and two of them for one variable.
pub fn examples_of_in_outs()
    ensures binding_diagram { diagram_trace binding binds 1000 two_scans ≡ binding_trace }
    ensures binding_text { text_trace binding binds 1000 two_scans ≡ binding_trace }
    ensures handing_on_diagram { diagram_trace handing_on hands_on 1000 one_scan ≡ handing_on_trace }
    ensures handing_on_text { text_trace handing_on hands_on 1000 one_scan ≡ handing_on_trace }
    ensures sharing_diagram { diagram_trace sharing one_variable_twice 1000 two_scans ≡ sharing_trace }
    ensures sharing_text { text_trace sharing one_variable_twice 1000 two_scans ≡ sharing_trace }
    ensures binds_statements { (pou_text binds).body ≡ binds_statements }
{}

/// Enables, negations, edges and returns.
pub fn examples_of_pins()
    ensures enabled_block_diagram { diagram_trace (enabled_block ∷ next ∷ []) enabled_block 1000 enabled_block_events ≡ enabled_block_trace }
    ensures enabled_block_text { text_trace (enabled_block ∷ next ∷ []) enabled_block 1000 enabled_block_events ≡ enabled_block_trace }
    ensures enabled_block_statements { (pou_text enabled_block).body ≡ enabled_block_statements }
    ensures negated_pins_diagram { diagram_trace (negated_pins ∷ []) negated_pins 1000 negated_pins_events ≡ negated_pins_trace }
    ensures negated_pins_text { text_trace (negated_pins ∷ []) negated_pins 1000 negated_pins_events ≡ negated_pins_trace }
    ensures edges_diagram { diagram_trace (edges ∷ []) edges 1000 edges_events ≡ edges_trace }
    ensures edges_text { text_trace (edges ∷ []) edges 1000 edges_events ≡ edges_trace }
    ensures returning_diagram { diagram_trace (returning ∷ []) returning 1 returning_events ≡ returning_trace }
    ensures returning_text { text_trace (returning ∷ []) returning 1 returning_events ≡ returning_trace }
{}

/// Where no retained state is given a trace begins from the initial values. Leaves are spelled as they are declared, and have paths without case.
pub fn examples_of_starts()
    ensures idle_diagram { diagram_trace (idle ∷ []) idle 1000 one_scan_at_start ≡ idle_trace }
    ensures idle_text { text_trace (idle ∷ []) idle 1000 one_scan_at_start ≡ idle_trace }
    ensures seven_diagram { trace_with (diagram_machine (idle ∷ []) idle) (seven (diagram_machine (idle ∷ []) idle)) 1000 both_restarts ≡ seven_trace }
    ensures seven_text { trace_with (text_machine (unit_of (idle ∷ [])) (pou_text idle)) (seven (text_machine (unit_of (idle ∷ [])) (pou_text idle))) 1000 both_restarts ≡ seven_trace }
    ensures spellings { map (λ (leaf : Leaf). leaf.spelled) (diagram_machine (spelled_so ∷ []) spelled_so).layout ≡ spellings }
    ensures paths { map (λ (leaf : Leaf). leaf.path) (diagram_machine (spelled_so ∷ []) spelled_so).layout ≡ paths }
{}

/// What the law presumes can be met, also by a program that calls a block with a jump, and by one with feedback.
pub fn examples_that_fit()
    ensures motor { ProjectFits (motor ∷ []) }
    ensures motor_events { AreEvents (diagram_machine (motor ∷ []) motor).layout 0 motor_events }
    ensures nested_loop { ProjectFits (nested_loop ∷ loop_block ∷ []) }
    ensures counting { ProjectFits (counting ∷ []) }
    ensures saturating { IsRetainedState (diagram_machine (saturating ∷ []) saturating).layout (λ p. pos 0) }
    ensures idle { IsRetainedState (diagram_machine (idle ∷ []) idle).layout (initial_in (diagram_machine (idle ∷ []) idle).layout) }
{}

/// What a watch hears: each output of an element that was evaluated to its end, those of a called block before those of its call.
/// What was heard before a fault or a cut stays heard, and the call that it came in isn't.
pub fn examples_of_watches()
    ensures motor { heard_from_start (motor ∷ []) motor 1000 motor_events ≡ motor_heard }
    ensures enabled_block { heard_from_start (enabled_block ∷ next ∷ []) enabled_block 1000 enabled_block_events ≡ enabled_block_heard }
    ensures fault_and_restart { heard_from_start (division ∷ fault_in_a_block ∷ []) fault_in_a_block 1000 fault_and_restart_events ≡ fault_and_restart_heard }
    ensures whole_loop { heard_from_start (watched_loop ∷ loop_block ∷ []) watched_loop 15 one_scan ≡ whole_loop_heard }
    ensures cut_loop { heard_from_start (watched_loop ∷ loop_block ∷ []) watched_loop 5 one_scan ≡ cut_loop_heard }
{}
