//! Worked examples: the first rule that a project breaks and where, or none, as it computes.
ghost use Rattle.std.specs.Prelude.{◌≡◌, Some, None, codes};
ghost use Rattle.plcx_model.specs.declared.broken.Place.TheVariants.{Element};
ghost use Rattle.plcx_rules.specs.declared.rule.LinkRule.TheVariants as rule;
ghost use Rattle.plcx_rules.specs.LinkRules.{link_answer};
ghost use Rattle.plcx_rules.specs.Sources.{links_of};
ghost use Rattle.plcx_rules.specs.Pieces.{at};
ghost use Rattle.plcx_rules.specs.LinkExamples as examples;

/// A localId stands once in a body; a connection names an element of its body and one of its outputs.
pub fn examples_of_references()
    ensures one_id_twice { link_answer examples.one_id_twice ≡ Some (rule.LocalIds, at 7) }
    ensures one_id_in_two_bodies { link_answer examples.one_id_in_two_bodies ≡ None }
    ensures id_of_a_comment { link_answer examples.id_of_a_comment ≡ Some (rule.LocalIds, at 1) }
    ensures unknown_reference { link_answer examples.unknown_reference ≡ Some (rule.References, at 2) }
    ensures known_reference { link_answer examples.known_reference ≡ None }
    ensures unknown_reference_at_a_rail { link_answer examples.unknown_reference_at_a_rail ≡ Some (rule.References, at 2) }
    ensures output_of_two { link_answer examples.output_of_two ≡ Some (rule.Outputs, at 2) }
    ensures output_named { link_answer examples.output_named ≡ None }
    ensures output_not_listed { link_answer examples.output_not_listed ≡ Some (rule.Outputs, at 2) }
    ensures output_of_a_connector { link_answer examples.output_of_a_connector ≡ Some (rule.Outputs, at 3) }
    ensures output_of_a_continuation { link_answer examples.output_of_a_continuation ≡ None }
    ensures result_of_another_name { link_answer examples.result_of_another_name ≡ None }
    ensures result_of_no_name { link_answer examples.result_of_no_name ≡ None }
    ensures result_and_eno { link_answer examples.result_and_eno ≡ Some (rule.Outputs, at 3) }
    ensures output_of_an_unknown_block { link_answer examples.output_of_an_unknown_block ≡ Some (rule.BlockTypes, at 3) }
    ensures unknown_output_of_an_unknown_block { link_answer examples.unknown_output_of_an_unknown_block ≡ Some (rule.Outputs, at 2) }
    ensures in_out_as_output { link_answer examples.in_out_as_output ≡ Some (rule.Outputs, at 3) }
{}

/// Where a source has to be, and where several may.
pub fn examples_of_connections()
    ensures two_sources { link_answer examples.two_sources ≡ Some (rule.Several, at 2) }
    ensures two_sources_in_a_ladder { link_answer examples.two_sources_in_a_ladder ≡ None }
    ensures no_source { link_answer examples.no_source ≡ Some (rule.Missing, at 2) }
    ensures rail_without_source { link_answer examples.rail_without_source ≡ None }
    ensures input_of_a_function { link_answer examples.input_of_a_function ≡ Some (rule.Missing, at 2) }
    ensures enable_of_a_function { link_answer examples.enable_of_a_function ≡ None }
    ensures in_out_of_two { link_answer examples.in_out_of_two ≡ Some (rule.Missing, at 2) }
    ensures in_out_of_one { link_answer examples.in_out_of_one ≡ None }
    ensures in_out_of_a_timer { link_answer examples.in_out_of_a_timer ≡ Some (rule.Missing, at 2) }
{}

/// What a block calls, and which instance.
pub fn examples_of_blocks()
    ensures unknown_block { link_answer examples.unknown_block ≡ Some (rule.BlockTypes, at 3) }
    ensures known_block { link_answer examples.known_block ≡ None }
    ensures program_as_a_block { link_answer examples.program_as_a_block ≡ Some (rule.BlockTypes, at 3) }
    ensures conversion_to_itself { link_answer examples.conversion_to_itself ≡ Some (rule.BlockTypes, at 3) }
    ensures instance_of_another_type { link_answer examples.instance_of_another_type ≡ Some (rule.Instances, at 3) }
    ensures no_instance { link_answer examples.no_instance ≡ Some (rule.Instances, at 3) }
    ensures instance_of_a_function { link_answer examples.instance_of_a_function ≡ Some (rule.Instances, at 3) }
    ensures no_instance_of_a_function { link_answer examples.no_instance_of_a_function ≡ None }
{}

/// Which formal parameters a block lists.
pub fn examples_of_formals()
    ensures gap_in_the_inputs { link_answer examples.gap_in_the_inputs ≡ Some (rule.Formals, at 2) }
    ensures no_gap_in_the_inputs { link_answer examples.no_gap_in_the_inputs ≡ None }
    ensures one_input_of_two { link_answer examples.one_input_of_two ≡ Some (rule.Formals, at 2) }
    ensures leading_zero { link_answer examples.leading_zero ≡ Some (rule.Formals, at 2) }
    ensures selector_missing { link_answer examples.selector_missing ≡ Some (rule.Formals, at 2) }
    ensures selector_given { link_answer examples.selector_given ≡ None }
    ensures two_enables { link_answer examples.two_enables ≡ Some (rule.Formals, at 2) }
    ensures two_enables_of_which_one_counts { link_answer examples.two_enables_of_which_one_counts ≡ None }
    ensures enable_as_output { link_answer examples.enable_as_output ≡ Some (rule.Formals, at 2) }
    ensures enable_output { link_answer examples.enable_output ≡ None }
    ensures hidden_leaf { link_answer examples.hidden_leaf ≡ Some (rule.Formals, at 2) }
    ensures second_result { link_answer examples.second_result ≡ Some (rule.Formals, at 2) }
    ensures two_results_of_no_name { link_answer examples.two_results_of_no_name ≡ Some (rule.Formals, at 2) }
    ensures result_listed { link_answer examples.result_listed ≡ None }
    ensures in_out_missing { link_answer examples.in_out_missing ≡ Some (rule.Formals, at 2) }
    ensures in_out_twice { link_answer examples.in_out_twice ≡ Some (rule.Formals, at 2) }
    ensures in_out_as_input { link_answer examples.in_out_as_input ≡ Some (rule.Formals, at 2) }
    ensures local_as_a_pin { link_answer examples.local_as_a_pin ≡ Some (rule.Formals, at 2) }
    ensures pins_of_a_block { link_answer examples.pins_of_a_block ≡ None }
{}

/// What an element holds, and what can be written.
pub fn examples_of_expressions()
    ensures output_of_an_instance { link_answer examples.output_of_an_instance ≡ None }
    ensures input_of_an_instance { link_answer examples.input_of_an_instance ≡ Some (rule.Expressions, at 1) }
    ensures enable_output_of_an_instance { link_answer examples.enable_output_of_an_instance ≡ Some (rule.Expressions, at 1) }
    ensures instance_as_a_value { link_answer examples.instance_as_a_value ≡ Some (rule.Expressions, at 1) }
    ensures unknown_variable { link_answer examples.unknown_variable ≡ Some (rule.Expressions, at 1) }
    ensures literal_of_a_type { link_answer examples.literal_of_a_type ≡ None }
    ensures literal_outside_its_type { link_answer examples.literal_outside_its_type ≡ Some (rule.Expressions, at 1) }
    ensures spaces_in_a_member { link_answer examples.spaces_in_a_member ≡ Some (rule.Expressions, at 1) }
    ensures literal_at_a_contact { link_answer examples.literal_at_a_contact ≡ Some (rule.Expressions, at 2) }
    ensures output_at_a_contact { link_answer examples.output_at_a_contact ≡ None }
    ensures output_of_no_instance { link_answer examples.output_of_no_instance ≡ Some (rule.Expressions, at 2) }
    ensures output_as_a_target { link_answer examples.output_as_a_target ≡ Some (rule.Targets, at 2) }
    ensures bad_literal_as_a_target { link_answer examples.bad_literal_as_a_target ≡ Some (rule.Expressions, at 2) }
    ensures literal_as_a_target { link_answer examples.literal_as_a_target ≡ Some (rule.Targets, at 2) }
    ensures input_as_a_target { link_answer examples.input_as_a_target ≡ Some (rule.Targets, at 2) }
    ensures constant_as_a_target { link_answer examples.constant_as_a_target ≡ Some (rule.Targets, at 2) }
    ensures instance_as_a_target { link_answer examples.instance_as_a_target ≡ Some (rule.Targets, at 2) }
    ensures output_variable_as_a_target { link_answer examples.output_variable_as_a_target ≡ None }
    ensures in_out_as_a_target { link_answer examples.in_out_as_a_target ≡ None }
    ensures in_out_of_a_literal { link_answer examples.in_out_of_a_literal ≡ Some (rule.Targets, at 2) }
    ensures in_out_of_a_constant { link_answer examples.in_out_of_a_constant ≡ Some (rule.Targets, at 2) }
    ensures in_out_of_a_function { link_answer examples.in_out_of_a_function ≡ Some (rule.Targets, at 2) }
{}

/// Connectors and continuations, labels and jumps.
pub fn examples_of_names()
    ensures connector_twice { link_answer examples.connector_twice ≡ Some (rule.Connectors, at 3) }
    ensures connectors_of_two_names { link_answer examples.connectors_of_two_names ≡ None }
    ensures continuation_of_nothing { link_answer examples.continuation_of_nothing ≡ Some (rule.Connectors, at 2) }
    ensures continuation_before_its_connector { link_answer examples.continuation_before_its_connector ≡ None }
    ensures label_twice { link_answer examples.label_twice ≡ Some (rule.Labels, at 3) }
    ensures label_and_connector { link_answer examples.label_and_connector ≡ None }
    ensures jump_to_nothing { link_answer examples.jump_to_nothing ≡ Some (rule.Labels, at 2) }
    ensures jump_to_a_label { link_answer examples.jump_to_a_label ≡ None }
{}

/// Which modifiers may stand, and what belongs to ladders. The rule that is tested first is told first.
pub fn examples_of_modifiers()
    ensures contact_negated_at_an_edge { link_answer examples.contact_negated_at_an_edge ≡ Some (rule.Modifiers, at 2) }
    ensures contact_at_an_edge { link_answer examples.contact_at_an_edge ≡ None }
    ensures contact_that_stores { link_answer examples.contact_that_stores ≡ Some (rule.Modifiers, at 2) }
    ensures coil_negated_and_set { link_answer examples.coil_negated_and_set ≡ Some (rule.Modifiers, at 2) }
    ensures coil_at_an_edge { link_answer examples.coil_at_an_edge ≡ None }
    ensures target_at_an_edge { link_answer examples.target_at_an_edge ≡ Some (rule.Modifiers, at 2) }
    ensures target_that_sets { link_answer examples.target_that_sets ≡ None }
    ensures value_at_an_edge { link_answer examples.value_at_an_edge ≡ Some (rule.Modifiers, at 1) }
    ensures value_negated { link_answer examples.value_negated ≡ None }
    ensures pin_that_stores { link_answer examples.pin_that_stores ≡ Some (rule.Modifiers, at 2) }
    ensures absent_enable_that_stores { link_answer examples.absent_enable_that_stores ≡ None }
    ensures in_out_negated { link_answer examples.in_out_negated ≡ Some (rule.Modifiers, at 2) }
    ensures in_out_of_a_negated_value { link_answer examples.in_out_of_a_negated_value ≡ Some (rule.Modifiers, at 2) }
    ensures in_out_of_a_value_at_an_edge { link_answer examples.in_out_of_a_value_at_an_edge ≡ Some (rule.Modifiers, at 1) }
    ensures in_out_before_a_value_at_an_edge { link_answer examples.in_out_before_a_value_at_an_edge ≡ Some (rule.Modifiers, at 2) }
    ensures contact_in_a_function_diagram { link_answer examples.contact_in_a_function_diagram ≡ Some (rule.Ladders, at 2) }
    ensures contact_in_a_ladder { link_answer examples.contact_in_a_ladder ≡ None }
    ensures rails_before_modifiers { link_answer examples.rails_before_modifiers ≡ Some (rule.Several, at 2) }
    ensures later_pou_first { link_answer examples.later_pou_first ≡ Some (rule.LocalIds, Element (codes "Next") 7) }
{}

/// The sources of each input pin, in the order of the pins. What leads to nothing has none.
pub fn examples_of_sources()
    ensures wired { links_of examples.wired ≡ examples.wired_sources }
    ensures wired_is_kept { link_answer examples.wired ≡ None }
    ensures loose { links_of examples.loose ≡ examples.loose_sources }
{}
