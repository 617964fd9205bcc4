//! The first rule that a project breaks and where, or none.
ghost use Rattle.std.specs.Prelude.{Some, None};
ghost use Rattle.plcx_types.specs.declared.ty.Ty.TheVariants as ty;
ghost use Rattle.plcx_rules.specs.CheckVerdict.{CheckVerdict, broken_at};
ghost use Rattle.plcx_rules.specs.Pieces.{at};
ghost use Rattle.plcx_rules_rows.specs.TypingExamples as examples;

/// What gives a group, a connector or a continuation a type. Untyped literals give none, but at a pin that has a type of
/// its own, where one is a DINT.
pub fn examples_of_types()
    ensures literals_alone { CheckVerdict examples.literals_alone (Some (broken_at 34 (at 2))) }
    ensures literal_beside_a_variable { CheckVerdict examples.literal_beside_a_variable None }
    ensures literal_beside_a_typed_one { CheckVerdict examples.literal_beside_a_typed_one None }
    ensures its_own_result_alone { CheckVerdict examples.its_own_result_alone (Some (broken_at 34 (at 2))) }
    ensures its_own_result_and_a_variable { CheckVerdict examples.its_own_result_and_a_variable None }
    ensures connector_of_a_literal { CheckVerdict examples.connector_of_a_literal (Some (broken_at 34 (at 2))) }
    ensures connector_of_a_variable { CheckVerdict examples.connector_of_a_variable None }
    ensures no_type_told_first { CheckVerdict examples.no_type_told_first (Some (broken_at 34 (at 4))) }
    ensures shifted { examples.HasOnly examples.shifted_sheet 0 ty.Word }
    ensures by_a_literal { examples.HasOnly examples.shifted_sheet 1 ty.Dint }
{}

/// Where types disagree, and which are not allowed.
pub fn examples_of_disagreements()
    ensures another_type { CheckVerdict examples.another_type (Some (broken_at 35 (at 2))) }
    ensures the_same_type { CheckVerdict examples.the_same_type None }
    ensures two_types_in_a_group { CheckVerdict examples.two_types_in_a_group (Some (broken_at 35 (at 3))) }
    ensures one_type_in_a_group { CheckVerdict examples.one_type_in_a_group None }
    ensures two_types_behind_their_consumer { CheckVerdict examples.two_types_behind_their_consumer (Some (broken_at 35 (at 4))) }
    ensures sum_of_booleans { CheckVerdict examples.sum_of_booleans (Some (broken_at 35 (at 3))) }
    ensures sum_of_times { CheckVerdict examples.sum_of_times None }
    ensures shifted_by_a_boolean { CheckVerdict examples.shifted_by_a_boolean (Some (broken_at 35 (at 3))) }
    ensures shifted_by_a_number { CheckVerdict examples.shifted_by_a_number None }
    ensures literal_as_a_time { CheckVerdict examples.literal_as_a_time (Some (broken_at 35 (at 2))) }
    ensures time_as_a_time { CheckVerdict examples.time_as_a_time None }
{}

/// What has to be BOOL: what is negated, what several connections give, and what a contact shows.
pub fn examples_of_negations()
    ensures number_at_a_negated_pin { CheckVerdict examples.number_at_a_negated_pin (Some (broken_at 35 (at 2))) }
    ensures boolean_at_a_negated_pin { CheckVerdict examples.boolean_at_a_negated_pin None }
    ensures number_negated { CheckVerdict examples.number_negated (Some (broken_at 35 (at 1))) }
    ensures boolean_negated { CheckVerdict examples.boolean_negated None }
    ensures literal_negated { CheckVerdict examples.literal_negated (Some (broken_at 35 (at 1))) }
    ensures literal_negated_as_a_boolean { CheckVerdict examples.literal_negated_as_a_boolean None }
    ensures two_numbers_at_a_pin { CheckVerdict examples.two_numbers_at_a_pin (Some (broken_at 35 (at 2))) }
    ensures two_booleans_at_a_pin { CheckVerdict examples.two_booleans_at_a_pin None }
    ensures contact_of_a_number { CheckVerdict examples.contact_of_a_number (Some (broken_at 35 (at 2))) }
    ensures contact_of_a_boolean { CheckVerdict examples.contact_of_a_boolean None }
{}

/// Which untyped literals are out of range. The literal is named, and not who takes it.
pub fn examples_of_ranges()
    ensures literal_out_of_range { CheckVerdict examples.literal_out_of_range (Some (broken_at 36 (at 1))) }
    ensures literal_in_range { CheckVerdict examples.literal_in_range None }
    ensures literal_in_one_range_of_two { CheckVerdict examples.literal_in_one_range_of_two (Some (broken_at 36 (at 1))) }
    ensures literal_out_of_range_of_a_group { CheckVerdict examples.literal_out_of_range_of_a_group (Some (broken_at 36 (at 2))) }
    ensures literal_in_range_of_a_group { CheckVerdict examples.literal_in_range_of_a_group None }
    ensures shifted_by_a_literal { CheckVerdict examples.shifted_by_a_literal None }
    ensures shifted_by_a_large_literal { CheckVerdict examples.shifted_by_a_large_literal (Some (broken_at 36 (at 2))) }
{}
