//! Worked examples.
ghost use Rattle.std.specs.Prelude.{◌≡◌, [], ◌∷◌};
ghost use Rattle.plcx_conditions.specs.declared.broken.Condition.TheVariants.{Name, Types, Recursion, Literal};
ghost use Rattle.plcx_conditions.specs.Broken.{broken};
ghost use Rattle.plcx_conditions.specs.Declarations.{broken_in};
ghost use Rattle.plcx_conditions.specs.Examples as text;

/// What texts break, and where.
pub fn examples_of_conditions()
    ensures doubled_block { broken_in text.doubled_block ≡ broken Name 37 ∷ broken Name 76 ∷ [] }
    ensures name_of_a_timer { broken_in text.name_of_a_timer ≡ broken Name 15 ∷ [] }
    ensures program_as_a_type { broken_in text.program_as_a_type ≡ broken Name 18 ∷ [] }
    ensures doubled_variable { broken_in text.doubled_variable ≡ broken Name 24 ∷ [] }
    ensures instance_as_a_value { broken_in text.instance_as_a_value ≡ broken Types 46 ∷ [] }
    ensures no_instance { broken_in text.no_instance ≡ broken Name 37 ∷ broken Name 42 ∷ [] }
    ensures input_as_a_member { broken_in text.input_as_a_member ≡ broken Name 48 ∷ broken Name 59 ∷ [] }
    ensures unknown_type { broken_in text.unknown_type ≡ broken Name 18 ∷ [] }
    ensures unknown_argument { broken_in text.unknown_argument ≡ broken Name 43 ∷ broken Name 62 ∷ broken Types 58 ∷ [] }
    ensures operator_by_name { broken_in text.operator_by_name ≡ broken Name 36 ∷ [] }
    ensures brackets { broken_in text.brackets ≡ broken Types 49 ∷ broken Types 66 ∷ [] }
    ensures type_is_told_once { broken_in text.type_is_told_once ≡ broken Types 46 ∷ [] }
    ensures formal_twice { broken_in text.formal_twice ≡ broken Name 52 ∷ broken Name 62 ∷ broken Name 73 ∷ [] }
    ensures unknown_formal { broken_in text.unknown_formal ≡ broken Name 43 ∷ broken Name 51 ∷ broken Name 61 ∷ [] }
    ensures in_outs { broken_in text.in_outs ≡ broken Types 156 ∷ broken Types 167 ∷ broken Types 182 ∷ broken Types 193 ∷ broken Types 193 ∷ broken Types 197 ∷ [] }
    ensures unknown_in_an_in_out { broken_in text.unknown_in_an_in_out ≡ broken Name 109 ∷ broken Types 109 ∷ [] }
    ensures doubled_in_out { broken_in text.doubled_in_out ≡ broken Name 95 ∷ [] }
    ensures instance_as_an_input { broken_in text.instance_as_an_input ≡ broken Types 46 ∷ broken Types 89 ∷ [] }
    ensures initials { broken_in text.initials ≡ broken Types 25 ∷ broken Literal 45 ∷ broken Literal 66 ∷ broken Types 66 ∷ broken Types 87 ∷ [] }
    ensures standing_places { broken_in text.standing_places ≡ broken Types 20 ∷ broken Types 50 ∷ broken Types 104 ∷ broken Types 132 ∷ [] }
    ensures targets { broken_in text.targets ≡ broken Types 95 ∷ broken Types 107 ∷ broken Types 119 ∷ broken Types 124 ∷ broken Name 130 ∷ [] }
    ensures labels { broken_in text.labels ≡ broken Literal 48 ∷ broken Literal 52 ∷ [] }
    ensures block_in_itself { broken_in text.block_in_itself ≡ broken Recursion 23 ∷ broken Recursion 71 ∷ [] }
    ensures doubled_in_a_chain { broken_in text.doubled_in_a_chain ≡ broken Name 30 ∷ broken Recursion 30 ∷ [] }
{}
