//! What holds of the definitions.
ghost use Rattle.std.specs.Prelude.{◌≡◌, ◌≢◌, ℕ, List, Option, Some, Result, Err};
ghost use Rattle.plcx_state.specs.Layouts.{Laid, IsLaid};
ghost use Rattle.plcx_migrate.specs.Migrations.{ComesTo};
ghost use Rattle.plcx_migrate.specs.declared.migrating.Form.{Form};
ghost use Rattle.plcx_migrate.specs.declared.error.MigrateError.{MigrateError};
ghost use Rattle.plcx_migrate.specs.declared.error.MigrateError.TheVariants.{NoMemory};

/// The values of a file that is told come to one thing in a new version, where nothing fails and there is memory.
#[tactic(auto, using(crate::proofs::OneMigration::one_migration))]
pub fn one_migration()
    ensures { (form : Form) (told : Option (List ℕ)) (held : List ℕ) → told ≡ Some held → (before after : Laid) → IsLaid before → IsLaid after
        → (x y : Result (List ℕ) MigrateError) → x ≢ Err NoMemory → y ≢ Err NoMemory
        → ComesTo form told ⊥ before.leaves after.leaves x → ComesTo form told ⊥ before.leaves after.leaves y → x ≡ y }
{}
