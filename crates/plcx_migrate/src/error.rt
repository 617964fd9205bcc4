//! Why there is no version, and why values are not carried over.
use plcx_types::NoMemory;

/// Why a project has no version.
#[derive(Clone, Copy, Debug, PartialEq, Eq)]
pub enum VersionError {
    /// There is no program of the name; or none is named, and there are so many.
    NoProgram { programs: u64 },
    NoMemory,
}

impl From<NoMemory> for VersionError {
    ghost use Rattle.std.specs.Prelude.{◌≡◌};
    ghost use Rattle.plcx_migrate.specs.declared.error.VersionError.TheVariants.{NoMemory};

    ghost from_gives = { λ _ e. e ≡ NoMemory };

    fn from(_: NoMemory) -> VersionError {
        VersionError::NoMemory
    }
}

/// Why values are not carried over. Lines count from 1; a file that is too long is refused at 0.
#[derive(Clone, Copy, Debug, PartialEq, Eq)]
pub enum MigrateError {
    /// The retained file can't be read.
    RetainedRead,
    Line { line: u64 },
    NoMemory,
}

impl From<NoMemory> for MigrateError {
    ghost use Rattle.std.specs.Prelude.{◌≡◌};
    ghost use Rattle.plcx_migrate.specs.declared.error.MigrateError.TheVariants.{NoMemory};

    ghost from_gives = { λ _ e. e ≡ NoMemory };

    fn from(_: NoMemory) -> MigrateError {
        MigrateError::NoMemory
    }
}
