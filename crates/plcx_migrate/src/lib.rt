//! Retained values of an old version of a program for a new one.
//!
//! `version` gives the layout of the program that a file is asked for. `migrate` reads the retained file of the old
//! version, and tells what becomes of its values in the new one: as retained lines, or as a report.
#![tactic(auto)]

mod error;
mod law;
mod laying;
mod migrating;

pub use error::{MigrateError, VersionError};
pub use law::one_migration;
pub use laying::version;
pub use migrating::{Form, migrate};
