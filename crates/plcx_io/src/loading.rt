ghost use Rattle.std.specs.Prelude.{◌≡◌, ◌≤◌, ◌^◌, ℕ, List, vec_len, IfOk, IfErr};
ghost use Rattle.plcx_io.specs.Told.{Tells};
ghost use Rattle.plcx_io.specs.LoadFails.{LoadFails};

use crate::desk::Desk;
use std::alloc::Global;
use thiserror::Error;

/// Why a file was not loaded.
#[derive(Clone, Copy, Debug, PartialEq, Eq, Error)]
pub enum LoadError {
    #[error("the file cannot be read")]
    Read,
    #[error("the file is longer than {limit} bytes")]
    TooLong { limit: u64 },
    #[error("out of memory")]
    NoMemory,
}

const PIECE: usize = 65536;

/// The whole file.
pub fn load<D: Desk>(
    alloc: Global,
    desk: &mut D,
    name: &str,
    limit: u64,
) -> Result<Vec<u8>, LoadError>
    requires { limit ≤ 2 ^ 32 }
    ensures whole { IfOk result
        (λ bytes. (vec_len bytes ≤ limit) × Tells (D.file desk.old name.now) bytes.items) }
    ensures fails { let before = D.faults desk.old name.now in let now = D.faults desk.new name.now in
        IfErr result (LoadFails (D.file desk.old name.now) limit before now) }
    ensures files { (other : List ℕ) → D.file desk.new other ≡ D.file desk.old other }
    ensures later { (other : List ℕ) → D.faults desk.old other ≤ D.faults desk.new other }
{
    let mut bytes = Vec::new(alloc);
    let mut buf = [0u8; PIECE];
    let most = limit as usize;
    while bytes.len() <= most {
        let room = PIECE.min(most + 1 - bytes.len());
        let from = bytes.len() as u64;
        let count = match desk.read(name, from, &mut buf[..room]) {
            Ok(count) => count,
            Err(_) => return Err(LoadError::Read),
        };
        if count == 0 {
            return Ok(bytes);
        }
        if bytes.extend_from_slice(&buf[..count]).is_err() {
            return Err(LoadError::NoMemory);
        }
    }
    Err(LoadError::TooLong { limit })
}

#[cfg(test)]
mod tests {
    use super::*;
    use crate::memory_desk::{MemDesk, MemFile};
    use std::alloc::AllocError;
    use std::test::Fail;

    const LONG: usize = PIECE + 1000;

    /// A file in two pieces and a shorter one of the same name, with one failing call.
    fn desk(alloc: Global, failing: u64) -> Result<MemDesk, AllocError> {
        let long = vec![in alloc; 7; LONG]?;
        let short = vec![in alloc; 8; 3]?;
        let files = vec![in alloc;
            MemFile::new(String::from_str(alloc, "long")?, long),
            MemFile::new(String::from_str(alloc, "long")?, short),
        ]?;
        Ok(MemDesk::new(files, vec![in alloc; failing]?))
    }

    #[test]
    fn loads_the_first_file_of_the_name(rt: HostRuntime) -> Result<(), Fail> {
        let mut desk = desk(rt.alloc(), 0)?;
        let bytes = load(rt.alloc(), &mut desk, "long", LONG as u64)?;
        assert_eq!(rt; bytes.len(), LONG);
        assert!(rt; bytes.iter().all(|byte| *byte == 7));
        Ok(())
    }

    #[test]
    fn refuses_a_file_over_the_limit(rt: HostRuntime) -> Result<(), Fail> {
        let mut desk = desk(rt.alloc(), 0)?;
        let limit = LONG as u64 - 1;
        let loaded = load(rt.alloc(), &mut desk, "long", limit);
        assert!(rt; matches!(loaded, Err(LoadError::TooLong { limit: over }) if over == limit));
        Ok(())
    }

    #[test]
    fn fails_where_a_read_fails(rt: HostRuntime) -> Result<(), Fail> {
        for (failing, fails) in [(1, true), (2, true), (3, true), (4, false)] {
            let mut desk = desk(rt.alloc(), failing)?;
            let loaded = load(rt.alloc(), &mut desk, "long", LONG as u64);
            assert_eq!(rt;
                matches!(loaded, Err(LoadError::Read)),
                fails,
                "at {failing}"
            );
        }
        let mut desk = desk(rt.alloc(), 0)?;
        let absent = load(rt.alloc(), &mut desk, "absent", LONG as u64);
        assert!(rt; matches!(absent, Err(LoadError::Read)));
        Ok(())
    }
}
