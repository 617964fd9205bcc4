//! Sums and the greater of two numbers.
ghost use Rattle.std.specs.Prelude.{◌≡◌, ◌+◌, IfOk, max};

use plcx_types::NoMemory;

/// A sum. What is too large for one would not have fitted the memory.
pub(crate) fn sum(left: usize, right: usize) -> Result<usize, NoMemory>
    ensures { IfOk result (λ all. all ≡ left + right) }
{
    if right <= usize::MAX - left {
        Ok(left + right)
    } else {
        Err(NoMemory)
    }
}

/// The greater of two.
pub(crate) fn greater(left: usize, right: usize) -> usize
    ensures { result ≡ max left right }
{
    if left < right { right } else { left }
}
