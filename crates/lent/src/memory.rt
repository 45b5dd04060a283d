// What the registers in lent memory share.
ghost use Rattle.std.specs.Prelude.{◌≡◌};
ghost use Rattle.registers.specs.Fault.{first_cause, refusal};
ghost use Rattle.lent.specs.Lent.{size_fits, nearest_size, memory_causes};

use registers::{LEAST_FORMATS, MOST_FORMATS, RegisterFault};

// Whether a register can have so many formats.
pub fn size_fits(n: usize) -> bool
    ensures { result ≡ size_fits n }
{
    LEAST_FORMATS <= n && n <= MOST_FORMATS
}

// That a register can have so many formats and that its memory will do, or the first cause why not.
pub fn judge_memory(n: usize, memory_fits: bool) -> Result<(), RegisterFault>
    ensures { refusal result ≡ first_cause (memory_causes n memory_fits) }
{
    if !size_fits(n) {
        Err(RegisterFault::SizeUnfit)
    } else if !memory_fits {
        Err(RegisterFault::MemoryUnfit)
    } else {
        Ok(())
    }
}

// The size that comes nearest to the one asked for.
pub fn nearest_size(n: usize) -> usize
    ensures { result ≡ nearest_size n }
{
    n.clamp(LEAST_FORMATS, MOST_FORMATS)
}
