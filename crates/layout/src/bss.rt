// The bss section: zeros that are reserved and not stored.
ghost use Rattle.layout.specs.Code.Numbers.{numbered};
ghost use Rattle.std.specs.Prelude.{◌≡◌, ◌≤◌};
ghost use Rattle.numbers.specs.Numbers.{imm_of};
ghost use Rattle.layout.specs.Limits.{bss_limit};
ghost use Rattle.layout.specs.Directives.{reservation};
ghost use Rattle.layout.specs.Stage.{grow_bss, bss_line};

use crate::directives::{Reserve, place_after, reservation_of};
use crate::limits::BSS_LIMIT;
use crate::refusal::Refusal;

// The bss is so large from here on.
fn grow_bss(size: usize) -> Result<usize, Refusal>
    ensures { numbered result ≡ grow_bss size }
{
    if BSS_LIMIT < size {
        return Err(Refusal::BssFull);
    }
    Ok(size)
}

// A directive of a bss of so many bytes, and what follows its name.
pub fn bss_line(bss: usize, what: Reserve, s: &[u8]) -> Result<usize, Refusal>
    requires { bss ≤ bss_limit }
    ensures { numbered result ≡ bss_line (reservation what (imm_of s.now)) bss }
{
    grow_bss(place_after(bss, reservation_of(what, s)?))
}
