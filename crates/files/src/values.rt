// Document 01, "A submission file": a row's values, each whole and in the range of its kind.
ghost use Rattle.std.specs.Prelude.{◌≡◌, ◌+◌, ◌*◌, ◌≤◌, ◌<◌, ◌^◌, length};
ghost use Rattle.rulebook.specs.Judging.{up_to};
ghost use Rattle.files.specs.Values.{value_in};

use crate::fields::value_at;
use crate::positions::VALUE_BYTES;
use crate::sections::kind_of;
use rulebook::{Refusal, Section, Why};
use rules::ranges::in_range;

// A row's n values, of which `part` has the bytes: the file's stretch from `from` on, which a refusal names, cut where the file ends.
pub fn judge_values(part: &[u8], from: usize, section: Section, n: usize) -> Result<(), Refusal>
    requires { (length part.now ≤ 4 * n) × (from + length part.now < 2 ^ 63) }
    ensures { result ≡ up_to n (value_in section part.now from) }
{
    for (k, bytes) in part.chunks_exact(VALUE_BYTES).enumerate() {
        if !in_range(kind_of(section, k), value_at(bytes, 0)) {
            return Err(Refusal {
                why: Why::OutOfRange,
                at: from + VALUE_BYTES * k,
            });
        }
    }
    let whole = part.len() / VALUE_BYTES;
    if whole < n {
        return Err(Refusal {
            why: Why::NotWhole,
            at: from + VALUE_BYTES * whole,
        });
    }
    Ok(())
}
