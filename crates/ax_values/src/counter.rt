//! The counter in front of the occurrences of counted and wide items.
ghost use Rattle.std.specs.Prelude.{◌≡◌, ◌+◌, ◌*◌, ◌<◌, ◌≤◌, length, IfOk, IfErr};
ghost use Rattle.ax_format.specs.Sizes.{longest_body};
ghost use Rattle.ax_format.specs.Widths.{counter_octets};
ghost use Rattle.ax_format.specs.declared.fault.BodyCause.TheVariants as Cause;
ghost use Rattle.ax_fspec.specs.Reading.{IsCount};

use ax_format::{BodyCause, BodyFault, Counter};
use ax_fspec::count_at;

/// How many occurrences the counter says that begins at octet `at` of the body. RunsOut at its first bit where it isn't
/// there whole.
#[inline]
pub fn counter_at(body: &[u8], at: u32, size: Counter) -> Result<u32, BodyFault>
    requires body { length body.now ≤ longest_body }
    requires at { at ≤ length body.now }
    ensures count { IfOk result (IsCount size body.now at) }
    ensures short { IfErr result (λ fault. length body.now < at + counter_octets size) }
    ensures fault { IfErr result (λ fault. fault ≡ record { cause = Cause.RunsOut; bit = 8 * at }) }
{
    match count_at(body, at, size) {
        Some(count) => Ok(count),
        None => Err(BodyFault {
            cause: BodyCause::RunsOut,
            bit: 8 * at,
        }),
    }
}
