//! The check of a run's times.

ghost use Rattle.std.specs.Prelude.{◌≡◌, is_ok, Decides};
ghost use Rattle.run.specs.Times.{times_checked, LawfulTimes};

use fault::PlanFault;

const LAST_MINUTE: u32 = 16_777_215;

/// Whether a run may have these times: both are minutes, and the end is after the start.
pub fn check_times(start: u32, end: u32) -> Result<(), PlanFault>
    ensures value { result ≡ times_checked start end }
    ensures lawful { Decides (is_ok result) (LawfulTimes start end) }
{
    if start > LAST_MINUTE || end > LAST_MINUTE {
        return Err(PlanFault::Minute);
    }
    if end <= start {
        return Err(PlanFault::EndNotAfterStart);
    }
    Ok(())
}
