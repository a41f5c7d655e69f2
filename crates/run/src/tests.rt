//! The edges: the last minute, the last vault, the last run number.

use crate::*;
use fault::PlanFault;

#[test]
fn times_at_the_last_minute(rt: HostRuntime) {
    assert_eq!(rt; check_times(16_777_214, 16_777_215), Ok(()));
    assert_eq!(rt; check_times(0, 16_777_216), Err(PlanFault::Minute));
    assert_eq!(rt; check_times(16_777_216, 0), Err(PlanFault::Minute));
    assert_eq!(rt; check_times(5, 5), Err(PlanFault::EndNotAfterStart));
}

#[test]
fn keys_of_the_last_run(rt: HostRuntime) {
    let run = Run {
        number: 1_024,
        from: 62,
        to: 63,
        start: 16_777_214,
        end: 16_777_215,
        fittings: 0,
    };
    let key = run.arrival_key();
    assert_eq!(rt; vault_of::<Stop>(key), 63);
    assert_eq!(rt; minute_of::<Stop>(key), 16_777_215);
    assert_eq!(rt; number_of(key), 1_024);
    let stops = Stretch::of_minutes::<Stop>(63, 16_777_215, 16_777_215);
    assert!(rt; stops.lo <= key && key < stops.hi);
    assert!(rt; !departs(run.arrival_event()));
    assert!(rt; departs(run.departure_event()));
    let events = Stretch::events_to(62, 16_777_213);
    assert!(rt; events.hi <= run.departure_event());
}
