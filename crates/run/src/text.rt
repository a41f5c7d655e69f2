//! The line in which a run is listed.

ghost use Rattle.std.specs.Prelude.{Some};
ghost use Rattle.run.specs.Text.{run_text};

use crate::Run;
use std::fmt;

impl fmt::Display for Run {
    ghost output = { λ r. Some (run_text r) };

    fn fmt<W: fmt::Write>(&self, f: &mut fmt::Formatter<W>) -> fmt::Result {
        let Run {
            number,
            from,
            to,
            start,
            end,
            fittings,
        } = *self;
        write!(f, "{number} {from} {start} {to} {end} fit {fittings}")
    }
}
