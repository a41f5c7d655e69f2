//! The lines in which a page is listed. Each has its own fields and words, and nothing else.

ghost use Rattle.std.specs.Prelude.{Some};
ghost use Rattle.page_format.specs.Text.{retime_text, edit_text, counts_text};

use crate::{Counts, Edit, Retime};
use std::fmt;

impl fmt::Display for Retime {
    ghost output = { λ t. Some (retime_text t) };

    fn fmt<W: fmt::Write>(&self, f: &mut fmt::Formatter<W>) -> fmt::Result {
        let Retime { run, start, end } = *self;
        write!(f, "{run} {start} {end}")
    }
}

impl fmt::Display for Edit {
    ghost output = { λ e. Some (edit_text e) };

    fn fmt<W: fmt::Write>(&self, f: &mut fmt::Formatter<W>) -> fmt::Result {
        match self {
            Edit::Add(run) => write!(f, "add {run}"),
            Edit::Cancel(run) => write!(f, "cancel {run}"),
            Edit::Retime(t) => write!(f, "retime {t}"),
        }
    }
}

impl fmt::Display for Counts {
    ghost output = { λ n. Some (counts_text n) };

    fn fmt<W: fmt::Write>(&self, f: &mut fmt::Formatter<W>) -> fmt::Result {
        let Counts { names, runs, edits } = *self;
        write!(f, "{names} names, {runs} runs, {edits} edits")
    }
}
