// Runs of one case, in which one number grows.
use crate::draft::Draft;
use crate::telling::Outcome;

/// Runs of one case: what the whole run comes to, and what the last one came to, and how much of what the whole run says was said.
#[derive(Drop)]
pub struct Series {
    whole: Outcome,
    last: Option<(u8, &'static str)>,
}

// How much of what the whole run says was said.
fn part_of(said: &[u8], whole: &[u8]) -> &'static str {
    if said == whole {
        "all"
    } else if whole.starts_with(said) {
        "a beginning"
    } else {
        "something else"
    }
}

impl Series {
    /// No run yet, where this comes of the whole one.
    pub fn new(whole: Outcome) -> Series {
        Series { whole, last: None }
    }

    /// Whether the last run was as the whole one.
    pub fn is_whole(&self) -> bool {
        self.last == Some((self.whole.status, "all"))
    }

    /// Tells what came of two runs with this number, which are to come to the same.
    pub fn tell_both(&mut self, number: u64, one: &Outcome, other: &Outcome, out: &mut Draft) {
        self.tell(number, one, out);
        if one.status != other.status || one.said.bytes() != other.said.bytes() {
            out.put(b"    at ");
            out.put_number(number);
            out.put(b" two outcomes\n");
        }
    }

    /// Tells what came of the run with this number, unless it is what came of the one before.
    pub fn tell(&mut self, number: u64, outcome: &Outcome, out: &mut Draft) {
        let part = part_of(outcome.said.bytes(), self.whole.said.bytes());
        let end = Some((outcome.status, part));
        if self.last != end {
            self.last = end;
            out.put(b"    from ");
            out.put_number(number);
            out.put(b" on status ");
            out.put_number(u64::from(outcome.status));
            out.put(b" and ");
            out.put(part.as_bytes());
            out.put(b"\n");
        }
    }
}
