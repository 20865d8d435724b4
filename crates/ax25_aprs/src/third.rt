// The fields of a third-party body: `collect` of the source.
ghost use Rattle.std.specs.Prelude.{◌≡◌};
ghost use Rattle.ax25_aprs.specs.Put.{field_in, Within};
ghost use Rattle.ax25_aprs.specs.Third.{collect_of};

// Where a field's text ends, and where to go on: after the stop byte, or at the field again, which is place 0, where none was found.
// So the callers go on at &d[next..] both ways, with no test.
#[derive(Clone, Copy, Debug, PartialEq, Eq)]
pub struct Span {
    pub end: usize,
    pub next: usize,
}

// The field at the front of d, up to a stop byte among its first k bytes, or else all of these; k is the source's span + 1. None where
// the frame ends before the field does.
pub fn collect(d: &[u8], stop: u8, k: usize) -> Option<Span>
    ensures result_value { field_in d.now result ≡ collect_of stop k d.now }
    ensures within { Within k d.now result }
{
    // a loop whose break carries text end and next place is the form that document 01 names for this scan
    let mut j = 0;
    let span = loop {
        if k <= j {
            break Span { end: j, next: 0 };
        }
        if d.len() <= j {
            return None;
        }
        if d[j] == stop {
            break Span {
                end: j,
                next: j + 1,
            };
        }
        j += 1;
    };
    Some(span)
}
