// Lines that are a history of calls on one receiver, with states that are kept under names and returned to: document 02, E8.
ghost use Rattle.std.specs.Prelude.{◌≡◌, length};

use crate::{Step, call, refused, start};
use kept::{Keeping, Kept};
use lines::answer::{Outcome, same_count, same_refusal, same_word};
use lines::field::{field, fields, hex, pieces};
use receiver::Reassembler;
use refusals::Refusal;
use texts::part::piece;
use texts::space::zeros;

// The receiver that listens, and the states that are kept.
#[derive(Clone, Copy)]
struct Listener {
    receiver: Reassembler,
    kept: Kept,
}

// What comes of a step, and the listener that it leaves.
#[derive(Clone, Copy)]
struct Turn {
    outcome: Outcome,
    listener: Listener,
}

// channel MASK STEP STEP ..: a new receiver, nothing kept, and one step or more in order; a mask is refused as in a history.
pub fn channel(line: &[u8]) -> Outcome {
    match start(line) {
        None => Outcome::Bad,
        Some(Err(refusal)) => refused(line, refusal),
        Some(Ok(receiver)) => steps(line, receiver),
    }
}

// Makes every step of a line, up to the first whose answer is not the recorded one.
fn steps(line: &[u8], receiver: Reassembler) -> Outcome {
    let mut space: [u8; Reassembler::RX_BUFFER] = zeros();
    let mut lent: [u8; Kept::LENT] = zeros();
    let mut listener = Listener {
        receiver,
        kept: Kept::none(),
    };
    for i in 2..fields(line) {
        let turn = step(listener, &mut space, &mut lent, field(line, i));
        match turn.outcome {
            Outcome::Equal => listener = turn.listener,
            other => return other,
        }
    }
    Outcome::Equal
}

// One step: KIND:HEX=ANSWER, or a call of a history, which has no colon or two before the answer.
fn step(listener: Listener, space: &mut [u8], lent: &mut [u8], text: &[u8]) -> Turn {
    let what = piece(text, 0, b'=');
    if pieces(what, b':') != 2 {
        return called(listener, call(listener.receiver, space, text));
    }
    if pieces(text, b'=') != 2 {
        return bad(listener);
    }
    read(listener, space, lent, what, piece(text, 1, b'='))
}

// What came of a call of a history.
fn called(listener: Listener, step: Step) -> Turn {
    Turn {
        outcome: step.outcome,
        listener: Listener {
            receiver: step.receiver,
            ..listener
        },
    }
}

// A step that is not understood.
fn bad(listener: Listener) -> Turn {
    Turn {
        outcome: Outcome::Bad,
        listener,
    }
}

// Reads the bytes of a step and makes it.
fn read(listener: Listener, space: &mut [u8], lent: &mut [u8], what: &[u8], answer: &[u8]) -> Turn {
    let mut data = io::large_buffer();
    let Some(n) = hex(piece(what, 1, b':'), &mut data) else {
        return bad(listener);
    };
    let kind = piece(what, 0, b':');
    make(listener, space, lent, kind, &data[..n], answer)
}

// Makes a step: n has a mask, k, r and x have a name.
fn make(
    listener: Listener,
    space: &mut [u8],
    lent: &mut [u8],
    kind: &[u8],
    data: &[u8],
    answer: &[u8],
) -> Turn {
    match kind {
        b"n" => anew(listener, data, answer),
        b"k" => keep(listener, space, lent, data, answer),
        b"r" => return_to(listener, space, lent, data, answer),
        b"x" => drop_name(listener, lent, data, answer),
        _ => bad(listener),
    }
}

// n:MASK=ANSWER: a new receiver over the same store; where the mask is refused, the receiver stays.
fn anew(listener: Listener, mask: &[u8], answer: &[u8]) -> Turn {
    let [mask] = *mask else {
        return bad(listener);
    };
    replaced(listener, answer, Reassembler::with_crc_mask(mask))
}

// k:NAME=ANSWER: keeps the receiver and its store under a name.
fn keep(listener: Listener, space: &[u8], lent: &mut [u8], name: &[u8], answer: &[u8]) -> Turn {
    let receiver = listener.receiver;
    let keeping = listener.kept.keep(receiver, space, lent, name);
    told(receiver, answer, keeping)
}

// r:NAME=ANSWER: returns to the receiver that is kept under a name.
fn return_to(
    listener: Listener,
    space: &mut [u8],
    lent: &[u8],
    name: &[u8],
    answer: &[u8],
) -> Turn {
    let returned = listener.kept.return_to(space, lent, name);
    replaced(listener, answer, returned)
}

// x:NAME=ANSWER: drops a name.
fn drop_name(listener: Listener, lent: &[u8], name: &[u8], answer: &[u8]) -> Turn {
    let keeping = listener.kept.drop_name(lent, name);
    told(listener.receiver, answer, keeping)
}

// Another receiver listens; or the step is refused, and nothing changes.
fn replaced(listener: Listener, answer: &[u8], other: Result<Reassembler, Refusal>) -> Turn {
    match other {
        Ok(receiver) => Turn {
            outcome: same_word(answer, b"ok"),
            listener: Listener {
                receiver,
                ..listener
            },
        },
        Err(refusal) => Turn {
            outcome: same_refusal(answer, u8::from(refusal)),
            listener,
        },
    }
}

// What came of a name that was to be kept or dropped.
fn told(receiver: Reassembler, text: &[u8], keeping: Keeping) -> Turn {
    Turn {
        outcome: same_named(text, keeping),
        listener: Listener {
            receiver,
            kept: keeping.kept,
        },
    }
}

// We have the place of a name, or a refusal.
fn same_named(text: &[u8], keeping: Keeping) -> Outcome {
    if keeping.ok {
        same_count(text, keeping.place)
    } else {
        same_refusal(text, keeping.refusal)
    }
}
