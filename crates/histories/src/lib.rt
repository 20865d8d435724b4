// Lines that are a history of calls on one receiver.
#![tactic(auto)]

pub mod channel;

ghost use Rattle.std.specs.Prelude.{◌≡◌, length};

use lines::answer::{Outcome, same_done, same_refusal, same_word};
use lines::field::{all_hex, call_of, field, fields, pieces};
use receiver::{Push, Pushed, Reassembler};
use refusals::Refusal;
use texts::part::piece;
use texts::space::zeros;

// What comes of a call, and the receiver that it leaves.
#[derive(Clone, Copy)]
struct Step {
    outcome: Outcome,
    receiver: Reassembler,
}

// Makes the receiver of a line KIND MASK CALL CALL .., which has one call or more, or refuses its mask. None where the line is not understood.
fn start(line: &[u8]) -> Option<Result<Reassembler, Refusal>> {
    if fields(line) < 3 {
        return None;
    }
    let mut mask = [0; 1];
    if !all_hex(field(line, 1), &mut mask) {
        return None;
    }
    Some(Reassembler::with_crc_mask(mask[0]))
}

// history MASK CALL CALL ..: a new receiver, and one call or more in order; where the mask is refused, the refusal stands for them
pub fn history(line: &[u8]) -> Outcome {
    match start(line) {
        None => Outcome::Bad,
        Some(Err(refusal)) => refused(line, refusal),
        Some(Ok(receiver)) => calls(line, receiver),
    }
}

// The mask is refused, and nothing stands after the refusal.
fn refused(line: &[u8], refusal: Refusal) -> Outcome {
    if fields(line) != 3 {
        return Outcome::Bad;
    }
    same_refusal(field(line, 2), u8::from(refusal))
}

// Makes every call of a line, up to the first whose answer is not the recorded one.
fn calls(line: &[u8], mut receiver: Reassembler) -> Outcome {
    let mut space: [u8; Reassembler::RX_BUFFER] = zeros();
    for i in 2..fields(line) {
        let step = call(receiver, &mut space, field(line, i));
        match step.outcome {
            Outcome::Equal => receiver = step.receiver,
            other => return other,
        }
    }
    Outcome::Equal
}

// One call: r is a reset, p:FIELD:HEX=ANSWER a push, j:N:HEX=ANSWER a join.
fn call(receiver: Reassembler, space: &mut [u8], text: &[u8]) -> Step {
    if text == b"r".as_slice() {
        return Step {
            outcome: Outcome::Equal,
            receiver: receiver.reset(),
        };
    }
    if pieces(text, b'=') != 2 {
        return bad(receiver);
    }
    hear(receiver, space, piece(text, 0, b'='), piece(text, 1, b'='))
}

// Reads a push or a join and makes it.
fn hear(receiver: Reassembler, space: &mut [u8], what: &[u8], answer: &[u8]) -> Step {
    let mut data = io::large_buffer();
    let Some(call) = call_of(what, &mut data) else {
        return bad(receiver);
    };
    let kind = piece(what, 0, b':');
    let data = &data[..call.size];
    take_in(receiver, space, kind, data, call.n as usize, answer)
}

// Makes a push or a join.
fn take_in(
    receiver: Reassembler,
    space: &mut [u8],
    kind: &[u8],
    data: &[u8],
    n: usize,
    answer: &[u8],
) -> Step {
    let pushed = match kind {
        b"p" => receiver.push(space, data, n),
        b"j" => receiver.join(space, data, n),
        _ => return bad(receiver),
    };
    told(answer, space, pushed)
}

// A call that is not understood.
fn bad(receiver: Reassembler) -> Step {
    Step {
        outcome: Outcome::Bad,
        receiver,
    }
}

// What came of a push or a join.
fn told(text: &[u8], space: &[u8], pushed: Pushed) -> Step {
    Step {
        outcome: same_heard(text, space, pushed.answer),
        receiver: pushed.receiver,
    }
}

// We have what a receiver answers, with a message first in its store.
fn same_heard(text: &[u8], store: &[u8], ours: Result<Push, Refusal>) -> Outcome {
    match ours {
        Err(refusal) => same_refusal(text, u8::from(refusal)),
        Ok(Push::Dropped(_)) => same_word(text, b"dropped"),
        Ok(Push::More) => same_word(text, b"more"),
        Ok(Push::Done(n)) => same_done(text, store, n),
    }
}
