// Lines that are a coding, a summary, a decoding or a preview.
#![tactic(auto)]

use lines::answer::{Outcome, same_marked, same_refusal, same_three, same_two};

// encode CMD ROOM HEX ANSWER: the message of data under a command, to an output of ROOM bytes
pub fn encode(command: u64, data: &[u8], answer: &[u8], out: &mut [u8]) -> Outcome {
    let Ok(command) = u8::try_from(command) else {
        return Outcome::Bad;
    };
    match kiss::encode(command, data, out) {
        Ok((n, kind)) => same_marked(answer, u64::from(u8::from(kind)), out, n),
        Err(refusal) => same_refusal(answer, u8::from(refusal)),
    }
}

// summary CMD HEX ANSWER: what data under a command are
pub fn summary(command: u64, data: &[u8], answer: &[u8]) -> Outcome {
    let Ok(command) = u8::try_from(command) else {
        return Outcome::Bad;
    };
    match kiss::summary(command, data) {
        Ok(facts) => same_three(
            answer,
            u64::from(u8::from(facts.aprs_type)),
            facts.digis as u64,
            u64::from(facts.ui),
        ),
        Err(refusal) => same_refusal(answer, u8::from(refusal)),
    }
}

// decode ROOM HEX ANSWER: the data of a message, to an output of ROOM bytes
pub fn decode(message: &[u8], answer: &[u8], out: &mut [u8]) -> Outcome {
    match kiss::decode(message, false, out) {
        Ok((command, n)) => same_marked(answer, u64::from(command), out, n),
        Err(refusal) => same_refusal(answer, u8::from(refusal)),
    }
}

// preview CMD FIELD MASK HEX ANSWER: the price of data under a command before they are coded and sent with a field and a mask
pub fn preview(command: u64, size: u64, mask: u8, data: &[u8], answer: &[u8]) -> Outcome {
    let Ok(command) = u8::try_from(command) else {
        return Outcome::Bad;
    };
    match preview::preview(command, data, size as usize, mask) {
        Ok(price) => same_two(answer, price.length as u64, price.count as u64),
        Err(refusal) => same_refusal(answer, u8::from(refusal)),
    }
}
