// What our functions answer, against the field that has the recorded answer.
use lines::answer::{
    Outcome, no_bytes, no_number, same_count, same_first, same_number, same_refusal, same_written,
};
use refusals::Refusal;

// We have a number and the place after it, or no answer.
pub fn same_taken(text: &[u8], ours: Option<(u64, usize)>) -> Outcome {
    match ours {
        Some((v, _)) => same_number(text, v),
        None => no_number(text),
    }
}

// We have the bytes of `out` before a place, or no answer.
pub fn same_got(text: &[u8], out: &[u8], ours: Option<usize>) -> Outcome {
    match ours {
        Some(n) => same_first(text, out, n),
        None => no_bytes(text),
    }
}

// We have a refusal or a count.
pub fn same_counted(text: &[u8], ours: Result<usize, Refusal>) -> Outcome {
    match ours {
        Ok(n) => same_count(text, n),
        Err(refusal) => same_refusal(text, u8::from(refusal)),
    }
}

// We have a refusal or the first bytes of `out`.
pub fn same_answer(text: &[u8], out: &[u8], ours: Result<usize, Refusal>) -> Outcome {
    match ours {
        Ok(n) => same_written(text, out, n),
        Err(refusal) => same_refusal(text, u8::from(refusal)),
    }
}
