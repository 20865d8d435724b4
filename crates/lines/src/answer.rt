// A recorded answer, a field or a piece of one, against ours.
use crate::field::{hex, numeral, pieces};
use texts::part::piece;

// What comes of a line: the answers are equal, they differ, or the line is not understood.
#[derive(Clone, Copy, Debug, PartialEq, Eq)]
pub enum Outcome {
    Equal,
    Differ,
    Bad,
}

fn verdict(equal: bool) -> Outcome {
    if equal {
        Outcome::Equal
    } else {
        Outcome::Differ
    }
}

// We have a word with no value after it.
pub fn same_word(text: &[u8], word: &[u8]) -> Outcome {
    verdict(text == word)
}

// Whether the recorded call gave no answer.
fn is_none(text: &[u8]) -> bool {
    text == b"none".as_slice()
}

// We have a number.
pub fn same_number(text: &[u8], v: u64) -> Outcome {
    if is_none(text) {
        return Outcome::Differ;
    }
    match numeral(text) {
        Some(w) => verdict(v == w),
        None => Outcome::Bad,
    }
}

// We have no answer, where it would be a number.
pub fn no_number(text: &[u8]) -> Outcome {
    if is_none(text) {
        return Outcome::Equal;
    }
    match numeral(text) {
        Some(_) => Outcome::Differ,
        None => Outcome::Bad,
    }
}

// We have bytes.
// Never inlined: written out after a test, its room on the stack would be made where LLVM still holds a value in the register that it needs for that.
#[inline(never)]
pub fn same_bytes(text: &[u8], ours: &[u8]) -> Outcome {
    if is_none(text) {
        return Outcome::Differ;
    }
    let mut space = io::large_buffer();
    match hex(text, &mut space) {
        Some(n) => verdict(&space[..n] == ours),
        None => Outcome::Bad,
    }
}

// We have the first n bytes of `out`. More than there is room for can't be compared.
pub fn same_first(text: &[u8], out: &[u8], n: usize) -> Outcome {
    match out.get(..n) {
        Some(ours) => same_bytes(text, ours),
        None => Outcome::Bad,
    }
}

// We have no answer, where it would be bytes.
// Never inlined, as `same_bytes`.
#[inline(never)]
pub fn no_bytes(text: &[u8]) -> Outcome {
    if is_none(text) {
        return Outcome::Equal;
    }
    let mut space = io::large_buffer();
    match hex(text, &mut space) {
        Some(_) => Outcome::Differ,
        None => Outcome::Bad,
    }
}

// Whether an answer is this word, alone or with a value after a colon.
fn is_word(text: &[u8], word: &[u8]) -> bool {
    piece(text, 0, b':') == word
}

// Whether an answer has so many pieces, with a colon between each two.
fn has(text: &[u8], n: usize) -> bool {
    pieces(text, b':') == n
}

// Whether the recorded call was refused.
pub fn is_refusal(text: &[u8]) -> bool {
    is_word(text, b"refused")
}

// We have a refusal.
pub fn same_refusal(text: &[u8], n: u8) -> Outcome {
    if !is_refusal(text) {
        return Outcome::Differ;
    }
    if !has(text, 2) {
        return Outcome::Bad;
    }
    same_number(piece(text, 1, b':'), u64::from(n))
}

// We have a count, where it could be a refusal.
pub fn same_count(text: &[u8], n: usize) -> Outcome {
    if is_refusal(text) {
        return Outcome::Differ;
    }
    same_number(text, n as u64)
}

// We have the first n bytes of `out`, where it could be a refusal.
pub fn same_written(text: &[u8], out: &[u8], n: usize) -> Outcome {
    if is_refusal(text) {
        return Outcome::Differ;
    }
    same_first(text, out, n)
}

// We have a message, the first n bytes of a store.
pub fn same_done(text: &[u8], store: &[u8], n: usize) -> Outcome {
    if !is_word(text, b"done") {
        return Outcome::Differ;
    }
    if !has(text, 2) {
        return Outcome::Bad;
    }
    same_first(piece(text, 1, b':'), store, n)
}

// What comes of two parts of an answer.
fn both(a: Outcome, b: Outcome) -> Outcome {
    match (a, b) {
        (Outcome::Bad, _) | (_, Outcome::Bad) => Outcome::Bad,
        (Outcome::Equal, Outcome::Equal) => Outcome::Equal,
        _ => Outcome::Differ,
    }
}

// We have a number and the first n bytes of `out`, where it could be a refusal.
pub fn same_marked(text: &[u8], v: u64, out: &[u8], n: usize) -> Outcome {
    if is_refusal(text) {
        return Outcome::Differ;
    }
    if !has(text, 2) {
        return Outcome::Bad;
    }
    let first = same_number(piece(text, 0, b':'), v);
    both(first, same_first(piece(text, 1, b':'), out, n))
}

// We have two numbers, where it could be a refusal.
pub fn same_two(text: &[u8], u: u64, v: u64) -> Outcome {
    if is_refusal(text) {
        return Outcome::Differ;
    }
    if !has(text, 2) {
        return Outcome::Bad;
    }
    let first = same_number(piece(text, 0, b':'), u);
    both(first, same_number(piece(text, 1, b':'), v))
}

// We have three numbers, where it could be a refusal.
pub fn same_three(text: &[u8], u: u64, v: u64, w: u64) -> Outcome {
    if is_refusal(text) {
        return Outcome::Differ;
    }
    if !has(text, 3) {
        return Outcome::Bad;
    }
    let first = same_number(piece(text, 0, b':'), u);
    let second = same_number(piece(text, 1, b':'), v);
    let third = same_number(piece(text, 2, b':'), w);
    both(first, both(second, third))
}
