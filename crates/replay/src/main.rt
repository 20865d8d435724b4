// Reads recorded calls from standard input, makes each again with our functions, and says where the answers differ.
// A line of the input is one call: its kind, what goes in, and last the recorded answer. A line that starts with # is a comment.
#![tactic(auto)]

mod answer;
mod kinds;

use kinds::{KINDS, Kind};
use lines::answer::Outcome;
use lines::tell::{is_comment, print_counts, print_place};
use texts::space::zeros;

// How many calls of a kind were equal, and how many differ.
#[derive(Clone, Copy)]
struct Counts {
    equal: u64,
    differ: u64,
}

// Replays the whole input, or says that it is longer than the room, so that no line is left out unsaid.
fn main() {
    // Not optimized, as `rt try` runs it too, the program makes copies of the room that overflow a stack of 8 MiB.
    let mut input: [u8; 4194304] = zeros();
    let n = io::read_full(0, &mut input);
    if n == input.len() && more() {
        io::write_all(1, b"input too long\n");
        return;
    }
    replay(&input[..n]);
}

// Whether standard input has another byte.
fn more() -> bool {
    let mut one = [0u8; 1];
    io::read_full(0, &mut one) == 1
}

// Replays every line, then writes the counts.
fn replay(s: &[u8]) {
    let mut counts = [Counts {
        equal: 0,
        differ: 0,
    }; KINDS];
    for (i, text) in s.split_inclusive(|b| *b == b'\n').enumerate() {
        line(without_end(text), i as u64 + 1, &mut counts);
    }
    report(&counts);
}

// A line without its end, which the last line may lack.
fn without_end(text: &[u8]) -> &[u8] {
    match text {
        [line @ .., b'\n'] => line,
        _ => text,
    }
}

// Replays a line and counts it under its kind, or says that it differs or is not understood. No input is long enough for a count to wrap.
fn line(s: &[u8], number: u64, counts: &mut [Counts; KINDS]) {
    if is_comment(s) {
        return;
    }
    let Some(kind) = kinds::kind_of(s) else {
        not_understood(number);
        return;
    };
    let count = &mut counts[kind as usize];
    match kinds::run(kind, s) {
        Outcome::Equal => count.equal = count.equal.wrapping_add(1),
        Outcome::Differ => {
            count.differ = count.differ.wrapping_add(1);
            print_place(number);
            io::write_all(1, kind.name());
            io::write_all(1, b" differs\n");
        }
        Outcome::Bad => not_understood(number),
    }
}

// Says that a line is not understood.
fn not_understood(number: u64) {
    print_place(number);
    io::write_all(1, b"not understood\n");
}

// Writes the counts, a line for each kind.
fn report(counts: &[Counts; KINDS]) {
    for (kind, count) in Kind::ALL.iter().zip(counts) {
        io::write_all(1, kind.name());
        print_counts(count.equal, count.differ);
    }
}
