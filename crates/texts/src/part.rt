// Parts of a text, as a byte parts them.
ghost use Rattle.std.specs.Prelude.{◌≡◌, ◌+◌, ◌≤◌, length, take, drop};
ghost use Rattle.texts.specs.Part.{before, behind, piece_of, without_cr};

// The first place from a start on that has a byte, or the end.
pub fn find(s: &[u8], from: usize, b: u8) -> usize
    requires { from ≤ length s.now }
    ensures { (from ≤ result) × (result ≤ length s.now) × (result ≡ from + length (before b (drop from s.now))) }
{
    for i in from..s.len() {
        if s[i] == b {
            return i;
        }
    }
    s.len()
}

// Where what stands after a byte starts, or the end.
pub fn next(s: &[u8], from: usize, b: u8) -> usize
    requires { from ≤ length s.now }
    ensures { (from ≤ result) × (result ≤ length s.now) × (drop result s.now ≡ behind b (drop from s.now)) }
{
    let e = find(s, from, b);
    if e < s.len() { e + 1 } else { e }
}

// A piece of what a byte parts, counted from 0; empty past the last.
pub fn piece(s: &[u8], k: usize, b: u8) -> &[u8]
    ensures { result.now ≡ piece_of b k s.now }
{
    let mut at = 0;
    for _ in 0..k {
        at = next(s, at, b);
    }
    &s[at..find(s, at, b)]
}

// What stands after the first b; nothing where there is none.
pub fn rest(s: &[u8], b: u8) -> &[u8]
    ensures { result.now ≡ behind b s.now }
{
    &s[next(s, 0, b)..]
}

// The first n bytes; all where there are fewer.
pub fn front(s: &[u8], n: usize) -> &[u8]
    ensures { result.now ≡ take n s.now }
{
    &s[..n.min(s.len())]
}

// A line without the CR at its end.
pub fn without_cr(s: &[u8]) -> &[u8]
    ensures { result.now ≡ without_cr s.now }
{
    match s {
        [line @ .., b'\r'] => line,
        _ => s,
    }
}
