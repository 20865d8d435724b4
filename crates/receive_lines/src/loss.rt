// What is said at the end: how many frames were offered, and what came of them.
ghost use Rattle.std.specs.Prelude.{◌+◌, ◌≤◌, length};
ghost use Rattle.laws.specs.Wrote.{Wrote};
ghost use Rattle.receive_lines.specs.Loss.{tally_text, answers_text, causes_text, losses_line};

use bits_write::copy;
use receiver::Tallies;
use texts::number::put_number;

// A label and a tally's number after it. The next place.
fn put_tally(out: &mut [u8], at: usize, label: &[u8], n: u64) -> usize
    requires { (at ≤ 400) × (length label.now ≤ 20) }
    ensures { Wrote out.old at (tally_text label.now n) out.new result × (result ≤ at + 40) }
{
    let p = copy(out, at, label);
    put_number(out, p, n)
}

// The tallies of offered frames, More and Done. The next place.
fn put_answers(out: &mut [u8], t: Tallies) -> usize
    ensures { Wrote out.old 0 (answers_text t) out.new result × (result ≤ 120) }
{
    let p = put_tally(out, 0, b"offered ", t.offered);
    let q = put_tally(out, p, b", more ", t.more);
    put_tally(out, q, b", done ", t.done)
}

// The tallies of what was dropped, by cause. The next place.
fn put_causes(out: &mut [u8], at: usize, t: Tallies) -> usize
    requires { at ≤ 120 }
    ensures { Wrote out.old at (causes_text t) out.new result }
{
    let p = put_tally(out, at, b", dropped: ", t.wrong_length);
    let q = put_tally(out, p, b" wrong length, ", t.no_fragment);
    let r = put_tally(out, q, b" no fragment, ", t.overflow);
    let s = put_tally(out, r, b" overflow, ", t.limit);
    let e = put_tally(out, s, b" limit, ", t.check);
    copy(out, e, b" check\n")
}

// The line of all tallies. Its length.
pub fn put_losses(out: &mut [u8], t: Tallies) -> usize
    ensures { Wrote out.old 0 (losses_line t) out.new result }
{
    let p = put_answers(out, t);
    put_causes(out, p, t)
}
