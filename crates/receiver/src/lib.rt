// The receiver: joins the fragments of a message in a lent store of 5,000 bytes.
#![tactic(auto)]

ghost use Rattle.std.specs.Prelude.{◌≡◌, true, false, List, [], ℕ, ◌≤◌, ◌<◌, length};
ghost use Rattle.refusals.specs.Limits.{field_ok};
ghost use Rattle.refusals.specs.Outcome.{number, outcome_of};
ghost use Rattle.receiver.specs.Join.{told_of, turned_away, joined_after, reset_of, headed, finish_of, grow_of, accept_of, code_of, refusal_of, join_of};
ghost use Rattle.receiver.specs.New.{new_of};
ghost use Rattle.receiver.specs.Push.{fragment_length, push_of};
ghost use Rattle.receiver.specs.Stored.{receiver_of, stored_of};
ghost use Rattle.receiver.specs.Tally.{is_full, tallied, after, counted, join_tallied, push_tallied, reset_tallied};

use frame::TERMINATOR;
use refusals::Refusal;

// What is known of the message that is being heard. Its bytes are the first `held` of the store.
#[derive(Clone, Copy)]
pub struct Joiner {
    // bytes held
    pub held: usize,
    // fragments
    pub nfrag: usize,
    // the check byte
    pub count: u8,
    pub crc_mask: u8,
    pub overflow: bool,
}

// Why a fragment is dropped.
#[derive(Clone, Copy, Debug, PartialEq, Eq)]
pub enum Cause {
    WrongLength,
    NoFragment,
    Overflow,
    Limit,
    Check,
}

// What a push or a join answers that is not refused: Dropped with its cause, More, or Done with the length of the message in the store.
#[derive(Clone, Copy, Debug, PartialEq, Eq)]
pub enum Push {
    Dropped(Cause),
    More,
    Done(usize),
}

// How many frames and fragments were offered and not refused, and how many of them had each answer.
#[repr(C)]
#[derive(Clone, Copy)]
pub struct Tallies {
    pub offered: u64,
    pub more: u64,
    pub done: u64,
    // Dropped, by cause
    pub wrong_length: u64,
    pub no_fragment: u64,
    pub overflow: u64,
    pub limit: u64,
    pub check: u64,
}

// The receiver: what is known of the message that is being heard, and the tallies.
#[derive(Clone, Copy)]
pub struct Reassembler {
    pub state: Joiner,
    pub tallies: Tallies,
}

// The receiver in numbers alone, as it is kept and as it crosses to C. Any byte but 0 is overflow.
#[repr(C)]
#[derive(Clone, Copy)]
pub struct Stored {
    pub held: usize,
    pub nfrag: usize,
    pub count: u8,
    pub crc_mask: u8,
    pub overflow: u8,
    pub tallies: Tallies,
}

// An answer with what is then known of the message.
#[derive(Clone, Copy)]
pub struct Joined {
    pub answer: Push,
    pub state: Joiner,
}

// An answer or a refusal, with the receiver as the call leaves it.
#[derive(Clone, Copy)]
pub struct Pushed {
    pub answer: Result<Push, Refusal>,
    pub receiver: Reassembler,
}

// The first byte is held, where nothing was.
fn head(store: &mut [u8], held: usize, first: u8)
    requires { 0 < length store.old }
    ensures { store.new ≡ headed held store.old first }
{
    if held == 0 {
        store[0] = first;
    }
}

// The length of the fragment in a frame: the field where it is full, else the place of the last 14.
fn fragment_length(f: &[u8], field: usize) -> usize
    requires { field < length f.now }
    ensures { result ≡ fragment_length f.now field }
{
    if f[field] % 2 == 1 {
        return field;
    }
    for i in (0..field).rev() {
        if f[i] == TERMINATOR {
            return i;
        }
    }
    0
}

impl Joiner {
    // Nothing held, fragments 0, no overflow. Check byte and mask are kept.
    fn reset(self) -> Joiner
        ensures { result ≡ reset_of self }
    {
        Joiner {
            held: 0,
            nfrag: 0,
            overflow: false,
            ..self
        }
    }

    // The last fragment is in: its first byte goes to the front, and several fragments are checked.
    fn finish(self, store: &mut [u8], first: u8) -> Joined
        requires { (0 < self.held) × (self.held ≤ length store.old) }
        ensures { joined_after result store.new ≡ finish_of self store.old first }
    {
        let state = Joiner { held: 0, ..self };
        store[0] = first;
        if self.nfrag < 2
            || crc::crc_bits(&store[..self.held], self.crc_mask) == (self.count & self.crc_mask)
        {
            return Joined {
                answer: Push::Done(self.held),
                state,
            };
        }
        Joined {
            answer: Push::Dropped(Cause::Check),
            state,
        }
    }

    // A fragment's tail goes after what is held, if there is room. The bounds of state and store stand here and at `accept` and are no type with an
    // invariant: any `Joiner` may be handed in, and of a struct of state and store each function would have to take the store out before it writes
    // to it, and each contract would say `self.entry.store.now` and `self.exit.1.0.now` in place of `store.old` and `store.new`.
    fn grow(self, store: &mut [u8], first: u8, tail: &[u8]) -> Joined
        requires { (length store.old ≡ 5000) × ((self.held ≤ 5000) × (self.nfrag ≤ 255)) }
        ensures { joined_after result store.new ≡ grow_of self store.old first tail.now }
    {
        // after what is held, or after the first byte
        let base = self.held.max(1);
        if Reassembler::RX_MAX_FRAGMENTS <= self.nfrag
            || Reassembler::RX_BUFFER - base < tail.len()
        {
            let state = Joiner {
                overflow: 0x80 <= first,
                ..self.reset()
            };
            return Joined {
                answer: Push::Dropped(Cause::Limit),
                state,
            };
        }
        head(store, self.held, first);
        let end = base + tail.len();
        store[base..end].copy_from_slice(tail);
        let next = Joiner {
            held: end,
            nfrag: self.nfrag + 1,
            overflow: false,
            ..self
        };
        if 0x80 <= first {
            return Joined {
                answer: Push::More,
                state: next,
            };
        }
        next.finish(store, first)
    }

    // A fragment that is not empty: the n first bytes of f.
    fn accept(self, store: &mut [u8], f: &[u8], n: usize) -> Joined
        requires store_len { (length store.old ≡ 5000) × ((self.held ≤ 5000) × (self.nfrag ≤ 255)) }
        requires n_nonzero { (0 < n) × (n ≤ length f.now) }
        ensures { joined_after result store.new ≡ accept_of self store.old f.now n }
    {
        let first = f[0];
        if self.overflow {
            return Joined {
                answer: Push::Dropped(Cause::Overflow),
                state: Joiner {
                    overflow: 0x80 <= first,
                    ..self
                },
            };
        }
        if self.held != 0 {
            return self.grow(store, first, &f[1..n]);
        }
        let begun = self.reset();
        if first < 0x80 {
            return begun.grow(store, first, &f[1..n]);
        }
        if f.len() < 2 {
            return Joined {
                answer: Push::Dropped(Cause::NoFragment),
                state: self,
            };
        }
        let checked = Joiner {
            count: f[1],
            ..begun
        };
        checked.grow(store, first, &f[2..n.max(2)])
    }

    // The refusal that comes before any other: State, or Mask.
    pub fn refusal(self, len: usize) -> Option<Refusal>
        ensures { code_of result ≡ refusal_of self len }
    {
        if len != Reassembler::RX_BUFFER
            || Reassembler::RX_BUFFER < self.held
            || Reassembler::RX_MAX_FRAGMENTS < self.nfrag
        {
            return Some(Refusal::State);
        }
        if refusals::mask_ok(self.crc_mask) {
            return None;
        }
        Some(Refusal::Mask)
    }

    // A fragment, where the state is not refused: the n first bytes of f.
    fn joined(self, store: &mut [u8], f: &[u8], n: usize) -> Joined
        requires { refusal_of self (length store.old) ≡ 0 }
        ensures { joined_after result store.new ≡ join_of self store.old f.now n }
    {
        if n == 0 || f.len() < n {
            return Joined {
                answer: Push::Dropped(Cause::NoFragment),
                state: self,
            };
        }
        self.accept(store, f, n)
    }

    // A frame, where the state and the field are not refused.
    fn pushed(self, store: &mut [u8], f: &[u8], field: usize) -> Joined
        requires { (refusal_of self (length store.old) ≡ 0) × (field_ok field ≡ true) }
        ensures { joined_after result store.new ≡ push_of self store.old f.now field }
    {
        if f.len() != field + 3 {
            return Joined {
                answer: Push::Dropped(Cause::WrongLength),
                state: self,
            };
        }
        let n = fragment_length(f, field);
        self.joined(store, f, n)
    }
}

impl Tallies {
    // All are 0.
    pub const NONE: Tallies = Tallies {
        offered: 0,
        more: 0,
        done: 0,
        wrong_length: 0,
        no_fragment: 0,
        overflow: 0,
        limit: 0,
        check: 0,
    };

    // A tally is already the largest 64-bit number. Where one is, so are all bits of the eight together: that is tested first.
    fn full(self) -> bool
        ensures { result ≡ is_full self }
    {
        let first = self.offered | self.more | self.done | self.wrong_length;
        let last = self.no_fragment | self.overflow | self.limit | self.check;
        if (first | last) < u64::MAX {
            return false;
        }
        [
            self.offered,
            self.more,
            self.done,
            self.wrong_length,
            self.no_fragment,
            self.overflow,
            self.limit,
            self.check,
        ]
        .contains(&u64::MAX)
    }

    // One more is answered.
    #[tactic(auto, using(crate::proofs::TallyLaws::room))]
    fn count(mut self, answer: Push) -> Tallies
        requires { is_full self ≡ false }
        ensures { result ≡ tallied (told_of answer []) self }
    {
        self.offered += 1;
        match answer {
            Push::Dropped(Cause::WrongLength) => self.wrong_length += 1,
            Push::Dropped(Cause::NoFragment) => self.no_fragment += 1,
            Push::Dropped(Cause::Overflow) => self.overflow += 1,
            Push::Dropped(Cause::Limit) => self.limit += 1,
            Push::Dropped(Cause::Check) => self.check += 1,
            Push::More => self.more += 1,
            Push::Done(_) => self.done += 1,
        }
        self
    }

    // What a call answers, counted.
    fn counted(self, joined: Joined) -> Pushed
        requires { is_full self ≡ false }
        ensures { (store : List ℕ) → after result store ≡ counted self (joined_after joined store) }
    {
        Pushed {
            answer: Ok(joined.answer),
            receiver: Reassembler {
                state: joined.state,
                tallies: self.count(joined.answer),
            },
        }
    }
}

impl Reassembler {
    pub const RX_BUFFER: usize = 5000;

    pub const RX_MAX_FRAGMENTS: usize = 255;

    // A receiver that holds nothing, its tallies 0.
    pub fn with_crc_mask(crc_mask: u8) -> Result<Reassembler, Refusal>
        ensures { outcome_of result ≡ new_of crc_mask }
    {
        if !refusals::mask_ok(crc_mask) {
            return Err(Refusal::Mask);
        }
        let state = Joiner {
            held: 0,
            nfrag: 0,
            count: 0,
            crc_mask,
            overflow: false,
        };
        Ok(Reassembler {
            state,
            tallies: Tallies::NONE,
        })
    }

    // Nothing held, fragments 0, no overflow. Check byte, mask and tallies are kept.
    pub fn reset(self) -> Reassembler
        ensures { result ≡ reset_tallied self }
    {
        Reassembler {
            state: self.state.reset(),
            ..self
        }
    }

    // A refused call leaves the receiver as it was.
    fn refused(self, refusal: Refusal) -> Pushed
        ensures { (store : List ℕ) → after result store ≡ turned_away (number refusal) self store }
    {
        Pushed {
            answer: Err(refusal),
            receiver: self,
        }
    }

    // A fragment: the n first bytes of f.
    pub fn join(self, store: &mut [u8], f: &[u8], n: usize) -> Pushed
        ensures { after result store.new ≡ join_tallied self store.old f.now n }
    {
        if let Some(refusal) = self.state.refusal(store.len()) {
            return self.refused(refusal);
        }
        if self.tallies.full() {
            return self.refused(Refusal::Tally);
        }
        self.tallies.counted(self.state.joined(store, f, n))
    }

    // A frame of field + 3 bytes.
    pub fn push(self, store: &mut [u8], f: &[u8], field: usize) -> Pushed
        ensures { after result store.new ≡ push_tallied self store.old f.now field }
    {
        if let Some(refusal) = self.state.refusal(store.len()) {
            return self.refused(refusal);
        }
        if !refusals::field_ok(field) {
            return self.refused(Refusal::Field);
        }
        if self.tallies.full() {
            return self.refused(Refusal::Tally);
        }
        self.tallies.counted(self.state.pushed(store, f, field))
    }
}

// A receiver as it is kept. The tallies are copied one by one, here and back: as a whole they are moved together with the bytes before them that
// belong to no field, and the 13 pushes of a message then take 710 ns in place of 690.
impl From<Reassembler> for Stored {
    ghost from_gives = { λ receiver stored. stored ≡ stored_of receiver };

    fn from(receiver: Reassembler) -> Stored {
        let state = receiver.state;
        Stored {
            held: state.held,
            nfrag: state.nfrag,
            count: state.count,
            crc_mask: state.crc_mask,
            overflow: u8::from(state.overflow),
            tallies: Tallies { ..receiver.tallies },
        }
    }
}

// And back.
impl From<Stored> for Reassembler {
    ghost from_gives = { λ stored receiver. receiver ≡ receiver_of stored };

    fn from(stored: Stored) -> Reassembler {
        Reassembler {
            state: Joiner {
                held: stored.held,
                nfrag: stored.nfrag,
                count: stored.count,
                crc_mask: stored.crc_mask,
                overflow: stored.overflow != 0,
            },
            tallies: Tallies { ..stored.tallies },
        }
    }
}
