// Receiver states that are kept under names, and their stores in 40,000 lent bytes: document 02, E8.
#![tactic(auto)]

ghost use Rattle.std.specs.Prelude.{◌≡◌, ◌<◌, ◌≤◌, max, length, take};
ghost use Rattle.std.proofs.lemmas.List.Edits.{sets};
ghost use Rattle.laws.specs.Text.{same};
ghost use Rattle.refusals.specs.Outcome.{number, outcome_of};
ghost use Rattle.receiver.specs.Join.{code_of};
ghost use Rattle.kept.specs.Keep.{name_ok, is_under, first_from, place_under, place_for, placed, slot_of, free_slot, with_slot, none_kept, start_of, part_of, size_refusal, refusal_in, kept_refusal, lent_refusal, keep_of, return_of, drop_of};
ghost use Rattle.kept.specs.Told.{beside, is_place, has_other_flag, to_slot, to_kept, to_keeping_with, to_dropped, return_after};

use receiver::{Reassembler, Stored, Tallies};
use refusals::Refusal;

// A state under a name of 1 to 8 bytes. A slot whose name has another length is free, whatever else it holds. It crosses
// to C, so that its name is an array with a length.
#[repr(C)]
#[derive(Clone, Copy)]
pub struct Slot {
    pub len: usize,
    pub name: [u8; 8],
    pub receiver: Stored,
}

// The kept states. The store of slot i is the lent bytes from 5,000 i on.
#[repr(C)]
#[derive(Clone, Copy)]
pub struct Kept {
    pub slots: [Slot; 8],
}

// ok with the place of a name, or a refusal's number, and the kept states as the call leaves them. It is no `Result`, since xara_kept_keep and
// xara_kept_drop hand back this very struct to C.
#[repr(C)]
#[derive(Clone, Copy)]
pub struct Keeping {
    pub ok: bool,
    pub refusal: u8,
    pub place: usize,
    pub kept: Kept,
}

// A name has 1 to 8 bytes.
fn name_ok(len: usize) -> bool
    ensures { result ≡ name_ok len }
{
    1 <= len && len <= Kept::MAX_NAME
}

// The number of a refusal, 0 for none.
fn code(refusal: Option<Refusal>) -> u8
    ensures { result ≡ code_of refusal }
{
    match refusal {
        Some(refusal) => u8::from(refusal),
        None => 0,
    }
}

// The refusal with the larger number; none is below any. The definitions take the larger number, and `Refusal` has no order of its own.
fn larger(a: Option<Refusal>, b: Option<Refusal>) -> Option<Refusal>
    ensures { code_of result ≡ max (code_of a) (code_of b) }
{
    match (a, b) {
        (None, _) => b,
        (_, None) => a,
        (Some(x), Some(y)) => if u8::from(x) < u8::from(y) { b } else { a },
    }
}

// A name is the first bytes of eight. They are compared one by one: with the library's `==` in its place the compiler copies the kept states
// of a drop once more, 832 bytes, before it looks for the name.
fn same_name(name: &[u8], eight: &[u8; 8], len: usize) -> bool
    requires { (len ≤ 8) × (length eight.now ≡ 8) }
    ensures { result ≡ same name.now (take len eight.now) }
{
    if name.len() != len {
        return false;
    }
    for i in 0..len {
        if name[i] != eight[i] {
            return false;
        }
    }
    true
}

impl Slot {
    // No state is kept here.
    fn free() -> Slot
        ensures { result ≡ free_slot }
    {
        Slot {
            len: 0,
            name: [0; 8],
            receiver: Stored {
                held: 0,
                nfrag: 0,
                count: 0,
                crc_mask: 0,
                overflow: 0,
                tallies: Tallies::NONE,
            },
        }
    }

    // A state with its name.
    fn named(name: &[u8], receiver: Reassembler) -> Slot
        requires { length name.now ≤ 8 }
        ensures { result ≡ slot_of name.now receiver }
    {
        let mut eight = [0; 8];
        eight[..name.len()].copy_from_slice(name);
        Slot {
            len: name.len(),
            name: eight,
            receiver: Stored::from(receiver),
        }
    }

    // A state is kept here under this name; for no name, the slot is free.
    fn is_under(&self, name: &[u8]) -> bool
        ensures { result ≡ is_under name.now self.now }
    {
        if name_ok(self.len) {
            return same_name(name, &self.name, self.len);
        }
        name.is_empty()
    }

    // The refusal of the state that is kept here, State or Mask; none where the slot is free.
    fn refusal(&self) -> Option<Refusal>
        ensures { code_of result ≡ refusal_in self.now }
    {
        if !name_ok(self.len) {
            return None;
        }
        let receiver = Reassembler::from(self.receiver);
        receiver.state.refusal(Reassembler::RX_BUFFER)
    }

    // The same with a flag that is 0 or 1.
    fn shown(&self) -> Slot
        ensures { result ≡ to_slot self.now }
    {
        Slot {
            receiver: Stored::from(Reassembler::from(self.receiver)),
            ..*self
        }
    }
}

// The refusal of lent bytes that are not as many as they are to be.
fn size_refusal(len: usize, size: usize) -> Option<Refusal>
    ensures { code_of result ≡ size_refusal len size }
{
    if len == size {
        None
    } else {
        Some(Refusal::State)
    }
}

// The place that a call by name answers, or the refusal of what was handed in or kept, Name for a name of another length, n where it has no place.
fn placed(
    refusal: Option<Refusal>,
    len: usize,
    n: Refusal,
    place: Option<usize>,
) -> Result<usize, Refusal>
    ensures { outcome_of result ≡ placed (code_of refusal) len (number n) place }
{
    if let Some(refusal) = refusal {
        return Err(refusal);
    }
    if !name_ok(len) {
        return Err(Refusal::Name);
    }
    place.ok_or(n)
}

// A store goes to its place among the lent bytes.
fn copy_in(lent: &mut [u8], i: usize, store: &[u8])
    requires { (i < 8) × (length lent.old ≡ 40000) × (length store.now ≡ 5000) }
    ensures { lent.new ≡ sets lent.old (start_of i) store.now }
{
    let at = i * Reassembler::RX_BUFFER;
    lent[at..at + store.len()].copy_from_slice(store);
}

// And back.
fn copy_out(store: &mut [u8], lent: &[u8], i: usize)
    requires { (i < 8) × (length lent.now ≡ 40000) × (length store.old ≡ 5000) }
    ensures { store.new ≡ part_of lent.now i }
{
    let start = i * Reassembler::RX_BUFFER;
    store.copy_from_slice(&lent[start..start + Reassembler::RX_BUFFER]);
}

impl Kept {
    // How many states are kept at most, the lent bytes for their stores, and the longest name.
    pub const SLOTS: usize = 8;

    pub const LENT: usize = 40000;

    pub const MAX_NAME: usize = 8;

    // Nothing is kept.
    pub fn none() -> Kept
        ensures { result ≡ none_kept }
    {
        Kept {
            slots: [Slot::free(); 8],
        }
    }

    // The first slot under a name; for no name, the first that is free.
    fn find(&self, name: &[u8]) -> Option<usize>
        ensures { result ≡ place_under name.now self.now.slots }
    {
        self.slots.iter().position(|slot| slot.is_under(name))
    }

    // Where a name goes: its own slot, or the first that is free.
    fn place_for(&self, name: &[u8]) -> Option<usize>
        ensures { result ≡ place_for name.now self.now.slots }
    {
        let place = self.find(name);
        if place.is_some() {
            return place;
        }
        self.find(&[])
    }

    // The refusal of the kept states: State comes before Mask.
    fn refusal(&self) -> Option<Refusal>
        ensures { code_of result ≡ kept_refusal self.now.slots }
    {
        let mut refusal = None;
        for slot in self.slots.iter() {
            refusal = larger(refusal, slot.refusal());
        }
        refusal
    }

    // The same with the lent bytes for their stores.
    fn lent_refusal(&self, lent: usize) -> Option<Refusal>
        ensures { code_of result ≡ lent_refusal self.now lent }
    {
        larger(size_refusal(lent, Kept::LENT), self.refusal())
    }

    // Some flag is neither 0 nor 1.
    fn has_other_flag(&self) -> bool
        ensures { result ≡ is_place (first_from has_other_flag 0 self.now.slots) }
    {
        self.slots.iter().any(|slot| 1 < slot.receiver.overflow)
    }

    // Makes all flags 0 or 1. Where they are already, nothing is written: the caller reads the struct by words right after a call.
    fn show(&mut self)
        ensures { self.new ≡ to_kept self.old }
    {
        if self.has_other_flag() {
            for slot in self.slots.iter_mut() {
                *slot = slot.shown();
            }
        }
    }

    // What a keep or a drop hands back, where it has written no slot.
    fn answered(&self, placed: Result<usize, Refusal>) -> Keeping
        ensures { result ≡ beside (outcome_of placed) self.now }
    {
        Keeping {
            ok: placed.is_ok(),
            refusal: code(placed.err()),
            place: placed.unwrap_or(0),
            kept: *self,
        }
    }

    // Keeps a receiver's state under a name, and its whole store in the lent bytes.
    pub fn keep(&self, receiver: Reassembler, store: &[u8], lent: &mut [u8], name: &[u8]) -> Keeping
        ensures { (result, lent.new) ≡ to_keeping_with (keep_of self.now receiver store.now lent.old name.now) }
    {
        let others = self.lent_refusal(lent.len());
        let refusal = larger(receiver.state.refusal(store.len()), others);
        let placed = placed(refusal, name.len(), Refusal::Kept, self.place_for(name));
        let mut keeping = self.answered(placed);
        if let Ok(place) = placed {
            keeping.kept.show();
            keeping.kept.slots[place] = Slot::named(name, receiver);
            copy_in(lent, place, store);
        }
        keeping
    }

    // The state that is kept under a name, and its bytes to the store. The name stays kept.
    pub fn return_to(
        &self,
        store: &mut [u8],
        lent: &[u8],
        name: &[u8],
    ) -> Result<Reassembler, Refusal>
        ensures { return_after result store.new ≡ return_of self.now store.old lent.now name.now }
    {
        let size = size_refusal(store.len(), Reassembler::RX_BUFFER);
        let refusal = larger(size, self.lent_refusal(lent.len()));
        let place = placed(refusal, name.len(), Refusal::Name, self.find(name))?;
        copy_out(store, lent, place);
        Ok(Reassembler::from(self.slots[place].receiver))
    }

    // Makes the slot of a name free. No lent byte is written.
    pub fn drop_name(&self, lent: &[u8], name: &[u8]) -> Keeping
        ensures { result ≡ to_dropped (drop_of self.now lent.now name.now) }
    {
        let refusal = self.lent_refusal(lent.len());
        let placed = placed(refusal, name.len(), Refusal::Name, self.find(name));
        let mut keeping = self.answered(placed);
        if let Ok(place) = placed {
            keeping.kept.show();
            keeping.kept.slots[place] = Slot::free();
        }
        keeping
    }
}
