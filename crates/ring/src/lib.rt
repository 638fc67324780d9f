// The ring of one contact's last samples, over a slice that the caller lends, one byte a sample. The
// state goes in and comes back by value. Every operation answers for all slices and states; a refusal
// changes neither the lent bytes nor the state.
#![tactic(auto)]

ghost use Rattle.std.specs.Prelude.{◌≡◌, ◌≤◌, length, [], ◌∷◌};
ghost use Rattle.refusal.specs.{check_number, answer_if};
ghost use Rattle.trace.specs.{bytes_for, packed_into};
ghost use Rattle.ring.specs.{new_ring, ring_check, stepped, held, adding, ring_values, added_answer, ring_after, slots_after, take_check, taking, taken_answer, output_after};
ghost use Rattle.ring.specs.Place.{Sound};

use refusal::Refusal;

// The state of a ring: the place of the next sample, and how many samples are held.
#[derive(Clone, Copy, Debug, PartialEq, Eq)]
pub struct Ring {
    pub next: usize,
    pub count: usize,
}

// Why no sample was added, with the ring's state, which stays as it was.
#[derive(Clone, Copy, Debug, PartialEq, Eq)]
pub struct NotAdded {
    pub refusal: Refusal,
    pub ring: Ring,
}

// A ring that holds nothing.
pub fn new() -> Ring
    ensures { result ≡ new_ring }
{
    Ring { next: 0, count: 0 }
}

// Adds a sample, 0 or, for any other byte, 1. A full ring loses its oldest.
#[tactic(auto, using(crate::proofs::Checks::check_ok, crate::proofs::Checks::check_sound), unfolding(crate::specs::sample_byte, crate::specs::adding, crate::specs::ring_after, crate::specs::slots_after))]
pub fn add(slots: &mut [u8], ring: Ring, sample: u8) -> Result<Ring, NotAdded>
    ensures answer { result ≡ adding (length slots.old) ring }
    ensures numbers { added_answer result ≡ record { number = check_number (ring_check (length slots.old) ring); values = ring_values (ring_after (length slots.old) ring) } }
    ensures bytes { slots.new ≡ slots_after slots.old ring sample }
{
    let len = slots.len();
    check(len, ring).map_err(|refusal| NotAdded { refusal, ring })?;
    slots[ring.next] = u8::from(sample != 0);
    Ok(step(len, ring))
}

// Packs what the ring holds into the output, oldest first, and answers how many samples that is.
#[tactic(auto, using(crate::proofs::Checks::trace_taken), unfolding(crate::specs::taking, crate::specs::output_after))]
pub fn take_trace(slots: &[u8], ring: Ring, out: &mut [u8]) -> Result<usize, Refusal>
    ensures answer { result ≡ taking (length slots.now) ring (length out.old) }
    ensures numbers { taken_answer result ≡ answer_if (take_check (length slots.now) ring (length out.old)) (ring.count ∷ []) }
    ensures output { out.new ≡ output_after slots.now ring out.old }
{
    check_trace(slots.len(), ring, out.len())?;
    write_held(slots, ring, out);
    Ok(ring.count)
}

// Whether a ring of so many slots is refused.
#[tactic(auto, unfolding(crate::specs::ring_check))]
fn check(len: usize, ring: Ring) -> Result<(), Refusal>
    ensures { result ≡ ring_check len ring }
{
    if len == 0 || trace::MOST_SAMPLES < len {
        return Err(Refusal::RingLength);
    }
    if len <= ring.next || len < ring.count {
        return Err(Refusal::RingState);
    }
    Ok(())
}

// Whether taking the trace of such a ring into so many bytes is refused.
#[tactic(auto, unfolding(crate::specs::take_check))]
fn check_trace(len: usize, ring: Ring, room: usize) -> Result<(), Refusal>
    ensures { result ≡ take_check len ring room }
{
    check(len, ring)?;
    if room < trace::bytes_for(ring.count) {
        return Err(Refusal::OutputShort);
    }
    Ok(())
}

// The state after a sample was stored at the next place.
#[tactic(auto, unfolding(crate::specs::stepped))]
fn step(len: usize, ring: Ring) -> Ring
    requires { Sound len ring }
    ensures { result ≡ stepped len ring }
{
    let after = ring.next + 1;
    let next = if after == len { 0 } else { after };
    let count = (ring.count + 1).min(len);
    Ring { next, count }
}

// Writes the samples held, oldest first, to the front of the output.
fn write_held(slots: &[u8], ring: Ring, out: &mut [u8])
    requires { Sound (length slots.now) ring × (bytes_for ring.count ≤ length out.old) }
    ensures { out.new ≡ packed_into out.old (held slots.now ring) }
{
    let later = &slots[ring.next..];
    let unheld = slots.len() - ring.count;
    let passed = unheld.min(later.len());
    let oldest = later[passed..].iter();
    for (i, byte) in oldest.chain(&slots[unheld - passed..ring.next]).enumerate() {
        trace::write(out, i, *byte != 0);
    }
}
