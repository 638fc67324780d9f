// The trailer and the bytes before it: numbers at a place, 3, 23 and 4 of the list, and where the parts stand.
ghost use Rattle.std.specs.Prelude.{◌≡◌, ◌+◌, ◌≤◌, length};
ghost use Rattle.trace.specs.{padding_set};
ghost use Rattle.layout.specs.Form.{trailer_bytes};
ghost use Rattle.layout.specs.Trailer.{part_of, number_at, fields_fault};
ghost use Rattle.layout.specs.Steps.{guard_count_at, fields_at, parts_stored, Distances};

use crate::{Format, Parts, Span, formats};
use refusal::Refusal;

// What a trailer holds: the place of its first byte, the distances from there to the program and to the ram trace, and the
// numbers of the traces' samples, of which the guard's is 0 where the format has no such trace.
#[derive(Clone, Copy)]
pub struct Fields {
    pub at: usize,
    pub first: usize,
    pub second: usize,
    pub n: u16,
    pub m: u16,
}

impl Fields {
    // Those of a trailer at a place, in a format.
    #[tactic(auto, using(crate::proofs::FormatLaws::least_trailer_lem))]
    pub fn read(bytes: &[u8], format: Format, at: usize) -> Fields
        requires { at + trailer_bytes format ≤ length bytes.now }
        ensures { result ≡ fields_at format at bytes.now }
    {
        Fields {
            at,
            first: sixteen(bytes, at) as usize,
            second: sixteen(bytes, at + 2) as usize,
            n: sixteen(bytes, at + 4),
            m: guard_samples(bytes, format, at),
        }
    }

    // Whether 3 applies in a format.
    #[tactic(auto, unfolding(trace::specs::bytes_for, crate::specs::Form::label_size))]
    pub fn are_faulty(self, format: Format) -> bool
        ensures { result ≡ fields_fault format self.at self.first self.second self.n self.m }
    {
        let n = self.n as usize;
        let m = self.m as usize;
        if trace::MOST_SAMPLES < n || trace::MOST_SAMPLES < m {
            return true;
        }
        let size = trace::bytes_for(n) + trace::bytes_for(m) + formats::after_trace(format);
        self.second != size || self.first <= self.second || self.at < self.first
    }

    // The parts of a record of a format with this trailer, unless 23 or 4 applies.
    pub fn parts(self, bytes: &[u8], format: Format) -> Result<Parts, Refusal>
        requires { Distances format (length bytes.now) self.at self.first self.second }
        ensures { result ≡ parts_stored bytes.now format self }
    {
        let trace = Span {
            start: self.at - self.second,
            length: trace::bytes_for(self.n as usize),
        };
        let guard = Span {
            start: trace.start + trace.length,
            length: trace::bytes_for(self.m as usize),
        };
        if padding_in(bytes, trace, self.n) || padding_in(bytes, guard, self.m) {
            return Err(Refusal::PaddingSet);
        }
        let verdict = bytes[self.at - crate::RESULT];
        let passes = thirty_two(bytes, self.at - 4);
        if crate::MOST_VERDICT < verdict || passes == 0 {
            return Err(Refusal::VerdictOrPasses);
        }
        Ok(Parts {
            format: format.number,
            program: Span {
                start: self.at - self.first,
                length: self.first - self.second,
            },
            trace,
            n: self.n,
            guard: formats::guard_place(format, guard, self.m),
            label: formats::label_place(format, self.at - formats::after_trace(format)),
            verdict,
            passes,
        })
    }
}

// The number of 16 bits at a place. One function for 16 and 32 bits would ask for a trait over the widths.
#[tactic(auto, using(crate::proofs::Locating::two_at))]
fn sixteen(bytes: &[u8], at: usize) -> u16
    requires { at + 2 ≤ length bytes.now }
    ensures { result ≡ number_at 2 at bytes.now }
{
    encoding::from16(bytes[at], bytes[at + 1])
}

// The number of 32 bits at a place.
#[tactic(auto, using(crate::proofs::Locating::four_at))]
fn thirty_two(bytes: &[u8], at: usize) -> u32
    requires { at + 4 ≤ length bytes.now }
    ensures { result ≡ number_at 4 at bytes.now }
{
    encoding::from32(bytes[at], bytes[at + 1], bytes[at + 2], bytes[at + 3])
}

// The number of the guard trace's samples in a trailer at a place; 0 where the format has none.
#[tactic(auto, unfolding(crate::specs::Form::trailer_bytes, crate::specs::Steps::guard_count_at))]
fn guard_samples(bytes: &[u8], format: Format, at: usize) -> u16
    requires { at + trailer_bytes format ≤ length bytes.now }
    ensures { result ≡ guard_count_at format at bytes.now }
{
    if format.guarded {
        sixteen(bytes, at + 6)
    } else {
        0
    }
}

// Whether a bit above the last of n samples is set in a part of the bytes.
fn padding_in(bytes: &[u8], span: Span, n: u16) -> bool
    ensures { result ≡ padding_set (part_of bytes.now span) n }
{
    trace::padding_set(crate::part(bytes, span), n as usize)
}
