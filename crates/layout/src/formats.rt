// The formats that are read: their numbers, the bytes of their trailer, the bytes after their traces, their label and guard trace.
ghost use Rattle.std.specs.Prelude.{◌≡◌};
ghost use Rattle.layout.specs.Form.{formats, trailer_bytes, after_trace};
ghost use Rattle.layout.specs.Form.{knows as form_knows, numbered as form_numbered};
ghost use Rattle.layout.specs.Trailer.{label_place, guard_place};

use crate::{Format, GuardTrace, Span};

// Whether a format byte is that of a format that is read.
#[tactic(auto, unfolding(crate::specs::Form::knows))]
pub fn knows(number: u8) -> bool
    ensures { result ≡ form_knows formats number }
{
    number == crate::FORMAT_3 || number == crate::FORMAT_2 || number == crate::FORMAT_1
}

// The format that a format byte stands for.
#[tactic(auto, using(crate::proofs::FormatLaws::told_by_number))]
pub fn numbered(number: u8) -> Format
    ensures { result ≡ form_numbered formats number }
{
    Format {
        number,
        labelled: number == crate::FORMAT_1,
        guarded: number == crate::FORMAT_3,
    }
}

// The bytes of its trailer.
#[tactic(auto, unfolding(crate::specs::Form::trailer_bytes))]
pub fn trailer_bytes(format: Format) -> usize
    ensures { result ≡ trailer_bytes format }
{
    if format.guarded {
        crate::GUARD_TRAILER
    } else {
        crate::TRAILER
    }
}

// The bytes between the traces and the trailer.
#[tactic(auto, unfolding(crate::specs::Form::label_size))]
pub fn after_trace(format: Format) -> usize
    ensures { result ≡ after_trace format }
{
    if format.labelled {
        crate::LABEL + crate::RESULT
    } else {
        crate::RESULT
    }
}

// The label that begins at a place.
#[tactic(auto, unfolding(crate::specs::Trailer::label_place))]
pub fn label_place(format: Format, start: usize) -> Option<Span>
    ensures { result ≡ label_place format start }
{
    format.labelled.then_some(Span {
        start,
        length: crate::LABEL,
    })
}

// The guard trace of so many samples that stands at a place.
#[tactic(auto, unfolding(crate::specs::Trailer::guard_place))]
pub fn guard_place(format: Format, span: Span, samples: u16) -> Option<GuardTrace>
    ensures { result ≡ guard_place format span samples }
{
    format.guarded.then_some(GuardTrace { span, samples })
}
