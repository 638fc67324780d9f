// The pieces that a record is written in.
ghost use Rattle.std.specs.Prelude.{◌≡◌, [], ◌∷◌, ◌++◌};
ghost use Rattle.encoding.specs.{low_first, put, place_after};
ghost use Rattle.layout.specs.Filling.{is_packing as filling_is_packing};
ghost use Rattle.layout.specs.Steps.{format_filled, kept, trailer_end};
ghost use Rattle.layout.specs.Form.{trailer_bytes};

use semantics::Sort;

// Whether bytes are those of n samples: as many as these take, with no bit above the last set.
#[tactic(auto, unfolding(crate::specs::Filling::is_packing))]
pub fn is_packing(bytes: &[u8], n: usize) -> bool
    ensures { result ≡ filling_is_packing bytes.now n }
{
    bytes.len() == trace::bytes_for(n) && !trace::padding_set(bytes, n)
}

// The guard trace that is written: with one trace, none.
pub fn guard_kept(sort: Sort, guard: &[u8]) -> &[u8]
    ensures { result.now ≡ kept sort guard.now }
{
    match sort {
        Sort::One => &guard[..0],
        Sort::Two => guard,
    }
}

// The bytes of the trailer that is written.
#[tactic(auto, unfolding(crate::specs::Form::trailer_bytes))]
pub fn trailer_size(sort: Sort) -> usize
    ensures { result ≡ trailer_bytes (format_filled sort) }
{
    match sort {
        Sort::One => crate::TRAILER,
        Sort::Two => crate::GUARD_TRAILER,
    }
}

// The verdict byte and the pass count.
pub fn verdict_bytes(number: u8, passes: u32) -> [u8; 5]
    ensures { result ≡ number ∷ low_first 4 passes }
{
    let [a, b, c, d] = encoding::low32(passes);
    [number, a, b, c, d]
}

// What the trailers of formats 2 and 3 begin with: of a distance, the low 16 bits.
#[tactic(auto, unfolding(encoding::specs::low_first), using(crate::proofs::Filling::low_bits))]
pub fn trailer_start(first: usize, second: usize, n: u16) -> [u8; 6]
    ensures { result ≡ low_first 2 first ++ (low_first 2 second ++ low_first 2 n) }
{
    let [a, b] = encoding::low16((first % 65536) as u16);
    let [c, d] = encoding::low16((second % 65536) as u16);
    let [e, f] = encoding::low16(n);
    [a, b, c, d, e, f]
}

// Puts what the trailer of a record ends with: with two traces the number of the guard's samples, m; the format and the mark.
pub fn put_trailer_end(out: &mut [u8], at: usize, sort: Sort, m: u16) -> usize
    ensures place { result ≡ place_after at (trailer_end sort m) out.old }
    ensures output { out.new ≡ put at (trailer_end sort m) out.old }
{
    match sort {
        Sort::One => encoding::put(out, at, &[crate::FORMAT_2, crate::MARK]),
        Sort::Two => {
            let [a, b] = encoding::low16(m);
            encoding::put(out, at, &[a, b, crate::FORMAT_3, crate::MARK])
        }
    }
}
