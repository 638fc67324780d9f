// How numbers and texts are written: numbers low byte first and in decimal, and texts one after the
// other in a lent output. Putting is defined for every place; what has no room is not put.
#![tactic(auto)]

ghost use Rattle.std.specs.Prelude.{◌≡◌, [], ◌∷◌, ◌<◌, ◌≤◌, length, drop};
ghost use Rattle.encoding.specs.{low_first, from_low, decimal, begins, place_after};
ghost use Rattle.encoding.specs.{put as encoding_put};
ghost use Rattle.encoding.specs.{figure as encoding_figure};

// Numbers of 16 and of 32 bits have functions of their own, each over std's for its width: one for both would ask for a trait with
// these bodies.

// A number of 16 bits, low byte first.
#[tactic(auto, unfolding(crate::specs::low_first))]
pub fn low16(x: u16) -> [u8; 2]
    ensures { result ≡ low_first 2 x }
{
    u16::to_le_bytes(x)
}

// A number of 32 bits, low byte first.
#[tactic(auto, unfolding(crate::specs::low_first))]
pub fn low32(x: u32) -> [u8; 4]
    ensures { result ≡ low_first 4 x }
{
    u32::to_le_bytes(x)
}

// The number of two bytes, low byte first.
#[tactic(auto, unfolding(crate::specs::from_low))]
pub fn from16(low: u8, high: u8) -> u16
    ensures { result ≡ from_low (low ∷ high ∷ []) }
{
    u16::from_le_bytes([low, high])
}

// The number of four bytes, low byte first.
#[tactic(auto, unfolding(crate::specs::from_low))]
pub fn from32(a: u8, b: u8, c: u8, d: u8) -> u32
    ensures { result ≡ from_low (a ∷ b ∷ c ∷ d ∷ []) }
{
    u32::from_le_bytes([a, b, c, d])
}

// Puts a text into the output at a place, and answers the place after it. Output and place are no struct: docs/PROMISES.md names
// these two functions with clauses on both, and a function that takes a struct holding a lent output has to promise besides that
// it still holds that one.
pub fn put(out: &mut [u8], at: usize, text: &[u8]) -> usize
    ensures place { result ≡ place_after at text.now out.old }
    ensures output { out.new ≡ encoding_put at text.now out.old }
{
    let len = out.len();
    let size = text.len();
    if len < at || len - at < size {
        return at;
    }
    copy(&mut out[at..], text);
    at + size
}

// Copies a text to the front of the output. std's `copy_from_slice` between two lent slices is a call of C's `memmove`, for which the
// library asks nobody.
fn copy(out: &mut [u8], text: &[u8])
    requires { length text.now ≤ length out.old }
    ensures { out.new ≡ begins text.now out.old }
{
    for i in 0..text.len() {
        out[i] = text[i];
    }
}

// Puts a number in decimal into the output at a place, and answers the place after it. It is not printed by std's Display:
// that writes to a String, which is on the heap, or to a `fmt::Write`, and an impl of this for a lent output is longer.
pub fn put_decimal(out: &mut [u8], at: usize, n: u32) -> usize
    ensures place { result ≡ place_after at (decimal n) out.old }
    ensures output { out.new ≡ encoding_put at (decimal n) out.old }
{
    let (figures, first) = figures_of(n);
    put(out, at, &figures[first..])
}

// A number's digits at the end of ten figures, and the place of the first. The rest of the number ends the loop, and a `for`
// over the places would be left from its middle.
fn figures_of(n: u32) -> ([u8; 10], usize)
    ensures { (result.1 ≤ 9) × (drop result.1 result.0 ≡ decimal n) }
{
    let mut figures = [0u8; 10];
    let mut rest = n;
    let mut first: usize = 9;
    figures[first] = figure(rest % 10);
    while 10 <= rest {
        rest /= 10;
        first -= 1;
        figures[first] = figure(rest % 10);
    }
    (figures, first)
}

// The character of a digit.
fn figure(digit: u32) -> u8
    requires { digit < 10 }
    ensures { result ≡ encoding_figure digit }
{
    b'0' + (digit as u8)
}
