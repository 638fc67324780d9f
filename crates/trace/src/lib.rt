// Traces: samples packed into bytes, oldest first, eight to a byte from its lowest bit. Reading and
// writing one sample is defined for every index; past the bytes nothing is read or written.
#![tactic(auto)]

ghost use Rattle.std.specs.Prelude.{◌≡◌, ◌<◌};
ghost use Rattle.trace.specs.{bytes_for, bit_of, sample_at, padding_set, with_bit, with_sample};

// The most samples that a trace or a ring has.
pub const MOST_SAMPLES: usize = 4095;

// The bytes that n samples take.
pub fn bytes_for(n: usize) -> usize
    ensures { result ≡ bytes_for n }
{
    if n % 8 == 0 { n / 8 } else { n / 8 + 1 }
}

// Bit i of a number, counted from the lowest; past its 64 bits there are zeros.
pub fn bit(number: u64, i: u64) -> bool
    ensures { result ≡ bit_of i number }
{
    if i < 64 {
        (number >> i) % 2 == 1
    } else {
        false
    }
}

// Sample i, and false past the bytes.
pub fn sample(bytes: &[u8], i: usize) -> bool
    ensures { result ≡ sample_at bytes.now i }
{
    let place = i / 8;
    if bytes.len() <= place {
        return false;
    }
    (bytes[place] >> (i % 8)) % 2 == 1
}

// Whether a bit above the last of n samples is set, in the byte that it stands in. Where n is a multiple of 8 there are
// no such bits.
pub fn padding_set(bytes: &[u8], n: usize) -> bool
    ensures { result ≡ padding_set bytes.now n }
{
    let above = n % 8;
    if above == 0 {
        return false;
    }
    let at = n / 8;
    if bytes.len() <= at {
        return false;
    }
    bytes[at] >> above != 0
}

// Writes sample i. The samples before it stay as they are; the bits above it in its byte become 0.
pub fn write(bytes: &mut [u8], i: usize, sample: bool)
    ensures { bytes.new ≡ with_sample bytes.old i sample }
{
    let at = i / 8;
    if bytes.len() <= at {
        return;
    }
    bytes[at] = placed(bytes[at], i % 8, sample);
}

// A byte with bit k as the sample has it: the lower bits stay, the bits above become 0.
fn placed(byte: u8, k: usize, sample: bool) -> u8
    requires { k < 8 }
    ensures { result ≡ with_bit k byte sample }
{
    let weight = 1u8 << k;
    let below = byte % weight;
    if sample { below + weight } else { below }
}
