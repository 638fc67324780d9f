// What is worked out once for an evaluation: where each function's cells begin, and the bytes of the traces.
ghost use Rattle.std.specs.Prelude.{◌≡◌, ◌+◌, ◌<◌, ◌≤◌, length, take};
ghost use Rattle.std.proofs.Math.Seq.{paste};
ghost use Rattle.syntax.specs.Kinds.{signature_of};
ghost use Rattle.codes.specs.{most_trace_bytes};
ghost use Rattle.passes.specs.Mirror.{traces_of, heads, functions_of, total_of};

use crate::configurations;
use codes::Lengths;

// The bytes of both traces, with zeros after each; those beyond the longest trace are passed over.
pub fn traces_of(ram: &[u8], guard: &[u8]) -> [u8; codes::TRACES_BYTES]
    ensures { result ≡ traces_of ram.now guard.now }
{
    let mut bytes = [0u8; codes::TRACES_BYTES];
    copy(ram, 0, &mut bytes);
    copy(guard, codes::TRACE_BYTES, &mut bytes);
    bytes
}

// Copies the bytes of a trace, at most as many as the longest has, to a place.
fn copy(trace: &[u8], at: usize, bytes: &mut [u8])
    requires { at + most_trace_bytes ≤ length bytes.old }
    ensures { bytes.new ≡ paste bytes.old at (take most_trace_bytes trace.now) (length (take most_trace_bytes trace.now)) }
{
    let count = codes::TRACE_BYTES.min(trace.len());
    bytes[at..at + count].copy_from_slice(&trace[..count]);
}

// The functions of a program: first cells from 0 on, signatures from 32 on, counts from 64 on; and the
// cells of all. One array, since the contracts of pass, run and decoding's fill speak of its places.
#[derive(Clone, Copy)]
pub struct Cells {
    pub functions: [u64; 96],
    pub total: u64,
}

// The functions that a program's headers give, where the traces have such lengths. A count above 32 counts as 32, and
// lengths above 4,095 as 4,095.
pub fn cells_of(
    count: u8,
    params: &[u8; 32],
    kinds: &[u8; 32],
    guards: &[u8; 32],
    n: Lengths,
) -> Cells
    ensures functions { result.functions ≡ functions_of (heads kinds.now guards.now params.now) n count }
    ensures total { result.total ≡ total_of (heads kinds.now guards.now params.now) n count }
{
    let mut functions = [0u64; 96];
    let mut total: u64 = 0;
    let lengths = configurations::shortened_lengths(n);
    for g in 0..usize::from(count.min(syntax::MOST_FUNCTIONS)) {
        let signature = signature(kinds[g], guards[g]);
        functions[g] = total;
        functions[32 + g] = signature;
        functions[64 + g] = u64::from(params[g]);
        total += configurations::size(signature, rule::at_most_four(params[g]), lengths);
    }
    Cells { functions, total }
}

// A function's signature.
fn signature(kinds: u8, guard: u8) -> u64
    ensures { result ≡ signature_of kinds guard }
{
    u64::from(kinds) + 256 * u64::from(guard)
}
