// The least table that the passes of a program reach. It answers for all arguments: whatever they are, it ends at the latest after
// one pass more than there can be cells.
#![tactic(auto)]

ghost use Rattle.std.specs.Prelude.{◌≡◌};
ghost use Rattle.passes.specs.Mirror.{setup};
ghost use Rattle.fixpoint.specs.{most_passes, table_from, passes_run};

use codes::Lengths;
use decoding::functions::WORDS;

// The most passes that a run makes: one more than the most cells.
const MOST_PASSES: u32 = semantics::MOST_CELLS as u32 + 1;

// Passes until one stores nothing, and answers how many they were.
pub fn run(
    words: &[u64; WORDS],
    traces: &[u8; codes::TRACES_BYTES],
    functions: &[u64; 96],
    table: &mut [u16],
    n: Lengths,
    starts: &[u16; 32],
    count: u8,
) -> u32
    ensures cells { table.new ≡ table_from (setup words.now functions.now traces.now) n starts.now count most_passes table.old }
    ensures passes { result ≡ passes_run (setup words.now functions.now traces.now) n starts.now count most_passes table.old }
{
    for done in 1..=MOST_PASSES {
        let stored = passes::pass(words, traces, functions, table, n, starts, count);
        if stored == 0 {
            return done;
        }
    }
    MOST_PASSES
}
