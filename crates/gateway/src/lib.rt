// The functions that the daemon in C calls, on bytes and numbers alone. include/sikafondza.h declares
// them for C and is their documentation.
#![tactic(auto)]

ghost use Rattle.std.specs.Prelude.{◌≡◌, [], ◌∷◌, Ok, None, length, get_or, take};
ghost use Rattle.refusal.specs.{check_number, values_left};
ghost use Rattle.ring.specs.{ring_values, slots_after, adding, added_answer, taking, taken_answer, output_after};
ghost use Rattle.semantics.specs.Handed.{one_trace, two_traces};
ghost use Rattle.semantics.specs.Verdicts.{verdict_number, verdict_values};
ghost use Rattle.rule.specs.Reading.{program_check};
ghost use Rattle.evaluate.specs.Evaluate.{evaluation, evaluated_answer, table_evaluated, Demand3};
ghost use Rattle.chains.specs.Following.{followed_values};
ghost use Rattle.follow.specs.Follow.{following_of, following_answer, FollowDemand, AsTable};
ghost use Rattle.record.specs.Reading.{reading, read_answer, parts_values, label_start, label_length, guard_values};
ghost use Rattle.record.specs.Recording.{record_of, writing, written_answer, output_written, table_written, RecordDemand3};
ghost use Rattle.record.specs.Checking.{checking, checked_answer, table_checked, CheckDemand3};
ghost use Rattle.gateway.specs.{ring_in, first_alone, agreement_values, values_answer};

use chains::Followed;
use layout::{GuardTrace, Parts, Span};
use prepare::Handed;
use record::{Checked, Written};
use refusal::Refusal;
use ring::Ring;
use semantics::Verdict;

// Adds a sample to a ring: 0, with the new state in `state`; or the number of the refusal, with slots and
// state as they were.
#[unsafe(no_mangle)]
pub extern "C" fn sik_ring_add(slots: &mut [u8], state: &mut [u64; 2], sample: u8) -> u32
    ensures number { result ≡ (added_answer (adding (length slots.old) (ring_in state.old))).number }
    ensures slots { slots.new ≡ slots_after slots.old (ring_in state.old) sample }
    ensures state { state.new ≡ values_left (added_answer (adding (length slots.old) (ring_in state.old))) state.old }
{
    let added = ring::add(slots, ring_of(state), sample);
    told(added.map(ring_values).map_err(|kept| kept.refusal), state)
}

// Packs what a ring holds into the output: 0, with the number of samples in `samples`; or the number of the
// refusal, with output and samples as they were.
#[unsafe(no_mangle)]
pub extern "C" fn sik_ring_trace(
    slots: &[u8],
    state: &[u64; 2],
    out: &mut [u8],
    samples: &mut [u64; 1],
) -> u32
    ensures number { result ≡ (taken_answer (taking (length slots.now) (ring_in state.now) (length out.old))).number }
    ensures output { out.new ≡ output_after slots.now (ring_in state.now) out.old }
    ensures samples { samples.new ≡ values_left (taken_answer (taking (length slots.now) (ring_in state.now) (length out.old))) samples.old }
{
    let taken = ring::take_trace(slots, ring_of(state), out);
    told(taken.map(samples_values), samples)
}

// A ring's state from its two numbers.
fn ring_of(state: &[u64; 2]) -> Ring
    ensures { result ≡ ring_in state.now }
{
    Ring {
        next: state[0] as usize,
        count: state[1] as usize,
    }
}

// A ring's state in two numbers.
fn ring_values(ring: Ring) -> [u64; 2]
    ensures { result ≡ ring_values ring }
{
    [ring.next as u64, ring.count as u64]
}

// Leaves the values of an answer in the memory lent for them, and answers 0; or answers the number of the refusal.
fn told<const N: usize>(values: Result<[u64; N], Refusal>, left: &mut [u64; N]) -> u32
    ensures number { result ≡ (values_answer values.entry).number }
    ensures left { left.new ≡ values_left (values_answer values.entry) left.old }
{
    match values {
        Ok(values) => {
            *left = values;
            0
        }
        Err(refusal) => u32::from(refusal),
    }
}

// The number of samples in a trace.
fn samples_values(count: usize) -> [u64; 1]
    ensures { result ≡ count ∷ [] }
{
    [count as u64]
}

// The number of the refusal that the program meets, 5 to 17 with 25 and 26, or 0.
#[unsafe(no_mangle)]
pub extern "C" fn sik_check_program(program: &[u8]) -> u32
    ensures { result ≡ check_number (program_check None program.now) }
{
    let checked = rule::check_program(program);
    refusal::check_number(checked.map(|_| ()))
}

// Evaluates a program of one contact on a packed trace of n samples: 0, with the verdict's number and the pass count in
// `answer` and the cells in the table; or the number of the refusal, with both as they were.
#[unsafe(no_mangle)]
pub extern "C" fn sik_evaluate(
    program: &[u8],
    trace: &[u8],
    n: u64,
    table: &mut [u16],
    answer: &mut [u64; 2],
) -> u32
    ensures number { result ≡ (evaluated_answer (evaluation program.now (one_trace trace.now n) (length table.old))).number }
    ensures cells { table.new ≡ table_evaluated program.now (one_trace trace.now n) table.old }
    ensures answer { answer.new ≡ values_left (evaluated_answer (evaluation program.now (one_trace trace.now n) (length table.old))) answer.old }
    ensures decides { Demand3 program.now (one_trace trace.now n) (length table.old) (λ v. (result ≡ 0) × (answer.new ≡ verdict_values v)) table.new }
{
    let evaluated = evaluate::evaluate(program, Handed::one(trace, n as usize), table);
    told(evaluated.map(verdict_values), answer)
}

// The same of a program of two contacts, on packed traces of n samples of the ram and m of the guard.
#[unsafe(no_mangle)]
pub extern "C" fn sik_evaluate_two(
    program: &[u8],
    ram: &[u8],
    n: u64,
    guard: &[u8],
    m: u64,
    table: &mut [u16],
    answer: &mut [u64; 2],
) -> u32
    ensures number { result ≡ (evaluated_answer (evaluation program.now (two_traces ram.now n guard.now m) (length table.old))).number }
    ensures cells { table.new ≡ table_evaluated program.now (two_traces ram.now n guard.now m) table.old }
    ensures answer { answer.new ≡ values_left (evaluated_answer (evaluation program.now (two_traces ram.now n guard.now m) (length table.old))) answer.old }
    ensures decides { Demand3 program.now (two_traces ram.now n guard.now m) (length table.old) (λ v. (result ≡ 0) × (answer.new ≡ verdict_values v)) table.new }
{
    let handed = Handed::two(ram, n as usize, guard, m as usize);
    let evaluated = evaluate::evaluate(program, handed, table);
    told(evaluated.map(verdict_values), answer)
}

// A verdict's number and its pass count.
fn verdict_values(verdict: Verdict) -> [u64; 2]
    ensures { result ≡ verdict_values verdict }
{
    let number = semantics::verdict_number(verdict.decision);
    [number as u64, verdict.passes as u64]
}

// Follows the calls of a program of one contact that only loops, on a packed trace of n samples and with no table: 0, with the
// verdict's number and the calls made in `answer`; or the number of the refusal, with `answer` as it was.
#[unsafe(no_mangle)]
pub extern "C" fn sik_follow(program: &[u8], trace: &[u8], n: u64, answer: &mut [u64; 2]) -> u32
    ensures number { result ≡ (following_answer (following_of program.now (one_trace trace.now n))).number }
    ensures answer { answer.new ≡ values_left (following_answer (following_of program.now (one_trace trace.now n))) answer.old }
    ensures owed { FollowDemand program.now (one_trace trace.now n) (λ q. (result ≡ 0) × (answer.new ≡ followed_values q)) }
    ensures table { AsTable program.now (one_trace trace.now n) (λ d. (result ≡ 0) × (get_or answer.new 0 0 ≡ verdict_number d)) }
{
    let followed = follow::follow(program, Handed::one(trace, n as usize));
    told(followed.map(followed_values), answer)
}

// The same of a program of two contacts, on packed traces of n samples of the ram and m of the guard.
#[unsafe(no_mangle)]
pub extern "C" fn sik_follow_two(
    program: &[u8],
    ram: &[u8],
    n: u64,
    guard: &[u8],
    m: u64,
    answer: &mut [u64; 2],
) -> u32
    ensures number { result ≡ (following_answer (following_of program.now (two_traces ram.now n guard.now m))).number }
    ensures answer { answer.new ≡ values_left (following_answer (following_of program.now (two_traces ram.now n guard.now m))) answer.old }
    ensures owed { FollowDemand program.now (two_traces ram.now n guard.now m) (λ q. (result ≡ 0) × (answer.new ≡ followed_values q)) }
    ensures table { AsTable program.now (two_traces ram.now n guard.now m) (λ d. (result ≡ 0) × (get_or answer.new 0 0 ≡ verdict_number d)) }
{
    let followed = follow::follow(program, Handed::two(ram, n as usize, guard, m as usize));
    told(followed.map(followed_values), answer)
}

// A verdict's number and the calls made.
fn followed_values(followed: Followed) -> [u64; 2]
    ensures { result ≡ followed_values followed }
{
    let number = semantics::verdict_number(followed.decision);
    [number as u64, followed.calls as u64]
}

// Reads the record that the bytes end in: 0, with its parts as numbers in `parts`; or the number of the
// refusal, 1 to 3, 23 or 4 to 17 with 25 and 26, with `parts` as they were.
#[unsafe(no_mangle)]
pub extern "C" fn sik_read_record(bytes: &[u8], parts: &mut [u64; 14]) -> u32
    ensures number { result ≡ (read_answer (reading bytes.now)).number }
    ensures parts { parts.new ≡ values_left (read_answer (reading bytes.now)) parts.old }
{
    told(record::read(bytes).map(parts_values), parts)
}

// A record's parts in numbers.
fn parts_values(parts: Parts) -> [u64; 14]
    ensures { result ≡ parts_values parts }
{
    let [label_start, label_length] = label_values(parts.label);
    let [guard_start, guard_length, samples] = guard_values(parts.guard);
    [
        parts.program.start as u64,
        parts.program.length as u64,
        parts.trace.start as u64,
        parts.trace.length as u64,
        parts.n as u64,
        label_start,
        parts.verdict as u64,
        parts.passes as u64,
        parts.program.start as u64,
        parts.format as u64,
        label_length,
        guard_start,
        guard_length,
        samples,
    ]
}

// Where a label stands, and its length: both 0 for 'no label'.
fn label_values(label: Option<Span>) -> [u64; 2]
    ensures { result ≡ label_start label ∷ label_length label ∷ [] }
{
    match label {
        None => [0, 0],
        Some(span) => [span.start as u64, span.length as u64],
    }
}

// Where a guard trace stands, its length and the number of its samples: all 0 where there is none.
fn guard_values(guard: Option<GuardTrace>) -> [u64; 3]
    ensures { result ≡ guard_values guard }
{
    match guard {
        None => [0, 0, 0],
        Some(GuardTrace { span, samples }) => [
            span.start as u64,
            span.length as u64,
            samples as u64,
        ],
    }
}

// Records a program of one contact on a packed trace of n samples: 0, with the record's length, the verdict's number and the
// pass count in `answer`, the record in the output and the cells in the table; or the number of the refusal,
// with all three as they were.
#[unsafe(no_mangle)]
pub extern "C" fn sik_write_record(
    program: &[u8],
    trace: &[u8],
    n: u64,
    table: &mut [u16],
    out: &mut [u8],
    answer: &mut [u64; 3],
) -> u32
    ensures number { result ≡ (written_answer (writing program.now (one_trace trace.now n) (length table.old) (length out.old))).number }
    ensures output { out.new ≡ output_written program.now (one_trace trace.now n) (length table.old) out.old }
    ensures cells { table.new ≡ table_written program.now (one_trace trace.now n) table.old (length out.old) }
    ensures answer { answer.new ≡ values_left (written_answer (writing program.now (one_trace trace.now n) (length table.old) (length out.old))) answer.old }
    ensures decides { RecordDemand3 program.now (one_trace trace.now n) (length table.old) (length out.old) (λ v. (result ≡ 0) × (answer.new ≡ length (record_of program.now (one_trace trace.now n)) ∷ verdict_values v)) table.new }
{
    let written = record::write(program, Handed::one(trace, n as usize), table, out);
    told(written.map(written_values), answer)
}

// The same of a program of two contacts, on packed traces of n samples of the ram and m of the guard.
#[unsafe(no_mangle)]
pub extern "C" fn sik_write_record_two(
    program: &[u8],
    ram: &[u8],
    n: u64,
    guard: &[u8],
    m: u64,
    table: &mut [u16],
    out: &mut [u8],
    answer: &mut [u64; 3],
) -> u32
    ensures number { result ≡ (written_answer (writing program.now (two_traces ram.now n guard.now m) (length table.old) (length out.old))).number }
    ensures output { out.new ≡ output_written program.now (two_traces ram.now n guard.now m) (length table.old) out.old }
    ensures cells { table.new ≡ table_written program.now (two_traces ram.now n guard.now m) table.old (length out.old) }
    ensures answer { answer.new ≡ values_left (written_answer (writing program.now (two_traces ram.now n guard.now m) (length table.old) (length out.old))) answer.old }
    ensures decides { RecordDemand3 program.now (two_traces ram.now n guard.now m) (length table.old) (length out.old) (λ v. (result ≡ 0) × (answer.new ≡ length (record_of program.now (two_traces ram.now n guard.now m)) ∷ verdict_values v)) table.new }
{
    let handed = Handed::two(ram, n as usize, guard, m as usize);
    let written = record::write(program, handed, table, out);
    told(written.map(written_values), answer)
}

// A record's length, its verdict's number and the pass count.
fn written_values(written: Written) -> [u64; 3]
    ensures { result ≡ written.length ∷ verdict_values written.verdict }
{
    let [number, passes] = verdict_values(written.verdict);
    [written.length as u64, number, passes]
}

// Checks the record that the bytes end in: 0, with 1 in `answer` if it agrees or 0 if it differs, and the cells
// in the table; or the number of the refusal, with both as they were.
#[unsafe(no_mangle)]
pub extern "C" fn sik_check_record(bytes: &[u8], table: &mut [u16], answer: &mut [u64; 1]) -> u32
    ensures number { result ≡ (checked_answer (checking bytes.now (length table.old))).number }
    ensures cells { table.new ≡ table_checked bytes.now table.old }
    ensures answer { answer.new ≡ values_left (first_alone (checked_answer (checking bytes.now (length table.old)))) answer.old }
    ensures decides { CheckDemand3 bytes.now (length table.old) (λ v. (result ≡ 0) × (answer.new ≡ agreement_values bytes.now v)) table.new }
{
    let checked = record::check(bytes, table);
    told(checked.map(agreement), answer)
}

// Whether a record agrees.
fn agreement(checked: Checked) -> [u64; 1]
    ensures { result ≡ take 1 (checked_answer (Ok checked)).values }
{
    match checked {
        Checked::Agrees(_) => [1],
        Checked::Differs(_) => [0],
    }
}
