// What an evaluation begins with: its checks, and where the functions and their cells stand.
#![tactic(auto)]

ghost use Rattle.std.specs.Prelude.{◌≡◌, ◌||◌, [], Some, IfOk, replicate};
ghost use Rattle.refusal.specs.{told, ◌then◌};
ghost use Rattle.semantics.specs.declared.Sort.TheVariants as Sort;
ghost use Rattle.semantics.specs.Handed.{one_trace, two_traces};
ghost use Rattle.rule.specs.Reading.{program_sort, program_for, program_check};
ghost use Rattle.rule.specs.Outline.{outline_of, outline_from};
ghost use Rattle.decoding.specs.Decoding.{words_filled};
ghost use Rattle.passes.specs.Mirror.{traces_of};
ghost use Rattle.prepare.specs.Checks.{handed_in, length_check, lengths_check, padding_check, table_check, evaluate_check, told_by};
ghost use Rattle.prepare.specs.Settled.{Settled, lengths_of, functions_by, total_by, outline_told, cells_told, places_check, PlacedBy};

use codes::Lengths;
use decoding::functions::WORDS;
use passes::setup;
use passes::setup::Cells;
use refusal::Refusal;
use rule::Outline;
use semantics::Sort;

// The traces that an operation is handed, packed, with their numbers of samples; they say the sort of the program. With one trace
// `guard` has no bytes and `m` is 0.
#[derive(Clone, Copy)]
pub struct Handed<'a> {
    pub sort: Sort,
    pub ram: &'a [u8],
    pub n: usize,
    pub guard: &'a [u8],
    pub m: usize,
}

impl<'a> Handed<'a> {
    // A trace of n samples, that of the ram contact alone.
    pub fn one(trace: &'a [u8], n: usize) -> Handed<'a>
        ensures { handed_in result ≡ one_trace trace.now n }
    {
        Handed {
            sort: Sort::One,
            ram: trace,
            n,
            guard: &[],
            m: 0,
        }
    }

    // The traces of both contacts, of n samples of the ram and m of the guard.
    pub fn two(ram: &'a [u8], n: usize, guard: &'a [u8], m: usize) -> Handed<'a>
        ensures { handed_in result ≡ two_traces ram.now n guard.now m }
    {
        Handed {
            sort: Sort::Two,
            ram,
            n,
            guard,
            m,
        }
    }
}

// A program and its traces, where its functions stand, the lengths of the traces, and where the cells stand.
#[derive(Clone, Copy)]
pub struct Prepared<'a> {
    pub program: &'a [u8],
    pub handed: Handed<'a>,
    pub outline: Outline,
    pub lengths: Lengths,
    pub cells: Cells,
}

// Why nothing is prepared, with what was found until then: where the functions stand, of a program that is refused those of none; and where
// the cells do, none where the program or the length of a trace is refused.
#[derive(Clone, Copy)]
pub struct NotPrepared {
    pub refusal: Refusal,
    pub outline: Outline,
    pub cells: Cells,
}

impl From<NotPrepared> for Refusal {
    ghost from_gives = { λ kept refusal. refusal ≡ kept.refusal };

    fn from(kept: NotPrepared) -> Refusal {
        kept.refusal
    }
}

impl Prepared<'_> {
    // Writes the words of the program.
    pub fn fill(&self, words: &mut [u64; WORDS])
        ensures { words.new ≡ words_filled self.now.program.now self.now.outline.params self.now.cells.functions self.now.outline.functions self.now.lengths words.old }
    {
        decoding::program::fill(
            self.program,
            &self.outline.params,
            &self.cells.functions,
            self.outline.functions,
            self.lengths,
            words,
        );
    }

    // The bytes of the traces.
    pub fn traces(&self) -> [u8; codes::TRACES_BYTES]
        ensures { result ≡ traces_of self.now.handed.ram.now self.now.handed.guard.now }
    {
        setup::traces_of(self.handed.ram, self.handed.guard)
    }
}

// Checks the program, of the sort that the traces say, the traces and the room for the cells, in this order.
pub fn prepare<'a>(
    program: &'a [u8],
    handed: Handed<'a>,
    lent: usize,
) -> Result<Prepared<'a>, NotPrepared>
    ensures check { told_by result ≡ evaluate_check program.now (handed_in handed.entry) lent }
    ensures settled { IfOk result (λ p. Settled program.now (handed_in handed.entry) p.outline p.cells lent) }
    ensures outline { outline_told result ≡ outline_from (program_sort program.now) (program_for (Some handed.entry.sort) program.now) }
    ensures cells { ((cells_told result).functions ≡ functions_by (program_check (Some handed.entry.sort) program.now then lengths_check (handed_in handed.entry)) (outline_told result) (lengths_of (handed_in handed.entry))) × ((cells_told result).total ≡ total_by (program_check (Some handed.entry.sort) program.now then lengths_check (handed_in handed.entry)) (outline_told result) (lengths_of (handed_in handed.entry))) }
    ensures placed { IfOk result (λ p. PlacedBy program.now p.outline (handed_in handed.entry) p) }
{
    match rule::check_sorts(program, Some(handed.sort)) {
        Ok(outline) => placed(program, outline, handed, lent),
        Err(refusal) => Err(without_cells(refusal, no_functions())),
    }
}

// The same, once the program is checked: the traces, the room, and where the cells stand by where the functions do.
pub fn places<'a>(
    program: &'a [u8],
    outline: Outline,
    handed: Handed<'a>,
    lent: usize,
) -> Result<Prepared<'a>, Refusal>
    ensures check { told result ≡ places_check outline (handed_in handed.entry) lent }
    ensures cells { IfOk result (λ p. PlacedBy program.now outline (handed_in handed.entry) p) }
{
    Ok(placed(program, outline, handed, lent)?)
}

// The same, with what was found beside a refusal.
fn placed<'a>(
    program: &'a [u8],
    outline: Outline,
    handed: Handed<'a>,
    lent: usize,
) -> Result<Prepared<'a>, NotPrepared>
    ensures check { told_by result ≡ places_check outline (handed_in handed.entry) lent }
    ensures outline { outline_told result ≡ outline }
    ensures cells { ((cells_told result).functions ≡ functions_by (lengths_check (handed_in handed.entry)) outline (lengths_of (handed_in handed.entry))) × ((cells_told result).total ≡ total_by (lengths_check (handed_in handed.entry)) outline (lengths_of (handed_in handed.entry))) }
    ensures placed { IfOk result (λ p. PlacedBy program.now outline (handed_in handed.entry) p) }
{
    if let Err(refusal) = lengths_check(handed) {
        return Err(without_cells(refusal, outline));
    }
    let lengths = Lengths {
        ram: handed.n as u16,
        guard: handed.m as u16,
    };
    let cells = setup::cells_of(
        outline.functions,
        &outline.params,
        &outline.kinds,
        &outline.guards,
        lengths,
    );
    let ram = trace::padding_set(handed.ram, handed.n);
    let guard = trace::padding_set(handed.guard, handed.m);
    match padding_then_table(ram, guard, cells.total, lent) {
        Ok(()) => Ok(Prepared {
            program,
            handed,
            outline,
            lengths,
            cells,
        }),
        Err(refusal) => Err(NotPrepared {
            refusal,
            outline,
            cells,
        }),
    }
}

// A refusal, with no cells.
fn without_cells(refusal: Refusal, outline: Outline) -> NotPrepared
    ensures { (result.refusal ≡ refusal) × (result.outline ≡ outline) × (result.cells.functions ≡ replicate 96 0) × (result.cells.total ≡ 0) }
{
    NotPrepared {
        refusal,
        outline,
        cells: Cells {
            functions: [0; 96],
            total: 0,
        },
    }
}

// The outline of no functions.
fn no_functions() -> Outline
    ensures { result ≡ outline_of Sort.One [] }
{
    Outline {
        functions: 0,
        params: [0; 32],
        kinds: [0; 32],
        guards: [0; 32],
        starts: [0; 32],
        ends: [0; 32],
    }
}

// 20, of both traces.
fn lengths_check(handed: Handed) -> Result<(), Refusal>
    ensures { result ≡ lengths_check (handed_in handed.entry) }
{
    length_check(handed.n, handed.ram.len())?;
    length_check(handed.m, handed.guard.len())
}

// 20.
fn length_check(n: usize, bytes: usize) -> Result<(), Refusal>
    ensures { result ≡ length_check n bytes }
{
    if trace::MOST_SAMPLES < n || bytes != trace::bytes_for(n) {
        return Err(Refusal::TraceLength);
    }
    Ok(())
}

// 23, of either trace, then 21.
fn padding_then_table(ram: bool, guard: bool, needed: u64, lent: usize) -> Result<(), Refusal>
    ensures { result ≡ (padding_check (ram || guard) then table_check needed lent) }
{
    if ram || guard {
        return Err(Refusal::PaddingSet);
    }
    if (lent as u64) < needed || semantics::MOST_CELLS < needed {
        return Err(Refusal::TableShort);
    }
    Ok(())
}
