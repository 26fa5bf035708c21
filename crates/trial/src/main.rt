// The institute's job: each line's total over its dry plots. Reads a trial from standard input, or runs the one below where there
// is none, and writes for each line its total, the products that were executed and skipped, and over all lines the pruning ratio.
// The README describes the input. All that is computed is computed by the library: a line is packed, and its dot taken. Nothing is
// written before all lines are accepted.
#![tactic(auto)]

ghost use Rattle.std.specs.Prelude.{◌≡◌, ◌%◌, ◌^◌, ◌≤◌, [], ◌∷◌, length, IfOk};
ghost use Rattle.hybit_core.specs.Answer.{answers};
ghost use Rattle.mask.specs.Mask.{as_mask};
ghost use Rattle.csr32.specs.Csr.{as_csr};
ghost use Rattle.hybit_core.specs.Table.{given};
ghost use Rattle.metadata_first_build.specs.Pack.{as_store_room};
ghost use Rattle.demand_examine.specs.Calls.{pruned_answer, row_dot};

use csr32::Csr32Matrix;
use hybit_core::HybitError;
use mask::DofMask;
use metadata_first::{AbtmProductPruningStats, AbtmRowDot};
use std::fmt;

// The plots, the lines, and the entries of a line that the lists below have room for: fixed lists, so that no trial runs out of memory.
const ROOM: usize = 65536;

// The words of a mask of as many plots.
const WORD_ROOM: usize = 1024;

// Six plots, the third too moist, and three lines; the second line was read twice in plot 4.
const EXAMPLE: &[u8] = b"trial 3 6\n\
    moisture 14.0 12.1 13.9 15.2 14.0 11.8 13.3\n\
    yields 410.5 388.25 402 395.5 420.75 377\n\
    3 0 1 2 1 5 1\n\
    3 1 1 4 0.5 4 0.5\n\
    0\n";

// ---- why a trial has no totals

// What the input should have had at a place.
#[derive(Clone, Copy)]
enum Wanted {
    Trial,
    Count,
    Number,
    MaskOrMoisture,
    ZeroOrOne,
    Yields,
    Nothing,
}

impl fmt::Display for Wanted {
    fn fmt<W: fmt::Write>(&self, f: &mut fmt::Formatter<W>) -> fmt::Result {
        match self {
            Wanted::Trial => write!(f, "the word trial"),
            Wanted::Count => write!(f, "a whole number"),
            Wanted::Number => write!(f, "a number"),
            Wanted::MaskOrMoisture => write!(f, "the word mask or moisture"),
            Wanted::ZeroOrOne => write!(f, "0 or 1"),
            Wanted::Yields => write!(f, "the word yields"),
            Wanted::Nothing => write!(f, "the end of the input"),
        }
    }
}

// The text is not as it should be, or the library refuses it.
#[derive(Clone, Copy)]
enum Fault {
    Wrong(Wanted),
    Refused(HybitError),
}

impl From<Wanted> for Fault {
    fn from(w: Wanted) -> Fault {
        Fault::Wrong(w)
    }
}

impl From<HybitError> for Fault {
    fn from(e: HybitError) -> Fault {
        Fault::Refused(e)
    }
}

// The refusal's word in document 01. No other can come of a trial. A Display of HybitError would be hybit_core's, for all.
fn word_of(e: HybitError) -> &'static str {
    match e {
        HybitError::SizeOverflow => "over size",
        HybitError::OutsideColumn => "outside column",
        HybitError::NotFinite => "not finite",
        HybitError::ShortList => "short list (room for 65536 lines, plots, and entries of a line)",
        _ => "refused",
    }
}

// A fault of the text itself has no number in document 01.
impl fmt::Display for Fault {
    fn fmt<W: fmt::Write>(&self, f: &mut fmt::Formatter<W>) -> fmt::Result {
        match self {
            Fault::Wrong(w) => write!(f, "no trial: {w} expected"),
            Fault::Refused(e) => write!(f, "refusal {}: {}", e.number(), word_of(*e)),
        }
    }
}

// ---- the input, byte by byte and word by word

// How many lines and plots a trial has.
#[derive(Clone, Copy)]
struct Shape {
    lines: usize,
    plots: usize,
}

// 1 above the domain, 13 above the room here.
fn shape_of(lines: usize, plots: usize) -> Result<Shape, HybitError>
    ensures { IfOk result (λ s. (s.lines ≤ 65536) × (s.plots ≤ 65536)) }
{
    if !hybit_core::sizes_fit(lines, plots, 0, 0) {
        return Err(HybitError::SizeOverflow);
    }
    if lines > ROOM || plots > ROOM {
        return Err(HybitError::ShortList);
    }
    Ok(Shape { lines, plots })
}

fn activate(plot: usize, active: &mut [u64]) {
    if let Some(place) = active.get_mut(plot / 64) {
        *place = word::with_bit(*place, plot % 64);
    }
}

// The block of the input that was read last, of which the bytes from `at` to `end` are to come, and the word taken last.
#[derive(Drop)]
struct Input {
    block: [u8; 65536],
    at: usize,
    end: usize,
    line: usize,
    word: [u8; 32],
}

impl Input {
    fn new() -> Input {
        Input {
            block: io::large_buffer(),
            at: 0,
            end: 0,
            line: 1,
            word: [0; 32],
        }
    }

    // Puts the example in the place of an input that has nothing.
    fn take_example(&mut self) {
        self.block[..EXAMPLE.len()].copy_from_slice(EXAMPLE);
        self.at = 0;
        self.end = EXAMPLE.len();
    }

    // The next byte, which stays where it is.
    fn peek(&mut self) -> Option<u8> {
        if self.at >= self.end {
            self.end = io::read_full(0, &mut self.block);
            self.at = 0;
        }
        if self.at >= self.end {
            return None;
        }
        self.block.get(self.at).copied()
    }

    fn advance(&mut self) {
        self.at = self.at.wrapping_add(1);
    }

    // Passes over blanks and line feeds, which are counted. More than a million of them end the input.
    fn skip_blanks(&mut self) {
        for _ in 0..1048576 {
            match self.peek() {
                Some(b'\n') => self.line = self.line.wrapping_add(1),
                Some(b) if b <= b' ' => {}
                _ => return,
            }
            self.advance();
        }
    }

    // The next word; one that is longer than the room for it is cut, and is no number then.
    fn next_word(&mut self) -> &[u8] {
        self.skip_blanks();
        for n in 0..self.word.len() {
            match self.peek() {
                Some(b) if b > b' ' => self.word[n] = b,
                _ => return &self.word[..n],
            }
            self.advance();
        }
        &self.word
    }

    fn next_whole(&mut self, wanted: Wanted) -> Result<usize, Wanted> {
        text::read_whole(self.next_word()).ok_or(wanted)
    }

    fn next_real(&mut self) -> Result<f64, Wanted> {
        text::read_real(self.next_word()).ok_or(Wanted::Number)
    }

    fn expect(&mut self, expected: &[u8], wanted: Wanted) -> Result<(), Wanted> {
        if self.next_word() == expected {
            Ok(())
        } else {
            Err(wanted)
        }
    }

    // ---- the parts of a trial

    fn read_shape(&mut self) -> Result<Shape, Fault>
        ensures { IfOk result (λ s. (s.lines ≤ 65536) × (s.plots ≤ 65536)) }
    {
        self.expect(b"trial", Wanted::Trial)?;
        let lines = self.next_whole(Wanted::Count)?;
        let plots = self.next_whole(Wanted::Count)?;
        Ok(shape_of(lines, plots)?)
    }

    // A 1 for each plot that is dry enough, a 0 for the others.
    fn read_flags(&mut self, plots: usize, active: &mut [u64]) -> Result<(), Fault> {
        for plot in 0..plots {
            match self.next_whole(Wanted::ZeroOrOne)? {
                0 => {}
                1 => activate(plot, active),
                _ => return Err(Fault::Wrong(Wanted::ZeroOrOne)),
            }
        }
        Ok(())
    }

    // The limit, and each plot's grain moisture: a plot above the limit is masked out.
    fn read_moisture(&mut self, plots: usize, active: &mut [u64]) -> Result<(), Fault> {
        let limit = self.next_real()?;
        for plot in 0..plots {
            if self.next_real()? <= limit {
                activate(plot, active);
            }
        }
        Ok(())
    }

    fn read_active(&mut self, plots: usize, active: &mut [u64]) -> Result<(), Fault> {
        match self.next_word() {
            b"mask" => self.read_flags(plots, active),
            b"moisture" => self.read_moisture(plots, active),
            _ => Err(Fault::Wrong(Wanted::MaskOrMoisture)),
        }
    }

    fn read_yields(&mut self, yields: &mut [f64]) -> Result<(), Fault> {
        self.expect(b"yields", Wanted::Yields)?;
        for place in yields {
            *place = self.next_real()?;
        }
        Ok(())
    }

    // Nothing may follow the last line.
    fn read_end(&mut self) -> Result<(), Wanted> {
        self.expect(b"", Wanted::Nothing)?;
        match self.peek() {
            None => Ok(()),
            Some(_) => Err(Wanted::Nothing),
        }
    }
}

// ---- the totals

// The mask of the dry plots, and each plot's yield.
#[derive(Clone, Copy)]
struct Plots<'a> {
    active: &'a [u64],
    yields: &'a [f64],
}

// The report of a line: its entries as a matrix of one row, and that row's pruned dot over the active plots.
fn report(
    plots: Plots,
    cols: &[u32],
    values: &[f64],
    word_indices: &mut [u32],
    bits: &mut [u64],
    packed: &mut [f64],
) -> Result<AbtmRowDot, HybitError>
    ensures { given result ≡ answers (pruned_answer (as_csr 1 (length plots.entry.yields.now) (0 ∷ length cols.now % 2 ^ 32 ∷ []) cols.now values.now) (as_mask (length plots.entry.yields.now) plots.entry.active.now) plots.entry.yields.now 0 (as_store_room 2 (length word_indices.old) (length bits.old) 2 (length packed.old))) (row_dot (as_csr 1 (length plots.entry.yields.now) (0 ∷ length cols.now % 2 ^ 32 ∷ []) cols.now values.now) (as_mask (length plots.entry.yields.now) plots.entry.active.now) plots.entry.yields.now 0) }
{
    // A matrix of one row has two pointers.
    let row_ptr = [0u32, hybit_core::narrow(cols.len())];
    let mut row_word_ptr = [0u32; 2];
    let mut row_value_ptr = [0u32; 2];
    demand_routes::pruned_dot(
        Csr32Matrix {
            nrows: 1,
            ncols: plots.yields.len(),
            row_ptr: &row_ptr,
            col_idx: cols,
            values,
        },
        DofMask {
            len: plots.yields.len(),
            words: plots.active,
        },
        plots.yields,
        0,
        &mut row_word_ptr,
        word_indices,
        bits,
        &mut row_value_ptr,
        packed,
    )
}

// Room for a line's entries, each a plot and a value, and for the store that they are packed into.
#[derive(Drop)]
struct Line {
    cols: [u32; ROOM],
    values: [f64; ROOM],
    word_indices: [u32; WORD_ROOM],
    bits: [u64; WORD_ROOM],
    packed: [f64; ROOM],
}

impl Line {
    // Reads a line: how many entries it has, and each entry's plot and value.
    fn read(&mut self, input: &mut Input) -> Result<usize, Fault>
        ensures { IfOk result (λ n. n ≤ 65536) }
    {
        let count = input.next_whole(Wanted::Count)?;
        if count > ROOM {
            return Err(Fault::Refused(HybitError::ShortList));
        }
        for i in 0..count {
            let plot = input.next_whole(Wanted::Count)?;
            self.cols[i] = u32::try_from(plot).map_err(|_| HybitError::OutsideColumn)?;
            self.values[i] = input.next_real()?;
        }
        Ok(count)
    }

    // Reads a line and takes its report.
    fn next_report(&mut self, input: &mut Input, plots: Plots) -> Result<AbtmRowDot, Fault> {
        let n = self.read(input)?;
        Ok(report(
            plots,
            &self.cols[..n],
            &self.values[..n],
            &mut self.word_indices,
            &mut self.bits,
            &mut self.packed,
        )?)
    }
}

// What is written of a line.
#[derive(Clone, Copy)]
struct Total {
    sum: f64,
    executed: usize,
    skipped: usize,
}

impl From<AbtmRowDot> for Total {
    fn from(row: AbtmRowDot) -> Total {
        Total {
            sum: row.sum,
            executed: row.executed_products,
            skipped: row.skipped_products,
        }
    }
}

// Reads a line for each place of `totals`; answers the counts of all together.
fn read_lines(
    input: &mut Input,
    plots: Plots,
    totals: &mut [Total],
) -> Result<AbtmProductPruningStats, Fault> {
    let mut line = Line {
        cols: [0; ROOM],
        values: [0.0; ROOM],
        word_indices: [0; WORD_ROOM],
        bits: [0; WORD_ROOM],
        packed: [0.0; ROOM],
    };
    // Zeros, each by its name: the struct has no Default.
    let mut all = AbtmProductPruningStats {
        candidate_products: 0,
        executed_products: 0,
        skipped_products: 0,
        topology_words: 0,
        active_words: 0,
    };
    for total in totals {
        let row = line.next_report(input, plots)?;
        all = all.accumulate(row.counts())?;
        *total = Total::from(row);
    }
    Ok(all)
}

// How many lines a trial has, and the counts of all together.
#[derive(Clone, Copy)]
struct Summary {
    lines: usize,
    all: AbtmProductPruningStats,
}

// Reads the trial and notes the lines' totals.
fn read_trial(input: &mut Input, totals: &mut [Total; ROOM]) -> Result<Summary, Fault>
    ensures { IfOk result (λ s. s.lines ≤ 65536) }
{
    let shape = input.read_shape()?;
    let mut active_room = [0u64; WORD_ROOM];
    let mut yields_room = [0.0f64; ROOM];
    let active = &mut active_room[..shape.plots.div_ceil(64)];
    let yields = &mut yields_room[..shape.plots];
    input.read_active(shape.plots, active)?;
    input.read_yields(yields)?;
    let all = read_lines(input, Plots { active, yields }, &mut totals[..shape.lines])?;
    input.read_end()?;
    Ok(Summary {
        lines: shape.lines,
        all,
    })
}

// ---- the output

// A float as its bits in hexadecimal and as a decimal of six places, rounded to nearest, ties to even; for every NaN the same bits.
// plots and recorded print one form each, with no decimal: a crate of all three would be public functions without a contract.
#[derive(Clone, Copy)]
struct Figure(f64);

impl fmt::Display for Figure {
    fn fmt<W: fmt::Write>(&self, f: &mut fmt::Formatter<W>) -> fmt::Result {
        let v = self.0;
        if v.is_nan() {
            return write!(f, "7ff8000000000000 nan");
        }
        let bits = v.to_bits();
        write!(f, "{bits:016x} {v:.6}")
    }
}

fn write_totals(
    rt: &impl Print,
    totals: &[Total],
    all: AbtmProductPruningStats,
) -> std::io::Result<()> {
    for (i, total) in totals.iter().enumerate() {
        println!(rt;
            "line {i}: total {}, executed {}, skipped {}",
            Figure(total.sum),
            total.executed,
            total.skipped
        )?;
    }
    println!(rt;
        "all lines: executed {}, skipped {}, pruning ratio {}",
        all.executed_products,
        all.skipped_products,
        Figure(all.pruning_ratio())
    )
}

// ---- the program

fn main(rt: HostRuntime) {
    let mut input = Input::new();
    if input.peek().is_none() {
        input.take_example();
    }
    let mut totals = [Total {
        sum: 0.0,
        executed: 0,
        skipped: 0,
    }; ROOM];
    // Where the output can't be written, the rest of it is lost and the status stays 0.
    let _ = match read_trial(&mut input, &mut totals) {
        Ok(trial) => write_totals(&rt, &totals[..trial.lines], trial.all),
        Err(fault) => println!(rt; "{fault}, input line {}", input.line),
    };
}
