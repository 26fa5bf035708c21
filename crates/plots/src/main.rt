// Runs the port on document 01's worked plots and writes what it computes. The file stdout was written by hand from the
// document's figures.
// A list that a call writes is full of 9s before, at a length that the case asks for: what is printed shows each place written.
#![tactic(auto)]

use abtm::{AbtmConfig, AbtmMatrix};
use abtm_build::TilesSize;
use csr32::Csr32Matrix;
use hybit_core::HybitError;
use mask::DofMask;
use metadata_first::{AbtmMetadataFirstMatrix, AbtmProductPruningStats, AbtmRowDot};
use restricted::ColumnRestriction;
use std::{fmt, io};
use topology::{AbtmTopology, TopologySize};
use word::Operation;

// ---- the worked row of 70 columns: its entries, in stored order

const COLS: [u32; 4] = [65, 3, 3, 64];

const VALUES: [f64; 4] = [2.0, 1.0, 0.5, 4.0];

// ---- what is printed

// Each element, behind a space.
#[derive(Clone, Copy)]
struct Spaced<'a, T>(&'a [T]);

impl<'a, T: fmt::Display> fmt::Display for Spaced<'a, T> {
    fn fmt<W: fmt::Write>(&self, f: &mut fmt::Formatter<W>) -> fmt::Result {
        for element in self.0 {
            write!(f, " {element}")?;
        }
        Ok(())
    }
}

// A float's bits; a NaN has none that are compared. trial and recorded print floats in forms of their own.
#[derive(Clone, Copy)]
struct Bits(f64);

impl fmt::Display for Bits {
    fn fmt<W: fmt::Write>(&self, f: &mut fmt::Formatter<W>) -> fmt::Result {
        if self.0.is_nan() {
            return write!(f, "nan");
        }
        write!(f, "{:016x}", self.0.to_bits())
    }
}

#[derive(Clone, Copy)]
struct Floats<'a>(&'a [f64]);

impl<'a> fmt::Display for Floats<'a> {
    fn fmt<W: fmt::Write>(&self, f: &mut fmt::Formatter<W>) -> fmt::Result {
        for value in self.0 {
            write!(f, " {}", Bits(*value))?;
        }
        Ok(())
    }
}

// What a call answers, or the number of its refusal.
#[derive(Clone, Copy)]
struct Answer<T>(Result<T, HybitError>);

impl<T: fmt::Display> fmt::Display for Answer<T> {
    fn fmt<W: fmt::Write>(&self, f: &mut fmt::Formatter<W>) -> fmt::Result {
        match &self.0 {
            Ok(value) => write!(f, "{value}"),
            Err(e) => write!(f, "refused {}", e.number()),
        }
    }
}

#[derive(Clone, Copy)]
struct Accepted;

impl fmt::Display for Accepted {
    fn fmt<W: fmt::Write>(&self, f: &mut fmt::Formatter<W>) -> fmt::Result {
        write!(f, "accepted")
    }
}

fn verdict(v: Result<(), HybitError>) -> Answer<Accepted> {
    Answer(v.map(|_| Accepted))
}

#[derive(Clone, Copy)]
struct YesNo(bool);

impl fmt::Display for YesNo {
    fn fmt<W: fmt::Write>(&self, f: &mut fmt::Formatter<W>) -> fmt::Result {
        if self.0 {
            return write!(f, "yes");
        }
        write!(f, "no")
    }
}

#[derive(Clone, Copy)]
struct Selected(Option<usize>);

impl fmt::Display for Selected {
    fn fmt<W: fmt::Write>(&self, f: &mut fmt::Formatter<W>) -> fmt::Result {
        match self.0 {
            Some(column) => write!(f, "{column}"),
            None => write!(f, "Nothing"),
        }
    }
}

#[derive(Clone, Copy)]
struct Words(TopologySize);

impl fmt::Display for Words {
    fn fmt<W: fmt::Write>(&self, f: &mut fmt::Formatter<W>) -> fmt::Result {
        write!(f, "words {}, ones {}", self.0.words, self.0.structural_nnz)
    }
}

fn words_answer(a: Result<TopologySize, HybitError>) -> Answer<Words> {
    Answer(a.map(|size| Words(size)))
}

#[derive(Clone, Copy)]
struct Tiles(TilesSize);

impl fmt::Display for Tiles {
    fn fmt<W: fmt::Write>(&self, f: &mut fmt::Formatter<W>) -> fmt::Result {
        let size = self.0;
        write!(
            f,
            "tiles {}, slots {}, values {}",
            size.tiles, size.value_slots, size.matrix_nnz
        )
    }
}

#[derive(Clone, Copy)]
struct Kept(ColumnRestriction);

impl fmt::Display for Kept {
    fn fmt<W: fmt::Write>(&self, f: &mut fmt::Formatter<W>) -> fmt::Result {
        write!(f, "kept {} of {}", self.0.retained_nnz, self.0.source_nnz)
    }
}

// Candidate, executed and skipped products, topology words and active words.
#[derive(Clone, Copy)]
struct Counts(AbtmProductPruningStats);

impl fmt::Display for Counts {
    fn fmt<W: fmt::Write>(&self, f: &mut fmt::Formatter<W>) -> fmt::Result {
        let counts = self.0;
        write!(
            f,
            "{} {} {} {} {}",
            counts.candidate_products,
            counts.executed_products,
            counts.skipped_products,
            counts.topology_words,
            counts.active_words
        )
    }
}

#[derive(Clone, Copy)]
struct Report(AbtmRowDot);

impl fmt::Display for Report {
    fn fmt<W: fmt::Write>(&self, f: &mut fmt::Formatter<W>) -> fmt::Result {
        write!(
            f,
            "{}, counts {}",
            Bits(self.0.sum),
            Counts(self.0.counts())
        )
    }
}

fn dot_answer(a: Result<AbtmRowDot, HybitError>) -> Answer<Report> {
    Answer(a.map(|row| Report(row)))
}

// ---- words and masks

// A word of the 70-column row: its members' ranks at the offsets that the row's ranks are made of, and its selects.
fn show_word(
    rt: &impl Print,
    name: &str,
    mask: u64,
    first: usize,
    second: usize,
) -> io::Result<()> {
    println!(rt;
        "{name}: mask {mask}, present {}, ranks at {first} {second} 64 65: {} {} {} {}, selects 0 1 2: {} {} {}",
        word::popcount(mask),
        Answer(word::rank(mask, first)),
        Answer(word::rank(mask, second)),
        Answer(word::rank(mask, 64)),
        Answer(word::rank(mask, 65)),
        Selected(word::select(mask, 0)),
        Selected(word::select(mask, 1)),
        Selected(word::select(mask, 2))
    )
}

fn show_operations(rt: &impl Print, a: u64, b: u64) -> io::Result<()> {
    println!(rt;
        "masks {a} {b}: union {}, intersection {}, and_not {}, xor {}",
        word::combine(Operation::Union, a, b),
        word::combine(Operation::Intersection, a, b),
        word::combine(Operation::AndNot, a, b),
        word::combine(Operation::Xor, a, b)
    )
}

// The mask of 70 columns with two active plots.
fn show_mask(rt: &impl Print) -> io::Result<()> {
    let plots = [65usize, 3];
    // The library writes to lent lists of a length that is known here.
    let mut bits = [0u64; 2];
    let mut members = [9usize; 4];
    let built = mask_build::from_indices(70, &plots, &mut bits);
    let mask = DofMask {
        len: 70,
        words: &bits,
    };
    let count = mask.indices(&mut members);
    print!(rt;
        "active of 70:{}: {}, words{}, members {}:{}",
        Spaced(&plots),
        verdict(built),
        Spaced(&bits),
        Answer(count),
        Spaced(&members)
    )?;
    show_asked(rt, mask)?;
    println!(rt;
        ", set 70: {}",
        verdict(mask_build::set(70, &mut bits, 70, true))
    )
}

fn show_asked(rt: &impl Print, mask: DofMask) -> io::Result<()> {
    print!(rt;
        ", has 3 64 65 70: {} {} {} {}",
        Answer(mask.contains(3).map(|b| YesNo(b))),
        Answer(mask.contains(64).map(|b| YesNo(b))),
        Answer(mask.contains(65).map(|b| YesNo(b))),
        Answer(mask.contains(70).map(|b| YesNo(b)))
    )
}

// ---- words of a plot list

// One row of 70 columns. The parameters are the record's fields: there is no record to take yet.
fn row_of_70<'a>(row_ptr: &'a [u32], col_idx: &'a [u32], values: &'a [f64]) -> Csr32Matrix<'a> {
    Csr32Matrix {
        nrows: 1,
        ncols: 70,
        row_ptr,
        col_idx,
        values,
    }
}

// Its words, with this total; the parameters as above.
fn words_of_70<'a>(
    row_word_ptr: &'a [u32],
    word_indices: &'a [u32],
    masks: &'a [u64],
    structural_nnz: usize,
) -> AbtmTopology<'a, 'a, 'a> {
    AbtmTopology {
        nrows: 1,
        ncols: 70,
        row_word_ptr,
        word_indices,
        masks,
        structural_nnz,
    }
}

fn show_lists(rt: &impl Print, ptr: &[u32], words: &[u32], masks: &[u64]) -> io::Result<()> {
    println!(rt;
        ", pointers{}, numbers{}, masks{}",
        Spaced(ptr),
        Spaced(words),
        Spaced(masks)
    )
}

fn show_row(
    rt: &impl Print,
    row: Csr32Matrix,
    ptr: &mut [u32],
    indices: &mut [u32],
    masks: &mut [u64],
) -> io::Result<()> {
    let built = topology_build::from_csr32(row, ptr, indices, masks);
    print!(rt; "row{} of 70: {}", Spaced(row.col_idx), words_answer(built))?;
    show_lists(rt, ptr, indices, masks)
}

fn show_ranks(rt: &impl Print, row: AbtmTopology) -> io::Result<()> {
    println!(rt;
        "ranks at 0 4 64 65 70 71: {} {} {} {} {} {}",
        Answer(topology_rows::row_rank(row, 0, 0)),
        Answer(topology_rows::row_rank(row, 0, 4)),
        Answer(topology_rows::row_rank(row, 0, 64)),
        Answer(topology_rows::row_rank(row, 0, 65)),
        Answer(topology_rows::row_rank(row, 0, 70)),
        Answer(topology_rows::row_rank(row, 0, 71))
    )
}

fn select(row: AbtmTopology, ordinal: usize) -> Answer<Selected> {
    Answer(topology_rows::row_select(row, 0, ordinal).map(|column| Selected(column)))
}

fn show_selects(rt: &impl Print, row: AbtmTopology) -> io::Result<()> {
    println!(rt;
        "selects 0 1 2 3: {} {} {} {}",
        select(row, 0),
        select(row, 1),
        select(row, 2),
        select(row, 3)
    )
}

// The 70-column row, with lists of exactly the used lengths, and what is asked of its words.
fn show_plots(rt: &impl Print) -> io::Result<()> {
    let mut ptr = [9u32; 2];
    let mut indices = [9u32; 2];
    let mut masks = [9u64; 2];
    let row = row_of_70(&[0, 4], &COLS, &VALUES);
    show_row(rt, row, &mut ptr, &mut indices, &mut masks)?;
    let topology = words_of_70(&ptr, &indices, &masks, 3);
    show_ranks(rt, topology)?;
    show_selects(rt, topology)?;
    println!(rt;
        "metadata_bytes {}",
        Answer(topology.stats().map(|s| s.metadata_bytes))
    )
}

// Column 5 with 1.0 and -1.0: present.
fn show_cancelling(rt: &impl Print) -> io::Result<()> {
    let row = row_of_70(&[0, 2], &[5, 5], &[1.0, -1.0]);
    show_row(rt, row, &mut [9; 2], &mut [9; 2], &mut [9; 2])
}

fn show_empty(rt: &impl Print) -> io::Result<()> {
    let row = row_of_70(&[0, 0], &[], &[]);
    show_row(rt, row, &mut [9; 2], &mut [9; 2], &mut [9; 2])
}

// ---- two records

// A row of 64 columns with a mask of two bits.
fn row_of_64<'a>(row_word_ptr: &'a [u32], masks: &'a [u64]) -> AbtmTopology<'a, 'a, 'a> {
    AbtmTopology {
        nrows: 1,
        ncols: 64,
        row_word_ptr,
        word_indices: &[0],
        masks,
        structural_nnz: 2,
    }
}

// The library takes the operation by its name, and so does this.
fn show_combined(
    rt: &impl Print,
    name: &str,
    operation: Operation,
    mask: u64,
    other: u64,
) -> io::Result<()> {
    let mut ptr = [9u32; 2];
    let mut indices = [9u32; 1];
    let mut masks = [9u64; 1];
    let combined = topology_combine::combine(
        operation,
        row_of_64(&[0, 1], &[mask]),
        row_of_64(&[0, 1], &[other]),
        &mut ptr,
        &mut indices,
        &mut masks,
    );
    print!(rt; "{name}: {}", words_answer(combined))?;
    show_lists(rt, &ptr, &indices, &masks)
}

fn show_sets(rt: &impl Print) -> io::Result<()> {
    show_combined(rt, "6 union 3", Operation::Union, 6, 3)?;
    show_combined(rt, "6 intersection 3", Operation::Intersection, 6, 3)?;
    show_combined(rt, "6 and_not 3", Operation::AndNot, 6, 3)?;
    show_combined(rt, "6 xor 3", Operation::Xor, 6, 3)?;
    show_combined(rt, "6 xor 6", Operation::Xor, 6, 6)
}

// ---- the packed store

fn show_packed(
    rt: &impl Print,
    row: Csr32Matrix,
    ptr: &mut [u32],
    indices: &mut [u32],
    masks: &mut [u64],
    value_ptr: &mut [u32],
    packed: &mut [f64],
) -> io::Result<()> {
    let built = metadata_first_build::from_csr32(row, ptr, indices, masks, value_ptr, packed);
    println!(rt;
        "packed{}: {}, value pointers{}, values{}",
        Spaced(row.col_idx),
        words_answer(built),
        Spaced(value_ptr),
        Floats(packed)
    )
}

// The dot of the row with x all 1.0.
fn show_dot(
    rt: &impl Print,
    name: &str,
    packed: AbtmMetadataFirstMatrix,
    active: &[u64],
) -> io::Result<()> {
    let mask = DofMask {
        len: 70,
        words: active,
    };
    let dot = metadata_first_dot::sparse_dot_row(packed, 0, mask, &[1.0; 70]);
    println!(rt; "{name}: {}", dot_answer(dot))
}

fn show_store(rt: &impl Print) -> io::Result<()> {
    let mut ptr = [9u32; 2];
    let mut indices = [9u32; 2];
    let mut masks = [9u64; 2];
    let mut value_ptr = [9u32; 2];
    let mut slots = [9.0f64; 3];
    show_packed(
        rt,
        row_of_70(&[0, 4], &COLS, &VALUES),
        &mut ptr,
        &mut indices,
        &mut masks,
        &mut value_ptr,
        &mut slots,
    )?;
    let packed = AbtmMetadataFirstMatrix {
        topology: words_of_70(&ptr, &indices, &masks, 3),
        row_value_ptr: &value_ptr,
        values: &slots,
    };
    show_dot(rt, "active 3 65", packed, &[8, 2])?;
    show_dot(rt, "active 3", packed, &[8, 0])?;
    let empty = AbtmMetadataFirstMatrix {
        topology: words_of_70(&[0, 0], &[], &[], 0),
        row_value_ptr: &[0, 0],
        values: &[],
    };
    show_dot(rt, "empty row", empty, &[8, 2])
}

// ---- tiles

fn show_tiles(
    rt: &impl Print,
    row: Csr32Matrix,
    config: AbtmConfig,
    ptr: &mut [u32],
    masks: &mut [u64],
    offsets: &mut [u32],
    metas: &mut [u32],
    slots: &mut [f64],
) -> io::Result<()> {
    let built = abtm_build::from_csr32(row, config, ptr, masks, offsets, metas, slots);
    println!(rt;
        "tiles of {} entries: {}, pointers{}, masks{}, metas{}",
        row.col_idx.len(),
        Answer(built.map(|size| Tiles(size))),
        Spaced(ptr),
        Spaced(masks),
        Spaced(metas)
    )
}

// A row with 1.0 in its first columns, under 4 and 32.
fn show_kind(rt: &impl Print, entries: u32, cols: &[u32], values: &[f64]) -> io::Result<()> {
    let config = AbtmConfig {
        sparse_max_nnz: 4,
        dense_min_nnz: 32,
    };
    show_tiles(
        rt,
        row_of_70(&[0, entries], cols, values),
        config,
        &mut [9; 2],
        &mut [9; 1],
        &mut [9; 1],
        &mut [9; 1],
        &mut [9.0; 64],
    )
}

fn show_kinds(rt: &impl Print) -> io::Result<()> {
    let cols = [
        0u32, 1, 2, 3, 4, 5, 6, 7, 8, 9, 10, 11, 12, 13, 14, 15, 16, 17, 18, 19, 20, 21, 22, 23,
        24, 25, 26, 27, 28, 29, 30, 31,
    ];
    let ones = [1.0f64; 32];
    show_kind(rt, 4, &cols[..4], &ones[..4])?;
    show_kind(rt, 5, &cols[..5], &ones[..5])?;
    show_kind(rt, 31, &cols[..31], &ones[..31])?;
    show_kind(rt, 32, &cols, &ones)
}

fn show_thresholds(rt: &impl Print, sparse: u8, dense: u8) -> io::Result<()> {
    let config = AbtmConfig {
        sparse_max_nnz: sparse,
        dense_min_nnz: dense,
    };
    println!(rt;
        "thresholds {sparse} {dense}: {}",
        verdict(config.validate())
    )
}

// Column 5 with these two values: packed, and its tile.
fn show_pair(rt: &impl Print, values: &[f64]) -> io::Result<()> {
    let row = row_of_70(&[0, 2], &[5, 5], values);
    let mut slots = [9.0f64; 1];
    show_packed(
        rt,
        row,
        &mut [9; 2],
        &mut [9; 1],
        &mut [9; 1],
        &mut [9; 2],
        &mut slots,
    )?;
    show_tiles(
        rt,
        row,
        abtm::default_config(),
        &mut [9; 2],
        &mut [9; 1],
        &mut [9; 1],
        &mut [9; 1],
        &mut slots,
    )?;
    println!(rt; "values{}", Floats(&slots))
}

// A tile with column 5 alone, restricted to these columns.
fn show_cut(rt: &impl Print, name: &str, value: f64, active: &[u64]) -> io::Result<()> {
    let tiles = AbtmMatrix {
        nrows: 1,
        ncols: 70,
        row_tile_ptr: &[0, 1],
        masks: &[32],
        value_offsets: &[0],
        metas: &[0],
        values: &[value],
        matrix_nnz: 1,
    };
    let mask = DofMask {
        len: 70,
        words: active,
    };
    let cut = restricted_abtm::from_abtm(tiles, mask, &mut [9; 2], &mut [9; 1], &mut [9.0; 1]);
    println!(rt; "{name}: {}", Answer(cut.map(|size| Kept(size))))
}

// The largest finite value twice, its tile restricted with the column active and inactive; and values that cancel.
fn show_pairs(rt: &impl Print) -> io::Result<()> {
    show_pair(rt, &[f64::MAX, f64::MAX])?;
    show_cut(
        rt,
        "restricted with 5 active",
        f64::MAX + f64::MAX,
        &[32, 0],
    )?;
    show_cut(
        rt,
        "restricted with 5 inactive",
        f64::MAX + f64::MAX,
        &[0, 0],
    )?;
    show_pair(rt, &[1.0, -1.0])
}

// ---- demand 3

// The two routes by the dot.
fn show_dots(rt: &impl Print, row: Csr32Matrix, mask: DofMask, x: &[f64]) -> io::Result<()> {
    let pruned = demand_routes::pruned_dot(
        row,
        mask,
        x,
        0,
        &mut [9; 2],
        &mut [9; 2],
        &mut [9; 2],
        &mut [9; 2],
        &mut [9.0; 3],
    );
    println!(rt; "pruned: {}", dot_answer(pruned))?;
    let restricted = demand_routes::restricted_dot(
        row,
        mask,
        x,
        0,
        &mut [9; 2],
        &mut [9; 3],
        &mut [9.0; 3],
        &mut [9; 2],
        &mut [9; 2],
        &mut [9; 2],
        &mut [9; 2],
        &mut [9.0; 3],
        &mut [9; 2],
    );
    println!(rt; "restricted: {}", dot_answer(restricted))
}

// The route by tiles: the row product.
fn show_tiled(rt: &impl Print, row: Csr32Matrix, mask: DofMask, x: &[f64]) -> io::Result<()> {
    let tiled = demand_tiled::tiled_number(
        row,
        mask,
        abtm::default_config(),
        x,
        0,
        &mut [9; 2],
        &mut [9; 2],
        &mut [9; 2],
        &mut [9; 2],
        &mut [9.0; 3],
        &mut [9; 2],
        &mut [9; 2],
        &mut [9.0; 2],
        &mut [9.0; 1],
    );
    println!(rt; "tiled: {}", Answer(tiled.map(|sum| Bits(sum))))
}

// The worked row with 3 and 65 active by all three routes.
fn show_routes(rt: &impl Print) -> io::Result<()> {
    let x = [1.0f64; 70];
    let row = row_of_70(&[0, 4], &COLS, &VALUES);
    let mask = DofMask {
        len: 70,
        words: &[8, 2],
    };
    show_dots(rt, row, mask, &x)?;
    show_tiled(rt, row, mask, &x)
}

// ---- totals

// The counts of one of the worked row's dots.
fn row_report(executed: usize, skipped: usize, active_words: usize) -> AbtmRowDot {
    AbtmRowDot {
        sum: 0.0,
        candidate_products: 3,
        executed_products: executed,
        skipped_products: skipped,
        topology_words: 2,
        active_words,
    }
}

// The five totals over the first and last of 64 reports; those between are of empty rows.
fn show_totals(rt: &impl Print, first: AbtmRowDot, last: AbtmRowDot) -> io::Result<()> {
    let mut reports = [AbtmRowDot {
        sum: 0.0,
        candidate_products: 0,
        executed_products: 0,
        skipped_products: 0,
        topology_words: 0,
        active_words: 0,
    }; 64];
    reports[0] = first;
    reports[63] = last;
    let totals = metadata_first_totals::totals_of_64(reports);
    println!(rt; "totals: {}", Answer(totals.map(|all| Counts(all))))
}

// ---- the program

fn show_all(rt: &impl Print) -> io::Result<()> {
    show_word(rt, "word 0", 8, 0, 4)?;
    show_word(rt, "word 1", 3, 1, 6)?;
    show_operations(rt, 6, 3)?;
    show_operations(rt, 6, 6)?;
    show_mask(rt)?;
    show_plots(rt)?;
    show_cancelling(rt)?;
    show_empty(rt)?;
    show_sets(rt)?;
    show_store(rt)?;
    show_pairs(rt)?;
    show_kinds(rt)?;
    show_thresholds(rt, 4, 64)?;
    show_thresholds(rt, 4, 65)?;
    show_thresholds(rt, 4, 4)?;
    show_routes(rt)?;
    show_totals(rt, row_report(2, 1, 2), row_report(1, 2, 1))?;
    show_totals(
        rt,
        row_report(2, 18446744073709551613, 2),
        row_report(1, 2, 1),
    )?;
    show_totals(
        rt,
        row_report(2, 18446744073709551614, 2),
        row_report(1, 2, 1),
    )
}

fn main(rt: HostRuntime) {
    // Where the output can't be written, the rest of it is lost and the status stays 0.
    let _ = show_all(&rt);
}
