// Replays recorded calls of the C interface, and from number 200 on of the crates below it. Its input has a call to a line: the
// call's number and then what it is lent, in decimal, a list as its length and its places, a float as its bits; in blocks of
// 65,536 bytes, none of whose lines goes on in the next. Its output has for each call what came of it: the refusal's number,
// expected and actual, the result, and every list that was lent to be written. The expected output is what the Rust or the model
// of document 01 answered (oracle/record).
// A call is known by its number in the recording; the functions differ in type, so no table holds them.
// Functions of one form stand apart where the calls, or the lists handed on, differ in type.
// What is printed goes out by the kit's io: with the library's macros each function would hand on a handle and an answer.
#![tactic(auto)]

ghost use Rattle.std.specs.Prelude.{◌≤◌};

use abtm::{AbtmConfig, AbtmMatrix, TileKind};
use csr32::Csr32Matrix;
use denimrasp_answers::{
    DenimraspBlocks, DenimraspBool, DenimraspCount, DenimraspDot, DenimraspPart, DenimraspRatio,
    DenimraspRegion, DenimraspRestriction, DenimraspSelect, DenimraspStoreStats,
    DenimraspTileStats, DenimraspTiles, DenimraspTopology, DenimraspTopologyStats, DenimraspTotals,
    DenimraspVerdict,
};
use dense_block::DenseBlocks;
use hybit_core::HybitError;
use lent::Zero;
use mask::DofMask;
use metadata_first::{AbtmMetadataFirstMatrix, AbtmProductPruningStats, AbtmRowDot};
use restricted::{ColumnRestriction, LocalRegion};
use topology::{AbtmTopology, AbtmTopologyWord};
use word::Operation;

// The most places of a recorded list. All rooms are fixed lists: a Vec's memory can be refused, which each call would hand on.
const ROOM: usize = 4096;

// The most places of the words of one mask, one more than a mask of 2^20 has: a fixed list for the same reason.
const MASK_ROOM: usize = 16385;

// Ten times v and one digit more, the low 64 bits.
fn ten_times(v: u64, digit: u8) -> u64 {
    v.wrapping_mul(10).wrapping_add(digit as u64)
}

// The float of a pattern; a NaN's patterns are all one NaN.
fn float_of(bits: u64) -> f64 {
    if bits % 4503599627370496 == 0 {
        return f64::from_bits(bits);
    }
    if bits % 9223372036854775808 / 4503599627370496 == 2047 {
        return 0.0f64 / 0.0f64;
    }
    f64::from_bits(bits)
}

// A list's length, at most the places that there are.
fn places(n: u64, room: usize) -> usize
    ensures { result ≤ room }
{
    n.min(room as u64) as usize
}

// An element of a recorded list: as the input and the output have it.
trait Recorded: Zero {
    fn read(input: &mut Input) -> Self;

    fn show(self);
}

impl Recorded for u32 {
    fn read(input: &mut Input) -> u32 {
        hybit_core::narrow(input.index())
    }

    fn show(self) {
        size(self as usize);
    }
}

impl Recorded for u64 {
    fn read(input: &mut Input) -> u64 {
        input.numeral()
    }

    fn show(self) {
        number(self);
    }
}

impl Recorded for usize {
    fn read(input: &mut Input) -> usize {
        input.index()
    }

    fn show(self) {
        size(self);
    }
}

impl Recorded for f64 {
    fn read(input: &mut Input) -> f64 {
        float_of(input.numeral())
    }

    fn show(self) {
        float(self);
    }
}

// The rows and columns that come first in most records.
#[derive(Clone, Copy)]
struct Frame {
    nrows: usize,
    ncols: usize,
}

// A block of the input, and the place in it from which it goes on.
#[derive(Drop)]
struct Input<'a> {
    text: &'a [u8],
    at: usize,
}

impl<'a> Input<'a> {
    // The next number; the one after it starts behind the space or line feed.
    fn numeral(&mut self) -> u64 {
        let mut value: u64 = 0;
        // The place goes on from where the last number ended.
        while self.at < self.text.len() {
            let b = self.text[self.at];
            self.at += 1;
            if b < 48 {
                return value;
            }
            value = ten_times(value, b - 48);
        }
        value
    }

    fn index(&mut self) -> usize {
        self.numeral() as usize
    }

    // A number below 256.
    fn byte(&mut self) -> u8 {
        (self.numeral() % 256) as u8
    }

    fn frame(&mut self) -> Frame {
        let nrows = self.index();
        let ncols = self.index();
        Frame { nrows, ncols }
    }

    // The next list, in the first places of the room for it.
    fn read<'b, T: Recorded>(&mut self, room: &'b mut [T]) -> &'b mut [T] {
        let used = places(self.numeral(), room.len());
        for place in &mut room[..used] {
            *place = T::read(self);
        }
        &mut room[..used]
    }

    // The same list, to be read alone: a call is handed it without a loan of its own.
    fn list<'b, T: Recorded>(&mut self, room: &'b mut [T]) -> &'b [T] {
        let list = self.read(room);
        &list[..]
    }
}

// Recorded blocks: `six` tells their width, as the C interface has it.
#[derive(Clone, Copy)]
struct Blocks<'a> {
    nrows: usize,
    ncols: usize,
    six: bool,
    row_ptr: &'a [u32],
    col_idx: &'a [u32],
    values: &'a [f64],
}

fn number(n: u64) {
    io::write_all(1, b" ");
    io::print_decimal(1, n);
}

fn size(n: usize) {
    number(n as u64);
}

fn truth(b: bool) {
    number(u64::from(b));
}

// A float's bits, and one pattern for every NaN: in decimal, where plots and trial print hexadecimal.
fn float(x: f64) {
    if x == x {
        number(f64::to_bits(x));
    } else {
        number(9221120237041090560);
    }
}

fn end() {
    io::write_all(1, b"\n");
}

// A refusal's number, expected and actual.
fn refusal(n: u32, expected: usize, actual: usize) {
    io::print_decimal(1, n as u64);
    size(expected);
    size(actual);
}

fn refused(e: HybitError) {
    refusal(e.number(), e.expected(), e.actual());
}

fn verdict(r: DenimraspVerdict) {
    refusal(r.number, r.expected, r.actual);
}

fn count(r: DenimraspCount) {
    refusal(r.number, r.expected, r.actual);
    size(r.count);
}

fn answer(r: DenimraspBool) {
    refusal(r.number, r.expected, r.actual);
    truth(r.is);
}

fn selection(r: DenimraspSelect) {
    refusal(r.number, r.expected, r.actual);
    truth(r.found);
    size(r.column);
}

fn part(r: DenimraspPart) {
    refusal(r.number, r.expected, r.actual);
    size(r.start);
    size(r.end);
}

fn built(r: DenimraspTopology) {
    refusal(r.number, r.expected, r.actual);
    size(r.words);
    size(r.structural_nnz);
}

fn word_figures(r: DenimraspTopologyStats) {
    refusal(r.number, r.expected, r.actual);
    size(r.nrows);
    size(r.ncols);
    size(r.structural_nnz);
    size(r.nonempty_words);
    size(r.metadata_bytes);
}

fn store_figures(r: DenimraspStoreStats) {
    refusal(r.number, r.expected, r.actual);
    size(r.nrows);
    size(r.ncols);
    size(r.structural_nnz);
    size(r.topology_metadata_bytes);
    size(r.value_row_ptr_bytes);
    size(r.packed_value_bytes);
}

fn dot(r: DenimraspDot) {
    refusal(r.number, r.expected, r.actual);
    float(r.sum);
    size(r.candidate_products);
    size(r.executed_products);
    size(r.skipped_products);
    size(r.topology_words);
    size(r.active_words);
}

fn totals(r: DenimraspTotals) {
    refusal(r.number, r.expected, r.actual);
    size(r.candidate_products);
    size(r.executed_products);
    size(r.skipped_products);
    size(r.topology_words);
    size(r.active_words);
}

fn tiles_built(r: DenimraspTiles) {
    refusal(r.number, r.expected, r.actual);
    size(r.tiles);
    size(r.value_slots);
    size(r.matrix_nnz);
}

fn tile_figures(r: DenimraspTileStats) {
    refusal(r.number, r.expected, r.actual);
    size(r.nrows);
    size(r.ncols);
    size(r.matrix_nnz);
    size(r.tiles);
    size(r.sparse_tiles);
    size(r.bitmap_tiles);
    size(r.dense_tiles);
    size(r.value_slots);
    size(r.metadata_bytes);
}

fn restriction(r: DenimraspRestriction) {
    refusal(r.number, r.expected, r.actual);
    size(r.nrows);
    size(r.ncols);
    size(r.source_nnz);
    size(r.retained_nnz);
}

fn region(r: DenimraspRegion) {
    refusal(r.number, r.expected, r.actual);
    size(r.global_size);
    size(r.local_nodes);
    size(r.local_nnz);
    size(r.source_row_nnz);
}

fn blocks_built(r: DenimraspBlocks) {
    refusal(r.number, r.expected, r.actual);
    size(r.nrows);
    size(r.ncols);
    size(r.block_rows);
    size(r.unique_blocks);
    size(r.dense_value_slots);
    size(r.structural_slots);
    size(r.valid_dense_slots);
}

fn fraction(r: DenimraspRatio) {
    refusal(r.number, r.expected, r.actual);
    float(r.ratio);
}

// A list: how many elements, and each.
fn show<T: Recorded>(list: &[T]) {
    size(list.len());
    for element in list {
        element.show();
    }
}

// A part of a lent list, or why there is none.
fn show_part<T: Recorded>(part: Result<&[T], HybitError>) {
    match part {
        Ok(list) => {
            refusal(0, 0, 0);
            show(list);
        }
        Err(e) => {
            refused(e);
            size(0);
        }
    }
}

// The three lists of words, of a plot list or of blocks.
fn show_three<A: Recorded, B: Recorded, C: Recorded>(first: &[A], second: &[B], third: &[C]) {
    show(first);
    show(second);
    show(third);
}

// The calls that are handed a mask first. A record is read once, by the function of all calls that begin with it: the time to prove
// a function goes by its statements times its locals, and each list that it reads costs it five of either.
fn mask_calls(call: u64, input: &mut Input) {
    let mut words_room = [0u64; MASK_ROOM];
    let len = input.index();
    let words = input.read(&mut words_room);
    match call {
        4 | 6 | 7 | 9 | 10 | 11 => mask_change(call, input, len, words),
        _ => mask_read(call, input, DofMask { len, words }),
    }
}

// The calls that leave the mask as it is.
fn mask_read(call: u64, input: &mut Input, mask: DofMask) {
    match call {
        1 | 240 => mask_place(call, input.index(), mask),
        8 => mask_indices(input, mask),
        12 => mask_intersects(input, mask),
        _ => mask_question(call, mask),
    }
}

fn mask_question(call: u64, mask: DofMask) {
    match call {
        0 => verdict(denimrasp::denimrasp_mask_check(mask.len, mask.words)),
        2 => count(denimrasp::denimrasp_mask_count_ones(mask.len, mask.words)),
        _ => answer(denimrasp::denimrasp_mask_is_empty(mask.len, mask.words)),
    }
}

fn mask_place(call: u64, index: usize, mask: DofMask) {
    if call == 1 {
        answer(denimrasp::denimrasp_mask_contains(mask.len, mask.words, index));
    } else {
        refusal(0, 0, 0);
        truth(mask.is_member(index));
    }
}

// The words are written: they stay apart, as the C interface has them.
fn mask_change(call: u64, input: &mut Input, len: usize, words: &mut [u64]) {
    let r = mask_changed(call, input, len, words);
    verdict(r);
    show(words);
}

// The words are written: they stay apart, as the C interface has them.
fn mask_changed(call: u64, input: &mut Input, len: usize, words: &mut [u64]) -> DenimraspVerdict {
    match call {
        4 => denimrasp::denimrasp_mask_new(len, words),
        6 => mask_set(input, len, words),
        7 => mask_or_word(input, len, words),
        _ => mask_assign(call, input, len, words),
    }
}

// The words are written: they stay apart, as the C interface has them.
fn mask_set(input: &mut Input, len: usize, words: &mut [u64]) -> DenimraspVerdict {
    let index = input.index();
    let value = input.numeral() != 0;
    denimrasp::denimrasp_mask_set(len, words, index, value)
}

// The words are written: they stay apart, as the C interface has them.
fn mask_or_word(input: &mut Input, len: usize, words: &mut [u64]) -> DenimraspVerdict {
    let word_index = input.index();
    let bits = input.numeral();
    denimrasp::denimrasp_mask_or_word(len, words, word_index, bits)
}

fn mask_indices(input: &mut Input, mask: DofMask) {
    let mut out_room = [0usize; ROOM];
    let out = input.read(&mut out_room);
    count(denimrasp::denimrasp_mask_indices(mask.len, mask.words, out));
    show(out);
}

fn mask_intersects(input: &mut Input, mask: DofMask) {
    let mut other_room = [0u64; MASK_ROOM];
    let other_len = input.index();
    let other = input.list(&mut other_room);
    answer(denimrasp::denimrasp_mask_intersects(mask.len, mask.words, other_len, other));
}

// The mask changed by a second one.
// The words are written: they stay apart, as the C interface has them.
fn mask_assign(call: u64, input: &mut Input, len: usize, words: &mut [u64]) -> DenimraspVerdict {
    let mut other_room = [0u64; MASK_ROOM];
    let other_len = input.index();
    let other = input.list(&mut other_room);
    mask_combined(call, len, words, other_len, other)
}

// The words are written: they stay apart, as the C interface has them.
fn mask_combined(
    call: u64,
    len: usize,
    words: &mut [u64],
    other_len: usize,
    other: &[u64],
) -> DenimraspVerdict {
    match call {
        9 => denimrasp::denimrasp_mask_union_assign(len, words, other_len, other),
        10 => denimrasp::denimrasp_mask_intersect_assign(len, words, other_len, other),
        _ => denimrasp::denimrasp_mask_and_not_assign(len, words, other_len, other),
    }
}

fn mask_from_indices(input: &mut Input) {
    let mut indices_room = [0usize; ROOM];
    let mut words_room = [0u64; MASK_ROOM];
    let len = input.index();
    let indices = input.read(&mut indices_room);
    let words = input.read(&mut words_room);
    let r = denimrasp::denimrasp_mask_from_indices(len, indices, words);
    verdict(r);
    show(words);
}

// The calls that are handed a plot list first.
fn csr32_calls(call: u64, input: &mut Input) {
    let mut row_ptr_room = [0u32; ROOM];
    let mut col_idx_room = [0u32; ROOM];
    let mut values_room = [0.0f64; ROOM];
    let f = input.frame();
    let row_ptr = input.list(&mut row_ptr_room);
    let col_idx = input.list(&mut col_idx_room);
    let values = input.list(&mut values_room);
    csr32_call(
        call,
        input,
        Csr32Matrix {
            nrows: f.nrows,
            ncols: f.ncols,
            row_ptr,
            col_idx,
            values,
        },
    );
}

fn csr32_call(call: u64, input: &mut Input, csr: Csr32Matrix) {
    match call {
        14 => csr32_apply(input, csr),
        18 => topology_from_csr32(input, csr),
        32 => metadata_first_from_csr32(input, csr),
        51 => abtm_from_csr32(input, csr),
        60 | 64 => csr32_masked(call, input, csr),
        69 | 260 => csr32_blocks(call, input, csr),
        _ => csr32_question(call, csr),
    }
}

fn csr32_question(call: u64, csr: Csr32Matrix) {
    match call {
        13 => verdict(denimrasp::denimrasp_csr32_check(
            csr.nrows,
            csr.ncols,
            csr.row_ptr,
            csr.col_idx,
            csr.values,
        )),
        15 => count(denimrasp::denimrasp_csr32_metadata_bytes(
            csr.nrows,
            csr.ncols,
            csr.row_ptr,
            csr.col_idx,
            csr.values,
        )),
        16 => count(denimrasp::denimrasp_csr32_storage_bytes(
            csr.nrows,
            csr.ncols,
            csr.row_ptr,
            csr.col_idx,
            csr.values,
        )),
        31 => verdict(denimrasp::denimrasp_metadata_first_check_merge(
            csr.nrows,
            csr.ncols,
            csr.row_ptr,
            csr.col_idx,
            csr.values,
        )),
        _ => count(dense_block_counts::structural_slots(csr).into()),
    }
}

fn csr32_apply(input: &mut Input, csr: Csr32Matrix) {
    let mut x_room = [0.0f64; ROOM];
    let mut y_room = [0.0f64; ROOM];
    let x = input.list(&mut x_room);
    let y = input.read(&mut y_room);
    verdict(denimrasp::denimrasp_csr32_apply(
        csr.nrows,
        csr.ncols,
        csr.row_ptr,
        csr.col_idx,
        csr.values,
        x,
        y,
    ));
    show(y);
}

fn topology_from_csr32(input: &mut Input, csr: Csr32Matrix) {
    let mut ptr_room = [0u32; ROOM];
    let mut words_room = [0u32; ROOM];
    let mut masks_room = [0u64; ROOM];
    let ptr = input.read(&mut ptr_room);
    let words = input.read(&mut words_room);
    let masks = input.read(&mut masks_room);
    let r = denimrasp::denimrasp_topology_from_csr32(
        csr.nrows,
        csr.ncols,
        csr.row_ptr,
        csr.col_idx,
        csr.values,
        ptr,
        words,
        masks,
    );
    built(r);
    show_three(ptr, words, masks);
}

fn metadata_first_from_csr32(input: &mut Input, csr: Csr32Matrix) {
    let mut ptr_room = [0u32; ROOM];
    let mut words_room = [0u32; ROOM];
    let mut masks_room = [0u64; ROOM];
    let mut value_ptr_room = [0u32; ROOM];
    let mut packed_room = [0.0f64; ROOM];
    let ptr = input.read(&mut ptr_room);
    let words = input.read(&mut words_room);
    let masks = input.read(&mut masks_room);
    let value_ptr = input.read(&mut value_ptr_room);
    let packed = input.read(&mut packed_room);
    pack(csr, ptr, words, masks, value_ptr, packed);
}

fn pack(
    csr: Csr32Matrix,
    ptr: &mut [u32],
    words: &mut [u32],
    masks: &mut [u64],
    value_ptr: &mut [u32],
    packed: &mut [f64],
) {
    built(denimrasp::denimrasp_metadata_first_from_csr32(
        csr.nrows,
        csr.ncols,
        csr.row_ptr,
        csr.col_idx,
        csr.values,
        ptr,
        words,
        masks,
        value_ptr,
        packed,
    ));
    show_three(ptr, words, masks);
    show(value_ptr);
    show(packed);
}

fn abtm_from_csr32(input: &mut Input, csr: Csr32Matrix) {
    let mut ptr_room = [0u32; ROOM];
    let mut masks_room = [0u64; ROOM];
    let mut offsets_room = [0u32; ROOM];
    let mut metas_room = [0u32; ROOM];
    let mut slots_room = [0.0f64; ROOM];
    let thresholds = thresholds(input);
    let ptr = input.read(&mut ptr_room);
    let masks = input.read(&mut masks_room);
    let offsets = input.read(&mut offsets_room);
    let metas = input.read(&mut metas_room);
    let slots = input.read(&mut slots_room);
    tile(csr, thresholds, ptr, masks, offsets, metas, slots);
}

fn tile(
    csr: Csr32Matrix,
    thresholds: AbtmConfig,
    ptr: &mut [u32],
    masks: &mut [u64],
    offsets: &mut [u32],
    metas: &mut [u32],
    slots: &mut [f64],
) {
    tiles_built(denimrasp::denimrasp_abtm_from_csr32(
        csr.nrows,
        csr.ncols,
        csr.row_ptr,
        csr.col_idx,
        csr.values,
        thresholds.sparse_max_nnz,
        thresholds.dense_min_nnz,
        ptr,
        masks,
        offsets,
        metas,
        slots,
    ));
    show(ptr);
    show(masks);
    show_three(offsets, metas, slots);
}

// A plot list cut to the members of a mask.
fn csr32_masked(call: u64, input: &mut Input, csr: Csr32Matrix) {
    let mut mask_room = [0u64; ROOM];
    let len = input.index();
    let mask = input.list(&mut mask_room);
    if call == 60 {
        restricted_from_csr32(input, csr, DofMask { len, words: mask });
    } else {
        local_from_csr32(input, csr, DofMask { len, words: mask });
    }
}

fn restricted_from_csr32(input: &mut Input, csr: Csr32Matrix, mask: DofMask) {
    let mut out_row_ptr_room = [0u32; ROOM];
    let mut out_col_idx_room = [0u32; ROOM];
    let mut out_values_room = [0.0f64; ROOM];
    let out_row_ptr = input.read(&mut out_row_ptr_room);
    let out_col_idx = input.read(&mut out_col_idx_room);
    let out_values = input.read(&mut out_values_room);
    restriction(denimrasp::denimrasp_restricted_from_csr32(
        csr.nrows,
        csr.ncols,
        csr.row_ptr,
        csr.col_idx,
        csr.values,
        mask.len,
        mask.words,
        out_row_ptr,
        out_col_idx,
        out_values,
    ));
    show_three(out_row_ptr, out_col_idx, out_values);
}

fn local_from_csr32(input: &mut Input, csr: Csr32Matrix, mask: DofMask) {
    let mut members_room = [0u32; ROOM];
    let mut out_row_ptr_room = [0u32; ROOM];
    let mut out_col_idx_room = [0u32; ROOM];
    let mut out_values_room = [0.0f64; ROOM];
    let members = input.read(&mut members_room);
    let out_row_ptr = input.read(&mut out_row_ptr_room);
    let out_col_idx = input.read(&mut out_col_idx_room);
    let out_values = input.read(&mut out_values_room);
    gather_region(csr, mask, members, out_row_ptr, out_col_idx, out_values);
}

fn gather_region(
    csr: Csr32Matrix,
    mask: DofMask,
    members: &mut [u32],
    out_row_ptr: &mut [u32],
    out_col_idx: &mut [u32],
    out_values: &mut [f64],
) {
    region(denimrasp::denimrasp_local_from_csr32(
        csr.nrows,
        csr.ncols,
        csr.row_ptr,
        csr.col_idx,
        csr.values,
        mask.len,
        mask.words,
        members,
        out_row_ptr,
        out_col_idx,
        out_values,
    ));
    show(members);
    show_three(out_row_ptr, out_col_idx, out_values);
}

// The builds of blocks, and of their places alone.
fn csr32_blocks(call: u64, input: &mut Input, csr: Csr32Matrix) {
    let six = input.numeral() != 0;
    if call == 69 {
        dense_block_from_csr32(input, csr, six);
    } else {
        block_columns(input, csr, six);
    }
}

fn dense_block_from_csr32(input: &mut Input, csr: Csr32Matrix, six: bool) {
    let mut out_row_ptr_room = [0u32; ROOM];
    let mut out_col_idx_room = [0u32; ROOM];
    let mut out_values_room = [0.0f64; ROOM];
    let out_row_ptr = input.read(&mut out_row_ptr_room);
    let out_col_idx = input.read(&mut out_col_idx_room);
    let out_values = input.read(&mut out_values_room);
    blocks_built(denimrasp::denimrasp_dense_block_from_csr32(
        csr.nrows,
        csr.ncols,
        csr.row_ptr,
        csr.col_idx,
        csr.values,
        six,
        out_row_ptr,
        out_col_idx,
        out_values,
    ));
    show_three(out_row_ptr, out_col_idx, out_values);
}

fn block_columns(input: &mut Input, csr: Csr32Matrix, six: bool) {
    let mut out_row_ptr_room = [0u32; ROOM];
    let mut out_col_idx_room = [0u32; ROOM];
    let out_row_ptr = input.read(&mut out_row_ptr_room);
    let out_col_idx = input.read(&mut out_col_idx_room);
    count(dense_block_columns::from_csr32(
        csr,
        denimrasp_answers::block_size(six),
        out_row_ptr,
        out_col_idx,
    )
    .into());
    show(out_row_ptr);
    show(out_col_idx);
}

// The calls that are handed words first.
// The total of words, which call 245 alone lacks.
fn total(call: u64, input: &mut Input) -> usize {
    if call == 245 {
        return 0;
    }
    input.index()
}

fn words_calls(call: u64, input: &mut Input) {
    let mut ptr_room = [0u32; ROOM];
    let mut words_room = [0u32; ROOM];
    let mut masks_room = [0u64; ROOM];
    let f = input.frame();
    let topology = AbtmTopology {
        nrows: f.nrows,
        ncols: f.ncols,
        row_word_ptr: input.list(&mut ptr_room),
        word_indices: input.list(&mut words_room),
        masks: input.list(&mut masks_room),
        structural_nnz: total(call, input),
    };
    words_call(call, input, topology);
}

fn words_call(call: u64, input: &mut Input, topology: AbtmTopology) {
    match call {
        17 | 25 | 245 => topology_question(call, topology),
        19 | 20 | 21 | 246 | 247 => topology_row(call, input, topology),
        22 | 23 | 24 => topology_row_place(call, input, topology),
        26 | 27 | 28 | 29 => topology_operation(call, input, topology),
        _ => store_calls(call, input, topology),
    }
}

fn topology_question(call: u64, topology: AbtmTopology) {
    match call {
        17 => verdict(denimrasp::denimrasp_topology_check(
            topology.nrows,
            topology.ncols,
            topology.row_word_ptr,
            topology.word_indices,
            topology.masks,
            topology.structural_nnz,
        )),
        25 => word_figures(denimrasp::denimrasp_topology_stats(
            topology.nrows,
            topology.ncols,
            topology.row_word_ptr,
            topology.word_indices,
            topology.masks,
            topology.structural_nnz,
        )),
        _ => verdict(topology.check_lists().into()),
    }
}

// The questions to a row.
fn topology_row(call: u64, input: &mut Input, topology: AbtmTopology) {
    let row = input.index();
    match call {
        19 => part(denimrasp::denimrasp_topology_row_words(
            topology.nrows,
            topology.ncols,
            topology.row_word_ptr,
            topology.word_indices,
            topology.masks,
            topology.structural_nnz,
            row,
        )),
        20 => count(denimrasp::denimrasp_topology_row_nonempty_words(
            topology.nrows,
            topology.ncols,
            topology.row_word_ptr,
            topology.word_indices,
            topology.masks,
            topology.structural_nnz,
            row,
        )),
        21 => count(denimrasp::denimrasp_topology_row_popcount(
            topology.nrows,
            topology.ncols,
            topology.row_word_ptr,
            topology.word_indices,
            topology.masks,
            topology.structural_nnz,
            row,
        )),
        _ => topology_row_part(call, topology, row),
    }
}

// The row's part of the word numbers or of the masks.
fn topology_row_part(call: u64, topology: AbtmTopology, row: usize) {
    if call == 246 {
        show_part(topology_rows::row_word_indices(topology, row));
    } else {
        show_part(topology_rows::row_masks(topology, row));
    }
}

// The questions to a row at a column or an ordinal.
fn topology_row_place(call: u64, input: &mut Input, topology: AbtmTopology) {
    let row = input.index();
    let place = input.index();
    match call {
        22 => answer(denimrasp::denimrasp_topology_row_contains(
            topology.nrows,
            topology.ncols,
            topology.row_word_ptr,
            topology.word_indices,
            topology.masks,
            topology.structural_nnz,
            row,
            place,
        )),
        23 => count(denimrasp::denimrasp_topology_row_rank(
            topology.nrows,
            topology.ncols,
            topology.row_word_ptr,
            topology.word_indices,
            topology.masks,
            topology.structural_nnz,
            row,
            place,
        )),
        _ => selection(denimrasp::denimrasp_topology_row_select(
            topology.nrows,
            topology.ncols,
            topology.row_word_ptr,
            topology.word_indices,
            topology.masks,
            topology.structural_nnz,
            row,
            place,
        )),
    }
}

// The calls that are handed words and a second record of words.
fn topology_operation(call: u64, input: &mut Input, topology: AbtmTopology) {
    let mut ptr_room = [0u32; ROOM];
    let mut words_room = [0u32; ROOM];
    let mut masks_room = [0u64; ROOM];
    let g = input.frame();
    let other_ptr = input.list(&mut ptr_room);
    let other_words = input.list(&mut words_room);
    let other_masks = input.list(&mut masks_room);
    operation_to(
        call,
        input,
        topology,
        g,
        other_ptr,
        other_words,
        other_masks,
    );
}

// The second record's total, and the words that are lent for the result.
fn operation_to(
    call: u64,
    input: &mut Input,
    topology: AbtmTopology,
    g: Frame,
    other_ptr: &[u32],
    other_words: &[u32],
    other_masks: &[u64],
) {
    let mut ptr_room = [0u32; ROOM];
    let mut words_room = [0u32; ROOM];
    let mut masks_room = [0u64; ROOM];
    let other_nnz = input.index();
    let out_ptr = input.read(&mut ptr_room);
    let out_words = input.read(&mut words_room);
    let out_masks = input.read(&mut masks_room);
    let r = operation(
        call,
        topology,
        AbtmTopology {
            nrows: g.nrows,
            ncols: g.ncols,
            row_word_ptr: other_ptr,
            word_indices: other_words,
            masks: other_masks,
            structural_nnz: other_nnz,
        },
        out_ptr,
        out_words,
        out_masks,
    );
    built(r);
    show_three(out_ptr, out_words, out_masks);
}

// The set operation of that number.
fn operation(
    call: u64,
    topology: AbtmTopology,
    other: AbtmTopology,
    out_ptr: &mut [u32],
    out_words: &mut [u32],
    out_masks: &mut [u64],
) -> DenimraspTopology {
    match call {
        26 => denimrasp::denimrasp_topology_union(
            topology.nrows,
            topology.ncols,
            topology.row_word_ptr,
            topology.word_indices,
            topology.masks,
            topology.structural_nnz,
            other.nrows,
            other.ncols,
            other.row_word_ptr,
            other.word_indices,
            other.masks,
            other.structural_nnz,
            out_ptr,
            out_words,
            out_masks,
        ),
        27 => denimrasp::denimrasp_topology_intersection(
            topology.nrows,
            topology.ncols,
            topology.row_word_ptr,
            topology.word_indices,
            topology.masks,
            topology.structural_nnz,
            other.nrows,
            other.ncols,
            other.row_word_ptr,
            other.word_indices,
            other.masks,
            other.structural_nnz,
            out_ptr,
            out_words,
            out_masks,
        ),
        28 => denimrasp::denimrasp_topology_and_not(
            topology.nrows,
            topology.ncols,
            topology.row_word_ptr,
            topology.word_indices,
            topology.masks,
            topology.structural_nnz,
            other.nrows,
            other.ncols,
            other.row_word_ptr,
            other.word_indices,
            other.masks,
            other.structural_nnz,
            out_ptr,
            out_words,
            out_masks,
        ),
        _ => denimrasp::denimrasp_topology_xor(
            topology.nrows,
            topology.ncols,
            topology.row_word_ptr,
            topology.word_indices,
            topology.masks,
            topology.structural_nnz,
            other.nrows,
            other.ncols,
            other.row_word_ptr,
            other.word_indices,
            other.masks,
            other.structural_nnz,
            out_ptr,
            out_words,
            out_masks,
        ),
    }
}

// The calls that are handed a store first.
fn store_calls(call: u64, input: &mut Input, topology: AbtmTopology) {
    let mut value_ptr_room = [0u32; ROOM];
    let mut values_room = [0.0f64; ROOM];
    let value_ptr = input.list(&mut value_ptr_room);
    let vals = input.list(&mut values_room);
    store_call(
        call,
        input,
        AbtmMetadataFirstMatrix {
            topology,
            row_value_ptr: value_ptr,
            values: vals,
        },
    );
}

fn store_call(call: u64, input: &mut Input, packed: AbtmMetadataFirstMatrix) {
    if call == 36 {
        sparse_dot_rows(input, packed);
    } else if call == 30 || call == 34 {
        store_question(call, packed);
    } else {
        store_row(call, input, packed);
    }
}

fn store_question(call: u64, packed: AbtmMetadataFirstMatrix) {
    if call == 30 {
        verdict(denimrasp::denimrasp_metadata_first_check(
            packed.topology.nrows,
            packed.topology.ncols,
            packed.topology.row_word_ptr,
            packed.topology.word_indices,
            packed.topology.masks,
            packed.topology.structural_nnz,
            packed.row_value_ptr,
            packed.values,
        ));
    } else {
        store_figures(denimrasp::denimrasp_metadata_first_stats(
            packed.topology.nrows,
            packed.topology.ncols,
            packed.topology.row_word_ptr,
            packed.topology.word_indices,
            packed.topology.masks,
            packed.topology.structural_nnz,
            packed.row_value_ptr,
            packed.values,
        ));
    }
}

// The questions to a row of a store.
fn store_row(call: u64, input: &mut Input, packed: AbtmMetadataFirstMatrix) {
    let row = input.index();
    if call == 33 {
        part(denimrasp::denimrasp_metadata_first_row_values(
            packed.topology.nrows,
            packed.topology.ncols,
            packed.topology.row_word_ptr,
            packed.topology.word_indices,
            packed.topology.masks,
            packed.topology.structural_nnz,
            packed.row_value_ptr,
            packed.values,
            row,
        ));
    } else if call == 35 {
        sparse_dot_row(input, packed, row);
    } else {
        store_row_part(packed, row);
    }
}

fn store_row_part(packed: AbtmMetadataFirstMatrix, row: usize) {
    show_part(packed.row_values(row));
}

fn sparse_dot_row(input: &mut Input, packed: AbtmMetadataFirstMatrix, row: usize) {
    let mut mask_room = [0u64; ROOM];
    let mut x_room = [0.0f64; ROOM];
    let len = input.index();
    let mask = input.list(&mut mask_room);
    let x = input.list(&mut x_room);
    dot(denimrasp::denimrasp_metadata_first_sparse_dot_row(
        packed.topology.nrows,
        packed.topology.ncols,
        packed.topology.row_word_ptr,
        packed.topology.word_indices,
        packed.topology.masks,
        packed.topology.structural_nnz,
        packed.row_value_ptr,
        packed.values,
        row,
        len,
        mask,
        x,
    ));
}

fn sparse_dot_rows(input: &mut Input, packed: AbtmMetadataFirstMatrix) {
    let mut mask_room = [0u64; ROOM];
    let mut x_room = [0.0f64; ROOM];
    let len = input.index();
    let mask = input.list(&mut mask_room);
    let x = input.list(&mut x_room);
    dot_rows_to(input, packed, DofMask { len, words: mask }, x);
}

fn dot_rows_to(input: &mut Input, packed: AbtmMetadataFirstMatrix, mask: DofMask, x: &[f64]) {
    let mut sums_room = [0.0f64; ROOM];
    let mut executed_room = [0u32; ROOM];
    let sums = input.read(&mut sums_room);
    let executed = input.read(&mut executed_room);
    verdict(denimrasp::denimrasp_metadata_first_sparse_dot_rows(
        packed.topology.nrows,
        packed.topology.ncols,
        packed.topology.row_word_ptr,
        packed.topology.word_indices,
        packed.topology.masks,
        packed.topology.structural_nnz,
        packed.row_value_ptr,
        packed.values,
        mask.len,
        mask.words,
        x,
        sums,
        executed,
    ));
    show(sums);
    show(executed);
}

// The calls that are handed tiles first.
fn tile_calls(call: u64, input: &mut Input) {
    let mut ptr_room = [0u32; ROOM];
    let mut masks_room = [0u64; ROOM];
    let mut offsets_room = [0u32; ROOM];
    let f = input.frame();
    let ptr = input.list(&mut ptr_room);
    let masks = input.list(&mut masks_room);
    let offsets = input.list(&mut offsets_room);
    tile_slots(call, input, f, ptr, masks, offsets);
}

// The metas, the values and the total of the tiles.
fn tile_slots(call: u64, input: &mut Input, f: Frame, ptr: &[u32], masks: &[u64], offsets: &[u32]) {
    let mut metas_room = [0u32; ROOM];
    let mut values_room = [0.0f64; ROOM];
    let metas = input.list(&mut metas_room);
    let values = input.list(&mut values_room);
    let nnz = input.index();
    tile_call(
        call,
        input,
        AbtmMatrix {
            nrows: f.nrows,
            ncols: f.ncols,
            row_tile_ptr: ptr,
            masks,
            value_offsets: offsets,
            metas,
            values,
            matrix_nnz: nnz,
        },
    );
}

fn tile_call(call: u64, input: &mut Input, tiles: AbtmMatrix) {
    match call {
        50 | 55 => tile_question(call, tiles),
        58 => abtm_apply(input, tiles),
        59 | 61 => tiles_masked(call, input, tiles),
        _ => tile_row(call, tiles, input.index()),
    }
}

fn tile_question(call: u64, tiles: AbtmMatrix) {
    if call == 50 {
        verdict(denimrasp::denimrasp_abtm_check(
            tiles.nrows,
            tiles.ncols,
            tiles.row_tile_ptr,
            tiles.masks,
            tiles.value_offsets,
            tiles.metas,
            tiles.values,
            tiles.matrix_nnz,
        ));
    } else {
        tile_figures(denimrasp::denimrasp_abtm_stats(
            tiles.nrows,
            tiles.ncols,
            tiles.row_tile_ptr,
            tiles.masks,
            tiles.value_offsets,
            tiles.metas,
            tiles.values,
            tiles.matrix_nnz,
        ));
    }
}

// The questions to a row of tiles.
fn tile_row(call: u64, tiles: AbtmMatrix, row: usize) {
    if call == 54 {
        part(denimrasp::denimrasp_abtm_row_tiles(
            tiles.nrows,
            tiles.ncols,
            tiles.row_tile_ptr,
            tiles.masks,
            tiles.value_offsets,
            tiles.metas,
            tiles.values,
            tiles.matrix_nnz,
            row,
        ));
    } else if call == 251 {
        tile_masks(tiles, row);
    } else {
        tile_part(call, tiles, row);
    }
}

fn tile_masks(tiles: AbtmMatrix, row: usize) {
    show_part(abtm_rows::row_tile_masks(tiles, row));
}

// The row's part of the offsets or of the metas.
fn tile_part(call: u64, tiles: AbtmMatrix, row: usize) {
    if call == 252 {
        show_part(abtm_rows::row_tile_value_offsets(tiles, row));
    } else {
        show_part(abtm_rows::row_tile_metas(tiles, row));
    }
}

fn abtm_apply(input: &mut Input, tiles: AbtmMatrix) {
    let mut x_room = [0.0f64; ROOM];
    let mut y_room = [0.0f64; ROOM];
    let x = input.list(&mut x_room);
    let y = input.read(&mut y_room);
    verdict(denimrasp::denimrasp_abtm_apply(
        tiles.nrows,
        tiles.ncols,
        tiles.row_tile_ptr,
        tiles.masks,
        tiles.value_offsets,
        tiles.metas,
        tiles.values,
        tiles.matrix_nnz,
        x,
        y,
    ));
    show(y);
}

// The calls that are handed tiles and a mask.
fn tiles_masked(call: u64, input: &mut Input, tiles: AbtmMatrix) {
    let mut mask_room = [0u64; ROOM];
    let len = input.index();
    let mask = input.list(&mut mask_room);
    if call == 59 {
        abtm_expand(input, tiles, DofMask { len, words: mask });
    } else {
        restricted_from_abtm(input, tiles, DofMask { len, words: mask });
    }
}

fn abtm_expand(input: &mut Input, tiles: AbtmMatrix, mask: DofMask) {
    let mut out_room = [0u64; ROOM];
    let out = input.read(&mut out_room);
    verdict(denimrasp::denimrasp_abtm_expand_mask_one_hop(
        tiles.nrows,
        tiles.ncols,
        tiles.row_tile_ptr,
        tiles.masks,
        tiles.value_offsets,
        tiles.metas,
        tiles.values,
        tiles.matrix_nnz,
        mask.len,
        mask.words,
        out,
    ));
    show(out);
}

fn restricted_from_abtm(input: &mut Input, tiles: AbtmMatrix, mask: DofMask) {
    let mut out_row_ptr_room = [0u32; ROOM];
    let mut out_col_idx_room = [0u32; ROOM];
    let mut out_values_room = [0.0f64; ROOM];
    let out_row_ptr = input.read(&mut out_row_ptr_room);
    let out_col_idx = input.read(&mut out_col_idx_room);
    let out_values = input.read(&mut out_values_room);
    restriction(denimrasp::denimrasp_restricted_from_abtm(
        tiles.nrows,
        tiles.ncols,
        tiles.row_tile_ptr,
        tiles.masks,
        tiles.value_offsets,
        tiles.metas,
        tiles.values,
        tiles.matrix_nnz,
        mask.len,
        mask.words,
        out_row_ptr,
        out_col_idx,
        out_values,
    ));
    show_three(out_row_ptr, out_col_idx, out_values);
}

// The calls that are handed blocks first.
fn block_calls(call: u64, input: &mut Input) {
    let mut row_ptr_room = [0u32; ROOM];
    let mut col_idx_room = [0u32; ROOM];
    let mut values_room = [0.0f64; ROOM];
    let f = input.frame();
    let six = input.numeral() != 0;
    let row_ptr = input.list(&mut row_ptr_room);
    let col_idx = input.list(&mut col_idx_room);
    let values = input.list(&mut values_room);
    block_call(
        call,
        input,
        Blocks {
            nrows: f.nrows,
            ncols: f.ncols,
            six,
            row_ptr,
            col_idx,
            values,
        },
    );
}

fn block_call(call: u64, input: &mut Input, blocks: Blocks) {
    if call == 71 {
        dense_block_apply(input, blocks);
    } else {
        dense_block_question(call, blocks);
    }
}

fn dense_block_question(call: u64, blocks: Blocks) {
    if call == 70 {
        verdict(denimrasp::denimrasp_dense_block_check(
            blocks.nrows,
            blocks.ncols,
            blocks.six,
            blocks.row_ptr,
            blocks.col_idx,
            blocks.values,
        ));
    } else {
        fraction(denimrasp::denimrasp_dense_block_fast_block_fraction(
            blocks.nrows,
            blocks.ncols,
            blocks.six,
            blocks.row_ptr,
            blocks.col_idx,
            blocks.values,
        ));
    }
}

fn dense_block_apply(input: &mut Input, blocks: Blocks) {
    let mut x_room = [0.0f64; ROOM];
    let mut y_room = [0.0f64; ROOM];
    let x = input.list(&mut x_room);
    let y = input.read(&mut y_room);
    verdict(denimrasp::denimrasp_dense_block_apply(
        blocks.nrows,
        blocks.ncols,
        blocks.six,
        blocks.row_ptr,
        blocks.col_idx,
        blocks.values,
        x,
        y,
    ));
    show(y);
}

fn local_check(input: &mut Input) {
    let mut members_room = [0u32; ROOM];
    let global_size = input.index();
    let members = input.list(&mut members_room);
    verdict(denimrasp::denimrasp_local_check(global_size, members));
}

fn local_gather_input(input: &mut Input) {
    let mut members_room = [0u32; ROOM];
    let mut global_room = [0.0f64; ROOM];
    let mut local_room = [0.0f64; ROOM];
    let global_size = input.index();
    let members = input.list(&mut members_room);
    let global = input.list(&mut global_room);
    let local = input.read(&mut local_room);
    let r = denimrasp::denimrasp_local_gather_input(global_size, members, global, local);
    verdict(r);
    show(local);
}

// The calls that are handed numbers alone.

// What a word or a tile by value is asked for: a column or a count.
fn value_of(call: u64, n: u64) -> usize {
    match call {
        37 => denimrasp::denimrasp_word_base_col(hybit_core::narrow(n as usize)),
        38 => denimrasp::denimrasp_word_popcount(n),
        _ => denimrasp::denimrasp_abtm_tile_base_col(hybit_core::narrow(n as usize)),
    }
}

fn value(call: u64, input: &mut Input) {
    let n = input.numeral();
    refusal(0, 0, 0);
    size(value_of(call, n));
}

fn abtm_tile_kind(input: &mut Input) {
    let meta = hybit_core::narrow(input.index());
    count(denimrasp::denimrasp_abtm_tile_kind(meta));
}

// The questions to a word at an offset or an ordinal.
fn word_place(call: u64, input: &mut Input) {
    let mask = input.numeral();
    let n = input.index();
    match call {
        39 => {
            refusal(0, 0, 0);
            truth(denimrasp::denimrasp_word_contains_offset(mask, n));
        }
        40 => count(denimrasp::denimrasp_word_rank(mask, n)),
        _ => selection(denimrasp::denimrasp_word_select(mask, n)),
    }
}

fn ratio_of(call: u64, a: usize, b: usize) -> f64 {
    match call {
        42 => denimrasp::denimrasp_topology_average_word_nnz(a, b),
        43 => denimrasp::denimrasp_topology_word_fill_ratio(a, b),
        44 => denimrasp::denimrasp_topology_metadata_bytes_per_nnz(a, b),
        45 => denimrasp::denimrasp_metadata_first_pruning_ratio(a, b),
        46 => denimrasp::denimrasp_metadata_first_empty_word_ratio(a, b),
        56 => denimrasp::denimrasp_abtm_metadata_bytes_per_nnz(a, b),
        62 => denimrasp::denimrasp_restricted_retained_fraction(a, b),
        67 => denimrasp::denimrasp_local_boundary_pruning_ratio(a, b),
        73 => denimrasp::denimrasp_dense_block_block_fill(a, b),
        _ => denimrasp::denimrasp_dense_block_value_padding_ratio(a, b),
    }
}

// The ratios of two counts. Like word_call in its steps alone: that prints a word, this a float.
fn ratio(call: u64, input: &mut Input) {
    let a = input.index();
    let b = input.index();
    refusal(0, 0, 0);
    float(ratio_of(call, a, b));
}

fn bytes_of_two(call: u64, a: usize, b: usize) -> usize {
    match call {
        57 => denimrasp::denimrasp_abtm_total_estimated_bytes(a, b),
        68 => denimrasp::denimrasp_local_storage_bytes(a, b),
        _ => denimrasp::denimrasp_dense_block_metadata_bytes(a, b),
    }
}

fn bytes_of_three(call: u64, a: usize, b: usize, c: usize) -> usize {
    match call {
        47 => denimrasp::denimrasp_metadata_first_total_estimated_bytes(a, b, c),
        63 => denimrasp::denimrasp_restricted_storage_bytes(a, b, c),
        _ => denimrasp::denimrasp_dense_block_storage_bytes(a, b, c),
    }
}

// The bytes of two or three counts.
fn bytes(call: u64, input: &mut Input) {
    let a = input.index();
    let b = input.index();
    refusal(0, 0, 0);
    if call == 47 || call == 63 || call == 76 {
        let c = input.index();
        size(bytes_of_three(call, a, b, c));
    } else {
        size(bytes_of_two(call, a, b));
    }
}

// The counts of a row dot's report.
fn counts(input: &mut Input) -> AbtmProductPruningStats {
    let candidate_products = input.index();
    let executed_products = input.index();
    let skipped_products = input.index();
    let topology_words = input.index();
    let active_words = input.index();
    AbtmProductPruningStats {
        candidate_products,
        executed_products,
        skipped_products,
        topology_words,
        active_words,
    }
}

fn metadata_first_accumulate(input: &mut Input) {
    let a = counts(input);
    let b = counts(input);
    totals(denimrasp::denimrasp_metadata_first_accumulate(
        a.candidate_products,
        a.executed_products,
        a.skipped_products,
        a.topology_words,
        a.active_words,
        b.candidate_products,
        b.executed_products,
        b.skipped_products,
        b.topology_words,
        b.active_words,
    ));
}

fn thresholds(input: &mut Input) -> AbtmConfig {
    let sparse_max_nnz = input.byte();
    let dense_min_nnz = input.byte();
    AbtmConfig {
        sparse_max_nnz,
        dense_min_nnz,
    }
}

fn abtm_validate(input: &mut Input) {
    let t = thresholds(input);
    verdict(denimrasp::denimrasp_abtm_validate(t.sparse_max_nnz, t.dense_min_nnz));
}

// The calls from here on are those of the crates below that the C interface doesn't export.

// Document 01's refusal of a number; its expected and actual under 6 alone: a TryFrom of the number would not have them.
fn error_of(n: u64, expected: usize, actual: usize) -> HybitError {
    match n {
        1 => HybitError::SizeOverflow,
        2 => HybitError::BadFrame,
        3 => HybitError::OutsideColumn,
        4 => HybitError::NotFinite,
        5 => HybitError::BadMask,
        6 => HybitError::DimensionMismatch { expected, actual },
        7 => HybitError::NoSuchPlace,
        8 => HybitError::FramesDiffer,
        9 => HybitError::BadThresholds,
        10 => HybitError::NotSquare,
        11 => HybitError::BadWords,
        12 => HybitError::BadStore,
        _ => HybitError::ShortList,
    }
}

fn core_refusal(input: &mut Input) {
    let n = input.numeral();
    let expected = input.index();
    let actual = input.index();
    let e = error_of(n, expected, actual);
    refused(e);
    number(e.number() as u64);
    number(0);
}

fn core_sizes(input: &mut Input) {
    let nrows = input.index();
    let ncols = input.index();
    let left = input.index();
    let right = input.index();
    refusal(0, 0, 0);
    truth(hybit_core::sizes_fit(nrows, ncols, left, right));
    truth(hybit_core::dimension_fits(nrows));
    truth(hybit_core::entries_fit(left));
    size(hybit_core::MAX_DIMENSION);
    size(hybit_core::MAX_ENTRIES);
}

fn core_counts(input: &mut Input) {
    let part = input.numeral();
    let whole = input.numeral();
    refusal(0, 0, 0);
    float(hybit_core::count_as_f64(part));
    float(hybit_core::ratio(part, whole));
}

fn core_is_finite(input: &mut Input) {
    let x = float_of(input.numeral());
    refusal(0, 0, 0);
    truth(hybit_core::is_finite(x));
}

fn core_narrow(input: &mut Input) {
    let n = input.index();
    refusal(0, 0, 0);
    size(hybit_core::narrow(n) as usize);
}

fn core_saturating(input: &mut Input) {
    let a = input.index();
    let b = input.index();
    refusal(0, 0, 0);
    size(a.saturating_add(b));
    size(a.saturating_mul(b));
}

fn clear_from<T: Recorded>(input: &mut Input, room: &mut [T]) {
    let list = input.read(room);
    let from = input.index();
    lent::clear_from(list, from);
    refusal(0, 0, 0);
    show(list);
}

// A call of a word with an offset, or with a second word.
fn word_answer(call: u64, a: u64, b: u64) -> u64 {
    match call {
        220 => word::ones_below(a, b as usize) as u64,
        221 => word::lowest(a) as u64,
        222 => word::without_lowest(a),
        223 => word::with_bit(a, b as usize),
        224 => word::without_bit(a, b as usize),
        225 => word::trimmed(a, b as usize),
        226 => word::union(a, b),
        227 => word::intersection(a, b),
        228 => word::and_not(a, b),
        229 => word::xor(a, b),
        230 => word::combine(Operation::Union, a, b),
        231 => word::combine(Operation::Intersection, a, b),
        232 => word::combine(Operation::AndNot, a, b),
        _ => word::combine(Operation::Xor, a, b),
    }
}

fn word_call(call: u64, input: &mut Input) {
    let a = input.numeral();
    let b = input.numeral();
    refusal(0, 0, 0);
    number(word_answer(call, a, b));
}

fn csr32_pointers(input: &mut Input) {
    let mut row_ptr_room = [0u32; ROOM];
    let nrows = input.index();
    let row_ptr = input.list(&mut row_ptr_room);
    let left = input.index();
    let right = input.index();
    refusal(0, 0, 0);
    truth(csr32::pointers_hold(nrows, row_ptr, left));
    truth(csr32::lists_hold(nrows, row_ptr, left, right));
}

fn value_list(input: &mut Input) {
    let mut values_room = [0.0f64; ROOM];
    let values = input.list(&mut values_room);
    refusal(0, 0, 0);
    truth(csr32::all_finite(values));
    size(abtm_values::count_solid(values));
}

fn topology_count_bits(input: &mut Input) {
    let mut masks_room = [0u64; ROOM];
    let masks = input.list(&mut masks_room);
    refusal(0, 0, 0);
    size(topology::count_bits(masks));
}

fn topology_word(input: &mut Input) {
    let word_index = hybit_core::narrow(input.index());
    let mask = input.numeral();
    let n = input.index();
    let w = AbtmTopologyWord { word_index, mask };
    count(w.rank(n).into());
    let s: DenimraspSelect = w.select(n).into();
    truth(s.found);
    size(s.column);
    size(w.base_col());
    size(w.popcount());
    truth(w.contains_offset(n));
}

// The lists past that many rows and words.
fn topology_clear_past(input: &mut Input) {
    let mut ptr_room = [0u32; ROOM];
    let mut words_room = [0u32; ROOM];
    let mut masks_room = [0u64; ROOM];
    let rows = input.index();
    let used = input.index();
    let ptr = input.read(&mut ptr_room);
    let words = input.read(&mut words_room);
    let masks = input.read(&mut masks_room);
    topology::clear_past(rows, used, ptr, words, masks);
    refusal(0, 0, 0);
    show_three(ptr, words, masks);
}

// The counts and ratios of a row dot's report.
fn metadata_first_report(input: &mut Input) {
    let a = counts(input);
    let report = AbtmRowDot {
        sum: 0.5,
        candidate_products: a.candidate_products,
        executed_products: a.executed_products,
        skipped_products: a.skipped_products,
        topology_words: a.topology_words,
        active_words: a.active_words,
    };
    let c = report.counts();
    refusal(0, 0, 0);
    size(c.candidate_products);
    size(c.executed_products);
    size(c.skipped_products);
    size(c.topology_words);
    size(c.active_words);
    float(report.pruning_ratio());
    float(report.empty_word_ratio());
}

// A kind's number; 3 is that of none.
fn kind(k: Option<TileKind>) {
    match k {
        Some(kind) => size(u32::from(kind) as usize),
        None => size(3),
    }
}

fn tile_value(input: &mut Input) {
    let meta = hybit_core::narrow(input.index());
    let mask = input.numeral();
    let thresholds = thresholds(input);
    let nnz = input.index();
    let x = float_of(input.numeral());
    refusal(0, 0, 0);
    size(abtm::word_in(meta) as usize);
    kind(abtm::kind_in(meta));
    size(abtm::slot_count(mask, meta));
    kind(Some(thresholds.kind_of(nnz)));
    default_thresholds();
    truth(abtm_values::is_zero(x));
    truth(abtm_values::is_plus_zero(x));
}

fn default_thresholds() {
    let default = abtm::default_config();
    number(default.sparse_max_nnz as u64);
    number(default.dense_min_nnz as u64);
}

fn restriction_figures(input: &mut Input) {
    let nrows = input.index();
    let ncols = input.index();
    let source_nnz = input.index();
    let retained_nnz = input.index();
    let s = ColumnRestriction {
        nrows,
        ncols,
        source_nnz,
        retained_nnz,
    };
    refusal(0, 0, 0);
    float(s.retained_fraction());
    size(s.storage_bytes());
}

fn region_figures(input: &mut Input) {
    let global_size = input.index();
    let local_nodes = input.index();
    let local_nnz = input.index();
    let source_row_nnz = input.index();
    let s = LocalRegion {
        global_size,
        local_nodes,
        local_nnz,
        source_row_nnz,
    };
    refusal(0, 0, 0);
    float(s.boundary_pruning_ratio());
    size(s.storage_bytes());
}

fn block_size(input: &mut Input) {
    let six = input.numeral() != 0;
    let n = input.index();
    let col = hybit_core::narrow(input.index());
    refusal(0, 0, 0);
    size(denimrasp_answers::block_size(six).width());
    size(denimrasp_answers::block_size(six).blocks_for(n));
    size(denimrasp_answers::block_size(six).full_blocks(n));
    size(denimrasp_answers::block_size(six).key_of(col));
    size(denimrasp_answers::block_size(six).place_of(col));
}

// The numbers of blocks.
fn read_blocks(input: &mut Input) -> DenseBlocks {
    let nrows = input.index();
    let ncols = input.index();
    let block_rows = input.index();
    let unique_blocks = input.index();
    let dense_value_slots = input.index();
    let structural_slots = input.index();
    let valid_dense_slots = input.index();
    DenseBlocks {
        nrows,
        ncols,
        block_rows,
        unique_blocks,
        dense_value_slots,
        structural_slots,
        valid_dense_slots,
    }
}

fn block_figures(input: &mut Input) {
    let s = read_blocks(input);
    refusal(0, 0, 0);
    float(s.block_fill());
    float(s.value_padding_ratio());
    size(s.metadata_bytes());
    size(s.storage_bytes());
}

// The calls of refusals and numbers.
fn core_calls(call: u64, input: &mut Input) {
    match call {
        200 => core_refusal(input),
        201 => core_sizes(input),
        202 => core_counts(input),
        203 => core_is_finite(input),
        204 => core_narrow(input),
        _ => core_saturating(input),
    }
}

// The calls of lists that stand alone. Six arms, as core_calls has: alike in the text alone.
fn list_calls(call: u64, input: &mut Input) {
    match call {
        65 => local_check(input),
        66 => local_gather_input(input),
        241 => csr32_pointers(input),
        242 => value_list(input),
        243 => topology_count_bits(input),
        _ => topology_clear_past(input),
    }
}

fn clear_calls(call: u64, input: &mut Input) {
    match call {
        210 => clear_from(input, &mut [0u32; ROOM]),
        211 => clear_from(input, &mut [0u64; ROOM]),
        212 => clear_from(input, &mut [0usize; ROOM]),
        _ => clear_from(input, &mut [0.0f64; ROOM]),
    }
}

// The calls that are handed numbers alone, and in the crates below what clears a list.
fn number_calls(first: u8, call: u64, input: &mut Input) {
    match first {
        b'v' => value(call, input),
        b'o' => word_place(call, input),
        b'r' => ratio(call, input),
        b's' => bytes(call, input),
        b'a' => metadata_first_accumulate(input),
        b'h' => abtm_validate(input),
        b'k' => abtm_tile_kind(input),
        b'c' => core_calls(call, input),
        b'z' => clear_calls(call, input),
        b'd' => word_call(call, input),
        _ => struct_calls(call, input),
    }
}

// The calls of structs by value.
fn struct_calls(call: u64, input: &mut Input) {
    match call {
        249 => metadata_first_report(input),
        250 => topology_word(input),
        254 => tile_value(input),
        255 => restriction_figures(input),
        256 => region_figures(input),
        257 => block_size(input),
        _ => block_figures(input),
    }
}

// A letter for what a call is handed first, by its number: m a mask, i indices, p a plot list, w words, t tiles, b blocks, l a list
// that stands alone; the others are those of number_calls. A match on the numbers would test their ranges one by one in a function
// that holds the text, which costs the proof more.
fn first_of(call: u64) -> u8 {
    let c = b"mmmmmimmmmmmmppppwpwwwwwwwwwwwwppwwwwvvooorrrrrsahtpkvttrsttptrspllrspbbbrrss";
    let below = b"cccccc----zzzz------dddddddddddddd------mllllwwwwfftttfffffpp";
    let i = call as usize;
    if i < 77 {
        return c[i];
    }
    if i < 200 {
        return 45;
    }
    if i < 261 {
        return below[i - 200];
    }
    45
}

// One call, and what came of it.
fn replay(call: u64, input: &mut Input) {
    let first = first_of(call);
    match first {
        b'm' => mask_calls(call, input),
        b'i' => mask_from_indices(input),
        b'p' => csr32_calls(call, input),
        b'w' => words_calls(call, input),
        b't' => tile_calls(call, input),
        b'b' => block_calls(call, input),
        b'l' => list_calls(call, input),
        _ => number_calls(first, call, input),
    }
}

// The calls of one block of the input; the number 999 ends them.
fn replay_block(text: &[u8]) {
    let mut input = Input { text, at: 0 };
    for _ in 0..65536 {
        let call = input.numeral();
        if call >= 999 {
            return;
        }
        replay(call, &mut input);
        end();
    }
}

fn main() {
    let mut block = io::large_buffer();
    for _ in 0..128 {
        if io::read_full(0, &mut block) == 0 {
            return;
        }
        replay_block(&block);
    }
}
