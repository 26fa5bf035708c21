// A row of a record: the numbers of its words, and their masks.
ghost use Rattle.std.specs.Prelude.{◌≡◌, ℕ, true, ◌<◌, ◌≤◌, ◌^◌, length, get_or};
ghost use Rattle.topology.specs.Words.{row_rule};

#[derive(Clone, Copy)]
pub struct AbtmTopologyRow<'w, 'm> {
    pub words: &'w [u32],
    pub masks: &'m [u64],
    pub ghost paired: { length masks.now ≡ length words.now },
    // What the masks' type says: for the proofs that read no mask.
    pub ghost masks_fit: { (k : ℕ) → get_or masks.now k 0 < 2 ^ 64 },
}

// A row of `ncols` columns in which refusal 11 finds nothing.
#[derive(Clone, Copy)]
pub struct CheckedTopologyRow<'w, 'm> {
    pub ncols: usize,
    pub row: AbtmTopologyRow<'w, 'm>,
    pub ghost few: { ncols ≤ 2 ^ 20 },
    pub ghost rule: { row_rule ncols row.words.now row.masks.now ≡ true },
}
