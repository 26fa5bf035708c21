// `AbtmTopology`, over lists that the caller lends, where the Rust owns its lists. Words and masks are two lists,
// as C lends them. Each has a lifetime of its own: a part of one list that a call hands back keeps no other list lent.
#[derive(Clone, Copy)]
pub struct AbtmTopology<'p, 'w, 'm> {
    pub nrows: usize,
    pub ncols: usize,
    pub row_word_ptr: &'p [u32],
    pub word_indices: &'w [u32],
    pub masks: &'m [u64],
    pub structural_nnz: usize,
}
