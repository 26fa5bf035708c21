// The lengths of the three lists that a plot list is written to.
#[derive(Clone, Copy)]
pub struct CsrCapacity {
    pub row_ptr: usize,
    pub col_idx: usize,
    pub values: usize,
}
