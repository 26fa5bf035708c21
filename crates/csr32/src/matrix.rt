// `Csr32Matrix`, over lists that the caller lends, where the Rust owns its lists.
#[derive(Clone, Copy)]
pub struct Csr32Matrix<'a> {
    pub nrows: usize,
    pub ncols: usize,
    pub row_ptr: &'a [u32],
    pub col_idx: &'a [u32],
    pub values: &'a [f64],
}
