// `DenseBlockCsrOperator`, over lists that the caller lends, where the Rust owns its lists.
use crate::DenseBlockSize;

#[derive(Clone, Copy)]
pub struct DenseBlockCsrOperator<'a> {
    pub nrows: usize,
    pub ncols: usize,
    pub size: DenseBlockSize,
    pub row_ptr: &'a [u32],
    pub col_idx: &'a [u32],
    pub values: &'a [f64],
}
