// `AbtmMatrix`, over lists that the caller lends, where the Rust owns its lists. Three lists of tiles, since C lends them so. Each
// of the three has a lifetime of its own: a row's part of one that a call hands back keeps no other list lent.
#[derive(Clone, Copy)]
pub struct AbtmMatrix<'a, 'm, 'o, 't> {
    pub nrows: usize,
    pub ncols: usize,
    pub row_tile_ptr: &'a [u32],
    pub masks: &'m [u64],
    pub value_offsets: &'o [u32],
    pub metas: &'t [u32],
    pub values: &'a [f64],
    pub matrix_nnz: usize,
}
