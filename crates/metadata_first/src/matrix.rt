// `AbtmMetadataFirstMatrix`, over lists that the caller lends, where the Rust owns its lists. Each has a lifetime of its own, as in
// `AbtmTopology`.
use topology::AbtmTopology;

#[derive(Clone, Copy)]
pub struct AbtmMetadataFirstMatrix<'p, 'w, 'm, 'r, 'v> {
    pub topology: AbtmTopology<'p, 'w, 'm>,
    pub row_value_ptr: &'r [u32],
    pub values: &'v [f64],
}
