// `DofMask`, over words that the caller lends, where the Rust owns its words.
#[derive(Clone, Copy)]
pub struct DofMask<'a> {
    pub len: usize,
    pub words: &'a [u64],
}
