// The tiles of a row: their masks, their offsets into the values, and their metas.
ghost use Rattle.std.specs.Prelude.{◌≡◌, length};

#[derive(Clone, Copy)]
pub struct TileRow<'a> {
    pub masks: &'a [u64],
    pub value_offsets: &'a [u32],
    pub metas: &'a [u32],
    pub ghost offsets_paired: { length value_offsets.now ≡ length masks.now },
    pub ghost metas_paired: { length metas.now ≡ length masks.now },
}
