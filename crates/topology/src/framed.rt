// A record whose pointers fit its words and masks: its rows can be handed out.
ghost use Rattle.std.specs.Prelude.{◌≡◌, true, length};
ghost use Rattle.csr32.specs.Csr.{framed_lists};

use crate::AbtmTopology;

#[derive(Clone, Copy)]
pub struct FramedTopology<'p, 'w, 'm> {
    pub topology: AbtmTopology<'p, 'w, 'm>,
    pub ghost framed: { framed_lists topology.nrows topology.row_word_ptr.now (length topology.word_indices.now) (length topology.masks.now) ≡ true },
}
