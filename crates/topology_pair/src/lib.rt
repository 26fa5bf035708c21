// topology.rs: what `AbtmTopology::combine` asks of its two records before it merges them, and of the lists for the result.
#![tactic(auto)]

ghost use Rattle.std.specs.Prelude.{◌≡◌};
ghost use Rattle.hybit_core.specs.Table.{told};
ghost use Rattle.topology.specs.Calls.{as_room};
ghost use Rattle.topology_pair.specs.Pair.{pair_answer, room_answer};
ghost use Rattle.topology.specs.Matrix.{lent_topology};

use hybit_core::HybitError;
use topology::AbtmTopology;

// Whether `words` words of so many rows fit the domain and the lists: 1, 13. The rooms are three lengths, which topology_combine's
// examine takes as well: for two functions a struct of them is no plainer.
pub fn examine_room(
    nrows: usize,
    words: usize,
    ptr_room: usize,
    word_room: usize,
    mask_room: usize,
) -> Result<(), HybitError>
    ensures { told result ≡ room_answer nrows words (as_room ptr_room word_room mask_room) }
{
    if !hybit_core::entries_fit(words) {
        return Err(HybitError::SizeOverflow);
    }
    if ptr_room <= nrows {
        return Err(HybitError::ShortList);
    }
    if word_room < words {
        return Err(HybitError::ShortList);
    }
    if mask_room < words {
        return Err(HybitError::ShortList);
    }
    Ok(())
}

// Both records, and that they have one frame: 1; 11, 11; 8.
pub fn examine_pair(topology: AbtmTopology, other: AbtmTopology) -> Result<(), HybitError>
    ensures { told result ≡ pair_answer (lent_topology topology.entry) (lent_topology other.entry) }
{
    if !hybit_core::sizes_fit(
        topology.nrows,
        topology.ncols,
        topology.word_indices.len(),
        topology.masks.len(),
    ) {
        return Err(HybitError::SizeOverflow);
    }
    if !hybit_core::sizes_fit(
        other.nrows,
        other.ncols,
        other.word_indices.len(),
        other.masks.len(),
    ) {
        return Err(HybitError::SizeOverflow);
    }
    topology.check()?;
    other.check()?;
    if topology.nrows != other.nrows {
        return Err(HybitError::FramesDiffer);
    }
    if topology.ncols != other.ncols {
        return Err(HybitError::FramesDiffer);
    }
    Ok(())
}
