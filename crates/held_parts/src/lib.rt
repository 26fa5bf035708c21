// Callers that hold a row's part of one lent list and write the record's other lists. A contract speaks of values: what is still
// lent after a call stands in the lifetimes of the record and the call alone, and these tests are refused where one is shared.
// Each record here has one row of the columns 3, 64 and 65.
#![tactic(auto)]

#[cfg(test)]
mod tests {
    use abtm::AbtmMatrix;
    use metadata_first::AbtmMetadataFirstMatrix;
    use topology::AbtmTopology;

    fn topology<'p, 'w, 'm>(
        row_word_ptr: &'p [u32],
        word_indices: &'w [u32],
        masks: &'m [u64],
    ) -> AbtmTopology<'p, 'w, 'm> {
        AbtmTopology {
            nrows: 1,
            ncols: 70,
            row_word_ptr,
            word_indices,
            masks,
            structural_nnz: 3,
        }
    }

    fn tiles<'a, 'm, 'o, 't>(
        row_tile_ptr: &'a [u32],
        masks: &'m [u64],
        value_offsets: &'o [u32],
        metas: &'t [u32],
        values: &'a [f64],
    ) -> AbtmMatrix<'a, 'm, 'o, 't> {
        AbtmMatrix {
            nrows: 1,
            ncols: 70,
            row_tile_ptr,
            masks,
            value_offsets,
            metas,
            values,
            matrix_nnz: 3,
        }
    }

    #[test]
    fn words_are_held(rt: HostRuntime) {
        let mut pointers = [0, 2];
        let words = [0, 1];
        let mut masks = [8, 3];
        let held = topology_rows::row_word_indices(topology(&pointers, &words, &masks), 0);
        pointers[1] = 0;
        masks[0] = 0;
        assert!(rt; held == Ok(&[0, 1]));
    }

    #[test]
    fn masks_are_held(rt: HostRuntime) {
        let mut pointers = [0, 2];
        let mut words = [0, 1];
        let masks = [8, 3];
        let held = topology_rows::row_masks(topology(&pointers, &words, &masks), 0);
        pointers[1] = 0;
        words[0] = 1;
        assert!(rt; held == Ok(&[8, 3]));
    }

    #[test]
    fn values_are_held(rt: HostRuntime) {
        let mut pointers = [0, 2];
        let mut words = [0, 1];
        let mut masks = [8, 3];
        let mut value_pointers = [0, 3];
        let values = [1.0, 2.0, 4.0];
        let packed = AbtmMetadataFirstMatrix {
            topology: topology(&pointers, &words, &masks),
            row_value_ptr: &value_pointers,
            values: &values,
        };
        let held = packed.row_values(0);
        pointers[1] = 0;
        words[0] = 1;
        masks[0] = 0;
        value_pointers[1] = 0;
        assert!(rt; held == Ok(&[1.0, 2.0, 4.0]));
    }

    #[test]
    fn tile_masks_are_held(rt: HostRuntime) {
        let mut pointers = [0, 2];
        let masks = [8, 3];
        let mut offsets = [0, 1];
        let mut metas = [0, 1];
        let mut values = [1.0, 2.0, 4.0];
        let held = abtm_rows::row_tile_masks(
            tiles(&pointers, &masks, &offsets, &metas, &values),
            0,
        );
        pointers[1] = 0;
        offsets[1] = 0;
        metas[1] = 0;
        values[0] = 0.0;
        assert!(rt; held == Ok(&[8, 3]));
    }

    #[test]
    fn tile_offsets_are_held(rt: HostRuntime) {
        let mut pointers = [0, 2];
        let mut masks = [8, 3];
        let offsets = [0, 1];
        let mut metas = [0, 1];
        let mut values = [1.0, 2.0, 4.0];
        let held = abtm_rows::row_tile_value_offsets(
            tiles(&pointers, &masks, &offsets, &metas, &values),
            0,
        );
        pointers[1] = 0;
        masks[0] = 0;
        metas[1] = 0;
        values[0] = 0.0;
        assert!(rt; held == Ok(&[0, 1]));
    }

    #[test]
    fn tile_metas_are_held(rt: HostRuntime) {
        let mut pointers = [0, 2];
        let mut masks = [8, 3];
        let mut offsets = [0, 1];
        let metas = [0, 1];
        let mut values = [1.0, 2.0, 4.0];
        let held = abtm_rows::row_tile_metas(
            tiles(&pointers, &masks, &offsets, &metas, &values),
            0,
        );
        pointers[1] = 0;
        masks[0] = 0;
        offsets[1] = 0;
        values[0] = 0.0;
        assert!(rt; held == Ok(&[0, 1]));
    }
}
