// restricted.rs: the figures of `PreparedColumnRestrictedCsrOperator` and `PreparedLocalCsrOperator`, and what their builds answer.
// The builds are the crates restricted_csr32, restricted_abtm and restricted_local; the products are csr32's `apply`.
#![tactic(auto)]

ghost use Rattle.std.specs.Prelude.{◌≡◌, length};
ghost use Rattle.lent.specs.Lists.{only};
ghost use Rattle.mask.specs.Mask.{active};
ghost use Rattle.mask.specs.Dof.{lent_mask};
ghost use Rattle.restricted.specs.Restricted.{retained_fraction, restriction_bytes};
ghost use Rattle.restricted.specs.Local.{boundary_ratio, region_bytes};

use mask::DofMask;

// A list cut to the active columns: its frame, the entries of its source and those kept.
#[derive(Clone, Copy)]
pub struct ColumnRestriction {
    pub nrows: usize,
    pub ncols: usize,
    pub source_nnz: usize,
    pub retained_nnz: usize,
}

// A list cut to a region: its members, its entries, and the source entries of its rows.
#[derive(Clone, Copy)]
pub struct LocalRegion {
    pub global_size: usize,
    pub local_nodes: usize,
    pub local_nnz: usize,
    pub source_row_nnz: usize,
}

// How many of the columns are active: added up without a branch.
pub fn count_active(cols: &[u32], mask: DofMask) -> usize
    ensures { result ≡ length (only (active (lent_mask mask.entry)) cols.now) }
{
    let mut kept: usize = 0;
    for column in cols {
        kept += usize::from(mask.is_member(*column as usize));
    }
    kept
}

// The figures are of the numbers, whatever they are.
impl ColumnRestriction {
    pub fn retained_fraction(self) -> f64
        ensures { result ≡ retained_fraction self }
    {
        hybit_core::ratio(self.retained_nnz as u64, self.source_nnz as u64)
    }

    pub fn storage_bytes(self) -> usize
        ensures { result ≡ restriction_bytes self }
    {
        let pointers = 4usize.saturating_mul(self.nrows.saturating_add(1));
        let entries = 12usize.saturating_mul(self.retained_nnz);
        let words = 8usize.saturating_mul(self.ncols.div_ceil(64));
        pointers.saturating_add(entries).saturating_add(words)
    }
}

impl LocalRegion {
    pub fn boundary_pruning_ratio(self) -> f64
        ensures { result ≡ boundary_ratio self }
    {
        if self.source_row_nnz == 0 {
            return 0.0f64;
        }
        hybit_core::count_as_f64(1)
            - hybit_core::ratio(self.local_nnz as u64, self.source_row_nnz as u64)
    }

    pub fn storage_bytes(self) -> usize
        ensures { result ≡ region_bytes self }
    {
        let pointers = 4usize.saturating_mul(self.local_nodes.saturating_add(1));
        let entries = 12usize.saturating_mul(self.local_nnz);
        let members = 4usize.saturating_mul(self.local_nodes);
        pointers.saturating_add(entries).saturating_add(members)
    }
}
