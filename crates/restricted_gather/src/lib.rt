// restricted.rs: `gather_input` of `PreparedLocalCsrOperator`, the region's numbers of a vector, and the check of members that are
// handed in.
#![tactic(auto)]

ghost use Rattle.std.specs.Prelude.{◌≡◌, true, ltb, length};
ghost use Rattle.hybit_core.specs.Table.{told};
ghost use Rattle.lent.specs.Lists.{every};
ghost use Rattle.lent.specs.Lent.{kept};
ghost use Rattle.restricted.specs.Local.{member_rules, members_answer, gather_answer, gathered};

use hybit_core::HybitError;

// The members of a region of `global_size` rows, as a caller hands them in.
#[derive(Clone, Copy)]
pub struct RegionMembers<'a> {
    pub global_size: usize,
    pub members: &'a [u32],
}

// Whether the members rise and lie below the global size.
fn members_hold(region: RegionMembers) -> bool
    ensures { result ≡ member_rules region.entry.global_size region.entry.members.now }
{
    let mut least: usize = 0;
    for member in region.members {
        let g = *member as usize;
        if g < least {
            return false;
        }
        if g >= region.global_size {
            return false;
        }
        least = g + 1;
    }
    true
}

// The two mismatches stand beside their tests: a function that takes both numbers and answers them would be no plainer.
fn examine_gather(region: RegionMembers, global: &[f64], local_len: usize) -> Result<(), HybitError>
    ensures { told result ≡ gather_answer region.entry.global_size region.entry.members.now global.now local_len }
{
    region.check()?;
    if global.len() != region.global_size {
        return Err(HybitError::DimensionMismatch {
            expected: region.global_size,
            actual: global.len(),
        });
    }
    if local_len != region.members.len() {
        return Err(HybitError::DimensionMismatch {
            expected: region.members.len(),
            actual: local_len,
        });
    }
    Ok(())
}

// Reads the members' numbers.
fn gather(members: &[u32], global: &[f64], local: &mut [f64])
    requires { (every (λ g. ltb g (length global.now)) members.now ≡ true) × (length local.old ≡ length members.now) }
    ensures { local.new ≡ gathered members.now global.now }
{
    for (place, member) in members.iter().enumerate() {
        local[place] = global[*member as usize];
    }
}

impl<'a> RegionMembers<'a> {
    // Whether these are members of a region of `global_size` rows: rising, and below that size.
    pub fn check(self) -> Result<(), HybitError>
        ensures { told result ≡ members_answer self.entry.global_size self.entry.members.now }
    {
        if !hybit_core::dimension_fits(self.global_size) {
            return Err(HybitError::SizeOverflow);
        }
        if !members_hold(self) {
            return Err(HybitError::BadStore);
        }
        Ok(())
    }

    // The region's numbers of a vector, in `local`.
    pub fn gather_input(self, global: &[f64], local: &mut [f64]) -> Result<(), HybitError>
        ensures answer { told result ≡ gather_answer self.entry.global_size self.entry.members.now global.now (length local.old) }
        ensures list { local.new ≡ kept (gather_answer self.entry.global_size self.entry.members.now global.now (length local.old)) (gathered self.entry.members.now global.now) local.old }
    {
        examine_gather(self, global, local.len())?;
        gather(self.members, global, local);
        Ok(())
    }
}
