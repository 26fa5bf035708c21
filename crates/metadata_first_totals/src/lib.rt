// metadata_first.rs: `AbtmProductPruningStats::accumulate` over the reports of many rows. All that is added is added by
// `accumulate`, by value.
#![tactic(auto)]

ghost use Rattle.std.specs.Prelude.{◌≡◌};
ghost use Rattle.hybit_core.specs.Table.{given};
ghost use Rattle.metadata_first_totals.specs.Totals.{totals_over};

use hybit_core::HybitError;
use metadata_first::{AbtmProductPruningStats, AbtmRowDot};

// The five totals over a list of reports, or 1 and no totals where one of them exceeds 2^64 − 1.
pub fn totals(reports: &[AbtmRowDot]) -> Result<AbtmProductPruningStats, HybitError>
    ensures { given result ≡ totals_over reports.now }
{
    // Each zero by its name: the struct has no Default, since no other function of the library starts from none.
    let mut totals = AbtmProductPruningStats {
        candidate_products: 0,
        executed_products: 0,
        skipped_products: 0,
        topology_words: 0,
        active_words: 0,
    };
    for report in reports {
        totals = totals.accumulate(report.counts())?;
    }
    Ok(totals)
}

// The same for a caller that holds an array of reports by value.
pub fn totals_of_64(reports: [AbtmRowDot; 64]) -> Result<AbtmProductPruningStats, HybitError>
    ensures { given result ≡ totals_over reports }
{
    totals(&reports)
}
