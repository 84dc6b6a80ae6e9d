//! Sums for each of so many, and for all.
ghost use Rattle.std.specs.Prelude.{◌≡◌, ◌<◌, ◌^◌, ℕ, Some, None, length, slice_index, IfOk};
ghost use Rattle.audit_summary.specs.Counting.{AreTotals, total};

use std::alloc::Global;
use venue_words::NoMemory;

/// What is counted for each, and for all.
#[derive(Drop)]
pub struct Counted {
    pub each: Vec<u64>,
    pub all: u64,
}

/// So much for each of `many`: the sum of what the pairs count for it.
fn each_total(alloc: Global, many: usize, pairs: &[(u32, u32)]) -> Result<Vec<u64>, NoMemory>
    requires { length pairs.now < 2 ^ 32 }
    ensures many { IfOk result (λ each. length each.items ≡ many) }
    ensures each { IfOk result (λ each. (who : ℕ) → who < many → slice_index each.items who ≡ total (Some who) pairs.now) }
{
    let mut each = vec![in alloc; 0u64; many]?;
    for pair in pairs {
        let who = pair.0 as usize;
        if who < many {
            each[who] += u64::from(pair.1);
        }
    }
    Ok(each)
}

/// The sum of what the pairs count for all.
fn all_total(pairs: &[(u32, u32)]) -> u64
    requires { length pairs.now < 2 ^ 32 }
    ensures { result ≡ total None pairs.now }
{
    let mut all = 0;
    for pair in pairs {
        all += u64::from(pair.1);
    }
    all
}

/// So much for each of `many`, and for all: the sum of what the pairs count.
pub fn totals(alloc: Global, many: usize, pairs: &[(u32, u32)]) -> Result<Counted, NoMemory>
    requires { length pairs.now < 2 ^ 32 }
    ensures { IfOk result (AreTotals many pairs.now) }
{
    let each = each_total(alloc, many, pairs)?;
    let all = all_total(pairs);
    Ok(Counted { each, all })
}
