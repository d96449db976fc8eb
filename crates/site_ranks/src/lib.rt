// Ranks of cuts: what a threshold keeps of singular values, and what the bonds allow. From src/backend/mps/svd.rs.
#![tactic(auto)]

ghost use Rattle.std.specs.Prelude.{◌≡◌, Bool, ◌+◌, ◌-◌, ◌*◌, ◌<◌, ◌≤◌, ◌^◌, min, max, length};
ghost use Rattle.site_ranks.specs.Ranks.{first_or_zero, above_count, rank_of, discards_of, Ranked, bond_sizes, cut_rank_of, widest_sizes, cut_after, widest_to, widest_of};

use answers::Refusal;

// A value at or below this part of the largest is the factorization's own rounding.
const SVD_RESOLUTION: f64 = 8.881784197001252e-16;

// How many of the singular values a cut keeps: those above epsilon times the first, at least one, at most
// max_bond_dim. Any bits are taken.
pub fn truncated_svd_rank(values: &[f64], epsilon: f64, max_bond_dim: usize) -> usize
    ensures { result ≡ rank_of values.now epsilon max_bond_dim }
{
    let first = values.first().copied().unwrap_or(0.0);
    let threshold = epsilon * first;
    let count = values.iter().take_while(|&x| *x > threshold).count();
    count.max(1).min(max_bond_dim)
}

// Whether keeping chi of the values drops one above the resolution. Any bits are taken.
#[tactic(auto, unfolding(crate::specs::Ranks::discards_of))]
pub fn discards_resolvable_weight(values: &[f64], chi: usize) -> bool
    ensures { result ≡ discards_of values.now chi }
{
    chi < values.len() && values[chi] > SVD_RESOLUTION * values[0]
}

// The most singular values that a cut between two sites carries.
#[tactic(auto, unfolding(crate::specs::Ranks::bond_sizes, crate::specs::Ranks::cut_rank_of))]
pub fn cut_rank(bond_left: usize, bond_mid: usize, bond_right: usize) -> Result<u64, Refusal>
    ensures { Ranked (bond_sizes bond_left bond_mid bond_right) (cut_rank_of bond_left bond_mid bond_right) result }
{
    if bond_left > 4096 || bond_mid > 4096 || bond_right > 4096 {
        return Err(Refusal::Size);
    }
    let rank = (2 * bond_left.min(bond_right)).min(4 * bond_mid);
    Ok(rank as u64)
}

// The cut after site k of n: rows against columns, whichever are fewer.
#[tactic(auto, unfolding(crate::specs::Ranks::cut_after))]
fn cut_after(bond_left: usize, bond_right: usize, n: usize, k: usize) -> usize
    requires { (bond_left ≤ 4096) × (bond_right ≤ 4096) × (n ≤ 16) × (k + 1 < n) }
    ensures { result ≡ cut_after bond_left bond_right n k }
{
    let rows = bond_left * submasks::bit(k + 1);
    let columns = bond_right * submasks::bit(n - 1 - k);
    rows.min(columns)
}

// The widest of the n - 1 cuts.
#[tactic(auto, unfolding(crate::specs::Ranks::widest_to))]
fn widest_cut(bond_left: usize, bond_right: usize, n: usize) -> usize
    requires { (bond_left ≤ 4096) × (bond_right ≤ 4096) × (1 ≤ n) × (n ≤ 16) }
    ensures { result ≡ widest_to bond_left bond_right n (n - 1) }
{
    let mut widest = 0;
    for k in 0..n - 1 {
        widest = widest.max(cut_after(bond_left, bond_right, n, k));
    }
    widest
}

// The most singular values that any cut of a block of n sites carries.
#[tactic(auto, unfolding(crate::specs::Ranks::widest_sizes, crate::specs::Ranks::widest_of))]
pub fn widest_block_cut(bond_left: usize, bond_right: usize, n: usize) -> Result<u64, Refusal>
    ensures { Ranked (widest_sizes bond_left bond_right n) (widest_of bond_left bond_right n) result }
{
    if bond_left > 4096 || bond_right > 4096 || n < 1 || n > 16 {
        return Err(Refusal::Size);
    }
    Ok(widest_cut(bond_left, bond_right, n) as u64)
}
