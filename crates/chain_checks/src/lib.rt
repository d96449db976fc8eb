// Inner: the refusals of the chain of sites before its work: 1, 6 and 7, in this order.
#![tactic(auto)]

ghost use Rattle.std.specs.Prelude.{◌≡◌, ◌≤◌, IfOk, length};
ghost use Rattle.answers.specs.Paper.{paper};
ghost use Rattle.chain_checks.specs.Checks.{chain_sizes, result_lengths, scratch_lengths, chain_tests, ChainAccepted};

use answers::Refusal;

// 1: the limit, then n.
#[tactic(auto, unfolding(crate::specs::Checks::chain_sizes))]
fn check_sizes(n: usize, limit: usize) -> Result<(), Refusal>
    ensures { paper result ≡ chain_sizes n limit }
{
    if limit == 0 || n < 1 || 12 < n {
        return Err(Refusal::Size);
    }
    Ok(())
}

// 6: the state, and what the call leaves: sites, bonds, starts, marks.
#[tactic(auto, using(crate::proofs::CheckLaws::plane_few, chain_room::proofs::RoomLaws::room_few), unfolding(crate::specs::Checks::result_lengths))]
fn check_results(
    n: usize,
    limit: usize,
    state: usize,
    sites: usize,
    bonds: usize,
    starts: usize,
    marks: usize,
) -> Result<(), Refusal>
    requires { (1 ≤ n) × (n ≤ 12) }
    ensures { paper result ≡ result_lengths n limit state sites bonds starts marks }
{
    let cells = submasks::bit(n);
    let room = chain_room::room_of(n, limit);
    answers::exact_length(0, state, 2 * cells)?;
    answers::enough_room(1, sites, 2 * room)?;
    answers::enough_room(2, bonds, n + 1)?;
    answers::enough_room(3, starts, n + 1)?;
    answers::enough_room(4, marks, 3 * (n - 1))
}

// 6: the working slices: matrix, u, vt, scratch.
#[tactic(auto, using(crate::proofs::CheckLaws::plane_few, crate::proofs::CheckLaws::side_few), unfolding(crate::specs::Checks::scratch_lengths))]
fn check_scratch(
    n: usize,
    matrix: usize,
    u: usize,
    vt: usize,
    scratch: usize,
) -> Result<(), Refusal>
    requires { n ≤ 12 }
    ensures { paper result ≡ scratch_lengths n matrix u vt scratch }
{
    let cells = submasks::bit(n);
    let side = submasks::bit(n / 2);
    answers::enough_room(5, matrix, 2 * cells)?;
    answers::enough_room(6, u, 2 * cells)?;
    answers::enough_room(7, vt, 2 * cells)?;
    answers::enough_room(8, scratch, 6 * cells + 2 * side)
}

// Every refusal that comes before the work.
#[tactic(auto, using(crate::proofs::CheckLaws::sizes_done), unfolding(crate::specs::Checks::chain_tests))]
pub fn check(
    state: &[f64],
    n: usize,
    limit: usize,
    sites: usize,
    bonds: usize,
    starts: usize,
    marks: usize,
    matrix: usize,
    u: usize,
    vt: usize,
    scratch: usize,
) -> Result<(), Refusal>
    ensures answer { paper result ≡ chain_tests state.now n limit sites bonds starts marks matrix u vt scratch }
    ensures accepted { IfOk result (λ _. ChainAccepted n limit (length state.now) sites bonds starts marks matrix u vt scratch) }
{
    check_sizes(n, limit)?;
    check_results(n, limit, state.len(), sites, bonds, starts, marks)?;
    check_scratch(n, matrix, u, vt, scratch)?;
    chain_start::check_state(state)
}
