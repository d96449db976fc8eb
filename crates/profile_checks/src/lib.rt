// Inner: the refusals of the page of a chain's cuts before its work: 1, 5, 6 and 7, in this order.
#![tactic(auto)]

ghost use Rattle.std.specs.Prelude.{◌≡◌, [], ◌∷◌, ◌-◌, ◌≤◌, IfOk};
ghost use Rattle.answers.specs.Paper.{paper};
ghost use Rattle.cut_sides.specs.Sides.{cut_refusal};
ghost use Rattle.profile_walk.specs.Page.{cuts_room, WalkRoom};
ghost use Rattle.profile_checks.specs.Checks.{page_lengths, index_lengths, profile_tests};

use answers::Refusal;

// The most values that the n - 1 cuts have.
pub fn values_room(n: usize) -> usize
    requires { (1 ≤ n) × (n ≤ 12) }
    ensures { result ≡ cuts_room n (n - 1) }
{
    let cuts = n - 1;
    let mut room = 0;
    for j in 0..cuts {
        room += submasks::bit((j + 1).min(cuts - j));
    }
    room
}

// 1 as a cut, and 5 where n is 1: as the cut that names qubit 0.
fn check_sizes(n: usize, cap: usize) -> Result<(), Refusal>
    ensures { paper result ≡ cut_refusal (0 ∷ []) n cap }
{
    let first = [0usize; 1];
    cut_sides::cut_refusal(&first, n, cap)
}

// 6: state, header, values, largest.
#[tactic(auto, using(crate::proofs::CheckLaws::plane_few), unfolding(crate::specs::Checks::page_lengths))]
fn check_page(
    n: usize,
    state: usize,
    header: usize,
    values: usize,
    largest: usize,
) -> Result<(), Refusal>
    requires { (1 ≤ n) × (n ≤ 12) }
    ensures { paper result ≡ page_lengths n state header values largest }
{
    let cells = submasks::bit(n);
    let room = values_room(n);
    answers::exact_length(0, state, 2 * cells)?;
    answers::enough_room(1, header, 2 * (n - 1))?;
    answers::enough_room(2, values, room)?;
    answers::enough_room(3, largest, n - 1)
}

// 6: ranks, marks, scratch.
#[tactic(auto, using(crate::proofs::CheckLaws::plane_few, crate::proofs::CheckLaws::half_few), unfolding(crate::specs::Checks::index_lengths))]
fn check_index(n: usize, ranks: usize, marks: usize, scratch: usize) -> Result<(), Refusal>
    requires { (1 ≤ n) × (n ≤ 12) }
    ensures { paper result ≡ index_lengths n ranks marks scratch }
{
    let cells = submasks::bit(n);
    let side = submasks::bit(n / 2);
    answers::enough_room(4, ranks, n - 1)?;
    answers::enough_room(5, marks, 4 * (n - 1))?;
    answers::enough_room(6, scratch, 8 * cells + 2 * side)
}

// Every refusal that comes before the work.
#[tactic(auto, using(crate::proofs::CheckLaws::sizes_within), unfolding(crate::specs::Checks::profile_tests))]
pub fn check(
    state: &[f64],
    n: usize,
    cap: usize,
    header: usize,
    values: usize,
    largest: usize,
    ranks: usize,
    marks: usize,
    scratch: usize,
) -> Result<(), Refusal>
    ensures answer { paper result ≡ profile_tests state.now n cap header values largest ranks marks scratch }
    ensures accepted { IfOk result (λ _. WalkRoom state.now n cap header values largest ranks marks scratch) }
{
    check_sizes(n, cap)?;
    check_page(n, state.len(), header, values, largest)?;
    check_index(n, ranks, marks, scratch)?;
    components::check_components(state)
}
