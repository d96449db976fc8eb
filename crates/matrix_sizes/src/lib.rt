// Inner: the sizes of a matrix, which of them are taken, and the smaller of the two.
#![tactic(auto)]

ghost use Rattle.std.specs.Prelude.{◌≡◌};
ghost use Rattle.answers.specs.Paper.{paper};
ghost use Rattle.matrix_sizes.specs.Sizes.{side_of, matrix_sizes};

use answers::Refusal;

// The smaller of the two sizes: how many values there are.
#[tactic(auto, unfolding(crate::specs::Sizes::side_of))]
pub fn smaller_size(m: usize, n: usize) -> usize
    ensures { result ≡ side_of m n }
{
    m.min(n)
}

// Both sizes at least 1, and at most 4096 cells: else 1.
#[tactic(auto, unfolding(crate::specs::Sizes::matrix_sizes))]
pub fn check_sizes(m: usize, n: usize) -> Result<(), Refusal>
    ensures { paper result ≡ matrix_sizes m n }
{
    if m < 1 || n < 1 || m > 4096 || n > 4096 || m * n > 4096 {
        return Err(Refusal::Size);
    }
    Ok(())
}
