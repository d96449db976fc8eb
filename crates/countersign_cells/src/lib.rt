// Inner: the numbers and the cells of a slice, in whole numbers of 2^-18. What is off the grid counts as 0; an
// accepted call has none.
#![tactic(auto)]

ghost use Rattle.std.specs.Prelude.{◌≡◌, ◌+◌, ◌*◌, ◌<◌, length};
ghost use Rattle.countersign_cells.specs.Cells.{value_at, whole_cell};

use countersign_sums::{Gaussian, Whole};

// The number i of s.
#[tactic(auto, unfolding(crate::specs::Cells::value_at, crate::specs::Cells::whole_float))]
pub fn value_at(s: &[f64], i: usize) -> Whole
    requires { i < length s.now }
    ensures { result ≡ value_at s.now i }
{
    match countersign_grid::grid_of(s[i]) {
        Some(g) => Whole {
            over: g.over,
            under: g.under,
        },
        None => Whole { over: 0, under: 0 },
    }
}

// The cell x of s.
#[tactic(auto, unfolding(crate::specs::Cells::whole_cell))]
pub fn cell_at(s: &[f64], x: usize) -> Gaussian
    requires { 2 * x + 1 < length s.now }
    ensures { result ≡ whole_cell s.now x }
{
    Gaussian {
        re: value_at(s, 2 * x),
        im: value_at(s, 2 * x + 1),
    }
}
