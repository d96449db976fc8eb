// Whether the density of a cut file's state is the one summed from its cut matrix alone. Inner: the cut was not refused, and the
// density was answered 0. A file has at most 9 qubits, so 1,024 numbers of matrix and 2,048 of density are enough.
#![tactic(auto)]

ghost use Rattle.std.specs.Prelude.{◌≡◌};
ghost use Rattle.pages.specs.Agree.{pages_same};
ghost use Rattle.page_sums.specs.Sums.{Summable};

// The density that is lent, held against the one summed from the cut matrix.
pub fn summed(state: &[f64], n: usize, list: &[usize], density: &[f64]) -> bool
    requires { Summable state.now n list.now density.now }
    ensures { result ≡ pages_same state.now n list.now }
{
    let mut matrix = [0.0f64; 1024];
    let _ = cuts::cut_matrix(state, n, list, 10, &mut matrix);
    let mut again = [0.0f64; 2048];
    density_recount::sum_from_cut(&matrix[..state.len()], n, list, &mut again);
    pages::same_floats(density, &again[..density.len()])
}
