// The unscaled density of the listed qubits, and the mirror of a lower triangle.
#![tactic(auto)]

ghost use Rattle.std.specs.Prelude.{◌≡◌, ◌≤◌, length};
ghost use Rattle.answers.specs.Paper.{paper};
ghost use Rattle.submasks.specs.Submasks.{others};
ghost use Rattle.qubits.specs.Spread.{named};
ghost use Rattle.density_entries.specs.Squares.{mirrored};
ghost use Rattle.densities.specs.Square.{square_answer, InPlace};
ghost use Rattle.densities.specs.Density.{density_lengths, density_rest, density_list, Density, DensityListed, DensityOver, DensityAccepted};

use answers::Refusal;

// Inner: a square matrix among a call's own arguments: 1 by its side, 6 by its length, 7 by its components.
pub fn square_refusal(rho: &[f64], dim: usize) -> Result<(), Refusal>
    ensures { paper result ≡ square_answer rho.now dim }
{
    if dim < 1 || 64 < dim {
        return Err(Refusal::Size);
    }
    if rho.len() != 2 * (dim * dim) {
        return Err(Refusal::Length(0));
    }
    components::check_components(rho)
}

// The upper half of a square matrix becomes the conjugate of the lower; the diagonal stays as it is.
pub fn mirror_lower_triangle(rho: &mut [f64], dim: usize) -> Result<(), Refusal>
    ensures { InPlace (square_answer rho.old dim) (mirrored rho.old dim) rho.old result rho.new }
{
    square_refusal(rho, dim)?;
    density_entries::mirror(rho, dim);
    Ok(())
}

// Answer 6: the state, slice 0, is exact; out, slice 2, and scratch, slice 3, may be longer.
fn density_lengths(
    size: usize,
    dim: usize,
    state: usize,
    out: usize,
    scratch: usize,
) -> Result<(), Refusal>
    requires { (size ≤ 4096) × (dim ≤ 64) }
    ensures { paper result ≡ density_lengths size dim state out scratch }
{
    let cells = dim * dim;
    if state != 2 * size {
        return Err(Refusal::Length(0));
    }
    if out < 2 * cells {
        return Err(Refusal::Length(2));
    }
    if scratch < 2 * dim {
        return Err(Refusal::Length(3));
    }
    Ok(())
}

// Answers 6 and 7 of a density of k qubits whose out and scratch have so many numbers.
fn density_rest(
    state: &[f64],
    n: usize,
    k: usize,
    out: usize,
    scratch: usize,
) -> Result<(), Refusal>
    requires { (n ≤ 12) × (k ≤ 6) }
    ensures { paper result ≡ density_rest state.now n k out scratch }
{
    let size = submasks::bit(n);
    let dim = submasks::bit(k);
    density_lengths(size, dim, state.len(), out, scratch)?;
    components::check_components(state)
}

// The density at the front of out; `rest` is the mask of the qubits that are traced out.
fn fill_density(state: &[f64], n: usize, list: &[usize], rest: usize, out: &mut [f64])
    requires { DensityAccepted state.now n list.now (length out.old) × (rest ≡ others n (named list.now)) }
    ensures { out.new ≡ density_list n list.now state.now out.old }
{
    let k = list.len();
    let dim = submasks::bit(k);
    let groups = submasks::bit(n - k);
    let mut offsets = [0usize; 64];
    qubit_offsets::fill_offsets(list, n, dim, &mut offsets);
    density_diagonal::fill_lower(state, n, rest, groups, &offsets, dim, out);
    density_entries::mirror(out, dim);
}

// Inner: the density of a list that 1 to 4 do not refuse, with the mask of the other qubits worked out or kept in a plan: refused by 6
// and 7.
pub fn density_over(
    state: &[f64],
    n: usize,
    list: &[usize],
    rest: usize,
    out: &mut [f64],
    scratch: &mut [f64],
) -> Result<(), Refusal>
    requires { DensityListed n list.now rest }
    ensures { DensityOver state.now n list.now out.old scratch.old result out.new scratch.new }
{
    density_rest(state, n, list.len(), out.len(), scratch.len())?;
    fill_density(state, n, list, rest, out);
    let need = 2 * submasks::bit(list.len());
    complex::zero_first(scratch, need);
    Ok(())
}

// The unscaled density of the listed qubits, row after row: refused by 1 to 4, 6 and 7.
pub fn dense_reduced_density(
    state: &[f64],
    n: usize,
    list: &[usize],
    cap: usize,
    out: &mut [f64],
    scratch: &mut [f64],
) -> Result<(), Refusal>
    ensures { Density state.now n list.now cap out.old scratch.old result out.new scratch.new }
{
    qubit_offsets::density_refusal(list, n, cap)?;
    let mask = qubits::mask_of(list, n);
    let rest = submasks::bit(n) - 1 - mask;
    density_over(state, n, list, rest, out, scratch)
}
