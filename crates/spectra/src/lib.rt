// Spectra of square matrices of complex cells, row-major.
#![tactic(auto)]

ghost use Rattle.std.specs.Prelude.{◌≡◌, ◌*◌, ◌≤◌, length};
ghost use Rattle.answers.specs.Paper.{paper};
ghost use Rattle.eigen_sweeps.specs.Sweeping.{SquareRoom, diagonal};
ghost use Rattle.tables.specs.Tables.{filled};
ghost use Rattle.svd_load.specs.Loading.{planes_of};
ghost use Rattle.complex.specs.Cells.{cell_at};
ghost use Rattle.complex.specs.Zeros.{zeroed};
ghost use Rattle.eigen_pair.specs.CellPlanes.{as_planes};
ghost use Rattle.spectra.specs.Eigenvalues.{eigenvalue, eigenvalues_sweeps, square_refusal};
ghost use Rattle.spectra.specs.Outcomes.{Given, SpectrumWorked, Eigenvalues};
ghost use Rattle.spectra.specs.Density.{DensityWorked, DensityValues};

use answers::Refusal;
use factored::Counted;
use sweeps::Sweeps;

// Answers 1, 6 and 7 of a spectrum of a square matrix.
#[tactic(auto, unfolding(crate::specs::Eigenvalues::square_refusal))]
fn square_refusal(a: &[f64], dim: usize, out: usize, scratch: usize) -> Result<(), Refusal>
    ensures { paper result ≡ square_refusal a.now dim out scratch }
{
    if dim < 1 || dim > 64 {
        return Err(Refusal::Size);
    }
    let need = 2 * (dim * dim);
    if a.len() != need {
        return Err(Refusal::Length(0));
    }
    if out < dim {
        return Err(Refusal::Length(1));
    }
    if scratch < need {
        return Err(Refusal::Length(2));
    }
    components::check_components(a)
}

// The matrix itself, as it came: its cells side by side.
fn load_cells(a: &[f64], c: usize, work: &mut [f64])
    requires { (length a.now ≡ 2 * c) × (length work.old ≡ 2 * c) }
    ensures { as_planes c work.new ≡ planes_of c (cell_at a.now) }
{
    for i in 0..c {
        complex::write_cell(work, i, complex::read_cell(a, i));
    }
}

// The real parts of the diagonal, to the front of out.
fn write_diagonal(work: &[f64], n: usize, out: &mut [f64])
    requires { SquareRoom n (length work.now) × (n ≤ length out.old) }
    ensures { out.new ≡ filled n (diagonal (as_planes (n * n) work.now) n) out.old }
{
    for i in 0..n {
        let at = 2 * (i * n + i);
        out[i] = work[at];
    }
}

// The eigenvalues of a to the front of out, and how the sweeps went; work is +0.0 at the end.
fn spectrum(a: &[f64], n: usize, out: &mut [f64], work: &mut [f64]) -> Sweeps
    requires { Given n (length a.now) (length out.old) (length work.old) × (length work.old ≡ 2 * (n * n)) }
    ensures { (out.new ≡ filled n (eigenvalue a.now n) out.old)
        × (work.new ≡ zeroed (2 * (n * n)) work.old) × (result ≡ eigenvalues_sweeps a.now n) }
{
    load_cells(a, n * n, work);
    let sweeps = eigen_sweeps::settle(work, n);
    write_diagonal(work, n, out);
    complex::zero_first(work, 2 * (n * n));
    sweeps
}

// The eigenvalues of a matrix that is not refused: 0 or 9.
fn work_out(a: &[f64], n: usize, out: &mut [f64], scratch: &mut [f64]) -> Result<Sweeps, Refusal>
    requires { Given n (length a.now) (length out.old) (length scratch.old) }
    ensures { SpectrumWorked a.now n out.old scratch.old result out.new scratch.new }
{
    let need = 2 * (n * n);
    let sweeps = spectrum(a, n, out, &mut scratch[..need]);
    if values::all_finite(&out[..n]) {
        return Ok(sweeps);
    }
    complex::zero_first(out, n);
    Err(Refusal::NotFinite)
}

// The eigenvalues of a Hermitian matrix of side dim, in the order of the diagonal, and how the sweeps went.
pub fn hermitian_eigenvalues(
    a: &[f64],
    dim: usize,
    out: &mut [f64],
    scratch: &mut [f64],
) -> Result<Sweeps, Refusal>
    ensures { Eigenvalues a.now dim out.old scratch.old result out.new scratch.new }
{
    square_refusal(a, dim, out.len(), scratch.len())?;
    work_out(a, dim, out, scratch)
}

// The Schmidt values of a density that is not refused, over work of exactly the needed length: 0, 8 or 9.
fn density_work(
    rho: &[f64],
    n: usize,
    out: &mut [f64],
    work: &mut [f64],
) -> Result<Counted, Refusal>
    requires { Given n (length rho.now) (length out.old) (length work.old) × (length work.old ≡ 2 * (n * n)) }
    ensures { DensityWorked rho.now n out.old work.old result out.new work.new }
{
    let sweeps = spectrum(rho, n, out, work);
    let kept = weights::finish_weights(n, out, work);
    complex::zero_first(work, 2 * (n * n));
    let count = kept?;
    Ok(Counted { count, sweeps })
}

// The Schmidt values from a reduced density matrix of side dim: the roots of its eigenvalues above the floor, finished;
// and how the sweeps went.
pub fn schmidt_values_from_density(
    rho: &[f64],
    dim: usize,
    out: &mut [f64],
    scratch: &mut [f64],
) -> Result<Counted, Refusal>
    ensures { DensityValues rho.now dim out.old scratch.old result out.new scratch.new }
{
    square_refusal(rho, dim, out.len(), scratch.len())?;
    let need = 2 * (dim * dim);
    density_work(rho, dim, out, &mut scratch[..need])
}
