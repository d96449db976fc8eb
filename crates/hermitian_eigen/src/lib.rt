// The eigenvalues, rising, and the eigenvectors of a Hermitian matrix, both column-major: the matrix is shifted past its
// spectral radius, and the singular values and left vectors of the shifted one are taken from the last to the first. V is no
// part of the result, so the sweeps keep none.
#![tactic(auto)]

ghost use Rattle.std.specs.Prelude.{◌≡◌, false, ◌*◌, ◌<◌, ◌≤◌, length, get_or, take};
ghost use Rattle.std.specs.Float.{nan, binary64};
ghost use Rattle.std.specs.Float.Ieee.{sub};
ghost use Rattle.answers.specs.Paper.{paper};
ghost use Rattle.tables.specs.Tables.{table};
ghost use Rattle.svd_load.specs.Loading.{planes_of, planes_to};
ghost use Rattle.stable_order.specs.Places.{Places, places_in};
ghost use Rattle.svd_columns.specs.Columns.{directions_of};
ghost use Rattle.svd_thin.specs.Thin.{order_part, Lent};
ghost use Rattle.hermitian_eigen.specs.Shifted.{peak_to, shift_of, shifted_cell, shifted_at};
ghost use Rattle.hermitian_eigen.specs.Steps.{Rising, HermitianSwept, HermitianFactored};
ghost use Rattle.hermitian_eigen.specs.Hermitian.{hermitian_tests, finite_results, HermitianExact, HermitianFinished, HermitianWorked, Eigen};

use answers::Refusal;
use complex::Complex;
use sweeps::Sweeps;

// The largest modulus of c cells, at least +0.0.
fn peak(matrix: &[f64], c: usize) -> f64
    requires { length matrix.now ≡ 2 * c }
    ensures { result ≡ peak_to matrix.now c }
{
    let mut most = 0.0;
    for i in 0..c {
        let z = complex::read_cell(matrix, i);
        most = numbers::larger_of(most, modulus::modulus(z));
    }
    most
}

// What is added to the diagonal: more than any eigenvalue is below zero.
fn shift_of(matrix: &[f64], dim: usize) -> f64
    requires { (dim ≤ 64) × (length matrix.now ≡ 2 * (dim * dim)) }
    ensures { result ≡ shift_of matrix.now dim }
{
    peak(matrix, dim * dim) * dim as f64 + 1.0
}

// A cell of the shifted matrix.
fn shifted(z: Complex, diagonal: bool, shift: f64) -> Complex
    ensures { result ≡ shifted_cell shift diagonal z }
{
    if diagonal {
        return Complex::new(z.re + shift, z.im);
    }
    z
}

// The column `col` of the shifted matrix, as planes.
fn load_column(matrix: &[f64], dim: usize, col: usize, shift: f64, work: &mut [f64])
    requires { (col < dim) × (dim ≤ 64) × (length matrix.now ≡ 2 * (dim * dim)) × (length work.old ≡ 2 * (dim * dim)) }
    ensures { work.new ≡ planes_to (dim * dim) (shifted_at shift matrix.now dim) (col * dim) dim work.old }
{
    let c = dim * dim;
    let to = col * dim;
    for r in 0..dim {
        let z = complex::read_cell(matrix, to + r);
        complex::write_plane(work, c, to + r, shifted(z, col == r, shift));
    }
}

// The shifted matrix, as planes.
fn load_shifted(matrix: &[f64], dim: usize, shift: f64, work: &mut [f64])
    requires { (dim ≤ 64) × (length matrix.now ≡ 2 * (dim * dim)) × (length work.old ≡ 2 * (dim * dim)) }
    ensures { work.new ≡ planes_of (dim * dim) (shifted_at shift matrix.now dim) }
{
    for col in 0..dim {
        load_column(matrix, dim, col, shift, work);
    }
}

// The shifted matrix after the sweeps, as the SVD has it, and how they went.
fn sweep(matrix: &[f64], dim: usize, shift: f64, work: &mut [f64]) -> Sweeps
    requires { (dim ≤ 64) × (length matrix.now ≡ 2 * (dim * dim)) × (length work.old ≡ 2 * (dim * dim)) }
    ensures { HermitianSwept matrix.now dim shift result work.new }
{
    load_shifted(matrix, dim, shift, work);
    svd_sweeps::settle_alone(work, dim, dim, false)
}

// The singular values of the swept matrix at the front of scratch go to `values`, and behind the matrix the order of its
// columns, both rising.
fn rank_rising(dim: usize, values: &mut [f64], vectors: &mut [f64], scratch: &mut [f64])
    requires { Lent dim dim (length values.old) (length vectors.old) (length scratch.old) }
    ensures { Rising dim (take (2 * (dim * dim)) scratch.old) values.new scratch.new }
{
    let w = 2 * (dim * dim);
    let e = w + dim;
    svd_thin::rank(dim, dim, values, vectors, scratch);
    values.reverse();
    scratch[w..e].reverse();
}

// The columns of the swept matrix in the order behind it, each scaled by its value.
fn write_vectors(scratch: &[f64], values: &[f64], dim: usize, vectors: &mut [f64])
    requires { Lent dim dim (length values.now) (length vectors.old) (length scratch.now) × Places dim (order_part dim dim scratch.now) }
    ensures { vectors.new ≡ directions_of (take (2 * (dim * dim)) scratch.now) values.now (places_in (order_part dim dim scratch.now)) dim dim false }
{
    let w = 2 * (dim * dim);
    let e = w + dim;
    svd_columns::write_directions(
        &scratch[..w],
        values,
        &scratch[w..e],
        dim,
        dim,
        false,
        vectors,
    );
}

// The singular values and left vectors of the shifted matrix, from the last to the first.
fn factor(
    matrix: &[f64],
    dim: usize,
    shift: f64,
    values: &mut [f64],
    vectors: &mut [f64],
    scratch: &mut [f64],
) -> Sweeps
    requires { HermitianExact dim (length matrix.now) (length values.old) (length vectors.old) (length scratch.old) }
    ensures { HermitianFactored matrix.now dim shift result values.new vectors.new }
{
    let w = 2 * (dim * dim);
    let sweeps = sweep(matrix, dim, shift, &mut scratch[..w]);
    rank_rising(dim, values, vectors, scratch);
    write_vectors(scratch, values, dim, vectors);
    sweeps
}

// Each value less the shift.
fn lower(values: &mut [f64], shift: f64)
    ensures { values.new ≡ table (length values.old) (λ j. sub binary64 (get_or values.old j nan) shift) }
{
    for x in values.iter_mut() {
        *x = *x - shift;
    }
}

// Whether every number of both results is finite.
#[tactic(auto, unfolding(crate::specs::Hermitian::finite_results))]
fn finite_results(values: &[f64], vectors: &[f64]) -> bool
    ensures { result ≡ finite_results values.now vectors.now }
{
    values::all_finite(values) && values::all_finite(vectors)
}

// 9 where a number of a result is not finite, and then both are +0.0.
fn finish(values: &mut [f64], vectors: &mut [f64]) -> Result<(), Refusal>
    ensures { HermitianFinished values.old vectors.old result values.new vectors.new }
{
    if finite_results(values, vectors) {
        return Ok(());
    }
    complex::zero_first(values, values.len());
    complex::zero_first(vectors, vectors.len());
    Err(Refusal::NotFinite)
}

// The work of an accepted call, over slices of exactly the needed lengths.
fn work(
    matrix: &[f64],
    dim: usize,
    values: &mut [f64],
    vectors: &mut [f64],
    scratch: &mut [f64],
) -> Result<Sweeps, Refusal>
    requires { HermitianExact dim (length matrix.now) (length values.old) (length vectors.old) (length scratch.old) }
    ensures { HermitianWorked matrix.now dim result values.new vectors.new scratch.new }
{
    let shift = shift_of(matrix, dim);
    let sweeps = factor(matrix, dim, shift, values, vectors, scratch);
    lower(values, shift);
    complex::zero_first(scratch, scratch.len());
    finish(values, vectors)?;
    Ok(sweeps)
}

// Every refusal that comes before the work.
#[tactic(auto, unfolding(crate::specs::Hermitian::hermitian_tests))]
fn check(
    matrix: &[f64],
    dim: usize,
    values: usize,
    vectors: usize,
    scratch: usize,
) -> Result<(), Refusal>
    ensures { paper result ≡ hermitian_tests matrix.now dim values vectors scratch }
{
    if dim < 1 || dim > 64 {
        return Err(Refusal::Size);
    }
    let cells = dim * dim;
    if matrix.len() != 2 * cells {
        return Err(Refusal::Length(0));
    }
    if values < dim {
        return Err(Refusal::Length(1));
    }
    if vectors < 2 * cells {
        return Err(Refusal::Length(2));
    }
    if scratch < 6 * cells + 2 * dim {
        return Err(Refusal::Length(3));
    }
    components::check_components(matrix)
}

// The eigenvalues of a Hermitian matrix of side dim, rising, and its eigenvectors, one to a column; and how
// the sweeps went.
pub fn hermitian_eigen(
    matrix: &[f64],
    dim: usize,
    values: &mut [f64],
    vectors: &mut [f64],
    scratch: &mut [f64],
) -> Result<Sweeps, Refusal>
    ensures { Eigen matrix.now dim values.old vectors.old scratch.old result
        values.new vectors.new scratch.new }
{
    check(matrix, dim, values.len(), vectors.len(), scratch.len())?;
    let for_vectors = 2 * (dim * dim);
    let for_scratch = 6 * (dim * dim) + 2 * dim;
    work(
        matrix,
        dim,
        &mut values[..dim],
        &mut vectors[..for_vectors],
        &mut scratch[..for_scratch],
    )
}
