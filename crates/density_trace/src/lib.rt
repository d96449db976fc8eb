// Trace scaling: a square matrix multiplied by 1 / trace.
#![tactic(auto)]

ghost use Rattle.std.specs.Prelude.{◌≡◌, ◌*◌, ◌≤◌, length};
ghost use Rattle.complex.specs.Cells.{written};
ghost use Rattle.density_entries.specs.Squares.{Square};
ghost use Rattle.densities.specs.Square.{InPlace};
ghost use Rattle.density_trace.specs.Trace.{trace_of, finite_cells, scaled_cell, normalize_answer, normalized};

use answers::Refusal;

// Inner: the sum of the diagonal's real parts.
pub fn trace_of(rho: &[f64], dim: usize) -> f64
    requires { Square dim rho.now }
    ensures { result ≡ trace_of rho.now dim }
{
    let mut trace = -0.0;
    for t in 0..dim {
        trace += complex::read_cell(rho, t * dim + t).re;
    }
    trace
}

// Whether every number of the first cells, multiplied by scale, is finite.
fn scaled_finite(rho: &[f64], cells: usize, scale: f64) -> bool
    requires { 2 * cells ≤ length rho.now }
    ensures { result ≡ finite_cells cells (scaled_cell rho.now scale) }
{
    for k in 0..cells {
        let z = complex::read_cell(rho, k).scale(scale);
        if !(numbers::is_finite(z.re) && numbers::is_finite(z.im)) {
            return false;
        }
    }
    true
}

// The first cells, multiplied by scale.
fn scale_cells(rho: &mut [f64], cells: usize, scale: f64)
    requires { 2 * cells ≤ length rho.old }
    ensures { rho.new ≡ written cells (scaled_cell rho.old scale) rho.old }
{
    for k in 0..cells {
        let z = complex::read_cell(rho, k);
        complex::write_cell(rho, k, z.scale(scale));
    }
}

// A square matrix multiplied by 1 / trace; a zero trace is 8, a result that is not finite 9, and then the matrix stays as it is.
pub fn normalize_trace(rho: &mut [f64], dim: usize) -> Result<(), Refusal>
    ensures { InPlace (normalize_answer rho.old dim) (normalized rho.old dim) rho.old result rho.new }
{
    densities::square_refusal(rho, dim)?;
    let trace = trace_of(rho, dim);
    if trace == 0.0 {
        return Err(Refusal::NoWeight);
    }
    let scale = 1.0 / trace;
    let cells = dim * dim;
    if !scaled_finite(rho, cells, scale) {
        return Err(Refusal::NotFinite);
    }
    scale_cells(rho, cells, scale);
    Ok(())
}
