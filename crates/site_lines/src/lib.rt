// Inner: the lines of a source that a fill reads, and the site that they become. A source has chi lines whose first cells
// stand stride cells apart, and only the first width cells of a line are read.
#![tactic(auto)]

ghost use Rattle.std.specs.Prelude.{◌≡◌, ℕ, ◌+◌, ◌*◌, ◌<◌, ◌≤◌, length};
ghost use Rattle.answers.specs.Paper.{paper};
ghost use Rattle.complex.specs.Cells.{written};
ghost use Rattle.site_lines.specs.Sources.{cell_allowed, cells_from, lines_from, put_line, site_cell, isometry_cell, scaled_u_cell, vt_cell, scaled_vt_cell, LineReady};

use answers::Refusal;
use complex::Complex;

#[tactic(auto, unfolding(crate::specs::Sources::cell_allowed))]
fn cell_allowed(z: Complex) -> bool
    ensures { result ≡ cell_allowed z }
{
    numbers::component_allowed(z.re) && numbers::component_allowed(z.im)
}

// Answer 7 in the n cells from cell from on.
#[tactic(auto, unfolding(crate::specs::Sources::cells_from))]
fn check_cells(s: &[f64], from: usize, n: usize) -> Result<(), Refusal>
    requires { 2 * (from + n) ≤ length s.now }
    ensures { paper result ≡ cells_from s.now from n }
{
    for t in 0..n {
        let at = from + t;
        if !cell_allowed(complex::read_cell(s, at)) {
            return Err(Refusal::Component(at));
        }
    }
    Ok(())
}

// Answer 7 in the first width cells of each of chi lines; the gaps are not read.
#[tactic(auto, unfolding(crate::specs::Sources::lines_from))]
pub fn check_lines(s: &[f64], stride: usize, width: usize, chi: usize) -> Result<(), Refusal>
    requires { (width ≤ stride) × (2 * (chi * stride) ≤ length s.now) }
    ensures { paper result ≡ lines_from s.now stride width 0 chi }
{
    for i in 0..chi {
        check_cells(s, i * stride, width)?;
    }
    Ok(())
}

// The n cells of out from cell base on become cell(0), cell(1) and so on.
#[tactic(auto, unfolding(crate::specs::Sources::put_line))]
fn put_line<F: Fn(usize) -> Complex>(cell: F, n: usize, out: &mut [f64], base: usize)
    requires callable { (t : ℕ) → t < n → F.pre cell t }
    requires room { 2 * (base + n) ≤ length out.old }
    ensures { (g : ℕ → Complex) → ((t : ℕ) (z : Complex) → t < n → F.post cell t z → z ≡ g t) → out.new ≡ put_line g base out.old n }
{
    for t in 0..n {
        complex::write_cell(out, base + t, cell(t));
    }
}

// Row after row of the site: row r takes cell r of each of the chi columns.
pub fn fill_isometry(columns: &[f64], stride: usize, width: usize, chi: usize, out: &mut [f64])
    requires { LineReady stride width chi (length columns.now) (length out.old) }
    ensures { out.new ≡ written (width * chi) (site_cell chi (isometry_cell columns.now stride)) out.old }
{
    for row in 0..width {
        put_line(
            |gamma| complex::read_cell(columns, gamma * stride + row),
            chi,
            out,
            row * chi,
        );
    }
}

pub fn fill_scaled_u(u: &[f64], s: &[f64], stride: usize, width: usize, chi: usize, out: &mut [f64])
    requires line_ready { LineReady stride width chi (length u.now) (length out.old) }
    requires chi_in_bounds { chi ≤ length s.now }
    ensures { out.new ≡ written (width * chi) (site_cell chi (scaled_u_cell u.now s.now stride)) out.old }
{
    for row in 0..width {
        put_line(
            |gamma| complex::read_cell(u, gamma * stride + row).scale(s[gamma]),
            chi,
            out,
            row * chi,
        );
    }
}

// Row after row of the site: row gamma is the front of row gamma of the source.
pub fn fill_vt(vt: &[f64], stride: usize, width: usize, chi: usize, out: &mut [f64])
    requires { LineReady stride width chi (length vt.now) (length out.old) }
    ensures { out.new ≡ written (width * chi) (site_cell width (vt_cell vt.now stride)) out.old }
{
    for gamma in 0..chi {
        put_line(
            |c| complex::read_cell(vt, gamma * stride + c),
            width,
            out,
            gamma * width,
        );
    }
}

pub fn fill_scaled_vt(
    s: &[f64],
    vt: &[f64],
    stride: usize,
    width: usize,
    chi: usize,
    out: &mut [f64],
)
    requires line_ready { LineReady stride width chi (length vt.now) (length out.old) }
    requires chi_in_bounds { chi ≤ length s.now }
    ensures { out.new ≡ written (width * chi) (site_cell width (scaled_vt_cell s.now vt.now stride)) out.old }
{
    for gamma in 0..chi {
        let factor = Complex::new(s[gamma], 0.0);
        put_line(
            |c| factor.mul(complex::read_cell(vt, gamma * stride + c)),
            width,
            out,
            gamma * width,
        );
    }
}
