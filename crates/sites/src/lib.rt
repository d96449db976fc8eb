// Sites filled from factors: the fill helpers of src/backend/mps/svd.rs.
#![tactic(auto)]

ghost use Rattle.std.specs.Prelude.{◌≡◌, ◌*◌, ◌≤◌, length, take};
ghost use Rattle.answers.specs.Paper.{paper, and_then};
ghost use Rattle.values.specs.Lists.{values_allowed};
ghost use Rattle.site_lines.specs.Sources.{lines_from, site_cell, isometry_cell, scaled_u_cell, vt_cell, scaled_vt_cell};
ghost use Rattle.sites.specs.Calls.{line_sizes, column_sizes, row_sizes, plain_reply, scaled_u_reply, scaled_vt_reply, Filled, SiteSized};

use answers::Refusal;

// Answer 1 of a source: chi lines, stride cells apart, width cells of each read.
#[tactic(auto, unfolding(crate::specs::Calls::line_sizes))]
fn check_source(stride: usize, width: usize, chi: usize) -> Result<(), Refusal>
    requires { width ≤ 16777216 }
    ensures { paper result ≡ line_sizes stride width chi }
{
    if stride > 4096 || chi > 4096 || stride < width || width * chi > 4096 {
        return Err(Refusal::Size);
    }
    Ok(())
}

// Answer 1 of a site (bond_left, 2, chi).
#[tactic(auto, unfolding(crate::specs::Calls::column_sizes))]
fn check_columns(stride: usize, bond_left: usize, chi: usize) -> Result<(), Refusal>
    ensures { paper result ≡ column_sizes stride bond_left chi }
{
    if bond_left > 4096 {
        return Err(Refusal::Size);
    }
    check_source(stride, 2 * bond_left, chi)
}

// Answer 1 of a site (chi, physical_dim, bond_right).
#[tactic(auto, unfolding(crate::specs::Calls::row_sizes))]
fn check_rows(
    row_len: usize,
    chi: usize,
    physical_dim: usize,
    bond_right: usize,
) -> Result<(), Refusal>
    ensures { paper result ≡ row_sizes row_len chi physical_dim bond_right }
{
    if physical_dim > 4096 || bond_right > 4096 {
        return Err(Refusal::Size);
    }
    check_source(row_len, physical_dim * bond_right, chi)
}

// Answers 6 and 7 of a source and a site.
#[tactic(auto, unfolding(crate::specs::Calls::plain_reply))]
fn check_plain(
    source: &[f64],
    stride: usize,
    width: usize,
    chi: usize,
    room: usize,
) -> Result<(), Refusal>
    requires { SiteSized stride width chi }
    ensures { paper result ≡ plain_reply source.now stride width chi room }
{
    if source.len() < 2 * (chi * stride) {
        return Err(Refusal::Length(0));
    }
    if room < 2 * (width * chi) {
        return Err(Refusal::Length(1));
    }
    site_lines::check_lines(source, stride, width, chi)
}

// Answers 6 and 7 of a source, its values and a site: the source is read first.
#[tactic(auto, unfolding(crate::specs::Calls::scaled_u_reply))]
fn check_scaled_u(
    source: &[f64],
    values: &[f64],
    stride: usize,
    width: usize,
    chi: usize,
    room: usize,
) -> Result<(), Refusal>
    requires { SiteSized stride width chi }
    ensures { paper result ≡ scaled_u_reply source.now values.now stride width chi room }
{
    if source.len() < 2 * (chi * stride) {
        return Err(Refusal::Length(0));
    }
    if values.len() < chi {
        return Err(Refusal::Length(1));
    }
    if room < 2 * (width * chi) {
        return Err(Refusal::Length(2));
    }
    site_lines::check_lines(source, stride, width, chi)?;
    values::check_values(&values[..chi])
}

// Answers 6 and 7 of values, their source and a site: the values are read first.
#[tactic(auto, unfolding(crate::specs::Calls::scaled_vt_reply))]
fn check_scaled_vt(
    values: &[f64],
    source: &[f64],
    stride: usize,
    width: usize,
    chi: usize,
    room: usize,
) -> Result<(), Refusal>
    requires { SiteSized stride width chi }
    ensures { paper result ≡ scaled_vt_reply values.now source.now stride width chi room }
{
    if values.len() < chi {
        return Err(Refusal::Length(0));
    }
    if source.len() < 2 * (chi * stride) {
        return Err(Refusal::Length(1));
    }
    if room < 2 * (width * chi) {
        return Err(Refusal::Length(2));
    }
    values::check_values(&values[..chi])?;
    site_lines::check_lines(source, stride, width, chi)
}

// chi columns become a site (bond_left, 2, chi): row alpha * 2 + i of column gamma goes to (alpha, i, gamma).
pub fn fill_isometry_site_data(
    columns: &[f64],
    stride: usize,
    bond_left: usize,
    chi: usize,
    out: &mut [f64],
) -> Result<(), Refusal>
    ensures { Filled (and_then (column_sizes stride bond_left chi) (plain_reply columns.now stride (2 * bond_left) chi (length out.old)))
        (2 * bond_left * chi) (site_cell chi (isometry_cell columns.now stride)) out.old result out.new }
{
    check_columns(stride, bond_left, chi)?;
    let width = 2 * bond_left;
    check_plain(columns, stride, width, chi, out.len())?;
    site_lines::fill_isometry(columns, stride, width, chi, out);
    Ok(())
}

// The same, column gamma times the real value gamma.
pub fn fill_scaled_u_site_data(
    u: &[f64],
    s: &[f64],
    stride: usize,
    bond_left: usize,
    chi: usize,
    out: &mut [f64],
) -> Result<(), Refusal>
    ensures { Filled (and_then (column_sizes stride bond_left chi) (scaled_u_reply u.now s.now stride (2 * bond_left) chi (length out.old)))
        (2 * bond_left * chi) (site_cell chi (scaled_u_cell u.now s.now stride)) out.old result out.new }
{
    check_columns(stride, bond_left, chi)?;
    let width = 2 * bond_left;
    check_scaled_u(u, s, stride, width, chi, out.len())?;
    site_lines::fill_scaled_u(u, s, stride, width, chi, out);
    Ok(())
}

// chi rows become a site (chi, physical_dim, bond_right).
pub fn fill_vt_site_data(
    vt: &[f64],
    row_len: usize,
    chi: usize,
    physical_dim: usize,
    bond_right: usize,
    out: &mut [f64],
) -> Result<(), Refusal>
    ensures { Filled (and_then (row_sizes row_len chi physical_dim bond_right) (plain_reply vt.now row_len (physical_dim * bond_right) chi (length out.old)))
        (physical_dim * bond_right * chi) (site_cell (physical_dim * bond_right) (vt_cell vt.now row_len)) out.old result out.new }
{
    check_rows(row_len, chi, physical_dim, bond_right)?;
    let width = physical_dim * bond_right;
    check_plain(vt, row_len, width, chi, out.len())?;
    site_lines::fill_vt(vt, row_len, width, chi, out);
    Ok(())
}

// The same, row gamma times the complex number (value gamma, 0).
pub fn fill_scaled_vt_data(
    s: &[f64],
    vt: &[f64],
    row_len: usize,
    chi: usize,
    physical_dim: usize,
    bond_right: usize,
    out: &mut [f64],
) -> Result<(), Refusal>
    ensures { Filled (and_then (row_sizes row_len chi physical_dim bond_right) (scaled_vt_reply s.now vt.now row_len (physical_dim * bond_right) chi (length out.old)))
        (physical_dim * bond_right * chi) (site_cell (physical_dim * bond_right) (scaled_vt_cell s.now vt.now row_len)) out.old result out.new }
{
    check_rows(row_len, chi, physical_dim, bond_right)?;
    let width = physical_dim * bond_right;
    check_scaled_vt(s, vt, row_len, width, chi, out.len())?;
    site_lines::fill_scaled_vt(s, vt, row_len, width, chi, out);
    Ok(())
}
