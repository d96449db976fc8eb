// Inner: the work matrix of a step of the chain of sites, as planes, straight from the rows that are carried: the step's matrix, or its
// conjugate transpose where it is wider than tall.
#![tactic(auto)]

ghost use Rattle.std.specs.Prelude.{◌≡◌, ◌*◌, ◌<◌, ◌≤◌, length};
ghost use Rattle.svd_load.specs.Loading.{planes_of, planes_to};
ghost use Rattle.chain_load.specs.Carried.{conjugated_at, across_at, carried_work};

// The columns of the conjugate transpose are the carried rows, conjugated, one after another.
fn load_rows(carried: &[f64], c: usize, work: &mut [f64])
    requires { (length carried.now ≡ 2 * c) × (length work.old ≡ 2 * c) }
    ensures { work.new ≡ planes_of c (conjugated_at carried.now) }
{
    for i in 0..c {
        let z = complex::read_cell(carried, i);
        complex::write_plane(work, c, i, z.conj());
    }
}

// One column: the cell `col` of each carried row.
fn load_column(carried: &[f64], rows: usize, columns: usize, col: usize, work: &mut [f64])
    requires { (col < columns) × (columns * rows ≤ 4096) × (length carried.now ≡ 2 * (columns * rows))
        × (length work.old ≡ 2 * (columns * rows)) }
    ensures { work.new ≡ planes_to (columns * rows) (across_at carried.now columns rows) (col * rows) rows work.old }
{
    let c = columns * rows;
    let to = col * rows;
    for r in 0..rows {
        let z = complex::read_cell(carried, r * columns + col);
        complex::write_plane(work, c, to + r, z);
    }
}

fn load_columns(carried: &[f64], rows: usize, columns: usize, work: &mut [f64])
    requires { (columns * rows ≤ 4096) × (length carried.now ≡ 2 * (columns * rows)) × (length work.old ≡ 2 * (columns * rows)) }
    ensures { work.new ≡ planes_of (columns * rows) (across_at carried.now columns rows) }
{
    for col in 0..columns {
        load_column(carried, rows, columns, col, work);
    }
}

// The work matrix of the matrix whose rows are carried.
#[tactic(auto, unfolding(crate::specs::Carried::carried_work))]
pub fn load(carried: &[f64], rows: usize, columns: usize, work: &mut [f64])
    requires { (rows * columns ≤ 4096) × (length carried.now ≡ 2 * (rows * columns)) × (length work.old ≡ 2 * (rows * columns)) }
    ensures { work.new ≡ carried_work carried.now rows columns }
{
    if rows < columns {
        load_rows(carried, rows * columns, work);
    } else {
        load_columns(carried, rows, columns, work);
    }
}
