// Inner: the thin SVD of a work matrix of `side` columns of `rows` cells, at least as many rows as
// columns, whose planes stand at the front of scratch. The factor on its own side comes out in `main`,
// where V stands until then; the one on V's side in `other`, where the norms stand until then.
#![tactic(auto)]

ghost use Rattle.std.specs.Prelude.{◌≡◌, ◌*◌, ◌≤◌, length, take};
ghost use Rattle.stable_order.specs.Places.{places_of, places_in, Places};
ghost use Rattle.stable_order.specs.Order.{order_to};
ghost use Rattle.svd_columns.specs.Columns.{sorted_of, directions_of, v_columns_of};
ghost use Rattle.svd_thin.specs.Thin.{order_part, Lent, ThinOrdered, Written, Thin};

use sweeps::Sweeps;

// The order of the norms, and the norms in that order.
pub fn sort(norms: &[f64], side: usize, s: &mut [f64], order: &mut [f64])
    requires { (side ≤ 64) × (length norms.now ≡ side) × (length s.old ≡ side) × (length order.old ≡ side) }
    ensures { (order.new ≡ places_of (order_to norms.now side))
        × (s.new ≡ sorted_of norms.now (order_to norms.now side) side) }
{
    stable_order::order_of(norms, order);
    svd_columns::write_values(norms, order, side, s);
}

// The norms of the columns go to `other` for the while, their order to scratch behind the work matrix, and
// the values to s.
pub fn rank(rows: usize, side: usize, s: &mut [f64], other: &mut [f64], scratch: &mut [f64])
    requires { Lent rows side (length s.old) (length other.old) (length scratch.old) }
    ensures { ThinOrdered rows side (take (2 * (side * rows)) scratch.old) s.new scratch.new }
{
    let w = 2 * (side * rows);
    let e = w + side;
    svd_columns::norms(&scratch[..w], rows, side, &mut other[..side]);
    sort(&other[..side], side, s, &mut scratch[w..e]);
}

// Both factors in the order; V is read from the front of `main` first.
fn write_factors(
    work: &[f64],
    order: &[f64],
    s: &[f64],
    rows: usize,
    side: usize,
    wide: bool,
    main: &mut [f64],
    other: &mut [f64],
)
    requires { Written rows side (length work.now) (length order.now) (length s.now) (length main.old) (length other.old) × Places side order.now }
    ensures { (main.new ≡ directions_of work.now s.now (places_in order.now) rows side wide)
        × (other.new ≡ v_columns_of (take (2 * (side * side)) main.old) (places_in order.now) side wide) }
{
    let x = 2 * (side * side);
    svd_columns::write_v(&main[..x], order, side, wide, other);
    svd_columns::write_directions(work, s, order, rows, side, wide, main);
}

// The same, with the work matrix and the order where they stand in scratch.
fn write_from(
    scratch: &[f64],
    s: &[f64],
    rows: usize,
    side: usize,
    wide: bool,
    main: &mut [f64],
    other: &mut [f64],
)
    requires { Lent rows side (length s.now) (length other.old) (length scratch.now) × (length main.old ≡ 2 * (side * rows))
        × Places side (order_part rows side scratch.now) }
    ensures { (main.new ≡ directions_of (take (2 * (side * rows)) scratch.now) s.now (places_in (order_part rows side scratch.now)) rows side wide)
        × (other.new ≡ v_columns_of (take (2 * (side * side)) main.old) (places_in (order_part rows side scratch.now)) side wide) }
{
    let w = 2 * (side * rows);
    let e = w + side;
    write_factors(
        &scratch[..w],
        &scratch[w..e],
        s,
        rows,
        side,
        wide,
        main,
        other,
    );
}

// The thin SVD of the work matrix at the front of scratch, and how the sweeps went.
pub fn factor(
    rows: usize,
    side: usize,
    wide: bool,
    main: &mut [f64],
    s: &mut [f64],
    other: &mut [f64],
    scratch: &mut [f64],
) -> Sweeps
    requires { Lent rows side (length s.old) (length other.old) (length scratch.old) × (length main.old ≡ 2 * (side * rows)) }
    ensures { Thin rows side wide (take (2 * (side * rows)) scratch.old) result main.new s.new other.new }
{
    let x = 2 * (side * side);
    let sweeps = plain_sweeps::sweep(scratch, &mut main[..x], rows, side);
    rank(rows, side, s, other, scratch);
    write_from(scratch, s, rows, side, wide, main, other);
    sweeps
}
