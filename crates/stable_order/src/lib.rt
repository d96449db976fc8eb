// Inner: the stable downward order of a list of values, kept in lent floats: each place is a whole
// number in a float. The caller's scratch holds it, as the paper asks.
#![tactic(auto)]

ghost use Rattle.std.specs.Prelude.{◌≡◌, ◌<◌, ◌≤◌, length, get_or};
ghost use Rattle.stable_order.specs.Places.{places_of, places_in, Places};
ghost use Rattle.stable_order.specs.Push.{push_at};
ghost use Rattle.stable_order.specs.Order.{order_to, seat_of};

// The place at k, which is below n.
pub fn read_place(xs: &[f64], k: usize, n: usize) -> usize
    requires { (k < length xs.now) × (n ≤ 4096) × Places n xs.now }
    ensures { (result ≡ get_or (places_in xs.now) k 0) × (result < n) }
{
    xs[k] as usize
}

// x is put at `at`, what stood from there on moves up by one, and the last one falls off.
pub fn insert_at(l: &mut [f64], at: usize, x: f64)
    requires { at ≤ length l.old }
    ensures { l.new ≡ push_at l.old at x }
{
    let mut hold = x;
    for i in at..l.len() {
        let t = l[i];
        l[i] = hold;
        hold = t;
    }
}

// Where the place x goes: before the first place whose value is less than its own. Equal values keep
// their order.
fn seat(values: &[f64], l: &[f64], x: usize) -> usize
    requires { (x < length values.now) × (length values.now ≤ 4096) × Places (length values.now) l.now }
    ensures { result ≡ seat_of values.now x (places_in l.now) }
{
    for j in 0..l.len() {
        let y = read_place(l, j, values.len());
        if values[y] < values[x] {
            return j;
        }
    }
    l.len()
}

// The stable downward order of the values is written to `order`, which is as long.
pub fn order_of(values: &[f64], order: &mut [f64])
    requires { (length order.old ≡ length values.now) × (length values.now ≤ 4096) }
    ensures { order.new ≡ places_of (order_to values.now (length values.now)) }
{
    for k in 0..values.len() {
        let next = k + 1;
        let at = seat(values, &order[..k], k);
        insert_at(&mut order[..next], at, k as f64);
    }
}
