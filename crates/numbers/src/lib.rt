// Number helpers: the square root of an f64, rounded to the nearest f64 and worked out from the bits with
// whole numbers; magnitude, sign, finite test, total order, and the test of an allowed component.
#![tactic(auto)]

ghost use Rattle.std.specs.Prelude.{◌≡◌, ◌+◌, ◌-◌, ◌*◌, ◌^◌, ◌≤◌, ◌<◌, IfSome};
ghost use Rattle.std.specs.Float.{nan, binary64};
ghost use Rattle.std.specs.Float.Ieee.{to_bits, of_bits};
ghost use Rattle.numbers.specs.Root.{Sqrt, sqrt_of};
ghost use Rattle.numbers.specs.Numbers.{larger_of, minus_sign, magnitude_of, sign_of, is_finite, total_less, total_order, order_number, allowed};
ghost use Rattle.numbers.specs.Steps.{NearestWhole, Scaled, RootBits, normal_size};

use std::cmp::Ordering;

// The square root of x: ±0 and +inf give themselves, a negative x and a NaN give the NaN, and any
// other x the float nearest to its root.
pub fn sqrt(x: f64) -> f64
    ensures is { result ≡ sqrt_of x }
    ensures nearest { Sqrt x result }
{
    if x != x {
        return not_a_number();
    }
    let b = f64::to_bits(x);
    if b < 0x7ff0_0000_0000_0000 {
        if b == 0 {
            return x;
        }
        return f64::from_bits(root_bits(b));
    }
    if b == 0x7ff0_0000_0000_0000 || b == 0x8000_0000_0000_0000 {
        return x;
    }
    not_a_number()
}

// The same on bit patterns. Each NaN's pattern and each negative one but that of -0 gives
// 7FF8_0000_0000_0000, which is what `to_bits` writes for `nan`.
pub fn sqrt_bits(b: u64) -> u64
    ensures { result ≡ to_bits binary64 (sqrt_of (of_bits binary64 b)) }
{
    if b < 0x7ff0_0000_0000_0000 {
        if b == 0 {
            return 0;
        }
        return root_bits(b);
    }
    if b == 0x7ff0_0000_0000_0000 || b == 0x8000_0000_0000_0000 {
        return b;
    }
    0x7ff8_0000_0000_0000
}

// A NaN. The quotient of two literals is compiled to 7FF8_0000_0000_0000 at -O2 and -O3. (A remainder of two literals is so at -O0
// too, but a compiler that leaves it to run calls a function of the C library.)
fn not_a_number() -> f64
    ensures { result ≡ nan }
{
    0.0 / 0.0
}

// The bits of the root of the positive finite float whose bits are b.
fn root_bits(b: u64) -> u64
    requires { (0 < b) × (b < 2047 * 2 ^ 52) }
    ensures { (b < 2 ^ 52 → RootBits b result) × (2 ^ 52 ≤ b → RootBits (normal_size b) result) }
{
    if b < 0x10_0000_0000_0000 {
        let z = u64::from(b.leading_zeros()) - 11;
        return scaled_root(b << z, 52 - z);
    }
    scaled_root(
        0x10_0000_0000_0000 + b % 0x10_0000_0000_0000,
        b / 0x10_0000_0000_0000 + 51,
    )
}

// The bits of the root of m * 2^(e - 52) units of 2^-1074. In those units the root is that of
// m * 2^(e + 1022), which is that of m * 2^(52 + e % 2), times 2^(e / 2 + 485).
fn scaled_root(m: u64, e: u64) -> u64
    requires { (2 ^ 52 ≤ m) × (m < 2 ^ 53) × (e ≤ 2097) }
    ensures { Scaled m e result }
{
    let odd = e % 2;
    // v, the float m * 2^odd / 2^52, from 1 up to 4
    let v = 0x3fe0_0000_0000_0000 + odd * 0x10_0000_0000_0000 + m;
    let q = nearest_root(m << odd, v);
    (e / 2 + 485) * 0x10_0000_0000_0000 + q
}

// The whole number nearest to the root of n * 2^52: a guess, mended by what its square is off by, or
// where that fails the root digit by digit. The guess is made from the bits v of the float n / 2^52.
fn nearest_root(n: u64, v: u64) -> u64
    requires { (2 ^ 52 ≤ n) × (n < 2 ^ 54 - 1) × (v < 1025 * 2 ^ 52) }
    ensures { NearestWhole (n * 2 ^ 52) result }
{
    if let Some(q) = mended(n, guess(v)) {
        return q;
    }
    slow_root(n)
}

// The 53 digits of a float near √v, for the float v of these bits, from 1 up to 4: three of Newton's
// steps for 1 / √v and a last one for √v. Nothing is promised of the guess but the number of its digits.
fn guess(b: u64) -> u64
    requires { b < 1025 * 2 ^ 52 }
    ensures { (2 ^ 52 ≤ result) × (result < 2 ^ 53) }
{
    let v = f64::from_bits(b);
    let h = v * 0.5;
    let y0 = f64::from_bits(0x5fe6_eb50_c7b5_37a9 - b / 2);
    let y1 = y0 * (1.5 - h * y0 * y0);
    let y2 = y1 * (1.5 - h * y1 * y1);
    let y3 = y2 * (1.5 - h * y2 * y2);
    let s = v * y3;
    let t = s + (v - s * s) * (0.5 * y3);
    if t >= 1.0 {
        return 0x10_0000_0000_0000 + f64::to_bits(t) % 0x10_0000_0000_0000;
    }
    0x10_0000_0000_0000
}

// The guess q, or the number above or below it, if that is the whole number nearest to the root of
// n * 2^52. With q = h * 2^26 + l, w is n * 2^52 - q * q + 2^54. The last lines go
// without a branch, which would be hard to foretell.
fn mended(n: u64, q: u64) -> Option<u64>
    requires { (2 ^ 52 ≤ n) × (n < 2 ^ 54 - 1) × (2 ^ 52 ≤ q) × (q < 2 ^ 53) }
    ensures { IfSome result (NearestWhole (n * 2 ^ 52)) }
{
    let h = q / 0x400_0000;
    let l = q % 0x400_0000;
    let hh = h * h;
    if n + 4 < hh {
        return None;
    }
    let d = n + 4 - hh;
    if d > 0x3f_ffff_ffff {
        return None;
    }
    let hl = h * l;
    let dd = d * 0x200_0000;
    if dd < hl {
        return None;
    }
    let e = dd - hl;
    if e > 0xf_ffff_ffff {
        return None;
    }
    let ll = l * l;
    let c = e * 0x800_0000;
    if c < ll {
        return None;
    }
    let w = c - ll;
    if w > 0x40_0000_0000_0000 + 3 * q || w + 3 * q <= 0x40_0000_0000_0002 {
        return None;
    }
    // 1 where w is above 2^54 + q, and 0 where w + q is at most 2^54
    let up = (0x8000_0000_0000_0000 + w - (0x40_0000_0000_0001 + q)) / 0x8000_0000_0000_0000;
    let not_down = (0x8000_0000_0000_0000 + w + q - 0x40_0000_0000_0001) / 0x8000_0000_0000_0000;
    Some(q + up + not_down - 1)
}

// The whole number nearest to the root of n * 2^52, one binary digit after another, as by hand: s is
// the root of the digits of n * 2^52 that are taken so far, rounded down, r is what those digits
// exceed its square by, and w has the digits of n that are left, at its upper end.
fn slow_root(n: u64) -> u64
    requires { (2 ^ 52 ≤ n) × (n < 2 ^ 54 - 1) }
    ensures { NearestWhole (n * 2 ^ 52) result }
{
    let mut w = n << 10;
    let mut s = 0u64;
    let mut r = 0u64;
    for _ in 0..53u64 {
        let t = s * 4 + 1;
        let d = r * 4 + (w >> 62);
        w = w << 2;
        if t <= d {
            r = d - t;
            s = s * 2 + 1;
        } else {
            r = d;
            s = s * 2;
        }
    }
    if s < r {
        return s + 1;
    }
    s
}

// Whether x has a minus sign: that of -0 counts, a NaN has none.
pub fn minus_sign(x: f64) -> bool
    ensures { result ≡ minus_sign x }
{
    x == x && 0x8000_0000_0000_0000 <= f64::to_bits(x)
}

// x with its sign cleared, that of -0 too. A NaN gives itself.
pub fn magnitude(x: f64) -> f64
    ensures { result ≡ magnitude_of x }
{
    if minus_sign(x) { -x } else { x }
}

// 1 for +0.0 and what is above, -1 for -0.0 and what is below. A NaN gives itself.
pub fn sign(x: f64) -> f64
    ensures { result ≡ sign_of x }
{
    if x != x {
        return x;
    }
    if minus_sign(x) { -1.0 } else { 1.0 }
}

// The larger of two numbers, the first where they do not compare.
pub fn larger_of(a: f64, b: f64) -> f64
    ensures { result ≡ larger_of a b }
{
    if a < b {
        return b;
    }
    a
}

// Neither a NaN nor an infinity.
pub fn is_finite(x: f64) -> bool
    ensures { result ≡ is_finite x }
{
    let infinity = f64::from_bits(0x7ff0_0000_0000_0000);
    x < infinity && -infinity < x
}

// Whether x stands below y in the total order, in which -0 is below +0 and the NaN above all else.
pub fn total_less(x: f64, y: f64) -> bool
    ensures { result ≡ total_less x y }
{
    if y != y {
        return x == x;
    }
    if x < y {
        return true;
    }
    x == y && minus_sign(x) && !minus_sign(y)
}

// How x stands to y in the total order.
pub fn total_order(x: f64, y: f64) -> Ordering
    ensures { result ≡ total_order x y }
{
    if total_less(x, y) {
        return Ordering::Less;
    }
    if total_less(y, x) {
        return Ordering::Greater;
    }
    Ordering::Equal
}

// The number of an order: 0 below, 1 equal, 2 above.
pub fn order_number(o: Ordering) -> u32
    ensures { result ≡ order_number o }
{
    match o {
        Ordering::Less => 0,
        Ordering::Equal => 1,
        Ordering::Greater => 2,
    }
}

// Finite, and of magnitude at most 2^200.
pub fn component_allowed(x: f64) -> bool
    ensures { result ≡ allowed x }
{
    let most = 1606938044258990275541962092341162602522202993782792835301376.0;
    x <= most && -most <= x
}
