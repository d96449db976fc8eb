// The square root of an f64, and whether it came out even: whether its square, as real numbers, is the argument.
#![tactic(auto)]

ghost use Rattle.std.specs.Prelude.{◌≡◌, ◌+◌, ◌*◌, ◌^◌, ◌≤◌, ◌<◌, eqb};
ghost use Rattle.std.specs.Float.{binary64};
ghost use Rattle.std.specs.Float.Ieee.{of_bits};
ghost use Rattle.numbers.specs.Root.{sqrt_of};
ghost use Rattle.exact_roots.specs.Exact.{exact_root, square_units};

// A root, and whether its square is exactly the argument.
#[derive(Clone, Copy)]
pub struct Marked {
    pub root: f64,
    pub exact: bool,
}

// Whether the square of the float of the bits a is m * 2^(e - 52) units of 2^-1074. The 53 digits q of a square root of
// 53 or 54 digits that comes out even end in 26 zeros, so that the square is h * h alone.
fn squares_to(m: u64, e: u64, a: u64) -> bool
    requires { (2 ^ 52 ≤ m) × (m < 2 ^ 53) × (e ≤ 2097) × (a < 2047 * 2 ^ 52) }
    ensures { result ≡ eqb (square_units (of_bits binary64 a)) (m * 2 ^ (e + 1022)) }
{
    if a / 0x10_0000_0000_0000 != e / 2 + 486 {
        return false;
    }
    let q = 0x10_0000_0000_0000 + a % 0x10_0000_0000_0000;
    let h = q / 0x400_0000;
    q % 0x400_0000 == 0 && h * h == m << (e % 2)
}

// Inner. Whether r, the root of x, has exactly x as its square: yes for both zeros, no for an infinity, a NaN and a negative x.
pub fn is_exact(x: f64, r: f64) -> bool
    requires { r ≡ sqrt_of x }
    ensures { result ≡ exact_root x }
{
    if x != x {
        return false;
    }
    let b = f64::to_bits(x);
    if b >= 0x7ff0_0000_0000_0000 {
        return b == 0x8000_0000_0000_0000;
    }
    if b == 0 {
        return true;
    }
    let a = f64::to_bits(r);
    if b < 0x10_0000_0000_0000 {
        let z = u64::from(b.leading_zeros()) - 11;
        return squares_to(b << z, 52 - z, a);
    }
    squares_to(
        0x10_0000_0000_0000 + b % 0x10_0000_0000_0000,
        b / 0x10_0000_0000_0000 + 51,
        a,
    )
}

// The square root of x as `numbers::sqrt` has it, and whether it came out even.
pub fn sqrt_marked(x: f64) -> Marked
    ensures { (result.root ≡ sqrt_of x) × (result.exact ≡ exact_root x) }
{
    let root = numbers::sqrt(x);
    let exact = is_exact(x, root);
    Marked { root, exact }
}
