// The modulus of a complex number. Both parts are scaled by the power of two that brings the larger magnitude to at
// least 1 and under 2, and the root of the sum of their squares is scaled back.
#![tactic(auto)]

ghost use Rattle.std.specs.Prelude.{◌≡◌, true, false, ◌&&◌, ◌+◌, ◌-◌, ◌^◌, ◌≤◌, ◌<◌, max};
ghost use Rattle.std.specs.Float.{binary64};
ghost use Rattle.std.specs.Float.Ieee.{mul};
ghost use Rattle.std.specs.Float.Ieee.Exact.{HasValue};
ghost use Rattle.numbers.specs.Root.{units_of};
ghost use Rattle.numbers.specs.Numbers.{is_finite};
ghost use Rattle.modulus.specs.Modulus.{leading, over, root_of_squares, scaled_by, scaled_modulus, modulus_of};
ghost use Rattle.modulus.specs.Steps.{SizeBits};

use complex::Complex;

// The bits of a finite number without its sign.
fn size_bits(x: f64) -> u64
    requires { is_finite x ≡ true }
    ensures { SizeBits x result }
{
    f64::to_bits(x) % 0x8000_0000_0000_0000
}

// 2^(1023 - f). The one such power that has no full exponent is 2^-1023.
fn power_under(f: u64) -> f64
    requires { (1 ≤ f) × (f ≤ 2046) }
    ensures { HasValue result false (2 ^ 1074) (2 ^ (f + 51)) }
{
    if f == 2046 {
        return f64::from_bits(0x8_0000_0000_0000);
    }
    f64::from_bits((2046 - f) * 0x10_0000_0000_0000)
}

// 2^(f - 1023).
fn power(f: u64) -> f64
    requires { (1 ≤ f) × (f ≤ 2046) }
    ensures { HasValue result false (2 ^ (f + 51)) (2 ^ 1074) }
{
    f64::from_bits(f * 0x10_0000_0000_0000)
}

// The root of the sum of the squares, for which t is a guess.
fn root_of_squares(a: f64, b: f64, t: f64) -> f64
    ensures { result ≡ root_of_squares a b }
{
    root_guesses::root_near(a * a + b * b, t)
}

// Whether x and y are one float. Of a NaN that is never said.
fn same(x: f64, y: f64) -> bool
    ensures { result ≡ true → x ≡ y }
{
    if x != x || y != y {
        return false;
    }
    f64::to_bits(x) == f64::to_bits(y)
}

// The root of the sum of the squares, scaled back by p, for which t is a guess, and g at the root alone. Where both guesses hold, t is handed
// on: what is done with it waits neither for the tests nor for the two scalings.
fn scaled_back(a: f64, b: f64, g: f64, p: f64, t: f64) -> f64
    ensures { result ≡ mul binary64 (root_of_squares a b) p }
{
    let x = a * a + b * b;
    if root_guesses::is_root(x, g) && same(g * p, t) {
        return t;
    }
    root_guesses::root_near(x, g) * p
}

// The larger part has an exponent whose field is f. The guess t at the root of the unscaled squares is scaled as they are.
fn normal(re: f64, im: f64, f: u64, t: f64) -> f64
    requires { (1 ≤ f) × (f ≤ 2046) × (is_finite re ≡ true) × (is_finite im ≡ true) }
    ensures { result ≡ scaled_by (2 ^ (f + 51)) re im }
{
    let under = power_under(f);
    scaled_back(re * under, im * under, t * under, power(f), t)
}

// A part below the normal range, over 2^(63 - z) times 2^-1074. Times 2^54 it is exact, and has a full exponent.
fn faint_part(x: f64, z: u64) -> f64
    requires { (12 ≤ z) × (z ≤ 63) × (is_finite x ≡ true) × (units_of x < 2 ^ 52) }
    ensures { result ≡ over (2 ^ (63 - z)) x }
{
    (x * 18014398509481984.0) * f64::from_bits((1980 + z) * 0x10_0000_0000_0000)
}

// Both parts are below the normal range, the larger m times 2^-1074.
fn faint(re: f64, im: f64, m: u64) -> f64
    requires { (0 < m) × (m < 2 ^ 52) × (is_finite re ≡ true) × (is_finite im ≡ true) × (units_of re < 2 ^ 52) × (units_of im < 2 ^ 52) }
    ensures { result ≡ scaled_by (leading m) re im }
{
    let z = u64::from(m.leading_zeros());
    root_of_squares(faint_part(re, z), faint_part(im, z), 1.0) * f64::from_bits(1u64 << (63 - z))
}

// The modulus of finite parts.
fn scaled(re: f64, im: f64, t: f64) -> f64
    requires { (is_finite re ≡ true) × (is_finite im ≡ true) }
    ensures { result ≡ scaled_modulus (max (units_of re) (units_of im)) re im }
{
    let m = size_bits(re).max(size_bits(im));
    if m < 0x10_0000_0000_0000 {
        if m == 0 {
            return 0.0;
        }
        return faint(re, im, m);
    }
    normal(re, im, m / 0x10_0000_0000_0000, t)
}

// Whether both parts are finite.
fn both_finite(z: Complex) -> bool
    ensures { result ≡ is_finite z.re && is_finite z.im }
{
    numbers::is_finite(z.re) && numbers::is_finite(z.im)
}

// Inner: the modulus of z, for which t, a guess at the root of norm_sqr, decides the time and never the result.
pub fn modulus_near(z: Complex, t: f64) -> f64
    ensures { result ≡ modulus_of z }
{
    if both_finite(z) {
        return scaled(z.re, z.im, t);
    }
    root_guesses::root_near(z.norm_sqr(), t)
}

// The modulus of z: nothing is refused.
pub fn modulus(z: Complex) -> f64
    ensures { result ≡ modulus_of z }
{
    let x = z.norm_sqr();
    let y = root_guesses::reciprocal_near(x);
    modulus_near(z, root_guesses::sharpened(x, x * y, y))
}
