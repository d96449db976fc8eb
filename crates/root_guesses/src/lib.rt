// Inner: the square root of a number whose root the caller can guess. Whole numbers tell whether the
// guess is the root; where it is not, the root is worked out. So a guess decides the time and never
// the result, and several guesses can be made side by side before the first root is known.
#![tactic(auto)]

ghost use Rattle.std.specs.Prelude.{◌≡◌, ◌-◌, ◌*◌, ◌^◌, ◌<◌, ◌≤◌, true};
ghost use Rattle.numbers.specs.Root.{sqrt_of};
ghost use Rattle.numbers.specs.Steps.{NearestWhole};

// Whether q is the whole number nearest to the root of n * 2^52. With q = h * 2^26 + l, w is
// n * 2^52 - q * q + 2^54.
fn is_nearest(n: u64, q: u64) -> bool
    requires { (2 ^ 52 ≤ n) × (n < 2 ^ 54 - 1) × (2 ^ 52 ≤ q) × (q < 2 ^ 53) }
    ensures { result ≡ true → NearestWhole (n * 2 ^ 52) q }
{
    let h = q / 0x400_0000;
    let l = q % 0x400_0000;
    let hh = h * h;
    if n + 4 < hh {
        return false;
    }
    let d = n + 4 - hh;
    if d > 0x1fff_ffff {
        return false;
    }
    let hl = h * l;
    let dd = d * 0x200_0000;
    if dd < hl {
        return false;
    }
    let e = dd - hl;
    if e > 0xfff_ffff {
        return false;
    }
    // v is w + q, and l * l is below q. That 2^54 - q < w and w <= 2^54 + q is one test: below its least value the difference wraps round to a
    // number that is too large.
    let ll = l * l;
    let v = e * 0x800_0000 + q - ll;
    v.wrapping_sub(0x40_0000_0000_0001) < 2 * q
}

// Whether t is the root of x. Only of an x with a full exponent is that ever said.
pub fn is_root(x: f64, t: f64) -> bool
    ensures { result ≡ true → t ≡ sqrt_of x }
{
    if x != x || t != t {
        return false;
    }
    let b = f64::to_bits(x);
    if b < 0x10_0000_0000_0000 {
        return false;
    }
    let half = (b - 0x10_0000_0000_0000) / 0x20_0000_0000_0000;
    if half >= 1023 {
        return false;
    }
    let a = f64::to_bits(t);
    if a / 0x10_0000_0000_0000 != half + 512 {
        return false;
    }
    let e = b / 0x10_0000_0000_0000 + 51;
    let m = 0x10_0000_0000_0000 + b % 0x10_0000_0000_0000;
    let q = 0x10_0000_0000_0000 + a % 0x10_0000_0000_0000;
    is_nearest(m << (e % 2), q)
}

// The square root of x, for which t is a guess.
pub fn root_near(x: f64, t: f64) -> f64
    ensures { result ≡ sqrt_of x }
{
    if is_root(x, t) {
        return t;
    }
    numbers::sqrt(x)
}

// About 1 / √x, off by 4 parts in 100 at most, for an x whose exponent is not at either end.
fn first_near(x: f64) -> f64 {
    if x != x {
        return 1.0;
    }
    let b = f64::to_bits(x);
    if b < 0x80_0000_0000_0000 || b >= 0x7f00_0000_0000_0000 {
        return 1.0;
    }
    f64::from_bits(0x5fe6_eb50_c7b5_37a9 - b / 2)
}

// y / √z to some 35 digits of 53, for a z near 1: the polynomial's parts are summed side by side, so that few steps wait for each other.
fn over_root(y: f64, z: f64) -> f64 {
    let zz = z * z;
    let low = 2.935010477328131 - 5.877886421492257 * z;
    let middle = 8.825201841196376 - 8.409656699529739 * z;
    let high = (4.906466113583834 - 1.605400247525944 * z) + 0.22626493644073725 * zz;
    (y * low + (y * zz) * middle) + ((y * zz) * zz) * high
}

// About 1 / √x to some 35 digits.
pub fn reciprocal_near(x: f64) -> f64 {
    let y = first_near(x);
    over_root(y, (x * y) * y)
}

// A better guess at √x from g, near √x, and y, near 1 / √x, both to some 35 digits. The upper digits s of g have an exact square, so what that is
// off by is exact too, and times 1 / (√x + s) it is what s lacks. All but that waits for no more than the guesses, so they can be made before x
// is known. For an x so far from 1 that y * y is past the exponents the guess is none.
pub fn sharpened(x: f64, g: f64, y: f64) -> f64 {
    let wide = 134217728.0 * g;
    let s = (g + wide) - wide;
    let factor = 0.5 * y + (0.25 * (y * y)) * (g - s);
    s + (x - s * s) * factor
}

// Guesses at what the three roots of a Jacobi decision give: nothing is promised of them, and they
// decide nothing but the time. All three are made from the pair's sums alone, so that none waits for
// the root before it.
#[derive(Clone, Copy)]
pub struct Guesses {
    // |g_pq|
    pub modulus: f64,
    // √(1 + tau²) and its reciprocal
    pub root: f64,
    pub root_over: f64,
    // 1 / cosine, and the cosine
    pub secant: f64,
    pub cosine: f64,
}

// For a pair with g_qq - g_pp = d and |g_pq|² = off. The modulus is what everything behind it waits for: it is made like `sharpened` makes a guess,
// but from numbers that are there earlier. `wide` is about 2^27 times the root, and never so small that s would have more than 26 digits;
// `quarter` is about 1 / (4 off).
pub fn guess_roots(d: f64, off: f64) -> Guesses {
    let first = first_near(off);
    let near = off * first;
    let z = near * first;
    let y = over_root(first, z);
    let modulus = over_root(near, z);
    let wide = 147639500.0 * near;
    let s = (modulus + wide) - wide;
    let quarter = (first * first) * (0.5 - 0.25 * z);
    let factor = 0.5 * y + quarter * (modulus - s);
    let square = d * d + 4.0 * off;
    let over = reciprocal_near(square);
    let size = if d < 0.0 { -d } else { d };
    let cosine_square = 0.5 + (0.5 * size) * over;
    let secant = reciprocal_near(cosine_square);
    Guesses {
        modulus: s + (off - s * s) * factor,
        root: (square * over) * (0.5 * y),
        root_over: 2.0 * (modulus * over),
        secant,
        cosine: cosine_square * secant,
    }
}

// A guess at √x from y, which is off from 1 / √x by 4 parts in 100 at most: `root` has some 20 digits of √x, and s, its upper digits, an exact
// square. What s lacks then is one quotient, which triples the digits: 2 s (x - s²) / (3 s² + x).
fn guess_from(x: f64, y: f64) -> f64 {
    let g = x * y;
    let z = g * y;
    let low = 2.1893327346158226 - 2.1917205859270128 * z;
    let high = 1.3154411523672822 - 0.3130540474310195 * z;
    let root = g * low + (g * (z * z)) * high;
    let wide = 147639500.0 * g;
    let s = (root + wide) - wide;
    let ss = s * s;
    s + ((s + s) * (x - ss)) / (3.0 * ss + x)
}

// The square root of x: ±0 and +inf give themselves, a negative x and a NaN give the NaN, and any other x the float nearest to its root. By a guess
// from x alone.
pub fn root_of(x: f64) -> f64
    ensures { result ≡ sqrt_of x }
{
    if x != x {
        return numbers::sqrt(x);
    }
    let b = f64::to_bits(x);
    if b < 0x10_0000_0000_0000 || (b - 0x10_0000_0000_0000) / 0x20_0000_0000_0000 >= 1023 {
        return numbers::sqrt(x);
    }
    let t = guess_from(x, f64::from_bits(0x5fe6_eb50_c7b5_37a9 - b / 2));
    if is_root(x, t) {
        return t;
    }
    numbers::sqrt(x)
}
