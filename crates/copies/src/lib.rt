// Inner: one slice copied over another, by a loop: std's `copy_from_slice` calls the C library's memmove, which the shared library does not
// import (docs/DECISIONS.md, Faces-10).
#![tactic(auto)]

ghost use Rattle.std.specs.Prelude.{◌≡◌, length};

// The numbers of `to` become those of `from`.
pub fn copy_over<T: Copy>(to: &mut [T], from: &[T])
    requires { length to.old ≡ length from.now }
    ensures { to.new ≡ from.now }
{
    for i in 0..from.len() {
        to[i] = from[i];
    }
}
