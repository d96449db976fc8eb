// Inner: 2 to the q, and laws of whole numbers that several families cite.
#![tactic(auto)]

ghost use Rattle.std.specs.Prelude.{◌≡◌, ◌<◌, ◌^◌};

// 2 to the q.
pub fn bit(q: usize) -> usize
    requires { q < 64 }
    ensures { result ≡ 2 ^ q }
{
    1 << q
}
