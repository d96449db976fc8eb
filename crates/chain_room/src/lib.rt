// Inner: the room that a chain of sites asks, in cells.
#![tactic(auto)]

ghost use Rattle.std.specs.Prelude.{◌≡◌, ◌≤◌};
ghost use Rattle.chain_walk.specs.Chain.{most_of, room_to};

// B(j): the widest that the bond before site j can be.
#[tactic(auto, unfolding(chain_walk::specs::Chain::most_of))]
fn most_of(n: usize, limit: usize, j: usize) -> usize
    requires { (n ≤ 12) × (j ≤ n) }
    ensures { result ≡ most_of n limit j }
{
    let narrow = submasks::bit(j).min(submasks::bit(n - j));
    limit.min(narrow)
}

// The cells that the n sites can take.
pub fn room_of(n: usize, limit: usize) -> usize
    requires { n ≤ 12 }
    ensures { result ≡ room_to n limit n }
{
    let mut room = 0;
    for j in 0..n {
        room += 2 * most_of(n, limit, j) * most_of(n, limit, j + 1);
    }
    room
}
