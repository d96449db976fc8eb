// Inner: a float as a whole number of 2^-18, from its bits.
#![tactic(auto)]

ghost use Rattle.std.specs.Prelude.{◌≡◌, ◌^◌, ◌<◌};
ghost use Rattle.countersign_grid.specs.Grid.{GridBits, grid_of};

// How many of 2^-18 a float is, over or under 0.
#[derive(Clone, Copy)]
pub struct Grid {
    pub over: u64,
    pub under: u64,
}

// How many of 2^-18 the bits without the sign are, where they are a whole number of them and at most 1.
fn grid_bits(b: u64) -> Option<u64>
    requires { b < 2 ^ 63 }
    ensures { GridBits b result }
{
    if b == 0 {
        return Some(0);
    }
    if b > 0x3ff0_0000_0000_0000 {
        return None;
    }
    let e = b / 0x10_0000_0000_0000;
    if e < 1005 {
        return None;
    }
    let digits = 0x10_0000_0000_0000 + b % 0x10_0000_0000_0000;
    let power = 1u64 << (1057 - e);
    if digits % power != 0 {
        return None;
    }
    Some(digits / power)
}

// The float on the grid, where it is a whole number of 2^-18 and at most 1 in magnitude.
pub fn grid_of(x: f64) -> Option<Grid>
    ensures { result ≡ grid_of x }
{
    let b = bits::bits_of(x);
    let units = grid_bits(b % 0x8000_0000_0000_0000)?;
    if b < 0x8000_0000_0000_0000 {
        Some(Grid {
            over: units,
            under: 0,
        })
    } else {
        Some(Grid {
            over: 0,
            under: units,
        })
    }
}
