// A block's factor multiplied into a density.
#![tactic(auto)]

ghost use Rattle.std.specs.Prelude.{◌≡◌, ◌*◌, ◌^◌, ◌<◌, ◌≤◌, length};
ghost use Rattle.answers.specs.Paper.{paper};
ghost use Rattle.densities.specs.Square.{InPlace};
ghost use Rattle.density_block.specs.Factor.{width_of, block_index, block_sizes, block_lengths, block_answer, factor_entry, multiplied, Below, Factored};
ghost use Rattle.density_block.specs.FactorLoops.{FactorSteps};

use answers::Refusal;

// log2 of a power of two from 2 to 64; any other number gives 0, below which there is no position.
fn width_of(dim: usize) -> usize
    ensures { result ≡ width_of 6 dim }
{
    for q in (1..7usize).rev() {
        if dim == submasks::bit(q) {
            return q;
        }
    }
    0
}

// The number that the bits of t at the positions make: bit j is the bit at positions[j].
fn block_index(positions: &[usize], t: usize) -> usize
    requires { Below positions.now }
    ensures { result ≡ block_index positions.now t }
{
    let mut index: usize = 0;
    for j in (0..positions.len()).rev() {
        index = (t >> positions[j]) % 2 + 2 * index;
    }
    index
}

// Answer 1: dim a power of two, distinct positions below its logarithm, the factor's side 2 to their number.
fn block_sizes(dim: usize, positions: &[usize], side: usize) -> Result<(), Refusal>
    ensures { paper result ≡ block_sizes dim positions.now side }
{
    let Ok(()) = qubits::validate_qubit_set(positions, width_of(dim)) else {
        return Err(Refusal::Size);
    };
    if side != submasks::bit(positions.len()) {
        return Err(Refusal::Size);
    }
    Ok(())
}

// Answer 6: the matrix, slice 0, and the factor, slice 2, are exact.
fn block_lengths(dim: usize, side: usize, rho: usize, factor: usize) -> Result<(), Refusal>
    requires { (dim ≤ 64) × (side ≤ 64) }
    ensures { paper result ≡ block_lengths dim side rho factor }
{
    if rho != 2 * (dim * dim) {
        return Err(Refusal::Length(0));
    }
    if factor != 2 * (side * side) {
        return Err(Refusal::Length(2));
    }
    Ok(())
}

// The row t, each entry times the factor's at the two block indices.
fn multiply_row(
    rho: &mut [f64],
    dim: usize,
    t: usize,
    positions: &[usize],
    factor: &[f64],
    side: usize,
)
    requires { Factored rho.old dim positions.now factor.now side × (t < dim) }
    ensures { FactorSteps dim t (factor_entry positions.now factor.now side t) rho.old rho.new dim }
{
    let row = block_index(positions, t) * side;
    for u in 0..dim {
        let at = t * dim + u;
        let y = complex::read_cell(factor, row + block_index(positions, u));
        let x = complex::read_cell(rho, at);
        complex::write_cell(rho, at, x.mul(y));
    }
}

// Every row.
fn multiply_rows(rho: &mut [f64], dim: usize, positions: &[usize], factor: &[f64], side: usize)
    requires { Factored rho.old dim positions.now factor.now side }
    ensures { rho.new ≡ multiplied rho.old dim positions.now factor.now side }
{
    for t in 0..dim {
        multiply_row(rho, dim, t, positions, factor, side);
    }
}

// Answers 1 to 7.
fn block_answer(
    rho: &[f64],
    dim: usize,
    positions: &[usize],
    factor: &[f64],
    side: usize,
) -> Result<(), Refusal>
    ensures { paper result ≡ block_answer rho.now dim positions.now factor.now side }
{
    block_sizes(dim, positions, side)?;
    block_lengths(dim, side, rho.len(), factor.len())?;
    components::check_components(rho)?;
    components::check_components(factor)
}

// A block's factor multiplied into the matrix, the block's qubits at the positions: refused by 1, 6 and 7.
pub fn multiply_block_factor(
    rho: &mut [f64],
    dim: usize,
    positions: &[usize],
    factor: &[f64],
    side: usize,
) -> Result<(), Refusal>
    ensures { InPlace (block_answer rho.old dim positions.now factor.now side) (multiplied rho.old dim positions.now factor.now side) rho.old result rho.new }
{
    block_answer(rho, dim, positions, factor, side)?;
    multiply_rows(rho, dim, positions, factor, side);
    Ok(())
}
