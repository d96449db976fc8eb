// The entropy of a cut as a band of whole numbers: the weights of its Schmidt values, each one's band in their sum, and the sums.
#![tactic(auto)]

ghost use Rattle.std.specs.Prelude.{◌≡◌, ◌+◌, ◌*◌, ◌^◌, ◌≤◌, length};
ghost use Rattle.answers.specs.Paper.{paper};
ghost use Rattle.entropy_bands.specs.Bands.{entropy_lengths, entropy_rest, SumReady, SummedUp, WorkReady, EntropyWorked, EntropyBand};

use answers::Refusal;
use sweeps::Sweeps;

// How many weights are left, the sums of w*lo and w*hi, 4096 times the sum of the weights, and the cut's sweeps.
#[derive(Clone, Copy)]
pub struct Entropy {
    pub count: usize,
    pub low: u64,
    pub high: u64,
    pub whole: u64,
    pub sweeps: Sweeps,
}

// The first slice of a wrong length, or too short: 6.
#[tactic(auto, unfolding(crate::specs::Bands::entropy_lengths))]
fn check_lengths(
    n: usize,
    rows: usize,
    state: usize,
    bands: usize,
    scratch: usize,
) -> Result<(), Refusal>
    requires { (n ≤ 12) × (rows ≤ 64) }
    ensures { paper result ≡ entropy_lengths n rows state bands scratch }
{
    let cells = submasks::bit(n);
    answers::exact_length(0, state, 2 * cells)?;
    answers::enough_room(2, bands, 3 * rows)?;
    answers::enough_room(3, scratch, 8 * cells + 2 * rows)
}

// What is refused once the sides are known: 6 and 7.
#[tactic(auto, unfolding(crate::specs::Bands::entropy_rest))]
fn check(state: &[f64], n: usize, rows: usize, bands: usize, scratch: usize) -> Result<(), Refusal>
    requires { (n ≤ 12) × (rows ≤ 64) }
    ensures { paper result ≡ entropy_rest state.now n rows bands scratch }
{
    check_lengths(n, rows, state.len(), bands, scratch)?;
    components::check_components(state)
}

// The bands of finished values over cells that are all 0: 0, or 8 where no weight is left.
fn sum_up(values: &[f64], sweeps: Sweeps, bands: &mut [usize]) -> Result<Entropy, Refusal>
    requires { SumReady values.now bands.old }
    ensures { SummedUp values.now sweeps (length bands.old) result bands.new }
{
    let all = entropy_sums::whole_weight(values);
    if all == 0 {
        return Err(Refusal::NoWeight);
    }
    let powers = entropy_powers::powers_of(all);
    let s = entropy_sums::fill(values, powers, bands);
    Ok(Entropy {
        count: s.count,
        low: s.low,
        high: s.high,
        whole: 4096 * all,
        sweeps,
    })
}

// The work of a call that no test refuses, over bands of exactly the needed length: 0, 8 or 9.
fn work(
    state: &[f64],
    n: usize,
    list: &[usize],
    cap: usize,
    rows: usize,
    bands: &mut [usize],
    scratch: &mut [f64],
) -> Result<Entropy, Refusal>
    requires { WorkReady state.now n list.now cap rows bands.old scratch.old }
    ensures { EntropyWorked state.now n list.now rows scratch.old result bands.new scratch.new }
{
    let mut values = [0.0f64; 64];
    let got = cut_values::dense_schmidt_values(state, n, list, cap, &mut values[..rows], scratch);
    bands.fill(0);
    let cut = got?;
    sum_up(&values[..cut.count], cut.sweeps, bands)
}

// The entropy of the cut as a band: w, lo and hi of each weight left at the front of bands, and the sums.
pub fn entropy_band(
    state: &[f64],
    n: usize,
    list: &[usize],
    cap: usize,
    bands: &mut [usize],
    scratch: &mut [f64],
) -> Result<Entropy, Refusal>
    ensures { EntropyBand state.now n list.now cap bands.old scratch.old result
        bands.new scratch.new }
{
    cut_sides::cut_refusal(list, n, cap)?;
    let cut = cut_sides::sides_of(list, n);
    let rows = cut.rows;
    check(state, n, rows, bands.len(), scratch.len())?;
    let need = 3 * rows;
    work(state, n, list, cap, rows, &mut bands[..need], scratch)
}
