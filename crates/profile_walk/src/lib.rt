// Inner: the walk along the cuts of a chain, one cut after another over the lent slices.
#![tactic(auto)]

ghost use Rattle.std.specs.Prelude.{◌≡◌, length};
ghost use Rattle.profile_walk.specs.Page.{PutRoom, PutCut, WalkRoom, WalkEnd};

use answers::Refusal;

// Cut j; how many values are packed then. Its values go to values from number `at` on, its count and `at` to header, its first value to largest, its count to
// ranks, and its marks to marks.
fn put_cut(
    state: &[f64],
    n: usize,
    j: usize,
    cap: usize,
    at: usize,
    header: &mut [usize],
    values: &mut [f64],
    largest: &mut [f64],
    ranks: &mut [usize],
    marks: &mut [usize],
    scratch: &mut [f64],
) -> Result<usize, Refusal>
    requires { PutRoom state.now n j cap at (length header.old) (length values.old) (length largest.old) (length ranks.old) (length marks.old) (length scratch.old) }
    ensures { PutCut state.now n j at header.old values.old largest.old ranks.old marks.old result
        header.new values.new largest.new ranks.new marks.new }
{
    let alone = profile_cut::cut_alone(state, n, j, cap, &mut values[at..], scratch)?;
    let count = alone.count;
    profile_cut::put_marks(j, alone, marks);
    let place = 2 * j;
    header[place] = count;
    header[place + 1] = at;
    ranks[j] = count;
    largest[j] = values[at];
    Ok(at + count)
}

// Every cut, the lowest j first; how many values are packed. The first refusal ends the walk.
pub fn walk(
    state: &[f64],
    n: usize,
    cap: usize,
    header: &mut [usize],
    values: &mut [f64],
    largest: &mut [f64],
    ranks: &mut [usize],
    marks: &mut [usize],
    scratch: &mut [f64],
) -> Result<usize, Refusal>
    requires { WalkRoom state.now n cap (length header.old) (length values.old) (length largest.old) (length ranks.old) (length marks.old) (length scratch.old) }
    ensures { WalkEnd state.now n result header.new values.new largest.new ranks.new marks.new }
{
    let mut at = 0;
    for j in 0..n - 1 {
        at = put_cut(
            state, n, j, cap, at, header, values, largest, ranks, marks, scratch,
        )?;
    }
    Ok(at)
}
