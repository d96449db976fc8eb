// Inner: the tests of a call on a slab, in their order, and the run of cells that it takes.
#![tactic(auto)]

ghost use Rattle.std.specs.Prelude.{◌≡◌, true, ◌/◌, ◌≤◌};
ghost use Rattle.slab_sites.specs.Sites.{count, each_apart};
ghost use Rattle.slab_tests.specs.Tests.{sound, bad_data, room, Judged};

use answers::Refusal;

// The slab passes every test of its own.
#[tactic(auto, unfolding(crate::specs::Tests::sound))]
pub fn is_sound(cells: &[u64; 8192], index: &[u32; 193]) -> bool
    ensures { result ≡ sound cells.now index.now }
{
    let n = index[0] as usize;
    if n > 64 || !slab_sites::each_apart(index, n) {
        return false;
    }
    let map = slab_cells::map_of(index, n, 64);
    slab_cells::is_clean(cells, &map)
}

// Data of no cells, of an odd count of numbers or of more than 4,096 cells.
fn is_bad(len: usize) -> bool
    ensures { result ≡ bad_data len }
{
    len == 0 || len % 2 == 1 || len > 8192
}

// The lowest run that len numbers take, entry skip not counted. It is called, so that its map of the cells and that of `is_sound` do not
// stand on the stack at one time.
#[inline(never)]
#[tactic(auto, unfolding(crate::specs::Tests::room))]
fn room_for(index: &[u32; 193], skip: usize, len: usize) -> Option<usize>
    requires { (count index.now ≤ 64) × (each_apart index.now (count index.now) ≡ true) × (1 ≤ len / 2) }
    ensures { result ≡ room index.now skip len }
{
    let n = index[0] as usize;
    let map = slab_cells::map_of(index, n, skip);
    slab_runs::lowest_run(&map, len / 2)
}

// The tests of a put, or of a replace where `again`: the first cell of the run that it takes.
pub fn judge(
    cells: &[u64; 8192],
    index: &[u32; 193],
    site: u32,
    len: usize,
    again: bool,
) -> Result<usize, Refusal>
    ensures { Judged again cells.now index.now site len result }
{
    if !is_sound(cells, index) || is_bad(len) {
        return Err(Refusal::Size);
    }
    let n = index[0] as usize;
    let held = slab_sites::find_site(index, n, site);
    if held.is_some() != again {
        return Err(Refusal::SiteNumber);
    }
    // A replace passes over its own entry, a put over none.
    let start = room_for(index, held.unwrap_or(64), len).ok_or(Refusal::NoRun)?;
    if !again && n == 64 {
        return Err(Refusal::Full);
    }
    Ok(start)
}
