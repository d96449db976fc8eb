// Inner: the 4,096 cells of a slab, two numbers each, as 64-bit patterns: the map of held cells, the scan of
// the free ones, and what a call writes.
#![tactic(auto)]

ghost use Rattle.std.specs.Prelude.{◌≡◌, true, false, ◌||◌, ◌+◌, ◌*◌, ◌≤◌, ◌<◌, length, get_or};
ghost use Rattle.slab_sites.specs.Sites.{each_apart};
ghost use Rattle.slab_cells.specs.Cells.{blank, clean, marked_entry, map_of, pasted, wiped};

use slab_sites::Site;

// The cells of entry i are held, unless that entry is passed over.
#[tactic(auto, unfolding(crate::specs::Cells::marked_entry))]
fn mark_entry(map: &mut [bool; 4096], x: Site, i: usize, skip: usize)
    requires { x.start + x.cells ≤ 4096 }
    ensures { map.new ≡ marked_entry x i skip map.old }
{
    if i != skip {
        let start = x.start as usize;
        map[start..start + x.cells as usize].fill(true);
    }
}

// Which cells the first n sites hold; entry skip is passed over.
pub fn map_of(index: &[u32; 193], n: usize, skip: usize) -> [bool; 4096]
    requires { (n ≤ 64) × (each_apart index.now n ≡ true) }
    ensures { result ≡ map_of index.now skip n }
{
    let mut map = [false; 4096];
    for i in 0..n {
        let x = slab_sites::site_at(index, i);
        mark_entry(&mut map, x, i, skip);
    }
    map
}

// The cell c is held, or both its numbers are +0.0.
fn cell_passes(cells: &[u64; 8192], map: &[bool; 4096], c: usize) -> bool
    requires { c < 4096 }
    ensures { result ≡ (get_or map.now c false || blank cells.now c) }
{
    map[c] || (cells[2 * c] == 0 && cells[2 * c + 1] == 0)
}

// Every cell is held or +0.0.
pub fn is_clean(cells: &[u64; 8192], map: &[bool; 4096]) -> bool
    ensures { result ≡ clean map.now cells.now }
{
    for c in 0..4096 {
        if !cell_passes(cells, map, c) {
            return false;
        }
    }
    true
}

// The data stand in the cells from start on.
#[tactic(auto, unfolding(crate::specs::Cells::pasted))]
pub fn paste(cells: &mut [u64; 8192], start: usize, data: &[u64])
    requires { 2 * start + length «data».now ≤ 8192 }
    ensures { cells.new ≡ pasted (2 * start) «data».now cells.old }
{
    let at = 2 * start;
    copies::copy_over(&mut cells[at..at + data.len()], data);
}

// The cells from start on, count of them, turn to +0.0.
#[tactic(auto, unfolding(crate::specs::Cells::wiped, crate::specs::Cells::pasted))]
pub fn wipe(cells: &mut [u64; 8192], start: usize, count: usize)
    requires { start + count ≤ 4096 }
    ensures { cells.new ≡ wiped start count cells.old }
{
    let at = 2 * start;
    cells[at..at + 2 * count].fill(0);
}
