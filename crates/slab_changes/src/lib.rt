// Inner: what an accepted call writes: the cells and the index of a slab.
#![tactic(auto)]

ghost use Rattle.std.specs.Prelude.{◌≡◌, ◌+◌, ◌*◌, ◌/◌, ◌≤◌, ◌<◌, length};
ghost use Rattle.slab_sites.specs.Sites.{count, site_at};
ghost use Rattle.slab_cells.specs.Cells.{pasted, wiped};
ghost use Rattle.slab_changes.specs.Changes.{put_index, drop_index, replace_index};

use slab_sites::Site;

// The data from cell start on, and the site as the last entry.
pub fn put_at(
    cells: &mut [u64; 8192],
    index: &mut [u32; 193],
    site: u32,
    data: &[u64],
    start: usize,
)
    requires { (count index.old < 64) × (2 * start + length «data».now ≤ 8192) }
    ensures { (cells.new ≡ pasted (2 * start) «data».now cells.old) × (index.new ≡ put_index index.old site start (length «data».now / 2)) }
{
    slab_cells::paste(cells, start, data);
    let n = index[0] as usize;
    let x = Site {
        number: site,
        start: start as u32,
        cells: (data.len() / 2) as u32,
    };
    slab_sites::put_site(index, n, x);
    index[0] = (n + 1) as u32;
}

// Entry i is taken out, its cells turn to +0.0, and the entries behind it move down.
pub fn drop_at(cells: &mut [u64; 8192], index: &mut [u32; 193], i: usize)
    requires { (i < count index.old) × (count index.old ≤ 64) × ((site_at index.old i).start + (site_at index.old i).cells ≤ 4096) }
    ensures { (cells.new ≡ wiped (site_at index.old i).start (site_at index.old i).cells cells.old) × (index.new ≡ drop_index index.old i) }
{
    let n = index[0] as usize;
    let x = slab_sites::site_at(index, i);
    slab_cells::wipe(cells, x.start as usize, x.cells as usize);
    slab_sites::close_gap(index, i, n - 1 - i);
    let none = Site {
        number: 0,
        start: 0,
        cells: 0,
    };
    slab_sites::put_site(index, n - 1, none);
    index[0] = (n - 1) as u32;
}

// The old cells of entry i turn to +0.0, then the data stand from cell start on.
pub fn replace_at(
    cells: &mut [u64; 8192],
    index: &mut [u32; 193],
    i: usize,
    site: u32,
    data: &[u64],
    start: usize,
)
    requires { (i < 64) × ((site_at index.old i).start + (site_at index.old i).cells ≤ 4096) × (2 * start + length «data».now ≤ 8192) }
    ensures { (cells.new ≡ pasted (2 * start) «data».now (wiped (site_at index.old i).start (site_at index.old i).cells cells.old)) × (index.new ≡ replace_index index.old i site start (length «data».now / 2)) }
{
    let old = slab_sites::site_at(index, i);
    slab_cells::wipe(cells, old.start as usize, old.cells as usize);
    slab_cells::paste(cells, start, data);
    let x = Site {
        number: site,
        start: start as u32,
        cells: (data.len() / 2) as u32,
    };
    slab_sites::put_site(index, i, x);
}
