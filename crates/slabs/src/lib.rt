// Sites in one slab: 4,096 cells of two numbers each, as 64-bit patterns, and the index of up to 64 sites. A
// put takes the lowest run of free cells that fits, a drop frees its cells, a replace is judged and placed as
// if its old cells were free. A refused call changes nothing.
#![tactic(auto)]

ghost use Rattle.slabs.specs.Slab.{Put, Dropped, Replaced};

use answers::Refusal;

// The site's data stand in the lowest run that fits, and the site is the index's last.
pub fn put(
    cells: &mut [u64; 8192],
    index: &mut [u32; 193],
    site: u32,
    data: &[u64],
) -> Result<(), Refusal>
    ensures { Put cells.old index.old site «data».now result cells.new index.new }
{
    let start = slab_tests::judge(cells, index, site, data.len(), false)?;
    slab_changes::put_at(cells, index, site, data, start);
    Ok(())
}

// The site is held no more, and its cells are +0.0.
pub fn drop(cells: &mut [u64; 8192], index: &mut [u32; 193], site: u32) -> Result<(), Refusal>
    ensures { Dropped cells.old index.old site result cells.new index.new }
{
    if !slab_tests::is_sound(cells, index) {
        return Err(Refusal::Size);
    }
    let n = index[0] as usize;
    let i = slab_sites::find_site(index, n, site).ok_or(Refusal::SiteNumber)?;
    slab_changes::drop_at(cells, index, i);
    Ok(())
}

// The site's data are new ones, in the lowest run that fits where its old cells are free.
pub fn replace(
    cells: &mut [u64; 8192],
    index: &mut [u32; 193],
    site: u32,
    data: &[u64],
) -> Result<(), Refusal>
    ensures { Replaced cells.old index.old site «data».now result cells.new index.new }
{
    let start = slab_tests::judge(cells, index, site, data.len(), true)?;
    let n = index[0] as usize;
    // It is there: `judge` found it.
    let i = slab_sites::find_site(index, n, site).unwrap();
    slab_changes::replace_at(cells, index, i, site, data, start);
    Ok(())
}
