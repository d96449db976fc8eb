// Inner: the index of a slab and its sites. The index is 193 numbers: how many sites are held, then three
// numbers for each: the site's number, its first cell and its count of cells.
#![tactic(auto)]

ghost use Rattle.std.specs.Prelude.{◌≡◌, ◌+◌, ◌*◌, ◌≤◌, ◌<◌, SomeIff};
ghost use Rattle.slab_sites.specs.Sites.{site_at, set_site, inside, apart, apart_from, each_apart, find_site, shifted};

#[derive(Clone, Copy)]
pub struct Site {
    pub number: u32,
    pub start: u32,
    pub cells: u32,
}

// Entry i of the index.
pub fn site_at(index: &[u32; 193], i: usize) -> Site
    requires { i < 64 }
    ensures { result ≡ site_at index.now i }
{
    Site {
        number: index[1 + 3 * i],
        start: index[2 + 3 * i],
        cells: index[3 + 3 * i],
    }
}

// The site x becomes entry i.
pub fn put_site(index: &mut [u32; 193], i: usize, x: Site)
    requires { i < 64 }
    ensures { index.new ≡ set_site index.old i x }
{
    index[1 + 3 * i] = x.number;
    index[2 + 3 * i] = x.start;
    index[3 + 3 * i] = x.cells;
}

// The cell behind a site's last.
fn end_of(x: Site) -> usize
    ensures { result ≡ x.start + x.cells }
{
    x.start as usize + x.cells as usize
}

// The site has a cell and does not leave the slab.
fn is_inside(x: Site) -> bool
    ensures { result ≡ inside x }
{
    x.cells != 0 && end_of(x) <= 4096
}

// The two sites share neither their number nor a cell.
fn are_apart(a: Site, b: Site) -> bool
    ensures { result ≡ apart a b }
{
    a.number != b.number && (end_of(a) <= b.start as usize || end_of(b) <= a.start as usize)
}

// The site x is apart from each of the first n.
fn apart_from(index: &[u32; 193], n: usize, x: Site) -> bool
    requires { n ≤ 64 }
    ensures { result ≡ apart_from index.now x n }
{
    for j in 0..n {
        if !are_apart(site_at(index, j), x) {
            return false;
        }
    }
    true
}

// Each of the first n sites is inside, and apart from all before it.
pub fn each_apart(index: &[u32; 193], n: usize) -> bool
    requires { n ≤ 64 }
    ensures { result ≡ each_apart index.now n }
{
    for i in 0..n {
        let x = site_at(index, i);
        if !is_inside(x) || !apart_from(index, i, x) {
            return false;
        }
    }
    true
}

// The first of the first n entries whose site has that number.
pub fn find_site(index: &[u32; 193], n: usize, number: u32) -> Option<usize>
    requires { n ≤ 64 }
    ensures { SomeIff result (find_site index.now number n < n) (find_site index.now number n) }
{
    for i in 0..n {
        if site_at(index, i).number == number {
            return Some(i);
        }
    }
    None
}

// The m entries behind entry i move down by one.
pub fn close_gap(index: &mut [u32; 193], i: usize, m: usize)
    requires { i + m < 64 }
    ensures { index.new ≡ shifted index.old i m }
{
    for t in 0..m {
        let x = site_at(index, i + t + 1);
        put_site(index, i + t, x);
    }
}
