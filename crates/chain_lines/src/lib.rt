// The lines of a chain of sites, put into a lent buffer of bytes. Inner: the caller gives room, and lists that hold a chain. Each
// function answers the place past what it put, and touches nothing else.
#![tactic(auto)]

ghost use Rattle.std.specs.Prelude.{◌≡◌, ◌+◌, ◌*◌, ◌<◌, ◌≤◌, length, get_or};
ghost use Rattle.texts.specs.Text.{Puts, line};
ghost use Rattle.chain_lines.specs.ChainLines.{quiet_word, site_line, site_cell_line, site_cell_lines, rank_line, cut_behind, site_text, site_texts, chain_text, ChainLaid};

// Puts the first line of a site.
fn put_shape(out: &mut [u8], at: usize, j: usize, left: usize, right: usize) -> usize
    requires { at + 68 ≤ length out.old }
    ensures { Puts at (site_line j left right) out.old result out.new }
{
    let past = texts::put_item(out, at, b"site ", j);
    texts::put_pair_line(out, past, b" ", left, right)
}

// Puts the line of a cell: its number in the site, and the bits of its two parts.
fn put_cell(out: &mut [u8], at: usize, k: usize, re: u64, im: u64) -> usize
    requires { at + 60 ≤ length out.old }
    ensures { Puts at (site_cell_line k re im) out.old result out.new }
{
    let past = texts::put_item(out, at, b"cell ", k);
    let last = page_lines::put_hex_item(out, past, b" ", re);
    page_lines::put_bits(out, last, b" ", im)
}

// Puts the lines of count cells, the first of them the cell from.
fn put_cells(out: &mut [u8], at: usize, sites: &[f64], from: usize, count: usize) -> usize
    requires { (2 * (from + count) ≤ length sites.now) × (at + 60 * count ≤ length out.old) }
    ensures { Puts at (site_cell_lines sites.now from count) out.old result out.new }
{
    let mut next = at;
    for k in 0..count {
        let z = complex::read_cell(sites, from + k);
        let re = bits::bits_of(z.re);
        let im = bits::bits_of(z.im);
        next = put_cell(out, next, k, re, im);
    }
    next
}

// Puts the end of a cut's line: whether the last sweep was quiet, and how many pairs were turned.
fn put_turned(out: &mut [u8], at: usize, quiet: usize, turned: usize) -> usize
    requires { at + 26 ≤ length out.old }
    ensures { Puts at (line (quiet_word quiet) turned) out.old result out.new }
{
    if quiet == 1 {
        texts::put_line(out, at, b" yes ", turned)
    } else {
        texts::put_line(out, at, b" no ", turned)
    }
}

// Puts the line of a cut.
fn put_rank(
    out: &mut [u8],
    at: usize,
    j: usize,
    rank: usize,
    sweeps: usize,
    quiet: usize,
    turned: usize,
) -> usize
    requires { at + 92 ≤ length out.old }
    ensures { Puts at (rank_line j rank sweeps quiet turned) out.old result out.new }
{
    let past_j = texts::put_item(out, at, b"cut ", j);
    let past_rank = texts::put_item(out, past_j, b" ", rank);
    let past_sweeps = texts::put_item(out, past_rank, b" ", sweeps);
    put_turned(out, past_sweeps, quiet, turned)
}

// Puts the line of the cut behind site j, where there is one.
#[tactic(auto, using(texts::proofs::TextLaws::puts_none), unfolding(crate::specs::ChainLines::cut_behind))]
fn put_behind(
    out: &mut [u8],
    at: usize,
    n: usize,
    bonds: &[usize],
    marks: &[usize],
    j: usize,
) -> usize
    requires { (j < n) × (n ≤ 12) × (n < length bonds.now) × (3 * n ≤ length marks.now + 3) × (at + 92 ≤ length out.old) }
    ensures { Puts at (cut_behind n bonds.now marks.now j) out.old result out.new }
{
    let after = j + 1;
    if after < n {
        put_rank(
            out,
            at,
            j,
            bonds[after],
            marks[3 * j],
            marks[3 * j + 1],
            marks[3 * j + 2],
        )
    } else {
        at
    }
}

// Puts the lines of site j.
fn put_site(
    out: &mut [u8],
    at: usize,
    n: usize,
    sites: &[f64],
    bonds: &[usize],
    starts: &[usize],
    marks: &[usize],
    j: usize,
) -> usize
    requires chain_laid { ChainLaid n sites.now bonds.now starts.now marks.now (length out.old) }
    requires j_lt_n { (j < n) × (at ≤ 60 * get_or starts.now j 0 + 160 * j + 27) }
    ensures { Puts at (site_text n sites.now bonds.now starts.now marks.now j)
        out.old result out.new }
{
    let after = j + 1;
    let from = starts[j];
    let count = starts[after] - from;
    let past = put_shape(out, at, j, bonds[j], bonds[after]);
    let last = put_cells(out, past, sites, from, count);
    put_behind(out, last, n, bonds, marks, j)
}

// Puts the lines of all sites.
fn put_sites(
    out: &mut [u8],
    at: usize,
    n: usize,
    sites: &[f64],
    bonds: &[usize],
    starts: &[usize],
    marks: &[usize],
) -> usize
    requires chain_laid { ChainLaid n sites.now bonds.now starts.now marks.now (length out.old) }
    requires at_bound { at ≤ 27 }
    ensures { Puts at (site_texts n sites.now bonds.now starts.now marks.now n)
        out.old result out.new }
{
    let mut next = at;
    for j in 0..n {
        next = put_site(out, next, n, sites, bonds, starts, marks, j);
    }
    next
}

// Puts the whole printout of a chain.
pub fn put_chain(
    out: &mut [u8],
    n: usize,
    dropped: usize,
    sites: &[f64],
    bonds: &[usize],
    starts: &[usize],
    marks: &[usize],
) -> usize
    requires { ChainLaid n sites.now bonds.now starts.now marks.now (length out.old) }
    ensures { Puts 0 (chain_text n dropped sites.now bonds.now starts.now marks.now)
        out.old result out.new }
{
    let second = texts::put_line(out, 0, b"chain ", n);
    let last = put_sites(out, second, n, sites, bonds, starts, marks);
    texts::put_line(out, last, b"dropped ", dropped)
}
