// The lines of a matrix, put into a lent buffer of bytes. Inner: the caller gives room. Each function answers the place past what
// it put, and touches nothing else.
#![tactic(auto)]

ghost use Rattle.std.specs.Prelude.{◌≡◌, ◌+◌, ◌*◌, ◌≤◌, length};
ghost use Rattle.texts.specs.Text.{Puts};
ghost use Rattle.page_cells.specs.PageCells.{cell_line, cell_lines, Lined};

// Puts the line of a cell: a word, its row and column, and its two bit patterns.
pub fn put_cell(
    out: &mut [u8],
    at: usize,
    word: &[u8],
    row: usize,
    column: usize,
    re: u64,
    im: u64,
) -> usize
    requires { at + length word.now + 76 ≤ length out.old }
    ensures { Puts at (cell_line word.now row column re im) out.old result out.new }
{
    let past_row = texts::put_item(out, at, word, row);
    let past_column = texts::put_item(out, past_row, b" ", column);
    let past_re = page_lines::put_hex_item(out, past_column, b" ", re);
    page_lines::put_bits(out, past_re, b" ", im)
}

// Puts the lines of a square matrix, row after row.
pub fn put_cells(out: &mut [u8], at: usize, word: &[u8], cells: &[f64], dim: usize) -> usize
    requires { Lined word.now dim cells.now at (length out.old) }
    ensures { Puts at (cell_lines word.now dim (dim * dim) cells.now) out.old result out.new }
{
    let mut next = at;
    for k in 0..dim * dim {
        let z = complex::read_cell(cells, k);
        let re = bits::bits_of(z.re);
        let im = bits::bits_of(z.im);
        next = put_cell(out, next, word, k / dim, k % dim, re, im);
    }
    next
}
