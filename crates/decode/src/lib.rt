// The list and the state of a cut file, read through the view into lent slices. Inner: the caller has the counts from a
// header that was answered 0.
#![tactic(auto)]

ghost use Rattle.std.specs.Prelude.{◌≡◌, ◌*◌, ◌^◌, ◌≤◌, length};
ghost use Rattle.cutfile.specs.Layout.{LongEnough, file_entry, component_at};
ghost use Rattle.tables.specs.Tables.{filled};

// The list's entries, at the front of out; the surplus is not touched.
#[tactic(auto, using(tables::proofs::TablesLaws::filled_none))]
pub fn decode_list(file: &[u8], n: usize, k: usize, out: &mut [usize])
    requires long_enough { LongEnough file.now n k }
    requires k_in_bounds { k ≤ length out.old }
    ensures { out.new ≡ filled k (file_entry file.now) out.old }
{
    for i in 0..k {
        out[i] = cutfile_view::list_entry(file, n, k, i) as usize;
    }
}

// The state's components, at the front of out; the surplus is not touched.
#[tactic(auto, using(tables::proofs::TablesLaws::filled_none))]
pub fn decode_state(file: &[u8], n: usize, k: usize, out: &mut [f64])
    requires long_enough { LongEnough file.now n k }
    requires n_in_bounds { 2 * 2 ^ n ≤ length out.old }
    ensures { out.new ≡ filled (2 * 2 ^ n) (component_at file.now k) out.old }
{
    for j in 0..2 * cutfile::bit(n) {
        let bits = cutfile_view::amplitude_bits(file, n, k, j / 2, j % 2);
        out[j] = cutfile::component_of(bits);
    }
}
