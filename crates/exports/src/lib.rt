// The C face: each entry point under its name with the prefix zg_. A slice is passed as a pointer and a
// length; the answer's number is returned, its place and each further result are stored by reference.
// The contract of each is its entry point's: some answer has that number and that place, and with it the
// entry point's contract holds.
#![tactic(auto)]

ghost use Rattle.std.specs.Prelude.{◌≡◌, ℕ, ◌≤◌, ◌*◌, Bool, false, length};
ghost use Rattle.answers.specs.Paper.{paper, given, and_then};
ghost use Rattle.told.specs.Told.{Exported, ExportedWith, ExportedResult};
ghost use Rattle.std.specs.Float.{binary64};
ghost use Rattle.std.specs.Float.Ieee.{to_bits, of_bits};
ghost use Rattle.numbers.specs.Root.{sqrt_of};
ghost use Rattle.exact_roots.specs.Exact.{exact_root};
ghost use Rattle.complex.specs.Arithmetic.{complex_of};
ghost use Rattle.modulus.specs.Modulus.{modulus_of};
ghost use Rattle.numbers.specs.Numbers.{magnitude_of, sign_of, is_finite, total_order, order_number, allowed, total_less};
ghost use Rattle.qubits.specs.Lists.{qubit_set, subsystem};
ghost use Rattle.qubit_offsets.specs.Calls.{RowOffsets, TracedBase};
ghost use Rattle.densities.specs.Square.{square_answer, InPlace};
ghost use Rattle.density_entries.specs.Squares.{mirrored};
ghost use Rattle.finish.specs.Outcome as finish;
ghost use Rattle.cut_sides.specs.Sides.{SmallerSide};
ghost use Rattle.cuts.specs.Cut.{CutMatrix};
ghost use Rattle.densities.specs.Density.{Density};
ghost use Rattle.qr.specs.Call.{Factorized};
ghost use Rattle.density_trace.specs.Trace.{normalize_answer, normalized};
ghost use Rattle.density_block.specs.Factor.{block_answer, multiplied};
ghost use Rattle.sweeps.specs.declared.Sweeps.{Sweeps};
ghost use Rattle.sweeps.specs.Sweeping.{no_sweeps};
ghost use Rattle.factored.specs.declared.Counted.{Counted};
ghost use Rattle.factored.specs.Factored.{no_count};
ghost use Rattle.svd.specs.Svd.{Svd};
ghost use Rattle.spectra.specs.Outcomes.{Eigenvalues};
ghost use Rattle.site_ranks.specs.Ranks.{rank_of, discards_of, Ranked, bond_sizes, cut_rank_of, widest_sizes, widest_of};
ghost use Rattle.site_lines.specs.Sources.{site_cell, isometry_cell, scaled_u_cell, vt_cell, scaled_vt_cell};
ghost use Rattle.sites.specs.Calls.{column_sizes, row_sizes, plain_reply, scaled_u_reply, scaled_vt_reply, Filled};
ghost use Rattle.spectra.specs.Density.{DensityValues};
ghost use Rattle.density_recount.specs.Recount.{DensityFromCut};
ghost use Rattle.pages.specs.Agree.{Says, pages_answer, pages_same};
ghost use Rattle.countersign.specs.Verdict.{found, Countersign};
ghost use Rattle.chains.specs.Chains.{ChainOfSites};
ghost use Rattle.slabs.specs.Slab.{Put, Dropped, Replaced};
ghost use Rattle.lots.specs.Lot.{Lot};
ghost use Rattle.hermitian_eigen.specs.Hermitian.{Eigen};
ghost use Rattle.cut_values.specs.Schmidt.{Schmidt, no_cut};
ghost use Rattle.profiles.specs.Profile.{CutProfile};
ghost use Rattle.cut_values.specs.declared.CutCounted.{CutCounted};
ghost use Rattle.entropy_bands.specs.declared.Entropy.{Entropy};
ghost use Rattle.entropy_bands.specs.Bands.{EntropyBand, no_entropy};
ghost use Rattle.plan_changes.specs.Changes.{adding, dropping, switching};
ghost use Rattle.plan_calls.specs.Stored.{CutPlanStored, ChangeStored};
ghost use Rattle.plan_numbers.specs.Numbers.{plan_at};
ghost use Rattle.plan_matrix.specs.PlannedCut.{PlannedCut};
ghost use Rattle.plan_values.specs.PlannedValues.{PlannedValues};
ghost use Rattle.plan_density.specs.PlannedDensity.{PlannedDensity};
ghost use Rattle.cutfile_result.specs.Result.{file_reply};
ghost use Rattle.certificates.specs.Certificate.{certificate_of};
ghost use Rattle.certificates.specs.declared.Written.{Written};
ghost use Rattle.certificate_pages.specs.Pages.{pages_of, Called};

use answers::Refusal;
use complex::Complex;
use cut_values::CutCounted;
use entropy_bands::Entropy;
use factored::Counted;

// What a call gave, or `none` where it was refused.
fn given<T: Copy>(none: T, made: &Result<T, Refusal>) -> T
    ensures { result ≡ given none made.now }
{
    match made {
        Ok(x) => *x,
        Err(_) => none,
    }
}

// Of a refusal: no value, no sweep.
fn no_count() -> Counted
    ensures { result ≡ no_count }
{
    Counted {
        count: 0,
        sweeps: sweeps::none(),
    }
}

// The same, and the mark is no.
fn no_cut() -> CutCounted
    ensures { result ≡ no_cut }
{
    CutCounted {
        count: 0,
        sweeps: sweeps::none(),
        exact: false,
    }
}

// The same, and every sum is 0.
fn no_entropy() -> Entropy
    ensures { result ≡ no_entropy }
{
    Entropy {
        count: 0,
        low: 0,
        high: 0,
        whole: 0,
        sweeps: sweeps::none(),
    }
}

// ---- numbers: nothing is refused

#[unsafe(no_mangle)]
pub extern "C" fn zg_sqrt(x: f64) -> f64
    ensures { result ≡ sqrt_of x }
{
    root_guesses::root_of(x)
}

// The root, and whether its square is exactly x.
#[unsafe(no_mangle)]
pub extern "C" fn zg_sqrt_marked(x: f64, exact: &mut bool) -> f64
    ensures { (result ≡ sqrt_of x) × (exact.new ≡ exact_root x) }
{
    let m = exact_roots::sqrt_marked(x);
    *exact = m.exact;
    m.root
}

#[unsafe(no_mangle)]
pub extern "C" fn zg_sqrt_bits(b: u64) -> u64
    ensures { result ≡ to_bits binary64 (sqrt_of (of_bits binary64 b)) }
{
    numbers::sqrt_bits(b)
}

#[unsafe(no_mangle)]
pub extern "C" fn zg_magnitude(x: f64) -> f64
    ensures { result ≡ magnitude_of x }
{
    numbers::magnitude(x)
}

#[unsafe(no_mangle)]
pub extern "C" fn zg_sign(x: f64) -> f64
    ensures { result ≡ sign_of x }
{
    numbers::sign(x)
}

#[unsafe(no_mangle)]
pub extern "C" fn zg_is_finite(x: f64) -> bool
    ensures { result ≡ is_finite x }
{
    numbers::is_finite(x)
}

// 0 where x stands below y, 1 where they are equal, 2 where it stands above.
#[unsafe(no_mangle)]
pub extern "C" fn zg_total_order(x: f64, y: f64) -> u32
    ensures { result ≡ order_number (total_order x y) }
{
    numbers::order_number(numbers::total_order(x, y))
}

#[unsafe(no_mangle)]
pub extern "C" fn zg_component_allowed(x: f64) -> bool
    ensures { result ≡ allowed x }
{
    numbers::component_allowed(x)
}

#[unsafe(no_mangle)]
pub extern "C" fn zg_total_less(x: f64, y: f64) -> bool
    ensures { result ≡ total_less x y }
{
    numbers::total_less(x, y)
}

// The modulus of the complex number re + i im.
#[unsafe(no_mangle)]
pub extern "C" fn zg_modulus(re: f64, im: f64) -> f64
    ensures { result ≡ modulus_of (complex_of re im) }
{
    modulus::modulus(Complex { re, im })
}

// ---- lists of qubits

#[unsafe(no_mangle)]
pub extern "C" fn zg_validate_qubit_set(list: &[usize], n: usize, place: &mut usize) -> u32
    ensures { Exported (λ a. paper a ≡ qubit_set n list.now) result place.new }
{
    told::told(&qubits::validate_qubit_set(list, n), place)
}

#[unsafe(no_mangle)]
pub extern "C" fn zg_validate_subsystem(list: &[usize], n: usize, place: &mut usize) -> u32
    ensures { Exported (λ a. paper a ≡ subsystem n list.now) result place.new }
{
    told::told(&qubits::validate_subsystem(list, n), place)
}

#[unsafe(no_mangle)]
pub extern "C" fn zg_row_offsets(
    list: &[usize],
    n: usize,
    cap: usize,
    out: &mut [usize],
    place: &mut usize,
) -> u32
    ensures { Exported (λ a. RowOffsets list.now n cap out.old a out.new) result place.new }
{
    told::told(&qubit_offsets::row_offsets(list, n, cap, out), place)
}

#[unsafe(no_mangle)]
pub extern "C" fn zg_traced_base(
    e: usize,
    list: &[usize],
    n: usize,
    cap: usize,
    place: &mut usize,
    base: &mut usize,
) -> u32
    ensures { ExportedResult (given 0) (λ k. TracedBase e list.now n cap k) result place.new base.new }
{
    let k = qubit_offsets::traced_base(e, list, n, cap);
    *base = given(0, &k);
    told::told(&k, place)
}

#[unsafe(no_mangle)]
pub extern "C" fn zg_smaller_side(
    list: &[usize],
    n: usize,
    cap: usize,
    others: &mut [usize],
    place: &mut usize,
) -> u32
    ensures { Exported (λ a. SmallerSide list.now n cap others.old a others.new) result place.new }
{
    told::told(&cut_sides::smaller_side(list, n, cap, others), place)
}

#[unsafe(no_mangle)]
pub extern "C" fn zg_cut_matrix(
    state: &[f64],
    n: usize,
    list: &[usize],
    cap: usize,
    out: &mut [f64],
    place: &mut usize,
) -> u32
    ensures { Exported (λ a. CutMatrix state.now n list.now cap out.old a out.new) result place.new }
{
    told::told(&cuts::cut_matrix(state, n, list, cap, out), place)
}

// ---- densities

#[unsafe(no_mangle)]
pub extern "C" fn zg_mirror_lower_triangle(rho: &mut [f64], dim: usize, place: &mut usize) -> u32
    ensures { Exported (λ a. InPlace (square_answer rho.old dim) (mirrored rho.old dim) rho.old a rho.new) result place.new }
{
    told::told(&densities::mirror_lower_triangle(rho, dim), place)
}

#[unsafe(no_mangle)]
pub extern "C" fn zg_dense_reduced_density(
    state: &[f64],
    n: usize,
    list: &[usize],
    cap: usize,
    out: &mut [f64],
    scratch: &mut [f64],
    place: &mut usize,
) -> u32
    ensures { Exported (λ a. Density state.now n list.now cap out.old scratch.old a out.new scratch.new) result place.new }
{
    told::told(
        &densities::dense_reduced_density(state, n, list, cap, out, scratch),
        place,
    )
}

#[unsafe(no_mangle)]
pub extern "C" fn zg_normalize_trace(rho: &mut [f64], dim: usize, place: &mut usize) -> u32
    ensures { Exported (λ a. InPlace (normalize_answer rho.old dim) (normalized rho.old dim) rho.old a rho.new) result place.new }
{
    told::told(&density_trace::normalize_trace(rho, dim), place)
}

#[unsafe(no_mangle)]
pub extern "C" fn zg_multiply_block_factor(
    rho: &mut [f64],
    dim: usize,
    positions: &[usize],
    factor: &[f64],
    side: usize,
    place: &mut usize,
) -> u32
    ensures { Exported (λ a. InPlace (block_answer rho.old dim positions.now factor.now side)
        (multiplied rho.old dim positions.now factor.now side) rho.old a rho.new) result place.new }
{
    told::told(
        &density_block::multiply_block_factor(rho, dim, positions, factor, side),
        place,
    )
}

#[unsafe(no_mangle)]
pub extern "C" fn zg_density_from_cut(
    matrix: &[f64],
    n: usize,
    list: &[usize],
    cap: usize,
    out: &mut [f64],
    place: &mut usize,
) -> u32
    ensures { Exported (λ a. DensityFromCut matrix.now n list.now cap out.old a out.new) result place.new }
{
    told::told(
        &density_recount::density_from_cut(matrix, n, list, cap, out),
        place,
    )
}

#[unsafe(no_mangle)]
pub extern "C" fn zg_pages_agree(
    state: &[f64],
    n: usize,
    list: &[usize],
    cap: usize,
    place: &mut usize,
    yes: &mut bool,
) -> u32
    ensures { ExportedResult (given false) (λ k. Says (pages_answer state.now n list.now cap) (pages_same state.now n list.now) k) result place.new yes.new }
{
    let k = pages::pages_agree(state, n, list, cap);
    *yes = given(false, &k);
    told::told(&k, place)
}

// ---- factors

#[unsafe(no_mangle)]
pub extern "C" fn zg_factorize_gram_schmidt(
    a: &[f64],
    rows: usize,
    cols: usize,
    q: &mut [f64],
    r: &mut [f64],
    scratch: &mut [f64],
    place: &mut usize,
    rank: &mut usize,
) -> u32
    ensures { ExportedResult (given 0) (λ k. Factorized a.now rows cols q.old r.old scratch.old k q.new r.new scratch.new) result place.new rank.new }
{
    let k = qr::factorize_gram_schmidt(a, rows, cols, q, r, scratch);
    *rank = given(0, &k);
    told::told(&k, place)
}

#[unsafe(no_mangle)]
pub extern "C" fn zg_svd_jacobi(
    a: &[f64],
    m: usize,
    n: usize,
    u: &mut [f64],
    s: &mut [f64],
    vt: &mut [f64],
    scratch: &mut [f64],
    place: &mut usize,
    sweeps: &mut usize,
    quiet: &mut bool,
    turned: &mut usize,
) -> u32
    ensures { ExportedResult {A = Sweeps} {W = ℕ × Bool × ℕ} (λ k. ((given no_sweeps k).begun, (given no_sweeps k).quiet, (given no_sweeps k).turned))
        (λ k. Svd a.now m n u.old s.old vt.old scratch.old k
        u.new s.new vt.new scratch.new) result place.new (sweeps.new, quiet.new, turned.new) }
{
    let k = svd::svd_jacobi(a, m, n, u, s, vt, scratch);
    let t = given(sweeps::none(), &k);
    *sweeps = t.begun;
    *quiet = t.quiet;
    *turned = t.turned;
    told::told(&k, place)
}

// Whether the factors are A's within the tolerance: yes, or the first test that fails and its first failing cell.
#[unsafe(no_mangle)]
pub extern "C" fn zg_countersign(
    a: &[f64],
    m: usize,
    n: usize,
    u: &[f64],
    s: &[f64],
    vt: &[f64],
    tolerance: u64,
    place: &mut usize,
    yes: &mut bool,
    test: &mut usize,
    cell: &mut usize,
) -> u32
    ensures { ExportedResult found (λ k. Countersign a.now m n u.now s.now vt.now tolerance k) result place.new (yes.new, test.new, cell.new) }
{
    let k = countersign::countersign(a, m, n, u, s, vt, tolerance);
    let verdict = countersign::verdict_of_call(&k);
    *yes = verdict.yes;
    *test = verdict.test;
    *cell = verdict.cell;
    told::told(&k, place)
}

// ---- spectra

#[unsafe(no_mangle)]
pub extern "C" fn zg_finish_schmidt_values(
    values: &[f64],
    out: &mut [f64],
    place: &mut usize,
    count: &mut usize,
) -> u32
    ensures { ExportedResult (given 0) (λ k. finish.Outcome values.now out.old k out.new) result place.new count.new }
{
    let k = finish::finish_schmidt_values(values, out);
    *count = given(0, &k);
    told::told(&k, place)
}

#[unsafe(no_mangle)]
pub extern "C" fn zg_hermitian_eigenvalues(
    a: &[f64],
    dim: usize,
    out: &mut [f64],
    scratch: &mut [f64],
    place: &mut usize,
    sweeps: &mut usize,
    quiet: &mut bool,
    turned: &mut usize,
) -> u32
    ensures { ExportedResult {A = Sweeps} {W = ℕ × Bool × ℕ} (λ k. ((given no_sweeps k).begun, (given no_sweeps k).quiet, (given no_sweeps k).turned))
        (λ k. Eigenvalues a.now dim out.old scratch.old k out.new scratch.new) result place.new (sweeps.new, quiet.new, turned.new) }
{
    let k = spectra::hermitian_eigenvalues(a, dim, out, scratch);
    let t = given(sweeps::none(), &k);
    *sweeps = t.begun;
    *quiet = t.quiet;
    *turned = t.turned;
    told::told(&k, place)
}

#[unsafe(no_mangle)]
pub extern "C" fn zg_schmidt_values_from_density(
    rho: &[f64],
    dim: usize,
    out: &mut [f64],
    scratch: &mut [f64],
    place: &mut usize,
    count: &mut usize,
    sweeps: &mut usize,
    quiet: &mut bool,
    turned: &mut usize,
) -> u32
    ensures { ExportedResult {A = Counted} {W = ℕ × ℕ × Bool × ℕ} (λ k. ((given no_count k).count, (given no_count k).sweeps.begun, (given no_count k).sweeps.quiet, (given no_count k).sweeps.turned))
        (λ k. DensityValues rho.now dim out.old scratch.old k out.new scratch.new) result place.new (count.new, sweeps.new, quiet.new, turned.new) }
{
    let k = spectra::schmidt_values_from_density(rho, dim, out, scratch);
    let got = given(no_count(), &k);
    *count = got.count;
    let t = got.sweeps;
    *sweeps = t.begun;
    *quiet = t.quiet;
    *turned = t.turned;
    told::told(&k, place)
}

#[unsafe(no_mangle)]
pub extern "C" fn zg_hermitian_eigen(
    matrix: &[f64],
    dim: usize,
    values: &mut [f64],
    vectors: &mut [f64],
    scratch: &mut [f64],
    place: &mut usize,
    sweeps: &mut usize,
    quiet: &mut bool,
    turned: &mut usize,
) -> u32
    ensures { ExportedResult {A = Sweeps} {W = ℕ × Bool × ℕ} (λ k. ((given no_sweeps k).begun, (given no_sweeps k).quiet, (given no_sweeps k).turned))
        (λ k. Eigen matrix.now dim values.old vectors.old scratch.old k
        values.new vectors.new scratch.new) result place.new (sweeps.new, quiet.new, turned.new) }
{
    let k = hermitian_eigen::hermitian_eigen(matrix, dim, values, vectors, scratch);
    let t = given(sweeps::none(), &k);
    *sweeps = t.begun;
    *quiet = t.quiet;
    *turned = t.turned;
    told::told(&k, place)
}

#[unsafe(no_mangle)]
pub extern "C" fn zg_dense_schmidt_values(
    state: &[f64],
    n: usize,
    list: &[usize],
    cap: usize,
    out: &mut [f64],
    scratch: &mut [f64],
    place: &mut usize,
    count: &mut usize,
    sweeps: &mut usize,
    quiet: &mut bool,
    turned: &mut usize,
    exact: &mut bool,
) -> u32
    ensures { ExportedResult {A = CutCounted} {W = ℕ × ℕ × Bool × ℕ × Bool} (λ k. ((given no_cut k).count, (given no_cut k).sweeps.begun, (given no_cut k).sweeps.quiet, (given no_cut k).sweeps.turned, (given no_cut k).exact))
        (λ k. Schmidt state.now n list.now cap out.old scratch.old k out.new scratch.new) result place.new (count.new, sweeps.new, quiet.new, turned.new, exact.new) }
{
    let k = cut_values::dense_schmidt_values(state, n, list, cap, out, scratch);
    let got = given(no_cut(), &k);
    *count = got.count;
    let t = got.sweeps;
    *sweeps = t.begun;
    *quiet = t.quiet;
    *turned = t.turned;
    *exact = got.exact;
    told::told(&k, place)
}

#[unsafe(no_mangle)]
pub extern "C" fn zg_cut_profile(
    state: &[f64],
    n: usize,
    cap: usize,
    header: &mut [usize],
    values: &mut [f64],
    largest: &mut [f64],
    ranks: &mut [usize],
    marks: &mut [usize],
    scratch: &mut [f64],
    place: &mut usize,
) -> u32
    ensures { Exported (λ a. CutProfile state.now n cap header.old values.old largest.old ranks.old marks.old scratch.old a
        header.new values.new largest.new ranks.new marks.new scratch.new) result place.new }
{
    told::told(
        &profiles::cut_profile(
            state, n, cap, header, values, largest, ranks, marks, scratch,
        ),
        place,
    )
}

#[unsafe(no_mangle)]
pub extern "C" fn zg_entropy_band(
    state: &[f64],
    n: usize,
    list: &[usize],
    cap: usize,
    bands: &mut [usize],
    scratch: &mut [f64],
    place: &mut usize,
    count: &mut usize,
    low: &mut u64,
    high: &mut u64,
    whole: &mut u64,
    sweeps: &mut usize,
    quiet: &mut bool,
    turned: &mut usize,
) -> u32
    ensures { ExportedResult {A = Entropy} {W = ℕ × ℕ × ℕ × ℕ × ℕ × Bool × ℕ}
        (λ k. ((given no_entropy k).count, (given no_entropy k).low, (given no_entropy k).high, (given no_entropy k).whole, (given no_entropy k).sweeps.begun, (given no_entropy k).sweeps.quiet, (given no_entropy k).sweeps.turned))
        (λ k. EntropyBand state.now n list.now cap bands.old scratch.old k bands.new scratch.new)
        result place.new (count.new, low.new, high.new, whole.new, sweeps.new, quiet.new, turned.new) }
{
    let k = entropy_bands::entropy_band(state, n, list, cap, bands, scratch);
    let got = given(no_entropy(), &k);
    *count = got.count;
    *low = got.low;
    *high = got.high;
    *whole = got.whole;
    let t = got.sweeps;
    *sweeps = t.begun;
    *quiet = t.quiet;
    *turned = t.turned;
    told::told(&k, place)
}

// ---- ranks and sites

// Nothing is refused.
#[unsafe(no_mangle)]
pub extern "C" fn zg_truncated_svd_rank(
    values: &[f64],
    epsilon: f64,
    max_bond_dim: usize,
    place: &mut usize,
    rank: &mut usize,
) -> u32
    ensures { (result ≡ 0) × (place.new ≡ 0) × (rank.new ≡ rank_of values.now epsilon max_bond_dim) }
{
    *rank = site_ranks::truncated_svd_rank(values, epsilon, max_bond_dim);
    *place = 0;
    0
}

// Nothing is refused.
#[unsafe(no_mangle)]
pub extern "C" fn zg_discards_resolvable_weight(
    values: &[f64],
    chi: usize,
    place: &mut usize,
    yes: &mut bool,
) -> u32
    ensures { (result ≡ 0) × (place.new ≡ 0) × (yes.new ≡ discards_of values.now chi) }
{
    *yes = site_ranks::discards_resolvable_weight(values, chi);
    *place = 0;
    0
}

#[unsafe(no_mangle)]
pub extern "C" fn zg_cut_rank(
    bond_left: usize,
    bond_mid: usize,
    bond_right: usize,
    place: &mut usize,
    rank: &mut u64,
) -> u32
    ensures { ExportedResult (given 0)
        (λ k. Ranked (bond_sizes bond_left bond_mid bond_right) (cut_rank_of bond_left bond_mid bond_right) k) result place.new rank.new }
{
    let k = site_ranks::cut_rank(bond_left, bond_mid, bond_right);
    *rank = given(0, &k);
    told::told(&k, place)
}

#[unsafe(no_mangle)]
pub extern "C" fn zg_widest_block_cut(
    bond_left: usize,
    bond_right: usize,
    n: usize,
    place: &mut usize,
    rank: &mut u64,
) -> u32
    ensures { ExportedResult (given 0)
        (λ k. Ranked (widest_sizes bond_left bond_right n) (widest_of bond_left bond_right n) k) result place.new rank.new }
{
    let k = site_ranks::widest_block_cut(bond_left, bond_right, n);
    *rank = given(0, &k);
    told::told(&k, place)
}

#[unsafe(no_mangle)]
pub extern "C" fn zg_fill_isometry_site_data(
    columns: &[f64],
    stride: usize,
    bond_left: usize,
    chi: usize,
    out: &mut [f64],
    place: &mut usize,
) -> u32
    ensures { Exported (λ a. Filled (and_then (column_sizes stride bond_left chi) (plain_reply columns.now stride (2 * bond_left) chi (length out.old)))
        (2 * bond_left * chi) (site_cell chi (isometry_cell columns.now stride)) out.old a out.new) result place.new }
{
    told::told(
        &sites::fill_isometry_site_data(columns, stride, bond_left, chi, out),
        place,
    )
}

#[unsafe(no_mangle)]
pub extern "C" fn zg_fill_scaled_u_site_data(
    u: &[f64],
    s: &[f64],
    stride: usize,
    bond_left: usize,
    chi: usize,
    out: &mut [f64],
    place: &mut usize,
) -> u32
    ensures { Exported (λ a. Filled (and_then (column_sizes stride bond_left chi) (scaled_u_reply u.now s.now stride (2 * bond_left) chi (length out.old)))
        (2 * bond_left * chi) (site_cell chi (scaled_u_cell u.now s.now stride)) out.old a out.new) result place.new }
{
    told::told(
        &sites::fill_scaled_u_site_data(u, s, stride, bond_left, chi, out),
        place,
    )
}

#[unsafe(no_mangle)]
pub extern "C" fn zg_fill_vt_site_data(
    vt: &[f64],
    row_len: usize,
    chi: usize,
    physical_dim: usize,
    bond_right: usize,
    out: &mut [f64],
    place: &mut usize,
) -> u32
    ensures { Exported (λ a. Filled (and_then (row_sizes row_len chi physical_dim bond_right) (plain_reply vt.now row_len (physical_dim * bond_right) chi (length out.old)))
        (physical_dim * bond_right * chi) (site_cell (physical_dim * bond_right) (vt_cell vt.now row_len)) out.old a out.new) result place.new }
{
    told::told(
        &sites::fill_vt_site_data(vt, row_len, chi, physical_dim, bond_right, out),
        place,
    )
}

#[unsafe(no_mangle)]
pub extern "C" fn zg_fill_scaled_vt_data(
    s: &[f64],
    vt: &[f64],
    row_len: usize,
    chi: usize,
    physical_dim: usize,
    bond_right: usize,
    out: &mut [f64],
    place: &mut usize,
) -> u32
    ensures { Exported (λ a. Filled (and_then (row_sizes row_len chi physical_dim bond_right) (scaled_vt_reply s.now vt.now row_len (physical_dim * bond_right) chi (length out.old)))
        (physical_dim * bond_right * chi) (site_cell (physical_dim * bond_right) (scaled_vt_cell s.now vt.now row_len)) out.old a out.new) result place.new }
{
    told::told(
        &sites::fill_scaled_vt_data(s, vt, row_len, chi, physical_dim, bond_right, out),
        place,
    )
}

// ---- the chain of sites

#[unsafe(no_mangle)]
pub extern "C" fn zg_chain_of_sites(
    state: &[f64],
    n: usize,
    epsilon: f64,
    limit: usize,
    sites: &mut [f64],
    bonds: &mut [usize],
    starts: &mut [usize],
    marks: &mut [usize],
    matrix: &mut [f64],
    u: &mut [f64],
    vt: &mut [f64],
    scratch: &mut [f64],
    place: &mut usize,
    dropped: &mut usize,
) -> u32
    ensures { ExportedResult (given 0)
        (λ k. ChainOfSites state.now n epsilon limit sites.old bonds.old starts.old marks.old
        matrix.old u.old vt.old scratch.old k
        sites.new bonds.new starts.new marks.new matrix.new u.new vt.new scratch.new)
        result place.new dropped.new }
{
    let k = chains::chain_of_sites(
        state, n, epsilon, limit, sites, bonds, starts, marks, matrix, u, vt, scratch,
    );
    *dropped = given(0, &k);
    told::told(&k, place)
}

// ---- sites in one slab: the cells are doubles to C, and here their 64-bit patterns

#[unsafe(no_mangle)]
pub extern "C" fn zg_slab_put(
    cells: &mut [u64; 8192],
    index: &mut [u32; 193],
    site: u32,
    data: &[u64],
    place: &mut usize,
) -> u32
    ensures { Exported (λ a. Put cells.old index.old site «data».now a cells.new index.new) result place.new }
{
    told::told(&slabs::put(cells, index, site, data), place)
}

#[unsafe(no_mangle)]
pub extern "C" fn zg_slab_drop(
    cells: &mut [u64; 8192],
    index: &mut [u32; 193],
    site: u32,
    place: &mut usize,
) -> u32
    ensures { Exported (λ a. Dropped cells.old index.old site a cells.new index.new) result place.new }
{
    told::told(&slabs::drop(cells, index, site), place)
}

#[unsafe(no_mangle)]
pub extern "C" fn zg_slab_replace(
    cells: &mut [u64; 8192],
    index: &mut [u32; 193],
    site: u32,
    data: &[u64],
    place: &mut usize,
) -> u32
    ensures { Exported (λ a. Replaced cells.old index.old site «data».now a cells.new index.new) result place.new }
{
    told::told(&slabs::replace(cells, index, site, data), place)
}

// ---- the sheet of a lot

#[unsafe(no_mangle)]
pub extern "C" fn zg_lot_sheet(lot: &[u8], sheet: &mut [usize; 32], place: &mut usize) -> u32
    ensures { Exported (λ a. Lot lot.now sheet.old a sheet.new) result place.new }
{
    told::told(&lots::lot_sheet(lot, sheet), place)
}

// ---- a plan of a cut: thirty numbers here, a struct of them to C

#[unsafe(no_mangle)]
pub extern "C" fn zg_cut_plan(
    list: &[usize],
    n: usize,
    cap: usize,
    plan: &mut [usize; 30],
    place: &mut usize,
) -> u32
    ensures { Exported (λ a. CutPlanStored list.now n cap plan.old a plan.new) result place.new }
{
    told::told(&plan_calls::store_cut_plan(list, n, cap, plan), place)
}

#[unsafe(no_mangle)]
pub extern "C" fn zg_plan_add(plan: &mut [usize; 30], qubit: usize, place: &mut usize) -> u32
    ensures { Exported (λ a. ChangeStored (adding qubit) plan.old a plan.new) result place.new }
{
    told::told(&plan_calls::add_to_plan(plan, qubit), place)
}

#[unsafe(no_mangle)]
pub extern "C" fn zg_plan_drop(plan: &mut [usize; 30], qubit: usize, place: &mut usize) -> u32
    ensures { Exported (λ a. ChangeStored (dropping qubit) plan.old a plan.new) result place.new }
{
    told::told(&plan_calls::drop_from_plan(plan, qubit), place)
}

#[unsafe(no_mangle)]
pub extern "C" fn zg_plan_switch(plan: &mut [usize; 30], place: &mut usize) -> u32
    ensures { Exported (λ a. ChangeStored switching plan.old a plan.new) result place.new }
{
    told::told(&plan_calls::switch_plan(plan), place)
}

// ---- the calls of a plan's list

#[unsafe(no_mangle)]
pub extern "C" fn zg_planned_cut_matrix(
    state: &[f64],
    plan: &[usize; 30],
    out: &mut [f64],
    place: &mut usize,
) -> u32
    ensures { Exported (λ a. PlannedCut state.now (plan_at plan.now) out.old a out.new) result place.new }
{
    let kept = plan_numbers::read_plan(plan);
    told::told(&plan_matrix::planned_cut_matrix(state, kept, out), place)
}

#[unsafe(no_mangle)]
pub extern "C" fn zg_planned_schmidt_values(
    state: &[f64],
    plan: &[usize; 30],
    out: &mut [f64],
    scratch: &mut [f64],
    place: &mut usize,
    count: &mut usize,
    sweeps: &mut usize,
    quiet: &mut bool,
    turned: &mut usize,
    exact: &mut bool,
) -> u32
    ensures { ExportedResult {A = CutCounted} {W = ℕ × ℕ × Bool × ℕ × Bool} (λ k. ((given no_cut k).count, (given no_cut k).sweeps.begun, (given no_cut k).sweeps.quiet, (given no_cut k).sweeps.turned, (given no_cut k).exact))
        (λ k. PlannedValues state.now (plan_at plan.now) out.old scratch.old k out.new scratch.new) result place.new (count.new, sweeps.new, quiet.new, turned.new, exact.new) }
{
    let kept = plan_numbers::read_plan(plan);
    let k = plan_values::planned_schmidt_values(state, kept, out, scratch);
    let got = given(no_cut(), &k);
    *count = got.count;
    let t = got.sweeps;
    *sweeps = t.begun;
    *quiet = t.quiet;
    *turned = t.turned;
    *exact = got.exact;
    told::told(&k, place)
}

#[unsafe(no_mangle)]
pub extern "C" fn zg_planned_reduced_density(
    state: &[f64],
    plan: &[usize; 30],
    out: &mut [f64],
    scratch: &mut [f64],
    place: &mut usize,
) -> u32
    ensures { Exported (λ a. PlannedDensity state.now (plan_at plan.now) out.old scratch.old a out.new scratch.new) result place.new }
{
    let kept = plan_numbers::read_plan(plan);
    told::told(
        &plan_density::planned_reduced_density(state, kept, out, scratch),
        place,
    )
}

// 10000·major + 100·minor + patch of include/zegrafult_version.h.
#[unsafe(no_mangle)]
pub extern "C" fn zg_version() -> u32
    ensures { result ≡ 100 }
{
    100
}

// ---- the certificate of a cut file, as text

#[unsafe(no_mangle)]
pub extern "C" fn zg_certificate(
    file: &[u8],
    text: &mut [u8],
    place: &mut usize,
    length: &mut usize,
) -> u32
    ensures { ExportedWith {R = Written} (λ k. k.answer) (λ k. k.length)
        (λ k. Called 2048 (file_reply file.now) (certificate_of file.now) text.old k text.new)
        result place.new «length».new }
{
    let k = certificate_pages::print_certificate(file, text);
    *length = k.length;
    told::told(&k.answer, place)
}

#[unsafe(no_mangle)]
pub extern "C" fn zg_certificate_pages(
    file: &[u8],
    text: &mut [u8],
    place: &mut usize,
    length: &mut usize,
) -> u32
    ensures { ExportedWith {R = Written} (λ k. k.answer) (λ k. k.length)
        (λ k. Called 102400 (file_reply file.now) (pages_of file.now) text.old k text.new)
        result place.new «length».new }
{
    let k = certificate_pages::print_pages(file, text);
    *length = k.length;
    told::told(&k.answer, place)
}
