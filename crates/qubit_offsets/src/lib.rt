// Row offsets and traced bases asked alone: refused as a density without its state.
#![tactic(auto)]

ghost use Rattle.std.specs.Prelude.{◌≡◌, ◌≤◌, length};
ghost use Rattle.answers.specs.Paper.{paper};
ghost use Rattle.qubits.specs.Lists.{density_sizes, Listed};
ghost use Rattle.qubits.specs.Spread.{row_offset};
ghost use Rattle.tables.specs.Tables.{filled};
ghost use Rattle.qubit_offsets.specs.Calls.{density_refusal, RowOffsets, TracedBase};

use answers::Refusal;

// Answer 1 of a density over k qubits: the register, then 2k against the cap, which is at most 13.
fn density_size(n: usize, k: usize, cap: usize) -> Result<(), Refusal>
    ensures { paper result ≡ density_sizes n k cap }
{
    if n < 1 || 12 < n || 6 < k || cap < 2 * k {
        return Err(Refusal::Size);
    }
    Ok(())
}

// Inner: answers 1 to 4 of a density of the listed qubits.
pub fn density_refusal(list: &[usize], n: usize, cap: usize) -> Result<(), Refusal>
    ensures { paper result ≡ density_refusal n cap list.now }
{
    density_size(n, list.len(), cap)?;
    qubits::validate_qubit_set(list, n)
}

// Inner: the row offsets of the t below count, at the front of out.
pub fn fill_offsets(list: &[usize], n: usize, count: usize, out: &mut [usize])
    requires listed { Listed n list.now }
    requires count_in_bounds { count ≤ length out.old }
    ensures { out.new ≡ filled count (row_offset list.now) out.old }
{
    for t in 0..count {
        out[t] = qubits::row_offset(list, n, t);
    }
}

// The row offsets of the listed qubits: bit i of t lands on listed qubit i. Refused as a density without its state.
#[tactic(auto, using(crate::proofs::CallLaws::offsets_fronted))]
pub fn row_offsets(list: &[usize], n: usize, cap: usize, out: &mut [usize]) -> Result<(), Refusal>
    ensures { RowOffsets list.now n cap out.old result out.new }
{
    density_refusal(list, n, cap)?;
    let count = submasks::bit(list.len());
    if out.len() < count {
        return Err(Refusal::Length(1));
    }
    fill_offsets(list, n, count, out);
    Ok(())
}

// The traced base of e: its bits spread over the qubits that the list does not name, lowest first. Refused as a density without its
// state; an e that no setting of those qubits has breaks a size.
pub fn traced_base(e: usize, list: &[usize], n: usize, cap: usize) -> Result<usize, Refusal>
    ensures { TracedBase e list.now n cap result }
{
    density_size(n, list.len(), cap)?;
    if submasks::bit(n.saturating_sub(list.len())) <= e {
        return Err(Refusal::Size);
    }
    qubits::validate_qubit_set(list, n)?;
    Ok(qubits::traced_base_of(e, list, n))
}
