// Inner: the single result of a cut file, as the sheet of a lot counts it: its refusal, or the rank, which is how many values were kept.
// Whoever counts files knows them by this alone.
#![tactic(auto)]

ghost use Rattle.std.specs.Prelude.{◌≡◌};
ghost use Rattle.answers.specs.Paper.{paper, given};
ghost use Rattle.lot_verdicts.specs.Verdict.{verdict_of};

use answers::Refusal;

// The rank of a file.
#[tactic(auto, unfolding(crate::specs::Verdict::verdict_of))]
pub fn single_result(file: &[u8]) -> Result<usize, Refusal>
    ensures { ((paper result).0 ≡ (verdict_of file.now).0) × (given 0 result ≡ (verdict_of file.now).1) }
{
    let mut list = [0usize; 64];
    let mut values = [0.0f64; 16];
    let result = cutfile_result::cut_result(file, &mut list, &mut values);
    Ok(result.cut?.count)
}
