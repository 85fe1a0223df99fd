//! The lines of a witness of an engine form up to its claim.
ghost use Rattle.std.specs.Prelude.{◌≡◌, ◌<◌, ◌^◌, ◌==◌, ℕ, List, [], ◌∷◌, ◌++◌, None, false, not, IfErr, IfOk};
ghost use Rattle.std.specs.Io.KnownBytes.{IsAtEnd, prepend_known};
ghost use Rattle.base.specs.Lines.{IsLine};
ghost use Rattle.aiger.specs.Circuit.{Circuit, IsCircuit};
ghost use Rattle.witness.specs.Texts.{claim};
ghost use Rattle.witness.specs.BitAdmits.{admitted_lines};
ghost use Rattle.witness.specs.BitStands.{StandsForBitLines};
ghost use Rattle.restore.specs.Answers.{CountsRestore};
ghost use Rattle.restore.specs.Faults.{is_of_text};
ghost use Rattle.restore.specs.FormSteps.{IsHead, IsHeadOrClaimed, ReadsClaim};

use crate::fault::RestoreFault;
use crate::marks::unread;
use base::{LineReader, Source, decimal};
use witness::BitLines;

/// Feeds a judge with a whole line, and answers whether it is admitted.
pub(crate) fn admits(judge: &mut BitLines<'_>, line: &[u8]) -> bool
    requires { IsLine line.now }
    ensures judged { (d : Circuit) (text : List ℕ) → StandsForBitLines d judge.old text
        → StandsForBitLines d judge.new (text ++ (line.now ++ 10 ∷ [])) }
    ensures admitted { (d : Circuit) (text : List ℕ) → StandsForBitLines d judge.old text
        → result ≡ not (admitted_lines d (text ++ (line.now ++ 10 ∷ [])) == admitted_lines d text) }
{
    let number = judge.admitted_lines();
    judge.take_line(line);
    judge.admitted_lines() != number
}

/// The number of the bad property that a line claims.
fn claim_of(line: &[u8]) -> usize
    ensures { (i : ℕ) → i < 2 ^ 64 → line.now ≡ claim i → result ≡ i }
{
    if line.is_empty() {
        return 0;
    }
    let (_, digits) = line.split_at(1);
    match decimal(digits) {
        Some(number) => number as usize,
        None => 0,
    }
}

/// Takes a line before the frames, and answers what it claims, where it is admitted as that of the claim.
fn take_head_line(judge: &mut BitLines<'_>, line: &[u8]) -> Option<usize>
    requires { IsLine line.now }
    ensures { (d : Circuit) (text : List ℕ) → IsCircuit d → IsHead d judge.old text
        → IsHeadOrClaimed d judge.new (text ++ (line.now ++ 10 ∷ [])) result }
{
    let number = judge.admitted_lines();
    if !admits(judge, line) {
        return None;
    }
    if number != 1 {
        return None;
    }
    Some(claim_of(line))
}

/// Reads the lines of a witness up to the one that makes a claim, and answers what it claims; where no line is admitted as
/// that, the source was read to its end.
///
/// Errors: `Device` where the source failed, and `NoMemory` where a growth was refused.
pub(crate) fn read_claim<S: Source>(
    lines: &mut LineReader,
    judge: &mut BitLines<'_>,
    source: &mut S,
) -> Result<Option<usize>, RestoreFault>
    requires { lines.old.rest ≡ [] }
    ensures reads { (d : Circuit) → IsCircuit d → StandsForBitLines d judge.old []
        → ReadsClaim result d (S.to_come source.old)
        (prepend_known lines.new.rest (S.to_come source.new)) judge.new }
    ensures end { IfOk result (λ claim. claim ≡ None → IsAtEnd (S.to_come source.new)) }
    ensures rest { IfOk result (λ claim. claim ≡ None → IsLine lines.new.rest) }
    ensures counted { (written : ℕ)
        → CountsRestore result (S.failures source.old) (S.failures source.new) written written }
    ensures line { IfErr result (λ e. is_of_text e.why ≡ false × (e.line ≡ 0)) }
{
    loop {
        match lines.advance(source) {
            Ok(true) => {
                let claimed = take_head_line(judge, lines.line());
                if claimed.is_some() {
                    return Ok(claimed);
                }
            }
            Ok(false) => return Ok(None),
            Err(cause) => return Err(unread(cause)),
        }
    }
}
