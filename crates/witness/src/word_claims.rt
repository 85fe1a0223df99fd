//! A line of claims, byte by byte.
ghost use Rattle.std.specs.Prelude.{◌≡◌, ℕ, ◌&&◌, ◌<◌, nat_lt, not, true, List, [], ◌∷◌, ◌++◌, Bool, Option, MatchResult, Ok, Err, length, slice_set};
ghost use Rattle.witness.specs.Admits.{Claim, claims_at, claim_of};
ghost use Rattle.witness.specs.Fits.{is_set, NoneIsSet, AreClaimed};
ghost use Rattle.witness.specs.ClaimScans.{Scans};
ghost use Rattle.witness.specs.WordClaims.{and_claim, AreTold, AreClaims};

use crate::claim_scan::Scan;
use crate::why::Why;

/// What the bytes of a line of claims say, of which more may follow.
#[derive(Clone, Copy)]
pub(crate) struct ClaimScan {
    // each whole piece is a claim
    claims: bool,
    // one of them is of a justice property
    justice: bool,
    // the properties of their numbers are there, none twice
    fit: bool,
    // the piece that goes on
    piece: Scan,
}

/// Sets the flag of a number, and answers whether it has one that was not set.
fn set_flag(claimed: &mut [bool], number: u64) -> bool
    ensures fresh { result
        ≡ (nat_lt number (length claimed.old) && not (is_set claimed.old number)) }
    ensures set { number < length claimed.old → claimed.new ≡ slice_set claimed.old number true }
    ensures many { length claimed.new ≡ length claimed.old }
{
    let place = number as usize;
    if place >= claimed.len() {
        return false;
    }
    let fresh = !claimed[place];
    claimed[place] = true;
    fresh
}

impl ClaimScan {
    /// A line with no byte yet.
    pub(crate) fn new() -> ClaimScan
        ensures { (flags : List Bool) → NoneIsSet flags → AreClaims result flags [] }
    {
        ClaimScan {
            claims: true,
            justice: false,
            fit: true,
            piece: Scan::new(),
        }
    }

    /// The piece is whole, whose flag is set then, and another begins.
    fn end_piece(&mut self, claimed: &mut [bool])
        ensures told { (before : Option (List Claim)) (bytes : List ℕ) → Scans self.old.piece bytes
            → AreTold self.old claimed.old before
            → AreTold self.new claimed.new (and_claim before (claim_of bytes)) }
        ensures piece { Scans self.new.piece [] }
        ensures many { length claimed.new ≡ length claimed.old }
    {
        match self.piece.claim() {
            Some((justice, number)) => {
                self.justice |= justice;
                self.fit &= set_flag(claimed, number);
            }
            None => self.claims = false,
        }
        self.piece = Scan::new();
    }

    /// Takes a byte behind the others, and sets the flag of a claim that ends with it.
    fn push(&mut self, byte: u8, claimed: &mut [bool])
        ensures line { (line : List ℕ) → AreClaims self.old claimed.old line
            → AreClaims self.new claimed.new (line ++ byte ∷ []) }
        ensures many { length claimed.new ≡ length claimed.old }
    {
        if byte == b' ' {
            self.end_piece(claimed);
            return;
        }
        self.piece.push(byte);
    }

    /// Takes bytes behind the others.
    pub(crate) fn take(&mut self, bytes: &[u8], claimed: &mut [bool])
        ensures line { (line : List ℕ) → AreClaims self.old claimed.old line
            → AreClaims self.new claimed.new (line ++ bytes.now) }
        ensures many { length claimed.new ≡ length claimed.old }
    {
        for byte in bytes {
            self.push(*byte, claimed);
        }
    }

    /// The line has ended: that flags are set at what it claims and nowhere else, or why it claims nothing.
    pub(crate) fn end(self, claimed: &mut [bool]) -> Result<(), Why>
        ensures line { (line : List ℕ) → AreClaims self claimed.old line
            → MatchResult result (λ _. (list : List ℕ)
            × ((claims_at (length claimed.old) line ≡ Ok list)
            × AreClaimed claimed.new list)) (λ why. claims_at (length claimed.old) line ≡ Err why) }
        ensures many { length claimed.new ≡ length claimed.old }
    {
        let mut all = self;
        all.end_piece(claimed);
        if all.claims & all.justice {
            return Err(Why::JusticeClaim);
        }
        if all.claims & all.fit {
            return Ok(());
        }
        Err(Why::BadClaim)
    }
}
