//! A count, and the decimal of the number that comes next.
ghost use Rattle.std.specs.Prelude.{◌≡◌, ℕ, suc, ◌+◌, ◌-◌, ◌<◌, ◌≤◌, ◌^◌, ◌∷◌, ◌++◌, List, [], MatchOption, length, take, decimal, min, true, if◌then◌else◌};

use std::marker::Model;

/// One place more than a number below 2^64 has digits.
const ROOM: usize = 21;

/// A count, with the decimal of the number that comes next as text, so that what counts on is compared and not read.
/// Clauses see the count.
#[derive(Drop)]
pub struct Counter {
    count: u64,
    next: [u8; ROOM],
    len: usize,
}

impl Model for Counter {
    ghost Value = { ℕ };

    ghost view = { λ c. c.count };

    ghost invariant = { λ c. (c.len ≤ 20) × (c.count < 2 ^ 64 - 1) × (take c.len c.next ≡ decimal (suc c.count)) };
}

impl Counter {
    /// Nothing is counted yet.
    pub fn new() -> Counter
        ensures { result ≡ 0 }
    {
        Counter {
            count: 0,
            next: [b'1'; ROOM],
            len: 1,
        }
    }

    /// The count.
    pub fn count(&self) -> u64
        ensures count { result ≡ self.now }
        ensures small { self.now < 2 ^ 64 - 1 }
    {
        self.count
    }

    /// Counts one more, up to 2^64 - 2.
    pub fn add_one(&mut self)
        ensures { self.new ≡ min (self.old + 1) (2 ^ 64 - 2) }
    {
        if self.count >= u64::MAX - 1 {
            return;
        }
        self.count += 1;
        self.len = count_on(&mut self.next, self.len);
    }

    /// The text behind the decimal of the number that comes next, where a text begins with it.
    #[inline(always)]
    pub fn behind_next<'t>(&self, text: &'t [u8]) -> Option<&'t [u8]>
        ensures { MatchOption result ((rest : List ℕ) → text.now ≡ decimal (suc self.now) ++ rest
            → ⊥) (λ rest. text.now ≡ decimal (suc self.now) ++ rest.now) }
    {
        let (next, _) = self.next.split_at(self.len);
        text.strip_prefix(next)
    }
}

/// Makes the decimal of so many digits in front of others that of the number behind it, and answers how many it has.
fn count_on(next: &mut [u8], len: usize) -> usize
    requires room { len < length next.old }
    ensures next { (n : ℕ) → n < 2 ^ 64 → take len next.old ≡ decimal n
        → take result next.new ≡ decimal (suc n) }
    ensures more { result ≤ len + 1 }
{
    if !raise_digits(&mut next[..len]) {
        return len;
    }
    next.copy_within(0..len, 1);
    next[0] = b'1';
    len + 1
}

/// Makes the decimal of a number that of the number behind it, which has a `1` in front of these digits where that is
/// answered.
fn raise_digits(digits: &mut [u8]) -> bool
    ensures next { (n : ℕ) → n < 2 ^ 64 → digits.old ≡ decimal n
        → decimal (suc n) ≡ (if result then 49 ∷ digits.new else digits.new) }
    ensures none { digits.old ≡ [] → (result ≡ true) × (digits.new ≡ []) }
{
    let Some((last, front)) = digits.split_last_mut() else {
        return true;
    };
    if *last < b'9' {
        *last += 1;
        return false;
    }
    *last = b'0';
    raise_digits(front)
}
