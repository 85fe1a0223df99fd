//! Reading two deltas at once, as a gate of the binary form has them, in a word of eight bytes, the first byte lowest.
ghost use Rattle.std.specs.Prelude.{◌≡◌, ◌<◌, ◌≤◌, ◌+◌, ◌-◌, ◌*◌, ◌^◌, ◌/◌, ◌%◌, ◌++◌, ℕ, List, length, drop, IfSome};
ghost use Rattle.std.specs.List.{AllByRecursion};
ghost use Rattle.deltas.specs.Deltas.{delta};
ghost use Rattle.deltas.specs.Pairs.{word_of, ends_of, value_of};

/// The top bit of each of eight bytes.
const TOPS: u64 = 0x8080_8080_8080_8080;

/// Two deltas: their numbers, and how many bytes they take together.
#[derive(Clone, Copy)]
pub struct DeltaPair {
    /// The number of the first one.
    pub first: u32,
    /// The number of the second one.
    pub second: u32,
    /// How many bytes both take.
    pub length: usize,
}

/// The top bit of each byte that has none itself: there a delta ends.
#[inline(always)]
fn ends(word: u64) -> u64
    ensures { (bytes : List ℕ) → length bytes ≡ 8 → AllByRecursion (λ b. b < 256) bytes
        → word ≡ word_of bytes → result ≡ ends_of bytes }
{
    !word & TOPS
}

/// A word without its lowest 1.
#[inline(always)]
fn without_lowest(word: u64) -> u64
    ensures none { word ≡ 0 → result ≡ 0 }
    ensures some { (place rest : ℕ) → word ≡ 2 ^ place * (2 * rest + 1)
        → result ≡ 2 ^ (place + 1) * rest }
{
    word & word.wrapping_sub(1)
}

/// Ones up to the lowest 1 of a word.
#[inline(always)]
fn up_to_lowest(word: u64) -> u64
    requires { 0 < word }
    ensures { (place rest : ℕ) → word ≡ 2 ^ place * (2 * rest + 1)
        → result ≡ 2 ^ (place + 1) - 1 }
{
    word ^ (word - 1)
}

/// The place of the lowest 1 of a word.
#[inline(always)]
fn lowest(word: u64) -> u32
    requires { 0 < word }
    ensures place { (place rest : ℕ) → word ≡ 2 ^ place * (2 * rest + 1) → result ≡ place }
    ensures within { result < 64 }
{
    word.trailing_zeros()
}

/// The numbers that the lower seven bits of the bytes of each half of a word write to base 128, each in its half.
#[inline(always)]
fn values(word: u64) -> u64
    ensures { result ≡ value_of (word % 2 ^ 32) + 2 ^ 32 * value_of (word / 2 ^ 32) }
{
    (word & 0x7f_0000_007f)
        | ((word >> 1) & 0x3f80_0000_3f80)
        | ((word >> 2) & 0x1f_c000_001f_c000)
        | ((word >> 3) & 0xfe0_0000_0fe0_0000)
}

/// The two deltas in the lowest bytes of a word, where each has at most four bytes and is not 0.
#[inline(always)]
fn pair_in(word: u64) -> Option<DeltaPair>
    ensures deltas { (bytes rest : List ℕ) → length bytes ≡ 8 → AllByRecursion (λ b. b < 256) bytes
        → word ≡ word_of bytes
        → IfSome result (λ x. bytes ++ rest
        ≡ delta x.first ++ (delta x.second ++ drop x.length (bytes ++ rest))) }
    ensures within { IfSome result (λ x. x.length ≤ 8) }
{
    let ends = ends(word);
    let others = without_lowest(ends);
    if others == 0 {
        return None;
    }
    // ones up to the end of the first delta, and of the second; the bytes of the first, of both, and of the second
    let (to_first, to_second) = (up_to_lowest(ends), up_to_lowest(others));
    let (first, both) = (word & to_first, word & to_second);
    let second = both >> lowest(ends) >> 1;
    // the last byte of each is not 0
    if first <= to_first >> 8 || both <= to_second >> 8 {
        return None;
    }
    if first >= 1 << 32 || second >= 1 << 32 {
        return None;
    }
    let numbers = values(first | second << 32);
    Some(DeltaPair {
        first: (numbers % (1 << 32)) as u32,
        second: (numbers >> 32) as u32,
        length: (lowest(others) / 8) as usize + 1,
    })
}

/// The two deltas at the front of a text of eight bytes or more, where each has at most four bytes and is not 0. Of
/// nothing no more is said: `read` tells what stands there. Where a delta ends is no branch, since no guess of it would
/// be right, and both ends are found in one word, so that neither waits for the other.
#[inline(always)]
pub fn read_pair(text: &[u8]) -> Option<DeltaPair>
    ensures deltas { IfSome result (λ x. text.now
        ≡ delta x.first ++ (delta x.second ++ drop x.length text.now)) }
    ensures within { IfSome result (λ x. x.length ≤ length text.now) }
{
    let [b0, b1, b2, b3, b4, b5, b6, b7, ..] = text else {
        return None;
    };
    pair_in(u64::from_le_bytes([*b0, *b1, *b2, *b3, *b4, *b5, *b6, *b7]))
}
