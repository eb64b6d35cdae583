// Sets of small numbers in words: number k is bit k mod 64 of word k div 64. Both the grid of a
// map and the sets of a search are made of such words.
#![tactic(auto)]

ghost use Rattle.std.specs.Prelude.{◌≡◌, ℕ, ◌-◌, ◌*◌, ◌/◌, ◌<◌, ◌≤◌, not, ◌&&◌, ◌||◌, length, drop, if◌then◌else◌, ◌==◌};
ghost use Rattle.graph.specs.Graph.{first};
ghost use Rattle.bits.specs.Bits.{bit, has, Written, with_bit, with_number};

// How many bits a word has.
const WORD_BITS: u16 = 64;

// Whether bit k of a word is set.
#[tactic(auto, using(std::proofs::lemmas::Nat::and_mask), unfolding(crate::specs::Bits::bit))]
fn word_has(word: u64, k: u16) -> bool
    requires { k < 64 }
    ensures { result ≡ bit word k }
{
    (word >> k) & 1 == 1
}

// A word with bit k set, or clear, and its other bits as they are.
#[tactic(auto, using(crate::proofs::Writes::written_on, crate::proofs::Writes::written_off, crate::proofs::Writes::value_on, crate::proofs::Writes::value_off))]
fn word_with(word: u64, k: u16, on: bool) -> u64
    requires { k < 64 }
    ensures bits { Written word k on result }
    ensures value { result ≡ with_bit word k on }
{
    let mask: u64 = 1 << k;
    if on { word | mask } else { word & !mask }
}

// A word as it is, or with each bit turned, so that the bits looked for are set.
#[tactic(auto, using(crate::proofs::Turns::word_turned))]
fn word_for(word: u64, on: bool) -> u64
    ensures { (j : ℕ) → j < 64 → bit result j ≡ (if on then bit word j else not (bit word j)) }
{
    if on { word } else { !word }
}

// The lowest bit of a word that is set and not below k.
#[tactic(auto, using(crate::proofs::Low::word_none, crate::proofs::Low::word_low))]
fn word_next(word: u64, k: u16) -> Option<u16>
    requires { k < 64 }
    ensures { result ≡ first (bit word) k (64 - k) }
{
    let rest = word >> k;
    (rest != 0).then_some(k + rest.trailing_zeros() as u16)
}

// Whether number k is in the set; what is past the words is not.
#[tactic(auto, using(crate::proofs::Parts::has_past))]
pub fn has(words: &[u64], k: u16) -> bool
    ensures { result ≡ has words.now 0 k }
{
    words
        .get(k as usize / 64)
        .is_some_and(|word| word_has(*word, k % WORD_BITS))
}

// Puts number k into the set, or takes it out.
#[tactic(auto, using(crate::proofs::Writes::set_number))]
pub fn set(words: &mut [u64], k: u16, on: bool)
    requires { k / 64 < length words.old }
    ensures words { words.new ≡ with_number words.old 0 k on }
    ensures bits { (j : ℕ) → has words.new 0 j ≡ (if j == k then on else has words.old 0 j) }
    ensures rest { (m : ℕ) → k / 64 < m → drop m words.new ≡ drop m words.old }
{
    let at = k as usize / 64;
    words[at] = word_with(words[at], k % WORD_BITS, on);
}

// The numbers of a word that are not in another.
#[tactic(auto, using(crate::proofs::Turns::word_without))]
fn word_outside(word: u64, other: u64) -> u64
    ensures { (j : ℕ) → j < 64 → bit result j ≡ (bit word j && not (bit other j)) }
{
    word & !other
}

// The numbers of two words.
#[tactic(auto, using(crate::proofs::Bits::bit_of_or))]
fn word_joined(word: u64, other: u64) -> u64
    ensures { (j : ℕ) → bit result j ≡ (bit word j || bit other j) }
{
    word | other
}

// Puts the numbers of another set in, which has as many words.
pub fn join(words: &mut [u64], others: &[u64])
    requires { length words.old ≡ length others.now }
    ensures { (j : ℕ) → has words.new 0 j ≡ (has words.old 0 j || has others.now 0 j) }
{
    for i in 0..words.len() {
        words[i] = word_joined(words[i], others[i]);
    }
}

// The lowest number from w up that is in the set, or that is not, among those that the words hold.
// The loop goes by the number of a word, which the answer is made of.
pub fn next(words: &[u64], on: bool, w: u16) -> Option<u16>
    requires { length words.now < 1024 }
    ensures { result ≡ first (λ k. (if on then has words.now 0 k else not (has words.now 0 k))) w (64 * length words.now - w) }
{
    let start = w / WORD_BITS;
    let mut k = w % WORD_BITS; // where to begin in a word: at w, and then at its first bit
    for i in start..words.len() as u16 {
        let word = word_for(words[i as usize], on);
        if let Some(j) = word_next(word, k) {
            return Some(WORD_BITS * i + j);
        }
        k = 0;
    }
    None
}

// The lowest number from w up that is in the set and not in another one, which has as many words or
// more.
pub fn next_outside(words: &[u64], others: &[u64], w: u16) -> Option<u16>
    requires { (length words.now < 1024) × (length words.now ≤ length others.now) }
    ensures { result ≡ first (λ k. has words.now 0 k && not (has others.now 0 k)) w (64 * length words.now - w) }
{
    let start = w / WORD_BITS;
    let mut k = w % WORD_BITS; // as in `next`
    for i in start..words.len() as u16 {
        let word = word_outside(words[i as usize], others[i as usize]);
        if let Some(j) = word_next(word, k) {
            return Some(WORD_BITS * i + j);
        }
        k = 0;
    }
    None
}
