//! A sketch of fingerprints: one that is not marked in it was never inserted, one that is marked may
//! have been. It lets `uniqueItems` see that an item is new without memory and without a list of the
//! items so far: it is an array on the stack, and an item costs three words of it, however many there
//! are. So it says nothing about which item is the earlier one: whoever finds a mark compares.
//!
//! A fingerprint sets the same five bits in three words, which is as good as three times as many bits
//! of one word and takes less time than other bits in each. The words come from the high ends of its
//! halves, the bits from the low ends, so that they do not depend on each other. With two fingerprints
//! for each word, one in 150,000 looks marked and is not (one in 40,000 in the smallest sketch); with
//! four of them, one in 800. Fingerprints under a known seed can be searched for to crowd a few words,
//! so what a mark costs is limited where it is looked at, and not here.
ghost use Rattle.std.specs.Prelude.{ℕ, ◌≡◌, ◌≤◌, ◌<◌, ◌^◌, length, true};
ghost use Rattle.jskw_value.specs.Sketch.{word_index, marks, is_set, is_marked};

// Returns whether a fingerprint is marked: its bits are set in three words. Each half of it picks
// one of them, and both together the third.
#[tactic(auto, unfolding(crate::specs::Sketch::is_marked))]
pub(crate) fn is_marked(sketch: &[u64], fingerprint: u64) -> bool
    requires filled { 0 < length sketch.now }
    requires short { length sketch.now ≤ 2 ^ 32 }
    ensures { result ≡ is_marked sketch.now fingerprint }
{
    let bits = marks(fingerprint);
    let high = fingerprint >> 32;
    is_set(sketch, high, bits)
        && is_set(sketch, fingerprint, bits)
        && is_set(sketch, fingerprint ^ high, bits)
}

// Marks a fingerprint.
#[tactic(auto, using(crate::proofs::Sketches::marked_all, crate::proofs::Sketches::marked_kept))]
pub(crate) fn mark(sketch: &mut [u64], fingerprint: u64)
    requires filled { 0 < length sketch.old }
    requires short { length sketch.old ≤ 2 ^ 32 }
    ensures length { length sketch.new ≡ length sketch.old }
    ensures this { is_marked sketch.new fingerprint ≡ true }
    ensures others { (p : ℕ) → is_marked sketch.old p ≡ true → is_marked sketch.new p ≡ true }
{
    let bits = marks(fingerprint);
    let high = fingerprint >> 32;
    set(sketch, high, bits);
    set(sketch, fingerprint, bits);
    set(sketch, fingerprint ^ high, bits);
}

// Returns whether all of the bits are set in the word that a number picks.
#[tactic(auto, unfolding(crate::specs::Sketch::is_set))]
fn is_set(sketch: &[u64], picks: u64, bits: u64) -> bool
    requires filled { 0 < length sketch.now }
    requires short { length sketch.now ≤ 2 ^ 32 }
    ensures { result ≡ is_set sketch.now picks bits }
{
    let word = sketch[word_index(picks, sketch.len())];
    word | bits == word
}

// Sets the bits in the word that a number picks.
#[tactic(auto, using(crate::proofs::Sketches::set_this, crate::proofs::Sketches::set_other))]
fn set(sketch: &mut [u64], picks: u64, bits: u64)
    requires filled { 0 < length sketch.old }
    requires short { length sketch.old ≤ 2 ^ 32 }
    ensures length { length sketch.new ≡ length sketch.old }
    ensures this { is_set sketch.new picks bits ≡ true }
    ensures others { (p q : ℕ) → is_set sketch.old p q ≡ true → is_set sketch.new p q ≡ true }
{
    let at = word_index(picks, sketch.len());
    sketch[at] |= bits;
}

// Returns the index of the word that the lower half of a number picks.
#[tactic(auto, unfolding(crate::specs::Sketch::word_index))]
fn word_index(picks: u64, count: usize) -> usize
    requires filled { 0 < count }
    requires short { count ≤ 2 ^ 32 }
    ensures value { result ≡ word_index picks count }
    ensures within { result < count }
{
    ((picks % (1 << 32) * count as u64) >> 32) as usize
}

// Returns the bits that a fingerprint sets in each of its words: up to five. They come from the
// lower ends of its halves, whose upper ends pick the words.
#[tactic(auto, unfolding(crate::specs::Sketch::marks))]
fn marks(fingerprint: u64) -> u64
    ensures { result ≡ marks fingerprint }
{
    (1 << (fingerprint % 64))
        | (1 << ((fingerprint >> 6) % 64))
        | (1 << ((fingerprint >> 9) % 64))
        | (1 << ((fingerprint >> 32) % 64))
        | (1 << ((fingerprint >> 38) % 64))
}
