// The eight words of a header, each of eight bytes, lowest byte first: written in a row, and compared.
#![tactic(auto)]

ghost use Rattle.std.specs.Prelude.{true, ◌≡◌, ◌↔◌, ◌≤◌, length, IsOk};
ghost use Rattle.serde_rdh_words.specs.WordBytes.{word_bytes, words_into};

use rdh::rdh_cru::{RDH_CRU_SIZE_BYTES, TooFewBytes};

// Writes the words in a row, from the first byte on, or nothing where there are fewer than 64 bytes.
#[tactic(auto, using(crate::proofs::WordLaws::left))]
pub fn write_words(out: &mut [u8], words: [u64; 8]) -> Result<(), TooFewBytes>
    ensures fit { IsOk result ↔ (64 ≤ length out.old) }
    ensures left { out.new ≡ words_into words out.old }
{
    if out.len() < RDH_CRU_SIZE_BYTES {
        return Err(TooFewBytes);
    }
    for (w, word) in words.iter().enumerate() {
        out[8 * w..8 * w + 8].copy_from_slice(&word.to_le_bytes());
    }
    Ok(())
}

// Whether all words are the same, which is so exactly when their bytes are.
pub fn same_words(a: [u64; 8], b: [u64; 8]) -> bool
    ensures { (result ≡ true) ↔ (word_bytes a ≡ word_bytes b) }
{
    a == b
}
