// The words that a loss draws.
ghost use Rattle.std.specs.Prelude.{◌≡◌, ℕ, ◌+◌, ◌^◌, ◌<◌, slice_index};
ghost use Rattle.loss_core.specs.Losses.{cha_word};

use rand_chacha::ChaCha20Rng;
use rand_core::SeedableRng;
use rand_core::utils::NextWord;

/// A source of 32-bit words. Contracts see it as the function `word`: for each number k the word at place k from now.
pub trait Words {
    ghost word: { Self → ℕ → ℕ };

    /// Returns the word at place 0. Then each place has the word that the place after it had.
    fn next(&mut self) -> u32
        ensures value { result ≡ word self.old 0 }
        ensures after { (k : ℕ) → word self.new k ≡ word self.old (k + 1) };
}

/// The words of a seed and a stream: those of the ChaCha20 block function (RFC 8439, section 2.3) in its first form,
/// with a 64-bit counter and a 64-bit stream.
#[derive(Drop)]
pub struct ChaWords {
    rng: ChaCha20Rng,
    ghost placed: { rng.word_pos < 2 ^ 68 },
}

impl ChaWords {
    ghost use Rattle.loss_core.specs.Sources.{cha_words};

    /// The words from place 0. The key is the seed as 8 bytes, the lowest first, and 24 zero bytes.
    pub fn new(seed: u64, stream: u64) -> ChaWords
        ensures { (k : ℕ) → cha_words result k ≡ cha_word seed stream k }
    {
        let mut key = [0u8; 32];
        key[..8].copy_from_slice(&seed.to_le_bytes());
        let mut rng = ChaCha20Rng::from_seed(key);
        rng.set_stream(stream);
        ChaWords { rng }
    }
}

impl Words for ChaWords {
    ghost use Rattle.loss_core.specs.Sources.{cha_words};

    ghost word = { cha_words };

    fn next(&mut self) -> u32 {
        self.rng.next_word()
    }
}

/// The words of a list, for tests, and 0 at every place after it.
#[derive(Drop)]
pub struct ListWords {
    list: Vec<u32>,
    place: usize,
}

impl ListWords {
    ghost use Rattle.loss_core.specs.Sources.{list_words};

    /// The words of the list from its first.
    pub fn new(words: Vec<u32>) -> ListWords
        ensures { (k : ℕ) → list_words result k ≡ slice_index words.items k }
    {
        ListWords {
            list: words,
            place: 0,
        }
    }
}

impl Words for ListWords {
    ghost use Rattle.loss_core.specs.Sources.{list_words};

    ghost word = { list_words };

    fn next(&mut self) -> u32 {
        if self.place >= self.list.len() {
            return 0;
        }
        let word = self.list[self.place];
        self.place += 1;
        word
    }
}
