ghost use Rattle.std.specs.Prelude.{◌≡◌, ◌+◌, ◌-◌, ◌^◌, ◌<◌, ◌≤◌, ℕ, min, length, slice_index};
ghost use Rattle.std.specs.List.{flat_map, range_with_len};
ghost use Rattle.words.specs.Words.{with_letter, words_of_degree};
ghost use Rattle.degree_words.specs.Lists.{AreCounts};

use words::Alphabet;

/// How many words each degree up to d has, where 2^64 - 1 stands for more, too.
pub fn counts_of(alphabet: &Alphabet, d: u32) -> [u64; 65]
    requires { d ≤ 64 }
    ensures { AreCounts alphabet.now.weights result (d + 1) }
{
    let mut counts = [0; 65];
    counts[0] = 1;
    for k in 1..d + 1 {
        counts[k as usize] = count_of(alphabet, &counts, k);
    }
    counts
}

/// The number of words of a degree, from the numbers of the degrees below.
fn count_of(alphabet: &Alphabet, counts: &[u64; 65], k: u32) -> u64
    requires some { 0 < k }
    requires small { k ≤ 64 }
    requires counts { AreCounts alphabet.now.weights counts.now k }
    ensures { result ≡ min (length (words_of_degree alphabet.now.weights k)) (2 ^ 64 - 1) }
{
    let mut count: u64 = 0;
    for letter in 0..alphabet.len() {
        let weight = u32::from(alphabet.weight(letter as u8));
        if weight <= k {
            count = count.saturating_add(counts[(k - weight) as usize]);
        }
    }
    count
}
