ghost use Rattle.std.specs.Prelude.{◌≢◌, ◌<◌, ◌^◌, [], All, length};
ghost use Rattle.free_poly.specs.Terms.{HasOneDegree, UsesLetters};

use free_poly::Poly;
use words::{Alphabet, Items};

/// An alphabet and relations in its letters, each of one degree, none of them 0 or of degree 0.
#[derive(Debug, Drop)]
pub struct Presentation {
    pub alphabet: Alphabet,
    pub relations: Items<Poly>,
    pub ghost letters: { All (λ r. UsesLetters (length alphabet.weights) r) relations },
    pub ghost others: { All (λ r. r ≢ []) relations },
    pub ghost one_degree: { All (λ r. HasOneDegree alphabet.weights r) relations },
    pub ghost degrees: { All (λ r. All (λ t. t.word ≢ []) r) relations },
    pub ghost few: { length relations < 2 ^ 32 },
}
