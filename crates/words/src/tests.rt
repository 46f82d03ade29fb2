ghost use Rattle.std.specs.Prelude.{◌≡◌, ◌↔◌, ◌≤◌, IfOk, IsTrue, length};
ghost use Rattle.words.specs.Words.{IsOver};

use crate::{Alphabet, AlphabetFault, Word, deglex, degree, occurs_at};
use std::alloc::{AllocError, Global};
use std::cmp::Ordering;
use std::test::Fail;

/// A name of one byte for each of these.
fn names_of(alloc: Global, bytes: &[u8]) -> Result<Vec<Vec<u8>>, AllocError>
    ensures { IfOk result (λ names. length names.items ≡ length bytes.now) }
{
    let mut names = Vec::new(alloc);
    for byte in bytes {
        names.push(vec![in alloc; *byte]?)?;
    }
    Ok(names)
}

fn is_over(alphabet: &Alphabet, word: &[u8]) -> bool
    ensures { IsTrue result ↔ IsOver (length alphabet.now.weights) word.now }
{
    let names = alphabet.len();
    word.iter().all(|letter| u32::from(*letter) < names)
}

#[test]
fn words_are_made_of_letters(rt: HostRuntime) -> Result<(), Fail> {
    let word = Word::from_letters(rt.alloc(), &[0, 1])?;
    let joined = Word::joined(rt.alloc(), &[0], &[1, 1])?;
    assert_eq!(rt; word.letters(), [0, 1].as_slice());
    assert_eq!(rt; joined.copy(rt.alloc())?.letters(), [0, 1, 1].as_slice());
    assert!(rt; joined > word, "a word is greater than its prefixes");
    assert_eq!(rt; joined, joined.copy(rt.alloc())?);
    Ok(())
}

#[test]
fn alphabets_are_refused(rt: HostRuntime) -> Result<(), Fail> {
    let alphabet = Alphabet::new(rt.alloc(), names_of(rt.alloc(), b"xy")?)?;
    assert_eq!(rt; alphabet.len(), 2);
    assert_eq!(rt; alphabet.name(1), b"y".as_slice());
    assert_eq!(rt; alphabet.weight(1), 1);
    assert_eq!(rt; alphabet.find(b"y"), Some(1));
    assert_eq!(rt; alphabet.find(b"z"), None);

    let repeated = Alphabet::new(rt.alloc(), names_of(rt.alloc(), b"xyx")?);
    assert!(rt;
        matches!(
            repeated,
            Err(AlphabetFault::Repeated {
                first: 0,
                second: 2
            })
        )
    );
    let empty = Alphabet::new(rt.alloc(), names_of(rt.alloc(), b"")?);
    assert!(rt; matches!(empty, Err(AlphabetFault::Empty)));
    let mut many = Vec::new(rt.alloc());
    for byte in 0..65 {
        many.push(vec![in rt.alloc(); byte]?)?;
    }
    let many = Alphabet::new(rt.alloc(), many);
    assert!(rt; matches!(many, Err(AlphabetFault::TooMany)));
    let weights = vec![in rt.alloc(); 1; 2]?;
    let twice = Alphabet::weighted(rt.alloc(), names_of(rt.alloc(), b"xx")?, weights);
    assert!(rt;
        matches!(
            twice,
            Err(AlphabetFault::Repeated {
                first: 0,
                second: 1
            })
        )
    );
    Ok(())
}

#[test]
fn words_are_compared_by_degree_and_letters(rt: HostRuntime) -> Result<(), Fail> {
    for (weights, a, b, order, greatest) in [
        (
            [1, 1],
            [0, 1].as_slice(),
            [1, 0].as_slice(),
            Ordering::Greater,
            2,
        ),
        ([1, 1], [1].as_slice(), [0, 0].as_slice(), Ordering::Less, 2),
        ([1, 1], [].as_slice(), [].as_slice(), Ordering::Equal, 0),
        (
            [2, 1],
            [0].as_slice(),
            [1, 1].as_slice(),
            Ordering::Greater,
            2,
        ),
        (
            [2, 1],
            [0].as_slice(),
            [1, 1, 1].as_slice(),
            Ordering::Less,
            3,
        ),
    ] {
        let names = names_of(rt.alloc(), b"xy")?;
        let weights = Vec::from_slice(rt.alloc(), &weights)?;
        let alphabet = Alphabet::weighted(rt.alloc(), names, weights)?;
        assert!(rt; is_over(&alphabet, a) && is_over(&alphabet, b) && a.len() < 9 && b.len() < 9);
        assert_eq!(rt; deglex(&alphabet, a, b), order, "{a:?} and {b:?}");
        let degree = degree(&alphabet, a).max(degree(&alphabet, b));
        assert_eq!(rt; degree, greatest, "{a:?} and {b:?}");
    }
    Ok(())
}

#[test]
fn the_empty_word_stands_up_to_the_end(rt: HostRuntime) {
    for (at, stands) in [(0, true), (2, true), (3, false)] {
        assert_eq!(rt; occurs_at(&[], &[0, 1], at), stands, "at {at}");
    }
}
