ghost use Rattle.std.specs.Prelude.{◌≡◌, ◌+◌, ◌*◌, ◌^◌, ◌/◌, ◌%◌, ◌<◌, ◌≤◌, ◌++◌, IfSome, OnOk, drop, length, take};
ghost use Rattle.symbolic_prep.specs.Packing.{HasDigits, IsPacking, IsPackingFor, packed, unpacked};
ghost use Rattle.symbolic_prep.specs.PackedWords.{IsPackedAs, IsPackedWord, letters_in};

use words::NoMemory;

/// How the words of one degree are packed into numbers: so many bits for a letter, and room for so many letters.
#[derive(Debug, Clone, Copy)]
pub(crate) struct Packing {
    pub(crate) bits: u32,
    pub(crate) room: u32,
}

/// A packed word, and how many letters it has.
#[derive(Debug, Clone, Copy)]
pub(crate) struct PackedWord {
    pub(crate) key: u64,
    pub(crate) len: u32,
}

/// How the words of a degree are packed, where they are short enough.
pub(crate) fn packing_of(letters: u32, d: u32) -> Option<Packing>
    ensures { IfSome result (λ p. IsPackingFor letters d p.bits p.room) }
{
    for bits in 1u32..9 {
        let room = 64 / bits;
        if letters < 1u32 << bits && d <= room {
            return Some(Packing { bits, room });
        }
    }
    None
}

/// The letters from the left, with zeros behind the last one.
pub(crate) fn pack(packing: Packing, letters: &[u8]) -> u64
    requires packing { IsPacking packing.bits packing.room }
    requires over { HasDigits packing.bits letters.now }
    requires fits { length letters.now ≤ packing.room }
    ensures { result ≡ packed (2 ^ packing.bits) packing.room letters.now }
{
    let mut key = 0u64;
    let mut room = packing.room;
    for letter in letters {
        room -= 1;
        key += (u64::from(*letter) + 1) << (packing.bits * room);
    }
    key
}

/// The letters of a packed word before a place.
pub(crate) fn front(packing: Packing, word: PackedWord, at: u32) -> PackedWord
    requires packing { IsPacking packing.bits packing.room }
    requires word { IsPackedWord packing.bits packing.room word }
    requires within { at ≤ word.len }
    ensures { IsPackedAs packing.bits packing.room (take at (letters_in packing.bits packing.room word)) result }
{
    let rest = last_bits(word.key, packing.bits * (packing.room - at));
    PackedWord {
        key: word.key - rest,
        len: at,
    }
}

/// The letters of a packed word from a place on.
pub(crate) fn back(packing: Packing, word: PackedWord, at: u32) -> PackedWord
    requires packing { IsPacking packing.bits packing.room }
    requires word { IsPackedWord packing.bits packing.room word }
    requires within { at ≤ word.len }
    ensures { IsPackedAs packing.bits packing.room (drop at (letters_in packing.bits packing.room word)) result }
{
    PackedWord {
        key: last_letters(packing, word, at),
        len: word.len - at,
    }
}

fn last_letters(packing: Packing, word: PackedWord, at: u32) -> u64
    requires packing { IsPacking packing.bits packing.room }
    requires word { IsPackedWord packing.bits packing.room word }
    requires within { at ≤ word.len }
    ensures { result ≡ packed (2 ^ packing.bits) packing.room
        (drop at (letters_in packing.bits packing.room word)) }
{
    if at == word.len {
        return 0;
    }
    last_bits(word.key, packing.bits * (packing.room - at)) << (packing.bits * at)
}

fn last_bits(key: u64, count: u32) -> u64
    ensures { result ≡ key % 2 ^ count }
{
    if count >= 64 {
        key
    } else {
        key - (key >> count << count)
    }
}

/// A packed word of three.
pub(crate) fn joined(
    packing: Packing,
    before: PackedWord,
    middle: PackedWord,
    rest: PackedWord,
) -> PackedWord
    requires packing { IsPacking packing.bits packing.room }
    requires before { IsPackedWord packing.bits packing.room before }
    requires middle { IsPackedWord packing.bits packing.room middle }
    requires rest { IsPackedWord packing.bits packing.room rest }
    requires fits { before.len + middle.len + rest.len ≤ packing.room }
    ensures { IsPackedAs packing.bits packing.room (letters_in packing.bits packing.room before ++
        letters_in packing.bits packing.room middle ++ letters_in packing.bits packing.room rest) result }
{
    let behind = before.len + middle.len;
    let second = shifted(middle.key, packing.bits * before.len);
    let third = shifted(rest.key, packing.bits * behind);
    PackedWord {
        key: before.key + second + third,
        len: behind + rest.len,
    }
}

fn shifted(key: u64, by: u32) -> u64
    ensures { result ≡ key / 2 ^ by }
{
    if by >= 64 { 0 } else { key >> by }
}

/// Fills a buffer with the letters of a packed word.
pub(crate) fn unpack(packing: Packing, key: u64, letters: &mut Vec<u8>) -> Result<(), NoMemory>
    requires packing { IsPacking packing.bits packing.room }
    requires fits { key < (2 ^ packing.bits) ^ packing.room }
    ensures { OnOk result (letters.new.items ≡ unpacked (2 ^ packing.bits) packing.room key) }
{
    letters.clear();
    let mut rest = key;
    let mut room = packing.room;
    while room > 0 {
        room -= 1;
        let shift = packing.bits * room;
        let digit = rest >> shift;
        if digit == 0 {
            return Ok(());
        }
        letters.push((digit - 1) as u8)?;
        rest -= digit << shift;
    }
    Ok(())
}
