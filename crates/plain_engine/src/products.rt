ghost use Rattle.std.specs.Prelude.{◌≡◌, ◌+◌, ◌<◌, ◌≤◌, ◌++◌, ◌∷◌, [], All, IfOk, OnOk, length};
ghost use Rattle.std.specs.List.{flat_map};
ghost use Rattle.free_poly.specs.Terms.{HasNoPrefix, HasResidues, UsesLetters, product};
ghost use Rattle.back_reduce.specs.Rref.{IsRref};
ghost use Rattle.plain_engine.specs.Products.{coefficients, relation_rows, word_rows, words_round};
ghost use Rattle.plain_engine.specs.Spans.{HaveOneSpan, IsGathered};

use crate::gathered::{Gathered, echelon_of, make_room};
use back_reduce::Row;
use degree_words::degree_within;
use field_table::Field;
use free_poly::{Poly, element_laws};
use ideal_laws::Presentation;
use std::alloc::Global;
use std::thread::Threads;
use words::{Alphabet, Items, NoMemory, Word};

/// The echelon form of all products of relations of degree d over its words.
pub(crate) fn echelon_of_products<R: Threads + Sync>(
    rt: &R,
    alloc: Global,
    field: &Field,
    presentation: &Presentation,
    lists: &[Items<Word>],
    d: u32,
    columns: &[Word],
) -> Result<Vec<Row>, NoMemory>
    requires small { d ≤ 64 }
    requires lists { length lists.now ≡ d + 1 }
    requires narrow { length columns.now ≤ 4096 }
    requires residues { All (HasResidues field.now) presentation.now.relations }
    ensures form { IfOk result (λ echelon. IsRref field.now (length columns.now)
        (flat_map (relation_rows presentation.now.alphabet.weights lists.now d columns.now) presentation.now.relations)
        echelon.items) }
    ensures few { IfOk result (λ echelon. length echelon.items ≤ 4096) }
{
    element_laws();
    let alphabet = &presentation.alphabet;
    let _letters = alphabet.len();
    let mut gathered = Gathered {
        degree: d,
        rows: Vec::new(alloc),
        full: false,
    };
    for relation in presentation.relations.as_slice() {
        let words = words_round(alphabet, lists, d, relation);
        add_relation(rt, alloc, field, columns, relation, words, &mut gathered)?;
    }
    echelon_of(rt, alloc, field, d, columns.len() as u32, gathered.rows)
}

/// The words that have degree d together with the leading word of a relation.
fn words_round<'a>(
    alphabet: &Alphabet,
    lists: &'a [Items<Word>],
    d: u32,
    relation: &Poly,
) -> &'a [Word]
    requires small { d ≤ 64 }
    requires lists { length lists.now ≡ d + 1 }
    requires letters { UsesLetters (length alphabet.now.weights) relation.now }
    ensures { result.now ≡ words_round alphabet.now.weights lists.now d relation.now }
{
    let Some(lead) = relation.lead() else {
        return &[];
    };
    let degree = degree_within(alphabet, lead.letters(), d + 1);
    if degree > d {
        return &[];
    }
    lists[(d - degree) as usize].as_slice()
}

/// Adds the products of a relation with all pairs of words that are one of these together.
fn add_relation<R: Threads + Sync>(
    rt: &R,
    alloc: Global,
    field: &Field,
    columns: &[Word],
    relation: &Poly,
    words: &[Word],
    gathered: &mut Gathered,
) -> Result<(), NoMemory>
    requires narrow { length columns.now ≤ 4096 }
    requires no_prefix { HasNoPrefix relation.now }
    requires residues { HasResidues field.now relation.now }
    requires gathered { IsGathered field.now (length columns.now) gathered.old }
    ensures gathered { OnOk result (IsGathered field.now (length columns.now) gathered.new) }
    ensures span { OnOk result (HaveOneSpan field.now
        (gathered.old.rows.items ++ flat_map (word_rows columns.now relation.now) words.now) gathered.new.rows.items) }
{
    for word in words {
        let word = word.letters();
        add_word(rt, alloc, field, columns, relation, word, gathered)?;
    }
    Ok(())
}

/// Adds the products of a relation with the beginning of a word before it and the rest behind it.
fn add_word<R: Threads + Sync>(
    rt: &R,
    alloc: Global,
    field: &Field,
    columns: &[Word],
    relation: &Poly,
    word: &[u8],
    gathered: &mut Gathered,
) -> Result<(), NoMemory>
    requires narrow { length columns.now ≤ 4096 }
    requires no_prefix { HasNoPrefix relation.now }
    requires residues { HasResidues field.now relation.now }
    requires gathered { IsGathered field.now (length columns.now) gathered.old }
    ensures gathered { OnOk result (IsGathered field.now (length columns.now) gathered.new) }
    ensures span { OnOk result (HaveOneSpan field.now
        (gathered.old.rows.items ++ word_rows columns.now relation.now word.now) gathered.new.rows.items) }
{
    for at in 0..word.len() + 1 {
        let (left, right) = word.split_at(at);
        add_product(rt, alloc, field, columns, left, relation, right, gathered)?;
    }
    Ok(())
}

/// Adds the product of a relation with these words round it. Where a row leads at each column, the span has it already.
fn add_product<R: Threads + Sync>(
    rt: &R,
    alloc: Global,
    field: &Field,
    columns: &[Word],
    left: &[u8],
    relation: &Poly,
    right: &[u8],
    gathered: &mut Gathered,
) -> Result<(), NoMemory>
    requires narrow { length columns.now ≤ 4096 }
    requires no_prefix { HasNoPrefix relation.now }
    requires residues { HasResidues field.now relation.now }
    requires gathered { IsGathered field.now (length columns.now) gathered.old }
    ensures gathered { OnOk result (IsGathered field.now (length columns.now) gathered.new) }
    ensures span { OnOk result (HaveOneSpan field.now
        (gathered.old.rows.items ++ coefficients columns.now (product left.now relation.now right.now) ∷ [])
        gathered.new.rows.items) }
{
    if gathered.full {
        return Ok(());
    }
    let _modulus = field.modulus();
    make_room(rt, alloc, field, columns.len() as u32, gathered)?;
    let row = row_of(alloc, columns, &relation.times(alloc, left, right)?)?;
    gathered.rows.push(row)?;
    Ok(())
}

/// The coefficients of a polynomial at the columns.
fn row_of(alloc: Global, columns: &[Word], poly: &Poly) -> Result<Row, NoMemory>
    ensures { IfOk result (λ row. row ≡ coefficients columns.now poly.now) }
{
    let mut residues = Vec::with_capacity(alloc, columns.len())?;
    for word in columns {
        residues.push(poly.coefficient(word.letters()))?;
    }
    Row::from_residues(alloc, residues.as_slice())
}
