ghost use Rattle.std.specs.Prelude.{◌≡◌, ◌≢◌, ◌≤◌, [], All, IfOk, length, min};
ghost use Rattle.free_poly.specs.Terms.{HasOneDegree, HasResidues, UsesLetters};
ghost use Rattle.ideal_laws.specs.Engine.{IsReducedUpto};
ghost use Rattle.ideal_laws.specs.Ideal.{ideal_over};
ghost use Rattle.ideal_laws.specs.Kept.{lead_degree};
ghost use Rattle.cofactors.specs.Certificate.{IsCertificate};

use crate::bases::basis_of;
use crate::presented::{assert_same, presented, residues};
use cofactors::{Certificate, CofactorFault, expand, normal_form};
use degree_words::degree_within;
use field_table::{Field, NoMemory};
use free_poly::Poly;
use ideal_laws::{Basis, Presentation, lower_law, setting_law};
use lead_index::index_of;
use std::alloc::Global;
use std::process::Abort;
use std::test::Fail;
use std::thread::Threads;
use words::{Alphabet, Items};

/// Relations, and a question on their ideal.
#[derive(Drop)]
struct Asked {
    given: Presentation,
    question: Poly,
}

/// The last relation of a text is the question.
fn asked_by(rt: &impl Abort, alloc: Global, field: &Field, text: &str) -> Result<Asked, Fail>
    ensures relations { IfOk result (λ a. All (HasResidues field.now) a.given.relations) }
    ensures other { IfOk result (λ a. a.question ≢ []) }
    ensures letters { IfOk result (λ a. UsesLetters (length a.given.alphabet.weights) a.question) }
    ensures residues { IfOk result (λ a. HasResidues field.now a.question) }
    ensures one_degree { IfOk result (λ a. HasOneDegree a.given.alphabet.weights a.question) }
{
    let Presentation {
        alphabet,
        relations,
    } = presented(rt, alloc, field, text)?;
    let mut relations = relations.into_vec();
    let Some(question) = relations.pop() else {
        panic!(rt; "{text} asks nothing")
    };
    let given = Presentation {
        alphabet,
        relations: Items::from_vec(relations),
    };
    Ok(Asked { given, question })
}

/// The degree of an element, where it is at most 64, and else 65.
fn degree_of(alphabet: &Alphabet, element: &Poly) -> u32
    requires other { element.now ≢ [] }
    requires letters { UsesLetters (length alphabet.now.weights) element.now }
    ensures { result ≡ min (lead_degree alphabet.now.weights element.now) 65 }
{
    degree_within(alphabet, element.terms()[0].word.letters(), 65)
}

/// The normal form of a question, with products.
fn certificate_of(
    alloc: Global,
    field: &Field,
    given: &Presentation,
    basis: &Basis,
    question: &Poly,
) -> Result<Certificate, CofactorFault>
    requires relations { All (HasResidues field.now) given.now.relations }
    requires other { question.now ≢ [] }
    requires letters { UsesLetters (length given.now.alphabet.weights) question.now }
    requires residues { HasResidues field.now question.now }
    requires one_degree { HasOneDegree given.now.alphabet.weights question.now }
    requires weights { basis.now.weights ≡ given.now.alphabet.weights }
    requires done { lead_degree basis.now.weights question.now ≤ basis.now.done }
    requires reduced { IsReducedUpto field.now given.now.relations basis.now }
    ensures { let weights = basis.now.weights in IfOk result
        (IsCertificate (ideal_over field.now weights given.now.relations) (lead_degree weights question.now)
        question.now) }
{
    setting_law(field, given);
    lower_law();
    let _done = basis.done();
    let index = index_of(alloc, basis)?;
    normal_form(alloc, field, given, basis, &index, question, 16_384)
}

/// The products make up the question less its normal form, which is this, and 0 where there is none.
fn assert_answer<R: Abort + Threads + Sync>(
    rt: &R,
    alloc: Global,
    modulus: u32,
    text: &str,
    normal: Option<&str>,
) -> Result<(), Fail> {
    let field = residues(rt, alloc, modulus)?;
    let Asked { given, question } = asked_by(rt, alloc, &field, text)?;
    let degree = degree_of(&given.alphabet, &question);
    assert!(rt; 1 <= degree && degree <= 64);
    let basis = basis_of(rt, alloc, &field, &given, degree, text)?;
    let found = certificate_of(alloc, &field, &given, &basis, &question)?;
    let sum = expand(alloc, &field, &given, found.products.as_slice())?;
    let less = question.add_scaled(alloc, &field, field.neg(1), &found.normal)?;
    assert_same(rt, &sum, &less, text);
    let Some(normal) = normal else {
        assert_eq!(rt; found.normal.terms().len(), 0, "{text}");
        return Ok(());
    };
    let wanted = presented(rt, alloc, &field, normal)?;
    assert_eq!(rt; wanted.relations.as_slice().len(), 1, "{normal}");
    assert_same(rt, &found.normal, &wanted.relations.as_slice()[0], text);
    Ok(())
}

/// Questions on the ideal of the relations before them, with their normal forms by hand, and none for 0.
#[test]
fn products_make_up_what_a_normal_form_leaves_out(rt: HostRuntime) -> Result<(), Fail> {
    let alloc = rt.alloc();
    let cases: [(u32, &str, Option<&str>); 10] = [
        (
            101,
            "vars x,y,z; x*y-y*x, x*z-z*x, y*z-z*y, x*y*z-z*y*x;",
            None,
        ),
        (
            7,
            "vars x,y; 2*x*y-3*y*x, x^2*y^2;",
            Some("vars x,y; 2*y^2*x^2;"),
        ),
        (2, "vars x,y; x^2, y^2, x*y+y*x, x*y*x;", None),
        // The elements of degree 4 come from overlaps alone.
        (101, "vars x,y; x^2-y*x, x*y^2*x-y^3*x;", None),
        (101, "vars x,y; x^2-y*x, x^4;", Some("vars x,y; y^3*x;")),
        (101, "vars x:2,y; x^2-y^4, x*y^4-y^4*x;", None),
        (101, "vars x:2,y; x^2-y^4, x^3;", Some("vars x:2,y; y^4*x;")),
        // Braids of three strands: the square of a*b*a commutes with a, and a^2*b is not a*b^2.
        (
            101,
            "vars a,b; a*b*a-b*a*b, a*b*a^2*b*a^2-a^2*b*a^2*b*a;",
            None,
        ),
        (
            101,
            "vars a,b; a*b*a-b*a*b, a^2*b-a*b^2;",
            Some("vars a,b; a^2*b-a*b^2;"),
        ),
        // The Fomin-Kirillov algebra on three letters.
        (
            101,
            "vars a,b,c; a^2, b^2, c^2, a*b+b*c+c*a, b*a+a*c+c*b, a*b*a-b*a*b;",
            None,
        ),
    ];
    for (modulus, text, normal) in cases {
        assert_answer(&rt, alloc, modulus, text, normal)?;
    }
    Ok(())
}
