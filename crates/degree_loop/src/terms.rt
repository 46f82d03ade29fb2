ghost use Rattle.std.specs.Prelude.{◌≡◌, ◌+◌, ◌-◌, ◌^◌, min};
ghost use Rattle.ideal_laws.specs.Quantities.{terms_in};

use free_poly::Poly;
use ideal_laws::Basis;

/// How many terms the elements of the basis and these have, where 2^64 - 1 stands for more, too.
pub(crate) fn terms_with(below: &Basis, elements: &[Poly]) -> u64
    ensures { result ≡ min (terms_in below.now.elements + terms_in elements.now) (2 ^ 64 - 1) }
{
    terms_below(below).saturating_add(terms_of(elements))
}

/// How many terms the elements of the basis have, where 2^64 - 1 stands for more, too.
pub(crate) fn terms_below(below: &Basis) -> u64
    ensures { result ≡ min (terms_in below.now.elements) (2 ^ 64 - 1) }
{
    let mut count: u64 = 0;
    for place in 0..below.len() {
        count = count.saturating_add(below.element(place).terms().len() as u64);
    }
    count
}

/// How many terms the elements have, where 2^64 - 1 stands for more, too.
fn terms_of(elements: &[Poly]) -> u64
    ensures { result ≡ min (terms_in elements.now) (2 ^ 64 - 1) }
{
    let mut count: u64 = 0;
    for element in elements {
        count = count.saturating_add(element.terms().len() as u64);
    }
    count
}
