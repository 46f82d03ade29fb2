ghost use Rattle.std.specs.Prelude.{◌≡◌, [], ℕ, All, IfOk};
ghost use Rattle.std.specs.List.{flat_map};
ghost use Rattle.free_poly.specs.Poly.{IsPolynomial};
ghost use Rattle.free_poly.specs.Terms.{HasResidues, IsSame};
ghost use Rattle.cofactors.specs.ProductList.{IsProduct, product_terms};
ghost use Rattle.ideal_laws.specs.Ideal.{ideal_of};

use crate::product::{Product, triple_of};
use field_table::Field;
use free_poly::{Poly, PolyFault};
use ideal_laws::Presentation;
use std::alloc::{AllocError, Global};
use words::{Alphabet, NoMemory};

/// The sum of the products.
pub fn expand(
    alloc: Global,
    field: &Field,
    presentation: &Presentation,
    products: &[Product],
) -> Result<Poly, NoMemory>
    requires products { (d : ℕ) × All (IsProduct (ideal_of field.now presentation.now) d) products.now }
    requires relations { All (HasResidues field.now) presentation.now.relations }

    ensures sum { IfOk result (λ f. IsSame field.now f (flat_map (product_terms presentation.now.relations)
        products.now)) }
    ensures form { IfOk result IsPolynomial }
    ensures residues { IfOk result (HasResidues field.now) }
{
    let mut sum = zero(alloc, &presentation.alphabet, field)?;
    for product in products {
        let middle = triple_of(alloc, presentation, product)?;
        sum = sum.add_scaled(alloc, field, product.coefficient, &middle)?;
    }
    Ok(sum)
}

/// The polynomial 0.
fn zero(alloc: Global, alphabet: &Alphabet, field: &Field) -> Result<Poly, NoMemory>
    ensures { IfOk result (λ f. f ≡ []) }
{
    match Poly::from_terms(alloc, alphabet, field, Vec::new(alloc)) {
        Ok(sum) => Ok(sum),
        Err(PolyFault::NoMemory) => Err(AllocError),
        Err(PolyFault::MixedDegrees { .. }) => unreachable!(),
    }
}
