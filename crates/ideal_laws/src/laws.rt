ghost use Rattle.std.specs.Prelude.{◌≡◌, ℕ, All};
ghost use Rattle.free_poly.specs.Poly.{IsPolynomial};
ghost use Rattle.free_poly.specs.Terms.{HasResidues};
ghost use Rattle.ideal_laws.specs.Closure.{IsFactorFree};
ghost use Rattle.ideal_laws.specs.declared.limits.LimitKind.{LimitKind};
ghost use Rattle.ideal_laws.specs.Engine.{IsNextDegree};
ghost use Rattle.ideal_laws.specs.Ideal.{ideal_of};
ghost use Rattle.ideal_laws.specs.Kept.{IsBelow};
ghost use Rattle.ideal_laws.specs.Laws.{HasOneBasis, HasOneDimension, IsFactorLaw, IsNeighbourSpan, IsSetting};
ghost use Rattle.ideal_laws.specs.Overlaps.{AreLower, ListsFactorFree, ListsLower, OverlapsSuffice};
ghost use Rattle.ideal_laws.specs.Quantities.{HasOneQuantity, IsQuantity};

use crate::basis::{Basis, weights_of};
use crate::presentation::Presentation;
use field_table::Field;

/// The laws of ideals over a field of residues: each degree has one reduced basis and one dimension, which is the
/// number of its leading words; a word is a leading word exactly where some factor of it is minimal; and a degree is
/// spanned by its neighbours.
pub fn basis_laws()
    ensures one_basis { HasOneBasis }
    ensures dimension { HasOneDimension }
    ensures factors { IsFactorLaw }
    ensures neighbours { IsNeighbourSpan }
{}

/// The reducers of the words of a degree, its relations and the rows of its obstructions span it.
pub fn overlaps_law()
    ensures { OverlapsSuffice }
{}

/// A reduced basis up to a degree lists the reduced elements of all lower degrees, and none of its leading words is a
/// factor of another.
pub fn lower_law()
    ensures lower { ListsLower }
    ensures factors { ListsFactorFree }
{}

/// Each quantity of a degree is one number, so an engine is refused at one limit alone.
pub fn quantities_law()
    ensures { HasOneQuantity }
{}

/// A presentation with residues of a field is what the laws are about.
pub fn setting_law(field: &Field, presentation: &Presentation)
    requires { All (HasResidues field.now) presentation.now.relations }
    ensures { IsSetting (ideal_of field.now presentation.now) }
{
    let _modulus = field.modulus();
    let _weights = weights_of(&presentation.alphabet);
    for relation in presentation.relations.as_slice() {
        let _terms = relation.terms();
    }
}

/// What the basis below the next degree gives: it lists the reduced elements of all lower degrees, none of whose
/// leading words is a factor of another, and each quantity of the degree is one number.
pub fn next_degree_law(field: &Field, presentation: &Presentation, below: &Basis, d: u32)
    requires { IsNextDegree field.now presentation.now below.now d }
    ensures setting { IsSetting (ideal_of field.now presentation.now) }
    ensures below { IsBelow (ideal_of field.now presentation.now) d below.now }
    ensures lower { AreLower (ideal_of field.now presentation.now) d below.now.elements }
    ensures forms { All IsPolynomial below.now.elements }
    ensures residues { All (HasResidues field.now) below.now.elements }
    ensures factor_free { IsFactorFree below.now.elements }
    ensures one_quantity { (kind : LimitKind) (q r : ℕ) → IsQuantity (ideal_of field.now presentation.now) below.now d
        kind q → IsQuantity (ideal_of field.now presentation.now) below.now d kind r → q ≡ r }
{
    lower_law();
    quantities_law();
    setting_law(field, presentation);
    let _done = below.done();
}
