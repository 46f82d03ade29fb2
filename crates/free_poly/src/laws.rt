ghost use Rattle.free_poly.specs.ElementLaws.{AddsCoefficients, AddsDegreeInProducts, HasNoPrefixInDegree};
ghost use Rattle.free_poly.specs.ElementLaws.{IsKnownByCoefficients, KeepsDegreeInMultiples, KeepsDegreeInSums};
ghost use Rattle.free_poly.specs.ElementLaws.{KeepsLettersInMultiples, KeepsLettersInProducts, KeepsLettersInSums};
ghost use Rattle.free_poly.specs.ElementLaws.{LeadsWithGreatest, MovesCoefficients, ScalesCoefficients};

/// The laws of elements: an element is known by its coefficients, by which sums, multiples and products are defined;
/// its first word is its greatest; and sums, multiples and products of elements of one degree have one degree.
pub fn element_laws()
    ensures known { IsKnownByCoefficients }
    ensures sums { AddsCoefficients }
    ensures multiples { ScalesCoefficients }
    ensures products { MovesCoefficients }
    ensures leads { LeadsWithGreatest }
    ensures no_prefix { HasNoPrefixInDegree }

    ensures degree_of_sums { KeepsDegreeInSums }
    ensures letters_of_sums { KeepsLettersInSums }
    ensures degree_of_multiples { KeepsDegreeInMultiples }
    ensures letters_of_multiples { KeepsLettersInMultiples }
    ensures degree_of_products { AddsDegreeInProducts }
    ensures letters_of_products { KeepsLettersInProducts }
{}
