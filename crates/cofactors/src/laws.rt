ghost use Rattle.cofactors.specs.Laws.{HasNormalForm, HasProductList, IsNormalWhereFree, TellsMembers};

/// Each element of a degree has exactly one normal form, which is 0 exactly where the element is in the ideal; a word
/// is none of the leading words exactly where no leading word of the reduced basis stands in it; and the element less
/// its normal form is the sum of a product list.
pub fn normal_form_laws()
    ensures one { HasNormalForm }
    ensures members { TellsMembers }
    ensures normal { IsNormalWhereFree }
    ensures products { HasProductList }
{}
