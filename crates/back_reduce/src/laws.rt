ghost use Rattle.back_reduce.specs.Rref.{HaveOneRref};

/// Each list of rows over a field has exactly one reduced row echelon form.
pub fn echelon_law()
    ensures { HaveOneRref }
{}
