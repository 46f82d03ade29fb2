ghost use Rattle.hilbert.specs.Series.{CountsCoefficients};

/// The number of the normal words of a degree is the coefficient, where the basis is reduced up to the degree.
pub fn count_law()
    ensures { CountsCoefficients }
{}
