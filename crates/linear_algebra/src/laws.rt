ghost use Rattle.linear_algebra.specs.Laws.{HasElimination, HasOneForm, IsDependentWhenMore};

/// Elimination, which gives each list of vectors a reduced basis over the columns; that it is the only one of its
/// span; and that more vectors than columns are dependent.
pub fn elimination_laws<X>()
    ensures basis { HasElimination X }
    ensures one { HasOneForm X }
    ensures dependent { IsDependentWhenMore X }
{}

#[cfg(test)]
mod tests {
    use super::*;

    #[test]
    fn columns_may_be_numbers() {
        elimination_laws::<u32>();
    }
}
