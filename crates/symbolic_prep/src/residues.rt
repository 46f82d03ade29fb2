ghost use Rattle.std.specs.Prelude.{◌≡◌, ◌<◌, ◌++◌, ◌∷◌, [], IfOk, OnOk, length, map, slice_index_or};
ghost use Rattle.symbolic_prep.specs.Numbers.{residues_of};

use free_poly::Term;
use ideal_laws::Basis;
use std::alloc::Global;
use std::marker::Model;
use words::NoMemory;

/// The coefficients of polynomials, a list for each. A multiple u * g * v has those of g.
#[derive(Debug, Drop)]
pub(crate) struct ResidueLists {
    lists: Vec<Vec<u32>>,
}

impl Model for ResidueLists {
    ghost use Rattle.std.specs.Prelude.{List, ℕ, map};

    ghost Value = { List (List ℕ) };

    ghost view = { λ r. map (λ list. list.items) r.lists.items };
}

impl ResidueLists {
    pub(crate) fn new(alloc: Global) -> ResidueLists
        ensures { result ≡ [] }
    {
        ResidueLists {
            lists: Vec::new(alloc),
        }
    }

    pub(crate) fn len(&self) -> usize
        ensures { result ≡ length self.now }
    {
        self.lists.len()
    }

    pub(crate) fn at(&self, place: u32) -> &[u32]
        requires { place < length self.now }
        ensures { result.now ≡ slice_index_or self.now place [] }
    {
        self.lists[place as usize].as_slice()
    }

    /// Adds the coefficients of these terms.
    pub(crate) fn push(&mut self, alloc: Global, terms: &[Term]) -> Result<(), NoMemory>
        ensures { OnOk result (self.new ≡ self.old ++ residues_of terms.now ∷ []) }
    {
        let list = list_of(alloc, terms)?;
        self.lists.push(list)?;
        Ok(())
    }
}

/// The coefficients of the elements of a basis, in its order.
pub(crate) fn residues_of_basis(alloc: Global, basis: &Basis) -> Result<ResidueLists, NoMemory>
    ensures { IfOk result (λ r. r ≡ map residues_of basis.now.elements) }
{
    let count = basis.len();
    let mut residues = ResidueLists::new(alloc);
    for place in 0..count {
        residues.push(alloc, basis.element(place).terms())?;
    }
    Ok(residues)
}

/// The coefficients of some terms.
fn list_of(alloc: Global, terms: &[Term]) -> Result<Vec<u32>, NoMemory>
    ensures { IfOk result (λ list. list.items ≡ residues_of terms.now) }
{
    let mut list = Vec::with_capacity(alloc, terms.len())?;
    for term in terms {
        list.push(term.coefficient)?;
    }
    Ok(list)
}
