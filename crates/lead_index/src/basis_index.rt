ghost use Rattle.std.specs.Prelude.{◌≡◌, List, ℕ, IfOk, OnOk, Some};
ghost use Rattle.free_poly.specs.Poly.{lead_of};
ghost use Rattle.ideal_laws.specs.Closure.{IsFactorFree};
ghost use Rattle.lead_index.specs.Leads.{IsFresh, IsIndexOf, with_lead};

use crate::index::LeadIndex;
use free_poly::Poly;
use ideal_laws::Basis;
use std::alloc::Global;
use words::NoMemory;

/// The leading words of the basis, each with the place of its element, in the order of the basis.
pub fn index_of(alloc: Global, basis: &Basis) -> Result<LeadIndex, NoMemory>
    requires { IsFactorFree basis.now.elements }
    ensures { IfOk result (IsIndexOf basis.now.elements) }
{
    let _done = basis.done();
    let count = basis.len();
    let mut index = LeadIndex::new(alloc);
    for place in 0..count {
        add_lead(&mut index, basis.element(place), place)?;
    }
    index.make_automaton()?;
    Ok(index)
}

fn add_lead(index: &mut LeadIndex, element: &Poly, place: u32) -> Result<(), NoMemory>
    requires { (w : List ℕ) → lead_of element.now ≡ Some w → IsFresh index.old w }
    ensures { OnOk result (index.new ≡ with_lead index.old element.now place) }
{
    match element.lead() {
        Some(lead) => index.add(lead.letters(), place),
        None => Ok(()),
    }
}
