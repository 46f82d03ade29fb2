ghost use Rattle.std.specs.Prelude.{◌≡◌, ◌++◌, ◌∷◌, ◌≤◌, [], IfOk, OnOk, filter};
ghost use Rattle.ideal_laws.specs.Engine.{of_degree};
ghost use Rattle.right_modules.specs.Answered.{ArePartsUpto};
ghost use Rattle.right_modules.specs.ModuleBasis.{leads_module};

use crate::module::ModuleDegree;
use crate::shape::is_module_word;
use free_poly::Poly;
use ideal_laws::Basis;
use std::alloc::Global;
use words::{Items, NoMemory};

/// The elements of each degree from 1 to the bound that lead with a module word.
pub(crate) fn module_degrees(
    alloc: Global,
    basis: &Basis,
    free: u32,
    bound: u32,
) -> Result<Vec<ModuleDegree>, NoMemory>
    requires { bound ≤ basis.now.done }
    ensures { IfOk result (λ degrees. ArePartsUpto free basis.now bound degrees.items) }
{
    let mut degrees = Vec::new(alloc);
    for below in 0..bound {
        let degree = below + 1;
        let elements = module_elements(alloc, basis, free, degree)?;
        degrees.push(ModuleDegree { degree, elements })?;
    }
    Ok(degrees)
}

/// The elements of a degree that lead with a module word.
fn module_elements(alloc: Global, basis: &Basis, free: u32, d: u32) -> Result<Items<Poly>, NoMemory>
    ensures { IfOk result (λ elements. elements ≡ filter (leads_module free)
        (of_degree basis.now.weights d basis.now.elements)) }
{
    let (first, end) = basis.of_degree(d);
    let mut elements = Vec::new(alloc);
    for place in first..end {
        push_part(alloc, basis.element(place), free, &mut elements)?;
    }
    Ok(Items::from_vec(elements))
}

/// Appends a copy of the element, if it leads with a module word.
fn push_part(
    alloc: Global,
    element: &Poly,
    free: u32,
    elements: &mut Vec<Poly>,
) -> Result<(), NoMemory>
    ensures { OnOk result (elements.new.items ≡ elements.old.items ++ filter (leads_module free) (element.now ∷ [])) }
{
    if leads_with_module_word(element, free) {
        elements.push(element.copy(alloc)?)?;
    }
    Ok(())
}

fn leads_with_module_word(element: &Poly, free: u32) -> bool
    ensures { result ≡ leads_module free element.now }
{
    match element.terms() {
        [] => false,
        [first, ..] => is_module_word(first.word.letters(), free),
    }
}
