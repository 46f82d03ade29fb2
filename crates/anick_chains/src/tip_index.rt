ghost use Rattle.std.specs.Prelude.{◌≡◌, IfOk};
ghost use Rattle.ideal_laws.specs.Closure.{IsFactorFree};
ghost use Rattle.anick_chains.specs.BasisTips.{IsTipIndex};

use ideal_laws::Basis;
use lead_index::{LeadIndex, index_of};
use std::alloc::Global;
use words::NoMemory;

/// A basis whose leading words are the tips, with their index and the weights of the letters.
#[derive(Drop)]
pub(crate) struct TipIndex<'a> {
    pub basis: &'a Basis,
    pub index: LeadIndex,
    pub weights: Vec<u8>,
}

impl<'a> TipIndex<'a> {
    pub(crate) fn of(alloc: Global, basis: &'a Basis) -> Result<TipIndex<'a>, NoMemory>
        requires { IsFactorFree basis.now.elements }
        ensures basis { IfOk result (λ tips. tips.basis.now ≡ basis.now) }
        ensures tips { IfOk result IsTipIndex }
    {
        let _done = basis.done();
        let index = index_of(alloc, basis)?;
        let weights = weights_of(alloc, basis)?;
        Ok(TipIndex {
            basis,
            index,
            weights,
        })
    }
}

/// The weights of the letters.
fn weights_of(alloc: Global, basis: &Basis) -> Result<Vec<u8>, NoMemory>
    ensures { IfOk result (λ weights. weights.items ≡ basis.now.weights) }
{
    let mut weights = Vec::new(alloc);
    for letter in 0..basis.letters() {
        weights.push(basis.weight(letter as u8))?;
    }
    Ok(weights)
}
