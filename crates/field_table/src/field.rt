ghost use Rattle.std.specs.Prelude.{◌≡◌, ℕ, ◌+◌, ◌-◌, ◌*◌, ◌%◌, ◌<◌, ◌≤◌, ◌^◌, IfOk, All, length};
ghost use Rattle.field_table.specs.Residues.{IsFieldModulus, listed_moduli, sum_of, product_of, negative_of};
ghost use Rattle.field_table.specs.Residues.{difference_of, plus_multiple};
ghost use Rattle.field_table.specs.Table.{IsTableUpto};

use std::alloc::{AllocError, Global};
use std::marker::Model;

/// Want of memory.
pub type NoMemory = AllocError;

/// The field of the residues of a modulus, which contracts see as the modulus.
#[derive(Debug, Drop)]
pub struct Field {
    modulus: u32,
    inverses: Vec<u32>,
}

impl Model for Field {
    ghost use Rattle.std.specs.Prelude.{ℕ};
    ghost use Rattle.field_table.specs.Table.{IsFieldTable};

    ghost Value = { ℕ };

    ghost view = { λ f. f.modulus };

    ghost invariant = { λ f. IsFieldTable f.modulus f.inverses.items };
}

impl Field {
    /// The field of a modulus of at most 2147483647, with a table of inverses up to 65535.
    pub fn new(alloc: Global, modulus: u32) -> Result<Field, NoMemory>
        requires field { IsFieldModulus modulus }
        requires small { modulus < 2 ^ 31 }
        ensures { IfOk result (λ f. f ≡ modulus) }
    {
        let inverses = if modulus <= 65535 {
            table_of(alloc, modulus)?
        } else {
            Vec::new(alloc)
        };
        Ok(Field { modulus, inverses })
    }

    pub fn copy(&self, alloc: Global) -> Result<Field, NoMemory>
        ensures { IfOk result (λ f. f ≡ self.now) }
    {
        Ok(Field {
            modulus: self.modulus,
            inverses: Vec::from_slice(alloc, self.inverses.as_slice())?,
        })
    }

    pub fn modulus(&self) -> u32
        ensures value { result ≡ self.now }
        ensures field { IsFieldModulus self.now }
        ensures small { self.now < 2 ^ 31 }
    {
        self.modulus
    }

    pub fn add(&self, a: u32, b: u32) -> u32
        requires a_residue { a < self.now }
        requires b_residue { b < self.now }
        ensures { result ≡ sum_of self.now a b }
    {
        let modulus = self.modulus;
        (a + b) % modulus
    }

    pub fn sub(&self, a: u32, b: u32) -> u32
        requires a_residue { a < self.now }
        requires b_residue { b < self.now }
        ensures { result ≡ difference_of self.now a b }
    {
        let modulus = self.modulus;
        (a + (modulus - b)) % modulus
    }

    pub fn mul(&self, a: u32, b: u32) -> u32
        requires a_residue { a < self.now }
        requires b_residue { b < self.now }
        ensures { result ≡ product_of self.now a b }
    {
        let modulus = self.modulus;
        times(modulus, a, b)
    }

    pub fn neg(&self, a: u32) -> u32
        requires { a < self.now }
        ensures { result ≡ negative_of self.now a }
    {
        let modulus = self.modulus;
        (modulus - a) % modulus
    }

    /// The inverse, from the table or by Euclid's steps.
    pub fn inv(&self, a: u32) -> u32
        requires residue { a < self.now }
        requires other { 0 < a }
        ensures residue { result < self.now }
        ensures one { product_of self.now a result ≡ 1 }
    {
        let modulus = self.modulus;
        if modulus <= 65535 {
            return self.inverses[a as usize];
        }
        inverse_of(modulus, a)
    }

    pub fn from_wide(&self, value: u128) -> u32
        ensures { result ≡ value % self.now }
    {
        let modulus = self.modulus;
        (value % u128::from(modulus)) as u32
    }

    /// Adds `a` times `x` to `y`, place by place.
    pub fn axpy(&self, y: &mut [u32], a: u32, x: &[u32])
        requires factor { a < self.now }
        requires y_residues { All (λ r. r < self.now) y.old }
        requires x_residues { All (λ r. r < self.now) x.now }
        requires lengths { length y.old ≡ length x.now }
        ensures sums { y.new ≡ plus_multiple self.now a y.old x.now }
        ensures residues { All (λ r. r < self.now) y.new }
    {
        let modulus = self.modulus;
        for (at, entry) in y.iter_mut().enumerate() {
            *entry = plus_times(modulus, *entry, a, x[at]);
        }
    }
}

/// A sum with a product, taken in 64 bits.
fn plus_times(modulus: u32, sum: u32, a: u32, b: u32) -> u32
    requires { 0 < modulus }
    ensures { result ≡ (sum + a * b) % modulus }
{
    ((u64::from(sum) + u64::from(a) * u64::from(b)) % u64::from(modulus)) as u32
}

/// The product, taken in 64 bits.
fn times(modulus: u32, a: u32, b: u32) -> u32
    requires some { 0 < modulus }
    ensures { result ≡ product_of modulus a b }
{
    (u64::from(a) * u64::from(b) % u64::from(modulus)) as u32
}

/// The inverse of a residue, from that of the remainder of the modulus by it.
fn inverse_of(modulus: u32, a: u32) -> u32
    requires field { IsFieldModulus modulus }
    requires other { 0 < a }
    requires residue { a < modulus }
    ensures residue { result < modulus }
    ensures one { product_of modulus a result ≡ 1 }
{
    if a == 1 {
        return 1;
    }
    let below = inverse_of(modulus, modulus % a);
    times(modulus, modulus - modulus / a, below)
}

/// The inverses of the residues, and 0 for 0.
fn table_of(alloc: Global, modulus: u32) -> Result<Vec<u32>, NoMemory>
    requires field { IsFieldModulus modulus }
    requires small { modulus < 2 ^ 16 }
    ensures { IfOk result (λ v. IsTableUpto modulus v.items modulus) }
{
    let mut inverses = Vec::with_capacity(alloc, modulus as usize)?;
    inverses.push(0)?;
    inverses.push(1)?;
    for a in 2..modulus {
        let below = inverses[(modulus % a) as usize];
        inverses.push(times(modulus, modulus - modulus / a, below))?;
    }
    Ok(inverses)
}

/// Each listed modulus is a field modulus.
pub fn listed_moduli_law()
    ensures { All IsFieldModulus listed_moduli }
{}
