ghost use Rattle.std.specs.Prelude.{◌≡◌, ◌++◌, codes, decimal, IfOk};
ghost use Rattle.poly_writer.specs.Texts.{line, series_lines, series_text};

use crate::piece::push_number;
use std::alloc::Global;
use words::NoMemory;

/// The numbers of degrees 0, 1 and so on, each in a line behind its degree.
pub fn series_text(alloc: Global, numbers: &[u64]) -> Result<Vec<u8>, NoMemory>
    ensures { IfOk result (λ v. v.items ≡ series_text numbers.now) }
{
    let mut text = Vec::from_slice(alloc, b"% series\n")?;
    push_series(&mut text, numbers)?;
    Ok(text)
}

/// Adds the lines of the numbers to the text, without the line above them.
pub fn push_series(text: &mut Vec<u8>, numbers: &[u64]) -> Result<(), NoMemory>
    ensures { IfOk result (λ _. text.new.items ≡ text.old.items ++ series_lines 0 numbers.now) }
{
    for (degree, number) in numbers.iter().enumerate() {
        push_number_of_degree(text, degree, *number)?;
    }
    Ok(())
}

fn push_number_of_degree(text: &mut Vec<u8>, degree: usize, number: u64) -> Result<(), NoMemory>
    ensures { IfOk result (λ _. text.new.items
        ≡ text.old.items ++ line (decimal degree ++ codes " " ++ decimal number)) }
{
    push_number(text, degree as u64)?;
    text.extend_from_slice(b" ")?;
    push_number(text, number)?;
    text.extend_from_slice(b"\n")
}
