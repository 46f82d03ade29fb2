ghost use Rattle.std.specs.Prelude.{◌≡◌};
ghost use Rattle.field_table.specs.Draws.{next_number};

/// The number after one of a drawn sequence.
pub fn number_after(number: u32) -> u32
    ensures { result ≡ next_number number }
{
    let next = 1_664_525 * u64::from(number) + 1_013_904_223;
    (next % 4_294_967_296) as u32
}
