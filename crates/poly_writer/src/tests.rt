use super::*;
use std::alloc::Global;
use std::process::Abort;
use std::test::Fail;

/// The numbers of a series have 64 bits, and stand from degree 0 on.
#[test]
fn series_print_a_line_a_degree(rt: HostRuntime) -> Result<(), Fail> {
    let alloc = rt.alloc();
    for (numbers, want) in [
        (&[][..], "% series\n"),
        (&[1, 2][..], "% series\n0 1\n1 2\n"),
        (
            &[1, 0, 18446744073709551615][..],
            "% series\n0 1\n1 0\n2 18446744073709551615\n",
        ),
    ] {
        let text = series_text(alloc, numbers)?;
        assert_eq!(rt; text.as_slice(), want.as_bytes(), "{want}");
    }
    Ok(())
}
