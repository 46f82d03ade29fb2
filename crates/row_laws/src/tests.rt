use super::*;

#[test]
fn the_law_is_called_without_arguments() {
    rows_law();
}
