use crate::{LeadIndex, Place};
use std::test::Fail;

#[test]
fn the_leftmost_leading_word_is_found(rt: HostRuntime) -> Result<(), Fail> {
    let mut index = LeadIndex::new(rt.alloc());
    index.add(&[0, 0], 0)?;
    index.add(&[0, 1, 0], 1)?;
    for _ in 0..2 {
        for (word, at, element) in [
            ([1, 0, 1, 0], 1, 1),
            ([1, 1, 0, 0], 2, 0),
            ([0, 1, 0, 0], 0, 1),
        ] {
            assert!(rt; at < 4);
            let place = Some(Place { at, element });
            assert_eq!(rt; index.first_reducer(&word), place, "{word:?}");
            assert_eq!(rt; index.scan_reducer(&word), place, "{word:?}");
            assert_eq!(rt; index.starts(&word, at as usize), Some(element), "{word:?}");
        }
        assert_eq!(rt; index.first_reducer(&[1, 1, 1, 0]), None);
        assert_eq!(rt; index.scan_reducer(&[1, 1, 1, 0]), None);
        assert_eq!(rt; index.starts(&[1, 0, 1, 0], 0), None);
        assert_eq!(rt; index.starts(&[1, 0, 1, 0], 4), None);
        index.make_automaton()?;
    }
    Ok(())
}

#[test]
fn a_shorter_end_goes_on_where_a_longer_one_fails(rt: HostRuntime) -> Result<(), Fail> {
    let mut index = LeadIndex::new(rt.alloc());
    index.add(&[0, 0, 1, 0], 0)?;
    index.add(&[0, 1, 1], 1)?;
    index.make_automaton()?;
    let place = Some(Place { at: 1, element: 1 });
    assert_eq!(rt; index.first_reducer(&[0, 0, 1, 1]), place);
    assert_eq!(rt; index.first_reducer(&[0, 2, 0, 1]), None);
    assert_eq!(rt; index.starts(&[0, 0, 1, 1], 0), None);
    assert_eq!(rt; index.starts(&[0, 0, 1, 1], 1), Some(1));
    Ok(())
}
