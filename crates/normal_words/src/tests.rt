use crate::{NormalFault, NormalWords, next_degree};
use lead_index::LeadIndex;
use std::test::Fail;
use words::Alphabet;

#[test]
fn words_without_a_square_are_listed(rt: HostRuntime) -> Result<(), Fail> {
    let alloc = rt.alloc();
    let names = vec![in alloc; b"x".to_vec(alloc)?, b"y".to_vec(alloc)?]?;
    let alphabet = Alphabet::new(alloc, names)?;
    let mut index = LeadIndex::new(alloc);
    index.add(&[0, 0], 0)?;

    let mut before = Vec::new(alloc);
    before.push(NormalWords::start(alloc)?)?;
    let first = next_degree(alloc, &alphabet, before.as_slice(), &index, 10)?;
    assert_eq!(rt; first.degree(), 1);
    assert_eq!(rt; first.words().len(), 2);
    assert_eq!(rt; first.words()[0].letters(), [0].as_slice());
    assert_eq!(rt; first.words()[1].letters(), [1].as_slice());

    before.push(first)?;
    let listed = before.as_slice();
    let second = next_degree(alloc, &alphabet, listed, &index, 10)?;
    assert_eq!(rt; second.words().len(), 3);
    assert_eq!(rt; second.words()[0].letters(), [0, 1].as_slice());
    assert_eq!(rt; second.words()[1].letters(), [1, 0].as_slice());
    assert_eq!(rt; second.words()[2].letters(), [1, 1].as_slice());
    let refused = next_degree(alloc, &alphabet, listed, &index, 2);
    assert!(rt; matches!(refused, Err(NormalFault::TooMany)));
    Ok(())
}
