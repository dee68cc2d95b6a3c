use crate::{PlainRegion, Region, Verb};
use std::alloc::AllocError;

#[test]
fn a_write_stores_and_finds_nothing(rt: HostRuntime) -> Result<(), AllocError> {
    let mut region = PlainRegion::new(vec![in rt.alloc(); 7, 8, 9]?);
    assert_eq!(rt; region.verb(Verb::Read { at: 2 }), 9);
    assert_eq!(rt; region.verb(Verb::Write { at: 2, word: 4 }), 0);
    assert_eq!(rt; region.verb(Verb::Read { at: 2 }), 4);
    assert_eq!(rt; region.verb(Verb::Read { at: 1 }), 8);
    Ok(())
}

#[test]
fn an_exchange_stores_where_it_finds_the_expected_word(rt: HostRuntime) -> Result<(), AllocError> {
    let mut region = PlainRegion::new(vec![in rt.alloc(); 7, 8, 9]?);
    let other = Verb::Exchange {
        at: 1,
        expect: 7,
        word: 5,
    };
    assert_eq!(rt; region.verb(other), 8);
    assert_eq!(rt; region.verb(Verb::Read { at: 1 }), 8);
    let same = Verb::Exchange {
        at: 1,
        expect: 8,
        word: 5,
    };
    assert_eq!(rt; region.verb(same), 8);
    assert_eq!(rt; region.verb(Verb::Read { at: 1 }), 5);
    Ok(())
}
