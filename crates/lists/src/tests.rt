use crate::{List, ShortList};
use std::alloc::AllocError;

#[test]
fn a_list_grows_and_changes(rt: HostRuntime) -> Result<(), AllocError> {
    let mut list: List<u64> = List::new(rt.alloc());
    assert!(rt; list.is_empty());
    list.push(7)?;
    list.push(8)?;
    assert_eq!(rt; list.len(), 2);
    assert!(rt; list.as_slice() == [7, 8].as_slice());
    if list.len() == 2 {
        list.set(0, 9);
        assert_eq!(rt; *list.at(1), 8);
    }
    let mut more: List<u64> = List::new(rt.alloc());
    more.push(6)?;
    list.append(more)?;
    let vector = list.into_vec();
    assert!(rt; vector.as_slice() == [9, 8, 6].as_slice());
    let mut list = List::from_vec(vector);
    assert_eq!(rt; list.len(), 3);
    list.clear();
    assert!(rt; list.is_empty());
    Ok(())
}

#[test]
fn a_short_list_grows_changes_and_is_copied(rt: HostRuntime) {
    let mut list: ShortList<u64, 2> = ShortList::new();
    assert!(rt; list.is_empty());
    list.push(7);
    list.push(8);
    let copy = list.copy();
    assert!(rt; copy == list);
    list.set(0, 9);
    assert!(rt; list.as_slice() == [9, 8].as_slice());
    assert_eq!(rt; *list.at(1), 8);
    assert_eq!(rt; list.len(), 2);
    assert!(rt; copy != list);
    list.clear();
    assert!(rt; list.is_empty());
}

/// No size is refused that there is memory for.
#[test]
fn a_list_may_be_large(rt: HostRuntime) -> Result<(), AllocError> {
    let mut list: List<u64> = List::new(rt.alloc());
    let mut more: List<u64> = List::new(rt.alloc());
    for number in 0..100_000 {
        list.push(number)?;
        more.push(100_000 + number)?;
    }
    list.append(more)?;
    assert_eq!(rt; list.len(), 200_000);
    assert!(rt; list.as_slice().last() == Some(&199_999));
    Ok(())
}
