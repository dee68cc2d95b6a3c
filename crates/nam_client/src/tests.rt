use crate::Client;
use std::alloc::AllocError;

#[test]
fn there_is_room_for_many_calls(rt: HostRuntime) -> Result<(), AllocError> {
    let mut client = Client::new(rt.alloc(), 1, 0);
    assert_eq!(rt; client.spare(), (0, 0, 0));
    client.reserve(100_000, 200_000, 300_000)?;
    assert_eq!(rt; client.spare(), (100_000, 200_000, 300_000));
    client.reserve(1, 300_000, 2)?;
    assert_eq!(rt; client.spare(), (100_000, 300_000, 300_000));
    assert!(rt; client.answer().is_none());
    Ok(())
}
