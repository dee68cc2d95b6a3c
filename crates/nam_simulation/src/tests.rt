use crate::jobs_of;
use nam_script::bank;
use std::alloc::AllocError;

#[test]
fn many_transactions_are_dealt_to_their_workers(rt: HostRuntime) -> Result<(), AllocError> {
    let script = bank(rt.alloc(), 1, 2000)?;
    let jobs = jobs_of(rt.alloc(), &script)?;
    assert_eq!(rt; jobs.len(), 4);
    for of_worker in jobs.as_slice() {
        assert_eq!(rt; of_worker.len(), 500);
    }
    Ok(())
}
