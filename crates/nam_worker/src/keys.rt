//! The keys that a job's operations write.

ghost use Rattle.std.specs.Prelude.{◌≡◌, ◌<◌, ◌≤◌, length, MatchOption, IsTrue, ◌↔◌};
ghost use Rattle.si_model.specs.Evaluation.{with_guard, written_keys};
ghost use Rattle.nam_worker.specs.Answering.{IsJob, AreJobs};

use lists::ShortList;
use nam_protocol::Job;
use si_model::{Key, Op};

#[tactic(auto, using(si_model::proofs::WriteLemmas::guarded_has, si_model::proofs::WriteLemmas::guarded_new, crate::proofs::KeysLemmas::one_more))]
/// The keys with one more, if it is not there. None where there is no room for it.
fn with_key(mut keys: ShortList<Key, 16>, key: Key) -> Option<ShortList<Key, 16>>
    ensures { MatchOption result (16 < length (with_guard keys key)) (λ more. more ≡ with_guard keys key) }
{
    if keys.as_slice().contains(&key) {
        return Some(keys);
    }
    if keys.len() == 16 {
        return None;
    }
    keys.push(key);
    Some(keys)
}

#[tactic(auto, using(crate::proofs::KeysLemmas::more_keys))]
/// The keys that operations write, each once, in the order of first writes. None where there are more than 16.
pub fn written_keys(ops: &[Op]) -> Option<ShortList<Key, 16>>
    ensures { MatchOption result (16 < length (written_keys ops.now)) (λ keys. keys ≡ written_keys ops.now) }
{
    let mut keys = ShortList::new();
    for op in ops {
        if let Some(key) = op.key_written() {
            keys = with_key(keys, key)?;
        }
    }
    Some(keys)
}

/// Has the job few enough operations and written keys?
fn is_job(job: &Job) -> bool
    ensures { IsTrue result ↔ IsJob job.now }
{
    let ops = job.ops.as_slice();
    ops.len() < 1 << 32 && written_keys(ops).is_some()
}

/// Are these jobs that a driver can follow: fewer than 2^32, each of fewer than 2^32 operations that write at most 16
/// keys?
pub fn are_jobs(jobs: &[Job]) -> bool
    ensures { IsTrue result ↔ AreJobs jobs.now }
{
    jobs.len() < 1 << 32 && jobs.iter().all(is_job)
}
