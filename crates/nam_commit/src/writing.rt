//! The written records: their counts, their old words, the copies and the installs.

ghost use Rattle.std.specs.Prelude.{◌≡◌, ◌<◌, ◌≤◌, ◌+◌, length, ℕ, List};
ghost use Rattle.nam_calls.specs.Record.{words_after, install_after};
ghost use Rattle.nam_calls.specs.Ring.{copy_after};
ghost use Rattle.nam_calls.specs.Fits.{WordsFit, CopyFits, InstallFits};
ghost use Rattle.nam_protocol.specs.Commit.{next_count, on_words, on_copy, on_install, record_place};
ghost use Rattle.nam_commit.specs.Commits.{stepped_by};
ghost use Rattle.nam_commit.specs.Stands.{CommonStands, WrittenStands};

use crate::records::{place_at, value_at};
use crate::step::Step;
use nam_calls::{CopyPoint, InstallPoint};
use nam_protocol::TxnState;
use nam_record::install_begin;
use nam_verbs::Now;
use si_model::Value;

/// Tells the next count, or that the commit is decided.
pub fn next_count(state: &TxnState, nth: u32) -> Step
    ensures { (words : List ℕ) → stepped_by state.now result words ≡ next_count state.now nth }
{
    if nth as usize == state.writes.len() {
        Step::Deciding
    } else {
        Step::Counting { nth }
    }
}

/// A word more is saved. After the last the copy begins.
#[inline]
pub fn words_after(state: &TxnState, nth: u32, words: &mut Value, found: u64) -> Step
    requires record { WrittenStands state.now nth }
    requires got { WordsFit (record_place state.now nth) words.old }
    ensures { stepped_by state.now result words.new
        ≡ on_words state.now nth (words_after (record_place state.now nth) words.old found) }
{
    words.push(found);
    if words.len() == place_at(state, nth).width as usize {
        Step::Copying {
            nth,
            at: CopyPoint::CopyMark,
        }
    } else {
        Step::Saving { nth }
    }
}

/// The copy after its write. After the last the install begins.
#[inline]
pub fn copy_after(state: &TxnState, nth: u32, at: CopyPoint) -> Step
    requires record { WrittenStands state.now nth }
    requires at { CopyFits (record_place state.now nth) at }
    ensures { (words : List ℕ) → stepped_by state.now result words
        ≡ on_copy state.now nth words (copy_after (record_place state.now nth) at) }
{
    match nam_ring::copy_after(place_at(state, nth), at) {
        Now::At(at) => Step::Copying { nth, at },
        Now::Over(()) => Step::Installing {
            nth,
            at: install_begin(value_at(state, nth)),
        },
    }
}

/// The install after its write. After the last of the written records the worker's number is published.
#[inline]
pub fn install_after(state: &TxnState, nth: u32, words: &mut Value, at: InstallPoint) -> Step
    requires record { WrittenStands state.now nth }
    requires at { InstallFits (record_place state.now nth) at }
    ensures { stepped_by state.now result words.new
        ≡ on_install state.now nth (install_after (record_place state.now nth) at) }
{
    match nam_record::install_after(place_at(state, nth), at) {
        Now::At(at) => Step::Installing { nth, at },
        Now::Over(()) => {
            if nth as usize + 1 == state.writes.len() {
                Step::Publishing
            } else {
                words.clear();
                Step::Saving { nth: nth + 1 }
            }
        }
    }
}
