//! What header words tell, and the words of new versions.

ghost use Rattle.std.specs.Prelude.{◌≡◌};
ghost use Rattle.nam_header.specs.Stamp.{FitsStamp, stamp_in, is_locked, is_deleted, is_moved, same_stamp, sees};
ghost use Rattle.nam_header.specs.Stamp.{is_within, without_moved, version_word, stamp_word};

use crate::header::{Header, pack, unpack};
use crate::layout::{DELETED, LOCKED, MOVED};
use crate::visibility::visible;
use nam_catalog::Form;
use si_model::{Snapshot, Stamp};

/// The header of a slot without a version: it is empty, or is being written.
pub const MARK: u64 = 5;

/// The stamp that a header word bears.
pub fn stamp_in(form: Form, word: u64) -> Stamp
    ensures { result ≡ stamp_in form word }
{
    unpack(form, word).stamp
}

/// Whether the record is locked. The flags stand alike in all forms.
pub fn is_locked(form: Form, word: u64) -> bool
    ensures { result ≡ is_locked form word }
{
    word / LOCKED % 2 == 1
}

/// Whether the version is a deletion.
pub fn is_deleted(form: Form, word: u64) -> bool
    ensures { result ≡ is_deleted form word }
{
    word / DELETED % 2 == 1
}

/// Whether the version has been moved into a cell.
pub fn is_moved(form: Form, word: u64) -> bool
    ensures { result ≡ is_moved form word }
{
    word / MOVED % 2 == 1
}

/// Whether two words bear one stamp.
pub fn same_stamp(form: Form, a: u64, b: u64) -> bool
    ensures { result ≡ same_stamp form a b }
{
    let a = stamp_in(form, a);
    let b = stamp_in(form, b);
    a.thread == b.thread && a.number == b.number
}

/// Whether a snapshot sees the word's stamp.
pub fn sees(form: Form, seen: &Snapshot, word: u64) -> bool
    ensures { result ≡ sees form seen.now word }
{
    visible(stamp_in(form, word), seen)
}

/// Whether a worker's stamp is within a horizon: its entry there has reached the number.
pub fn is_within(stamp: Stamp, horizon: &Snapshot) -> bool
    ensures { result ≡ is_within stamp horizon.now }
{
    if stamp.thread == 0 {
        return false;
    }
    match horizon.as_slice().get(stamp.thread as usize - 1) {
        Some(entry) => stamp.number <= *entry,
        None => false,
    }
}

/// The word of a version before it was moved.
pub fn without_moved(form: Form, word: u64) -> u64
    ensures { result ≡ without_moved form word }
{
    if is_moved(form, word) {
        word - MOVED
    } else {
        word
    }
}

/// The header word of a new version, or of a deletion.
pub fn version_word(form: Form, stamp: Stamp, deleted: bool) -> u64
    requires { FitsStamp form stamp }
    ensures { result ≡ version_word form stamp deleted }
{
    let header = Header {
        stamp,
        moved: false,
        deleted,
        locked: false,
        holder: 0,
    };
    pack(form, &header)
}

/// The word of a stamp without flags.
pub fn stamp_word(form: Form, stamp: Stamp) -> u64
    requires { FitsStamp form stamp }
    ensures { result ≡ stamp_word form stamp }
{
    version_word(form, stamp, false)
}
