//! Headers and their words.

ghost use Rattle.std.specs.Prelude.{◌≡◌, ◌/◌, ◌%◌};
ghost use Rattle.nam_header.specs.Header.{IsWithin, fields_of, word_of, header_of};

use crate::layout::{DELETED, HOLDER, LOCKED, MOVED, NUMBER, THREAD, WIDE_THREAD};
use nam_catalog::Form;
use si_model::Stamp;

/// What the header word of a record tells.
#[derive(Clone, Copy, Debug, PartialEq, Eq)]
pub struct Header {
    pub stamp: Stamp,
    /// The version has been copied, so that its slot may be written over.
    pub moved: bool,
    /// The version is a deletion.
    pub deleted: bool,
    /// A worker holds the record.
    pub locked: bool,
    /// The worker that holds it, where the form tells it, and else 0.
    pub holder: u32,
}

/// The word of a header whose fields are below the bounds of the form.
pub fn pack(form: Form, header: &Header) -> u64
    requires { IsWithin form header.now }
    ensures { result ≡ word_of form header.now }
{
    let flags = header.moved as u64 * MOVED
        + header.deleted as u64 * DELETED
        + header.locked as u64 * LOCKED;
    let low = (header.stamp.number << NUMBER) + flags;
    let thread = header.stamp.thread as u64;
    match form {
        Form::Narrow => (thread << THREAD) + low,
        Form::Wide => (thread << WIDE_THREAD) + low,
        Form::Held => ((header.holder as u64) << HOLDER) + (thread << THREAD) + low,
    }
}

/// The header of a word. Each word is exactly one header of the form.
pub fn unpack(form: Form, word: u64) -> Header
    ensures value { result ≡ header_of form word }
    ensures within { IsWithin form result }
{
    Header {
        stamp: Stamp {
            thread: thread_in(form, word),
            number: number_in(form, word),
        },
        moved: word / MOVED % 2 == 1,
        deleted: word / DELETED % 2 == 1,
        locked: word / LOCKED % 2 == 1,
        holder: holder_in(form, word),
    }
}

fn thread_in(form: Form, word: u64) -> u32
    ensures { result ≡ word / (fields_of form).thread_at % (fields_of form).threads }
{
    match form {
        Form::Narrow => (word >> THREAD) as u32,
        Form::Wide => (word >> WIDE_THREAD) as u32,
        Form::Held => ((word % (1 << HOLDER)) >> THREAD) as u32,
    }
}

fn number_in(form: Form, word: u64) -> u64
    ensures { result ≡ word / 8 % (fields_of form).numbers }
{
    match form {
        Form::Narrow | Form::Held => (word % (1 << THREAD)) >> NUMBER,
        Form::Wide => (word % (1 << WIDE_THREAD)) >> NUMBER,
    }
}

fn holder_in(form: Form, word: u64) -> u32
    ensures { result ≡ word / (fields_of form).holder_at }
{
    match form {
        Form::Narrow | Form::Wide => 0,
        Form::Held => (word >> HOLDER) as u32,
    }
}
