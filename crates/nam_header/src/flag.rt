//! Flags of header words.

ghost use Rattle.std.specs.Prelude.{◌≡◌, ◌<◌, ◌^◌};
ghost use Rattle.nam_catalog.specs.declared.form.Form.{Form};
ghost use Rattle.nam_catalog.specs.declared.form.Form.TheVariants.{Held};
ghost use Rattle.nam_header.specs.Header.{word_of, header_of};
ghost use Rattle.nam_header.specs.Flag.{locked_by, unlocked, moved};

use crate::layout::{HOLDER, LOCKED, MOVED};
use nam_catalog::Form;

/// The word with the lock set and, where the form tells the holder, held by this worker, who is below 32 there.
pub fn with_lock(form: Form, worker: u32, word: u64) -> u64
    requires { form ≡ Held → worker < 2 ^ 5 }
    ensures word { result ≡ word_of form (locked_by worker form word) }
    ensures header { header_of form result ≡ locked_by worker form word }
{
    let holder = match form {
        Form::Narrow | Form::Wide => 0,
        Form::Held => (worker as u64) << HOLDER,
    };
    holder + without_lock(form, word) + LOCKED
}

/// The word with the lock cleared, and held by nobody.
pub fn without_lock(form: Form, word: u64) -> u64
    ensures word { result ≡ word_of form (unlocked form word) }
    ensures header { header_of form result ≡ unlocked form word }
{
    let free = match form {
        Form::Narrow | Form::Wide => word,
        Form::Held => word % (1 << HOLDER),
    };
    free - free / LOCKED % 2
}

/// The word with the flag set that its version has been copied. The flag stands alike in all forms.
pub fn with_moved(word: u64) -> u64
    ensures word { (form : Form) → result ≡ word_of form (moved form word) }
    ensures header { (form : Form) → header_of form result ≡ moved form word }
{
    if word / MOVED % 2 == 1 {
        word
    } else {
        word + MOVED
    }
}
