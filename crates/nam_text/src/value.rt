//! The text of values.

ghost use Rattle.std.specs.Prelude.{◌≡◌, ◌++◌, OnOk, string_bytes};
ghost use Rattle.nam_text.specs.Value.{words_text, value_text};

use si_model::Value;
use std::alloc::AllocError;
use std::fmt::Write;

/// Appends words, each behind a space.
pub fn push_words(out: &mut String, words: &[u64]) -> Result<(), AllocError>
    ensures { OnOk result (string_bytes out.new ≡ string_bytes out.old ++ words_text words.now) }
{
    for word in words {
        write!(out, " {word}")?;
    }
    Ok(())
}

/// Appends what a key holds: a space and its words, or ` -` where it is absent.
pub fn push_value(out: &mut String, value: &Option<Value>) -> Result<(), AllocError>
    ensures { OnOk result (string_bytes out.new ≡ string_bytes out.old ++ value_text value.now) }
{
    match value {
        Some(value) => push_words(out, value.as_slice()),
        None => {
            write!(out, " -")?;
            Ok(())
        }
    }
}
