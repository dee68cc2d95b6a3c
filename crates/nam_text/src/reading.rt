//! Readers of single fields. Each tells by None that the next field isn't what it reads.

ghost use Rattle.std.specs.Prelude.{◌≡◌, true, IfSome};
ghost use Rattle.std.specs.Option.{option_copied};
ghost use Rattle.std.specs.Str.{bytes_eq};
ghost use Rattle.nam_text.specs.Token.{is_name};
ghost use Rattle.nam_text.specs.Read.{word_at, field_at, done, Reads, ReadsWord};
ghost use Rattle.nam_text.specs.Spelling.{number, name};

use crate::fields::Fields;
use crate::token::{Number, is_name, number};
use nam_catalog::TableName;
use std::str;

/// Is it this word?
pub fn is_word(field: &[u8], word: &[u8]) -> bool
    ensures { result ≡ bytes_eq field.now word.now }
{
    field == word
}

/// Reads a word.
#[inline(always)]
pub fn word_at(fields: &mut Fields, word: &[u8]) -> Option<()>
    ensures { ReadsWord result fields.new (word_at word.now fields.old) }
{
    if is_word(fields.next()?, word) {
        Some(())
    } else {
        None
    }
}

/// Reads a number.
#[inline(always)]
#[tactic(auto, unfolding(crate::specs::Read::field_at))]
pub fn number_at(fields: &mut Fields) -> Option<Number>
    ensures { Reads result fields.new (field_at number.read fields.old) }
{
    match fields.next_short_number() {
        Some(value) => Some(Some(value)),
        None => number(fields.next()?),
    }
}

/// Reads the name of a table.
#[inline(always)]
#[tactic(auto, unfolding(crate::specs::Read::field_at))]
pub fn name_at<'a>(fields: &mut Fields<'a>) -> Option<&'a [u8]>
    ensures read { Reads (option_copied result) fields.new (field_at name.read fields.old) }
    ensures name { IfSome result (λ text. is_name text.now ≡ true) }
{
    if let Some(field) = fields.next_name() {
        return Some(field);
    }
    let field = fields.next()?;
    if is_name(field) { Some(field) } else { None }
}

/// The name of a table with this text.
#[tactic(auto, using(crate::proofs::Tokens::utf8_from_name, crate::proofs::Tokens::short_name))]
pub fn table_name(text: &[u8]) -> TableName
    requires { is_name text.now ≡ true }
    ensures { result ≡ text.now }
{
    match str::from_utf8(text) {
        Ok(text) => TableName::from_text(text),
        Err(_) => TableName::default(),
    }
}

/// Is no field left?
#[inline(always)]
pub fn done(fields: &mut Fields) -> Option<()>
    ensures { result ≡ done fields.old }
{
    match fields.next() {
        None => Some(()),
        Some(_) => None,
    }
}
