//! Readers of the parts of lines. Each tells by None that the part is misspelt.

ghost use Rattle.std.specs.Prelude.{◌≡◌, ◌≤◌, length, Option, IfOk, IfSome};
ghost use Rattle.std.specs.List.{position};
ghost use Rattle.nam_text.specs.Token.{number_of};
ghost use Rattle.nam_text.specs.Read.{Reads, field_at, some_read};
ghost use Rattle.nam_script.specs.Lines.{form, switch, change, stint_of};

use crate::line::{Change, Numbers, SpeltStint};
use lists::List;
use nam_catalog::Form;
use nam_text::{Fields, find_byte, is_word, number, number_at};
use std::alloc::{AllocError, Global};

#[tactic(auto, unfolding(nam_text::specs::Read::field_at))]
pub fn form_at(fields: &mut Fields) -> Option<Form>
    ensures { Reads result fields.new (field_at form.read fields.old) }
{
    let field = fields.next()?;
    if is_word(field, b"narrow") {
        Some(Form::Narrow)
    } else if is_word(field, b"wide") {
        Some(Form::Wide)
    } else if is_word(field, b"held") {
        Some(Form::Held)
    } else {
        None
    }
}

#[tactic(auto, unfolding(nam_text::specs::Read::field_at))]
pub fn switch_at(fields: &mut Fields) -> Option<bool>
    ensures { Reads result fields.new (field_at switch.read fields.old) }
{
    let field = fields.next()?;
    if is_word(field, b"on") {
        Some(true)
    } else if is_word(field, b"off") {
        Some(false)
    } else {
        None
    }
}

/// A sign and a number. There is no -0.
#[inline(always)]
#[tactic(auto, using(crate::proofs::Signs::signs))]
pub fn change_at(fields: &mut Fields) -> Option<Change>
    ensures { Reads result fields.new (field_at change.read fields.old) }
{
    match fields.next_byte()? {
        b'+' => Some(Change {
            up: true,
            by: number_at(fields)?,
        }),
        b'-' => match number_at(fields)? {
            Some(0) => None,
            by => Some(Change { up: false, by }),
        },
        _ => None,
    }
}

/// One to eight numbers, and nothing after them.
#[inline]
pub fn values_at(fields: &mut Fields) -> Option<Numbers>
    ensures { result ≡ some_read 8 number_of fields.old }
{
    let mut values = Numbers::new();
    while let Some(field) = fields.next() {
        if values.len() == 8 {
            return None;
        }
        values.push(number(field)?);
    }
    if values.len() == 0 {
        None
    } else {
        Some(values)
    }
}

/// Numbers parted by a star.
#[tactic(auto, unfolding(crate::specs::Lines::parted_at), using(crate::proofs::StintFields::whole_rest))]
fn stint(field: &[u8]) -> Option<SpeltStint>
    ensures { result ≡ stint_of field.now }
{
    let star = find_byte(field, b'*')?;
    let worker = number(&field[..star])?;
    let steps = number(&field[star + 1..])?;
    Some(SpeltStint { worker, steps })
}

/// 1 to 64 stints, and nothing after them.
pub fn stints_at(alloc: Global, fields: &mut Fields) -> Result<Option<List<SpeltStint>>, AllocError>
    ensures read { IfOk result (λ read. read ≡ some_read 64 stint_of fields.old) }
    ensures few { IfOk result (λ read. IfSome read (λ stints. length stints ≤ 64)) }
{
    let mut stints = List::new(alloc);
    while let Some(field) = fields.next() {
        if stints.len() == 64 {
            return Ok(None);
        }
        let Some(spelt) = stint(field) else {
            return Ok(None);
        };
        stints.push(spelt)?;
    }
    if stints.len() == 0 {
        Ok(None)
    } else {
        Ok(Some(stints))
    }
}
