//! The lines of a text, and the fields of a line.

ghost use Rattle.std.specs.Prelude.{◌≡◌, ◌==◌, ◌<◌, ◌≤◌, [], ◌∷◌, length, take, true, Some, None, MatchOption, IfSome};
ghost use Rattle.std.specs.List.{position};
ghost use Rattle.std.specs.Option.{option_copied};
ghost use Rattle.nam_text.specs.Token.{number_of, is_name};
ghost use Rattle.nam_text.specs.Fields.{fields_of, fields_left, lines_of, IsPassed};
ghost use Rattle.nam_text.specs.Read.{Reads, byte_at, field_at};
ghost use Rattle.nam_text.specs.Spelling.{IsPlain};

use crate::token::{is_led, leading_digits, leading_name};
use std::marker::Model;

/// Where a byte stands first.
pub fn find_byte(text: &[u8], byte: u8) -> Option<usize>
    ensures { result ≡ position (λ b. b == byte) text.now }
{
    text.iter().position(|b| *b == byte)
}

/// Where a newline stands first, where none stands before a place.
#[tactic(auto, using(crate::proofs::Newlines::newlines))]
fn newline_from(text: &[u8], from: usize) -> Option<usize>
    requires { IsPassed text.now from }
    ensures { result ≡ position (λ b. b == 10) text.now }
{
    let mut at = from;
    while at < text.len() && text[at] != b'\n' {
        at += 1;
    }
    if at < text.len() { Some(at) } else { None }
}

/// Where a newline stands first. Most bytes are none, so the end of the text is thought of once in four.
#[tactic(auto, using(crate::proofs::Newlines::newlines))]
fn find_newline(text: &[u8]) -> Option<usize>
    ensures { result ≡ position (λ b. b == 10) text.now }
{
    let mut at = 0;
    while 4 <= text.len() - at {
        if text[at] == b'\n' {
            return Some(at);
        }
        if text[at + 1] == b'\n' {
            return Some(at + 1);
        }
        if text[at + 2] == b'\n' {
            return Some(at + 2);
        }
        if text[at + 3] == b'\n' {
            return Some(at + 3);
        }
        at += 4;
    }
    newline_from(text, at)
}

/// The first line, without its newline, and what follows it. None where no newline stands in the text.
#[tactic(auto, using(crate::proofs::Splits::split_at_position, crate::proofs::Splits::split_no_position))]
pub fn first_line(text: &[u8]) -> Option<(&[u8], &[u8])>
    ensures lines { MatchOption result (lines_of text.now ≡ text.now ∷ [])
        (λ x. lines_of text.now ≡ x.0.now ∷ lines_of x.1.now) }
    ensures shorter { IfSome result (λ x. length x.1.now < length text.now) }
{
    let at = find_newline(text)?;
    Some((&text[..at], &text[at + 1..]))
}

/// What follows a field that ends at a place: nothing where the line ends there too. None where the field goes on.
#[tactic(auto, using(crate::proofs::Leading::field_ends, crate::proofs::Leading::field_stops))]
fn rest_at(line: &[u8], end: usize) -> Option<Option<&[u8]>>
    requires within { end ≤ length line.now }
    requires plain { IsPlain (take end line.now) }
    ensures { IfSome result (λ rest. fields_of line.now ≡ take end line.now ∷ fields_left (option_copied rest)) }
{
    if end == line.len() {
        Some(None)
    } else if line[end] == b' ' {
        Some(Some(&line[end + 1..]))
    } else {
        None
    }
}

/// The fields of a line that are still to be read. One space stands between two fields. Contracts see the list of them.
#[derive(Drop)]
pub struct Fields<'a> {
    rest: Option<&'a [u8]>,
}

impl<'a> Model for Fields<'a> {
    ghost use Rattle.std.specs.Prelude.{ℕ, List};
    ghost use Rattle.std.specs.Option.{option_copied};
    ghost use Rattle.nam_text.specs.Fields.{fields_left};

    ghost Value = { List (List ℕ) };

    ghost view = { λ f. fields_left (option_copied f.rest) };
}

impl<'a> Fields<'a> {
    /// All fields of a line.
    pub fn new(line: &'a [u8]) -> Fields<'a>
        ensures { result ≡ fields_of line.now }
    {
        Fields { rest: Some(line) }
    }

    /// The next field, where one is left.
    #[inline(always)]
    #[tactic(auto, using(crate::proofs::Splits::split_at_position, crate::proofs::Splits::split_no_position))]
    pub fn next(&mut self) -> Option<&'a [u8]>
        ensures { MatchOption result ((self.old ≡ []) × (self.new ≡ [])) (λ field. self.old ≡ field.now ∷ self.new) }
    {
        let line = self.rest?;
        match find_byte(line, b' ') {
            Some(at) => {
                self.rest = Some(&line[at + 1..]);
                Some(&line[..at])
            }
            None => {
                self.rest = None;
                Some(line)
            }
        }
    }

    /// The first byte of the next field, whose rest is the next field then. None where no field is left or it is empty.
    #[inline(always)]
    #[tactic(auto, using(crate::proofs::FirstBytes::first_byte), unfolding(crate::specs::Read::byte_at))]
    pub fn next_byte(&mut self) -> Option<u8>
        ensures { Reads result self.new (byte_at self.old) }
    {
        let line = self.rest?;
        if line.is_empty() {
            return None;
        }
        let byte = line[0];
        if byte == b' ' {
            return None;
        }
        self.rest = Some(&line[1..]);
        Some(byte)
    }

    /// The number in the next field, where that is one of fewer than 20 digits, read in one pass. Else None, and no
    /// field is taken.
    #[inline(always)]
    #[tactic(auto, unfolding(crate::specs::Read::field_at), using(crate::proofs::Leading::leading_number, crate::proofs::Leading::leading_plain))]
    pub(crate) fn next_short_number(&mut self) -> Option<u64>
        ensures some { IfSome result (λ number. field_at number_of self.old ≡ Some (Some number, self.new)) }
        ensures none { result ≡ None → self.new ≡ self.old }
    {
        let line = self.rest?;
        let (number, end) = leading_digits(line);
        if !is_led(&line[..end]) {
            return None;
        }
        self.rest = rest_at(line, end)?;
        Some(number)
    }

    /// The next field, where that is a name, read in one pass. Else None, and no field is taken.
    #[inline(always)]
    #[tactic(auto, unfolding(crate::specs::Read::field_at), using(crate::proofs::Leading::leading_name_plain))]
    pub(crate) fn next_name(&mut self) -> Option<&'a [u8]>
        ensures some { IfSome result (λ field. self.old ≡ field.now ∷ self.new) }
        ensures name { IfSome result (λ field. is_name field.now ≡ true) }
        ensures none { result ≡ None → self.new ≡ self.old }
    {
        let line = self.rest?;
        let end = leading_name(line);
        if end == 0 || end > 16 || !line[0].is_ascii_lowercase() {
            return None;
        }
        self.rest = rest_at(line, end)?;
        Some(&line[..end])
    }
}
