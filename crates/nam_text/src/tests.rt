use crate::{
    Fields, find_byte, first_line, is_name, is_word, name_at, number, number_at, push_value,
    push_words, table_name, word_at,
};
use si_model::Value;
use std::alloc::AllocError;

#[test]
fn values_are_words_behind_spaces(rt: HostRuntime) -> Result<(), AllocError> {
    let mut out = String::new(rt.alloc());
    let mut value = Value::new();
    value.push(7);
    push_words(&mut out, [0, 18_446_744_073_709_551_615].as_slice())?;
    push_value(&mut out, &Some(value))?;
    push_value(&mut out, &None)?;
    assert!(rt; out.as_str() == " 0 18446744073709551615 7 -");
    Ok(())
}

#[test]
fn fields_are_read(rt: HostRuntime) {
    let mut fields = Fields::new(b"row acct 18446744073709551616 07");
    assert!(rt; word_at(&mut fields, b"row").is_some());
    let name = name_at(&mut fields);
    assert!(rt; name.is_some_and(|name| is_word(name, b"acct")));
    assert!(rt; table_name(b"acct").as_str() == "acct");
    assert!(rt; number_at(&mut fields) == Some(None));
    assert!(rt; number_at(&mut fields).is_none());
    assert!(rt; fields.next().is_none());
    let mut signed = Fields::new(b"+7  ");
    assert!(rt; signed.next_byte() == Some(b'+'));
    assert!(rt; number_at(&mut signed) == Some(Some(7)));
    assert!(rt; signed.next_byte().is_none());
}

#[test]
fn numbers_names_and_lines_are_read(rt: HostRuntime) {
    assert!(rt; number(b"18446744073709551615") == Some(Some(u64::MAX)));
    assert!(rt; number(b"0") == Some(Some(0)));
    assert!(rt; number(b"").is_none());
    assert!(rt; is_name(b"a_name_of_16_let"));
    assert!(rt; !is_name(b"a_name_of_17_lett"));
    assert!(rt; is_word(b"end", b"end"));
    assert!(rt; find_byte(b"1*2", b'*') == Some(1));
    assert!(rt; first_line(b"end").is_none());
}

/// No size is refused that there is memory for.
#[test]
fn a_text_of_words_may_be_long(rt: HostRuntime) -> Result<(), AllocError> {
    let mut out = String::new(rt.alloc());
    for _ in 0..50_000 {
        push_words(&mut out, [0, 18_446_744_073_709_551_615].as_slice())?;
    }
    assert_eq!(rt; out.len(), 50_000 * 23);
    Ok(())
}
