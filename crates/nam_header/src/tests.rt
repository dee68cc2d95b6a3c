ghost use Rattle.nam_header.specs.Header.{IsWithin};

use crate::{
    Header, MARK, Tag, is_deleted, is_locked, is_moved, is_within, pack, same_stamp, sees,
    stamp_in, stamp_word, unpack, version_word, visible, with_lock, with_moved, without_lock,
    without_moved,
};
use nam_catalog::Form;
use si_model::{Snapshot, Stamp};

// Whether a header and a word are each other's, packed and unpacked.
fn are_one(form: Form, header: &Header, word: u64) -> bool
    requires { IsWithin form header.now }
{
    pack(form, header) == word && unpack(form, word) == *header
}

#[test]
fn headers_have_their_words_in_each_form(rt: HostRuntime) {
    let plain = Header {
        stamp: Stamp {
            thread: 1,
            number: 1,
        },
        moved: false,
        deleted: false,
        locked: false,
        holder: 0,
    };
    let flagged = Header {
        stamp: Stamp {
            thread: 2,
            number: 3,
        },
        moved: false,
        deleted: true,
        locked: true,
        holder: 0,
    };
    let held = Header {
        stamp: Stamp {
            thread: 2,
            number: 3,
        },
        moved: false,
        deleted: true,
        locked: true,
        holder: 5,
    };
    let absent = Header {
        stamp: Stamp {
            thread: 0,
            number: 0,
        },
        moved: false,
        deleted: true,
        locked: false,
        holder: 0,
    };
    let mark = Header {
        stamp: Stamp {
            thread: 0,
            number: 0,
        },
        moved: true,
        deleted: false,
        locked: true,
        holder: 0,
    };
    assert!(rt; are_one(Form::Narrow, &plain, 34_359_738_376));
    assert!(rt; are_one(Form::Narrow, &flagged, 68_719_476_763));
    assert!(rt; are_one(Form::Narrow, &absent, 2));
    assert!(rt; are_one(Form::Narrow, &mark, 5));
    assert!(rt; are_one(Form::Wide, &plain, 281_474_976_710_664));
    assert!(rt; are_one(Form::Wide, &flagged, 562_949_953_421_339));
    assert!(rt; are_one(Form::Wide, &mark, 5));
    assert!(rt; are_one(Form::Held, &held, 2_882_303_830_236_594_203));
    assert!(rt; are_one(Form::Held, &mark, 5));
}

#[test]
fn flags_change_and_snapshots_see(rt: HostRuntime) {
    assert_eq!(rt; with_lock(Form::Narrow, 7, 34_359_738_376), 34_359_738_377);
    assert_eq!(rt;
        with_lock(Form::Held, 5, 68_719_476_762),
        2_882_303_830_236_594_203
    );
    assert_eq!(rt;
        without_lock(Form::Held, 2_882_303_830_236_594_203),
        68_719_476_762
    );
    assert_eq!(rt; with_moved(1), 5);
    assert_eq!(rt; with_moved(5), 5);
    let mut seen = Snapshot::new();
    seen.push(7);
    assert!(rt;
        visible(
            Stamp {
                thread: 0,
                number: 0
            },
            &seen
        )
    );
    assert!(rt;
        visible(
            Stamp {
                thread: 1,
                number: 7
            },
            &seen
        )
    );
    assert!(rt;
        !visible(
            Stamp {
                thread: 1,
                number: 8
            },
            &seen
        )
    );
    assert!(rt;
        !visible(
            Stamp {
                thread: 2,
                number: 0
            },
            &seen
        )
    );
}

#[test]
fn words_tell_their_stamps_and_flags(rt: HostRuntime) {
    let stamp = Stamp {
        thread: 1,
        number: 7,
    };
    let mut seen = Snapshot::new();
    seen.push(7);
    let word = version_word(Form::Narrow, stamp, true);
    assert_eq!(rt; word, 34_359_738_426);
    assert_eq!(rt; stamp_word(Form::Wide, stamp), 281_474_976_710_712);
    assert_eq!(rt; stamp_in(Form::Narrow, word), stamp);
    assert!(rt; is_deleted(Form::Narrow, word));
    assert!(rt; !is_moved(Form::Narrow, word));
    assert!(rt; is_locked(Form::Narrow, MARK) && is_moved(Form::Narrow, MARK));
    assert_eq!(rt; without_moved(Form::Narrow, 34_359_738_430), word);
    assert!(rt; same_stamp(Form::Narrow, word, 34_359_738_424));
    assert!(rt; !same_stamp(Form::Narrow, word, 34_359_738_432));
    assert!(rt; sees(Form::Narrow, &seen, word));
    assert!(rt; is_within(stamp, &seen));
}

#[test]
fn a_tag_goes_from_free_to_full_and_to_the_next_generation(rt: HostRuntime) {
    let free = Tag(0);
    let last = Tag(u64::MAX - 1);
    assert!(rt; free.is_free());
    assert_eq!(rt; free.written(), Tag(1));
    assert_eq!(rt; Tag(1).full(), Tag(2));
    assert!(rt; Tag(2).is_full());
    assert_eq!(rt; Tag(2).freed(), Tag(4));
    assert!(rt; Tag(4).is_free());
    assert!(rt; !last.has_next());
    assert_eq!(rt; last.freed(), last);
}
