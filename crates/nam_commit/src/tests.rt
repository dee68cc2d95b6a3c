ghost use Rattle.std.specs.Prelude.{◌≡◌, [], ◌∷◌, IfSome};
ghost use Rattle.nam_catalog.specs.Tables.{widths_of, capacities_of};
ghost use Rattle.nam_protocol.specs.TxnFits.{StateFits};
ghost use Rattle.nam_commit.specs.Commits.{CommitsFit};

use crate::Committer;
use lists::ShortList;
use nam_catalog::{Form, Shape, check};
use nam_layout::Layout;
use nam_protocol::{Record, TxnAnswer, TxnState};
use nam_trial::{PlainStore, exchange, pair, plain_shape, read, write};
use nam_verbs::Verb;
use si_model::{Item, Key, Value};
use std::alloc::{AllocError, Global};

// The stamp (1, 5), and the lock of worker 1 in form Held.
const OWN: u64 = 34_359_738_408;

const HELD: u64 = 576_460_752_303_423_489;

// Two positions of one word and one slot: their headers stand at 5 and at 12. The intent of worker 1 begins at 30.
fn shape_of(form: Form) -> Shape
    ensures workers { result.workers ≡ 2 }
    ensures widths { widths_of result.tables ≡ 1 ∷ [] }
    ensures capacities { capacities_of result.tables ≡ 2 ∷ [] }
{
    let mut shape = plain_shape(1, 2, 1, 1);
    shape.form = form;
    shape
}

fn laid_out(form: Form) -> Option<Layout>
    ensures { IfSome result (λ shape. (shape.workers ≡ 2) × (widths_of shape.tables ≡ 1 ∷ [])
        × (capacities_of shape.tables ≡ 2 ∷ [])) }
{
    let shape = shape_of(form);
    if check(&shape).is_err() {
        return None;
    }
    Some(Layout::new(&shape))
}

// The rows 8 and 9 with their words.
fn opened(form: Form, alloc: Global) -> Result<Option<PlainStore>, AllocError> {
    let Some(mut store) = PlainStore::new(alloc, shape_of(form))? else {
        return Ok(None);
    };
    if let Some(place) = store.place(0, 0) {
        store.load(&place, 8, [70].as_slice());
    }
    if let Some(place) = store.place(0, 1) {
        store.load(&place, 9, [90].as_slice());
    }
    Ok(Some(store))
}

// Worker 1, whose last number is 4, writes the first row and guards the second.
fn transfer(layout: &Layout) -> TxnState
    requires workers { layout.now.workers ≡ 2 }
    requires widths { widths_of layout.now.tables ≡ 1 ∷ [] }
    requires capacities { capacities_of layout.now.tables ≡ 2 ∷ [] }
    ensures { StateFits layout.now result }
{
    let written = Key { table: 0, key: 8 };
    let guarded = Key { table: 0, key: 9 };
    let mut value = Value::new();
    value.push(50);
    let mut writes = ShortList::new();
    writes.push(Item {
        table: 0,
        key: 8,
        value: Some(value),
    });
    let mut guards = ShortList::new();
    guards.push(guarded);
    let first = Record {
        key: written,
        place: layout.place(0, 0),
    };
    let second = Record {
        key: guarded,
        place: layout.place(0, 1),
    };
    TxnState {
        worker: 1,
        last: 4,
        seen: pair(4, 0),
        writes,
        guards,
        claims: pair(first, second),
        read: None,
        records: ShortList::new(),
        held: ShortList::new(),
        counts: ShortList::new(),
    }
}

// The word that a verb finds.
fn found_by(store: &mut PlainStore, verb: Verb) -> u64 {
    match verb {
        Verb::Read { at } => store.word(at),
        Verb::Write { at, word } => {
            store.set(at, word);
            0
        }
        Verb::Exchange { at, expect, word } => {
            let found = store.word(at);
            if found == expect {
                store.set(at, word);
            }
            found
        }
    }
}

// Commits to the end, and gives the verbs in order.
fn run(
    store: &mut PlainStore,
    layout: &Layout,
    state: &mut TxnState,
    committer: &mut Committer,
    alloc: Global,
) -> Result<Vec<Verb>, AllocError>
    requires { CommitsFit layout.now state.old committer.old }
{
    let mut verbs = Vec::new(alloc);
    'verbs: while let Some(verb) = committer.verb(state) {
        verbs.push(verb)?;
        let found = found_by(store, verb);
        committer.take(state, found);
    }
    Ok(verbs)
}

// Whether the store has these words from address 0 on.
fn has_words(store: &mut PlainStore, words: &[u64]) -> bool {
    for (at, word) in words.iter().enumerate() {
        if store.word(at as u64) != *word {
            return false;
        }
    }
    true
}

#[test]
fn a_record_is_written_and_one_is_guarded(rt: HostRuntime) -> Result<(), AllocError> {
    let mut store = opened(Form::Narrow, rt.alloc())?.expect(&rt, "a store");
    let layout = laid_out(Form::Narrow).expect(&rt, "a layout");
    let mut state = transfer(&layout);
    let mut committer = Committer::new();
    assert!(rt; committer.is_over());
    committer.ask(&layout, &mut state);
    assert_eq!(rt; committer.left(&state), 16);
    let verbs = run(&mut store, &layout, &mut state, &mut committer, rt.alloc())?;
    let expected = [
        read(5),
        exchange(5, 0, 1),
        read(12),
        exchange(12, 0, 1),
        read(6),
        read(8),
        read(7),
        write(8, 5),
        write(9, OWN),
        write(10, 70),
        write(8, 0),
        write(7, 50),
        write(6, 1),
        write(5, OWN),
        write(0, 5),
        write(12, 0),
    ];
    assert!(rt; verbs.as_slice() == expected.as_slice());
    assert!(rt; committer.answer() == Some(TxnAnswer::Committed { number: 5 }));
    assert_eq!(rt; committer.number(), Some(5));
    let words = [5, 0, 0, 0, 9, OWN, 1, 50, 0, OWN, 70, 10, 0, 0, 90, 5];
    assert!(rt; has_words(&mut store, words.as_slice()));
    Ok(())
}

#[test]
fn the_intent_is_told_in_form_held(rt: HostRuntime) -> Result<(), AllocError> {
    let mut store = opened(Form::Held, rt.alloc())?.expect(&rt, "a store");
    let layout = laid_out(Form::Held).expect(&rt, "a layout");
    let mut state = transfer(&layout);
    let mut committer = Committer::new();
    committer.ask(&layout, &mut state);
    let verbs = run(&mut store, &layout, &mut state, &mut committer, rt.alloc())?;
    let expected = [
        write(32, 0),
        write(33, 0),
        write(35, 50),
        write(43, 1),
        write(44, 2),
        write(31, 5),
        write(30, 9),
        read(5),
        exchange(5, 0, HELD),
        read(12),
        exchange(12, 0, HELD),
        read(6),
        read(8),
        write(34, 0),
        write(30, 10),
        read(7),
        write(8, 5),
        write(9, OWN),
        write(10, 70),
        write(8, 0),
        write(7, 50),
        write(6, 1),
        write(5, OWN),
        write(0, 5),
        write(12, 0),
        write(30, 0),
    ];
    assert!(rt; verbs.as_slice() == expected.as_slice());
    assert!(rt; committer.answer() == Some(TxnAnswer::Committed { number: 5 }));
    let words = [5, 0, 0, 0, 9, OWN, 1, 50, 0, OWN, 70, 10, 0, 0, 90, 5];
    assert!(rt; has_words(&mut store, words.as_slice()));
    Ok(())
}
