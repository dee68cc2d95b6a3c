ghost use Rattle.std.specs.Prelude.{◌≡◌, ◌<◌, IfSome, Some, None};
ghost use Rattle.nam_catalog.specs.declared.form.Form.TheVariants.{Held};
ghost use Rattle.nam_medic.specs.Medic.{Serves};

use crate::Medic;
use nam_catalog::{Form, Shape, check};
use nam_header::{with_lock, with_moved};
use nam_layout::Layout;
use nam_trial::{PlainStore, plain_shape, read, write};
use nam_verbs::Verb;
use si_model::Finish;
use std::alloc::{AllocError, Global};

// Headers of the stopped commit, which is worker 2's number 6: that of a version, and that of a deletion.
const OWN: u64 = 68_719_476_784;

const OWN_DELETED: u64 = 68_719_476_786;

// The header of a version of worker 1.
fn old(number: u32) -> u64 {
    34_359_738_368 + 8 * number as u64
}

// The same with a worker's lock.
fn locked(number: u32, worker: u32) -> u64
    requires { worker < 32 }
{
    with_lock(Form::Held, worker, old(number))
}

// Two workers, and a table of three positions with two words and two slots each. The headers stand at 5, 18 and 31, and
// the intent of worker 2 from 233 on.
fn held_shape() -> Shape
    ensures form { result.form ≡ Held }
    ensures workers { result.workers ≡ 2 }
{
    let mut shape = plain_shape(2, 3, 2, 1);
    shape.form = Form::Held;
    shape
}

fn held_layout() -> Option<Layout>
    ensures { IfSome result (λ layout. (layout.form ≡ Held) × (layout.workers ≡ 2)) }
{
    let shape = held_shape();
    if check(&shape).is_err() {
        return None;
    }
    Some(Layout::new(&shape))
}

// The word that a verb finds.
fn found_by(store: &mut PlainStore, verb: Verb) -> u64 {
    match verb {
        Verb::Read { at } => store.word(at),
        Verb::Write { at, word } => {
            store.set(at, word);
            0
        }
        Verb::Exchange { .. } => 0,
    }
}

// Runs a medic to its end, and gives its verbs in order.
fn run(
    store: &mut PlainStore,
    layout: &Layout,
    medic: &mut Medic,
    alloc: Global,
) -> Result<Vec<Verb>, AllocError>
    requires { Serves layout.now medic.old }
{
    let mut verbs = Vec::new(alloc);
    'verbs: while let Some(verb) = medic.verb() {
        verbs.push(verb)?;
        let found = found_by(store, verb);
        medic.take(layout, found);
    }
    Ok(verbs)
}

// Whether the medic of worker 2 does these verbs over the words that are laid, and ends so.
fn finishes(
    laid: &[(u64, u64)],
    expected: &[Verb],
    end: Finish,
    alloc: Global,
) -> Result<bool, AllocError> {
    let Some(mut store) = PlainStore::new(alloc, held_shape())? else {
        return Ok(false);
    };
    let Some(layout) = held_layout() else {
        return Ok(false);
    };
    for (at, word) in laid {
        store.set(*at, *word);
    }
    let mut medic = Medic::new(&layout, 2);
    let verbs = run(&mut store, &layout, &mut medic, alloc)?;
    Ok(verbs.as_slice() == expected && medic.end() == Some(end) && medic.left() == 0)
}

#[test]
fn no_intent_is_clean(rt: HostRuntime) -> Result<(), AllocError> {
    assert!(rt;
        finishes(
            [].as_slice(),
            [read(233)].as_slice(),
            Finish::Clean,
            rt.alloc()
        )?
    );
    // Seventeen records are more than a commit has.
    let many = [(233, 69)];
    assert!(rt;
        finishes(
            many.as_slice(),
            [read(233)].as_slice(),
            Finish::Clean,
            rt.alloc()
        )?
    );
    Ok(())
}

#[test]
fn a_listed_commit_is_undone(rt: HostRuntime) -> Result<(), AllocError> {
    let laid = [
        (233, 13),
        (235, 1),
        (246, 0),
        (257, 2),
        (5, locked(1, 1)),
        (18, locked(2, 2)),
        (31, old(3)),
    ];
    let expected = [
        read(233),
        read(235),
        read(18),
        write(18, old(2)),
        read(246),
        read(5),
        read(257),
        read(31),
        write(233, 0),
    ];
    assert!(rt;
        finishes(
            laid.as_slice(),
            expected.as_slice(),
            Finish::Undone,
            rt.alloc()
        )?
    );
    Ok(())
}

#[test]
fn a_decided_commit_is_rolled_on(rt: HostRuntime) -> Result<(), AllocError> {
    // A record before its copy, whose version has number 4, and then a guard.
    let laid = [
        (233, 10),
        (234, 6),
        (235, 1),
        (237, 4),
        (238, 71),
        (239, 72),
        (247, 2),
        (18, locked(3, 2)),
        (20, 61),
        (21, 62),
        (22, with_moved(old(2))),
        (5, locked(1, 2)),
    ];
    let expected = [
        read(233),
        read(234),
        read(235),
        read(236),
        read(237),
        read(238),
        read(239),
        read(18),
        read(22),
        read(20),
        read(21),
        write(22, 5),
        write(23, OWN),
        write(24, 61),
        write(25, 62),
        write(22, old(3)),
        write(20, 71),
        write(21, 72),
        write(19, 5),
        write(18, OWN),
        read(246),
        read(247),
        write(1, 6),
        read(246),
        read(247),
        read(5),
        write(5, old(1)),
        write(233, 0),
    ];
    assert!(rt;
        finishes(
            laid.as_slice(),
            expected.as_slice(),
            Finish::RolledOn,
            rt.alloc()
        )?
    );
    Ok(())
}

#[test]
fn a_version_that_its_slot_holds_is_not_copied(rt: HostRuntime) -> Result<(), AllocError> {
    // The second record is a position without a version that gets a deletion: its slot has the mark.
    let laid = [
        (233, 10),
        (234, 6),
        (235, 2),
        (237, 5),
        (238, 71),
        (239, 72),
        (247, 1),
        (31, locked(3, 2)),
        (39, old(3)),
        (5, with_lock(Form::Held, 2, 2)),
    ];
    let expected = [
        read(233),
        read(234),
        read(235),
        read(236),
        read(237),
        read(238),
        read(239),
        read(31),
        read(39),
        write(33, 71),
        write(34, 72),
        write(32, 6),
        write(31, OWN),
        read(246),
        read(247),
        read(248),
        read(5),
        read(9),
        read(7),
        read(8),
        write(9, 5),
        write(10, OWN),
        write(11, 0),
        write(12, 0),
        write(9, 2),
        write(6, 1),
        write(5, OWN_DELETED),
        write(1, 6),
        write(233, 0),
    ];
    assert!(rt;
        finishes(
            laid.as_slice(),
            expected.as_slice(),
            Finish::RolledOn,
            rt.alloc()
        )?
    );
    Ok(())
}

#[test]
fn a_new_medic_has_its_greatest_number_to_come(rt: HostRuntime) {
    let layout = held_layout().expect(&rt, "a layout");
    let medic = Medic::new(&layout, 1);
    assert_eq!(rt; medic.left(), 676);
    assert_eq!(rt; medic.verb(), Some(read(55)));
    assert_eq!(rt; medic.end(), None);
}
