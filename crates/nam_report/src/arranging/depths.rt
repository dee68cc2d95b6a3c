//! The depths of commits, found round by round.

ghost use Rattle.std.specs.Prelude.{◌≡◌, ◌<◌, ◌+◌, ◌^◌, max, false, length, map, if◌then◌else◌, OnOk, IfOk, All};
ghost use Rattle.std.specs.List.{AllByRecursion};
ghost use Rattle.nam_report.specs.declared.arranging.placed.LevelKey.{LevelKey};
ghost use Rattle.nam_report.specs.Depths.{at_depth, same_level_key, reach_in, has_guard, reach, deepest};
ghost use Rattle.nam_report.specs.Depths.{with_next_depths};
ghost use Rattle.nam_report.specs.Arranging.{after_rounds};

use crate::arranging::placed::{LevelKey, Placed};
use si_model::{Item, Key};
use std::alloc::{AllocError, Global};
use std::collections::BTreeMap;

/// What is said of a key at a level, and 0 where nothing is.
fn reach_at(reached: &BTreeMap<LevelKey, u64>, key: LevelKey) -> u64
    ensures { result ≡ reach_in reached.now key }
{
    reached.get(&key).copied().unwrap_or(0)
}

/// Raises what is said of a key at a level.
fn raise(reached: &mut BTreeMap<LevelKey, u64>, key: LevelKey, reach: u64) -> Result<(), AllocError>
    ensures { OnOk result ((k : LevelKey) →
        reach_in reached.new k ≡ max (if same_level_key key k then reach else 0) (reach_in reached.old k)) }
{
    if reach_at(reached, key) < reach {
        reached.insert(key, reach)?;
    }
    Ok(())
}

/// Raises what is said of the guards of a commit.
fn raise_guards(
    reached: &mut BTreeMap<LevelKey, u64>,
    level: u64,
    guards: &[Key],
    reach: u64,
) -> Result<(), AllocError>
    ensures { OnOk result ((k : LevelKey) →
        reach_in reached.new k ≡ max (if has_guard level guards.now k then reach else 0) (reach_in reached.old k)) }
{
    for guard in guards {
        raise(reached, LevelKey { level, key: *guard }, reach)?;
    }
    Ok(())
}

/// For each key that is guarded at a level one more than the greatest depth of the commits that guard it.
fn reached_by(alloc: Global, placed: &[Placed]) -> Result<BTreeMap<LevelKey, u64>, AllocError>
    requires { All (λ p. p.depth + 1 < 2 ^ 64) placed.now }
    ensures { IfOk result (λ reached. (k : LevelKey) → reach_in reached k ≡ reach placed.now k) }
{
    let mut reached = BTreeMap::new(alloc);
    for commit in placed {
        raise_guards(
            &mut reached,
            commit.level,
            commit.guards.as_slice(),
            commit.depth + 1,
        )?;
    }
    Ok(reached)
}

/// The greatest of what is said of the written keys at a level.
fn deepest(reached: &BTreeMap<LevelKey, u64>, level: u64, writes: &[Item]) -> u64
    ensures { result ≡ deepest (reach_in reached.now) level writes.now }
{
    let mut depth: u64 = 0;
    for item in writes {
        let key = item.key();
        depth = depth.max(reach_at(reached, LevelKey { level, key }));
    }
    depth
}

/// Gives a commit its next depth, and says whether that is another.
fn deepen(commit: &mut Placed, reached: &BTreeMap<LevelKey, u64>) -> bool
    ensures after { commit.new
        ≡ at_depth (deepest (reach_in reached.now) commit.old.level commit.old.line.writes) commit.old }
    ensures same { result ≡ false → commit.new ≡ commit.old }
{
    let depth = deepest(reached, commit.level, commit.line.writes.as_slice());
    let changed = depth != commit.depth;
    commit.depth = depth;
    changed
}

/// Gives the commits their next depths, and says whether any is another.
fn deepen_each(placed: &mut [Placed], reached: &BTreeMap<LevelKey, u64>) -> bool
    ensures after { placed.new
        ≡ map (λ p. at_depth (deepest (reach_in reached.now) p.level p.line.writes) p) placed.old }
    ensures same { result ≡ false → placed.new ≡ placed.old }
{
    let mut changed = false;
    for commit in placed.iter_mut() {
        changed |= deepen(commit, reached);
    }
    changed
}

/// One round: the commits get the depths that follow from those that they have. Says whether any is another.
fn deepen_all(alloc: Global, placed: &mut Vec<Placed>) -> Result<bool, AllocError>
    requires { All (λ p. p.depth + 1 < 2 ^ 64) placed.old.items }
    ensures after { OnOk result (placed.new.items ≡ with_next_depths placed.old.items) }
    ensures same { IfOk result (λ changed. changed ≡ false → placed.new.items ≡ placed.old.items) }
{
    let reached = reached_by(alloc, placed.as_slice())?;
    Ok(deepen_each(placed.as_mut_slice(), &reached))
}

/// Gives the commits, which are at depth 0, as many rounds as they are. A round settles those that stand behind settled
/// commits alone, so without a circle of guards there is one more than the greatest depth before one changes nothing.
pub fn settle(alloc: Global, placed: &mut Vec<Placed>) -> Result<(), AllocError>
    requires { AllByRecursion (λ p. p.depth ≡ 0) placed.old.items }
    ensures { OnOk result (placed.new.items ≡ after_rounds (length placed.old.items) placed.old.items) }
{
    for _round in 0..placed.len() {
        if !deepen_all(alloc, placed)? {
            return Ok(());
        }
    }
    Ok(())
}
