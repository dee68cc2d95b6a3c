//! A worker's driver follows the retry policy, whatever its client answers.

ghost use Rattle.nam_follows.specs.FollowsLaw.{CutLaw, EndedLaw, NewLaw, TakeLaw, ViewLaw};

/// What a session has told is a walk that the policy allows, and its driver stands for what is owed next
/// (`IsFollowing`).
///
/// A new driver whose jobs are the worker's transactions follows while nothing is told (`new`). It goes on to follow
/// with each answer that tells what it should, at each of its points (`take`), and in another view that agrees at the
/// events told (`view`).
pub fn follows_law()
    ensures new { NewLaw }
    ensures take { TakeLaw }
    ensures view { ViewLaw }
{}

/// So a session that was cut has followed the policy (`IsFollowed`), at whichever of its driver's points, whether a
/// medic has finished it or not (`cut`); and so has one that has ended (`ended`).
pub fn followed_law()
    ensures cut { CutLaw }
    ensures ended { EndedLaw }
{}
