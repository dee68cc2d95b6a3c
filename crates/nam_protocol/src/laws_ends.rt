//! Sessions settle, the number of their verbs to come falls with each turn, and each simulated run reaches its end.

ghost use Rattle.nam_protocol.specs.EndsLaw.{SettlesLaw, NewSessionLaw, SessionWordLaw, SessionCutLaw, TurnLaw};
ghost use Rattle.nam_protocol.specs.EndsLaw.{EndsLaw};

/// A session that fits has a verb to come exactly where it has neither ended nor is cut without a medic: however many
/// of its calls were answered without a verb, it has gone on to one that takes a verb. In form Held each session that
/// is cut has a medic, and has ended exactly where the medic has answered.
///
/// A new session fits, with no more verbs to come than the bound of its jobs and, in form Held, its medic's. After each
/// word it fits with fewer. A stop leaves no more of them, and fewer of a session that had one and was not cut before;
/// without a medic it leaves none.
pub fn sessions_settle()
    ensures settles { SettlesLaw }
    ensures new { NewSessionLaw }
    ensures word { SessionWordLaw }
    ensures cut { SessionCutLaw }
{}

/// A turn of a worker that has a verb to come leaves a world that fits with fewer verbs to come, be it the client's or
/// the medic's; so does the stop of one that was not cut before. No turn leaves more.
pub fn turns_fall()
    ensures { TurnLaw }
{}

/// Each simulated run reaches its end, whatever its schedule and its lines, and that end is the only one.
///
/// It takes no more rounds than the bound of all jobs and, in form Held, of all medics.
pub fn runs_end()
    ensures { EndsLaw }
{}
