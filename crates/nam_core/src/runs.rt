//! What a world needs of a session.

ghost use Rattle.std.specs.Prelude.{◌≡◌, ◌<◌, IsSome, IfSome, option_map};
ghost use Rattle.nam_verbs.specs.Verb.{address_of};
ghost use Rattle.nam_verbs.specs.VerbAt.{verb_by};
ghost use Rattle.nam_catalog.specs.declared.shape.Shape.{Shape};
ghost use Rattle.nam_catalog.specs.Words.{words_of};
ghost use Rattle.nam_layout.specs.Address.{address};
ghost use Rattle.nam_protocol.specs.Session.{session_verb, session_after, session_cut, session_log};
ghost use Rattle.nam_protocol.specs.World.{HasNoVerb};

use nam_layout::Layout;
use nam_verbs::Verb;
use si_model::Log;

/// A session that a world runs: it is asked for the verb that stands, and given the word that this verb found.
pub trait Runs: Drop {
    ghost use Rattle.nam_catalog.specs.declared.shape.Shape.{Shape};
    ghost use Rattle.nam_protocol.specs.declared.session.SessionState.{SessionState};

    /// The session as a value.
    ghost session: { Self → SessionState };

    /// It is a session of a store of the shape.
    ghost IsOf: { Shape → Self → Type 0 };

    /// The verb that stands, if there is one. It is at a word of the store.
    fn verb(&self) -> Option<Verb>
        ensures verb { (shape : Shape) → IsOf shape self.now
            → result ≡ option_map (verb_by (address shape)) (session_verb shape (session self.now)) }
        ensures within { (shape : Shape) → IsOf shape self.now
            → IfSome result (λ verb. address_of verb < words_of shape) };

    /// Whether it was stopped.
    fn is_cut(&self) -> bool
        ensures { result ≡ (session self.now).client.cut };

    /// Goes on with the word that the verb found.
    fn take(&mut self, layout: &Layout, found: u64)
        requires of { IsOf layout.now self.old }
        requires stands { IsSome (session_verb layout.now (session self.old)) }
        ensures value { session self.new ≡ session_after layout.now (session self.old) found }
        ensures of { IsOf layout.now self.new };

    /// The session is stopped before its next verb.
    fn cut(&mut self)
        ensures value { (shape : Shape) → IsOf shape self.old
            → session self.new ≡ session_cut shape.form (session self.old) }
        ensures of { (shape : Shape) → IsOf shape self.old → IsOf shape self.new };

    /// The log of what it did, once no verb is to come.
    fn into_log(self) -> Log
        requires { (shape : Shape) × IsOf shape self × HasNoVerb shape (session self) }
        ensures { (shape : Shape) → IsOf shape self → result ≡ session_log shape (session self) };
}
