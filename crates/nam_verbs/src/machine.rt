//! Calls that are cut into verbs.

ghost use Rattle.std.specs.Prelude.{◌≡◌, ◌<◌, IsSome, IfSome};
ghost use Rattle.nam_verbs.specs.declared.now.Now.TheVariants.{At};
ghost use Rattle.nam_verbs.specs.Verb.{address_of};
ghost use Rattle.nam_verbs.specs.Running.{verb_from, next_verb, after_found, end_of, verbs_left};

use crate::now::Now;
use crate::verb::Verb;

/// One call, cut into verbs. It is asked for the verb that stands and given the word that this verb found, until it
/// has ended. It takes no memory.
///
/// A contract sees what the call does as one value, the running call: a verb stands exactly until it has ended
/// (`stands_until_end` of the definitions), and each word that it takes lowers the number of verbs to come.
pub trait Machine {
    ghost use Rattle.nam_verbs.specs.Running.{Running};

    /// What names the words that the call reaches.
    type Word;

    /// Where the call can stand.
    type Point;

    /// How it may end.
    type End;

    /// The call as a value: the verb of each point, what follows each word found there, and where it stands.
    ghost running: { Self → Running Self.Word Self.Point Self.End };

    /// Where the call stands.
    fn state(&self) -> &Now<Self::Point, Self::End>
        ensures { result.now ≡ (running self.now).state };

    /// The verb of the point where it stands.
    fn verb_from(&self, at: &Self::Point) -> Verb
        requires { (running self.now).state ≡ At at.now }
        ensures verb { result ≡ verb_from (running self.now) at.now }
        ensures within { address_of result < (running self.now).reach };

    /// A number of verbs that are to come at the most from the point where it stands.
    fn left_from(&self, at: &Self::Point) -> u64
        requires { (running self.now).state ≡ At at.now }
        ensures { result ≡ (running self.now).left at.now };

    /// Goes on with the word that the verb found.
    fn take(&mut self, found: u64)
        requires { IsSome (next_verb (running self.old)) }
        ensures after { running self.new ≡ after_found (running self.old) found }
        ensures falls { verbs_left (running self.new) < verbs_left (running self.old) };

    /// How the call ended, and none exactly where a verb stands.
    fn end(&self) -> Option<Self::End>
        ensures { result ≡ end_of (running self.now) };

    /// The verb that stands, and none exactly where the call has ended.
    final fn verb(&self) -> Option<Verb>
        ensures verb { result ≡ next_verb (running self.now) }
        ensures within { IfSome result (λ verb. address_of verb < (running self.now).reach) }
    {
        match self.state() {
            Now::At(at) => Some(self.verb_from(at)),
            Now::Over(_) => None,
        }
    }

    /// A number of verbs that are to come at the most. Each word that is taken lowers it.
    final fn left(&self) -> u64
        ensures { result ≡ verbs_left (running self.now) }
    {
        match self.state() {
            Now::At(at) => self.left_from(at),
            Now::Over(_) => 0,
        }
    }
}
