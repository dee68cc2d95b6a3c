//! A session of a client is one that a world runs.

use crate::runs::Runs;
use nam_layout::Layout;
use nam_verbs::Verb;
use nam_worker::Session;
use si_model::Log;

impl Runs for Session {
    ghost use Rattle.nam_worker.specs.Session.{session_of, IsSessionOf};

    ghost session = { session_of };

    ghost IsOf = { IsSessionOf };

    fn verb(&self) -> Option<Verb> {
        Session::verb(self)
    }

    fn is_cut(&self) -> bool {
        Session::is_cut(self)
    }

    fn take(&mut self, layout: &Layout, found: u64) {
        Session::take(self, layout, found);
    }

    fn cut(&mut self) {
        Session::cut(self);
    }

    fn into_log(self) -> Log {
        Session::into_log(self)
    }
}
