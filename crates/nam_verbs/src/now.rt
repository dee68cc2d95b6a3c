//! Where a call stands.

ghost use Rattle.std.specs.Prelude.{◌≡◌};
ghost use Rattle.nam_verbs.specs.Now.{end_now};

/// A call at one of its points, where a verb stands, or the end of the call.
#[derive(Debug, Drop)]
pub enum Now<P, E> {
    At(P),
    Over(E),
}

impl<P, E: Copy> Now<P, E> {
    /// How the call ended, and none where a verb stands.
    #[inline]
    pub fn end(&self) -> Option<E>
        ensures { result ≡ end_now self.now }
    {
        match self {
            Now::At(_) => None,
            Now::Over(end) => Some(*end),
        }
    }
}
