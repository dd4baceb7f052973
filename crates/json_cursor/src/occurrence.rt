// How often a name stood among members.
ghost use Rattle.std.specs.Prelude.{◌≡◌};
ghost use Rattle.json_cursor.specs.Occurrences as spec;

/// How often a name stood among members, and what is known of its value where it stood once.
#[derive(Drop)]
pub enum Occurrence<T> {
    Never,
    Once(T),
    Again,
}

impl<T: Drop> Occurrence<T> {
    /// Goes on with one more, of whose value this is known.
    #[inline(always)]
    pub fn see(&mut self, one: T)
        ensures { self.new ≡ spec.see self.old one }
    {
        match self {
            Occurrence::Never => *self = Occurrence::Once(one),
            Occurrence::Once(_) => *self = Occurrence::Again,
            Occurrence::Again => {}
        }
    }

    /// Whether it stood more than once.
    pub fn is_again(&self) -> bool
        ensures { result ≡ spec.is_again self.now }
    {
        matches!(self, Occurrence::Again)
    }
}
