//! What a caller's block has ahead.

ghost use Rattle.std.specs.Prelude.{◌≡◌};
ghost use Rattle.vyrd_mover.specs.Ahead.{with_line};

/// What a caller does from some place of a history on, up to its next block end.
#[derive(Clone, Copy)]
pub(crate) struct Ahead {
    /// The line of the first event that isn't a left mover.
    pub not_left: Option<u64>,
    /// The line of the last event of the shortest beginning that has no cut.
    pub uncut: Option<u64>,
}

impl Ahead {
    /// The same with one more event before it, which stands on this line, is a left mover or isn't,
    /// and is a right mover or isn't.
    pub fn with_line(self, line: u64, is_left: bool, is_right: bool) -> Ahead
        ensures { result ≡ with_line line is_left is_right self }
    {
        Ahead {
            not_left: if is_left { self.not_left } else { Some(line) },
            uncut: if is_right { self.uncut } else { self.not_left },
        }
    }
}
