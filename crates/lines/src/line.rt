// What a line is.
ghost use Rattle.std.specs.Prelude.{ℕ, List};
ghost use Rattle.lines.specs.Taking.{Taken};

// A line means the list of bytes that wait on it. An implementation that shows what taking does to its list is lawful.
pub trait Line {
    // the bytes that wait, the first to come first
    ghost waiting: { Self → List ℕ };

    // Removes and answers the first byte.
    fn take(&mut self) -> Option<u8>
        ensures { Taken result (waiting self.old) (waiting self.new) };
}
