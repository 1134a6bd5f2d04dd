// A reader of a text in pieces, as what brings the pieces sees it.
ghost use Rattle.std.specs.Prelude.{ℕ, List, ◌++◌};

/// What reads a text piece by piece, wherever the text is cut.
pub trait PieceReader {
    /// This text was read so far.
    ghost has_read: { List ℕ → Self → Type 0 };

    /// Reads the next piece of the text. A refusal is kept, and comes at the end.
    fn push(&mut self, piece: &[u8])
        ensures { (text : List ℕ) → has_read text self.old → has_read (text ++ piece.now) self.new };
}
