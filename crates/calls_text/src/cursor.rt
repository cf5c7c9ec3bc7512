// The entry of the memo table that is printed next: its index, and the nonterminal and the place that it is of.
ghost use Rattle.std.specs.Prelude.{◌≡◌, ℕ, ◌+◌, ◌^◌, ◌<◌};
ghost use Rattle.calls_text.specs.inner.Cursors.{Stands};

// The nonterminal and the place are carried along, so that no index is divided by the length of a row.
#[derive(Clone, Copy, Default)]
pub struct Cursor {
    pub index: usize,
    pub nonterminal: usize,
    pub place: usize,
}

impl Cursor {
    // The first entry, of whatever row length.
    pub(crate) fn first() -> Cursor
        ensures { (result.index ≡ 0) × ((tokens : ℕ) → Stands tokens result) }
    {
        Cursor::default()
    }

    // The entry behind this one: that of the next place, or of the next nonterminal's first.
    pub(crate) fn step(self, tokens: u16) -> Cursor
        requires { Stands tokens self × (self.index + 1 < 2 ^ 64) }
        ensures { (result.index ≡ self.index + 1) × Stands tokens result }
    {
        if self.place < tokens as usize {
            Cursor {
                index: self.index + 1,
                place: self.place + 1,
                ..self
            }
        } else {
            Cursor {
                index: self.index + 1,
                nonterminal: self.nonterminal + 1,
                place: 0,
            }
        }
    }
}
