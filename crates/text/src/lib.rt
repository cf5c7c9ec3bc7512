// Texts put into a lent buffer, and numbers as text.
#![tactic(auto)]

ghost use Rattle.std.specs.Prelude.{[], ◌∷◌, ◌++◌};
ghost use Rattle.text.specs.Decimal.{decimal, or_dash};
ghost use Rattle.text.specs.inner.Outputs.{Puts};

// A lent buffer, and the position behind what has been put into it. What the buffer has no room for is lost: nothing here can fail. So this is no
// `fmt::Write`, of which `write!` promises its text only where it returns `Ok`.
#[derive(Drop)]
pub struct Output<'a> {
    pub bytes: &'a mut [u8],
    pub at: usize,
}

impl<'a> Output<'a> {
    pub fn put_byte(&mut self, byte: u8)
        ensures { Puts (byte ∷ []) self.old self.new }
    {
        if self.at < self.bytes.len() {
            self.bytes[self.at] = byte;
            self.at += 1;
        }
    }

    pub fn put_bytes(&mut self, bytes: &[u8])
        ensures { Puts bytes.now self.old self.new }
    {
        for byte in bytes {
            self.put_byte(*byte);
        }
    }

    // A number in decimal.
    pub fn put_number(&mut self, number: usize)
        ensures { Puts (decimal number) self.old self.new }
    {
        if 10 <= number {
            self.put_number(number / 10);
        }
        self.put_byte(b'0' + (number % 10) as u8);
    }

    // A number behind a label.
    pub fn put_labelled(&mut self, label: &[u8], number: usize)
        ensures { Puts (label.now ++ decimal number) self.old self.new }
    {
        self.put_bytes(label);
        self.put_number(number);
    }

    // A number behind a space; a dash where it is the code for none.
    #[tactic(auto, unfolding(crate::specs::Decimal::or_dash))]
    pub fn put_or_dash(&mut self, number: usize, none: usize)
        ensures { Puts (or_dash none number) self.old self.new }
    {
        if number == none {
            self.put_bytes(b" -");
        } else {
            self.put_labelled(b" ", number);
        }
    }
}
