// Text that is written into a lent buffer: what is put stands behind what was put before.
ghost use Rattle.std.specs.Prelude.{◌≡◌, [], ◌∷◌, ◌<◌, length};
ghost use Rattle.listing.specs.Text.{decimal};
ghost use Rattle.listing.specs.Inner.{Room, Wrote};

#[derive(Drop)]
pub struct Text<'a> {
    out: &'a mut [u8],
    place: usize,
}

impl<'a> Text<'a> {
    // Nothing so far, at the front of the buffer.
    pub fn new(out: &'a mut [u8]) -> Text<'a>
        ensures same { result.out.ghost_name ≡ out.entry.ghost_name }
        ensures begun { (result.out.now ≡ out.old) × (result.place ≡ 0) }
    {
        Text::at(out, 0)
    }

    // Nothing so far, to be put from a place of the buffer on: what stands before it stays.
    pub fn at(out: &'a mut [u8], place: usize) -> Text<'a>
        ensures same { result.out.ghost_name ≡ out.entry.ghost_name }
        ensures begun { (result.out.now ≡ out.old) × (result.place ≡ place) }
    {
        Text { out, place }
    }

    // The place behind what was put: of a text at the front of the buffer, how many bytes it has.
    pub fn bytes(&self) -> usize
        ensures { result ≡ self.now.place }
    {
        self.place
    }

    pub fn put_byte(&mut self, byte: u8)
        requires { Room self.old (byte ∷ []) }
        ensures { Wrote self.old (byte ∷ []) self.new }
    {
        self.put_text(&[byte]);
    }

    pub fn put_text(&mut self, text: &[u8])
        requires { Room self.old text.now }
        ensures { Wrote self.old text.now self.new }
    {
        let end = self.place + text.len();
        self.out[self.place..end].copy_from_slice(text);
        self.place = end;
    }

    // A number in base ten. It is put digit by digit, since `write!` promises its text only if it succeeds, and not that it does where there is room.
    pub fn put_number(&mut self, n: u64)
        requires { Room self.old (decimal n) }
        ensures { Wrote self.old (decimal n) self.new }
    {
        if n < 10 {
            return self.put_byte(b'0' + n as u8);
        }
        self.put_number(n / 10);
        self.put_byte(b'0' + (n % 10) as u8);
    }
}
