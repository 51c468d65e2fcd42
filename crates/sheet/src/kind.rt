// The kinds of words, of a sheet and of an answer table.
ghost use Rattle.std.specs.Prelude.{◌≡◌, ◌<◌, eqb};
ghost use Rattle.sheet.specs.Words.{words, payloads, kind_of, word_of, kind};
ghost use Rattle.sheet.specs.Kinds.{kind_number};

// What a word is, by the number in its top 4 bits.
#[derive(Clone, Copy, Debug, PartialEq, Eq)]
pub enum Kind {
    Nodes = 1,
    Source = 2,
    Span = 3,
    Hold = 13,
    Ends = 4,
    Length = 5,
    Inner = 6,
    Leaf = 7,
    Status = 8,
    Count = 11,
    Label = 9,
    Predecessor = 10,
    Key = 12,
}

impl Kind {
    // The kind's number.
    pub fn number(self) -> u32
        ensures { result ≡ kind_number self }
    {
        self as u32
    }

    // The word of this kind with a payload.
    pub fn word(self, payload: u32) -> u32
        requires { payload < payloads }
        ensures { result ≡ word_of (kind_number self) payload }
    {
        crate::word_of(self.number(), payload)
    }

    // Whether a word is of this kind.
    pub fn is_of(self, word: u32) -> bool
        ensures { result ≡ eqb (kind_of word) (kind_number self) }
    {
        crate::kind_of(word) == self.number()
    }

    // Whether word i is of this kind.
    pub fn is_at(self, s: &[u8], i: usize) -> bool
        requires { i < words s.now }
        ensures { result ≡ eqb (kind s.now i) (kind_number self) }
    {
        crate::kind_at(s, i) == self.number()
    }
}
