//! A short text of characters.
ghost use Rattle.std.specs.Prelude.{◌≡◌, ◌≤◌, ◌==◌, ◌/◌, ◌%◌, [], ◌∷◌, ◌++◌, codes, decimal, length};

/// The most characters of a label.
const MOST: usize = 400;

/// A text of up to 400 characters, which forgets what it has no room for.
#[derive(Clone, Copy)]
pub struct Label {
    signs: [u32; 400],
    count: usize,
    ghost few: { count ≤ 400 },
}

impl Label {
    ghost use Rattle.svg_text.specs.Labels.{put_signs, signs_of};

    /// No text yet.
    pub fn new() -> Label
        ensures { signs_of result ≡ [] }
    {
        Label {
            signs: [0; MOST],
            count: 0,
        }
    }

    /// This text.
    pub fn of(text: &str) -> Label
        ensures { signs_of result ≡ put_signs [] text.now }
    {
        let mut label = Label::new();
        label.text(text);
        label
    }

    /// Its characters.
    pub fn signs(&self) -> &[u32]
        ensures { result.now ≡ signs_of self.now }
    {
        &self.signs[..self.count]
    }

    /// How many characters it has.
    pub fn len(&self) -> u64
        ensures { result ≡ length (signs_of self.now) }
    {
        self.count as u64
    }

    /// It has no characters.
    pub fn is_empty(&self) -> bool
        ensures { result ≡ length (signs_of self.now) == 0 }
    {
        self.count == 0
    }

    /// One character more.
    #[tactic(auto, using(crate::proofs::Putting::put_one, crate::proofs::Putting::put_none))]
    pub fn sign(&mut self, c: u32)
        ensures { signs_of self.new ≡ put_signs (signs_of self.old) (c ∷ []) }
    {
        if self.count < MOST {
            self.signs[self.count] = c;
            self.count += 1;
        }
    }

    /// A text more: each byte is a character.
    pub fn text(&mut self, text: &str)
        ensures { signs_of self.new ≡ put_signs (signs_of self.old) text.now }
    {
        for byte in text.as_bytes() {
            self.sign(u32::from(*byte));
        }
    }

    /// The front of another label more.
    pub fn label(&mut self, other: &Label)
        ensures { signs_of self.new ≡ put_signs (signs_of self.old) (signs_of other.now) }
    {
        for c in other.signs() {
            self.sign(*c);
        }
    }

    /// A number more, in decimal digits.
    pub fn number(&mut self, n: u64)
        ensures { signs_of self.new ≡ put_signs (signs_of self.old) (decimal n) }
    {
        let mut digits = itoa::Buffer::new();
        self.text(digits.format(n));
    }

    /// A number of tenths more, with one digit after the point.
    #[tactic(auto, using(crate::proofs::Putting::put_put))]
    pub fn tenths(&mut self, n: u64)
        ensures { signs_of self.new ≡
            put_signs (signs_of self.old) (decimal (n / 10) ++ (codes "." ++ decimal (n % 10))) }
    {
        self.number(n / 10);
        self.text(".");
        self.number(n % 10);
    }
}
