// The lines that `ask` prints, put one after another at the front of a buffer.
ghost use Rattle.std.specs.Prelude.{◌+◌, ◌≤◌, ◌≡◌, length};
ghost use Rattle.tables.specs.Refusal.{number};
ghost use Rattle.asking.specs.Text.{decimal, item, spaced, line, refused_line};
ghost use Rattle.asking.specs.inner.Writing.{Begins, Fits, Grew};

use tables::Refusal;

// A text that grows: the buffer, and how many bytes of it have been written.
// kept: a buffer with a length beside it, since `reply` writes to a buffer that it is lent and says what becomes of all its bytes (`Printed`).
#[derive(Drop)]
pub(crate) struct Text<'a> {
    out: &'a mut [u8],
    len: usize,
}

impl<'a> Text<'a> {
    // No text yet.
    pub(crate) fn new(out: &'a mut [u8]) -> Text<'a>
        ensures { Begins out.entry result }
    {
        Text { out, len: 0 }
    }

    // How many bytes the text has.
    pub(crate) fn len(&self) -> usize
        ensures { result ≡ self.now.len }
    {
        self.len
    }

    // A word.
    pub(crate) fn word(&mut self, word: &[u8])
        requires { Fits self.old (length word.now) }
        ensures { Grew self.old word.now self.new }
    {
        let end = self.len + word.len();
        self.out[self.len..end].copy_from_slice(word);
        self.len = end;
    }

    // A number in decimal.
    #[tactic(auto, using(crate::proofs::Decimal::decimal_printed))]
    fn number(&mut self, n: usize)
        requires { Fits self.old (length (decimal n)) }
        ensures { Grew self.old (decimal n) self.new }
    {
        let mut digits = itoa::Buffer::new();
        self.word(digits.format(n).as_bytes());
    }

    // A space and a number.
    fn item(&mut self, n: usize)
        requires { Fits self.old (length (item n)) }
        ensures { Grew self.old (item n) self.new }
    {
        self.word(b" ");
        self.number(n);
    }

    // The numbers of a list, each after a space.
    fn list(&mut self, list: &[u16])
        requires { Fits self.old (length (spaced list.now)) }
        ensures { Grew self.old (spaced list.now) self.new }
    {
        for x in list {
            self.item(usize::from(*x));
        }
    }

    // A word's line: how many numbers a list has, and the numbers.
    #[tactic(auto, using(crate::proofs::Writing::line_length))]
    pub(crate) fn line(&mut self, word: &[u8], list: &[u16])
        requires { Fits self.old (length (line word.now list.now)) }
        ensures { Grew self.old (line word.now list.now) self.new }
    {
        self.word(word);
        self.item(list.len());
        self.word(b":");
        self.list(list);
        self.word(b"\n");
    }

    // The line of a refusal: its number, and the word for what is refused.
    #[tactic(auto, using(crate::proofs::Decimal::length_4))]
    pub(crate) fn refused(&mut self, r: Refusal, word: &[u8])
        requires { Fits self.old (length word.now + 14) }
        ensures { Grew self.old (refused_line (number r) word.now) self.new }
    {
        self.word(b"refused");
        self.item(usize::from(u8::from(r)));
        self.word(b" ");
        self.word(word);
        self.word(b"\n");
    }
}
