// What a line is made of, laid over a lent text where the pen stands. Afterwards the pen stands right behind what it has written.
ghost use Rattle.std.specs.Prelude.{[], ◌∷◌, ◌%◌};
ghost use Rattle.lines.specs.Pen.{Fits, Wrote};
ghost use Rattle.lines.specs.Text.{digit, digits, padded, inches, code_text, field, verdict_text};

use day::{Code, Figure, Verdict};

// A lent text and the index of the next byte. Both, and not the part that is left: who lends it is promised the whole of it (`Written`).
#[derive(Drop)]
pub struct Pen<'a> {
    pub text: &'a mut [u8],
    pub at: usize,
}

impl Pen<'_> {
    // Inlined, so that each copy's length is known where it is made: else it would be a call of C's `memcpy`.
    #[inline(always)]
    pub(crate) fn put_bytes(&mut self, bytes: &[u8])
        requires { Fits self.old bytes.now }
        ensures { Wrote self.old bytes.now self.new }
    {
        let end = self.at + bytes.len();
        self.text[self.at..end].copy_from_slice(bytes);
        self.at = end;
    }

    fn put_byte(&mut self, b: u8)
        requires { Fits self.old (b ∷ []) }
        ensures { Wrote self.old (b ∷ []) self.new }
    {
        self.put_bytes(&[b]);
    }

    // The last digit of a number.
    fn put_last_digit(&mut self, n: u64)
        requires { Fits self.old (digit (n % 10) ∷ []) }
        ensures { Wrote self.old (digit (n % 10) ∷ []) self.new }
    {
        // By `as`, since no `From` narrows: a digit fits.
        self.put_byte(b'0' + (n % 10) as u8);
    }

    // A number without zeros in front: what stands before the last digit first, so that no digit is moved. By hand: `write!`
    // promises its text where it answers Ok, and no clause says when it does; this cannot fail.
    fn put_digits(&mut self, n: u64)
        requires { Fits self.old (digits n) }
        ensures { Wrote self.old (digits n) self.new }
    {
        if n < 10 {
            return self.put_last_digit(n);
        }
        self.put_digits(n / 10);
        self.put_last_digit(n);
    }

    // A number with zeros in front up to `least` digits.
    fn put_number(&mut self, least: usize, n: u64)
        requires { Fits self.old (padded least n) }
        ensures { Wrote self.old (padded least n) self.new }
    {
        if least < 2 {
            return self.put_digits(n);
        }
        self.put_number(least - 1, n / 10);
        self.put_last_digit(n);
    }

    // A figure of n ten-thousandths of an inch.
    fn put_inches(&mut self, n: u64)
        requires { Fits self.old (inches n) }
        ensures { Wrote self.old (inches n) self.new }
    {
        self.put_digits(n / 10_000);
        self.put_byte(b'.');
        self.put_number(4, n % 10_000);
    }

    // The same, after another field. Three functions, as `field` is of three texts: a space, then the field.
    pub(crate) fn put_inches_field(&mut self, n: u64)
        requires { Fits self.old (field (inches n)) }
        ensures { Wrote self.old (field (inches n)) self.new }
    {
        self.put_byte(b' ');
        self.put_inches(n);
    }

    // A number that follows another field.
    pub(crate) fn put_number_field(&mut self, least: usize, n: u64)
        requires { Fits self.old (field (padded least n)) }
        ensures { Wrote self.old (field (padded least n)) self.new }
    {
        self.put_byte(b' ');
        self.put_number(least, n);
    }

    // A day's inches, with a space and an E where they have the mark, or R and the refusal's number.
    fn put_verdict(&mut self, verdict: Verdict)
        requires { Fits self.old (verdict_text verdict) }
        ensures { Wrote self.old (verdict_text verdict) self.new }
    {
        match verdict {
            Ok(Figure::Measured(n)) => self.put_inches(u64::from(n)),
            Ok(Figure::Estimated(n)) => {
                self.put_inches(u64::from(n));
                self.put_bytes(b" E");
            }
            Err(r) => {
                self.put_byte(b'R');
                self.put_digits(u64::from(u32::from(r)));
            }
        }
    }

    // The same, after another field.
    pub(crate) fn put_verdict_field(&mut self, verdict: Verdict)
        requires { Fits self.old (field (verdict_text verdict)) }
        ensures { Wrote self.old (field (verdict_text verdict)) self.new }
    {
        self.put_byte(b' ');
        self.put_verdict(verdict);
    }

    // The four letters of a code.
    pub(crate) fn put_code(&mut self, code: Code)
        requires { Fits self.old (code_text code) }
        ensures { Wrote self.old (code_text code) self.new }
    {
        self.put_bytes(&[code.first, code.second, code.third, code.fourth]);
    }
}
