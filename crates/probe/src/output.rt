// What is put on standard output, a page at a time.
use std::io::{ErrorKind, Write};
use streams::Pages;
use words::{Cause, Refusal};

// Where a write fails the program ends with an error of that kind: what each step here gives back is small, since there are many.
pub type Done = Result<(), ErrorKind>;

// The lines of the answers.
#[derive(Drop)]
pub struct Lines<'a, W> {
    pages: Pages<'a, W>,
}

impl<'a, W: Write> Lines<'a, W> {
    pub fn new(output: &'a mut W, room: &'a mut [u8]) -> Lines<'a, W> {
        Lines {
            pages: Pages::new(output, room),
        }
    }

    // Writes out what was put.
    pub fn flush(&mut self) -> Done {
        self.pages.flush().map_err(|e| e.kind())
    }

    // Any bytes.
    #[inline(always)]
    pub fn put(&mut self, bytes: &[u8]) -> Done {
        self.pages.put(bytes).map_err(|e| e.kind())
    }

    // A number in decimal.
    pub fn decimal(&mut self, n: u32) -> Done {
        let mut digits = [0u8; 10];
        let end = text::put_decimal(&mut digits, 0, n);
        self.put(&digits[..end.min(10)])
    }

    // A word in eight digits.
    pub fn digits(&mut self, w: u32) -> Done {
        let mut digits = [0u8; 8];
        text::put_hex(&mut digits, 0, w);
        self.put(&digits)
    }

    // A space and a number, in decimal.
    pub fn number(&mut self, n: u32) -> Done {
        self.put(b" ")?;
        self.decimal(n)
    }

    // The same of a number of things that came in, which is below 2^32.
    pub fn count(&mut self, n: usize) -> Done {
        self.number((n % 4294967296) as u32)
    }

    // A space and a word, in eight digits.
    pub fn word(&mut self, w: u32) -> Done {
        self.put(b" ")?;
        self.digits(w)
    }

    // A space and a byte, in two digits.
    pub fn byte(&mut self, b: u8) -> Done {
        let mut digits = [0u8; 8];
        text::put_hex(&mut digits, 0, u32::from(b));
        self.put(b" ")?;
        self.put(&digits[6..])
    }

    // A space and a whole number of fewer than 33 bits beside its sign, in decimal.
    pub fn whole(&mut self, number: i64) -> Done {
        self.put(if number < 0 { b" -" } else { b" " })?;
        self.decimal((number.unsigned_abs() % 4294967296) as u32)
    }

    // The entry, or that there is none.
    pub fn entry(&mut self, found: Option<u32>) -> Done {
        match found {
            Some(entry) => self.number(entry),
            None => self.put(b" nothing"),
        }
    }

    // The items of a buffer after a call, each as it is put.
    pub fn buffer<T: Copy, F: Fn(&mut Lines<'a, W>, T) -> Done>(
        &mut self,
        items: &[T],
        put: F,
    ) -> Done
        requires { F.IsAlwaysCallable put }
    {
        self.put(b" |")?;
        for item in items {
            put(self, *item)?;
        }
        Ok(())
    }

    // Why something is refused, or zeros; then what it is if it is not.
    pub fn answer<T: Drop, F: FnOnce(&mut Lines<'a, W>, T) -> Done>(
        &mut self,
        answer: Result<T, Refusal>,
        put: F,
    ) -> Done
        requires { F.IsAlwaysCallable put }
    {
        let cause = Cause::of(&answer);
        self.number(cause.number)?;
        self.number(cause.place)?;
        self.word(cause.word)?;
        match answer {
            Ok(result) => put(self, result),
            Err(_) => Ok(()),
        }
    }
}
