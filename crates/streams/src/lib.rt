// Standard input and output, as the programs use them: a lent buffer filled from a reader, and bytes and numbers written to a writer.
// Both are the caller's, so a test can lend others than the system's. What a failed read or write left behind is not said: a program
// ends with the error.
#![tactic(auto)]

ghost use Rattle.std.specs.Prelude.{◌≡◌, ◌<◌, ◌≤◌, take, length, IfOk, OnOk, OnErr};
ghost use Rattle.std.specs.Io.KnownBytes.{Appends, Consumes, IsAtEnd, Keeps, append_known as held};
ghost use Rattle.std.specs.Fmt.{decimal};
ghost use Rattle.streams.specs.Hex.{eight_digits};

use std::io;
use std::io::{Read, Write};

// The bytes that are written at a time by a program that writes much.
pub const PAGE_BYTES: usize = 65536;

// A page of zeros. Its length is all that a proof sees of it.
pub fn page() -> [u8; PAGE_BYTES]
    ensures { 65536 ≡ length result }
{
    // kept: a program has no heap
    [0; PAGE_BYTES]
}

// Reads until the buffer is full or the input ends, and answers how many bytes stand at the buffer's start: the first that the input
// had left, and all of them where the buffer has room for more. A read that a signal interrupts is one that fails.
pub fn fill<R: Read>(input: &mut R, buffer: &mut [u8]) -> io::Result<usize>
    ensures within { IfOk result (λ n. n ≤ length buffer.new) }
    ensures bytes { IfOk result (λ n. Consumes (R.remaining input.old) (R.remaining input.new) (take n buffer.new)) }
    ensures end { IfOk result (λ n. n < length buffer.new → IsAtEnd (R.remaining input.new)) }
{
    let mut done = 0;
    // kept: a turn goes on by as many bytes as came, which no range and no iterator does
    while done < buffer.len() {
        let n = input.read(&mut buffer[done..])?;
        if n == 0 {
            break;
        }
        done += n;
    }
    Ok(done)
}

// Writes all of the bytes.
pub fn write<W: Write>(output: &mut W, bytes: &[u8]) -> io::Result<()>
    ensures { OnOk result (Appends (W.contents output.old) (W.contents output.new) bytes.now) }
{
    output.write_all(bytes)?;
    output.flush()
}

// Writes a page's first bytes, and leaves it as it was: of a page that is lent on, no more than its length is known.
fn write_first<W: Write>(output: &mut W, page: &mut [u8], end: usize) -> io::Result<()>
    requires { end ≤ length page.old }
    ensures written { OnOk result (Appends (W.contents output.old) (W.contents output.new) (take end page.old)) }
    ensures page { page.new ≡ page.old }
{
    write(output, &page[..end])
}

// Writes a number in decimal.
pub fn write_decimal<W: Write>(output: &mut W, n: u64) -> io::Result<()>
    ensures { OnOk result (Appends (W.contents output.old) (W.contents output.new) (decimal n)) }
{
    write!(output, "{n}")
}

// Writes a word in eight hexadecimal digits.
pub fn write_word<W: Write>(output: &mut W, w: u32) -> io::Result<()>
    ensures { OnOk result (Appends (W.contents output.old) (W.contents output.new) (eight_digits w)) }
{
    write!(output, "{w:08x}")
}

// An output that bytes go to a page at a time: in room that is lent, the page holds those that are still to be written.
#[derive(Drop)]
pub struct Pages<'a, W> {
    pub output: &'a mut W,
    pub room: &'a mut [u8],
    pub end: usize,
    pub ghost within: { end ≤ length room.now },
}

impl<'a, W: Write> Pages<'a, W> {
    // With nothing on the page.
    pub fn new(output: &'a mut W, room: &'a mut [u8]) -> Pages<'a, W>
        ensures output { result.output.now ≡ output.old }
        ensures room { result.room.now ≡ room.old }
        ensures empty { result.end ≡ 0 }
    {
        Pages {
            output,
            room,
            end: 0,
        }
    }

    // Writes out what is on the page.
    pub fn flush(&mut self) -> io::Result<()>
        ensures written { OnOk result (Keeps (held (W.contents self.old.output.now) (take self.old.end self.old.room.now)) (W.contents self.new.output.now)) }
        ensures empty { OnOk result (self.new.end ≡ 0) }
        ensures failed { OnErr result (self.new.end ≡ self.old.end) }
        ensures room { self.new.room.now ≡ self.old.room.now }
    {
        write_first(self.output, self.room, self.end)?;
        self.end = 0;
        Ok(())
    }

    // Puts bytes that the page has no room for. It stands apart, since it is seldom needed.
    #[cold]
    #[inline(never)]
    fn turn(&mut self, bytes: &[u8]) -> io::Result<()>
        ensures appended { OnOk result (Appends
            (held (W.contents self.old.output.now) (take self.old.end self.old.room.now))
            (held (W.contents self.new.output.now) (take self.new.end self.new.room.now))
            bytes.now) }
        ensures failed { OnErr result (self.new.room.now ≡ self.old.room.now) }
        ensures kept { length bytes.now ≤ length self.old.room.now → OnErr result (self.new.end ≡ self.old.end) }
    {
        self.flush()?;
        if self.room.len() < bytes.len() {
            return write(self.output, bytes);
        }
        self.end = bytes.len();
        self.room[..self.end].copy_from_slice(bytes);
        Ok(())
    }

    // Puts bytes on the page; one that has no room for them is written out first. Where that fails, the page is as it
    // was, if it is long enough for the bytes.
    #[inline(always)]
    pub fn put(&mut self, bytes: &[u8]) -> io::Result<()>
        ensures appended { OnOk result (Appends
            (held (W.contents self.old.output.now) (take self.old.end self.old.room.now))
            (held (W.contents self.new.output.now) (take self.new.end self.new.room.now))
            bytes.now) }
        ensures failed { OnErr result (self.new.room.now ≡ self.old.room.now) }
        ensures kept { length bytes.now ≤ length self.old.room.now → OnErr result (self.new.end ≡ self.old.end) }
    {
        if self.room.len() - self.end < bytes.len() {
            return self.turn(bytes);
        }
        let end = self.end + bytes.len();
        self.room[self.end..end].copy_from_slice(bytes);
        self.end = end;
        Ok(())
    }
}

#[cfg(test)]
mod tests {
    use super::*;
    use std::io::ErrorKind;

    // Gives one byte at a read, and takes one at a write, so many times; then it fails.
    #[derive(Drop)]
    struct Narrow(u8);

    impl Read for Narrow {
        fn read(&mut self, buf: &mut [u8]) -> io::Result<usize> {
            if self.0 == 0 || buf.is_empty() {
                return Err(io::Error::from(ErrorKind::Other));
            }
            self.0 -= 1;
            buf[0] = self.0;
            Ok(1)
        }
    }

    impl Write for Narrow {
        fn write(&mut self, buf: &[u8]) -> io::Result<usize> {
            if self.0 == 0 || buf.is_empty() {
                return Err(io::Error::from(ErrorKind::Other));
            }
            self.0 -= 1;
            Ok(1)
        }

        fn flush(&mut self) -> io::Result<()> {
            Ok(())
        }
    }

    // Reads go on until the buffer is full, and no further; one that fails ends them with its error.
    #[test]
    fn fills_from_parts(rt: HostRuntime) {
        let mut input = Narrow(5);
        let mut buffer = [9u8; 3];
        assert!(rt; fill(&mut input, &mut buffer).is_ok_and(|n| n == 3));
        assert_eq!(rt; buffer, [4, 3, 2]);
        assert!(rt; fill(&mut input, &mut []).is_ok_and(|n| n == 0));
        assert!(rt; fill(&mut input, &mut buffer).is_err_and(|e| e.kind() == ErrorKind::Other));
    }

    // An input that is shorter than the buffer, an empty one, and what a longer one has left.
    #[test]
    fn fills_to_the_end(rt: HostRuntime) {
        let mut buffer = [9u8; 4];
        assert!(rt; fill(&mut &b"abc"[..], &mut buffer).is_ok_and(|n| n == 3));
        assert_eq!(rt; buffer, [97, 98, 99, 9]);
        assert!(rt; fill(&mut &b""[..], &mut buffer).is_ok_and(|n| n == 0));
        let mut input = &b"abcdef"[..];
        assert!(rt; fill(&mut input, &mut buffer).is_ok_and(|n| n == 4));
        assert_eq!(rt; input, b"ef".as_slice());
    }

    // A page is written out when it is full, and at the end; bytes that no page takes are written at once.
    #[test]
    fn writes_pages(rt: HostRuntime) -> io::Result<()> {
        let mut text = Vec::new(rt.alloc());
        let mut room = [0u8; 4];
        let mut pages = Pages::new(&mut text, &mut room);
        pages.put(b"abc")?;
        pages.put(b"")?;
        pages.put(b"de")?;
        pages.put(b"fghij")?;
        pages.put(b"klmn")?;
        pages.flush()?;
        pages.flush()?;
        assert_eq!(rt; text.as_slice(), b"abcdefghijklmn".as_slice());
        Ok(())
    }

    // A page that can't be written out is an error.
    #[test]
    fn fails_with_a_page(rt: HostRuntime) {
        let mut output = Narrow(1);
        let mut room = [0u8; 2];
        let mut pages = Pages::new(&mut output, &mut room);
        assert!(rt; pages.put(b"ab").is_ok());
        assert!(rt; pages.put(b"c").is_err());
        assert!(rt; pages.flush().is_err());
    }

    // A write that fails in mid-stream is not hidden.
    #[test]
    fn writes_in_parts(rt: HostRuntime) {
        let mut output = Narrow(6);
        assert!(rt; write(&mut output, b"abc").is_ok());
        assert!(rt; write_decimal(&mut output, 42).is_ok());
        assert!(rt; write_word(&mut output, 42).is_err());
    }

    // The digits, of the least and the largest.
    #[test]
    fn writes_digits(rt: HostRuntime) -> io::Result<()> {
        let mut text = Vec::new(rt.alloc());
        write_decimal(&mut text, 0)?;
        write(&mut text, b" ")?;
        write_decimal(&mut text, u64::MAX)?;
        write(&mut text, b" ")?;
        write_word(&mut text, 0x2a)?;
        write_word(&mut text, u32::MAX)?;
        assert_eq!(rt;
            text.as_slice(),
            b"0 18446744073709551615 0000002affffffff".as_slice()
        );
        Ok(())
    }
}
