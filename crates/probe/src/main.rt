// Answers the requests on standard input, each by one line, until the input ends or a request stops
// it. The libraries decide what an answer is and how a number is written. The functions here are
// proved safe; what they print is tested. A read or a write that fails ends the program with its error.
// kept: room of a fixed size, as the libraries have it: a program that asked for memory could be refused it, for which no paper has a line.
#![tactic(auto)]

ghost use Rattle.std.specs.Prelude.{◌≡◌, length};

use image::HalfwordAddress;
use input::{Asked, Piece, Request};
use output::{Done, Lines};
use std::io;
use std::io::Write;

mod input;
mod output;

// The most that is taken from standard input.
const MOST_BYTES: usize = 1048576;

// What is read: one byte more, to see that there is more.
const ROOM_BYTES: usize = MOST_BYTES + 1;

const MOST_WORDS: usize = 262144;

// Room for the buffers of the requests.
#[derive(Drop)]
struct Rooms<'a> {
    words: &'a mut [u32],
    bytes: &'a mut [u8],
}

// A buffer to lend: a copy of a part, since the other parts are lent at the same time.
fn lent<'a, T: Copy>(room: &'a mut [T], part: &[T]) -> &'a mut [T] {
    let size = part.len().min(room.len());
    let buffer = &mut room[..size];
    buffer.copy_from_slice(&part[..size]);
    buffer
}

// The first items, so many or all.
fn first<T>(items: &[T], count: usize) -> &[T] {
    &items[..count.min(items.len())]
}

// What follows a request's number on its line.
impl<'a, W: Write> Lines<'a, W> {
    fn read(&mut self, r: &Request) -> Done {
        self.answer(table::read(r.parts[0].words), |lines, table| {
            lines.number(table.width)?;
            lines.count(table.entries.count)
        })
    }

    fn lookup(&mut self, r: &Request) -> Done {
        let answer = selection::lookup(r.parts[0].words, r.parts[1].number());
        self.answer(answer, |lines, found| lines.entry(found))
    }

    fn generate(&mut self, r: &Request, out: &mut [u32]) -> Done {
        let answer = maker::generate(r.parts[0].words, out);
        self.answer(answer, |lines, count| lines.number(count))?;
        self.buffer(out, |lines, word| lines.word(word))
    }

    fn simulate(&mut self, r: &Request) -> Done {
        let result = kilnumber::kilnumber_walk(r.parts[0].bytes, r.parts[1].number());
        self.put(b" 0 0 00000000")?;
        self.word((result >> 32) as u32)?;
        self.digits((result % 4294967296) as u32)
    }

    fn decode(&mut self, r: &Request, out: &mut [u32]) -> Done {
        let answer = operands::decode(r.parts[0].words, r.parts[1].number(), out);
        self.answer(
            answer,
            |lines, found| lines.entry(found.map(|decoded| decoded.entry)),
        )?;
        self.buffer(out, |lines, word| lines.word(word))
    }

    fn encode(&mut self, r: &Request) -> Done {
        let answer = operands::encode(r.parts[0].words, r.parts[1].number(), r.parts[2].words);
        self.answer(answer, |lines, word| lines.word(word))
    }

    fn check(&mut self, r: &Request) -> Done {
        let answer = checker::check(r.parts[0].words, r.parts[1].words);
        self.answer(answer, |lines, _| lines.put(b" yes"))
    }

    fn step(&mut self, r: &Request) -> Done {
        let address = HalfwordAddress(r.parts[3].number());
        let answer = image::step(
            r.parts[0].words,
            r.parts[1].words,
            r.parts[2].bytes,
            address,
        );
        self.answer(answer, |lines, next| match next {
            Some(step) => {
                lines.word(step.word)?;
                lines.number(step.next.0)?;
                lines.word(step.mask)
            }
            None => lines.put(b" end"),
        })
    }

    fn list(&mut self, r: &Request, out: &mut [u32]) -> Done {
        let answer = image::list(r.parts[0].words, r.parts[1].words, r.parts[2].bytes, out);
        self.answer(answer, |lines, count| lines.number(count))?;
        self.buffer(out, |lines, word| lines.word(word))
    }

    fn walk(&mut self, r: &Request) -> Done {
        let answer = walker::walk(r.parts[0].words, r.parts[1].number());
        self.answer(answer, |lines, walk| {
            lines.entry(walk.entry)?;
            lines.number(walk.count)?;
            lines.word(walk.mask)
        })
    }

    fn mask(&mut self, r: &Request) -> Done {
        let mask = kilnumber::kilnumber_mask(r.parts[0].bytes, r.parts[1].number());
        self.put(b" 0 0 00000000")?;
        self.word(mask)
    }

    fn measure(&mut self, r: &Request) -> Done {
        self.answer(maker::measure(r.parts[0].words), |lines, size| {
            lines.number(size.nodes)?;
            lines.number(size.tests)
        })
    }

    fn cycles(&mut self, r: &Request) -> Done {
        let answer = cost::cycles(r.parts[0].words, r.parts[1].number());
        self.answer(answer, |lines, count| lines.number(count))
    }

    fn signed(&mut self, r: &Request) -> Done {
        let answer = numbers::signed(r.parts[0].number(), r.parts[1].number());
        self.answer(answer, |lines, number| lines.whole(number))
    }

    fn stored(&mut self, r: &Request) -> Done {
        let answer = numbers::stored(r.parts[0].number(), r.parts[1].long());
        self.answer(answer, |lines, value| lines.word(value))
    }

    fn text(&mut self, r: &Request, out: &mut [u8]) -> Done {
        let answer = numbers::put_text(r.parts[0].number(), r.parts[1].number(), out);
        self.answer(answer, |lines, length| lines.number(length))?;
        self.buffer(out, |lines, byte| lines.byte(byte))
    }

    fn changed(&mut self, r: &Request) -> Done {
        let entry = r.parts[1].number();
        let answer = withdrawal::count_changed(r.parts[0].words, entry, r.parts[2].words);
        self.answer(answer, |lines, count| lines.count(count))
    }

    fn answer_to(&mut self, r: &Request, rooms: &mut Rooms) -> Done {
        match r.asked {
            Asked::Read => self.read(r),
            Asked::Lookup => self.lookup(r),
            Asked::Generate => self.generate(r, lent(rooms.words, r.parts[1].words)),
            Asked::Simulate => self.simulate(r),
            Asked::Decode => self.decode(r, lent(rooms.words, r.parts[2].words)),
            Asked::Encode => self.encode(r),
            Asked::Check => self.check(r),
            Asked::Step => self.step(r),
            Asked::List => self.list(r, lent(rooms.words, r.parts[3].words)),
            Asked::Walk => self.walk(r),
            Asked::Mask => self.mask(r),
            Asked::Measure => self.measure(r),
            Asked::Cycles => self.cycles(r),
            Asked::Signed => self.signed(r),
            Asked::Stored => self.stored(r),
            Asked::Text => self.text(r, lent(rooms.bytes, r.parts[2].bytes)),
            Asked::Changed => self.changed(r),
        }
    }

    // The line of a request.
    fn line(&mut self, r: &Request, rooms: &mut Rooms) -> Done {
        self.decimal(r.asked as u32)?;
        self.answer_to(r, rooms)?;
        self.put(b"\n")
    }

    // Where the program stops: the index of a word.
    fn stopped(&mut self, index: usize) -> Done {
        self.put(b"stopped")?;
        self.count(index)?;
        self.put(b"\n")
    }

    // A line for each request, up to one that stops the program.
    fn lines(&mut self, asked: Piece, rooms: &mut Rooms) -> Done {
        if MOST_BYTES < asked.bytes.len() {
            return self.stopped(0);
        }
        let mut rest = asked;
        // bytes that make no whole word are left then, and are no request
        while !rest.bytes.is_empty() {
            let index = asked.words.len() - rest.words.len();
            match rest.take_request() {
                Some(request) => self.line(&request, rooms)?,
                None => return self.stopped(index),
            }
        }
        Ok(())
    }
}

// Zeros. Their length is all that a proof sees of them.
fn zeros<T: Copy + Default, const N: usize>() -> [T; N]
    ensures { N ≡ length result }
{
    [T::default(); N]
}

fn main(rt: HostRuntime) -> io::Result<()> {
    let mut bytes = zeros::<u8, ROOM_BYTES>();
    let got = streams::fill(&mut rt.stdin(), &mut bytes)?;
    let mut space = zeros::<u32, MOST_WORDS>();
    let asked = first(&bytes, got);
    let whole = words::words_of(asked, &mut space);
    let (mut words, mut room) = (zeros::<u32, MOST_WORDS>(), zeros::<u8, ROOM_BYTES>());
    let mut rooms = Rooms {
        words: &mut words,
        bytes: &mut room,
    };
    let mut page = streams::page();
    let output = &mut rt.stdout();
    let mut lines = Lines::new(output, &mut page);
    let asked = Piece {
        bytes: asked,
        words: first(&space, whole),
    };
    lines.lines(asked, &mut rooms)?;
    lines.flush()?;
    Ok(())
}
