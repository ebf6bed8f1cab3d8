// 004, section 2.2: the bytes of its example, read as its algorithm 1 reads them, against the steps
// and the listing of the image that they are.
// kept: numbers as the papers have them: another reading than the libraries', whose mistakes it must not share.
ghost use Rattle.std.specs.Prelude.{◌≤◌};

use crate::others::{Named, Source};
use crate::says::say_refusal;
use crate::{TREE_ROOM, first, tables};
use image::HalfwordAddress;
use std::io;
use std::io::Write;

// "if two consecutive bytes 84 and 92 appear .. if four consecutive bytes a9, cd, 0f, 00".
const BYTES: [u8; 6] = [0x84, 0x92, 0xa9, 0xcd, 0x0f, 0x00];

// How many halfwords they are.
const HALVES: u32 = 3;

// "packet[0]" and "packet[1]" of an address: "the low bits .. at a low memory address". Zero after the last byte.
fn half_at(bytes: &[u8], at: u32) -> u32 {
    let offset = 2 * (at as usize);
    let byte = |i: usize| bytes.get(i).map_or(0, |b| u32::from(*b));
    (byte(offset + 1) << 8) | byte(offset)
}

// What an address names: "the first stage to read high 16bit", "the second .. low".
fn named_at(at: u32) -> Named {
    if HALVES <= at {
        return Named::Nothing;
    }
    let high = half_at(&BYTES, at);
    Source::Packed.select((high << 16) | half_at(&BYTES, at + 1))
}

// The item of an address. No entry here lacks its lower half: the last halfword by itself begins none, whatever
// would follow it.
fn item(named: Named, at: u32) -> u32 {
    match named {
        Named::Entry(entry) => at | (entry << 20) | (12 << 28),
        _ => at | (13 << 28),
    }
}

// The halfwords of an entry: the second has two.
fn halves(named: Named) -> u32
    ensures { result ≤ 2 }
{
    if named == Named::Entry(1) { 2 } else { 1 }
}

// Whether an item and the next address are those of an address.
fn is_item(at: u32, word: u32, next: u32) -> bool {
    let named = named_at(at);
    at < HALVES && word == item(named, at) && next == at + halves(named)
}

// Whether a step from an address gives its item, or the end.
fn steps(tree: &[u32], at: u32) -> bool {
    match image::step(&tables::PACKED, tree, &BYTES, HalfwordAddress(at)) {
        Ok(Some(step)) => is_item(at, step.word, step.next.0),
        Ok(None) => HALVES <= at,
        Err(_) => false,
    }
}

// Whether the items are those of the addresses that the paper's reading comes to, from 0 to the end.
fn is_listing(items: &[u32]) -> bool {
    let mut at = 0;
    for word in items {
        let named = named_at(at);
        if HALVES <= at || *word != item(named, at) {
            return false;
        }
        at += halves(named);
    }
    at == HALVES
}

// How many steps all agree, or the first that does not.
fn say_steps(output: &mut impl Write, tree: &[u32]) -> io::Result<()> {
    match (0..=HALVES).find(|at| !steps(tree, *at)) {
        Some(at) => write!(output, "{at} steps, differs, "),
        None => write!(output, "{} steps, same, ", HALVES + 1),
    }
}

// The listing of the bytes by a tree: the number of items, and whether they are those.
fn say_list(output: &mut impl Write, tree: &[u32]) -> io::Result<()> {
    let mut items = [0u32; 4];
    match image::list(&tables::PACKED, tree, &BYTES, &mut items) {
        Ok(count) => {
            let said = if is_listing(first(&items, count)) {
                "same"
            } else {
                "differ"
            };
            write!(output, "{count} items, {said}")
        }
        Err(refusal) => say_refusal(output, refusal),
    }
}

// The line of the bytes. Without a tree no step and no listing agrees.
pub fn report_bytes(output: &mut impl Write) -> io::Result<()> {
    let mut room = [0u32; TREE_ROOM];
    let count = maker::generate(&tables::PACKED, &mut room).unwrap_or(0);
    let tree = first(&room, count);
    write!(output, "004 bytes: ")?;
    say_steps(output, tree)?;
    say_list(output, tree)?;
    writeln!(output)
}
