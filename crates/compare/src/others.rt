// The other decoder of each table: what its paper says of the bits, written out by hand. Nothing
// here knows of masks, entries' words or trees.
// kept: numbers as the papers have them: another reading than the libraries', whose mistakes it must not share.
use Named::{Ambiguous, Entry, Nothing};

// What a word names: an entry, by its number in the order that the paper has them.
#[derive(Clone, Copy, PartialEq, Eq)]
pub enum Named {
    Entry(u32),
    Nothing,
    Ambiguous,
}

impl From<Option<u32>> for Named {
    fn from(found: Option<u32>) -> Named {
        found.map_or(Nothing, Entry)
    }
}

// Where a table stands.
#[derive(Clone, Copy)]
pub enum Source {
    Printed,
    TwoZeros,
    WithThird,
    MoreBits,
    Figure1,
    Example1,
    Example4,
    Example5,
    Default,
    Example6,
    Example7,
    Table1,
    Table2,
    Significant,
    Bld,
    AddBefore,
    AddAfter,
    Disjoint,
    Overlap,
    Mixed,
    Packed,
}

// Document 01: 1- is the one entry.
fn printed(w: u32) -> Named {
    if (w >> 1) & 1 == 1 { Entry(0) } else { Nothing }
}

// Two patterns, of which neither is more specific.
fn either(first: bool, second: bool) -> Named {
    if first && second {
        return Ambiguous;
    }
    if first {
        return Entry(0);
    }
    if second { Entry(1) } else { Nothing }
}

// Document 01: 0-- and --0.
fn two_zeros(w: u32) -> Named {
    either((w >> 2) & 1 == 0, w & 1 == 0)
}

// Document 01: "With 0-0 added .. word 0 selects the third."
fn with_third(w: u32) -> Named {
    let found = two_zeros(w);
    if found == Ambiguous { Entry(2) } else { found }
}

// Document 01: "with 0-- and -00 word 0 is ambiguous".
fn more_bits(w: u32) -> Named {
    either((w >> 2) & 1 == 0, w & 3 == 0)
}

// 000, figure 1: "E is a specialisation of A".
fn figure_1(w: u32) -> Named {
    let b0 = (w >> 3) & 1;
    let b1 = (w >> 2) & 1;
    let b2 = (w >> 1) & 1;
    let b3 = w & 1;
    if b0 == 1 {
        return if b3 == 1 { Entry(1) } else { Nothing };
    }
    if b3 == 1 {
        return if b2 == 0 { Entry(2) } else { Entry(3) };
    }
    if b1 == 0 && b2 == 0 {
        Entry(4)
    } else {
        Entry(0)
    }
}

// 000, (1): A is the default where neither B nor C is found, as for "(0,1,0), although A matches".
fn example_1(w: u32) -> Named {
    let b0 = (w >> 2) & 1;
    let b1 = (w >> 1) & 1;
    let b2 = w & 1;
    if b0 == 0 && b1 == 0 {
        return Entry(1);
    }
    if b0 == 1 && b2 == 1 {
        Entry(2)
    } else {
        Entry(0)
    }
}

// 000, (4): "It is unclear which pattern should be selected for e.g. (0,0,0,0)."
fn example_4(w: u32) -> Named {
    let b0 = (w >> 3) & 1;
    let b3 = w & 1;
    either(b0 == 0, b3 == 0)
}

// 000, (5): the three exclude each other. 000 and 111 match none of them.
fn example_5(w: u32) -> Named {
    let b0 = (w >> 2) & 1;
    let b1 = (w >> 1) & 1;
    let b2 = w & 1;
    if b0 == 1 && b1 == 0 {
        return Entry(0);
    }
    if b0 == 0 && b2 == 1 {
        return Entry(1);
    }
    if b1 == 1 && b2 == 0 {
        Entry(2)
    } else {
        Nothing
    }
}

// 000, section 3.1, the first two patterns: "the default node should select A and the decision node
// should use the second bit to check whether B should rather be selected".
fn default_node(w: u32) -> Named {
    if w & 1 == 0 { Entry(1) } else { Entry(0) }
}

// 000, (6): "A is the default node since the bit patterns of B and C are both subsumed."
fn example_6(w: u32) -> Named {
    let b2 = (w >> 1) & 1;
    let b3 = w & 1;
    if w >> 2 != 2 {
        return Nothing;
    }
    if b2 == 1 {
        return Entry(0);
    }
    if b3 == 1 { Entry(1) } else { Entry(2) }
}

// 000, (7): "undecidable as A and B", the default nodes.
fn example_7(w: u32) -> Named {
    match example_6(w) {
        Entry(0) => Ambiguous,
        Entry(1) => Entry(2),
        Entry(2) => Entry(3),
        _ => Nothing,
    }
}

// 001, table I, columns 7, 6 and c.
fn table_1(w: u32) -> Named {
    let c = w & 3;
    match (w >> 6) & 3 {
        0 => Entry(0),
        1 => Entry(1),
        2 => if c < 2 { Entry(2 + c) } else { Nothing },
        _ => Nothing,
    }
}

// 001, table II, the rows with 00 in front: A's conditions leave to E, F and G what they have.
fn table_2_front_00(a: u32, c: u32) -> Named {
    if a == 3 {
        return Entry(6);
    }
    if a != 0 {
        return Entry(0);
    }
    match c {
        1 => Entry(4),
        2 => Entry(5),
        _ => Entry(0),
    }
}

// 001, table II, with its column of exclusion conditions. No two of its rows, the conditions
// counted, have a word in common.
fn table_2(w: u32) -> Named {
    let a = (w >> 4) & 3;
    let c = w & 3;
    match (w >> 6) & 3 {
        0 => table_2_front_00(a, c),
        1 => if a == 3 { Entry(6) } else { Entry(1) },
        2 => if c < 2 { Entry(2 + c) } else { Nothing },
        _ => Nothing,
    }
}

// 001, section IV-A: bits 0 and 3 are significant, and split the three entries. The other bits of
// the one that is left must be its own.
fn significant(w: u32) -> Named {
    let middle = (w >> 1) & 3;
    match ((w >> 2) & 2) | (w & 1) {
        // 0--0: 0100
        0 => if middle == 2 { Entry(0) } else { Nothing },
        // 0--1: 01-1
        1 => if 2 <= middle { Entry(1) } else { Nothing },
        // 1--0: 11-0
        2 => if 2 <= middle { Entry(2) } else { Nothing },
        // 1--1
        _ => Nothing,
    }
}

// 002, figure 3: the codes 0xf800 + 16 * register + immediate, for 32 registers and immediates
// below 8.
fn bld(w: u32) -> Named {
    if 0xf800 <= w && w < 0xf800 + 16 * 32 && w % 16 < 8 {
        Entry(0)
    } else {
        Nothing
    }
}

// 002, figure 4: 000011 in front.
fn add(w: u32) -> bool {
    w >> 10 == 3
}

// Four descriptions of one code, "duplicate" ones: none is more specific.
fn add_before(w: u32) -> Named {
    if add(w) { Ambiguous } else { Nothing }
}

fn add_after(w: u32) -> Named {
    if add(w) { Entry(0) } else { Nothing }
}

// 003, figure 1 (a).
fn disjoint(w: u32) -> Named {
    if (w >> 4) & 1 == 1 {
        return Entry(3);
    }
    if (w >> 3) & 1 == 1 {
        return Entry(2);
    }
    Entry((w >> 2) & 1)
}

// 003, figure 1 (b): "bit string 11000 matches both the third and the fourth entry".
fn overlap(w: u32) -> Named {
    match (w >> 3) & 3 {
        3 => Ambiguous,
        2 => Entry(3),
        1 => Entry(2),
        _ => if (w >> 2) & 1 == 1 {
            Entry(0)
        } else {
            Entry(1)
        },
    }
}

// 004, section 2.3, third stage: the lower half decides which instruction of 32 bits it is.
fn resolve_32(low: u32) -> Named {
    match low >> 8 {
        0x87 => Entry(3),
        0xc7 => Entry(4),
        _ => Nothing,
    }
}

// 004, section 2.3, first and second stage: the upper half alone, "the rules with more valid
// digits have higher priority".
fn mixed(w: u32) -> Named {
    let high = w >> 16;
    if high >> 8 == 0xd6 {
        return Entry(0);
    }
    if high >> 8 == 0xd7 {
        return Entry(1);
    }
    if high >> 11 == 0x1a {
        return Entry(2);
    }
    if high == 0x5607 {
        resolve_32(w & 0xffff)
    } else {
        Nothing
    }
}

// 004, section 2.2: "the 16-bit instruction 9284", "the 32-bit instruction cda9000f".
fn packed(w: u32) -> Named {
    if w >> 16 == 0x9284 {
        return Entry(0);
    }
    if w == 0xcda9000f { Entry(1) } else { Nothing }
}

// Words of 32 bits: every upper half over a lower half, every lower half below an upper half, and
// every upper half over the lower half 0, 65,536 words each.
fn halves_at(n: u32, low: u32, high: u32) -> u32 {
    let half = n & 0xffff;
    match n >> 16 {
        0 => (half << 16) | low,
        1 => half | high,
        _ => half << 16,
    }
}

// 001, tables I and II: the columns a, b, c and f of an instruction, from the left.
fn fields_001(entry: u32, w: u32) -> [u32; 3] {
    let a = (w >> 4) & 3;
    let b = (w >> 2) & 3;
    let c = w & 3;
    match entry {
        0 | 1 => [a, b, c],
        2 | 3 => [a, b, 0],
        4 | 5 => [b, 0, 0],
        _ => [(w >> 6) & 1, b, c],
    }
}

// 004, table 2: the digits n, C and L of a machine instruction, from the left.
fn fields_004(entry: u32, w: u32) -> [u32; 3] {
    let high = w >> 16;
    match entry {
        0 | 1 => [high & 0xff, 0, 0],
        2 => [(high >> 8) & 7, high & 0xff, 0],
        _ => [w & 0xff, 0, 0],
    }
}

// 002, figure 3: the register and the immediate.
fn fields_bld(w: u32) -> [u32; 3] {
    [(w >> 4) & 31, w & 7, 0]
}

// 002, figure 4: the letters of 000011baaaaabbbb. The operand b is split: its highest bit is one
// field, and the four others are another.
fn fields_add(w: u32) -> [u32; 3] {
    [(w >> 9) & 1, (w >> 4) & 31, w & 15]
}

impl Source {
    // What the other decoder of a table says of a word.
    pub fn select(self, w: u32) -> Named {
        match self {
            Source::Printed => printed(w),
            Source::TwoZeros => two_zeros(w),
            Source::WithThird => with_third(w),
            Source::MoreBits => more_bits(w),
            Source::Figure1 => figure_1(w),
            Source::Example1 => example_1(w),
            Source::Example4 => example_4(w),
            Source::Example5 => example_5(w),
            Source::Default => default_node(w),
            Source::Example6 => example_6(w),
            Source::Example7 => example_7(w),
            Source::Table1 => table_1(w),
            Source::Table2 => table_2(w),
            Source::Significant => significant(w),
            Source::Bld => bld(w),
            Source::AddBefore => add_before(w),
            Source::AddAfter => add_after(w),
            Source::Disjoint => disjoint(w),
            Source::Overlap => overlap(w),
            Source::Mixed => mixed(w),
            Source::Packed => packed(w),
        }
    }

    // The word with the bits below the selected entry's own zero. Only 004 has entries that are short:
    // three in its table 2, one of the two that it packs.
    pub fn own(self, entry: u32, w: u32) -> u32 {
        let short = match self {
            Source::Mixed => 3,
            Source::Packed => 1,
            _ => 0,
        };
        if entry < short { w & 0xffff0000 } else { w }
    }

    // The words that are compared: of 32 bits those with a half of a long entry, else every word of the
    // width.
    pub fn word_at(self, n: u32) -> u32 {
        match self {
            Source::Mixed => halves_at(n, 0x8712, 0x56070000),
            Source::Packed => halves_at(n, 0x000f, 0xcda90000),
            _ => n,
        }
    }

    // Whether the values of a word's fields, zero where there is none, are those that the paper names.
    // Papers 000 and 003 name none, and 001 none in section IV-A.
    pub fn has_fields(self, entry: u32, w: u32, values: [u32; 3]) -> bool {
        match self {
            Source::Table1 | Source::Table2 => fields_001(entry, w) == values,
            Source::Bld => fields_bld(w) == values,
            Source::AddAfter => fields_add(w) == values,
            Source::Mixed => fields_004(entry, w) == values,
            _ => true,
        }
    }
}
