// The tables, in the words of document 01: a head word, mask and value, then fields. A paper's
// leftmost bit is the highest here. Papers 000 and 003 name no fields: each run of bits that a
// pattern leaves free is one. Labels are the letters' ASCII codes, or the paper's numbers.

// Document 01, mktree: width 2, 1-.
pub const PRINTED: [u32; 5] = [0x10010002, 0x20050210, 0x2, 0x2, 0x30000001];

// Document 01, 'Worked table', Run: width 3.
pub const TWO_ZEROS: [u32; 9] = [
    0x10020003,
    // 0--
    0x20000310, 0x4, 0x0, 0x30000002,
    // --0
    0x20010310, 0x1, 0x0, 0x30000102,
];

// The same "with 0-0 added".
pub const WITH_THIRD: [u32; 13] = [
    0x10030003,
    // 0--
    0x20000310, 0x4, 0x0, 0x30000002,
    // --0
    0x20010310, 0x1, 0x0, 0x30000102,
    // 0-0
    0x20020310, 0x5, 0x0, 0x30000101,
];

// Document 01, 'Mistakes to exclude': "more mask bits counted as more specific".
pub const MORE_BITS: [u32; 9] = [
    0x10020003,
    // 0--
    0x20000310, 0x4, 0x0, 0x30000002,
    // -00
    0x20010310, 0x3, 0x0, 0x30000201,
];

// 000, figure 1. Our copy of the figure prints D as 0 1 1, without its star: of the four places for
// it only this one leaves no ambiguous word.
pub const FIGURE_1: [u32; 20] = [
    0x10050004,
    // A 0**0
    0x20410410, 0x9, 0x0, 0x30000102,
    // B 1**1
    0x20420410, 0x9, 0x9, 0x30000102,
    // C 0*01
    0x20430410, 0xb, 0x1, 0x30000201,
    // D 0*11
    0x20440410, 0xb, 0x3, 0x30000201,
    // E 0000
    0x20450400, 0xf, 0x0,
];

// 000, (1) in section 2.
pub const EXAMPLE_1: [u32; 13] = [
    0x10030003,
    // A ***
    0x20410310, 0x0, 0x0, 0x30000003,
    // B 00*
    0x20420310, 0x6, 0x0, 0x30000001,
    // C 1*1
    0x20430310, 0x5, 0x5, 0x30000101,
];

// 000, (4) in section 2. The paper builds no tree for it.
pub const EXAMPLE_4: [u32; 9] = [
    0x10020004,
    // A 0***
    0x20410410, 0x8, 0x0, 0x30000003,
    // B ***0
    0x20420410, 0x1, 0x0, 0x30000103,
];

// 000, (5) in section 2. The paper builds no tree for it, since insignificant bits must be tested;
// document 01 does.
pub const EXAMPLE_5: [u32; 13] = [
    0x10030003,
    // A 10*
    0x20410310, 0x6, 0x4, 0x30000001,
    // B 0*1
    0x20420310, 0x5, 0x1, 0x30000101,
    // C *10
    0x20430310, 0x3, 0x2, 0x30000201,
];

// 000, section 3.1, the first two patterns. Our copy spoils the first: it must be "(0,0), {}, A".
pub const DEFAULT: [u32; 9] = [
    0x10020002,
    // A **
    0x20410210, 0x0, 0x0, 0x30000002,
    // B *0
    0x20420210, 0x1, 0x0, 0x30000101,
];

// 000, (6) in section 3.1.
pub const EXAMPLE_6: [u32; 12] = [
    0x10030004,
    // A 10**
    0x20410410, 0xc, 0x8, 0x30000002,
    // B 100*
    0x20420410, 0xe, 0x8, 0x30000001,
    // C 1000
    0x20430400, 0xf, 0x8,
];

// 000, (7) in section 3.1. The paper builds no tree for it.
pub const EXAMPLE_7: [u32; 16] = [
    0x10040004,
    // A 10**
    0x20410410, 0xc, 0x8, 0x30000002,
    // B 10**
    0x20420410, 0xc, 0x8, 0x30000002,
    // C 100*
    0x20430410, 0xe, 0x8, 0x30000001,
    // D 1000
    0x20440400, 0xf, 0x8,
];

// 001, table I, with the fields a, b and c of its columns.
pub const TABLE_1: [u32; 23] = [
    0x10040008,
    // A 00aabbcc
    0x20410830, 0xc0, 0x00, 0x30000402, 0x30000202, 0x30000002,
    // B 01aabbcc
    0x20420830, 0xc0, 0x40, 0x30000402, 0x30000202, 0x30000002,
    // C 10aabb00
    0x20430820, 0xc3, 0x80, 0x30000402, 0x30000202,
    // D 10aabb01
    0x20440820, 0xc3, 0x81, 0x30000402, 0x30000202,
];

// 001, table II, the worked table of document 01. For A the text of section III prints the
// unmatching patterns 00 and 01 once, against the table and equation 2's example: the table decides.
pub const TABLE_2: [u32; 52] = [
    0x10070008,
    // A 00aabbcc
    0x20410832, 0xc0, 0x00, 0x30000402, 0x30000202, 0x30000002,
    // unless a = 00 and c is neither 00 nor 11
    0x40000002, 0x30, 0x00, 0x50000000, 0x03, 0x00, 0x50000000, 0x03, 0x03,
    // or a = 11
    0x40000000, 0x30, 0x30,
    // B 01aabbcc
    0x20420831, 0xc0, 0x40, 0x30000402, 0x30000202, 0x30000002,
    // unless a = 11
    0x40000000, 0x30, 0x30,
    // C 10aabb00
    0x20430820, 0xc3, 0x80, 0x30000402, 0x30000202,
    // D 10aabb01
    0x20440820, 0xc3, 0x81, 0x30000402, 0x30000202,
    // E 0000bb01
    0x20450810, 0xf3, 0x01, 0x30000202,
    // F 0000bb10
    0x20460810, 0xf3, 0x02, 0x30000202,
    // G 0f11bbcc
    0x20470830, 0xb0, 0x30, 0x30000601, 0x30000202, 0x30000002,
];

// 001, section IV-A, where significant bits are explained.
pub const SIGNIFICANT: [u32; 12] = [
    0x10030004,
    // X 0100
    0x20580400, 0xf, 0x4,
    // Y 01-1
    0x20590410, 0xd, 0x5, 0x30000101,
    // Z 11-0
    0x205a0410, 0xd, 0xc, 0x30000101,
];

// 002, figure 3: BLD reg, imm. The code and the mask are those that the paper's rule makes of the
// cells: what no register and no immediate changes. Our copy prints the registers' mask as 0xffff8,
// a digit too long for codes of 16 bits: 0xfff8, as the immediates of 3 bits have it.
pub const BLD: [u32; 6] = [
    0x10010010,
    // 1111 100r rrrr 0iii
    0x20011020, 0xfe08, 0xf800, 0x30000405, 0x30000003,
];

// 002, figure 4, left: four descriptions of one code, labelled with their lines. A field is one run
// of bits, so that the operand b is two: bit 9, and bits 3-0.
pub const ADD_BEFORE: [u32; 25] = [
    0x10040010,
    // add reg_1, reg_1: 000011baaaaabbbb
    0x20011030, 0xfc00, 0x0c00, 0x30000901, 0x30000405, 0x30000004,
    // add reg_1, imm: 000011baaaaabbbb
    0x20041030, 0xfc00, 0x0c00, 0x30000901, 0x30000405, 0x30000004,
    // add imm, reg_1: 000011baaaaabbbb
    0x20071030, 0xfc00, 0x0c00, 0x30000901, 0x30000405, 0x30000004,
    // add imm, imm: 000011baaaaabbbb
    0x200a1030, 0xfc00, 0x0c00, 0x30000901, 0x30000405, 0x30000004,
];

// 002, figure 4, right: the one that is left.
pub const ADD_AFTER: [u32; 7] = [
    0x10010010,
    // add reg_1, reg_1: 000011baaaaabbbb
    0x20011030, 0xfc00, 0x0c00, 0x30000901, 0x30000405, 0x30000004,
];

// 003, figure 1 (a). The probabilities, 0.25 each, have no place in document 01.
pub const DISJOINT: [u32; 17] = [
    0x10040005,
    // l1 000--
    0x20010510, 0x1c, 0x00, 0x30000002,
    // l2 001--
    0x20020510, 0x1c, 0x04, 0x30000002,
    // l3 01---
    0x20030510, 0x18, 0x08, 0x30000003,
    // l4 1----
    0x20040510, 0x10, 0x10, 0x30000004,
];

// 003, figure 1 (b). The paper forbids it; document 01 finds its words ambiguous.
pub const OVERLAP: [u32; 18] = [
    0x10040005,
    // l1 001--
    0x20010510, 0x1c, 0x04, 0x30000002,
    // l2 000--
    0x20020510, 0x1c, 0x00, 0x30000002,
    // l3 -1---
    0x20030520, 0x08, 0x08, 0x30000401, 0x30000003,
    // l4 1----
    0x20040510, 0x10, 0x10, 0x30000004,
];

// 004, table 2. What has 16 bits is a short entry, at the top of the word. Mnemonics and the names
// of operands have no place in document 01.
pub const MIXED: [u32; 22] = [
    0x10050020,
    // MOVB AR6: 1101 0110 CCCC CCCC
    0x20011010, 0xff000000, 0xd6000000, 0x30001008,
    // MOVB AR7: 1101 0111 CCCC CCCC
    0x20021010, 0xff000000, 0xd7000000, 0x30001008,
    // MOVB XAR5, as the paper prints it: 1101 0nnn CCCC CCCC
    0x20031020, 0xf8000000, 0xd0000000, 0x30001803, 0x30001008,
    // MAC *XAR7++: 0101 0110 0000 0111 1000 0111 LLLL LLLL
    0x20042010, 0xffffff00, 0x56078700, 0x30000008,
    // MAC *XAR7: 0101 0110 0000 0111 1100 0111 LLLL LLLL
    0x20052010, 0xffffff00, 0x5607c700, 0x30000008,
];

// 004, section 2.2, the instructions of its byte order example. Which of their bits are operands
// the paper does not say: here none is.
pub const PACKED: [u32; 7] = [
    0x10020020,
    // 9284
    0x20011000, 0xffff0000, 0x92840000,
    // cda9000f
    0x20022000, 0xffffffff, 0xcda9000f,
];
