// The patterns and conditions of an entry, where they stand in the words.
ghost use Rattle.std.specs.Prelude.{◌+◌, ◌*◌, ◌<◌, ◌^◌};

// A pattern, by its place: its value is read only where its mask does not decide.
#[derive(Clone, Copy)]
pub struct Pattern<'a> {
    pub words: &'a [u32],
    pub at: usize,
    ghost fits: { at < 2 ^ 63 },
}

// The unmatching patterns that are left from a place on.
#[derive(Clone, Copy)]
pub struct Patterns<'a> {
    pub words: &'a [u32],
    pub at: usize,
    pub left: usize,
    ghost fits: { at + 3 * left < 2 ^ 63 },
}

// A condition, by its place.
#[derive(Clone, Copy)]
pub struct Condition<'a> {
    pub words: &'a [u32],
    pub at: usize,
    ghost fits: { at < 2 ^ 62 },
}

// The conditions that are left from a place on.
#[derive(Clone, Copy)]
pub struct Conditions<'a> {
    pub words: &'a [u32],
    pub at: usize,
    pub left: usize,
    ghost fits: { at + 48 * left < 2 ^ 62 },
}
