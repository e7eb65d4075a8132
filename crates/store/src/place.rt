// Part of a text.

// Where it begins, and how many bytes it has.
#[derive(Clone, Copy, Default)]
pub struct Place {
    pub start: usize,
    pub len: usize,
}
