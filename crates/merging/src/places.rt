// A place in each of two lists, and whose name is the next there.

// A place in each of the two lists.
#[derive(Clone, Copy, PartialEq, Eq)]
pub struct Places {
    pub first: usize,
    pub second: usize,
}

// Which list the next name of the two stands in. Whoever matches it does something else in each case: no closures.
#[derive(Clone, Copy)]
pub enum Turn {
    First,
    Second,
    Both,
    Neither,
}
