// The kind of value that a sheet's ring agrees on.
#[derive(Clone, Copy, PartialEq, Eq, Debug)]
pub enum Kind {
    Blocks,
    Orders,
}
