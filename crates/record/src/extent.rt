// The extent of a field.

// The tag and the length of a field, as its directory entry has them. Any numbers may stand here; `write` refuses those that no entry can have.
#[derive(Clone, Copy, Debug, PartialEq, Eq)]
pub struct Extent {
    pub tag: u16,
    pub size: usize,
}
