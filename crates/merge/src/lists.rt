// Two lists to be merged, as they are lent: in words, or in bytes. With them goes the oldest number, from which every step is counted.
#[derive(Clone, Copy)]
pub(crate) struct Lists<'a, C> {
    pub(crate) first: &'a [C],
    pub(crate) second: &'a [C],
    pub(crate) oldest: u32,
}

// Two lists, once each was looked at, with which of them stand in order.
#[derive(Clone, Copy)]
pub(crate) struct Looked<'a, C> {
    pub(crate) lists: Lists<'a, C>,
    pub(crate) left: bool,
    pub(crate) right: bool,
}
