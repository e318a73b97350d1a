// The four parameters of Reset.
#[derive(Clone, Copy, PartialEq, Eq, Debug)]
pub struct ResetParameters {
    pub first: u8,
    pub second: u8,
    pub third: u8,
    pub fourth: u8,
}
