// A page in memory, and how far it has been handed out: a place and no iterator, since a page begins again.
ghost use Rattle.std.specs.Prelude.{◌≤◌, vec_len};

pub(crate) mod reading;

#[derive(Drop)]
pub(crate) struct Page {
    bytes: Vec<u8>,
    at: usize,
    ghost within: { at ≤ vec_len bytes },
    ghost short: { vec_len bytes ≤ 16384 },
}
