// A byte that is offered for one clock: a source whose page is that byte, or nothing.
ghost use Rattle.std.specs.Prelude.{◌≡◌};
ghost use Rattle.ffi.specs.Offers.{offer_of, offer, gone};

use source::Source;

#[derive(Drop)]
pub(crate) struct Offered {
    byte: Option<u8>,
    // what of it has not been handed out
    left: Option<u8>,
}

impl Offered {
    pub(crate) fn new(byte: Option<u8>) -> Offered
        ensures { offer_of result ≡ offer byte }
    {
        Offered { byte, left: byte }
    }

    // There was a byte, and it has been handed out.
    pub(crate) fn gone(&self) -> bool
        ensures { result ≡ gone (offer_of self.now) }
    {
        self.byte.is_some() && self.left.is_none()
    }
}

impl Source for Offered {
    ghost means = { offer_of };

    fn begin(&mut self) {
        self.left = self.byte;
    }

    fn clock(&mut self, wanted: bool) -> Option<u8> {
        if wanted { self.left.take() } else { None }
    }
}
