// Making a page, and handing it out.
ghost use Rattle.std.specs.Prelude.{◌≡◌, ◌<◌, ◌≤◌, [], length, IfOk, MatchResult};
ghost use Rattle.source.specs.Held.{bytes_of, rest_of};
ghost use Rattle.source.specs.Meaning.{first_of, behind_first, handed, left};
ghost use Rattle.refusal.specs.declared.Refusal.TheVariants.{PageTooLong};

use super::Page;
use refusal::Refusal;
use std::alloc::{AllocError, Global};

const LONGEST: usize = 16_384;

pub(crate) fn check_length(page: &[u8]) -> Result<(), Refusal>
    ensures { MatchResult result (λ _. length page.now ≤ 16384) (λ why. (why ≡ PageTooLong) × (16384 < length page.now)) }
{
    if page.len() > LONGEST {
        return Err(Refusal::PageTooLong);
    }
    Ok(())
}

impl Page {
    pub(crate) fn empty(heap: Global) -> Page
        ensures { (bytes_of result ≡ []) × (rest_of result ≡ []) }
    {
        Page {
            bytes: Vec::new(heap),
            at: 0,
        }
    }

    pub(crate) fn copied(heap: Global, page: &[u8]) -> Result<Page, AllocError>
        requires { length page.now ≤ 16384 }
        ensures { IfOk result (λ p. (bytes_of p ≡ page.now) × (rest_of p ≡ page.now)) }
    {
        let bytes = Vec::from_slice(heap, page)?;
        Ok(Page { bytes, at: 0 })
    }

    pub(crate) fn rewind(&mut self)
        ensures page { bytes_of self.new ≡ bytes_of self.old }
        ensures rest { rest_of self.new ≡ bytes_of self.old }
    {
        self.at = 0;
    }

    fn next_byte(&mut self) -> Option<u8>
        ensures byte { result ≡ first_of (rest_of self.old) }
        ensures page { bytes_of self.new ≡ bytes_of self.old }
        ensures rest { rest_of self.new ≡ behind_first (rest_of self.old) }
    {
        let byte = self.bytes.get(self.at).copied()?;
        self.at += 1;
        Some(byte)
    }

    // One clock of a source over this page, its bus free or not.
    pub(crate) fn clock(&mut self, wanted: bool, free: bool) -> Option<u8>
        ensures byte { result ≡ handed wanted free (rest_of self.old) }
        ensures page { bytes_of self.new ≡ bytes_of self.old }
        ensures rest { rest_of self.new ≡ left wanted free (rest_of self.old) }
    {
        if wanted && free {
            self.next_byte()
        } else {
            None
        }
    }
}
