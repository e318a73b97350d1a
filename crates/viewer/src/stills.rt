// A page, listed by its stills.
use crate::failure::Failure;
use crate::show::Viewing;
use sheet::still::Stills;
use std::io::Write;

impl Viewing<'_> {
    pub(crate) fn stills(&self, rt: &HostRuntime) -> Result<(), Failure> {
        let stills = Stills::new(rt.alloc(), &self.screen, self.page);
        let mut out = Vec::new(rt.alloc());
        // the rows above one that is refused are shown all the same
        let listed = match (self.request.row, self.request.words) {
            (None, false) => stills.put_stills(&mut out),
            (None, true) => stills.put_words(&mut out),
            (Some(row), false) => stills.put_still(row, &mut out),
            (Some(row), true) => stills.put_row_words(row, &mut out),
        };
        rt.stdout().write_all(out.as_slice())?;
        listed?;
        Ok(())
    }
}
