// The rows of a page, one below another.
ghost use Rattle.std.specs.Prelude.{ℕ, ◌+◌, ◌-◌, ◌<◌, ◌≤◌, length, option_map};
ghost use Rattle.video.specs.Composition.{shape_of};
ghost use Rattle.rows.specs.Takes.{burst_bytes};
ghost use Rattle.rows.specs.Stands.{Behind, Next, Located};

use crate::buffer::fill;
use crate::found::Found;
use crate::page::blank;
use crate::reader::PageReader;
use crate::state::RowBuffer;

impl PageReader<'_> {
    // From row number `above`, which was read, to the row below it; where the page does not suffice, none, and `found` is left half read.
    fn next_row(&self, above: u8, found: &mut Found) -> Option<()>
        requires number { above < 255 }
        requires within { found.old.place + found.old.row.take.taken ≤ length self.now.page.now }
        ensures { Behind (shape_of self.now.composition) (burst_bytes self.now.burst) self.now.page.now above (found.old.place + found.old.row.take.taken) found.old.row
            → Next (shape_of self.now.composition) (burst_bytes self.now.burst) self.now.page.now above (option_map (λ _. found.new) result) }
    {
        found.place = found.end();
        let idle = blank(&self.composition, above + 1);
        found.row.renew(&self.composition, idle);
        fill(
            &mut found.row,
            self.composition.opaque,
            self.burst,
            &self.page[found.place..],
        )
    }

    // A row, read with all rows above it; none where the page does not suffice.
    pub(crate) fn locate(&self, row: u8) -> Option<Found>
        requires { 1 ≤ row }
        ensures { Located (shape_of self.now.composition) (burst_bytes self.now.burst) self.now.page.now (row - 1) result }
    {
        let mut found = Found {
            place: 0,
            row: RowBuffer::top(),
        };
        for above in 0..row {
            self.next_row(above, &mut found)?;
        }
        Some(found)
    }
}
