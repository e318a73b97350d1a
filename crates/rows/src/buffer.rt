// A row buffer, fed a byte at a time.
ghost use Rattle.std.specs.Prelude.{◌≡◌, ℕ, ◌≤◌, Bool, true, false, length, option_map, if◌then◌else◌};
ghost use Rattle.rows.specs.Takes.{burst_bytes};
ghost use Rattle.rows.specs.Buffer.{full, eat, top, fresh, reads};
ghost use Rattle.rows.specs.Model.{bytes, shown_of, buffer_of, read_of};

use crate::burst::BurstSize;
use crate::kinds::Phase;
use crate::state::{RowBuffer, Showing, Taking};
use video::composition::Composition;
use video::field::Field;

impl RowBuffer {
    // A buffer above the first row.
    pub fn top() -> RowBuffer
        ensures { buffer_of result ≡ top }
    {
        RowBuffer {
            take: Taking {
                phase: Phase::Done,
                room: 0,
                taken: 0,
                over: false,
            },
            show: Showing::new(Field::none(), false),
        }
    }

    // A buffer for the row below another; an idle row takes nothing.
    #[tactic(auto, unfolding(crate::specs::Buffer::fresh))]
    pub fn fresh(composition: &Composition, idle: bool, above: &RowBuffer) -> RowBuffer
        ensures { buffer_of result ≡ fresh composition.now.columns idle above.now.take.over (shown_of above.now.show) }
    {
        RowBuffer {
            take: Taking::new(composition, idle, above.take.over),
            show: Showing::new(above.show.field, above.show.below),
        }
    }

    // The same in place, without a copy, where the row above is no longer needed.
    #[tactic(auto, unfolding(crate::specs::Buffer::fresh))]
    pub(crate) fn renew(&mut self, composition: &Composition, idle: bool)
        ensures { buffer_of self.new ≡ fresh composition.now.columns idle self.old.take.over (shown_of self.old.show) }
    {
        self.show.renew();
        self.take = Taking::new(composition, idle, self.take.over);
    }

    pub fn full(&self) -> bool
        ensures { result ≡ full (buffer_of self.now).take }
    {
        self.take.full()
    }

    // One byte more, in a row that is not full.
    pub(crate) fn eat(&mut self, opaque: bool, burst: BurstSize, b: u8)
        requires { full (buffer_of self.old).take ≡ false }
        ensures { buffer_of self.new ≡ eat opaque (burst_bytes burst) (buffer_of self.old) b }
    {
        if let Some(p) = self.take.eat(opaque, burst, b) {
            self.show.put(p);
        }
    }

    // One byte more; a full row takes none. `opaque` is the composition's and `burst` the frame's, so they are no one value.
    pub fn store(&mut self, opaque: bool, burst: BurstSize, b: u8)
        ensures { buffer_of self.new ≡ (if full (buffer_of self.old).take then buffer_of self.old else eat opaque (burst_bytes burst) (buffer_of self.old) b) }
    {
        if !self.full() {
            self.eat(opaque, burst, b);
        }
    }
}

// Feeds a row from a part of the page until it is full; where the bytes do not suffice, none, and the row is left half read.
pub(crate) fn fill(row: &mut RowBuffer, opaque: bool, burst: BurstSize, part: &[u8]) -> Option<()>
    requires { row.old.take.taken ≡ 0 }
    ensures row { read_of (option_map (λ _. row.new) result) part.now ≡ reads opaque (burst_bytes burst) (buffer_of row.old) part.now }
    ensures fits { bytes (option_map (λ _. row.new) result) ≤ length part.now }
{
    for b in part {
        if row.full() {
            return Some(());
        }
        row.eat(opaque, burst, *b);
    }
    if row.full() { Some(()) } else { None }
}
