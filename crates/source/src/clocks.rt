// Runs of clocks over any source.
ghost use Rattle.std.specs.Prelude.{◌≡◌};
ghost use Rattle.source.specs.Runs.{Drained, waited};

use crate::bus::Source;

// One clock for each place, a byte wanted in all of them; each place takes what its clock answered.
pub fn drain<S: Source>(source: &mut S, came: &mut [Option<u8>])
    ensures { Drained (S.means source.old) (S.means source.new) came.new }
{
    for place in came.iter_mut() {
        *place = source.clock(true);
    }
}

// Clocks in which no byte is wanted: only time passes.
pub fn wait<S: Source>(source: &mut S, clocks: u32)
    ensures { S.means source.new ≡ waited clocks (S.means source.old) }
{
    source.wait(clocks);
}
