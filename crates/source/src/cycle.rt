// The timing of a bus that is free for some clocks and then busy for some, in turn.
ghost use Rattle.std.specs.Prelude.{◌≡◌, ◌+◌, ◌<◌, true, false, MatchResult};
ghost use Rattle.source.specs.Meaning.{later};
ghost use Rattle.source.specs.Buses.{in_turn, no_turn};
ghost use Rattle.refusal.specs.declared.Refusal.TheVariants.{BadBus};

use crate::timing::Timing;
use refusal::Refusal;
use std::alloc::Global;

#[derive(Drop)]
pub struct Cycle {
    free: u8,
    busy: u8,
    // clocks of the present turn that have passed
    gone: u16,
    ghost inside: { gone < free + busy },
}

impl Cycle {
    ghost use Rattle.source.specs.Held.{turns_of};

    pub(crate) fn new(free: u8, busy: u8) -> Result<Cycle, Refusal>
        ensures { MatchResult result
            (λ c. (no_turn free busy ≡ false) × (turns_of c ≡ in_turn free busy 0))
            (λ why. (why ≡ BadBus) × (no_turn free busy ≡ true)) }
    {
        if free == 0 && busy == 0 {
            return Err(Refusal::BadBus);
        }
        Ok(Cycle {
            free,
            busy,
            gone: 0,
        })
    }

    // A turn that is over begins anew.
    #[tactic(auto, using(crate::proofs::Rounds::turn_goes))]
    fn pass(&mut self)
        ensures { turns_of self.new ≡ later (turns_of self.old) }
    {
        if self.gone + 1 == self.turn() {
            self.gone = 0;
        } else {
            self.gone += 1;
        }
    }

    fn turn(&self) -> u16
        ensures { result ≡ self.now.free + self.now.busy }
    {
        self.free as u16 + self.busy as u16
    }
}

impl Timing for Cycle {
    ghost use Rattle.source.specs.Held.{turns_of};

    ghost free = { turns_of };

    fn always_free(_heap: Global) -> Cycle {
        Cycle {
            free: 1,
            busy: 0,
            gone: 0,
        }
    }

    #[tactic(auto, using(crate::proofs::Rounds::turn_now))]
    fn clock(&mut self) -> bool {
        let free = self.gone < self.free as u16;
        self.pass();
        free
    }

    fn wait(&mut self, clocks: u32) {
        let gone = self.gone as u64 + clocks as u64;
        self.gone = (gone % self.turn() as u64) as u16;
    }
}
