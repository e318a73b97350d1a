// Text played as it comes.
ghost use Rattle.std.specs.Prelude.{◌≡◌, ℕ, ◌+◌, [], ◌∷◌, ◌++◌, replicate, IfOk, MatchResult};
ghost use Rattle.refusal.specs.declared.Refusal.TheVariants.{OutOfMemory};
ghost use Rattle.frame.specs.declared.call.Call.TheVariants.{Clock};
ghost use Rattle.replay.specs.Prints.{new, said, next, ended, at_end, Fed, FedSome, Untouched};
ghost use Rattle.replay.specs.Model.{stage_of, held_of};

use crate::digits::LONGEST_LINE;
use crate::machine::Machine;
use crate::player::Player;
use frame::call::Call;
use refusal::Refusal;
use std::alloc::{AllocError, Global};

const LAST_LINE: u16 = 65_535;

// The words of as many clocks as one line can ask for, or a fault.
const LONGEST_ANSWER: usize = 589_828;

// As many clocks as one line can ask for, made once: the clocks of a line are a part of them. Apart from `Player::new`, since with
// this inside it the check of a wrong body ends without an answer.
fn many_clocks(heap: Global) -> Result<Vec<Call>, AllocError>
    ensures { IfOk result (λ v. v.items ≡ replicate 65535 Clock) }
{
    vec![in heap; Call::Clock; u16::MAX as usize]
}

impl Player {
    // A new console with an empty page, before the first line.
    pub fn new(heap: Global) -> Result<Player, Refusal>
        ensures { MatchResult result (λ p. (stage_of p ≡ new) × (held_of p ≡ [])) (λ e. e ≡ OutOfMemory) }
    {
        let machine = Machine::new(heap)?;
        let held = Vec::with_capacity(heap, LONGEST_LINE + 1)?;
        let clocks = many_clocks(heap)?;
        Ok(Player {
            machine,
            held,
            number: 0,
            clocks,
        })
    }

    // The line that is held has ended. Room for the longest answer is made first, so that want of memory alters nothing.
    #[tactic(auto, unfolding(crate::specs::Prints::said, crate::specs::Prints::next))]
    fn play_line(&mut self, out: &mut Vec<u8>) -> Result<(), Refusal>
        ensures { MatchResult result
            (λ _. (out.new.items ≡ out.old.items ++ said (stage_of self.old) (held_of self.old))
            × (stage_of self.new ≡ next (stage_of self.old) (held_of self.old)))
            (λ e. (e ≡ OutOfMemory) × Untouched (stage_of self.old) (held_of self.old) out.old.items
            (stage_of self.new) (held_of self.new) out.new.items) }
    {
        if self.number == LAST_LINE {
            return Ok(());
        }
        out.reserve(LONGEST_ANSWER)?;
        let number = self.number + 1;
        self.machine
            .follow(self.held.as_slice(), number, self.clocks.as_slice(), out)?;
        self.number = number;
        Ok(())
    }

    // One byte of the text. A line too long needs no more than its first 67 characters to be told.
    #[tactic(auto, using(crate::proofs::Feeding::fed_behind), unfolding(crate::specs::Prints::printed_from))]
    fn feed_byte(&mut self, byte: u8, out: &mut Vec<u8>) -> Result<(), Refusal>
        ensures { MatchResult result
            (λ _. Fed (stage_of self.old) (held_of self.old) (byte ∷ []) out.old.items
            (stage_of self.new) (held_of self.new) out.new.items)
            (λ e. (e ≡ OutOfMemory) × Untouched (stage_of self.old) (held_of self.old) out.old.items
            (stage_of self.new) (held_of self.new) out.new.items) }
    {
        if byte == b'\n' {
            self.play_line(out)?;
            self.held.clear();
            return Ok(());
        }
        if self.held.len() > LONGEST_LINE {
            return Ok(());
        }
        self.held.push_reserved(byte);
        Ok(())
    }

    // A part of the text, cut anywhere. Where memory is wanting, the bytes before a line's end have been fed and the others not.
    pub fn feed(&mut self, part: &[u8], out: &mut Vec<u8>) -> Result<(), Refusal>
        ensures { MatchResult result
            (λ _. Fed (stage_of self.old) (held_of self.old) part.now out.old.items
            (stage_of self.new) (held_of self.new) out.new.items)
            (λ e. (e ≡ OutOfMemory) × FedSome (stage_of self.old) (held_of self.old) part.now out.old.items
            (stage_of self.new) (held_of self.new) out.new.items) }
    {
        for byte in part {
            self.feed_byte(*byte, out)?;
        }
        Ok(())
    }

    // The text has ended; its last line may lack its line feed.
    pub fn finish(&mut self, out: &mut Vec<u8>) -> Result<(), Refusal>
        ensures { MatchResult result
            (λ _. (out.new.items ≡ out.old.items ++ ended (stage_of self.old) (held_of self.old))
            × (stage_of self.new ≡ at_end (stage_of self.old) (held_of self.old)) × (held_of self.new ≡ []))
            (λ e. (e ≡ OutOfMemory) × Untouched (stage_of self.old) (held_of self.old) out.old.items
            (stage_of self.new) (held_of self.new) out.new.items) }
    {
        if self.held.is_empty() {
            return Ok(());
        }
        self.play_line(out)?;
        self.held.clear();
        Ok(())
    }
}
