// Calls in a row over one source.
ghost use Rattle.std.specs.Prelude.{◌≡◌, ℕ, ◌+◌, ◌≤◌, [], ◌∷◌, ◌++◌, length, drop, MatchResult};
ghost use Rattle.refusal.specs.declared.Refusal.TheVariants.{OutOfMemory};
ghost use Rattle.frame.specs.History.{call_state, call_source, call_answer};
ghost use Rattle.frame.specs.Law.{Harmless, FrameLaw};
ghost use Rattle.console.specs.Model.{state_of};
ghost use Rattle.console.specs.Idle.{Clocks};
ghost use Rattle.console.specs.Room.{HasRoom, Grown};
ghost use Rattle.console.specs.Playing.{Played, On, Lawful};

use crate::state::Console;
use frame::call::{Answer, Call};
use refusal::Refusal;
use source::Source;

// How many of the next calls, at most `most`, are clocks, up to the first that is not.
fn clocks_ahead(calls: &[Call], most: u8) -> u8
    ensures most { result ≤ most }
    ensures clocks { Clocks result calls.now }
{
    calls
        .iter()
        .take(most as usize)
        .take_while(|call| matches!(call, Call::Clock))
        .count() as u8
}

impl Console {
    // One call over a source.
    #[tactic(auto, unfolding(frame::specs::History::call_answer, frame::specs::History::call_state, frame::specs::History::call_source), using(crate::proofs::Plays::told_is, crate::proofs::Plays::told_stroke, crate::proofs::Plays::worded_is))]
    pub fn call<S: Source>(&mut self, source: &mut S, call: Call) -> Answer
        ensures answer { result ≡ call_answer call (state_of self.old) }
        ensures state { state_of self.new ≡ call_state call (state_of self.old) (S.means source.old) }
        ensures source { S.means source.new ≡ call_source call (state_of self.old) (S.means source.old) }
    {
        match call {
            Call::Command(byte) => Answer::from(self.command(byte)),
            Call::Parameter(byte) => Answer::from(self.parameter(byte)),
            Call::Status => Answer::Byte(self.status()),
            Call::Read => Answer::Byte(self.read_parameter()),
            Call::Stroke => Answer::from(self.stroke()),
            Call::Clock => Answer::from(self.clock(source)),
        }
    }

    // One call, whose answer there is room for.
    fn record<S: Source>(&mut self, source: &mut S, call: Call, answers: &mut Vec<Answer>)
        requires { HasRoom answers.old 1 }
        ensures items { answers.new.items ≡ answers.old.items ++ (call_answer call (state_of self.old) ∷ []) }
        ensures room { Grown answers.old answers.new 1 }
        ensures state { state_of self.new ≡ call_state call (state_of self.old) (S.means source.old) }
        ensures source { S.means source.new ≡ call_source call (state_of self.old) (S.means source.old) }
    {
        let answer = self.call(source, call);
        answers.push_reserved(answer);
    }

    // The clocks among the next calls in which nothing begins and no byte is asked for, played at once; how many they are.
    fn idle<S: Source>(
        &mut self,
        source: &mut S,
        calls: &[Call],
        answers: &mut Vec<Answer>,
    ) -> usize
        requires { HasRoom answers.old (length calls.now) }
        ensures on { On (drop result calls.now) (state_of self.new) (S.means source.new) answers.new.items
            calls.now (state_of self.old) (S.means source.old) answers.old.items }
        ensures some { result ≤ length calls.now }
        ensures room { Grown answers.old answers.new result }
    {
        let Some(composition) = self.parts.composition else {
            return 0;
        };
        let idle = self.parts.raster.idle_clocks(&composition);
        let drawn = self
            .parts
            .raster
            .drawn_clocks(&composition, self.parts.cursor, idle);
        let n = clocks_ahead(calls, drawn);
        if n == 0 {
            return 0;
        }
        self.parts.raster.put_words(
            &composition,
            self.parts.cursor,
            self.parts.flags.ir,
            n,
            answers,
        );
        source.wait(n as u32);
        self.parts.raster.idle(n);
        n as usize
    }

    // Plays calls over one source, and puts their answers behind those that are there. Room for all of them is made first, so that
    // want of memory alters nothing.
    pub fn play<S: Source>(
        &mut self,
        source: &mut S,
        calls: &[Call],
        answers: &mut Vec<Answer>,
    ) -> Result<(), Refusal>
        ensures played { MatchResult result
            (λ _. Played (state_of self.old) (S.means source.old) calls.now answers.old.items
            (state_of self.new) (S.means source.new) answers.new.items)
            (λ e. (e ≡ OutOfMemory) × (self.new ≡ self.old) × (source.new ≡ source.old)
            × (answers.new.items ≡ answers.old.items)) }
        ensures law { MatchResult result
            (λ _. Lawful (state_of self.old) (S.means source.old) calls.now answers.old.items
            (state_of self.new) answers.new.items)
            (λ _. Unit {0}) }
        ensures harmless { Harmless }
        ensures frames { FrameLaw }
    {
        answers.reserve(calls.len())?;
        let mut rest = calls;
        while let Some((&call, behind)) = rest.split_first() {
            let idle = self.idle(source, rest, answers);
            rest = if idle == 0 {
                self.record(source, call, answers);
                behind
            } else {
                &rest[idle..]
            };
        }
        Ok(())
    }
}
