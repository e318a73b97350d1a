// Requests, done on the console.
ghost use Rattle.std.specs.Prelude.{◌≡◌, replicate, IfOk, vec_len, MatchResult};
ghost use Rattle.refusal.specs.declared.Refusal.TheVariants.{OutOfMemory};
ghost use Rattle.frame.specs.declared.call.Call.TheVariants.{Clock};
ghost use Rattle.replay.specs.Digits.{HasRoom};
ghost use Rattle.replay.specs.Requests.{FitsRequest};
ghost use Rattle.replay.specs.Desk.{new_desk, called, replies, performed, answered};
ghost use Rattle.replay.specs.Prints.{Followed};
ghost use Rattle.replay.specs.Model.{desk_of};

use crate::machine::Machine;
use crate::prints::{put_fault, put_reply};
use crate::requests::{LONGEST_PAGE, Request, read_line};
use console::state::Console;
use frame::call::{Answer, Call};
use refusal::Refusal;
use source::FreeBus;
use std::alloc::{AllocError, Global};

impl Machine {
    pub(crate) fn new(heap: Global) -> Result<Machine, AllocError>
        ensures { IfOk result (λ m. desk_of m ≡ new_desk) }
    {
        let page = Vec::with_capacity(heap, LONGEST_PAGE)?;
        Ok(Machine {
            console: Console::new(),
            page,
            bus: None,
            answers: Vec::new(heap),
            heap,
        })
    }

    // The calls go to the console over the bus. It is kept only once they have been played: want of memory leaves the page open.
    fn play(&mut self, calls: &[Call]) -> Result<(), Refusal>
        ensures { MatchResult result
            (λ _. (desk_of self.new ≡ called calls.now (desk_of self.old)) × (self.new.answers.items ≡ replies calls.now (desk_of self.old)))
            (λ e. (e ≡ OutOfMemory) × (desk_of self.new ≡ desk_of self.old)) }
    {
        self.answers.clear();
        if let Some(bus) = &mut self.bus {
            return self.console.play(bus, calls, &mut self.answers);
        }
        let mut bus = FreeBus::new(self.heap);
        bus.make(self.heap, self.page.as_slice())?;
        self.console.play(&mut bus, calls, &mut self.answers)?;
        self.bus = Some(bus);
        Ok(())
    }

    #[tactic(auto, using(crate::proofs::Desks::some_clocks))]
    fn perform(&mut self, request: Request, clocks: &[Call]) -> Result<(), Refusal>
        requires fits { FitsRequest request (vec_len self.old.page) (desk_of self.old).closed }
        requires clocks { clocks.now ≡ replicate 65535 Clock }
        ensures done { MatchResult result
            (λ _. (desk_of self.new ≡ performed request (desk_of self.old)) × (self.new.answers.items ≡ answered request (desk_of self.old)))
            (λ e. (e ≡ OutOfMemory) × (desk_of self.new ≡ desk_of self.old)) }
    {
        match request {
            Request::Single(call) => self.play(&[call]),
            Request::Clocks(n) => self.play(&clocks[..n as usize]),
            Request::Page(bytes) => {
                self.answers.clear();
                self.answers.push(Answer::Done)?;
                self.page.extend_from_slice(bytes.as_slice()).unwrap();
                Ok(())
            }
        }
    }

    // What the line asks for is done and answered, or its fault is printed.
    #[tactic(auto, using(crate::proofs::Desks::few_answers))]
    pub(crate) fn follow(
        &mut self,
        line: &[u8],
        number: u16,
        clocks: &[Call],
        out: &mut Vec<u8>,
    ) -> Result<(), Refusal>
        requires clocks { clocks.now ≡ replicate 65535 Clock }
        requires room { HasRoom out.old 589828 }
        ensures done { MatchResult result
            (λ _. Followed (desk_of self.old) line.now number out.old.items (desk_of self.new) out.new.items)
            (λ e. (e ≡ OutOfMemory) × (desk_of self.new ≡ desk_of self.old) × (out.new.items ≡ out.old.items)) }
    {
        match read_line(self.bus.is_some(), self.page.len(), line) {
            Ok(request) => {
                self.perform(request, clocks)?;
                put_reply(self.answers.as_slice(), number, out);
            }
            Err(fault) => put_fault(fault, number, out),
        }
        Ok(())
    }
}
