// The calls for C.
ghost use Rattle.std.specs.Prelude.{◌≡◌, Some, None, ◌≢◌};
ghost use Rattle.frame.specs.Ports.{new};
ghost use Rattle.frame.specs.declared.call.Call.TheVariants.{Command, Parameter, Status, Read, Stroke, Clock};
ghost use Rattle.video.specs.Picture.{bit};
ghost use Rattle.ffi.specs.Offers.{offer_of, offer, offered};
ghost use Rattle.mirror.specs.Stands.{stands};
ghost use Rattle.ffi.specs.Calls.{called, left_by, replied, refusal_of, byte_of, word_of, taken, AsOver, Kept};

use crate::offered::Offered;
use console::state::Console;
use frame::call::{Answer, Call};
use mirror::numbers::Mirror;
use mirror::packing::{pack, unpack};

// A byte, or why there is none. C has no Result, so both stand side by side here and in Clocked.
#[repr(C)]
#[derive(Clone, Copy)]
pub struct Said {
    pub byte: u8,
    pub refusal: u8,
}

// The word of a clock, whether the byte that was offered is taken, or why there is no word.
#[repr(C)]
#[derive(Clone, Copy)]
pub struct Clocked {
    pub word: u32,
    pub taken: u8,
    pub refusal: u8,
}

// The memory is written only where the call is not refused.
#[tactic(auto, using(crate::proofs::Refused::refused_same))]
fn perform(mirror: &mut Mirror, source: &mut Offered, call: Call) -> Option<Answer>
    ensures answer { result ≡ replied call (stands mirror.old) }
    ensures state { stands mirror.new ≡ called call (offer_of source.old) (stands mirror.old) }
    ensures source { offer_of source.new ≡ left_by call (offer_of source.old) (stands mirror.old) }
    ensures unaltered { (refusal_of result ≢ 0) → mirror.new ≡ mirror.old }
{
    let mut console = unpack(mirror)?;
    let answer = console.call(source, call);
    if !matches!(answer, Answer::Refused(_)) {
        *mirror = pack(&console);
    }
    Some(answer)
}

// C is answered in numbers: 254 where the memory holds no console, and 0 for no refusal, no byte and no word.
fn refusal_number(answer: Option<Answer>) -> u8
    ensures { result ≡ refusal_of answer }
{
    match answer {
        None => 254,
        Some(Answer::Refused(refusal)) => refusal.number(),
        Some(_) => 0,
    }
}

fn byte(answer: Option<Answer>) -> u8
    ensures { result ≡ byte_of answer }
{
    match answer {
        Some(Answer::Byte(byte)) => byte,
        _ => 0,
    }
}

fn word(answer: Option<Answer>) -> u32
    ensures { result ≡ word_of answer }
{
    match answer {
        Some(Answer::Word(word)) => word,
        _ => 0,
    }
}

// A call that takes no byte from a source.
fn ask(console: &mut Mirror, call: Call) -> Said
    ensures kept { Kept call (offer None) console.old console.new result.refusal }
    ensures byte { result.byte ≡ byte_of (replied call (stands console.old)) }
{
    let answer = perform(console, &mut Offered::new(None), call);
    Said {
        byte: byte(answer),
        refusal: refusal_number(answer),
    }
}

// The same where no byte is the answer.
fn tell(console: &mut Mirror, call: Call) -> u8
    ensures { Kept call (offer None) console.old console.new result }
{
    ask(console, call).refusal
}

// One clock, at which a byte is offered or not.
#[tactic(auto, using(crate::proofs::Over::clocks_same))]
fn clock(console: &mut Mirror, byte: Option<u8>) -> Clocked
    ensures kept { Kept Clock (offer byte) console.old console.new result.refusal }
    ensures word { result.word ≡ word_of (replied Clock (stands console.old)) }
    ensures taken { result.taken ≡ bit (taken byte (stands console.old)) }
    ensures source { AsOver byte console.old console.new }
{
    let mut source = Offered::new(byte);
    let answer = perform(console, &mut source, Call::Clock);
    Clocked {
        word: word(answer),
        taken: u8::from(source.gone()),
        refusal: refusal_number(answer),
    }
}

// Fills the memory with a console as it is switched on.
#[unsafe(no_mangle)]
pub extern "C" fn welzour_new(console: &mut Mirror)
    ensures { stands console.new ≡ Some new }
{
    *console = pack(&Console::new());
}

// A byte written to the command port.
#[unsafe(no_mangle)]
pub extern "C" fn welzour_command(console: &mut Mirror, byte: u8) -> u8
    ensures { Kept (Command byte) (offer None) console.old console.new result }
{
    tell(console, Call::Command(byte))
}

// A byte written to the parameter port.
#[unsafe(no_mangle)]
pub extern "C" fn welzour_parameter(console: &mut Mirror, byte: u8) -> u8
    ensures { Kept (Parameter byte) (offer None) console.old console.new result }
{
    tell(console, Call::Parameter(byte))
}

// The status byte, whose reading clears flags.
#[unsafe(no_mangle)]
pub extern "C" fn welzour_status(console: &mut Mirror) -> Said
    ensures kept { Kept Status (offer None) console.old console.new result.refusal }
    ensures byte { result.byte ≡ byte_of (replied Status (stands console.old)) }
{
    ask(console, Call::Status)
}

// A byte read from the parameter port.
#[unsafe(no_mangle)]
pub extern "C" fn welzour_read(console: &mut Mirror) -> Said
    ensures kept { Kept Read (offer None) console.old console.new result.refusal }
    ensures byte { result.byte ≡ byte_of (replied Read (stands console.old)) }
{
    ask(console, Call::Read)
}

// A stroke of the light pen.
#[unsafe(no_mangle)]
pub extern "C" fn welzour_stroke(console: &mut Mirror) -> u8
    ensures { Kept Stroke (offer None) console.old console.new result }
{
    tell(console, Call::Stroke)
}

// One clock, at which a byte is offered where `offers` is not 0.
#[unsafe(no_mangle)]
pub extern "C" fn welzour_clock(console: &mut Mirror, offers: u8, byte: u8) -> Clocked
    ensures kept { Kept Clock (offer (offered offers byte)) console.old console.new result.refusal }
    ensures word { result.word ≡ word_of (replied Clock (stands console.old)) }
    ensures taken { result.taken ≡ bit (taken (offered offers byte) (stands console.old)) }
    ensures source { AsOver (offered offers byte) console.old console.new }
{
    clock(console, (offers != 0).then_some(byte))
}
