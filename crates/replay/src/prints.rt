// Answers and faults, printed.
ghost use Rattle.std.specs.Prelude.{◌≡◌, ℕ, ◌+◌, ◌*◌, ◌++◌, length};
ghost use Rattle.replay.specs.Digits.{HasRoom, Takes};
ghost use Rattle.replay.specs.Prints.{answer_text, refused, texts, outcome, from_port, fault_line, fault_text};

use crate::digits::put_line;
use crate::faults::{Fault, PortFault};
use frame::call::Answer;

#[tactic(auto, using(crate::proofs::Joins::word_text))]
fn put_answer(answer: Answer, out: &mut Vec<u8>) -> Result<(), PortFault>
    requires room { HasRoom out.old 9 }
    ensures fault { result ≡ refused answer }
    ensures items { out.new.items ≡ out.old.items ++ answer_text answer }
    ensures takes { Takes out.old out.new 9 }
{
    match answer {
        Answer::Done => put_line(&[0], out),
        Answer::Byte(byte) => put_line(&[byte], out),
        Answer::Word(word) => put_line(&word.to_be_bytes(), out),
        Answer::Refused(refusal) => return Err(PortFault { refusal }),
    }
    Ok(())
}

// Answers up to the first that is refused.
#[tactic(auto, unfolding(crate::specs::Prints::texts, crate::specs::Prints::outcome))]
fn put_answers(answers: &[Answer], out: &mut Vec<u8>) -> Result<(), PortFault>
    requires room { HasRoom out.old (9 * length answers.now) }
    ensures fault { result ≡ outcome answers.now }
    ensures items { out.new.items ≡ out.old.items ++ texts answers.now }
    ensures takes { Takes out.old out.new (9 * length answers.now) }
{
    for answer in answers {
        put_answer(*answer, out)?;
    }
    Ok(())
}

// The port layer: its fault passes up as those of the line and the event do.
fn put_all(answers: &[Answer], out: &mut Vec<u8>) -> Result<(), Fault>
    requires room { HasRoom out.old (9 * length answers.now) }
    ensures fault { result ≡ from_port (outcome answers.now) }
    ensures items { out.new.items ≡ out.old.items ++ texts answers.now }
    ensures takes { Takes out.old out.new (9 * length answers.now) }
{
    put_answers(answers, out)?;
    Ok(())
}

// The answers, and the fault that ends them, if any.
pub(crate) fn put_reply(answers: &[Answer], number: u16, out: &mut Vec<u8>)
    requires room { HasRoom out.old (9 * length answers.now + 13) }
    ensures items { out.new.items ≡ out.old.items ++ (texts answers.now ++ fault_text (from_port (outcome answers.now)) number) }
{
    if let Err(fault) = put_all(answers, out) {
        put_fault(fault, number, out);
    }
}

pub(crate) fn put_fault(fault: Fault, number: u16, out: &mut Vec<u8>)
    requires room { HasRoom out.old 13 }
    ensures items { out.new.items ≡ out.old.items ++ fault_line fault number }
{
    let [high, low] = number.to_be_bytes();
    // column 0 is none
    let column = fault.column().unwrap_or(0);
    put_line(
        &[0xFF, fault.layer(), fault.number(), high, low, column],
        out,
    );
}
