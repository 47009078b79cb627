//! The text of a run's answers. `AnswerText.antt` of mv_script defines its bytes, and says for which answers it is unique.

ghost use Rattle.std.specs.Prelude.{◌≡◌, ◌++◌, All, codes, decimal, flat_map, length, OnOk, IfOk};
ghost use Rattle.mv_script.specs.declared.answer.Answer.TheVariants as answer;
ghost use Rattle.mv_script.specs.AnswerText.{slot_text, token_text, phase_text, answer_text, answer_line};
ghost use Rattle.mv_script.specs.AnswerText.{task_lines, answers_text};
ghost use Rattle.mv_script.specs.AnswerText.{IsNumber, IsSlotInRange, IsTokenInRange, IsInRange, AreInRange};

use crate::run::ScriptRun;
use mv_element::{ElementState, Phase, Token};
use mv_io::NoMemory;
use mv_line::push_number;
use mv_script::{Answer, AnswerList};
use mv_wait::WaitSlot;
use std::alloc::Global;

// Appends words.
fn push_word(out: &mut Vec<u8>, word: &[u8]) -> Result<(), NoMemory>
    ensures { OnOk result (out.new.items ≡ out.old.items ++ word.now) }
{
    out.extend_from_slice(word)?;
    Ok(())
}

// Appends words and two numbers.
fn push_numbers(out: &mut Vec<u8>, words: &[u8], first: u64, second: u64) -> Result<(), NoMemory>
    ensures { OnOk result (out.new.items ≡ out.old.items ++ (words.now ++ (decimal first ++ (codes " " ++ decimal second)))) }
{
    push_number(out, words, first)?;
    push_number(out, b" ", second)
}

// Appends words and a token.
fn push_token(out: &mut Vec<u8>, words: &[u8], token: Token) -> Result<(), NoMemory>
    ensures text { OnOk result (out.new.items ≡ out.old.items ++ (words.now ++ token_text token)) }
    ensures in_range { OnOk result (IsTokenInRange token) }
{
    push_number(out, words, u64::from(token.element))?;
    push_number(out, b".", u64::from(token.generation))
}

// Appends what a WAIT found of each of its blocks.
fn push_slots(out: &mut Vec<u8>, slots: &[WaitSlot]) -> Result<(), NoMemory>
    ensures text { OnOk result (out.new.items ≡ out.old.items ++ flat_map slot_text slots.now) }
    ensures in_range { OnOk result (All IsSlotInRange slots.now) }
{
    for slot in slots {
        push_slot(out, *slot)?;
    }
    Ok(())
}

fn push_slot(out: &mut Vec<u8>, slot: WaitSlot) -> Result<(), NoMemory>
    ensures text { OnOk result (out.new.items ≡ out.old.items ++ slot_text slot) }
    ensures in_range { OnOk result (IsSlotInRange slot) }
{
    match slot {
        WaitSlot::Complete(code) => push_number(out, b" C", u64::from(code)),
        WaitSlot::Open => push_word(out, b" O"),
    }
}

fn phase_word(phase: Phase) -> &'static [u8]
    ensures { result.now ≡ phase_text phase }
{
    match phase {
        Phase::Free => b"FREE",
        Phase::Reset => b"RESET",
        Phase::Prereleased => b"PRERELEASED",
        Phase::Paused => b"PAUSED",
        Phase::Released => b"RELEASED",
    }
}

fn push_state(out: &mut Vec<u8>, state: ElementState) -> Result<(), NoMemory>
    ensures text { OnOk result (out.new.items ≡ out.old.items ++ answer_text (answer.State state)) }
    ensures in_range { OnOk result (IsInRange (answer.State state)) }
{
    push_number(out, b"STATE ", u64::from(state.generation))?;
    push_word(out, b" ")?;
    push_word(out, phase_word(state.phase))?;
    push_number(out, b" ", u64::from(state.code))
}

// Appends an answer.
fn push_answer(out: &mut Vec<u8>, answer: &Answer) -> Result<(), NoMemory>
    ensures text { OnOk result (out.new.items ≡ out.old.items ++ answer_text answer.now) }
    ensures in_range { OnOk result (IsInRange answer.now) }
{
    match answer {
        Answer::Waited(slots) => {
            push_word(out, b"WAITED")?;
            push_slots(out, &slots.slots)
        }
        Answer::TooMany => push_word(out, b"TOOMANY"),
        Answer::Doubled(position) => push_number(out, b"DOUBLED ", u64::from(*position)),
        Answer::NotOwnerAt(position) => push_number(out, b"NOTOWNER ", u64::from(*position)),
        Answer::ExtendedAt(position) => push_number(out, b"EXTENDED ", u64::from(*position)),
        Answer::Posted => push_word(out, b"POSTED"),
        Answer::Woke => push_word(out, b"WOKE"),
        Answer::AlreadyPosted(code) => push_number(out, b"ALREADY ", u64::from(*code)),
        Answer::Moved(word) => push_numbers(out, b"MOVED ", *word >> 45, *word % (1 << 45)),
        Answer::Word(word) => push_number(out, b"WORD ", u64::from(*word)),
        Answer::NotOwner => push_word(out, b"NOTOWNER"),
        Answer::Done => push_word(out, b"DONE"),
        Answer::BadExit => push_word(out, b"BADEXIT"),
        Answer::Extended => push_word(out, b"EXTENDED"),
        Answer::Complete(code) => push_number(out, b"COMPLETE ", u64::from(*code)),
        Answer::Value(number) => push_number(out, b"VALUE ", u64::from(*number)),
        Answer::Token(token) => push_token(out, b"TOKEN ", *token),
        Answer::NoElement => push_word(out, b"NOELEMENT"),
        Answer::Given { code, next } => {
            push_number(out, b"GIVEN ", u64::from(*code))?;
            push_token(out, b" ", *next)
        }
        Answer::Spent(generation) => push_number(out, b"SPENT ", u64::from(*generation)),
        Answer::Early => push_word(out, b"EARLY"),
        Answer::AlreadyReleased => push_word(out, b"ALREADY"),
        Answer::TargetSpent(generation) => {
            push_number(out, b"TARGET SPENT ", u64::from(*generation))
        }
        Answer::TargetAlready => push_word(out, b"TARGET ALREADY"),
        Answer::State(state) => push_state(out, *state),
        Answer::Granted => push_word(out, b"GRANTED"),
        Answer::Pending => push_word(out, b"PENDING"),
        Answer::BadLatch => push_word(out, b"BADLATCH"),
        Answer::Quota => push_word(out, b"QUOTA"),
        Answer::NotNow(id) => push_number(out, b"NOTNOW ", u64::from(*id)),
        Answer::Purged => push_word(out, b"PURGED"),
        Answer::Waiting => push_word(out, b"WAITING"),
        Answer::Gone => push_word(out, b"GONE"),
        Answer::NoToken => push_word(out, b"NOTOKEN"),
        Answer::Released(granted) => push_number(out, b"RELEASED ", u64::from(*granted)),
        Answer::Entered(position) => push_number(out, b"ENTERED ", u64::from(*position)),
        Answer::Event { index, word } => {
            push_numbers(out, b"EVENT ", u64::from(*index), u64::from(*word))
        }
        Answer::Drained => push_word(out, b"DRAINED"),
        Answer::PurgedCounts { removed, granted } => push_numbers(
            out,
            b"PURGED ",
            u64::from(*removed),
            u64::from(*granted),
        ),
    }
}

// Appends the line of a call's answer: the number of the task, that of the call, and the answer.
fn push_line(out: &mut Vec<u8>, task: u64, call: u64, answer: &Answer) -> Result<(), NoMemory>
    ensures text { OnOk result (out.new.items ≡ out.old.items ++ answer_line task call answer.now) }
    ensures in_range { OnOk result (IsInRange answer.now) }
{
    push_numbers(out, b"", task, call)?;
    push_word(out, b" ")?;
    push_answer(out, answer)?;
    push_word(out, b"\n")
}

// Appends the lines of a task's answers.
fn push_task(out: &mut Vec<u8>, task: u64, answers: &[Answer]) -> Result<(), NoMemory>
    ensures text { OnOk result (out.new.items ≡ out.old.items ++ task_lines task 1 answers.now) }
    ensures counted { OnOk result (IsNumber (length answers.now)) }
    ensures in_range { OnOk result (All IsInRange answers.now) }
{
    for (i, answer) in answers.iter().enumerate() {
        push_line(out, task, i as u64 + 1, answer)?;
    }
    Ok(())
}

/// Returns the text of a run's answers: a line for each call, of all tasks in order. It takes memory for the text.
///
/// # Errors
///
/// `NoMemory` if memory runs out.
pub fn write_answers(alloc: Global, run: &ScriptRun) -> Result<Vec<u8>, NoMemory>
    ensures text { IfOk result (λ bytes. bytes.items ≡ answers_text run.now.answers.items) }
    // With these ranges the text determines the answers.
    ensures in_range { OnOk result (AreInRange run.now.answers.items) }
{
    write_answer_lists(alloc, &run.answers)
}

/// Returns the text of these answers, a list for each task: a line for each answer, of all tasks in order. It takes memory for the
/// text.
///
/// # Errors
///
/// `NoMemory` if memory runs out.
pub fn write_answer_lists(alloc: Global, answers: &[AnswerList]) -> Result<Vec<u8>, NoMemory>
    ensures text { IfOk result (λ bytes. bytes.items ≡ answers_text answers.now) }
    // With these ranges the text determines the answers.
    ensures in_range { OnOk result (AreInRange answers.now) }
{
    let mut out = Vec::new(alloc);
    for (task, list) in answers.iter().enumerate() {
        push_task(&mut out, task as u64, &list.answers)?;
    }
    Ok(out)
}
