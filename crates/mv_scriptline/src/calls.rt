//! The calls of a script, read from their words (`specs/Statement.antt`) by what the script may name.

ghost use Rattle.std.specs.Prelude.{◌≡◌};
ghost use Rattle.mv_line.specs.Field.{fields_of};
ghost use Rattle.mv_scriptline.specs.declared.call.Call.TheVariants as call;
ghost use Rattle.mv_scriptline.specs.Operand.{ecb as ecb_read, token as token_read, or_hyphen};
ghost use Rattle.mv_scriptline.specs.Operand as operand;
ghost use Rattle.mv_scriptline.specs.Misread.{IsReadAs};
ghost use Rattle.mv_scriptline.specs.Statement.{wait as wait_read, form as form_read, obtain as obtain_read};
ghost use Rattle.mv_scriptline.specs.Statement.{latch_call as latch_read, element_call as element_read, other_call as other_read};
ghost use Rattle.mv_scriptline.specs.Statement.{table_call as table_read};
ghost use Rattle.mv_scriptline.specs.Words.{making, one, two, three};

use crate::call::Call;
use crate::fault::Kind;
use crate::limits::MOST_WAITED;
use crate::operand::{
    Sizes, any_number, conditional, count, ecb_code, latch, mode, place, release_code, requestor,
    volume,
};
use crate::words::{Misread, both, field_count, no_field, one_word, three_words, two_words};
use mv_element::Token;
use mv_latch::LatchForm;
use mv_line::{LineRefusal, is_word, split_field};
use std::alloc::Global;

impl Sizes {
    /// Reads a WAIT from the words after it: a count and up to eight blocks.
    pub(crate) fn wait(self, alloc: Global, words: &[u8]) -> Result<Call, LineRefusal<Kind>>
        ensures { IsReadAs result (wait_read self (fields_of words.now)) }
    {
        let (count_word, rest) = split_field(words);
        if count_word.is_empty() || field_count(rest) > MOST_WAITED {
            return Err(LineRefusal::Has(Kind::NoForm));
        }
        let (count, ecbs) = both(count(count_word), self.ecbs(alloc, rest)?)?;
        Ok(Call::Wait { count, ecbs })
    }

    /// Reads a call other than WAIT from its word and the words after it: one on blocks and volumes, or another one.
    pub(crate) fn other_call(self, word: &[u8], words: &[u8]) -> Result<Call, Misread>
        ensures { result ≡ other_read self word.now (fields_of words.now) }
    {
        if is_word(word, b"POST") {
            return self.post(words);
        }
        if is_word(word, b"TRYPOST") {
            return self.try_post(words);
        }
        if is_word(word, b"CLEAR") {
            return Ok(Call::Clear(self.one_ecb(words)?));
        }
        if is_word(word, b"EXTEND") {
            return self.extend(words);
        }
        if is_word(word, b"TEST") {
            return Ok(Call::Test(self.one_ecb(words)?));
        }
        if is_word(word, b"READ") {
            return read(words);
        }
        if is_word(word, b"WRITE") {
            return write(words);
        }
        self.element_call(word, words)
    }

    // Reads a call on pause elements, or another one.
    fn element_call(self, word: &[u8], words: &[u8]) -> Result<Call, Misread>
        ensures { result ≡ element_read self word.now (fields_of words.now) }
    {
        if is_word(word, b"ALLOC") {
            no_field(words)?;
            return Ok(Call::Alloc);
        }
        if is_word(word, b"PAUSE") {
            return Ok(Call::Pause(self.one_token(words)?));
        }
        if is_word(word, b"RELEASE") {
            return self.release(words);
        }
        if is_word(word, b"TRYRELEASE") {
            return self.try_release(words);
        }
        if is_word(word, b"TRANSFER") {
            return self.transfer(words);
        }
        if is_word(word, b"DEALLOC") {
            return Ok(Call::Dealloc(self.one_token(words)?));
        }
        if is_word(word, b"TESTP") {
            return self.test_element(words);
        }
        self.latch_call(word, words)
    }

    // Reads a call on latches, the end of a task, or another call.
    fn latch_call(self, word: &[u8], words: &[u8]) -> Result<Call, Misread>
        ensures { result ≡ latch_read self word.now (fields_of words.now) }
    {
        if is_word(word, b"OBTAIN") {
            return self.obtain(words);
        }
        if is_word(word, b"CHECK") {
            return check(words);
        }
        if is_word(word, b"FREE") {
            return free(words);
        }
        if is_word(word, b"PURGE") {
            return purge(words);
        }
        if is_word(word, b"EOT") {
            return self.end_task(words);
        }
        self.table_call(word, words)
    }

    // Reads a call on the script's table.
    fn table_call(self, word: &[u8], words: &[u8]) -> Result<Call, Misread>
        ensures { result ≡ table_read self word.now (fields_of words.now) }
    {
        if is_word(word, b"EVPOST") {
            return self.post_event(words);
        }
        if is_word(word, b"EVNEXT") {
            return Ok(Call::NextEvent(self.event_position(one_word(words)?)?));
        }
        Err(Misread::NoForm)
    }

    // ---- calls on blocks and volumes

    fn one_ecb(self, words: &[u8]) -> Result<u32, Misread>
        ensures { result ≡ one (ecb_read self) (fields_of words.now) }
    {
        self.ecb(one_word(words)?)
    }

    fn post(self, words: &[u8]) -> Result<Call, Misread>
        ensures { result ≡ making (λ p. call.Post p.0 p.1) (two (ecb_read self) operand.ecb_code (fields_of words.now)) }
    {
        let (ecb_word, code_word) = two_words(words)?;
        let (ecb, code) = both(self.ecb(ecb_word), ecb_code(code_word))?;
        Ok(Call::Post { ecb, code })
    }

    fn try_post(self, words: &[u8]) -> Result<Call, Misread>
        ensures { result ≡ making (λ p. call.TryPost p.0 p.1.0 p.1.1)
            (three (ecb_read self) operand.place operand.ecb_code (fields_of words.now)) }
    {
        let (ecb_word, (place_word, code_word)) = three_words(words)?;
        let behind = both(place(place_word), ecb_code(code_word));
        let (ecb, (place, code)) = both(self.ecb(ecb_word), behind)?;
        Ok(Call::TryPost { ecb, place, code })
    }

    fn extend(self, words: &[u8]) -> Result<Call, Misread>
        ensures { result ≡ making (λ p. call.Extend p.0 p.1) (two (ecb_read self) operand.any_number (fields_of words.now)) }
    {
        let (ecb_word, exit_word) = two_words(words)?;
        let (ecb, exit) = both(self.ecb(ecb_word), any_number(exit_word))?;
        Ok(Call::Extend { ecb, exit })
    }

    // ---- calls on elements

    fn one_token(self, words: &[u8]) -> Result<Token, Misread>
        ensures { result ≡ one (token_read self) (fields_of words.now) }
    {
        self.token(one_word(words)?)
    }

    fn release(self, words: &[u8]) -> Result<Call, Misread>
        ensures { result ≡ making (λ p. call.Release p.0 p.1) (two (token_read self) operand.release_code (fields_of words.now)) }
    {
        let (token_word, code_word) = two_words(words)?;
        let (token, code) = both(self.token(token_word), release_code(code_word))?;
        Ok(Call::Release { token, code })
    }

    fn try_release(self, words: &[u8]) -> Result<Call, Misread>
        ensures { result ≡ making (λ p. call.TryRelease p.0 p.1.0 p.1.1)
            (three (token_read self) operand.place operand.release_code (fields_of words.now)) }
    {
        let (token_word, (place_word, code_word)) = three_words(words)?;
        let behind = both(place(place_word), release_code(code_word));
        let (token, (place, code)) = both(self.token(token_word), behind)?;
        Ok(Call::TryRelease { token, place, code })
    }

    fn transfer(self, words: &[u8]) -> Result<Call, Misread>
        ensures { result ≡ making (λ p. call.Transfer p.0 p.1.0 p.1.1)
            (three (or_hyphen (token_read self)) (token_read self) operand.release_code (fields_of words.now)) }
    {
        let (current_word, (target_word, code_word)) = three_words(words)?;
        let behind = both(self.token(target_word), release_code(code_word));
        let (current, (target, code)) = both(self.token_or_none(current_word), behind)?;
        Ok(Call::Transfer {
            current,
            target,
            code,
        })
    }

    fn test_element(self, words: &[u8]) -> Result<Call, Misread>
        ensures { result ≡ making (λ n. call.TestElement n) (one (operand.element self) (fields_of words.now)) }
    {
        Ok(Call::TestElement(self.element(one_word(words)?)?))
    }

    // ---- calls on latches, and the end of a task

    // The words are a latch, a requestor, a mode, and what happens to a request that is not granted at once.
    fn obtain(self, words: &[u8]) -> Result<Call, Misread>
        ensures { result ≡ obtain_read self (fields_of words.now) }
    {
        let (latch_word, rest) = split_field(words);
        let (requestor_word, rest) = split_field(rest);
        let (mode_word, form_words) = split_field(rest);
        let how = both(mode(mode_word), self.form(form_words));
        let behind = both(requestor(requestor_word), how);
        let (latch, (requestor, (mode, form))) = both(latch(latch_word), behind)?;
        Ok(Call::Obtain {
            latch,
            requestor,
            mode,
            form,
        })
    }

    // The words are `COND`, `WAIT`, or `ECB` and a block.
    fn form(self, words: &[u8]) -> Result<LatchForm, Misread>
        ensures { result ≡ form_read self (fields_of words.now) }
    {
        let (word, rest) = split_field(words);
        if is_word(word, b"ECB") {
            return Ok(LatchForm::Posted(self.one_ecb(rest)?));
        }
        no_field(rest)?;
        if is_word(word, b"COND") {
            return Ok(LatchForm::Conditional);
        }
        if is_word(word, b"WAIT") {
            return Ok(LatchForm::Waiting);
        }
        Err(Misread::NoForm)
    }

    fn end_task(self, words: &[u8]) -> Result<Call, Misread>
        ensures { result ≡ making (λ p. call.EndTask p.0 p.1.0 p.1.1)
            (three operand.requestor (or_hyphen (ecb_read self)) operand.ecb_code (fields_of words.now)) }
    {
        let (requestor_word, (mother_word, code_word)) = three_words(words)?;
        let behind = both(self.ecb_or_none(mother_word), ecb_code(code_word));
        let (requestor, (mother, code)) = both(requestor(requestor_word), behind)?;
        Ok(Call::EndTask {
            requestor,
            mother,
            code,
        })
    }

    // ---- calls on the table

    fn post_event(self, words: &[u8]) -> Result<Call, Misread>
        ensures { result ≡ making (λ p. call.PostEvent p.0 p.1) (two (operand.event self) operand.ecb_code (fields_of words.now)) }
    {
        let (event_word, code_word) = two_words(words)?;
        let (index, code) = both(self.event(event_word), ecb_code(code_word))?;
        Ok(Call::PostEvent { index, code })
    }
}

// ---- calls that name nothing that a script states

fn read(words: &[u8]) -> Result<Call, Misread>
    ensures { result ≡ making (λ v. call.Read v) (one operand.volume (fields_of words.now)) }
{
    Ok(Call::Read(volume(one_word(words)?)?))
}

fn write(words: &[u8]) -> Result<Call, Misread>
    ensures { result ≡ making (λ p. call.Write p.0 p.1) (two operand.volume operand.any_number (fields_of words.now)) }
{
    let (volume_word, number_word) = two_words(words)?;
    let (volume, number) = both(volume(volume_word), any_number(number_word))?;
    Ok(Call::Write { volume, number })
}

fn check(words: &[u8]) -> Result<Call, Misread>
    ensures { result ≡ making (λ k. call.Check k) (one operand.any_number (fields_of words.now)) }
{
    Ok(Call::Check(any_number(one_word(words)?)?))
}

fn free(words: &[u8]) -> Result<Call, Misread>
    ensures { result ≡ making (λ p. call.Free p.0 p.1) (two operand.any_number operand.conditional (fields_of words.now)) }
{
    let (obtain_word, form_word) = two_words(words)?;
    let (obtain, conditional) = both(any_number(obtain_word), conditional(form_word))?;
    Ok(Call::Free {
        obtain,
        conditional,
    })
}

fn purge(words: &[u8]) -> Result<Call, Misread>
    ensures { result ≡ making (λ r. call.Purge r) (one operand.requestor (fields_of words.now)) }
{
    Ok(Call::Purge(requestor(one_word(words)?)?))
}
