//! The statement of a line of a script, by its words (`specs/Statement.antt`, `specs/Misread.antt`) and by what the line may name.

ghost use Rattle.std.specs.Prelude.{◌≡◌, IfOk};
ghost use Rattle.mv_line.specs.Field.{fields_of};
ghost use Rattle.mv_scriptline.specs.Misread.{IsReadAs};
ghost use Rattle.mv_scriptline.specs.Statement.{exit as exit_read, table as table_read, statement_behind_head, stated, text_states};
ghost use Rattle.mv_scriptline.specs.Words.{each, three};
ghost use Rattle.mv_scriptline.specs.Operand.{ecb as ecb_read, table_size};

use crate::call::Call;
use crate::fault::Kind;
use crate::limits::MOST_TARGETS;
use crate::numbers::Numbers;
use crate::operand::{Sizes, latch, table_size as read_table_size, task_count, volume};
use crate::words::{Misread, both, field_count, no_field, one_word, three_words, worsened};
use mv_calls::Table;
use mv_line::{LineRefusal, begins_with_space, is_word, split_field};
use std::alloc::{AllocError, Global};

/// The statement of a line.
#[derive(Drop)]
pub enum Statement {
    /// The script has this many tasks.
    Script(u32),
    /// There is an event control block, whose owner is this task.
    Ecb(u32),
    /// There is an exit from the source to the targets.
    Exit { source: u32, targets: Numbers },
    /// There is a table of events.
    Table(Table),
    /// A task begins.
    Task,
    /// The task makes a call.
    Call(Call),
    /// The script is at its end.
    End,
}

impl Sizes {
    /// Returns the statement of a text without spaces at its end.
    pub fn statement_of(self, alloc: Global, text: &[u8]) -> Result<Statement, LineRefusal<Kind>>
        ensures { IsReadAs result (text_states self text.now) }
    {
        if begins_with_space(text) {
            return Err(LineRefusal::Has(Kind::NoForm));
        }
        let (word, words) = split_field(text);
        if word.is_empty() {
            return Err(LineRefusal::Has(Kind::NoForm));
        }
        self.line_of(alloc, word, words)
    }

    // The statement of a line with this first word, by the words after it.
    fn line_of(
        self,
        alloc: Global,
        word: &[u8],
        words: &[u8],
    ) -> Result<Statement, LineRefusal<Kind>>
        ensures { IsReadAs result (stated self word.now (fields_of words.now)) }
    {
        if is_word(word, b"SCRIPT") {
            return Ok(Statement::Script(task_count(one_word(words)?)?));
        }
        if is_word(word, b"ECB") {
            return Ok(Statement::Ecb(self.task(one_word(words)?)?));
        }
        if is_word(word, b"EXIT") {
            return self.exit(alloc, words);
        }
        if is_word(word, b"TABLE") {
            return Ok(Statement::Table(self.table(words)?));
        }
        self.line_behind_head(alloc, word, words)
    }

    // The statement of a line after the head with this first word: a task, a call or the end.
    fn line_behind_head(
        self,
        alloc: Global,
        word: &[u8],
        words: &[u8],
    ) -> Result<Statement, LineRefusal<Kind>>
        ensures { IsReadAs result (statement_behind_head self word.now (fields_of words.now)) }
    {
        if is_word(word, b"TASK") {
            no_field(words)?;
            return Ok(Statement::Task);
        }
        if is_word(word, b"END") {
            no_field(words)?;
            return Ok(Statement::End);
        }
        if is_word(word, b"WAIT") {
            return Ok(Statement::Call(self.wait(alloc, words)?));
        }
        Ok(Statement::Call(self.other_call(word, words)?))
    }

    // Reads an EXIT: a source, and one to four targets.
    fn exit(self, alloc: Global, words: &[u8]) -> Result<Statement, LineRefusal<Kind>>
        ensures { IsReadAs result (exit_read self (fields_of words.now)) }
    {
        let (source_word, rest) = split_field(words);
        let targets = field_count(rest);
        if source_word.is_empty() || targets < 1 || targets > MOST_TARGETS {
            return Err(LineRefusal::Has(Kind::NoForm));
        }
        let (source, targets) = both(self.ecb(source_word), self.ecbs(alloc, rest)?)?;
        Ok(Statement::Exit { source, targets })
    }

    // Reads a TABLE: its owner, latch and volume; its first event, its first slot, and how many of each it has.
    fn table(self, words: &[u8]) -> Result<Table, Misread>
        ensures { result ≡ table_read self (fields_of words.now) }
    {
        let (owner_word, rest) = split_field(words);
        let (latch_word, rest) = split_field(rest);
        let (volume_word, rest) = split_field(rest);
        let blocks = self.table_blocks(rest);
        let behind = both(latch(latch_word), both(volume(volume_word), blocks));
        let (owner, (latch, (volume, blocks))) = both(self.task(owner_word), behind)?;
        let (events, (slots, size)) = blocks;
        Ok(Table {
            owner,
            latch,
            volume,
            events,
            slots,
            size,
        })
    }

    // Reads the first event and the first slot of a table, and how many of each it has.
    fn table_blocks(self, words: &[u8]) -> Result<(u32, (u32, u32)), Misread>
        ensures { result ≡ three (ecb_read self) (ecb_read self) table_size (fields_of words.now) }
    {
        let (events_word, (slots_word, size_word)) = three_words(words)?;
        both(
            self.ecb(events_word),
            both(self.ecb(slots_word), read_table_size(size_word)),
        )
    }

    /// Reads event control blocks of the script, one from each word.
    pub(crate) fn ecbs(
        self,
        alloc: Global,
        words: &[u8],
    ) -> Result<Result<Numbers, Misread>, AllocError>
        ensures { IfOk result (λ r. r ≡ each (ecb_read self) (fields_of words.now)) }
    {
        let mut numbers = Vec::new(alloc);
        let mut misread = None;
        let (mut word, mut rest) = split_field(words);
        while !word.is_empty() {
            match self.ecb(word) {
                Ok(number) => numbers.push(number)?,
                Err(why) => misread = Some(worsened(misread, why)),
            }
            (word, rest) = split_field(rest);
        }
        match misread {
            None => Ok(Ok(Numbers { numbers })),
            Some(why) => Ok(Err(why)),
        }
    }
}
