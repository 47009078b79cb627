//! A fault with its sentence and the line that has it: `specs/Quote.antt`.

ghost use Rattle.std.specs.Prelude.{◌≡◌, ◌<◌, ◌-◌, ◌^◌, ◌++◌, length, not, OnOk};
ghost use Rattle.std.specs.List.{position};
ghost use Rattle.mv_line.specs.Byte.{is_printable};
ghost use Rattle.mv_diagnostics.specs.Quote.{line_at as line_by_number, byte_text, column_text, front_text, quote_text, place_text, fault_text};

use crate::sentences::{BYTE, COLUMN, KIND, LINE, QUOTE, byte_name};
use mv_io::NoMemory;
use mv_line::{Lines, TextFault, has_foreign_byte, push_number, without_cr};

/// The most bytes of a line that are shown.
const MOST_SHOWN: usize = 100;

/// The line of this number, counted from 1; nothing if there is none.
#[tactic(auto, unfolding(crate::specs::Quote::line_at))]
pub(crate) fn line_at(bytes: &[u8], number: u64) -> &[u8]
    requires { length bytes.now < 2 ^ 32 - 1 }
    ensures { result.now ≡ line_by_number bytes.now number }
{
    let mut lines = Lines::of(bytes);
    'lines: while let Some((here, line)) = lines.next() {
        if u64::from(here) == number {
            return line;
        }
    }
    b""
}

// Where a line has its first byte that is not printable.
fn foreign_place(line: &[u8]) -> Option<usize>
    ensures { result ≡ position (λ b. not (is_printable b)) line.now }
{
    line.iter().position(|b| !(32..=126).contains(b))
}

// Says which byte is at this place of a line.
fn push_byte(out: &mut Vec<u8>, place: usize, byte: u8) -> Result<(), NoMemory>
    requires { place < 2 ^ 64 - 1 }
    ensures { OnOk result (out.new.items ≡ out.old.items ++ byte_text place byte) }
{
    push_number(out, COLUMN, place as u64 + 1)?;
    push_number(out, BYTE, u64::from(byte))?;
    out.extend_from_slice(byte_name(byte))?;
    out.push(b'\n')?;
    Ok(())
}

// Says where the first byte of a line is that is not printable, if it has one.
#[tactic(auto, unfolding(crate::specs::Quote::column_text))]
fn push_column(out: &mut Vec<u8>, line: &[u8]) -> Result<(), NoMemory>
    ensures { OnOk result (out.new.items ≡ out.old.items ++ column_text line.now) }
{
    match foreign_place(line) {
        Some(place) => push_byte(out, place, line[place]),
        None => Ok(()),
    }
}

// Shows the first bytes of a line, if they are printable and there is one.
fn push_front(out: &mut Vec<u8>, front: &[u8]) -> Result<(), NoMemory>
    ensures { OnOk result (out.new.items ≡ out.old.items ++ front_text front.now) }
{
    if front.is_empty() {
        return Ok(());
    }
    if has_foreign_byte(front) {
        return Ok(());
    }
    out.extend_from_slice(QUOTE)?;
    out.extend_from_slice(front)?;
    out.push(b'\n')?;
    Ok(())
}

// So of a line.
#[tactic(auto, unfolding(crate::specs::Quote::quote_text))]
fn push_quote(out: &mut Vec<u8>, line: &[u8]) -> Result<(), NoMemory>
    ensures { OnOk result (out.new.items ≡ out.old.items ++ quote_text line.now) }
{
    push_front(out, &line[..line.len().min(MOST_SHOWN)])
}

/// Shows the line of this number.
#[tactic(auto, unfolding(crate::specs::Quote::place_text))]
pub fn push_place(out: &mut Vec<u8>, bytes: &[u8], number: u64) -> Result<(), NoMemory>
    requires { length bytes.now < 2 ^ 32 - 1 }
    ensures { OnOk result (out.new.items ≡ out.old.items ++ place_text bytes.now number) }
{
    let line = without_cr(line_at(bytes, number));
    push_quote(out, line)?;
    push_column(out, line)
}

/// Says which fault a text has, what that means, and where it is.
#[tactic(auto, unfolding(crate::specs::Quote::fault_text))]
pub fn push_fault(
    out: &mut Vec<u8>,
    name: &[u8],
    bytes: &[u8],
    fault: TextFault,
    sentence: &[u8],
) -> Result<(), NoMemory>
    requires { length bytes.now < 2 ^ 32 - 1 }
    ensures { OnOk result (out.new.items ≡ out.old.items ++ fault_text name.now bytes.now fault sentence.now) }
{
    out.extend_from_slice(name)?;
    push_number(out, LINE, u64::from(fault.line))?;
    push_number(out, KIND, u64::from(fault.kind))?;
    out.extend_from_slice(b": ")?;
    out.extend_from_slice(sentence)?;
    out.push(b'\n')?;
    push_place(out, bytes, u64::from(fault.line))
}
