//! Reading a whole input. Clauses cite specs/Source for what a source loses and gives, and specs/Fault for the cause of a
//! failure.

ghost use Rattle.std.specs.Prelude.{◌≡◌, ◌⊎◌, ◌+◌, ◌<◌, ◌≤◌, ℕ, [], length, drop, vec_len, vec_capacity, Some};
ghost use Rattle.std.specs.Prelude.{IfSome, IfOk, OnErr, IsErrOf};
ghost use Rattle.mv_io.specs.Fault.{Rose};
ghost use Rattle.mv_io.specs.Source.{LosesFront, GivesFront};
ghost use Rattle.mv_io.specs.declared.reading.ReadRefusal.TheVariants.{NoMemory as no_memory, Failed as failed};

use crate::{Failed, Source};
use std::alloc::{AllocError, Global};
use thiserror::Error;

/// Why an input was not read.
#[derive(Clone, Copy, Debug, PartialEq, Eq, Error)]
pub enum ReadRefusal {
    /// The source failed. The bytes that were taken off it before are lost.
    #[error("the input failed")]
    Failed,
    /// The input has more bytes than the limit. The limit and one byte more were taken off the source.
    #[error("the input is too long")]
    TooLong,
    /// There was not enough memory for the limit and one byte more. Nothing was read.
    #[error("there is not enough memory for the input")]
    NoMemory,
}

impl From<AllocError> for ReadRefusal {
    ghost from_gives = { λ _ refusal. refusal ≡ no_memory };

    fn from(_: AllocError) -> Self {
        ReadRefusal::NoMemory
    }
}

impl From<Failed> for ReadRefusal {
    ghost from_gives = { λ _ refusal. refusal ≡ failed };

    fn from(_: Failed) -> Self {
        ReadRefusal::Failed
    }
}

/// The most bytes by which the buffer is lengthened at once.
const PIECE: usize = 64 * 1024;

/// Reads a whole input of at most `limit` bytes.
///
/// Memory for `limit` and one byte more is taken before the first read, and none after it. At most that many bytes are taken off
/// the source, and at most `limit` if it fails. The buffer is lengthened by pieces of 64 KiB as bytes arrive, so the rest of its
/// memory is not touched. The call waits as long as the source's reads do.
///
/// # Errors
///
/// `Failed` if the source failed, which is not tried again; `TooLong` if the input has more than `limit` bytes; `NoMemory` if
/// there was not enough memory.
///
/// # Examples
///
/// From `crates/mv_explain/src/explaining.rt`:
///
/// ```
/// let bytes = read_limited(alloc, input, INPUT_LIMIT)?;
/// ```
pub fn read_limited<S: Source>(
    alloc: Global,
    src: &mut S,
    limit: usize,
) -> Result<Vec<u8>, ReadRefusal>
    ensures within { IfOk result (λ bytes. length bytes.items ≤ limit) }
    ensures whole { IfOk result (λ bytes. IfSome (S.left src.old)
        (λ xs. (bytes.items ≡ xs) × (S.left src.new ≡ Some []))) }

    // The source itself failed. The bytes that came before are lost.
    ensures failed { IsErrOf result ReadRefusal.Failed → Rose (S.faults src.old) (S.faults src.new) }
    ensures failed_left { IsErrOf result ReadRefusal.Failed → IfSome (S.left src.old)
        (λ xs. (k : ℕ) × (k ≤ limit) × LosesFront xs (S.left src.new) k) }

    // `TooLong` is returned only if the input is too long, and always then, unless the source fails or memory runs out first.
    ensures too_long { IsErrOf result ReadRefusal.TooLong → IfSome (S.left src.old)
        (λ xs. (limit < length xs) × (S.left src.new ≡ Some (drop (limit + 1) xs))) }
    ensures long_is_told { IfSome (S.left src.old) (λ xs. limit < length xs
        → ¬ Rose (S.faults src.old) (S.faults src.new)
        → IsErrOf result ReadRefusal.TooLong ⊎ IsErrOf result ReadRefusal.NoMemory) }

    ensures no_memory { IsErrOf result ReadRefusal.NoMemory → src.new ≡ src.old }
    ensures count { S.faults src.old ≤ S.faults src.new }
{
    let room = limit.checked_add(1).ok_or(ReadRefusal::NoMemory)?;
    let mut bytes = Vec::with_capacity(alloc, room)?;
    let filled = fill_room(src, &mut bytes, room)?;
    if filled > limit {
        return Err(ReadRefusal::TooLong);
    }
    bytes.truncate(filled);
    Ok(bytes)
}

// Reads until `room` bytes have come or the input has ended, and returns how many came. The empty vector has room for them, and
// is lengthened within its capacity as they come.
fn fill_room<S: Source>(src: &mut S, bytes: &mut Vec<u8>, room: usize) -> Result<usize, Failed>
    requires empty { vec_len bytes.old ≡ 0 }
    requires fits { room ≤ vec_capacity bytes.old }
    ensures bound { IfOk result (λ n. (n ≤ vec_len bytes.new) × (n ≤ room)) }
    ensures bytes { IfOk result (λ n. IfSome (S.left src.old) (λ xs. GivesFront xs (S.left src.new) bytes.new.items n)) }
    ensures end { IfOk result (λ n. n < room → IfSome (S.left src.old) (λ xs. n ≡ length xs)) }
    ensures lost { OnErr result (IfSome (S.left src.old)
        (λ xs. (k : ℕ) × (k < room) × LosesFront xs (S.left src.new) k)) }
    ensures cause { OnErr result (Rose (S.faults src.old) (S.faults src.new)) }
    ensures count { S.faults src.old ≤ S.faults src.new }
{
    let mut filled = 0;
    // The input has ended if a piece was not filled.
    while filled == bytes.len() && filled < room {
        // The room was taken before, so this cannot be refused.
        let Ok(()) = bytes.resize(filled + PIECE.min(room - filled), 0) else {
            unreachable!()
        };
        let count = fill(src, &mut bytes[filled..])?;
        filled += count;
    }
    Ok(filled)
}

// Reads until the buffer is full or the input has ended, and returns how many bytes came.
fn fill<S: Source>(src: &mut S, buf: &mut [u8]) -> Result<usize, Failed>
    ensures bound { IfOk result (λ n. n ≤ length buf.new) }
    ensures bytes { IfOk result (λ n. IfSome (S.left src.old) (λ xs. GivesFront xs (S.left src.new) buf.new n)) }
    ensures end { IfOk result (λ n. n < length buf.new → IfSome (S.left src.old) (λ xs. n ≡ length xs)) }
    ensures lost { OnErr result (IfSome (S.left src.old)
        (λ xs. (k : ℕ) × (k < length buf.new) × LosesFront xs (S.left src.new) k)) }
    ensures cause { OnErr result (Rose (S.faults src.old) (S.faults src.new)) }
    ensures count { S.faults src.old ≤ S.faults src.new }
{
    let mut filled = 0;
    while filled < buf.len() {
        let count = src.read(&mut buf[filled..])?;
        if count == 0 {
            break;
        }
        filled += count;
    }
    Ok(filled)
}
