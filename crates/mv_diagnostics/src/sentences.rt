//! The sentence of each kind of fault, and what stands around them. Each is here once; `specs/Sentence.antt` says which kind has which.

ghost use Rattle.std.specs.Prelude.{◌≡◌};
ghost use Rattle.mv_diagnostics.specs.Sentence.{byte_name as name_of_byte, deck_sentence as sentence_of_deck};
ghost use Rattle.mv_diagnostics.specs.Sentence.{script_sentence as sentence_of_script, journal_sentence as sentence_of_journal};

// ---- any text in lines of 80 bytes

pub(crate) const FOREIGN_BYTE: &[u8] =
    b"a byte that is not printable ASCII; only the bytes 32 to 126 are allowed";

pub(crate) const TOO_LONG: &[u8] = b"the line has more than 80 bytes; shorten it";

// ---- decks

pub(crate) const NO_STATEMENT: &[u8] =
    b"this is not a statement of a deck; expected // and then JOB (directly after // and a name), PRINT, USE, FREE, COUNT, SCAN or ABEND, in capitals and with their operands, or // with nothing after it; RETURN only after // DECK 2";

pub(crate) const BAD_NAME: &[u8] =
    b"an invalid name; a job's name has 1 to 8 of A to Z, 0 to 9, @, # and $, and does not begin with a digit";

pub(crate) const REPEATED_NAME: &[u8] =
    b"an earlier job has this name; give each job a different name";

pub(crate) const UNKNOWN_AFTER: &[u8] =
    b"AFTER names a job that is not above this line; a job can only wait for earlier ones";

pub(crate) const CROWDED_AFTER: &[u8] = b"AFTER names a job twice, or more than eight jobs";

pub(crate) const BAD_OPERAND: &[u8] =
    b"an invalid number or code; latches and volumes are 0 to 7, an amount 1 to 9999, a return code 0 to 4095, the code of an ABEND U0000 to U4095 or S001 to SFFF, and no number has a leading zero";

pub(crate) const LATCH_ORDER: &[u8] =
    b"USE of a latch that is not above every latch that the job holds; obtain latches in rising order, or FREE the higher ones first";

pub(crate) const LATCH_NOT_HELD: &[u8] =
    b"the job does not hold this latch as it must; FREE and SCAN need a USE of it before, and COUNT a USE with X";

pub(crate) const MISPLACED: &[u8] =
    b"a statement before the first JOB, or after the null statement // that ends the deck";

pub(crate) const NO_NULL: &[u8] =
    b"the deck ends here without its null statement; add a last line //";

pub(crate) const AFTER_END: &[u8] =
    b"the job has ended by its ABEND or RETURN; only a JOB or // can follow";

pub(crate) const TOO_HEAVY: &[u8] =
    b"the jobs up to this line weigh more than 524287, the most events that a run may have; leave out jobs or steps";

pub(crate) const LATE_DECK: &[u8] = b"// DECK 2 must be the first statement";

// ---- scripts

pub(crate) const NO_LINE: &[u8] =
    b"this is not a line of a script; expected SCRIPT, ECB, EXIT, TABLE, TASK, END or a call, in capitals, with its fields and no space in front";

pub(crate) const BAD_NUMBER: &[u8] =
    b"a number with a leading zero, out of its range, or of a task, block, volume, element, event or position that this script does not have";

pub(crate) const OUT_OF_ORDER: &[u8] =
    b"a line out of order; expected SCRIPT, then each ECB, each EXIT, a TABLE, each TASK followed by its calls, and END";

pub(crate) const MISCOUNTED: &[u8] =
    b"more tasks than SCRIPT states, or fewer at END; or more than 128 calls in a task, 64 blocks, 16 exits or one table";

pub(crate) const LEADS_DOWN: &[u8] = b"each target of an EXIT must be above its source";

pub(crate) const NO_OBTAIN: &[u8] =
    b"CHECK and FREE name an OBTAIN above them in the same task, counted from 1";

pub(crate) const NO_END: &[u8] = b"the script ends here without END; add a last line END";

pub(crate) const TOO_COSTLY: &[u8] =
    b"the calls up to this line may make more than 524287 events, the most that a run may have; leave out calls";

pub(crate) const USES_TABLE: &[u8] =
    b"this call names a block of the TABLE, its volume or its latch, or a requestor of 2^63 or more; beside EVPOST, EVNEXT and TEST no call may";

pub(crate) const BAD_TABLE: &[u8] =
    b"an invalid table; a table has 1 to 32 events and as many slots, in blocks of its owner that no EXIT names and that do not overlap, and a latch that exists";

// ---- journals

pub(crate) const NO_ENTRY: &[u8] =
    b"a line that is malformed, or not allowed at this place; fields have one space between and no CR, and an event is `caller.call object place operation = reply`, in version 1 without `.call`";

pub(crate) const BAD_DIGITS: &[u8] = b"a number with a leading zero or beyond its range";

pub(crate) const BAD_CONFIG: &[u8] =
    b"the lines above EVENTS state an invalid configuration; there are 1 to 16 callers with a BUDGET each, 1 to 16 elements, 1 to 8 volumes and latches, a quota of 1 to 16 and a second one no higher; an ECB names a caller, an EXIT 1 to 8 blocks above its source, and the budgets are at most 524287 in all";

pub(crate) const WRONG_COUNT: &[u8] = b"END does not have the number of the events above it";

pub(crate) const CUT_OFF: &[u8] =
    b"the journal is cut off; this line does not end with LF, or the END line is missing";

// ---- bytes

pub(crate) const TAB: &[u8] = b", a tab";

pub(crate) const CARRIAGE_RETURN: &[u8] = b", a CR that is not the last of its line";

pub(crate) const BYTE_ORDER_MARK: &[u8] =
    b", as the byte order mark begins that some editors write; save without it";

pub(crate) const UNNAMED: &[u8] = b"";

// ---- around them

pub(crate) const LINE: &[u8] = b", line ";

pub(crate) const KIND: &[u8] = b", kind ";

pub(crate) const COLUMN: &[u8] = b"  column ";

pub(crate) const BYTE: &[u8] = b": byte ";

pub(crate) const QUOTE: &[u8] = b"  | ";

pub(crate) const LONG_DECK: &[u8] = b"a deck of more than 1048576 bytes, the most that is read\n";

pub(crate) const LONG_SCRIPT: &[u8] =
    b"a script of more than 1048576 bytes, the most that is read\n";

pub(crate) const GOOD_DECK: &[u8] = b"a deck without fault; jobs: ";

pub(crate) const INITIATORS: &[u8] = b"initiators ";

pub(crate) const WEIGHT: &[u8] = b": weight ";

pub(crate) const CAN_RUN: &[u8] = b" of at most 524287, can run it\n";

pub(crate) const TOO_HEAVY_FROM: &[u8] = b" of at most 524287, too heavy from line ";

pub(crate) const JOB: &[u8] = b"  job ";

pub(crate) const HOLDS: &[u8] = b" holds latch ";

pub(crate) const HOLDS_NONE: &[u8] = b" holds no latch\n";

pub(crate) const SHARED: &[u8] = b" S\n";

pub(crate) const EXCLUSIVE: &[u8] = b" X\n";

pub(crate) const GOOD_SCRIPT: &[u8] = b"a script without fault\n";

pub(crate) const TASK: &[u8] = b"task ";

pub(crate) const CALLS: &[u8] = b", calls: ";

pub(crate) const RUN_DECK: &[u8] = b"run it: tongsthyme spool I < FILE, for I initiators\n";

pub(crate) const RUN_SCRIPT: &[u8] =
    b"run it: tongsthyme script < FILE, or, if it waits for ever: tongsthyme explain --run 0 < FILE\n";

/// The sentence of a kind of fault of decks, by its number.
pub(crate) fn deck_sentence(kind: u32) -> &'static [u8]
    ensures { result.now ≡ sentence_of_deck kind }
{
    match kind {
        1 => FOREIGN_BYTE,
        2 => TOO_LONG,
        3 => NO_STATEMENT,
        4 => BAD_NAME,
        5 => REPEATED_NAME,
        6 => UNKNOWN_AFTER,
        7 => CROWDED_AFTER,
        8 => BAD_OPERAND,
        9 => LATCH_ORDER,
        10 => LATCH_NOT_HELD,
        11 => MISPLACED,
        12 => NO_NULL,
        13 => AFTER_END,
        14 => TOO_HEAVY,
        _ => LATE_DECK,
    }
}

/// The sentence of a kind of fault of scripts, by its number.
pub(crate) fn script_sentence(kind: u32) -> &'static [u8]
    ensures { result.now ≡ sentence_of_script kind }
{
    match kind {
        1 => FOREIGN_BYTE,
        2 => TOO_LONG,
        3 => NO_LINE,
        4 => BAD_NUMBER,
        5 => OUT_OF_ORDER,
        6 => MISCOUNTED,
        7 => LEADS_DOWN,
        8 => NO_OBTAIN,
        9 => NO_END,
        10 => TOO_COSTLY,
        11 => USES_TABLE,
        _ => BAD_TABLE,
    }
}

/// The sentence of a kind of fault of journals, by its number.
pub fn journal_sentence(kind: u32) -> &'static [u8]
    ensures { result.now ≡ sentence_of_journal kind }
{
    match kind {
        1 => NO_ENTRY,
        2 => BAD_DIGITS,
        3 => BAD_CONFIG,
        4 => WRONG_COUNT,
        _ => CUT_OFF,
    }
}

/// What a byte is that is not printable, behind its number.
pub(crate) fn byte_name(byte: u8) -> &'static [u8]
    ensures { result.now ≡ name_of_byte byte }
{
    match byte {
        9 => TAB,
        13 => CARRIAGE_RETURN,
        239 => BYTE_ORDER_MARK,
        _ => UNNAMED,
    }
}
