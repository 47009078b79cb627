//! What is said of an input, and of the events of a journal: each sentence is here once.

pub(crate) const NOTHING: &[u8] = b"the input is empty\n";

pub(crate) const OTHER: &[u8] =
    b"this does not begin as a deck (//), a script (SCRIPT) or a journal (JOURNAL); read as a deck:\n";

pub(crate) const LEGAL_EVENTS: &[u8] = b"a legal journal; events: ";

pub(crate) const BY_TASK: &[u8] = b"task ";

pub(crate) const MADE: &[u8] = b", events: ";

pub(crate) const ON_BLOCKS: &[u8] = b"on event control blocks ";

pub(crate) const ON_ELEMENTS: &[u8] = b", on pause elements ";

pub(crate) const ON_VOLUMES: &[u8] = b", on volumes ";

pub(crate) const ON_LATCHES: &[u8] = b", on the latch set ";

pub(crate) const JOURNAL_LINE: &[u8] = b"journal, line ";

pub(crate) const HAS_NUMBER: &[u8] = b": the event has call number ";

pub(crate) const BELONGS_TO: &[u8] = b", and belongs to call ";

pub(crate) const OF_ITS_TASK: &[u8] = b" of its task\n";

pub(crate) const DRAW_JOURNAL: &[u8] = b"draw it: tools/picture FILE > FILE.svg\n";

pub(crate) const ILLEGAL: &[u8] = b": the services do not do this here\n";

pub(crate) const MACHINE: &[u8] = b"the machine answers: ";

pub(crate) const NOT_ADMITTED: &[u8] =
    b"the machine does not admit this operation: there is no such task, object or exit, the object is another task's, or the task's requests for latches are at their quota\n";

pub(crate) const STATE: &[u8] = b"before it: ";

pub(crate) const AT_LATCH: &[u8] = b"before it, latch ";

pub(crate) const REQUEST: &[u8] = b": request ";

pub(crate) const OF_TASK: &[u8] = b" of task ";

pub(crate) const OF_REQUESTOR: &[u8] = b", requestor ";

pub(crate) const SHARED: &[u8] = b", S\n";

pub(crate) const EXCLUSIVE: &[u8] = b", X\n";

pub(crate) const AT: &[u8] = b"earlier, line ";
