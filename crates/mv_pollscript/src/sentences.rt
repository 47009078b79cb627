//! What is said of tasks that have calls left: each sentence is here once.

pub(crate) const TASK: &[u8] = b"task ";

pub(crate) const WAITS: &[u8] = b" waits at its call ";

pub(crate) const FOR_BLOCK: &[u8] = b" for block ";

pub(crate) const FOR_ELEMENT: &[u8] = b" for a release of element ";

pub(crate) const FOR_LATCH: &[u8] = b" for latch ";

pub(crate) const WHICH_TASK: &[u8] = b", which task ";

pub(crate) const WOULD_POST: &[u8] = b" would post at its call ";

pub(crate) const WOULD_RELEASE: &[u8] = b" would release at its call ";

pub(crate) const NOBODY_POSTS: &[u8] = b", which no call that is left names in a post\n";

pub(crate) const NOBODY_RELEASES: &[u8] = b", which no call that is left releases\n";

pub(crate) const HOLDS: &[u8] = b" holds\n";

pub(crate) const STOPS: &[u8] = b" stops before its call ";

pub(crate) const NOT_MADE: &[u8] =
    b", which is not made here: a TRANSFER that pauses, an EVPOST or an EVNEXT\n";
