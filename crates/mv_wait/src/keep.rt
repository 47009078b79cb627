//! What a task keeps of its own entries, in tables. Clauses cite `specs/Keep.antt` and `Keeping.antt` of mv_calls.

ghost use Rattle.std.specs.Prelude.{◌≡◌, ◌*◌, ◌+◌, ◌<◌, ◌≤◌, ◌==◌, ◌++◌, ◌∷◌, [], ℕ, Bool, not, List, length, count_by, is_some};
ghost use Rattle.std.specs.Prelude.{IfOk, IfSome};
ghost use Rattle.std.specs.List.{list_any};
ghost use Rattle.slab.specs.Slab.{HasRoomFor, slab_len, entries};
ghost use Rattle.mv_element.specs.declared.operation.ElementReply.TheVariants.{Closed};
ghost use Rattle.mv_calls.specs.Prelude.{Kept, nothing_kept, kept_after, generation_after, StandingRequest, is_posting, less, is_named};
ghost use Rattle.mv_calls.specs.Prelude.{is_for, stands_after, events_limit, extended_with, in_use_with, generation_with};
ghost use Rattle.mv_machine.specs.declared.entry.Op.TheVariants as op_on;
ghost use Rattle.mv_machine.specs.declared.entry.Reply.TheVariants as reply_of;
ghost use Rattle.mv_wait.specs.Keep.{Keeps, Reaches, HasRoomToStand, IsOfKind, ClosesBelow, AreHeld, HoldsRequest};
ghost use Rattle.mv_wait.specs.Keep.{AreExtended, AreElements, meets, request_of, element_after};

use mv_ecb::{EcbOp, EcbReply};
use mv_element::{ElementOp, ElementReply};
use mv_io::NoMemory;
use mv_latch::{LatchForm, LatchOp, LatchReply, Mode, Request};
use mv_machine::{Object, Op, Reply, ValidConfig};
use slab::Slab;
use std::alloc::Global;

/// What a task keeps of one of its elements.
#[derive(Clone, Copy)]
pub(crate) struct OwnElement {
    pub in_use: bool,
    pub generation: u32,
}

/// A standing latch request of the task, and its latch.
#[derive(Clone, Copy)]
pub(crate) struct HeldRequest {
    pub latch: u32,
    pub request: Request,
}

/// What a task keeps of its entries: which blocks it holds extended, its elements from number `first` on, and its standing
/// requests.
#[derive(Drop)]
pub(crate) struct Keep {
    pub caller: u32,
    pub first: u32,
    pub extended: Vec<bool>,
    pub elements: Vec<OwnElement>,
    pub requests: Slab<HeldRequest>,
}

impl Keep {
    /// Returns what a task keeps before its first entry: nothing. All memory is taken here, with room for as many requests as the
    /// quota allows.
    ///
    /// # Errors
    ///
    /// `NoMemory` if memory runs out.
    pub(crate) fn empty(alloc: Global, config: &ValidConfig, caller: u32) -> Result<Keep, NoMemory>
        requires exists { caller < config.now.callers }
        ensures kept { IfOk result (λ k. Keeps (nothing_kept caller) k) }
        ensures caller { IfOk result (λ k. (k.caller ≡ caller) × (k.first ≡ caller * config.now.elements_per_caller)) }
        ensures blocks { IfOk result (λ k. length k.extended.items ≡ length config.now.owners) }
        ensures elements { IfOk result (λ k. length k.elements.items ≡ config.now.elements_per_caller) }
        ensures room { IfOk result (λ k. (slab_len k.requests ≡ 0) × (config.now.quota ≤ k.requests.capacity)) }
    {
        let given = config.config();
        let none = OwnElement {
            in_use: false,
            generation: 0,
        };
        Ok(Keep {
            caller,
            first: config.own_elements(caller).start,
            extended: vec![in alloc; false; given.owners.len()]?,
            elements: vec![in alloc; none; given.elements_per_caller as usize]?,
            requests: Slab::with_capacity(alloc, given.quota as usize)?,
        })
    }

    /// Records one more event of the task. It takes no memory.
    #[inline(always)]
    pub(crate) fn follow(&mut self, object: Object, op: Op, reply: Reply)
        requires block { Reaches object self.old }
        requires room { HasRoomToStand op self.old.requests }
        requires kinds { IsOfKind object op reply }
        requires closes { ClosesBelow op reply }
        ensures kept { (kept : Kept) → kept.caller ≡ self.old.caller → Keeps kept self.old
            → Keeps (kept_after kept object op reply) self.new }
        ensures same { (self.new.caller ≡ self.old.caller) × (self.new.first ≡ self.old.first) }
        ensures sizes { (length self.new.extended.items ≡ length self.old.extended.items)
            × (length self.new.elements.items ≡ length self.old.elements.items) }
        ensures room { slab_len self.new.requests ≤ slab_len self.old.requests + 1 }
        ensures capacity { self.new.requests.capacity ≡ self.old.requests.capacity }
    {
        match (object, op, reply) {
            (Object::Ecb(n), Op::Ecb(op), Reply::Ecb(reply)) => self.follow_block(n, op, reply),
            (Object::Element(n), Op::Element(op), Reply::Element(reply)) => self.follow_element(
                n, op, reply,
            ),
            (Object::Latches, Op::Latch(op), Reply::Latch(reply)) => self.follow_latches(op, reply),
            _ => {}
        }
    }
}

impl Keep {
    ghost use Rattle.mv_machine.specs.declared.entry.Object.TheVariants as object;

    // Records an event on a block: the block is extended from an Extend with the reply Armed until a Clear.
    #[inline(always)]
    fn follow_block(&mut self, n: u32, op: EcbOp, reply: EcbReply)
        requires block { n < length self.old.extended.items }
        ensures kept { (held : ℕ → Bool) → AreExtended held self.old
            → AreExtended (extended_with held (object.Ecb n) (op_on.Ecb op) (reply_of.Ecb reply)) self.new }
        ensures same { self.new ≡ record self.old { extended = self.new.extended } }
        ensures size { length self.new.extended.items ≡ length self.old.extended.items }
    {
        match (op, reply) {
            (EcbOp::Extend(_), EcbReply::Armed) => self.extended[n as usize] = true,
            (EcbOp::Clear, _) => self.extended[n as usize] = false,
            _ => {}
        }
    }

    // Records an event on an element, if it is the task's own: it is in use from its Open to its Close, and the replies say its
    // generation.
    #[inline(always)]
    fn follow_element(&mut self, n: u32, op: ElementOp, reply: ElementReply)
        requires closes { ClosesBelow (op_on.Element op) (reply_of.Element reply) }
        ensures kept { (used : ℕ → Bool) (generation : ℕ → ℕ) → AreElements used generation self.old
            → AreElements (in_use_with used (object.Element n) (reply_of.Element reply))
            (generation_with generation (object.Element n) (op_on.Element op) (reply_of.Element reply)) self.new }
        ensures same { self.new ≡ record self.old { elements = self.new.elements } }
        ensures size { length self.new.elements.items ≡ length self.old.elements.items }
    {
        if n < self.first {
            return;
        }
        let i = (n - self.first) as usize;
        if i >= self.elements.len() {
            return;
        }
        let old = self.elements[i];
        self.elements[i] = after(old, op, reply);
    }

    // Records an event on the latch set: a request stands from its Obtain until it is gone, released or purged.
    #[inline(always)]
    fn follow_latches(&mut self, op: LatchOp, reply: LatchReply)
        requires room { HasRoomToStand (op_on.Latch op) self.old.requests }
        ensures kept { (ts : List StandingRequest) → AreHeld ts self.old.requests.slots
            → AreHeld (stands_after self.old.caller ts op reply) self.new.requests.slots }
        ensures same { self.new ≡ record self.old { requests = self.new.requests } }
        ensures room { slab_len self.new.requests ≤ slab_len self.old.requests + 1 }
        ensures capacity { self.new.requests.capacity ≡ self.old.requests.capacity }
    {
        match (op, reply) {
            (
                LatchOp::Obtain {
                    latch,
                    requestor,
                    mode,
                    form,
                },
                LatchReply::Granted(id) | LatchReply::Queued(id),
            ) => self.stand(latch, id, requestor, mode, form),
            (LatchOp::Confirm { latch, id }, LatchReply::Gone)
            | (
                LatchOp::Release { latch, id, .. },
                LatchReply::Gone | LatchReply::Released { .. },
            ) => {
                retain_others(&mut self.requests, latch, id);
            }
            (LatchOp::Purge { requestor }, LatchReply::Purged { .. }) => {
                retain_requestors(&mut self.requests, requestor);
            }
            _ => {}
        }
    }
}

impl Keep {
    // Records one more standing request. There is room for it.
    #[inline(always)]
    fn stand(&mut self, latch: u32, id: u32, requestor: u64, mode: Mode, form: LatchForm)
        requires room { HasRoomFor self.old.requests 1 }
        ensures kept { (ts : List StandingRequest) → AreHeld ts self.old.requests.slots
            → AreHeld (ts ++ record {
              latch = latch;
              request = record { id = id; caller = self.old.caller; requestor = requestor; mode = mode; form = form };
            } ∷ [])
            self.new.requests.slots }
        ensures same { self.new ≡ record self.old { requests = self.new.requests } }
        ensures room { slab_len self.new.requests ≡ slab_len self.old.requests + 1 }
        ensures capacity { self.new.requests.capacity ≡ self.old.requests.capacity }
    {
        let request = Request {
            id,
            caller: self.caller,
            requestor,
            mode,
            form,
        };
        self.requests
            .insert_reserved(HeldRequest { latch, request });
    }
}

// An element's entry after an event on it.
fn after(element: OwnElement, op: ElementOp, reply: ElementReply) -> OwnElement
    requires { ClosesBelow (op_on.Element op) (reply_of.Element reply) }
    ensures { result ≡ element_after element op reply }
{
    match reply {
        ElementReply::Opened(generation) => OwnElement {
            in_use: true,
            generation,
        },
        ElementReply::Closed => OwnElement {
            in_use: false,
            generation: closed(element.generation, op),
        },
        ElementReply::Given { next, .. } => OwnElement {
            in_use: element.in_use,
            generation: next,
        },
        _ => element,
    }
}

// The generation after an element was closed.
fn closed(kept: u32, op: ElementOp) -> u32
    requires { ClosesBelow (op_on.Element op) (reply_of.Element Closed) }
    ensures { result ≡ generation_after kept op Closed }
{
    match op {
        ElementOp::Close(generation) => generation + 1,
        _ => kept,
    }
}

// Takes out the request of this number at this latch.
fn retain_others(requests: &mut Slab<HeldRequest>, latch: u32, id: u32)
    ensures kept { (ts : List StandingRequest) → AreHeld ts requests.old.slots → AreHeld (less (is_named latch id) ts) requests.new.slots }
    ensures len { slab_len requests.new ≤ slab_len requests.old }
    ensures capacity { requests.new.capacity ≡ requests.old.capacity }
{
    requests.retain(
        |_key: usize, s: &mut HeldRequest| -> bool
            ensures keep { result ≡ not (is_named latch id (request_of s.old)) }
            ensures same { s.new ≡ s.old }
        { s.latch != latch || s.request.id != id },
    );
}

// Takes out all requests of a requestor.
fn retain_requestors(requests: &mut Slab<HeldRequest>, requestor: u64)
    ensures kept { (ts : List StandingRequest) → AreHeld ts requests.old.slots → AreHeld (less (is_for requestor) ts) requests.new.slots }
    ensures len { slab_len requests.new ≤ slab_len requests.old }
    ensures capacity { requests.new.capacity ≡ requests.old.capacity }
{
    requests.retain(
        |_key: usize, s: &mut HeldRequest| -> bool
            ensures keep { result ≡ not (is_for requestor (request_of s.old)) }
            ensures same { s.new ≡ s.old }
        { s.request.requestor != requestor },
    );
}

/// Returns how many requests have the Posted form, and so a block to post at their grant.
pub(crate) fn posting_count(requests: &Slab<HeldRequest>) -> u32
    requires { slab_len requests.now ≤ events_limit }
    ensures { result ≡ count_by (meets is_posting) requests.now.slots }
{
    let mut count = 0;
    for (_key, stood) in requests.iter() {
        if let LatchForm::Posted(_) = stood.request.form {
            count += 1;
        }
    }
    count
}

/// Returns the slab key of a request of this number, if there is one.
pub(crate) fn key_of(requests: &Slab<HeldRequest>, id: u32) -> Option<usize>
    ensures stands { is_some result ≡ list_any (λ e. (request_of e.1).request.id == id) (entries requests.now) }
    ensures there { IfSome result (λ key. HoldsRequest requests.now id key) }
{
    for (key, stood) in requests.iter() {
        if stood.request.id == id {
            return Some(key);
        }
    }
    None
}
