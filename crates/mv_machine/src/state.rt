//! The state of the whole machine, and its one step, by specs/System.antt and specs/State.antt.

ghost use Rattle.std.specs.Prelude.{◌≡◌, ◌<◌, ◌≤◌, [], IfOk, IsTrue, ◌↔◌};
ghost use Rattle.mv_latch.specs.LatchSet.{list_of};
ghost use Rattle.mv_config.specs.Limits.{highest_place, place_limit};
ghost use Rattle.mv_machine.specs.System.{answer, after_step, place_of, volume_step};
ghost use Rattle.mv_machine.specs.System.{wakes_after, opening as opening_of};
ghost use Rattle.mv_machine.specs.State.{system_of, wakes_of, IsOpenedWith, IsStep, Exists, HasLatch};

use crate::admission::{admits_ecb, admits_element, posts_own_ecb};
use crate::entry::{Object, Op, Reply, VolumeOp, VolumeReply};
use crate::latches::open_latches;
use mv_config::ValidConfig;
use mv_ecb::{EcbOp, EcbWord, ecb_apply};
use mv_element::{ElementOp, ElementState, element_apply};
use mv_io::NoMemory;
use mv_latch::{LatchOp, LatchSet, Request, Wake};
use std::alloc::Global;

// An event control block and its place.
#[derive(Clone, Copy)]
struct EcbCell {
    place: u32,
    word: EcbWord,
}

// A pause element and its place.
#[derive(Clone, Copy)]
struct ElementCell {
    place: u32,
    state: ElementState,
}

// A volume and its place.
#[derive(Clone, Copy)]
struct VolumeCell {
    place: u32,
    number: u32,
}

/// The place and the state of every object of a configuration: the machine of one thread. `step` makes one event.
#[derive(Drop)]
pub struct State {
    ecbs: Vec<EcbCell>,
    elements: Vec<ElementCell>,
    volumes: Vec<VolumeCell>,
    latches: LatchSet,
    latch_place: u32,
    // The wakes of the last event on the latch set.
    wakes: Vec<Wake>,
}

impl State {
    /// Returns the state before the first event, with room for all that `step` will do. Blocks are zero, elements are free and
    /// of generation 0, volumes are 0, and no latch has a request.
    ///
    /// # Errors
    ///
    /// Returns `NoMemory` if there is not enough memory for that.
    pub fn opening(alloc: Global, config: &ValidConfig) -> Result<State, NoMemory>
        ensures system { IfOk result (λ s. system_of s ≡ opening_of config.now) }
        ensures wakes { IfOk result (λ s. wakes_of s ≡ []) }
        ensures opened { IfOk result (λ s. IsOpenedWith config.now s) }
    {
        let given = config.config();
        let zero = EcbCell {
            place: 0,
            word: EcbWord::zero(),
        };
        let ecbs = vec![in alloc; zero; given.owners.len()]?;
        let free = ElementCell {
            place: 0,
            state: ElementState::free(0),
        };
        let elements = vec![in alloc; free; config.elements() as usize]?;
        let empty = VolumeCell {
            place: 0,
            number: 0,
        };
        let volumes = vec![in alloc; empty; given.volumes as usize]?;
        let latches = open_latches(alloc, config)?;
        let wakes = Vec::with_capacity(alloc, config.most_wakes())?;
        Ok(State {
            ecbs,
            elements,
            volumes,
            latches,
            latch_place: 0,
            wakes,
        })
    }

    /// Returns whether the machine has this object.
    pub fn has(&self, object: Object) -> bool
        ensures { IsTrue result ↔ Exists self.now object }
    {
        match object {
            Object::Ecb(ecb) => (ecb as usize) < self.ecbs.len(),
            Object::Element(element) => (element as usize) < self.elements.len(),
            Object::Volume(volume) => (volume as usize) < self.volumes.len(),
            Object::Latches => true,
        }
    }

    /// Returns the number of events that an object has had, which is the place of its next event.
    pub fn place(&self, object: Object) -> u32
        requires { Exists self.now object }
        ensures { result ≡ place_of (system_of self.now) object }
    {
        match object {
            Object::Ecb(ecb) => self.ecbs[ecb as usize].place,
            Object::Element(element) => self.elements[element as usize].place,
            Object::Volume(volume) => self.volumes[volume as usize].place,
            Object::Latches => self.latch_place,
        }
    }

    /// Returns the word of an event control block.
    pub fn ecb(&self, ecb: u32) -> EcbWord
        requires { Exists self.now (Object.Ecb ecb) }
        ensures { result ≡ ((system_of self.now).ecb ecb).state }
    {
        self.ecbs[ecb as usize].word
    }

    /// Returns the state of a pause element.
    pub fn element(&self, element: u32) -> ElementState
        requires { Exists self.now (Object.Element element) }
        ensures { result ≡ ((system_of self.now).element element).state }
    {
        self.elements[element as usize].state
    }

    /// Returns the number in a volume.
    pub fn volume(&self, volume: u32) -> u32
        requires { Exists self.now (Object.Volume volume) }
        ensures { result ≡ ((system_of self.now).volume volume).state }
    {
        self.volumes[volume as usize].number
    }

    /// Returns the requests of a latch, in the order of their arrival.
    pub fn requests(&self, latch: u32) -> &[Request]
        requires { HasLatch self.now latch }
        ensures { result.now ≡ list_of (system_of self.now).latches.state latch }
    {
        self.latches.requests(latch)
    }

    /// Returns the wakes of the last event that `step` made on the latch set, in order. Before the first such event there are
    /// none.
    pub fn wakes(&self) -> &[Wake]
        ensures { result.now ≡ wakes_of self.now }
    {
        &self.wakes
    }

    /// Makes one operation of a caller on an object, and returns the place that the object had and the reply. The object's
    /// place rises by one; the old place is the number of an obtain's request.
    ///
    /// Returns `None`, and changes nothing, exactly if the operation is not admitted: the caller or the object does not exist,
    /// or the caller may not make the operation, or it is not within the limits. It never waits, and needs no memory.
    // Inlined with its parts: to hand an operation and a reply on through memory costs more than the step.
    #[inline(always)]
    pub fn step(
        &mut self,
        config: &ValidConfig,
        caller: u32,
        object: Object,
        op: Op,
    ) -> Option<(u32, Reply)>
        requires opened { IsOpenedWith config.now self.old }
        requires place { place_of (system_of self.old) object ≤ highest_place }
        ensures answer { result ≡ answer config.now (system_of self.old) caller object op }
        ensures after { system_of self.new ≡ after_step config.now (system_of self.old) caller object op }
        ensures wakes { wakes_of self.new ≡ wakes_after config.now (system_of self.old) (wakes_of self.old) caller object op }
        ensures opened { IsOpenedWith config.now self.new }
    {
        self.advance(config, caller, object, op)
    }

    // Makes a step at any place of 19 bits. A step at the last such place leaves a place of 20 bits, so it must be the last
    // step on the object.
    #[inline(always)]
    pub(crate) fn advance(
        &mut self,
        config: &ValidConfig,
        caller: u32,
        object: Object,
        op: Op,
    ) -> Option<(u32, Reply)>
        requires opened { IsOpenedWith config.now self.old }
        requires place { place_of (system_of self.old) object < place_limit }
        ensures { IsStep config.now self.old self.new caller object op result }
    {
        if !config.has_caller(caller) {
            return None;
        }
        match (object, op) {
            (Object::Ecb(ecb), Op::Ecb(op)) => self.advance_ecb(config, caller, ecb, op),
            (Object::Element(element), Op::Element(op)) => self.advance_element(
                config, caller, element, op,
            ),
            (Object::Volume(volume), Op::Volume(op)) => self.advance_volume(
                config, caller, volume, op,
            ),
            (Object::Latches, Op::Latch(op)) => self.advance_latches(config, caller, op),
            _ => None,
        }
    }

    #[inline(always)]
    fn advance_ecb(
        &mut self,
        config: &ValidConfig,
        caller: u32,
        ecb: u32,
        op: EcbOp,
    ) -> Option<(u32, Reply)>
        requires opened { IsOpenedWith config.now self.old }
        requires caller { caller < config.now.callers }
        requires place { place_of (system_of self.old) (Object.Ecb ecb) < place_limit }
        ensures { IsStep config.now self.old self.new caller (Object.Ecb ecb) (Op.Ecb op) result }
    {
        if !config.has_ecb(ecb) || !admits_ecb(config, caller, ecb, op) {
            return None;
        }
        let old = self.ecbs[ecb as usize];
        let (word, reply) = ecb_apply(op, old.word);
        self.ecbs[ecb as usize] = EcbCell {
            place: old.place + 1,
            word,
        };
        Some((old.place, Reply::Ecb(reply)))
    }

    fn advance_element(
        &mut self,
        config: &ValidConfig,
        caller: u32,
        element: u32,
        op: ElementOp,
    ) -> Option<(u32, Reply)>
        requires opened { IsOpenedWith config.now self.old }
        requires caller { caller < config.now.callers }
        requires place { place_of (system_of self.old) (Object.Element element) < place_limit }
        ensures { IsStep config.now self.old self.new caller (Object.Element element) (Op.Element op) result }
    {
        if !config.has_element(element) || !admits_element(config, caller, element, op) {
            return None;
        }
        let old = self.elements[element as usize];
        let (state, reply) = element_apply(op, old.state);
        self.elements[element as usize] = ElementCell {
            place: old.place + 1,
            state,
        };
        Some((old.place, Reply::Element(reply)))
    }

    fn advance_volume(
        &mut self,
        config: &ValidConfig,
        caller: u32,
        volume: u32,
        op: VolumeOp,
    ) -> Option<(u32, Reply)>
        requires opened { IsOpenedWith config.now self.old }
        requires caller { caller < config.now.callers }
        requires place { place_of (system_of self.old) (Object.Volume volume) < place_limit }
        ensures { IsStep config.now self.old self.new caller (Object.Volume volume) (Op.Volume op) result }
    {
        if !config.has_volume(volume) {
            return None;
        }
        let old = self.volumes[volume as usize];
        let (number, reply) = volume_apply(op, old.number);
        self.volumes[volume as usize] = VolumeCell {
            place: old.place + 1,
            number,
        };
        Some((old.place, Reply::Volume(reply)))
    }

    fn advance_latches(
        &mut self,
        config: &ValidConfig,
        caller: u32,
        op: LatchOp,
    ) -> Option<(u32, Reply)>
        requires opened { IsOpenedWith config.now self.old }
        requires caller { caller < config.now.callers }
        requires place { place_of (system_of self.old) Object.Latches < place_limit }
        ensures { IsStep config.now self.old self.new caller Object.Latches (Op.Latch op) result }
    {
        if !posts_own_ecb(config, caller, op) {
            return None;
        }
        let place = self.latch_place;
        let reply = self.latches.apply(caller, place, op, &mut self.wakes)?;
        self.latch_place = place + 1;
        Some((place, Reply::Latch(reply)))
    }
}

// Makes one operation on a volume, and returns the number after it and the reply.
pub(crate) fn volume_apply(op: VolumeOp, number: u32) -> (u32, VolumeReply)
    ensures { result ≡ volume_step op number }
{
    match op {
        VolumeOp::Read => (number, VolumeReply::Value(number)),
        VolumeOp::Write(next) => (next, VolumeReply::Stored),
    }
}
