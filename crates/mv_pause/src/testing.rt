//! A read of an element's state. Clauses cite `Pauses.antt` of mv_calls.

ghost use Rattle.std.specs.Prelude.{◌≡◌, ◌<◌, ◌≤◌};
ghost use Rattle.mv_wait.specs.Prelude.{element_count, highest_generation, test_element, IsServed, MayCall};

use crate::replies::state;
use mv_element::ElementState;
use mv_machine::Object;
use mv_wait::{Station, Task};

/// Returns the state of an element of any caller: its phase, its generation of 18 bits, and the code of three bytes that is kept
/// for its pause, or 0.
///
/// The call makes one event, which must be left. It never waits.
///
/// # Examples
///
/// From `crates/mv_runscript/src/serving.rt`, an arm of the match over the calls of a script:
///
/// ```
/// Call::TestElement(element) => Answer::State(test_element(station, task, *element)),
/// ```
pub fn test_element(station: &Station, task: &mut Task, element: u32) -> ElementState
    requires task { MayCall station.now 1 task.old }
    requires element { element < element_count station.now.config }
    ensures served { IsServed 1 (test_element element) (λ a. a ≡ result) task.old task.new }
    ensures low { result.generation ≤ highest_generation }
{
    state(station.test(task, Object::Element(element)))
}
