//! Results for callers: in their buffers bytes or numbers, and the numbers of answers.
ghost use Rattle.std.specs.Prelude.{◌≡◌, ◌≤◌, length};
ghost use Rattle.aclck_c.specs.Out.{Puts, truth_number};
ghost use Rattle.aclck_c.specs.internal.Endings.{EndsAnswer, EndsBoth, EndsCall, EndsTruth, PutsIfRoom};
ghost use Rattle.aclck_c.specs.internal.Numbers.{number_of_status};

use crate::failure::Failure;
use crate::refusal::Refusal;
use crate::status::Status;

/// Returns 1 for true and 0 for false.
pub(crate) fn truth_number(answer: bool) -> u32
    ensures { result ≡ truth_number answer }
{
    if answer { 1 } else { 0 }
}

/// Puts the items that a call made at the front of the buffer, or reports why the call failed. Returns the number
/// of the status. If the call failed, the buffer and `needed` stay as they were.
pub(crate) fn answer<T: Copy>(
    made: Result<Vec<T>, Failure>,
    out: &mut [T],
    needed: &mut usize,
    fault: &mut Refusal,
) -> u32
    ensures { EndsCall made out.old out.new needed.old needed.new fault.old fault.new result }
{
    let status = match made {
        Ok(items) => put(&items, out, needed),
        Err(failure) => failure.report(fault),
    };
    status.number()
}

/// Writes the answer that a call found, or reports why the call failed. Returns the number of the status. If the call
/// failed, the answer stays as it was.
pub(crate) fn answer_value<T: Copy>(
    found: Result<T, Failure>,
    answer: &mut T,
    fault: &mut Refusal,
) -> u32
    ensures { EndsAnswer found answer.old answer.new fault.old fault.new result }
{
    let status = match found {
        Ok(value) => {
            *answer = value;
            Status::Done
        }
        Err(failure) => failure.report(fault),
    };
    status.number()
}

/// Writes 1 or 0 for the yes or no that a call found, as `answer_value` does.
pub(crate) fn answer_truth(
    found: Result<bool, Failure>,
    answer: &mut u32,
    fault: &mut Refusal,
) -> u32
    ensures { EndsTruth found answer.old answer.new fault.old fault.new result }
{
    answer_value(found.map(truth_number), answer, fault)
}

/// What a call made: a value, and items for a buffer.
#[derive(Drop)]
pub(crate) struct Made<V, T> {
    pub value: V,
    pub items: Vec<T>,
}

/// Writes the value that a call made and puts its items at the front of the buffer, or reports why the call failed, as
/// `answer` does. If the call failed, the value stays as it was.
pub(crate) fn answer_both<V: Copy, T: Copy>(
    made: Result<Made<V, T>, Failure>,
    value: &mut V,
    out: &mut [T],
    needed: &mut usize,
    fault: &mut Refusal,
) -> u32
    ensures { EndsBoth made value.old value.new out.old out.new needed.old needed.new
        fault.old fault.new result }
{
    let status = match made {
        Ok(made) => {
            *value = made.value;
            put(&made.items, out, needed)
        }
        Err(failure) => failure.report(fault),
    };
    status.number()
}

/// Puts items at the front of the buffer, or nothing if they are more than the buffer has room for. It reports their
/// number in both cases, and returns the status.
pub(crate) fn put<T: Copy>(items: &[T], out: &mut [T], needed: &mut usize) -> Status
    ensures { PutsIfRoom items.now out.old out.new needed.new (number_of_status result) }
{
    *needed = items.len();
    if items.len() > out.len() {
        return Status::Short;
    }
    fill(items, out);
    Status::Done
}

/// Puts items at the front of a buffer that has room for them.
pub(crate) fn fill<T: Copy>(items: &[T], out: &mut [T])
    requires { length items.now ≤ length out.old }
    ensures { Puts items.now out.old out.new }
{
    // An empty copy would still call `memmove`.
    if items.is_empty() {
        return;
    }
    let (front, _) = out.split_at_mut(items.len());
    front.copy_from_slice(items);
}
