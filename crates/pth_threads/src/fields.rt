//! The fields of named objects and of threads.

ghost use Rattle.std.specs.Prelude.{◌≡◌, ◌≤◌, ℕ, Some, Ok, Err, true, false, OnOk, not, if◌then◌else◌};
ghost use Rattle.pth_base.specs.Limits.{last_count};
ghost use Rattle.pth_base.specs.declared.errno.Errno.TheVariants.{EINVAL, EPERM};
ghost use Rattle.pth_numbered.specs.Operands.{◌is_from◌to◌};
ghost use Rattle.pth_threads.specs.Threads.{IsCountable};
ghost use Rattle.pth_threads.specs.Attributes.{flag, state_number, field_of_thread, field_of_values, is_of_thread, is_fixed, is_in_range, with_value, change_of, KeepsSet, AreSet};

use crate::attribute::copied_values;
use crate::entry::{Change, Entry, NewThread, ThreadState};
use pth_base::attr::{AttrField, AttrValue};
use pth_base::errno::Errno;

// 1 for what holds, and 0 for what doesn't.
fn number_of_flag(on: bool) -> i64
    ensures { result ≡ flag on }
{
    if on { 1 } else { 0 }
}

// The number that stands for a state (`pth_state_t`).
fn number_of_state(state: ThreadState) -> i64
    ensures { result ≡ state_number state }
{
    match state {
        ThreadState::New => 0,
        ThreadState::Ready => 1,
        ThreadState::Running => 2,
        ThreadState::Waiting => 3,
        ThreadState::Dead => 4,
    }
}

// What a field of a thread says.
pub(crate) fn thread_field(entry: &Entry, f: AttrField) -> AttrValue
    requires { entry.now.dispatches ≤ last_count }
    ensures { result ≡ field_of_thread f entry.now }
{
    match f {
        AttrField::Prio => AttrValue::Prio(entry.prio),
        AttrField::Name => AttrValue::Name(entry.name.copy()),
        AttrField::Joinable => AttrValue::Joinable(number_of_flag(entry.joinable)),
        AttrField::Cancel => AttrValue::Cancel(entry.cancel as i64),
        AttrField::Dispatches => AttrValue::Dispatches(entry.dispatches as i64),
        AttrField::State => AttrValue::State(number_of_state(entry.state)),
        AttrField::Bound => AttrValue::Bound(1),
    }
}

// What a field of an object with values of its own says. It has no dispatches and no state.
pub(crate) fn values_field(values: &NewThread, f: AttrField) -> Result<AttrValue, Errno>
    ensures { result ≡ (if is_of_thread f then Err EINVAL else Ok (field_of_values f values.now)) }
{
    match f {
        AttrField::Prio => Ok(AttrValue::Prio(values.prio)),
        AttrField::Name => Ok(AttrValue::Name(values.name.copy())),
        AttrField::Joinable => Ok(AttrValue::Joinable(number_of_flag(values.joinable))),
        AttrField::Cancel => Ok(AttrValue::Cancel(values.cancel as i64)),
        AttrField::Dispatches => Err(Errno::EINVAL),
        AttrField::State => Err(Errno::EINVAL),
        AttrField::Bound => Ok(AttrValue::Bound(0)),
    }
}

// Whether a number is one of those from low to high.
fn within(n: i64, low: i64, high: i64) -> Result<(), Errno>
    ensures { result ≡ (if not (n is_from low to high) then Err EINVAL else Ok tt) }
{
    if low <= n && n <= high {
        Ok(())
    } else {
        Err(Errno::EINVAL)
    }
}

// Whether a field can be set to this value, where `top` is the greatest base priority (`PTH_PRIO_MAX`) and `-top` the least.
pub(crate) fn check(v: &AttrValue, top: u8) -> Result<(), Errno>
    ensures answer { result ≡ (if is_fixed v.now then Err EPERM else (if not (is_in_range top v.now) then Err EINVAL else Ok tt)) }
    ensures free { OnOk result (is_fixed v.now ≡ false) }
    ensures range { OnOk result (is_in_range top v.now ≡ true) }
{
    match v {
        AttrValue::Prio(n) => within(*n, -(top as i64), top as i64),
        AttrValue::Name(_) => Ok(()),
        AttrValue::Joinable(n) => within(*n, 0, 1),
        AttrValue::Cancel(n) => within(*n, 1, 4),
        AttrValue::Dispatches(_) => Err(Errno::EPERM),
        AttrValue::State(_) => Err(Errno::EPERM),
        AttrValue::Bound(_) => Err(Errno::EPERM),
    }
}

// Values with one of them set.
pub(crate) fn set_value(old: &NewThread, v: &AttrValue) -> NewThread
    requires { (top : ℕ) × (is_in_range top v.now ≡ true) }
    ensures is { result ≡ with_value v.now old.now }
    ensures allowed { (top : ℕ) → is_in_range top v.now ≡ true → AreSet top old.now → AreSet top result }
{
    let mut values = copied_values(old);
    match v {
        AttrValue::Prio(n) => values.prio = *n,
        AttrValue::Name(name) => values.name = name.copy(),
        AttrValue::Joinable(n) => values.joinable = *n == 1,
        AttrValue::Cancel(n) => values.cancel = *n as u8,
        AttrValue::Dispatches(_) => {}
        AttrValue::State(_) => {}
        AttrValue::Bound(_) => {}
    }
    values
}

// The same for a thread: the change of its record.
pub(crate) fn change_by(v: &AttrValue) -> Change
    requires free { is_fixed v.now ≡ false }
    requires range { (top : ℕ) × (is_in_range top v.now ≡ true) }
    ensures is { change_of v.now ≡ Some result }
    ensures keeps { (top : ℕ) → is_in_range top v.now ≡ true → KeepsSet top result }
    ensures countable { IsCountable result }
{
    match v {
        AttrValue::Prio(n) => Change::Prio(*n),
        AttrValue::Name(name) => Change::Name(name.copy()),
        AttrValue::Joinable(n) => Change::Joinable(*n == 1),
        AttrValue::Cancel(n) => Change::Cancel(*n as u8),
        AttrValue::Dispatches(_) => unreachable!(),
        AttrValue::State(_) => unreachable!(),
        AttrValue::Bound(_) => unreachable!(),
    }
}
