//! A sheet of calls, to be laid beside pth(3): what each call comes to, for every state, thread and operands. No running code stands on it.
//!
//! | section of pth(3), in its order | files |
//! |---|---|
//! | Global Library Management | `library.rt` |
//! | Thread Attribute Handling | `attributes.rt` |
//! | Thread Control | `threads.rt` |
//! | Utilities | `utilities.rt` |
//! | Cancellation Management | `cancellation.rt` |
//! | Event Handling | `events.rt`; between calls: `occurrences.rt`, `ring_claims.rt` |
//! | Key-Based Storage | `keys.rt` |
//! | Message Port Communication | `ports.rt` |
//! | Thread Cleanups | `cleanups.rt` |
//! | Synchronization | `mutexes.rt`, `rwlocks.rt`, `conditions.rt`, `barriers.rt` |
//! | Generalized POSIX Replacement API | `generalized_replacements.rt` |
//! | Standard POSIX Replacement API | `standard_replacements.rt` |
//! | none: the lines of a body that are no calls | `lines.rt` |
//!
//! The calls of pth(3) that are missing are left out of this machine.
//!
//! The comment above a statement is what pth(3) says of the call, shortened, in the order of pth(3), with the operands as the statement
//! names them. What begins with "Here" is said of this machine: the manual leaves it open, or has it otherwise.
//!
//! # How a statement is read
//!
//! A statement has one form for all calls, and holds for all values of the names in its first parentheses: `(s : State P P.State P.Shared)`
//! is any state, and `P` any program; `t : ℕ` is a number from 0 on, as of a thread, and `m : ℤ` any number, as an operand. `P.functions`
//! are the bodies and routines of `P`. In state `s`, thread `t` makes call `c`:
//!
//! ```text
//! Begins P.functions s t c (
//! refused EBUSY when A otherwise      if A holds, the call is refused with EBUSY, and nothing changes
//! G then returns 1 when B otherwise   else if B holds, the state becomes G of what it was, and the call returns 1
//! G then waits_for W                  else the state becomes G of what it was, and the call suspends t until W has come
//! ```
//!
//! The tests stand in order, and the first that holds decides. So `pth_mutex_release` is read: "In any state `s`, thread `t` calls it for
//! `m`. If `m` is no mutex, it is refused with EINVAL. Else if nobody has the mutex of `m`, with EDEADLK. Else if another thread has it,
//! with EACCES. Else the mutexes become those in which `t` has a level less of it, and the call returns 1."
//!
//! `GoesOn P.functions s t c W (..)` says the same of a call `c` in which `t` waits for W, at the moment at which `t` is dispatched again.
//! `unblocks t` ends the wait; `waits_for W` and `still_waits` go on with it. Where it begins with `canceled`, the call is a cancellation
//! point: "In Pth a thread enters a cancellation point either explicitly via pth_cancel_point(3) or implicitly by waiting for an event."
//! There `may_be_canceled` says that a request of `t` is pending and its cancel state enables it; being canceled ends the wait too. (In
//! `pth_cond_await` a canceled thread first reacquires its mutex.)
//!
//! - `then` and `before` bind closer than `when`: `G then H then O when A otherwise` is one case, also over several lines. What stands
//!   before `then` is a change without a line in the transcript. What stands before `before` has lines, which come before that of the call.
//! - Each test and value that names `s` is of the state before the call, also behind `then`.
//! - `A ≡ B →` before a statement is a premise: the statement holds if A equals B. `Some x` is a value that is there, `None` is no value.
//!   `Ok x` is a result, `Err e` an error.
//! - `not A`, `A && B`, `A || B`, `A == B` are read as in C. `nat_le x y` is x ≤ y, and `nat_lt x y` is x < y. `pos 1` is the number 1.
//! - `f x y` is f of x and y, and `λ x. ..` the function that has .. at x. `s.control` is the part `control` of `s`, and
//!   `record s { a = b }` is `s` with b as its part `a`. `g and h` is the change g and then the change h.
//! - `[]` is the empty list, `x ∷ xs` a list with `x` first, and `xs ++ ys` is `xs` and then `ys`. `option_map g o` is g of the value in
//!   `o`, if there is one. `record { 0 = n }` is the number `n` of a thread, an event or a message, and `x.0` is the number in `x`; of a
//!   pair `x`, `x.0` is the first and `x.1` the second.
//! - Success is `returns 1` (TRUE). `refused E` stands for FALSE, NULL or -1 with `errno` set to E.
//! - An operand is a number. `number n` is the thread, event or port with number `n`, `object_named m` the mutex, lock, condition or
//!   barrier, and `fd_named f` the descriptor. `is_zero v` says that `v` is NULL, or FALSE. `made + 1` is the number of a new thing.
//! - An extra event `e` that is neither NULL nor an event is refused (EINVAL, `is_no_ring_of`), as is a call on a mutex, lock, condition or
//!   barrier that was not initialised. A ring for which a thread waits already is refused (EBUSY, `ring_is_in_use`) where the call would
//!   have to wait. An event of the ring *comes* as it occurs or fails, so that `has_event_settled` holds.
//! - `awaits.X` is what a waiting call waits for (`awaits.rt` of `pth_model`), `change.X v` the field X of a thread's record, and `call.X`
//!   the call, with its operands in the order of pth(3).
//! - `moment_after now l` is the time `l` after now, `length_of 1 l` a length of `l` microseconds.
//! - `ghost use` lines say where words are defined, and need not be read. `{}` ends a statement: there is no code.
//!
//! These statements have one call at a time. Of what happens between calls, `occurrences.rt` states when events occur and which threads are
//! awakened, and `ring_claims.rt` what becomes of an event ring while a call waits for it. Other sentences of pth(3) are restated by
//! definitions of `pth_model`: how the scheduler dispatches (`Pass.antt`, `Part.antt`), when a waiting call has what it waits for
//! (`Coming.antt`), and how a thread terminates (`Ending.antt`). `runs.rt` has runs that the definitions compute.
//!
//! The words for outcomes are in `specs/Outcomes.antt`, those for the parts of a state in `specs/States.antt`, and those for events in
//! `specs/Events.antt`.
//!
//! `Begins` is said of `begun`, and `GoesOn` of `gone_on`: the definitions of `pth_model` by which the machine makes a call, and goes on
//! with one. They have the whole effect of a call: the state after it, the marks, which are the lines of the transcript, and what its
//! thread does next. The row of a call in `pth_model` has less, since some changes are made by the mark of the answer.
#![tactic(auto)]

pub mod attributes;
pub mod barriers;
pub mod cancellation;
pub mod cleanups;
pub mod conditions;
pub mod events;
pub mod generalized_replacements;
pub mod keys;
pub mod library;
pub mod lines;
pub mod mutexes;
pub mod occurrences;
pub mod ports;
pub mod ring_claims;
pub mod runs;
pub mod rwlocks;
pub mod standard_replacements;
pub mod threads;
pub mod utilities;
