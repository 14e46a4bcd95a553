//! How threads end, and the handlers that they run.
//!
//! For every whole world, and every state for which it stands: `end_thread` ends any thread that lives, whoever
//! runs, by the definition `ending`. Its wait is undone, with its arrival at a barrier and its seats at conditions; its
//! handlers run, the last pushed first, then its destructors, in at most four rounds; it gives up its mutexes and its
//! locks; and it is dead, or gone.
//! `cancel_from_outside`, `cancel_within` and `abort_thread` tell of a cancellation and end a thread so with -1.
//! `run_handler` makes the acts of a handler, each as its call by the thread. The world then stands for the state
//! to which the definition leads, and exactly its marks were appended; after want of memory a beginning of them,
//! and the world may only be dropped. `answer_call` tells the answer of any call.
#![tactic(auto)]

pub mod acts;
pub mod answering;
pub mod cancellation;
pub mod cleanups;
pub mod destructors;
pub mod ending;
pub mod giving;
pub mod handlers;
pub mod laws;
pub mod saying;
pub mod undoing;
