//! Destructors of a thread that ends.

use pth_base::ids::HandlerId;

/// How far a thread that ends is in its destructors: in the round of this number, from 1 to 4, from this key on.
#[derive(Clone, Copy)]
pub struct DestructorRound {
    pub number: u8,
    pub from: u16,
}

/// The destructor that runs next: its key, its handler, the thread's value under the key, and how its round goes on.
#[derive(Clone, Copy)]
pub struct Due {
    pub key: u8,
    pub handler: HandlerId,
    pub value: i64,
    pub round: DestructorRound,
}
