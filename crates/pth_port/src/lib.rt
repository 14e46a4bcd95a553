//! Message ports (`pth_msgport_t`) and their messages.
//!
//! Each call is one equation of the whole mail, is answered as its tests in order say, and refused it changes nothing.
//! Ports and messages have numbers, and none is given twice. A message is queued at one port, or held, and each message
//! of a queue names the one behind it. So only `create` and `put` take memory, and only a look-up of a name goes over
//! all ports.
#![tactic(auto)]

mod entries;
pub mod ports;
mod stored_messages;
