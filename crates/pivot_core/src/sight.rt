use crate::view::Phase;
use ideal_laws::Call;
use std::collections::LinkedList;

/// A view as contracts see it: its lists, without the room that they have. No value of it is made.
pub struct Sight {
    pub seat: u32,
    pub phase: Phase,
    pub current: LinkedList<u32>,
    pub seen: LinkedList<u32>,
    pub clock: u32,
    pub drawn: u32,
    pub steps: u64,
    pub calls: LinkedList<Call>,
}
