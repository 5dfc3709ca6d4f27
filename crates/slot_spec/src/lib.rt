// What a tag does in a slot, how a list of links is gone through to decide it, and the numbers of the decision; a theorem about it.
#![tactic(auto)]

ghost use Rattle.slot_spec.specs.Claims.{SleepsExactlyWhenIdle, SomeSleepAndSomeDoNot};

// What a tag does in a slot: nothing, because the slot is free, or a frame is sent or awaited on the link at an index of the list, on a
// channel. The decision is one of these, or the refusal of the schedule.
#[derive(Clone, Copy, Debug, PartialEq, Eq)]
pub enum Action {
    Sleep,
    Transmit { index: u8, channel: u8 },
    Listen { index: u8, channel: u8 },
}

// What a decision is asked beside the links: the slotframe's size, the hopping sequence ID, the ASN of the slot, and whether a frame waits
// to be sent.
#[derive(Clone, Copy)]
pub struct SlotQuery {
    pub size: u32,
    pub id: u32,
    pub asn: u64,
    pub waits: bool,
}

// The numbers of a decision: of the refusal, of the action (0 sleep, 1 transmit, 2 listen), the channel and the link's index. It is C's
// struct `tesolvagna_slot`, so the action is a number.
#[repr(C)]
#[derive(Clone, Copy)]
pub struct SlotAnswer {
    pub number: u8,
    pub action: u8,
    pub channel: u8,
    pub index: u8,
}

// A link that a search through the list has found: its index and its channel offset.
#[derive(Clone, Copy, Debug, PartialEq, Eq)]
pub struct ActiveLink {
    pub index: u8,
    pub channel_offset: u16,
}

// What is known of the links from an index on: the slotframe's size and the slot in it, whether every timeslot is below the size, and
// the first active link that may transmit and the first that may receive.
#[derive(Clone, Copy)]
pub struct Scan {
    pub size: u32,
    pub slot: u32,
    pub below: bool,
    pub transmit: Option<ActiveLink>,
    pub receive: Option<ActiveLink>,
}

// Cites each theorem, so that the gate fails if the proof of one goes.
pub fn theorems()
    ensures sleeps_exactly_when_idle { SleepsExactlyWhenIdle }
    ensures some_sleep_and_some_do_not { SomeSleepAndSomeDoNot }
{}
