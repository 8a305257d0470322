// What a text comes to, apart from how it is read.
#![tactic(auto)]

ghost use Rattle.events.specs.Room.{Rooms};

// What room does to a decode: where it suffices the answer is 0 and every refusal is met,
// else the answer is 14 and the faults are the refusals before the first record without room and then 14.
pub fn room_decides()
    ensures { Rooms }
{}
