// The program's world and the abstract world go step by step alike.
ghost use Rattle.model.specs.Example.{SmallIsSound};
ghost use Rattle.model.specs.Same.{AlwaysLeft, CallsAgree, EventsAgree, RowsAgree, SaysAgree, StaysFull, StaysSound};

// Every call does what the abstract world does.
pub fn calls_agree()
    ensures { CallsAgree }
{}

// So does an instruction's time for a thread, and a byte that comes in at a line.
pub fn events_agree()
    ensures { EventsAgree }
{}

// A sound world stays sound, whatever happens.
pub fn stays_sound()
    ensures { StaysSound }
{}

// Whole rows of events do what the abstract world does.
pub fn rows_agree()
    ensures { RowsAgree }
{}

// What a thread says is what the abstract world says.
pub fn says_agree()
    ensures { SaysAgree }
{}

// There always is a world that is left.
pub fn always_left()
    ensures { AlwaysLeft }
{}

// In a sound world every entry of the lineage has a capability; and where every entry has one, sound or
// not, it stays so.
pub fn stays_full()
    ensures { StaysFull }
{}

// What these ask of a world can be met.
pub fn small_is_sound()
    ensures { SmallIsSound }
{}
