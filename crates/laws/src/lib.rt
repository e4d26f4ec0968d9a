// The laws of the abstract world: each function's contract names one.
#![tactic(auto)]

ghost use Rattle.laws.specs.Laws.{Within, CutExactly, FillsUpLeast, UsedCovers, NoMore, Revoked, RevokedByCalls, RecordIsExact, RevokeTakes, RevokedAnyFails, HeldIsThere, NothingDangles, Unreached, FirstCome, ComesBack, AtOnce, MetGoOn, ImageStarts, ComesFrom, OnceStays, CallsDo, RefusedLeaves, NoMoreByCalls, Stays, RevokeExactly, SentOnce};
ghost use Rattle.laws.specs.Examples.{Starts, Carried, Cuts, Stands, Makes, MakesTwice, Meets, HandsOver, CanBeDone, Queues, Parts};
ghost use Rattle.laws.specs.Wrong.{CopyTested, RevokeTested, PortTested, HandOnTested, StepsTested, UnrecordedTested, OnceTested, UntakenTested, UnwokenTested, CopyingTested, RebadgedTested, WidenedTested, WideTested, TwiceTested, LeavingTested, LostTested, LastTested, CountingTested, SpillingTested, GrowingTested};
ghost use Rattle.laws.specs.CallRows.{RowsAreRight};
ghost use Rattle.laws.specs.Speech.{SaidIsShown, Speaks, UnaskedTested};

// A pool is never overdrawn.
pub fn never_overdrawn()
    ensures { Within }
{}

// A cut is refused exactly if the pool is too small.
pub fn cut_refused_if_too_small()
    ensures { CutExactly }
{}

// Filling up is to the least multiple.
pub fn fills_up_to_the_least()
    ensures { FillsUpLeast }
{}

// What is used of a pool covers what stands cut from it.
pub fn used_covers_what_stands()
    ensures { UsedCovers }
{}

// Rights never grow.
pub fn rights_never_grow()
    ensures { NoMore }
{}

// After a revoke that came back with 0, nothing that was made from what was revoked is in any slot, ever.
pub fn revoked_stays_away()
    ensures { Revoked }
{}

// The same by what was made by calls, whatever the world's own record says.
pub fn made_by_calls_stays_away()
    ensures { RevokedByCalls }
{}

// The world's record of what was made from what is exact.
pub fn record_is_exact()
    ensures { RecordIsExact }
{}

// A revoke takes what was made, and of a pool what was cut from it, and nothing else.
pub fn what_a_revoke_takes()
    ensures { RevokeTakes }
{}

// A revoke that is refused leaves what was made.
pub fn refused_revoke_leaves()
    ensures { RevokedAnyFails }
{}

// What a slot holds is there.
pub fn held_is_there()
    ensures { HeldIsThere }
{}

// What is gone is held by nobody.
pub fn nothing_leads_to_the_gone()
    ensures { NothingDangles }
{}

// What a set of objects shows depends on nothing that doesn't lead to it.
pub fn unreached_is_unseen()
    ensures { Unreached }
{}

// First come, first met.
pub fn first_come_first_met()
    ensures { FirstCome }
{}

// Who waited comes back with 0 only by a meeting.
pub fn comes_back_by_meeting()
    ensures { ComesBack }
{}

// A send or a receive comes back at once with 0 only by a meeting.
pub fn answered_at_once()
    ensures { AtOnce }
{}

// Whoever meets goes on in that very event.
pub fn met_go_on()
    ensures { MetGoOn }
{}

// Worlds as images carry them are starts that the laws speak of.
pub fn images_are_starts()
    ensures { ImageStarts }
{}

// A small world is a start: it is parted from nothing, of right kinds, and its threads were not cut.
pub fn example_start()
    ensures { Starts }
{}

// That world is one that an image can carry.
pub fn example_carried()
    ensures { Carried }
{}

// A cut that a pool is large enough for, and one that it is too small for.
pub fn example_cuts()
    ensures { Cuts }
{}

// A table and a page that stand cut from a pool.
pub fn example_stands()
    ensures { Stands }
{}

// A capability made from another, and a revoke that takes it away.
pub fn example_makes()
    ensures { Makes }
{}

// A capability made from another through a third.
pub fn example_makes_twice()
    ensures { MakesTwice }
{}

// A sender and a receiver that meet.
pub fn example_meets()
    ensures { Meets }
{}

// Two sets that hold nothing of each other.
pub fn example_parts()
    ensures { Parts }
{}

// Eight rows of calls come back and leave what their table says.
pub fn rows_are_right()
    ensures { RowsAreRight }
{}

// A copy that keeps a right that it should drop is found.
pub fn copy_tested()
    ensures { CopyTested }
{}

// A revoke that leaves out one table is found.
pub fn revoke_tested()
    ensures { RevokeTested }
{}

// A port that meets the last who waits is found.
pub fn port_tested()
    ensures { PortTested }
{}

// A slot that is handed on without the right is found.
pub fn hand_on_tested()
    ensures { HandOnTested }
{}

// Rows of events by the world's own calls are the world's own.
pub fn steps_tested()
    ensures { StepsTested }
{}

// A copy that is not recorded is found by the law of revoke itself.
pub fn unrecorded_copy_tested()
    ensures { UnrecordedTested }
{}

// So is a revoke that takes one generation only.
pub fn revoke_once_tested()
    ensures { OnceTested }
{}

// A cut that takes nothing from its pool is found by the law of what stands cut.
pub fn untaken_cut_tested()
    ensures { UntakenTested }
{}

// A meeting after which the one who waited waits on is found by the law of meetings.
pub fn unwoken_meeting_tested()
    ensures { UnwokenTested }
{}

// Each line shows what it showed and then what was said on it, in order.
pub fn said_is_shown()
    ensures { SaidIsShown }
{}

// Two bytes said, and one that isn't.
pub fn example_speaks()
    ensures { Speaks }
{}

// A byte that is shown without the right to write is found by the law of what is said.
pub fn unasked_say_tested()
    ensures { UnaskedTested }
{}

// A capability in a slot was there before, or came there by a move, by handing on, by a copy or by a cut.
pub fn whence_they_come()
    ensures { ComesFrom }
{}

// No birth is ever in two slots.
pub fn once_stays()
    ensures { OnceStays }
{}

// A slot is handed on by a sender that waits.
pub fn example_hands_over()
    ensures { HandsOver }
{}

// Handing on that copies is found.
pub fn copying_hand_on_tested()
    ensures { CopyingTested }
{}

// Handing on that gives another badge is found.
pub fn rebadged_hand_on_tested()
    ensures { RebadgedTested }
{}

// Handing on that gives more rights is found.
pub fn widened_hand_on_tested()
    ensures { WidenedTested }
{}

// What each call does, but a send and a receive.
pub fn what_calls_do()
    ensures { CallsDo }
{}

// A call that is refused leaves the world as it was.
pub fn refused_calls_leave()
    ensures { RefusedLeaves }
{}

// Rights never grow by calls, through any others.
pub fn rights_never_grow_by_calls()
    ensures { NoMoreByCalls }
{}

// An object has the same kind, size and pool until it is gone, and what is gone stays gone.
pub fn objects_stay()
    ensures { Stays }
{}

// A revoke, whole.
pub fn revoke_leaves_exactly()
    ensures { RevokeExactly }
{}

// Each call can be done, and one can be refused.
pub fn example_can_be_done()
    ensures { CanBeDone }
{}

// Three threads at one port.
pub fn example_queues()
    ensures { Queues }
{}

// A copy with more rights is found by the laws of rights.
pub fn wide_copy_tested()
    ensures { WideTested }
{}

// A cut that overdraws its pool is found.
pub fn twice_taken_tested()
    ensures { TwiceTested }
{}

// A revoke that leaves a slot to what is gone is found.
pub fn left_slot_tested()
    ensures { LeavingTested }
{}

// A send that is lost is found by the law of meetings.
pub fn lost_send_tested()
    ensures { LostTested }
{}

// A receive that meets the last who waits is found by the law of order.
pub fn last_met_tested()
    ensures { LastTested }
{}

// An answer that tells of others is found.
pub fn telling_answer_tested()
    ensures { CountingTested }
{}

// A refused call that changes the world is found.
pub fn spilling_move_tested()
    ensures { SpillingTested }
{}

// A table that grows is found.
pub fn growing_table_tested()
    ensures { GrowingTested }
{}

// What is sent is received once.
pub fn sent_once()
    ensures { SentOnce }
{}
