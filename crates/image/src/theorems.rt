// Theorems about the definitions, each named by a contract.
ghost use Rattle.image.specs.Allowed.{Holds, MeansAllowed};
ghost use Rattle.image.specs.Apart.{LiesApart};
ghost use Rattle.image.specs.Instances.{Instances, Spelled};
ghost use Rattle.image.specs.Prefix.{DecidedEarly, GoesOn, LengthByHeaders, OneLength, LimitHolds, NeverTaken, FaultsTold, EventsLimitHolds, EventFaultsTold};
ghost use Rattle.image.specs.Rows.{RowsNamed};
ghost use Rattle.image.specs.Written.{ReadsBack, WritesBack, OneWorld};

// Objects lie apart in the frames, and within as many as are asked for, which are no more than
// their sizes say.
pub fn lies_apart()
    ensures { LiesApart }
{}

// A refusal with a number of 2 to 4 does not depend on what follows the field that it speaks of.
pub fn decided_early()
    ensures { DecidedEarly }
{}

// That bytes go on depends only on the bytes before the first too many.
pub fn goes_on()
    ensures { GoesOn }
{}

// An image that is taken is as long as its headers say.
pub fn length_by_headers()
    ensures { LengthByHeaders }
{}

// Two images that are taken and have the same headers have the same length.
pub fn one_length()
    ensures { OneLength }
{}

// The check of the first bytes of an image says what the check of the whole file would say, or
// that it goes on beyond the limit.
pub fn limit_holds()
    ensures { LimitHolds }
{}

// A file that goes on beyond the limit is never taken.
pub fn never_taken()
    ensures { NeverTaken }
{}

// A fault before the limit is told.
pub fn faults_told()
    ensures { FaultsTold }
{}

// The same two of a row of events.
pub fn events_limit_holds()
    ensures { EventsLimitHolds }
{}

pub fn event_faults_told()
    ensures { EventFaultsTold }
{}

// Every allowed world has an image that is taken and means it.
pub fn holds_all()
    ensures { Holds }
{}

// An image that is taken means an allowed world, with as many objects, threads and lines as are
// counted.
pub fn means_allowed()
    ensures { MeansAllowed }
{}

// The image of an allowed world's objects is taken, and means that world.
pub fn reads_back()
    ensures { ReadsBack }
{}

// The image of the objects that an image means has the same bytes, but for the rights and badges of
// empty slots; and it is taken alike and means the same world.
pub fn writes_back()
    ensures { WritesBack }
{}

// Two images mean the same world exactly if their bytes are the same but for those.
pub fn one_world()
    ensures { OneWorld }
{}

// Events that are taken name objects of the image: an instruction's time a thread, a byte a line.
pub fn rows_named()
    ensures { RowsNamed }
{}

// The hypotheses of these can be met.
pub fn instances()
    ensures { Instances }
{}

// An image written out byte by byte means the world that is written out beside it.
pub fn spelled()
    ensures { Spelled }
{}
