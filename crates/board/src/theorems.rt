// The laws of the board, each named by a function.
ghost use Rattle.board.specs.Laws.{LastUnitThere, Decodes, SlotsHold, LinksHold, LinksKeepSlots, NothingThere, OneUnit, LiesApart, Clears, Stores, CanBeMet};

// The words that mean what a slot holds mean just that.
pub fn decodes()
    ensures { Decodes }
{}

// A slot that is written is read again; other slots and all links are as they were.
pub fn slots_hold()
    ensures { SlotsHold }
{}

// A link that is written is read again; other links are as they were.
pub fn links_hold()
    ensures { LinksHold }
{}

// No link that is written changes what a slot holds.
pub fn links_keep_slots()
    ensures { LinksKeepSlots }
{}

// Where no unit is, nothing is read and nothing is written.
pub fn nothing_there()
    ensures { NothingThere }
{}

// A slot or a link that is written changes bytes of its own unit only.
pub fn one_unit()
    ensures { OneUnit }
{}

// What lies apart from what has changed is as it was.
pub fn lies_apart()
    ensures { LiesApart }
{}

// Units lie within the board where the last of them is there.
pub fn last_unit_there()
    ensures { LastUnitThere }
{}

// What is cleared is 0 throughout.
pub fn clears()
    ensures { Clears }
{}

// What is stored stands in its page as the world writes it over.
pub fn stores()
    ensures { Stores }
{}

// What these ask can be met.
pub fn can_be_met()
    ensures { CanBeMet }
{}
