// Theorems about the definitions: each function's contract names one.
ghost use Rattle.rv32.specs.Encode.{ReadsBack, Accounts};
ghost use Rattle.rv32.specs.Examples.{Met};
ghost use Rattle.rv32.specs.Reach.{OnePage, StoresInside, ReadsNamed, StopsAsNew};
ghost use Rattle.rv32.specs.Sound.{ZeroRegister, StaysSound, StartsSound};

// What is encoded as the specification says is decoded as what it was.
pub fn reads_back()
    ensures { ReadsBack }
{}

// Each of the 2 ^ 32 words is the encoding of what it is decoded as, or is no instruction's.
pub fn accounts()
    ensures { Accounts }
{}

// x0 is 0, whatever is written to it.
pub fn zero_register()
    ensures { ZeroRegister }
{}

// A new core is sound: the pc and 32 registers are below 2 ^ 32.
pub fn starts_sound()
    ensures { StartsSound }
{}

// Every instruction keeps a core sound.
pub fn stays_sound()
    ensures { StaysSound }
{}

// An aligned access lies in one page.
pub fn one_page()
    ensures { OnePage }
{}

// Every store that an instruction asks for does.
pub fn stores_inside()
    ensures { StoresInside }
{}

// An instruction reads no bytes but its own four and those that it names.
pub fn reads_named()
    ensures { ReadsNamed }
{}

// A thread that stops is as new.
pub fn stops_as_new()
    ensures { StopsAsNew }
{}

// What these theorems take for granted can be met.
pub fn examples()
    ensures { Met }
{}
