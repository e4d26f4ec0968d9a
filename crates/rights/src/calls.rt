// Calls, as seven numbers ask for them: the call's number and six arguments.
ghost use Rattle.std.specs.Prelude.{◌≡◌};
ghost use Rattle.rights.specs.Request as spec;

use crate::bits::Rights;

// What is to be cut: its kind, and its size where it has one.
#[derive(Clone, Copy, Debug, PartialEq, Eq)]
pub enum NewObject {
    Pool(u32),
    Table(u32),
    Port,
    Page,
}

impl NewObject {
    // A pool or a table has a size of 1 to 4,096; a port or a page has size 0. Two numbers ask for
    // it, of 32 bits each, so it is neither a TryFrom of one nor of a Kind's byte.
    pub fn decode(kind: u32, size: u32) -> Option<NewObject>
        ensures { result ≡ spec.new_object kind size }
    {
        match (kind, size) {
            (0, 1..=4096) => Some(NewObject::Pool(size)),
            (1, 1..=4096) => Some(NewObject::Table(size)),
            (2, 0) => Some(NewObject::Port),
            (3, 0) => Some(NewObject::Page),
            _ => None,
        }
    }
}

// Slots are numbers in the caller's own table.
#[derive(Clone, Copy, Debug, PartialEq, Eq)]
pub enum Call {
    Cut {
        pool: u32,
        what: NewObject,
        into: u32,
    },
    Copy {
        from: u32,
        into: u32,
        rights: Rights,
        badge: u32,
    },
    Move {
        from: u32,
        into: u32,
    },
    Drop {
        slot: u32,
    },
    Revoke {
        slot: u32,
    },
    Send {
        port: u32,
        hand_on: u32,
        words: [u32; 4],
    },
    Receive {
        port: u32,
        into: u32,
    },
    Map {
        page: u32,
        thread: u32,
        place: u32,
    },
    Unmap {
        thread: u32,
        place: u32,
    },
    Bind {
        thread: u32,
        table: u32,
    },
    Go {
        thread: u32,
        pc: u32,
    },
    Say {
        line: u32,
        byte: u32,
    },
    Hear {
        line: u32,
    },
}

impl Call {
    // The call that a number and six arguments ask for; none where there is no such call, or where
    // its kind, size or rights are not right. Calls are numbers here, since the format gives them, and
    // stand at one place: an enum of them would name each once more.
    pub fn decode(number: u32, arguments: [u32; 6]) -> Option<Call>
        ensures { result ≡ spec.asked number arguments }
    {
        let [a, b, c, d, e, f] = arguments;
        match number {
            0 => Some(Call::Cut {
                pool: a,
                what: NewObject::decode(b, c)?,
                into: d,
            }),
            1 => Some(Call::Copy {
                from: a,
                into: b,
                rights: Rights::try_from(c).ok()?,
                badge: d,
            }),
            2 => Some(Call::Move { from: a, into: b }),
            3 => Some(Call::Drop { slot: a }),
            4 => Some(Call::Revoke { slot: a }),
            5 => Some(Call::Send {
                port: a,
                hand_on: b,
                words: [c, d, e, f],
            }),
            6 => Some(Call::Receive { port: a, into: b }),
            7 => Some(Call::Map {
                page: a,
                thread: b,
                place: c,
            }),
            8 => Some(Call::Unmap {
                thread: a,
                place: b,
            }),
            9 => Some(Call::Bind {
                thread: a,
                table: b,
            }),
            10 => Some(Call::Go { thread: a, pc: b }),
            11 => Some(Call::Say { line: a, byte: b }),
            12 => Some(Call::Hear { line: a }),
            _ => None,
        }
    }
}
