// What a call does on the bus is a program over transfers (specs/); here is what it goes by: a tape, a log, and how far both are used.
#![tactic(auto)]

ghost use Rattle.std.specs.Prelude.{◌≡◌};
ghost use Rattle.bus.specs.Transfers.{bus_of, start};
ghost use Rattle.bus.specs.Lent.{held};

pub mod link;

// How far tape and log are used.
#[derive(Clone, Copy)]
pub struct Cursor {
    pub tape: usize,
    pub log: usize,
}

// The tape that answers, the log that is written, and how far both are used: what a call is lent.
#[derive(Drop)]
pub struct Bus<'a> {
    pub tape: &'a [u8],
    pub log: &'a mut [u8],
    pub at: Cursor,
}

impl<'a> Bus<'a> {
    // Of which nothing is used yet.
    pub fn new(tape: &'a [u8], log: &'a mut [u8]) -> Bus<'a>
        ensures { (held result ≡ bus_of tape.now log.old start) × (result.log.ghost_name ≡ log.entry.ghost_name) }
    {
        Bus {
            tape,
            log,
            at: Cursor { tape: 0, log: 0 },
        }
    }
}
