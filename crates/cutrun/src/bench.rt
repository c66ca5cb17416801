// A call of the driver on the model chip, with one transfer cut or none. The chip's answers make up the tape. What is to be answered next is found
// out by a fault at the tape's end: the transfer that the fault met is the last in the log. The chip's answer then takes the fault's place.
use crate::call::{Answer, Call};
use bq769x0::BQ769x0;
use bus::{Bus, Cursor};
use chip::Chip;
use std::{fmt, io};

// No call makes more transfers.
const MOST: usize = 8;

// Where the wire is cut: in a transfer, from 0, after so many of its bytes behind the address byte.
#[derive(Clone, Copy)]
pub(crate) struct Place {
    transfer: usize,
    bytes: usize,
}

impl fmt::Display for Place {
    fn fmt<W: fmt::Write>(&self, f: &mut fmt::Formatter<W>) -> fmt::Result {
        write!(f, ", transfer {} cut after {}", self.transfer, self.bytes)
    }
}

// What a run leaves, and what its call answers.
#[derive(Clone, Copy)]
pub(crate) struct Outcome {
    pub chip: Chip,
    pub device: BQ769x0,
    pub answer: Answer,
    // how many bytes each transfer had behind the address byte
    sizes: [Option<usize>; MOST],
}

impl Outcome {
    // The answer's number, 0 where accepted.
    pub(crate) fn number(&self) -> u8 {
        self.answer.err().map_or(0, |e| e.number())
    }

    // Whether both answered the same and left the same record and the same registers.
    pub(crate) fn is_as(&self, other: &Outcome) -> bool {
        self.answer == other.answer
            && self.device == other.device
            && self.chip.regs == other.chip.regs
    }

    // A call on what this one left.
    pub(crate) fn left(&self, call: Call) -> Start {
        Start {
            chip: self.chip,
            device: self.device,
            call,
        }
    }

    // At each place where its transfers can be cut: in each of them, after each number of its bytes, up to all.
    pub(crate) fn at_each_place<F: FnMut(Place) -> io::Result<()>>(
        &self,
        mut visit: F,
    ) -> io::Result<()>
        requires { F.IsAlwaysCallable visit }
    {
        for (transfer, size) in self.sizes.iter().flatten().enumerate() {
            for bytes in 0..=*size {
                visit(Place { transfer, bytes })?;
            }
        }
        Ok(())
    }
}

// How many bytes the transfer of a log field has behind the address byte: a write all but the address, and a read as many as it wants.
fn size_of(field: &[u8]) -> usize {
    match field {
        [0x12, _, _, _, _, high, low] => numbers::be_u16(*high, *low) as usize,
        _ => field.len().saturating_sub(4),
    }
}

// A chip, a record that speaks to it, and the call that is made.
#[derive(Clone, Copy)]
pub(crate) struct Start {
    pub chip: Chip,
    pub device: BQ769x0,
    pub call: Call,
}

impl Start {
    // With the call cut at a place, or nowhere.
    pub(crate) fn run(self, cut: Option<Place>) -> Outcome {
        let mut chip = self.chip;
        let mut sizes = [None; MOST];
        let mut tape = [0; 256];
        let mut log = [0; 256];
        let mut filled = Cursor { tape: 0, log: 0 };
        for (transfer, size) in sizes.iter_mut().enumerate() {
            // Behind the answers so far a fault with no bytes: 02, and the two zeros of its length.
            if let Some(fault) = tape.get_mut(filled.tape) {
                *fault = 0x02;
            }
            let to = self.logged(&tape, &mut log);
            // The field that was added to the log, if one was.
            let field = log.get(filled.log..to).unwrap_or(&[]);
            if field.is_empty() {
                break;
            }
            let place = cut.filter(|place| place.transfer == transfer);
            let bytes = place.map(|place| place.bytes);
            *size = Some(size_of(field));
            filled = Cursor {
                tape: chip.answer(field, bytes, &mut tape, filled.tape),
                log: to,
            };
        }
        let mut device = self.device;
        let answer = self.call.make(&mut device, &mut Bus::new(&tape, &mut log));
        Outcome {
            chip,
            device,
            answer,
            sizes,
        }
    }

    // How far the log is used by the call on a tape.
    fn logged(self, tape: &[u8], log: &mut [u8]) -> usize {
        let mut device = self.device;
        let mut bus = Bus::new(tape, log);
        self.call.make(&mut device, &mut bus).ok();
        bus.at.log
    }
}
