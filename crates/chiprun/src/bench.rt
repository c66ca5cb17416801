// The calls on the model chip, in passes over all of them. The tape of a pass has the chip's answers so far and a fault behind them: the transfer that
// meets it is the last in the log. The chip's answer takes the fault's place, until a pass does not come to the fault.
use bq769x0::BQ769x0;
use bus::{Bus, Cursor};
use call_text::Prints;
use chip::Chip;
use std::io;

// The least field of a tape has three bytes.
pub(crate) const MOST: usize = crate::SIZE / 3;

// The job of the calls, and what they are made on: a record, and a chip; of each transfer, after how many bytes it is cut, if it is.
#[derive(Drop)]
pub(crate) struct Bench<'a> {
    pub job: &'a [u8],
    pub device: BQ769x0,
    pub chip: Chip,
    pub cuts: &'a [Option<u16>],
}

impl Bench<'_> {
    // The chip's answers to the calls, on a tape of 00; how far they fill it.
    pub(crate) fn run(
        self,
        rt: &(impl Print + Eprint),
        tape: &mut [u8],
        log: &mut [u8],
    ) -> io::Result<usize> {
        let mut chip = self.chip;
        let mut filled = Cursor { tape: 0, log: 0 };
        for cut in self.cuts {
            let Some(to) = self.pass(rt, filled, tape, log)? else {
                break;
            };
            let Some(field) = log.get(filled.log..to.log) else {
                break;
            };
            let end = chip.answer(field, cut.map(usize::from), tape, filled.tape);
            // Job and tape are no longer than callrun's input.
            if end <= filled.tape || tape.len() < end || tape.len() - end < self.job.len() {
                break;
            }
            filled = Cursor {
                tape: end,
                log: to.log,
            };
        }
        Ok(filled.tape)
    }

    // Where the calls end on tape and log, where they come to the fault behind what is filled.
    fn pass(
        &self,
        rt: &(impl Print + Eprint),
        filled: Cursor,
        tape: &mut [u8],
        log: &mut [u8],
    ) -> io::Result<Option<Cursor>> {
        let Some(fault) = tape.get_mut(filled.tape) else {
            return Ok(None);
        };
        *fault = 0x02;
        let mut device = self.device;
        let mut bus = Bus::new(tape, log);
        call_text::in_turn(rt, self.job, Prints::Nothing, &mut device, &mut bus)?;
        let to = bus.at;
        Ok((filled.tape < to.tape).then_some(to))
    }
}
