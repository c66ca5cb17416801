// A line for each start: what its call answers and leaves, at how many places it was cut, and after how many of these cuts a call on a whole bus
// ended as if nothing had been cut before it. A cut after which one did not has a line of its own.
use crate::bench::{Outcome, Place, Start};
use crate::call::Call;
use crate::cases;
use crate::tally::Tally;
use chip::Chip;
use std::{fmt, io};

// A start by its name; with the build, in print.
#[derive(Clone, Copy)]
pub(crate) struct Case {
    pub name: &'static str,
    pub start: Start,
}

impl fmt::Display for Case {
    fn fmt<W: fmt::Write>(&self, f: &mut fmt::Formatter<W>) -> fmt::Result {
        f.write_str(self.name)?;
        if self.start.device.link.check {
            f.write_str(" with checks")?;
        }
        Ok(())
    }
}

// What a run answers and leaves, on a chip that was as `before`.
#[derive(Clone, Copy)]
struct Left {
    before: Chip,
    run: Outcome,
}

impl fmt::Display for Left {
    fn fmt<W: fmt::Write>(&self, f: &mut fmt::Formatter<W>) -> fmt::Result {
        let device = &self.run.device;
        write!(
            f,
            ": answer {}, mark {} shunt {}",
            self.run.number(),
            device.init_complete as u8,
            device.shunt.0
        )?;
        let before = &self.before.regs;
        let after = &self.run.chip.regs;
        if before == after {
            return f.write_str(", no register new");
        }
        for (register, (before, byte)) in before.iter().zip(after).enumerate() {
            if before != byte {
                write!(f, ", {register:02X} is {byte:02X}")?;
            }
        }
        Ok(())
    }
}

// The call after a cut, in words too: with the record that the cut left or with a new one.
#[derive(Clone, Copy)]
struct After {
    what: &'static str,
    anew: bool,
    call: Call,
}

impl After {
    fn on(self, start: Start) -> Outcome {
        let device = if self.anew {
            cases::anew(start.device)
        } else {
            start.device
        };
        Start {
            chip: start.chip,
            device,
            call: self.call,
        }
        .run(None)
    }
}

impl Case {
    fn left(&self, cut: Option<Place>) -> Left {
        Left {
            before: self.start.chip,
            run: self.start.run(cut),
        }
    }

    // What a cut leaves.
    fn line(&self, rt: &impl Print, place: Place) -> io::Result<()> {
        let left = self.left(Some(place));
        println!(rt; "{self}{place}{left}")
    }

    // Whether a call after a cut ends as with nothing cut before it; a line where it does not.
    fn is_same(
        &self,
        rt: &impl Print,
        after: After,
        whole: &Outcome,
        place: Place,
    ) -> io::Result<bool> {
        let then = after.on(self.start.run(Some(place)).left(self.start.call));
        if then.is_as(whole) {
            return Ok(true);
        }
        print!(rt; "{} DIFFERS after ", after.what)?;
        self.line(rt, place)?;
        Ok(false)
    }

    fn tally(&self, rt: &impl Print, after: After) -> io::Result<Tally> {
        let whole = after.on(self.start);
        let mut tally = Tally::default();
        self.start.run(None).at_each_place(|place| {
            tally.count(self.is_same(rt, after, &whole, place)?);
            Ok(())
        })?;
        Ok(tally)
    }

    // The start's line.
    pub(crate) fn all(&self, rt: &impl Print, other: Call) -> io::Result<()> {
        let call = self.start.call;
        let again = After {
            what: "again",
            anew: false,
            call,
        };
        let anew = After {
            what: "with a new record",
            anew: true,
            call,
        };
        let otherwise = After {
            what: "otherwise",
            anew: false,
            call: other,
        };
        let kept = self.tally(rt, again)?;
        let lost = self.tally(rt, anew)?;
        let last = self.tally(rt, otherwise)?;
        let left = self.left(None);
        print!(rt;
            "{self}{left}; cut at {} places, then as if never cut: {} again,",
            kept.tried, kept.same
        )?;
        println!(rt;
            " {} with a new record, {} {}, answer {}",
            lost.same,
            last.same,
            call.another(),
            otherwise.on(self.start).number()
        )
    }

    // A line for each place.
    pub(crate) fn shown(&self, rt: &impl Print) -> io::Result<()> {
        self.start
            .run(None)
            .at_each_place(|place| self.line(rt, place))
    }
}
