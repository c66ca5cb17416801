// The chip's answer to a transfer: the transfer is a field of a log, and the answer the next field of a tape.
// `specs/Answering.antt` says which.
ghost use Rattle.std.specs.Prelude.{◌≡◌, ◌&&◌, [], ◌∷◌, ℕ, ◌+◌, ◌-◌, ◌≤◌, eqb, leb, length, take, get_or, unwrap_or};
ghost use Rattle.numbers.specs.Numbers.{word};
ghost use Rattle.frames.specs.Put.{put};
ghost use Rattle.laws.specs.Choice.{when◌then◌else◌};
ghost use Rattle.bus.specs.Transfers.{read, write};
ghost use Rattle.chip.specs.Devices.{reached};
ghost use Rattle.chip.specs.Chip.{begun, acknowledged, shows, respond_cut};
ghost use Rattle.chip.specs.Answering.{as_cut, answered_with, tells, answer_on};
ghost use Rattle.chip.specs.Inside.{saying, told};

use crate::Chip;

// Whether these bytes are one whole field with a value.
fn is_field(bytes: &[u8]) -> bool
    ensures { result ≡ (leb 4 (length bytes.now)
        && eqb (word (get_or bytes.now 1 0) (get_or bytes.now 2 0)) (length bytes.now - 3)) }
{
    bytes.len() >= 4 && numbers::be_u16(bytes[1], bytes[2]) as usize == bytes.len() - 3
}

// A field's tag: done, or a fault.
fn tag_of(good: bool) -> u8
    ensures { result ≡ (when good then 0x01 else 0x02) }
{
    if good { 0x01 } else { 0x02 }
}

impl Chip {
    // Whether every check byte that came is right.
    #[tactic(auto, using(crate::proofs::Takes::acknowledged_none, crate::proofs::Takes::acknowledged_alone, crate::proofs::Takes::acknowledged_checked))]
    fn acknowledges(&self, bytes: &[u8]) -> bool
        ensures { result ≡ acknowledged self.now bytes.now }
    {
        match bytes.split_first() {
            Some((reg, data)) => !self.check || self.agreeing(*reg, data) == data.len() / 2,
            None => true,
        }
    }

    // Whether a write is done, and no fault.
    #[tactic(auto, using(crate::proofs::Takes::cut_faults, crate::proofs::Takes::whole_goes))]
    fn is_done(&self, bytes: &[u8], cut: Option<usize>) -> bool
        ensures { (respond_cut (as_cut cut) self.now (write self.now.address bytes.now)).answer
            ≡ saying result [] }
    {
        match cut {
            Some(_) => false,
            None => self.is_answered(bytes) && self.acknowledges(bytes),
        }
    }

    // The first n bytes of a read, however long, onto the tape.
    fn show(&self, reg: u8, n: usize, tape: &mut [u8], at: usize)
        requires n_bound { reg + begun self.now.check n ≤ 256 }
        requires n_in_bounds { at + n ≤ length tape.old }
        ensures { (m : ℕ) → n ≤ m
            → tape.new ≡ put tape.old at (take n (shows self.now reg m)) }
    {
        for i in 0..n {
            tape[at + i] = self.shown(reg, i);
        }
    }

    // Done, or a fault, with the first n bytes of a read, however long, and how far the tape is then filled; nothing where it has no room.
    fn reply(&self, good: bool, reg: u8, n: usize, tape: &mut [u8], end: usize) -> Option<usize>
        requires { reg + begun self.now.check n ≤ 256 }
        ensures { (after : Chip) (m : ℕ) → n ≤ m → (tape.new, told self.now after end result)
            ≡ tells self.now (reached (saying good (take n (shows self.now reg m))) after) tape.old end }
    {
        if tape.len().saturating_sub(end) < 3 + n {
            return None;
        }
        tape[end] = tag_of(good);
        tape[end + 1] = (n / 256 % 256) as u8;
        tape[end + 2] = (n % 256) as u8;
        self.show(reg, n, tape, end + 3);
        Some(end + 3 + n)
    }

    #[tactic(auto, using(crate::proofs::Answering::begun_none))]
    fn answer_read(
        &self,
        address: u8,
        reg: u8,
        n: usize,
        cut: Option<usize>,
        tape: &mut [u8],
        end: usize,
    ) -> Option<usize>
        ensures { (tape.new, answered_with self.now (unwrap_or result end))
            ≡ tells self.now (respond_cut (as_cut cut) self.now (read address reg n)) tape.old end }
    {
        if address != self.address || !self.is_within(reg, n) {
            return self.reply(false, 0, 0, tape, end);
        }
        match cut {
            Some(k) => self.reply(false, reg, n.min(k), tape, end),
            None => self.reply(true, reg, n, tape, end),
        }
    }

    #[tactic(auto, using(crate::proofs::Answering::begun_none))]
    fn answer_write(
        &mut self,
        address: u8,
        bytes: &[u8],
        cut: Option<usize>,
        tape: &mut [u8],
        end: usize,
    ) -> Option<usize>
        ensures { (tape.new, answered_with self.new (unwrap_or result end))
            ≡ tells self.old (respond_cut (as_cut cut) self.old (write address bytes.now)) tape.old end }
    {
        if address != self.address {
            return self.reply(false, 0, 0, tape, end);
        }
        let next = self.reply(self.is_done(bytes, cut), 0, 0, tape, end)?;
        self.write(bytes, cut);
        Some(next)
    }

    // The chip's answer to the transfer of a log field, whole or cut after so many bytes behind the address byte, put on the tape from
    // `end` on as its next field; and how far the tape is then filled. Where the bytes are no log field, or the tape has no room for the
    // answer, nothing is changed.
    pub fn answer(&mut self, field: &[u8], cut: Option<usize>, tape: &mut [u8], end: usize) -> usize
        ensures { (tape.new, answered_with self.new result) ≡ answer_on (as_cut cut) self.old field.now tape.old end }
    {
        if !is_field(field) {
            return end;
        }
        if field[0] == 0x11 {
            return self
                .answer_write(field[3], &field[4..], cut, tape, end)
                .unwrap_or(end);
        }
        if field[0] != 0x12 || field.len() != 7 {
            return end;
        }
        let count = numbers::be_u16(field[5], field[6]) as usize;
        self.answer_read(field[3], field[4], count, cut, tape, end)
            .unwrap_or(end)
    }
}
