// The model chip of a battery monitor: 256 registers behind a bus address, with check bytes or without.
// `specs/Chip.antt` says what it does.
#![tactic(auto)]

ghost use Rattle.std.specs.Prelude.{◌≡◌, true, [], ◌∷◌, ℕ, ◌+◌, ◌≤◌, ◌<◌, leb, length, get_or};
ghost use Rattle.frames.specs.Frames.{write_byte};
ghost use Rattle.bus.specs.Transfers.{write};
ghost use Rattle.chip.specs.Chip.{with_regs, fresh, with_reg, begun, arrives, stores, agreed, written};
ghost use Rattle.chip.specs.Chip.{shows, answers, respond_cut};
ghost use Rattle.chip.specs.Answering.{as_cut};

use check_byte::{check_byte1, check_byte2, check_byte3};

mod answer;

#[derive(Clone, Copy)]
pub struct Chip {
    pub address: u8,
    pub check: bool,
    pub regs: [u8; 256],
}

impl Chip {
    // All registers are zero.
    #[tactic(auto, unfolding(crate::specs::Chip::zeros))]
    pub fn make(address: u8, check: bool) -> Chip
        ensures { result ≡ fresh address check }
    {
        Chip {
            address,
            check,
            regs: [0; 256],
        }
    }

    // By hand, which is no bus write.
    pub fn set(&mut self, reg: u8, byte: u8)
        ensures { self.new ≡ with_reg self.old reg byte }
    {
        self.regs[reg as usize] = byte;
    }

    // A data byte of a write: status clears the bits written as 1.
    #[tactic(auto, using(crate::proofs::Steps::arrives_status, crate::proofs::Stored::arrives_set))]
    fn arrive(&mut self, reg: u8, byte: u8)
        ensures { self.new ≡ with_regs self.old (arrives reg byte self.old.regs) }
    {
        if reg == 0 {
            self.regs[0] -= self.regs[0] & byte;
        } else {
            self.set(reg, byte);
        }
    }

    // With checks, of how many data bytes the check byte has come and agrees, up to the first that does not.
    fn agreeing(&self, reg: u8, bytes: &[u8]) -> usize
        ensures { result ≡ length (agreed (write_byte self.now.address ∷ reg ∷ []) bytes.now) }
    {
        for i in 0..bytes.len() / 2 {
            let byte = bytes[2 * i];
            let check = if i == 0 {
                check_byte3(self.address << 1, reg, byte)
            } else {
                check_byte1(byte)
            };
            if check != bytes[2 * i + 1] {
                return i;
            }
        }
        bytes.len() / 2
    }

    // Without checks each byte is stored.
    #[tactic(auto, using(crate::proofs::Steps::stores_one, crate::proofs::Steps::stores_end))]
    fn store_alone(&mut self, reg: u8, bytes: &[u8])
        requires { reg + length bytes.now ≤ 256 }
        ensures { self.new ≡ with_regs self.old (stores reg bytes.now self.old.regs) }
    {
        for (i, byte) in bytes.iter().enumerate() {
            self.arrive((reg as usize + i) as u8, *byte);
        }
    }

    // With checks each byte whose check byte agrees, up to the first that does not.
    #[tactic(auto, using(crate::proofs::Steps::agreed_few), unfolding(crate::specs::Chip::begun))]
    fn store_checked(&mut self, reg: u8, bytes: &[u8])
        requires { reg + begun true (length bytes.now) ≤ 256 }
        ensures { self.new ≡ with_regs self.old (stores reg (agreed (write_byte self.old.address ∷ reg ∷ []) bytes.now) self.old.regs) }
    {
        for i in 0..self.agreeing(reg, bytes) {
            self.arrive((reg as usize + i) as u8, bytes[2 * i]);
        }
    }

    // Whether n bytes from a register on pass no register FF.
    #[tactic(auto, using(crate::proofs::Steps::within_checked, crate::proofs::Steps::within_alone))]
    fn is_within(&self, reg: u8, n: usize) -> bool
        ensures { result ≡ leb (reg + begun self.now.check n) 256 }
    {
        let begun = if self.check { n - n / 2 } else { n };
        begun <= 256 - reg as usize
    }

    #[tactic(auto, using(crate::proofs::Takes::answered_none, crate::proofs::Takes::answered_some))]
    fn is_answered(&self, bytes: &[u8]) -> bool
        ensures { result ≡ answers self.now (write self.now.address bytes.now) }
    {
        match bytes.split_first() {
            Some((reg, data)) => self.is_within(*reg, data.len()),
            None => true,
        }
    }

    // The register, and then the data.
    #[tactic(auto, using(crate::proofs::Takes::written_none, crate::proofs::Takes::written_checked, crate::proofs::Takes::written_alone, crate::proofs::Takes::answered_some))]
    fn take_in(&mut self, bytes: &[u8])
        requires { answers self.old (write self.old.address bytes.now) ≡ true }
        ensures { self.new ≡ written self.old bytes.now }
    {
        let Some((reg, data)) = bytes.split_first() else {
            return;
        };
        if self.check {
            self.store_checked(*reg, data);
        } else {
            self.store_alone(*reg, data);
        }
    }

    // A write at its own address, by the bytes after the address byte.
    fn write(&mut self, bytes: &[u8], cut: Option<usize>)
        ensures { self.new ≡ (respond_cut (as_cut cut) self.old (write self.old.address bytes.now)).device }
    {
        if !self.is_answered(bytes) {
            return;
        }
        match cut {
            Some(n) => self.take_in(&bytes[..n.min(bytes.len())]),
            None => self.take_in(bytes),
        }
    }

    // Byte i of a read, however long.
    #[tactic(auto, using(crate::proofs::Steps::shown_alone, crate::proofs::Steps::shown_data, crate::proofs::Steps::shown_first, crate::proofs::Steps::shown_later, frames::proofs::Steps::shifted_one), unfolding(crate::specs::Chip::begun))]
    fn shown(&self, reg: u8, i: usize) -> u8
        requires { reg + begun self.now.check (i + 1) ≤ 256 }
        ensures { (n : ℕ) → i < n → result ≡ get_or (shows self.now reg n) i 0 }
    {
        if !self.check {
            return self.regs[reg as usize + i];
        }
        let byte = self.regs[reg as usize + i / 2];
        if i % 2 == 0 {
            return byte;
        }
        if i == 1 {
            return check_byte2(self.address << 1 | 1, byte);
        }
        check_byte1(byte)
    }
}
