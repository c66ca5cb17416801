// What goes over the bus of a BQ769x0 battery monitor, with check bytes and without: the frame of a write is made, and the frame of
// a read is tested and its data taken out. `specs/Frames.antt` has the datasheet's rule.
#![tactic(auto)]

ghost use Rattle.std.specs.Prelude.{◌≡◌, [], ◌∷◌, ◌+◌, ◌*◌, ◌≤◌, ◌<◌, length, take, drop, replicate};
ghost use Rattle.laws.specs.Choice.{when◌then◌else◌};
ghost use Rattle.frames.specs.Frames.{write_byte, read_byte, checked, right, data_of, written_frame};
ghost use Rattle.frames.specs.Put.{put};

use check_byte::{check_byte1, check_byte2, check_byte3};

// The data after the register, each byte with its check byte.
fn put_checked(address: u8, reg: u8, data: &[u8], out: &mut [u8])
    requires { 2 * length «data».now < length out.old }
    ensures { out.new
        ≡ put out.old 1 (checked (write_byte address ∷ reg ∷ []) «data».now) }
{
    for (i, byte) in data.iter().enumerate() {
        out[2 * i + 1] = *byte;
        out[2 * i + 2] = if i == 0 {
            check_byte3(address << 1, reg, *byte)
        } else {
            check_byte1(*byte)
        };
    }
}

// The data after the register, alone.
#[tactic(auto, using(crate::proofs::Put::put_more, crate::proofs::Steps::next))]
fn put_alone(data: &[u8], out: &mut [u8])
    requires { length «data».now < length out.old }
    ensures { out.new ≡ put out.old 1 «data».now }
{
    for (i, byte) in data.iter().enumerate() {
        out[i + 1] = *byte;
    }
}

// The frame of a write into out, and its length. Data of over eight bytes is refused: nothing is written, and the length is 0.
#[tactic(auto, using(crate::proofs::Frames::written_none, crate::proofs::Put::put_none))]
pub fn write_frame(check: bool, address: u8, reg: u8, data: &[u8], out: &mut [u8; 17]) -> usize
    ensures { (result ≡ length (written_frame check address reg «data».now))
        × (out.new ≡ put out.old 0 (written_frame check address reg «data».now)) }
{
    if data.len() > 8 {
        return 0;
    }
    out[0] = reg;
    if check {
        put_checked(address, reg, data, out);
        data.len() * 2 + 1
    } else {
        put_alone(data, out);
        data.len() + 1
    }
}

// The data of a read with check bytes, eight at a time, and whether they are all right; where one is wrong, data is zero.
pub fn taken(address: u8, frame: &[u8; 66], eights: usize, data: &mut [u8; 32]) -> bool
    ensures { (result ≡ right (read_byte address ∷ []) (take (16 * eights + 2) frame.now))
        × («data».new
        ≡ (when result then put «data».old 0 (take 32 (data_of (take (16 * eights) frame.now))) else replicate 32 0)) }
{
    // a slice: of an array behind a reference the proof is not told the length
    let bytes: &[u8] = frame;
    if bytes[1] != check_byte2(address << 1 | 1, bytes[0]) {
        *data = [0; 32];
        return false;
    }
    for k in 0..eights.min(4) {
        if !right_eight(bytes, k) {
            *data = [0; 32];
            return false;
        }
        carry_eight(bytes, k, data);
    }
    true
}

// Whether the eight pairs after the first and 8k more are each a byte and its check byte. The count is a constant and no test leaves
// the loop, so that the compiler tests the eight at once.
#[tactic(auto, using(crate::proofs::Eights::tested_pair, crate::proofs::Eights::tested_all))]
fn right_eight(frame: &[u8], k: usize) -> bool
    requires { 16 * k + 18 ≤ length frame.now }
    ensures { result ≡ right [] (take 16 (drop (16 * k + 2) frame.now)) }
{
    let mut wrong = 0;
    for i in 0..8 {
        wrong |= frame[16 * k + 2 * i + 3] ^ check_byte1(frame[16 * k + 2 * i + 2]);
    }
    wrong == 0
}

// The data bytes of eight pairs, from the 8k-th on.
#[tactic(auto, using(crate::proofs::Eights::carried_one, crate::proofs::Eights::carried_all))]
fn carry_eight(frame: &[u8], k: usize, data: &mut [u8])
    requires { (16 * k + 16 ≤ length frame.now) × (8 * k + 8 ≤ length «data».old) }
    ensures { «data».new
        ≡ put «data».old (8 * k) (data_of (take 16 (drop (16 * k) frame.now))) }
{
    for i in 0..8 {
        data[8 * k + i] = frame[16 * k + 2 * i];
    }
}
