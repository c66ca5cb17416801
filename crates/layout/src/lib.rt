// What C is given in bytes, every number high byte first: the 36 bytes of an init, and a list of cells.
#![tactic(auto)]

ghost use Rattle.std.specs.Prelude.{◌≡◌, ◌+◌, ◌≤◌, length};
ghost use Rattle.frames.specs.Put.{put};
ghost use Rattle.numbers.specs.Numbers.{four, eight};
ghost use Rattle.layout.specs.Layout.{laid};

use bus::Cursor;
use plan::answer::InitNumbers;

pub mod list;

// Bytes, over those from `at` on.
#[tactic(auto, unfolding(frames::specs::Put::put))]
fn put_bytes(out: &mut [u8], at: usize, bytes: &[u8])
    requires { at + length bytes.now ≤ length out.old }
    ensures { out.new ≡ put out.old at bytes.now }
{
    out[at..at + bytes.len()].copy_from_slice(bytes);
}

fn put4(out: &mut [u8], at: usize, n: u32)
    requires { at + 4 ≤ length out.old }
    ensures { out.new ≡ put out.old at (four n) }
{
    put_bytes(out, at, &numbers::u32_bytes(n));
}

fn put8(out: &mut [u8], at: usize, n: usize)
    requires { at + 8 ≤ length out.old }
    ensures { out.new ≡ put out.old at (eight n) }
{
    put_bytes(out, at, &numbers::u64_bytes(n as u64));
}

pub fn lay_out(out: &mut [u8; 36], at: Cursor, numbers: InitNumbers)
    ensures { out.new ≡ laid at numbers }
{
    put8(out, 0, at.tape);
    put8(out, 8, at.log);
    put4(out, 16, numbers.0);
    put4(out, 20, numbers.1);
    put4(out, 24, numbers.2);
    put4(out, 28, numbers.3);
    put4(out, 32, numbers.4);
}
