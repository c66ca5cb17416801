// A set of inputs to be balanced, as one number: whether it may be, and its registers.
#![tactic(auto)]

ghost use Rattle.std.specs.Prelude.{◌≡◌};
ghost use Rattle.cellbal.specs.Rules.{not_on_device, neighbours, too_many, allowed, as_judged};
ghost use Rattle.cellbal.specs.Registers.{register_count, three_for, set_of};

use refusals::Error;

// Whether a device of x inputs may have the set, on a board with this limit: 22, 23, 24.
#[tactic(auto, unfolding(crate::specs::Rules::allowed))]
pub fn judge(x: u8, set: u16, limit: u8) -> Result<(), Error>
    ensures { as_judged result ≡ allowed x set limit }
{
    if not_on_device(x, set) {
        Err(Error::NotOnDevice)
    } else if neighbours(set) {
        Err(Error::Neighbours)
    } else if too_many(limit, set) {
        Err(Error::TooManyCells)
    } else {
        Ok(())
    }
}

// Bits x and up name inputs over x.
#[tactic(auto, using(crate::proofs::Shifted::all_named, crate::proofs::Shifted::by_shift))]
fn not_on_device(x: u8, set: u16) -> bool
    ensures { result ≡ not_on_device x set }
{
    x < 16 && set >> x != 0
}

// Each input beside the next, but the fifth of a block.
#[tactic(auto, using(crate::proofs::Masked::by_mask))]
fn neighbours(set: u16) -> bool
    ensures { result ≡ neighbours set }
{
    set & (set >> 1) & 0b01111_01111_01111 != 0
}

#[tactic(auto, unfolding(crate::specs::Rules::too_many))]
fn too_many(limit: u8, set: u16) -> bool
    ensures { result ≡ too_many limit set }
{
    (limit as u32) < set.count_ones()
}

// How many registers a device of x inputs has.
pub fn register_count(x: u8) -> usize
    ensures { result ≡ register_count x }
{
    (x / 5) as usize
}

// The bytes of 01, 02 and 03.
pub fn registers(set: u16) -> [u8; 3]
    ensures { result ≡ three_for set }
{
    [
        (set % 32) as u8,
        (set / 32 % 32) as u8,
        (set / 1024 % 32) as u8,
    ]
}

// The set that three bytes show.
#[tactic(auto, using(crate::proofs::RoundTrip::three_show))]
pub fn set_of(bytes: [u8; 3]) -> u16
    ensures { result ≡ set_of bytes }
{
    (bytes[0] % 32) as u16 + 32 * ((bytes[1] % 32) as u16) + 1024 * ((bytes[2] % 32) as u16)
}
