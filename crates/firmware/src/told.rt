// What C is told of a call: the number of its refusal, 0 where accepted, and the 36 bytes in out.
ghost use Rattle.std.specs.Prelude.{◌≡◌, ℕ};
ghost use Rattle.refusals.specs.Refusal.{number_of, as_answer};
ghost use Rattle.plan.specs.Plan.{as_init};
ghost use Rattle.layout.specs.Layout.{laid};
ghost use Rattle.firmware.specs.Handed.{layout, one_number};

use bus::Cursor;
use layout::lay_out;
use plan::answer::InitNumbers;
use plan::{CalculatedValues, answer};
use refusals::Error;

// Of an init.
pub(crate) fn values(answer: &Result<CalculatedValues, Error>, at: Cursor, out: &mut [u8; 36]) -> u8
    ensures { (result ≡ number_of (as_init answer.now)) × (out.new ≡ layout (as_init answer.now) at) }
{
    lay_out(out, at, answer::in_numbers(answer));
    answer::number(answer)
}

// Of a call that answers one number; its refusal is told as an init's.
pub(crate) fn number(answer: Result<u32, Error>, at: Cursor, out: &mut [u8; 36]) -> u8
    ensures { (result ≡ number_of (as_answer (λ (n : ℕ). n) answer))
        × (out.new ≡ laid at (one_number (as_answer (λ (n : ℕ). n) answer))) }
{
    match answer {
        Ok(n) => {
            lay_out(out, at, InitNumbers(n, 0, 0, 0, 0));
            0
        }
        Err(e) => values(&Err(e), at, out),
    }
}
