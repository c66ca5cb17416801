// The caller's byte after a question.
ghost use Rattle.std.specs.Prelude.{◌≡◌, ℕ};
ghost use Rattle.refusals.specs.Refusal.{as_answer};
ghost use Rattle.firmware.specs.Found.{found, found_for};

use refusals::Error;

pub(crate) fn store(answer: Result<u8, Error>, byte: &mut [u8; 1]) -> u8
    ensures { found result byte.new ≡ found_for (as_answer (λ (n : ℕ). n) answer) byte.old }
{
    match answer {
        Ok(n) => {
            *byte = [n];
            0
        }
        Err(e) => e.number(),
    }
}
