// What C is told of an answer: the number, 0 where accepted, and in out the positions and the answer's value as a number, 0 where refused.
ghost use Rattle.std.specs.Prelude.{◌≡◌, ℕ};
ghost use Rattle.numbers.specs.Numbers.{as_u32};
ghost use Rattle.refusals.specs.Refusal.{as_answer};
ghost use Rattle.bench.specs.Calls.{told_by, told, nothing, itself, sensed, bits_of, bit_of, code_of};

use bus::Cursor;
use commands::control::TemperatureSource;
use measuring::degrees::Temperature;
use refusals::Error;
use units::flags::Stat;
use units::{MilliAmperes, MilliVolts};

// What a call answers, as a number for C.
pub trait InNumber: Copy {
    ghost in_number: { Self → ℕ };

    fn in_number(self) -> usize
        ensures { result ≡ in_number self };
}

pub fn tell<T: InNumber>(answer: Result<T, Error>, at: Cursor, out: &mut [usize; 3]) -> u8
    ensures { told_by result out.new ≡ told T.in_number at (as_answer (λ value. value) answer) }
{
    let (number, value) = match answer {
        Ok(value) => (0, value.in_number()),
        Err(e) => (e.number(), 0),
    };
    *out = [at.tape, at.log, value];
    number
}

impl InNumber for () {
    ghost in_number = { nothing };

    fn in_number(self) -> usize {
        0
    }
}

impl InNumber for u8 {
    ghost in_number = { itself };

    fn in_number(self) -> usize {
        usize::from(self)
    }
}

impl InNumber for bool {
    ghost in_number = { bit_of };

    fn in_number(self) -> usize {
        usize::from(self)
    }
}

impl InNumber for MilliAmperes {
    ghost in_number = { λ current. as_u32 current.0 };

    fn in_number(self) -> usize {
        numbers::as_u32(self.0) as usize
    }
}

impl InNumber for MilliVolts {
    ghost in_number = { λ voltage. as_u32 voltage.0 };

    fn in_number(self) -> usize {
        numbers::as_u32(self.0) as usize
    }
}

impl InNumber for Temperature {
    ghost in_number = { sensed };

    fn in_number(self) -> usize {
        match self {
            Temperature::InternalDie(t) => numbers::as_u32(t.0) as usize,
            Temperature::ExternalThermistor(t) => 4_294_967_296 + numbers::as_u32(t.0) as usize,
        }
    }
}

impl InNumber for Stat {
    ghost in_number = { bits_of };

    fn in_number(self) -> usize {
        usize::from(self.bits)
    }
}

impl InNumber for TemperatureSource {
    ghost in_number = { code_of };

    fn in_number(self) -> usize {
        match self {
            TemperatureSource::InternalDie => 0,
            TemperatureSource::ExternalThermistor => 1,
        }
    }
}
