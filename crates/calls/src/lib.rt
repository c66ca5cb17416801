// The head of a run of calls: field 20, the device, then call fields, then field 3F with no value. The tape follows.
#![tactic(auto)]

ghost use Rattle.std.specs.Prelude.{◌≡◌, ◌+◌, ◌≤◌, length, drop, IfOk};
ghost use Rattle.calls.specs.Shapes.{shape_of, below, reads, fits, lawful};
ghost use Rattle.calls.specs.Heads.{field_at, as_field, past_from, end_from, heading_of, as_head};

use job::Device;
use refusals::Error;

// Where the first call field stands, after field 20.
pub const CALLS_AT: usize = 7;

// The tag of the field that ends the calls.
pub const END: u8 = 0x3F;

// A field's tag, and where its value lies.
#[derive(Clone, Copy)]
pub struct Field {
    pub tag: u8,
    pub start: usize,
    pub len: usize,
}

#[derive(Clone, Copy)]
pub struct Heading {
    pub device: Device,
    pub tape_at: usize,
}

// What a call's value is.
#[derive(Clone, Copy)]
pub enum Shape {
    Empty,
    Bytes(u8), // so many
    Below(u8), // one, below this
    Config,
    Read, // register, two-byte count
    Write, // register, bytes
}

// By their tags from 21.
const SHAPES: [Shape; 24] = [
    Shape::Config, // 21 init
    Shape::Bytes(1), // 22 cells
    Shape::Empty, // 23 current
    Shape::Empty, // 24 voltage
    Shape::Empty, // 25 temperature
    Shape::Bytes(1), // 26 enable_balancing
    Shape::Empty, // 27 balancing_state
    Shape::Empty, // 28 sys_stat
    Shape::Bytes(1), // 29 sys_stat_reset
    Shape::Below(2), // 2A discharge
    Shape::Below(2), // 2B charge
    Shape::Empty, // 2C is_charge_enabled
    Shape::Empty, // 2D ship_enter
    Shape::Below(2), // 2E enable_adc
    Shape::Below(2), // 2F set_temperature_source
    Shape::Empty, // 30 temperature_source
    Shape::Below(3), // 31 coulomb_counter_mode
    Shape::Read, // 32 read_raw
    Shape::Write, // 33 write_raw
    Shape::Bytes(2), // 34 wired
    Shape::Bytes(3), // 35 cell_on
    Shape::Bytes(3), // 36 balance_set
    Shape::Empty, // 37 balance_get
    Shape::Empty, // 38 spread
];

#[tactic(auto, using(crate::proofs::Rows::before))]
fn shape_of(tag: u8) -> Option<Shape>
    ensures { result ≡ shape_of tag }
{
    let place = tag.checked_sub(0x21)?;
    SHAPES.get(place as usize).copied()
}

#[tactic(auto, unfolding(crate::specs::Shapes::below))]
fn is_below(value: &[u8], bound: u8) -> bool
    ensures { result ≡ below bound value.now }
{
    value.len() == 1 && value[0] < bound
}

#[tactic(auto, unfolding(crate::specs::Shapes::reads))]
fn is_read(value: &[u8]) -> bool
    ensures { result ≡ reads value.now }
{
    value.len() == 3 && numbers::be_u16(value[1], value[2]) <= 512
}

#[tactic(auto, unfolding(crate::specs::Shapes::writes))]
fn fits(shape: Shape, value: &[u8]) -> bool
    ensures { result ≡ fits shape value.now }
{
    let n = value.len();
    match shape {
        Shape::Empty => n == 0,
        Shape::Bytes(count) => n == count as usize,
        Shape::Below(bound) => is_below(value, bound),
        Shape::Config => job::is_config(value),
        Shape::Read => is_read(value),
        Shape::Write => (1 <= n) & (n <= 65),
    }
}

// Whether a field of this tag and value is a call.
#[tactic(auto, unfolding(crate::specs::Shapes::lawful))]
pub fn is_lawful(tag: u8, value: &[u8]) -> bool
    ensures { result ≡ lawful tag value.now }
{
    match shape_of(tag) {
        Some(shape) => fits(shape, value),
        None => false,
    }
}

// The field at `at`, or 15 where it is cut short.
#[tactic(auto, using(crate::proofs::Steps::cut_there))]
pub fn field_at(input: &[u8], at: usize) -> Result<Field, Error>
    ensures field { as_field result ≡ field_at at (drop at input.now) }
    ensures lies { IfOk result (λ field. (field.start ≡ at + 3) × (field.start + field.len ≤ length input.now)) }
{
    let Some([tag, high, low, rest @ ..]) = input.get(at..) else {
        return Err(Error::BadTape);
    };
    let len = numbers::be_u16(*high, *low) as usize;
    if rest.len() < len {
        return Err(Error::BadTape);
    }
    Ok(Field {
        tag: *tag,
        start: at + 3,
        len,
    })
}

// Past the calls that stand from a place on: where the first field stands that is none.
pub fn past_calls(input: &[u8], calls_at: usize) -> usize
    ensures { result ≡ past_from (length input.now) calls_at (drop calls_at input.now) }
{
    let mut at = calls_at;
    while let Ok(field) = field_at(input, at) {
        let end = field.start + field.len;
        if !is_lawful(field.tag, &input[field.start..end]) {
            break;
        }
        at = end;
    }
    at
}

// The field that ends the calls, each of which is lawful; or 15.
fn end_of_calls(input: &[u8]) -> Result<Field, Error>
    ensures { as_field result ≡ end_from (length input.now) 7 (drop 7 input.now) }
{
    let field = field_at(input, past_calls(input, CALLS_AT))?;
    if (field.tag == END) & (field.len == 0) {
        Ok(field)
    } else {
        Err(Error::BadTape)
    }
}

// The head that bytes begin with, or 15.
#[tactic(auto, unfolding(crate::specs::Heads::heading_of))]
pub fn head(input: &[u8]) -> Result<Heading, Error>
    ensures { as_head result ≡ heading_of input.now }
{
    let device = job::parse_device(input)?;
    let end = end_of_calls(input)?;
    Ok(Heading {
        device,
        tape_at: end.start,
    })
}
