// A call that is cut: an init, or a set of inputs balanced.
use bq769x0::BQ769x0;
use bus::Bus;
use commands::balancing;
use plan::{CalculatedValues, Config};
use refusals::Error;

// What either answers: an init the values too.
pub(crate) type Answer = Result<Option<CalculatedValues>, Error>;

#[derive(Clone, Copy)]
pub(crate) enum Call {
    Init(Config),
    // with the board's limit
    Set(u16, u8),
}

impl Call {
    pub(crate) fn make(self, device: &mut BQ769x0, bus: &mut Bus) -> Answer {
        match self {
            Call::Init(config) => setup::init(device, config, bus).map(Some),
            Call::Set(inputs, limit) => {
                balancing::balance_set(device, inputs, limit, bus).map(|_| None)
            }
        }
    }

    // Another one of its kind, in words.
    pub(crate) fn another(self) -> &'static str {
        match self {
            Call::Init(_) => "of another configuration",
            Call::Set(_, _) => "of another set",
        }
    }
}
