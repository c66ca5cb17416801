// The steps at which a configuration's two currents trip.
ghost use Rattle.std.specs.Prelude.{◌≡◌};
ghost use Rattle.plan.specs.Steps.{as_steps, steps_for};

use crate::{Config, Steps};
use protection::Threshold;
use protection::ocd::OCDThreshold;
use protection::scd::SCDThreshold;
use refusals::Error;

impl Config {
    #[tactic(auto, using(crate::proofs::Order::in_turn), unfolding(crate::specs::Steps::shunt_for, crate::specs::Steps::steps_for))]
    pub fn steps(self) -> Result<Steps, Error>
        ensures { as_steps result ≡ steps_for self }
    {
        if crate::bad_shunt(self.shunt) {
            return Err(Error::BadShunt);
        }
        let scd = SCDThreshold::from_current(self.scd_threshold, self.shunt)?;
        let ocd = OCDThreshold::from_current(self.ocd_threshold, self.shunt)?;
        Ok(Steps { scd, ocd })
    }
}
