// The converter's calibration, read from the chip.
ghost use Rattle.bus.specs.Lent.{does};
ghost use Rattle.bus.specs.Raw.{as_raw};
ghost use Rattle.bq769x0.specs.Record.{leaves};
ghost use Rattle.procedure.specs.Calibrate.{read_adc_characteristics};
ghost use Rattle.setup.specs.Inside.{as_calibration, calibration_read};

use adc::transfer::AdcTransferFunction;
use bq769x0::BQ769x0;
use bus::Bus;
use bus::link::Link;
use refusals::Error;

#[tactic(auto, using(crate::proofs::ByLink::calibrate_tells), unfolding(procedure::specs::Calibrate::read_adc_characteristics, bq769x0::specs::Registers::soundly, bus::specs::Programs::on_tape))]
pub fn read_adc_characteristics(device: &mut BQ769x0, bus: &mut Bus) -> Result<(), Error>
    ensures { does (read_adc_characteristics device.old) bus (leaves (as_raw result) device.new) }
{
    device.sound()?;
    device.store_calibration(calibrate(device.link, bus)?);
    Ok(())
}

#[tactic(auto, using(bus::proofs::Steps::step, bus::proofs::Steps::bytes), unfolding(crate::specs::Inside::calibration_read, bus::specs::Programs::proceed, bus::specs::Programs::on_tape))]
pub(crate) fn calibrate(link: Link, bus: &mut Bus) -> Result<AdcTransferFunction, Error>
    ensures { does (calibration_read link) bus (as_calibration result) }
{
    let mut gain1_offset = [0u8; 2];
    let mut gain2 = [0u8; 1];
    raw::short::read(link, BQ769x0::ADCGAIN1, &mut gain1_offset, bus)?;
    raw::short::read(link, 0x59, &mut gain2, bus)?;
    Ok(AdcTransferFunction::from_registers(gain1_offset[0], gain1_offset[1], gain2[0]))
}
