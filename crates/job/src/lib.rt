// The job at the head of the printing program's input: field 20, the device, and field 21, the configuration. The tape follows.
#![tactic(auto)]

ghost use Rattle.std.specs.Prelude.{◌≡◌, ◌+◌, ◌≤◌, length};
ghost use Rattle.job.specs.Jobs.{number_at, signed_at, is_config, device_for};
ghost use Rattle.job.specs.Jobs.{as_device, config_for, as_config, job_of, as_job};
ghost use Rattle.job.specs.Inside.{says_field, says_device, listed_config};

use plan::Config;
use protection::delays::{OCDDelay, OVDelay, SCDDelay, UVDelay};
use refusals::Error;
use units::{Amperes, MicroOhms, MilliVolts};

pub mod seconds;

pub const TAPE_AT: usize = 34;

#[derive(Clone, Copy)]
pub struct Device {
    pub x: u8,
    pub cells: u8,
    pub address: u8,
    pub check: bool,
}

#[derive(Clone, Copy)]
pub struct Job {
    pub device: Device,
    pub config: Config,
}

fn number_at(job: &[u8], at: usize) -> u32
    requires { at + 4 ≤ length job.now }
    ensures { result ≡ number_at job.now at }
{
    numbers::be_u32(job[at], job[at + 1], job[at + 2], job[at + 3])
}

fn millivolts_at(job: &[u8], at: usize) -> MilliVolts
    requires { at + 4 ≤ length job.now }
    ensures { result.0 ≡ signed_at job.now at }
{
    MilliVolts(numbers::as_i32(number_at(job, at)))
}

// At `at` stands a field of this tag and length.
fn is_field(job: &[u8], at: usize, tag: u8, len: u16) -> bool
    requires { at + 3 ≤ length job.now }
    ensures { result ≡ says_field job.now at tag len }
{
    let said = numbers::be_u16(job[at + 1], job[at + 2]);
    (job[at] == tag) & (said == len)
}

// The configuration whose first byte is at `at`, or 15 where a code is past its list.
#[tactic(auto, using(plan::proofs::Order::in_turn), unfolding(crate::specs::Inside::listed_config))]
fn config_at(job: &[u8], at: usize) -> Result<Config, Error>
    requires { at + 24 ≤ length job.now }
    ensures { as_config result ≡ listed_config job.now at }
{
    Ok(Config {
        shunt: MicroOhms(number_at(job, at)),
        scd_delay: SCDDelay::try_from(job[at + 20])?,
        scd_threshold: Amperes(number_at(job, at + 4)),
        ocd_delay: OCDDelay::try_from(job[at + 21])?,
        ocd_threshold: Amperes(number_at(job, at + 8)),
        uv_delay: UVDelay::try_from(job[at + 22])?,
        uv_threshold: millivolts_at(job, at + 12),
        ov_delay: OVDelay::try_from(job[at + 23])?,
        ov_threshold: millivolts_at(job, at + 16),
    })
}

// The device that bytes begin with, or 15.
#[tactic(auto, using(crate::proofs::ByTests::device_by_tests), unfolding(crate::specs::Inside::says_device))]
pub fn parse_device(job: &[u8]) -> Result<Device, Error>
    ensures { as_device result ≡ device_for job.now }
{
    if job.len() < 7 || !is_field(job, 0, 0x20, 4) || 2 <= job[6] {
        return Err(Error::BadTape);
    }
    Ok(Device {
        x: job[3],
        cells: job[4],
        address: job[5],
        check: job[6] == 1,
    })
}

// The configuration that is a field's whole value, or 15.
#[tactic(auto, using(crate::proofs::ByTests::listed_by_tests), unfolding(crate::specs::Jobs::config_for, crate::specs::Jobs::is_config))]
pub fn parse_config(value: &[u8]) -> Result<Config, Error>
    ensures { as_config result ≡ config_for value.now }
{
    if value.len() != 24 {
        return Err(Error::BadTape);
    }
    config_at(value, 0)
}

#[tactic(auto, unfolding(crate::specs::Jobs::config_for))]
pub fn is_config(value: &[u8]) -> bool
    ensures { result ≡ is_config value.now }
{
    parse_config(value).is_ok()
}

// The job that bytes begin with, or 15. The tape starts at TAPE_AT.
#[tactic(auto, using(crate::proofs::ByTests::device_by_tests, crate::proofs::ByTests::job_by_tests, crate::proofs::ByTests::listed_by_tests), unfolding(crate::specs::Inside::says_job))]
pub fn parse(job: &[u8]) -> Result<Job, Error>
    ensures { as_job result ≡ job_of job.now }
{
    let device = parse_device(job)?;
    if job.len() < TAPE_AT || !is_field(job, 7, 0x21, 24) {
        return Err(Error::BadTape);
    }
    let config = config_at(job, 10)?;
    Ok(Job { device, config })
}
