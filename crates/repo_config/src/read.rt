//! The reader: the text, the refusals, the configuration.
ghost use Rattle.std.specs.Prelude.{◌≡◌, ◌⊎◌, IfOk, IfErr};
ghost use Rattle.sha1.specs.Sha1.{sha1};
ghost use Rattle.java_props.specs.Reading.{Reads, Refuses};
ghost use Rattle.repo_config.specs.declared.config_err.ConfigErr.TheVariants as refused;
ghost use Rattle.repo_config.specs.Reading.{Configures, IsRefused};
ghost use Rattle.repo_config.specs.Told.{TellsProps};

use crate::build::configure;
use crate::checks::test;
use crate::config::Config;
use crate::config_err::ConfigErr;
use java_props::{Pairs, PropsErr};
use sha1::Sha1;
use std::alloc::Global;

/// The pairs of a text.
fn read_pairs(alloc: Global, bytes: &[u8]) -> Result<Pairs, ConfigErr>
    ensures ok { IfOk result (λ pairs. Reads bytes.now pairs) }
    ensures err { IfErr result (λ e. (e ≡ refused.NoMemory) ⊎ TellsProps bytes.now e) }
{
    match java_props::read(alloc, bytes) {
        Ok(pairs) => Ok(pairs),
        Err(PropsErr::NoMemory) => Err(ConfigErr::NoMemory),
        Err(e) => Err(ConfigErr::Props(e)),
    }
}

pub(crate) fn read_config(alloc: Global, bytes: &[u8]) -> Result<Config, ConfigErr>
    ensures ok { IfOk result (λ config. Configures bytes.now config) }
    ensures err { IfErr result (λ e. (e ≡ refused.NoMemory) ⊎ IsRefused bytes.now e) }
{
    let pairs = read_pairs(alloc, bytes)?;
    test(alloc, &pairs)?;
    Ok(configure(alloc, &pairs, Sha1::digest(bytes))?)
}
