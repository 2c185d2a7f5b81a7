//! The number of processes with which a model is run that fixes one.

ghost use Rattle.std.specs.Prelude.{IfOk, IfErr};
ghost use Rattle.vt_options.specs.promise.Processes.{IsUnsettled, Settles};

use vt_key::MAX_PROCESSES;
use vt_model::Config;

/// Why a model isn't run with the number of processes that it fixes.
#[derive(Debug, Clone, Copy, PartialEq, Eq)]
pub enum Unsettled {
    /// There can't be so many processes, or none.
    Count,
    /// It fixes this number, and the words give another one.
    Lps(u32),
}

/// The config with which a model is run that fixes this number of processes, or none. `given` is the number that the words give.
pub fn settled(fixed: Option<u64>, given: Option<u32>, config: Config) -> Result<Config, Unsettled>
    ensures ok { IfOk result (λ settled. Settles fixed given config settled) }
    ensures err { IfErr result (IsUnsettled fixed given) }
{
    let Some(count) = fixed else {
        return Ok(config);
    };
    if count < 1 || count > u64::from(MAX_PROCESSES) {
        return Err(Unsettled::Count);
    }
    let lps = count as u32;
    if let Some(given) = given {
        if given != lps {
            return Err(Unsettled::Lps(lps));
        }
    }
    let Ok(config) = Config::new(lps, config.workers, config.end, config.seed) else {
        unreachable!();
    };
    Ok(config)
}
