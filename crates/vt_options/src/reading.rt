//! Options, read from the matches of a command line.

ghost use Rattle.std.specs.Prelude.{◌≡◌, ◌<◌, ◌^◌, Some, None, IfOk, IfErr, codes, true};
ghost use Rattle.clap.specs.Words.{first_value, found_of};
ghost use Rattle.vt_key.specs.promise.Faults.{fault_number, option_named};
ghost use Rattle.vt_model.specs.promise.Settings.{is_between};
ghost use Rattle.vt_options.specs.promise.Table.{number_in, synch_in, version_in, finals_in, records_in, records_said, bad, first_bad_of, config_table};
ghost use Rattle.vt_options.specs.promise.Settings.{GiveConfig};

use crate::Synch;
use crate::limits::{END, LPS, NumberRange, SEED, WORKERS};
use clap::ArgMatches;
use vt_key::Fault;
use vt_model::Config;
use vt_text::{Version, read_number};

/// The number that the words give to an option, in its range; the default if they give it none.
///
/// [`Fault::BadOption`]: it is no number in this range.
fn number_given(matches: &ArgMatches, name: &'static str, range: NumberRange) -> Result<u64, Fault>
    ensures ok { IfOk result (λ n. number_in range.least range.most range.default (first_value (found_of matches.now) name.entry.now) ≡ Some n) }
    ensures err { IfErr result (λ fault. fault ≡ Fault.BadOption name.entry) }
    ensures none { IfErr result (λ _. number_in range.least range.most range.default (first_value (found_of matches.now) name.entry.now) ≡ None) }
{
    let Some(text) = matches.get_str(name) else {
        return Ok(range.default);
    };
    match read_number(text.as_bytes()) {
        Some(n) if range.least <= n && n <= range.most => Ok(n),
        _ => Err(Fault::BadOption(name)),
    }
}

/// An option that is a number of up to 64 bits, in this range; its default if it isn't given.
pub(crate) fn number_option(
    matches: &ArgMatches,
    name: &'static str,
    range: NumberRange,
) -> Result<u64, Fault>
    requires { is_between range.least range.most range.default ≡ true }
    ensures ok { IfOk result (λ n. number_in range.least range.most range.default (first_value (found_of matches.now) name.entry.now) ≡ Some n) }
    ensures within { IfOk result (λ n. is_between range.least range.most n ≡ true) }
    ensures err { IfErr result (λ fault. fault ≡ Fault.BadOption name.entry) }
    ensures none { IfErr result (λ _. number_in range.least range.most range.default (first_value (found_of matches.now) name.entry.now) ≡ None) }
{
    number_given(matches, name, range)
}

/// An option that is a number of up to 32 bits, in this range; its default if it isn't given.
pub(crate) fn small_option(
    matches: &ArgMatches,
    name: &'static str,
    range: NumberRange,
) -> Result<u32, Fault>
    requires small { range.most < 2 ^ 32 }
    requires default { is_between range.least range.most range.default ≡ true }
    ensures ok { IfOk result (λ n. number_in range.least range.most range.default (first_value (found_of matches.now) name.entry.now) ≡ Some n) }
    ensures within { IfOk result (λ n. is_between range.least range.most n ≡ true) }
    ensures err { IfErr result (λ fault. fault ≡ Fault.BadOption name.entry) }
    ensures none { IfErr result (λ _. number_in range.least range.most range.default (first_value (found_of matches.now) name.entry.now) ≡ None) }
{
    let n = number_option(matches, name, range)?;
    Ok(n as u32)
}

/// The option `synch`: how a run keeps events in order; 1 if it isn't given.
///
/// [`Fault::BadOption`]: it is neither 1 nor 3.
pub(crate) fn synch_option(matches: &ArgMatches) -> Result<Synch, Fault>
    ensures ok { IfOk result (λ synch. synch_in (first_value (found_of matches.now) (codes "synch")) ≡ Some synch) }
    ensures err { IfErr result (λ fault. fault_number fault ≡ 7) }
    ensures bad { IfErr result (λ fault. option_named fault ≡ bad (codes "synch") (synch_in (first_value (found_of matches.now) (codes "synch")))) }
{
    let Some(text) = matches.get_str("synch") else {
        return Ok(Synch::Sequential);
    };
    match read_number(text.as_bytes()) {
        Some(1) => Ok(Synch::Sequential),
        Some(3) => Ok(Synch::Optimistic),
        _ => Err(Fault::BadOption("synch")),
    }
}

/// The option `text`: the version of the text of records; 2 if it isn't given.
///
/// [`Fault::BadOption`]: it is neither 1 nor 2.
pub(crate) fn text_option(matches: &ArgMatches) -> Result<Version, Fault>
    ensures ok { IfOk result (λ version. version_in (first_value (found_of matches.now) (codes "text")) ≡ Some version) }
    ensures err { IfErr result (λ fault. fault_number fault ≡ 7) }
    ensures bad { IfErr result (λ fault. option_named fault ≡ bad (codes "text") (version_in (first_value (found_of matches.now) (codes "text")))) }
{
    let Some(text) = matches.get_str("text") else {
        return Ok(Version::Two);
    };
    match read_number(text.as_bytes()) {
        Some(1) => Ok(Version::One),
        Some(2) => Ok(Version::Two),
        _ => Err(Fault::BadOption("text")),
    }
}

/// The flag `finals`: whether final values are printed.
///
/// [`Fault::BadOption`]: it is given, and the version of the text is 1, which has no final values.
pub(crate) fn finals_option(matches: &ArgMatches, version: Version) -> Result<bool, Fault>
    requires { version_in (first_value (found_of matches.now) (codes "text")) ≡ Some version }
    ensures ok { IfOk result (λ finals. finals_in (first_value (found_of matches.now)) ≡ Some finals) }
    ensures err { IfErr result (λ fault. fault_number fault ≡ 7) }
    ensures bad { IfErr result (λ fault. option_named fault ≡ bad (codes "finals") (finals_in (first_value (found_of matches.now)))) }
{
    let Some(text) = matches.get_str("finals") else {
        return Ok(false);
    };
    if text != "true" {
        return Ok(false);
    }
    match version {
        Version::One => Err(Fault::BadOption("finals")),
        Version::Two => Ok(true),
    }
}

/// The option `records`: whether records are printed. Then it is in this version.
///
/// [`Fault::BadOption`]: it is neither `yes` nor `no`.
pub(crate) fn records_option(
    matches: &ArgMatches,
    version: Version,
) -> Result<Option<Version>, Fault>
    requires { version_in (first_value (found_of matches.now) (codes "text")) ≡ Some version }
    ensures ok { IfOk result (λ records. records_in (first_value (found_of matches.now)) ≡ Some records) }
    ensures good { IfOk result (λ _. bad (codes "records") (records_said (first_value (found_of matches.now) (codes "records"))) ≡ None) }
    ensures err { IfErr result (λ fault. fault_number fault ≡ 7) }
    ensures bad { IfErr result (λ fault. option_named fault ≡ bad (codes "records") (records_said (first_value (found_of matches.now) (codes "records")))) }
{
    let Some(text) = matches.get_str("records") else {
        return Ok(Some(version));
    };
    if text == "yes" {
        Ok(Some(version))
    } else if text == "no" {
        Ok(None)
    } else {
        Err(Fault::BadOption("records"))
    }
}

/// The options of the config: `workers`, `lps`, `end` and `seed`.
///
/// [`Fault::BadOption`] names the first of them that is no number in its range.
pub(crate) fn config_options(matches: &ArgMatches) -> Result<Config, Fault>
    ensures ok { IfOk result (λ c. GiveConfig (first_value (found_of matches.now)) c) }
    ensures good { IfOk result (λ _. first_bad_of (first_value (found_of matches.now)) config_table ≡ None) }
    ensures err { IfErr result (λ fault. fault_number fault ≡ 7) }
    ensures bad { IfErr result (λ fault. option_named fault ≡ first_bad_of (first_value (found_of matches.now)) config_table) }
{
    let workers = small_option(matches, "workers", WORKERS)?;
    let lps = small_option(matches, "lps", LPS)?;
    let end = number_option(matches, "end", END)?;
    let seed = number_option(matches, "seed", SEED)?;
    Config::new(lps, workers, end, seed)
}
