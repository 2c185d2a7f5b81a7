//! The model that a command line chooses, and the options of all models.

ghost use Rattle.std.specs.Prelude.{◌≡◌, [], None, Some, IfOk, IfErr, get_or};
ghost use Rattle.clap.specs.Words.{first_value, found_of};
ghost use Rattle.vt_key.specs.promise.Faults.{fault_number, option_named};
ghost use Rattle.vt_options.specs.promise.Own.{AreInRange, GiveValues, bad_naming, chosen_by, first_bad_in, index_from};
ghost use Rattle.vt_options.specs.inside.Own.{AllHaveDefaults, NamesBad, model_names, models_of, tables_of};

use crate::own::{ModelOptions, ModelTable, own_options};
use clap::ArgMatches;
use std::alloc::Global;
use vt_key::Fault;

/// The index of the model of a name.
fn index_of(models: &[ModelOptions<'_>], name: &str) -> Option<usize>
    ensures { result ≡ index_from 0 (model_names models.now) name.now }
{
    for (index, model) in models.iter().enumerate() {
        if model.name == name {
            return Some(index);
        }
    }
    None
}

/// The index of the model that the matches choose.
///
/// [`Fault::BadOption`]: the option that names it has no model's name.
pub(crate) fn model_option(matches: &ArgMatches, table: &ModelTable<'_>) -> Result<usize, Fault>
    ensures ok { IfOk result (λ index. chosen_by (models_of table.now).naming (first_value (found_of matches.now)) ≡ Some index) }
    ensures good { IfOk result (λ _. bad_naming (models_of table.now).naming (first_value (found_of matches.now)) ≡ None) }
    ensures err { IfErr result (λ fault. fault_number fault ≡ 7) }
    ensures bad { IfErr result (λ fault. option_named fault ≡ bad_naming (models_of table.now).naming (first_value (found_of matches.now))) }
{
    let Some(naming) = &table.naming else {
        return Ok(0);
    };
    let Some(name) = matches.get_str(naming.name) else {
        return Ok(0);
    };
    match index_of(table.models, name) {
        Some(index) => Ok(index),
        None => Err(Fault::BadOption(naming.name)),
    }
}

/// The values of the options of the model of an index, if there is one. The options of the other models are tested too.
///
/// [`Fault::BadOption`] names the first option of all models that is no number in its range. [`Fault::Memory`]: memory was
/// refused.
pub(crate) fn model_values(
    alloc: Global,
    matches: &ArgMatches,
    models: &[ModelOptions<'_>],
    wanted: usize,
) -> Result<Vec<u32>, Fault>
    requires { AllHaveDefaults models.now }
    ensures ok { IfOk result (λ values. GiveValues (first_value (found_of matches.now)) (get_or (tables_of models.now) wanted []) values.items) }
    ensures within { IfOk result (λ values. AreInRange (get_or (tables_of models.now) wanted []) values.items) }
    ensures good { IfOk result (λ _. first_bad_in (first_value (found_of matches.now)) (tables_of models.now) ≡ None) }
    ensures err { IfErr result (NamesBad (first_bad_in (first_value (found_of matches.now)) (tables_of models.now))) }
{
    let mut wanted_values = Vec::new(alloc);
    for (index, model) in models.iter().enumerate() {
        let values = own_options(alloc, matches, model.options)?;
        if index == wanted {
            wanted_values = values;
        }
    }
    Ok(wanted_values)
}
