//! The table of a program of one model.

ghost use Rattle.std.specs.Prelude.{◌≡◌};
ghost use Rattle.vt_options.specs.inside.Own.{AllHaveDefaults, file_names, models_of};
ghost use Rattle.vt_options.specs.promise.Own.{HaveDefaults, only_with};

use std::slice;
use vt_options::{FileOption, ModelOptions, ModelTable, OwnOption};

/// A model that is the only one.
pub(crate) fn only_model(own: &[OwnOption]) -> ModelOptions<'_>
    ensures { result.options.now ≡ own.now }
{
    ModelOptions {
        name: "",
        heading: "Options of the model",
        options: own,
    }
}

/// The table of a program of this model, some of whose options are files.
pub(crate) fn table_of<'a>(model: &'a ModelOptions<'a>, files: &'a [FileOption]) -> ModelTable<'a>
    ensures table { models_of result ≡ only_with model.now.options.now (file_names files.now) }
    ensures defaults { HaveDefaults model.now.options.now → AllHaveDefaults result.models.now }
{
    ModelTable {
        naming: None,
        models: slice::from_ref(model),
        files,
        programs: false,
    }
}
