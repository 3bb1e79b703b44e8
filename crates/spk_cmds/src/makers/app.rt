//! Applications by the values of their words.

ghost use Rattle.std.specs.Prelude.{◌≡◌};
ghost use Rattle.spk_cmds.specs.Makers.App.{diffusion};

use crate::command::AppStyle;
use crate::value::Values;

/// `diffusion off hop` or `diffusion linear hop`.
pub fn diffusion(values: &Values) -> AppStyle
    ensures { result ≡ diffusion values.now }
{
    match values.word(1) {
        "off" => AppStyle::DiffusionOff,
        _ => AppStyle::DiffusionLinear,
    }
}
