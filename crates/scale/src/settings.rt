// The settings of a scale.
ghost use Rattle.std.specs.Prelude.{◌≡◌};
ghost use Rattle.scale.specs.Settings.{factory};

use crate::averaging::Averaging;
use crate::display::Display;
use crate::step::Step;
use command::Text;
use value::layout::Layout;
use value::output::OutputFormat;

// What a scale is set to. Dead load, full load and tare are in 1/16,000 digit.
#[derive(Clone, Copy)]
pub struct Settings {
    pub format: OutputFormat,
    pub averaging: Averaging,
    pub nominal: u32,
    pub step: Step,
    pub dead: i64,
    pub full: i64,
    pub display: Display,
    pub tare: i64,
    pub password: Text,
}

impl Settings {
    // The factory settings.
    pub(crate) fn factory() -> Settings
        ensures { result ≡ factory }
    {
        Settings {
            format: OutputFormat {
                layout: Layout::DecimalStatus,
                ended: true,
            },
            averaging: Averaging::One,
            nominal: 0,
            step: Step::One,
            dead: 0,
            full: 16_000_000_000,
            display: Display::Gross,
            tare: 0,
            password: Text {
                bytes: *b"AED\0\0\0\0",
                length: 3,
            },
        }
    }
}
