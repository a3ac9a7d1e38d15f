//! `Setting`.

ghost use Rattle.std.specs.Prelude.{◌≡◌};
ghost use Rattle.casd_daemon.specs.Words.{name_of, setting_of};

/// An option of the daemon.
#[derive(Clone, Copy, Debug, PartialEq, Eq)]
pub(crate) enum Setting {
    QuotaLow,
    QuotaHigh,
    Connections,
    Guard,
}

const SETTINGS: [Setting; 4] = [
    Setting::QuotaLow,
    Setting::QuotaHigh,
    Setting::Connections,
    Setting::Guard,
];

impl Setting {
    /// How the option is written.
    pub(crate) fn name(self) -> &'static str
        ensures { result.now ≡ name_of self }
    {
        match self {
            Setting::QuotaLow => "--quota-low",
            Setting::QuotaHigh => "--quota-high",
            Setting::Connections => "--connections",
            Setting::Guard => "--guard",
        }
    }

    /// The option that is written so.
    #[tactic(auto, unfolding(crate::specs::Words::setting_of))]
    pub(crate) fn of_name(name: &[u8]) -> Option<Setting>
        ensures { result ≡ setting_of name.now }
    {
        SETTINGS
            .iter()
            .copied()
            .find(|setting| setting.name().as_bytes() == name)
    }
}
