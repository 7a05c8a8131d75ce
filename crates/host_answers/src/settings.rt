// The settings of a send, as C gives them.
ghost use Rattle.host_answers.specs.Settings.{SettingsTold};

use sender::Settings;

// `count` messages over n packets each, or `count` spares, and then n is not looked at (rules 24.7 and 24.19).
pub fn settings_of(parity: bool, count: u8, n: u8) -> Settings
    ensures { SettingsTold parity count n result }
{
    if parity {
        Settings::Parity { n, m: count }
    } else {
        Settings::Spares(count)
    }
}
