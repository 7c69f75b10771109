//! The words of a check.
ghost use Rattle.std.specs.Prelude.{◌≡◌, map, string_bytes};
ghost use Rattle.std.specs.Option.{option_map};
ghost use Rattle.checking.specs.Words.{check_words, said};

use command_line::client_named;
use lin_report::Client;

/// What the words of a check say: of which structure the report is, and the names of the two files.
#[derive(Clone, Copy, Debug)]
pub struct CheckWords<'a> {
    pub client: Client,
    pub report: &'a str,
    pub order: &'a str,
}

/// Reads `check CLIENT REPORT ORDER`. Other words are no check.
pub fn check_words(words: &[String]) -> Option<CheckWords<'_>>
    ensures { option_map said result ≡ check_words (map string_bytes words.now) }
{
    let [command, client, report, order] = words else {
        return None;
    };
    if command.as_str() != "check" {
        return None;
    }
    Some(CheckWords {
        client: client_named(client.as_str())?,
        report: report.as_str(),
        order: order.as_str(),
    })
}
