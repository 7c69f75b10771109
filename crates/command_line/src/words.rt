//! What a word of the command line may be.
ghost use Rattle.std.specs.Prelude.{◌≡◌, ◌≤◌, IfSome};
ghost use Rattle.command_line.specs.Words.{client_named, number_in};

use lin_report::Client;
use script_reader::number_up_to;

/// The client that a word names.
pub fn client_named(word: &str) -> Option<Client>
    ensures { result ≡ client_named word.now }
{
    match word {
        "queue" => Some(Client::Queue),
        "list" => Some(Client::List),
        "tree" => Some(Client::Tree),
        "buckets" => Some(Client::Buckets),
        _ => None,
    }
}

/// The number that a word writes, where it is in range.
pub fn number_in(least: u32, most: u32, word: &str) -> Option<u32>
    ensures number { result ≡ number_in least most word.now }
    ensures range { IfSome result (λ n. (least ≤ n) × (n ≤ most)) }
{
    let number = number_up_to(most, word.as_bytes())?;
    if !word.is_empty() && least <= number {
        Some(number)
    } else {
        None
    }
}
