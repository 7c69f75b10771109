//! Which operations are commands.
ghost use Rattle.std.specs.Prelude.{◌≡◌};
ghost use Rattle.lin_report.specs.Object;

use crate::calls::{ADD, Client, DEL, GET, HAS, MIN, Op, PEEK, PUT, REM, SET, TAKE};

/// Whether the operation is a command of the client: one of its codes, each number that the command takes in range, and
/// 0 in each that it doesn't take.
pub fn is_command(client: Client, op: Op) -> bool
    ensures { result ≡ Object.is_command client op }
{
    let keyed = op.key < 1_048_576 && op.value == 0;
    let bare = op.key == 0 && op.value == 0;
    let of_sets = (op.code == ADD || op.code == DEL || op.code == HAS) && keyed;
    match client {
        Client::Queue => {
            (op.code == PUT && op.key == 0) || ((op.code == TAKE || op.code == PEEK) && bare)
        }
        Client::List => of_sets || (op.code == MIN && bare),
        Client::Buckets => of_sets,
        Client::Tree => {
            (op.code == SET && op.key < 1_048_576) || ((op.code == REM || op.code == GET) && keyed)
        }
    }
}
