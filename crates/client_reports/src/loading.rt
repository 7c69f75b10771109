//! Runs generated files in rounds and makes the text of the summary.
ghost use Rattle.lin_report.specs.declared.calls.Op.{Op};
ghost use Rattle.lin_report.specs.Object.{is_command};
ghost use Rattle.std.specs.Prelude.{◌≡◌, ◌≤◌, IfOk};
ghost use Rattle.client_reports.specs.Forms.{form_of};
ghost use Rattle.client_reports.specs.Loads.{IsLoaded};

use crate::clients::at_client;
use crate::running::{Replayed, any_exhausted, runs_can_be_written};
use event_core::Core;
use fast_slow_engine::Setup;
use generated_files::generate;
use generated_files::laws::each_runs;
use lin_report::{Client, NoMemory, report_room, write_summary};
use normal_traits::Normalized;
use run_reports::headline::files_meet_headline;
use schedule_runs::laws::steps_run_in_order;
use schedule_runs::take_rounds;
use std::alloc::Global;

/// How many rounds there are at most for each call of a seat.
pub const ROUNDS_OF_A_CALL: u32 = 16_384;

/// A load: of which structure, how many blocks there are, how often a call may fail on its fast path, how many seats make
/// calls, how many calls each of them makes, and the seed of these calls.
#[derive(Clone, Copy, Debug, PartialEq, Eq)]
pub struct Load {
    pub client: Client,
    pub cap: u32,
    pub limit: u32,
    pub threads: u32,
    pub calls: u32,
    pub seed: u32,
}

/// The summary of a structure's run. All memory of the run and of the text is taken before the run is made.
fn summary_of<C: Normalized>(alloc: Global, load: Load) -> Result<Replayed, NoMemory>
    requires serves { (op : Op) → C.form.object.serves op ≡ is_command load.client op }
    requires cap { (1 ≤ load.cap) × (load.cap ≤ 65536) }
    requires limit { load.limit ≤ 255 }
    requires threads { (1 ≤ load.threads) × (load.threads ≤ 8) }
    requires calls { load.calls ≤ 65535 }
    ensures { IfOk result (λ made. IsLoaded C.form load made.text.items made.exhausted) }
{
    let setup = Setup {
        seats: load.threads,
        cap: load.cap,
        limit: load.limit,
    };
    let mut text = report_room(alloc, 0)?;
    each_runs();
    let files = generate(alloc, load.client, load.seed, load.threads, load.calls)?;
    let mut core = Core::<C>::new(alloc, setup, files)?;
    take_rounds(&mut core, load.threads, load.calls * ROUNDS_OF_A_CALL);
    core.sort_by_begin();
    let pending = core.pending();
    steps_run_in_order::<C>();
    runs_can_be_written::<C>();
    files_meet_headline::<C>();
    let overtaken = core.greatest_overtaken();
    write_summary(
        &mut text,
        core.receipts(),
        pending.as_slice(),
        Some(overtaken),
    );
    let exhausted = any_exhausted(core.receipts());
    Ok(Replayed { text, exhausted })
}

/// The summary of the run of a client.
pub fn make_summary(alloc: Global, load: Load) -> Result<Replayed, NoMemory>
    requires cap { (1 ≤ load.cap) × (load.cap ≤ 65536) }
    requires limit { load.limit ≤ 255 }
    requires threads { (1 ≤ load.threads) × (load.threads ≤ 8) }
    requires calls { load.calls ≤ 65535 }
    ensures { IfOk result (λ made. IsLoaded (form_of load.client) load made.text.items made.exhausted) }
{
    at_client!(load.client, summary_of[](alloc, load))
}
