//! The buckets as a structure in normalized form: each step is one of the list of a key.
ghost use Rattle.std.specs.Prelude.{◌≡◌, ◌≤◌, ◌<◌};
ghost use Rattle.bucket_set.specs.Buckets.{bucket_count, start_of};

use harris_list::list_steps::ListSteps;
use harris_list::{HarrisList, Seeking};
use harris_list_form::ListWrap;
use lin_report::commands::is_command;
use lin_report::{Client, NoMemory, Op};
use node_arena::opening_words;
use node_arena::places::FIRST_WORDS;
use normal_traits::{Found, List, Normalized, Stores, Wrapped};
use std::alloc::Global;
use step_memory::{Request, Seen};
use whole_calls::{Seeks, Steps};

/// The most buckets that there can be.
const MOST: u32 = 32;

/// A set whose keys are spread over N lists: over one where N is 0, and over 32 where it is above.
pub struct BucketSet<const N: u32>;

/// How many buckets there are.
fn bucket_count(asked: u32) -> u32
    ensures count { result ≡ bucket_count asked }
    ensures some { 1 ≤ result }
    ensures few { result ≤ 32 }
{
    match asked {
        0 => 1,
        1..=MOST => asked,
        _ => MOST,
    }
}

/// The place at which the list of a key begins.
fn start_of(asked: u32, key: u32) -> u32
    ensures { result ≡ start_of asked key }
{
    FIRST_WORDS + key % bucket_count(asked)
}

impl<const N: u32> Normalized for BucketSet<N> {
    ghost use Rattle.harris_list_form.specs.Form.{list_form};
    ghost use Rattle.bucket_set.specs.Buckets.{buckets};
    ghost use Rattle.bucket_set.specs.ProvedLaws.{bucket_laws};

    type Search = Seeking;

    type Wrap = ListWrap;

    ghost form = { list_form (buckets N) };

    fn opening(alloc: Global, cap: u32) -> Result<Vec<u64>, NoMemory> {
        opening_words(alloc, cap, Client::Buckets)
    }

    fn serves(op: Op) -> bool {
        is_command(Client::Buckets, op)
    }

    fn needs_block(op: Op) -> bool {
        HarrisList::needs_block(op)
    }

    fn begin(op: Op) -> Seeking {
        Seeking::begun_at(start_of(N, op.key), op)
    }

    fn request(search: &Seeking) -> Request {
        HarrisList::request(search)
    }

    fn feed(search: &mut Seeking, seen: Seen) -> Found {
        HarrisList::feed(search, seen)
    }

    fn list(search: &Seeking, op: Op, block: u32) -> List {
        HarrisList::list(search, op, block)
    }

    fn stores(search: &Seeking, op: Op, block: u32, stores: &mut Stores) {
        HarrisList::stores(search, op, block, stores);
    }

    fn begin_wrap(op: Op, list: &List, stop: u32) -> (ListWrap, Wrapped) {
        HarrisList::begin_wrap(op, list, stop)
    }

    fn wrap_request(wrap: &ListWrap) -> Request {
        HarrisList::wrap_request(wrap)
    }

    fn feed_wrap(wrap: &mut ListWrap, seen: Seen) -> Wrapped {
        HarrisList::feed_wrap(wrap, seen)
    }

    ghost laws = { bucket_laws N };
}

impl<const N: u32, P: Steps<BucketSet<N>>> ListSteps<P> for BucketSet<N> {
    ghost use Rattle.bucket_set.specs.Buckets.{buckets};

    ghost lists = { buckets N };

    ghost Rest = { P.Rest };

    ghost machine = { P.machine };

    ghost rest = { P.rest };

    #[inline(always)]
    fn load(port: &mut P, at: u32) -> u64 {
        port.load(at)
    }

    #[inline(always)]
    fn exchange(port: &mut P, at: u32, from: u64, to: u64) -> Seen {
        port.exchange(at, from, to)
    }
}

impl<const N: u32> Seeks for BucketSet<N> {
    #[inline(always)]
    fn search<P: Steps<BucketSet<N>>>(op: Op, port: &mut P) -> (Seeking, Found) {
        Seeking::sought_from::<BucketSet<N>, P>(start_of(N, op.key), op, port)
    }
}
